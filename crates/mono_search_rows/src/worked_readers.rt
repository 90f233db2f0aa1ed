//! Worked rows: what theories tell of two atoms, by whose own stage and row it is. One edge of weight 5 leads from node 0 to node 1.
//! The first atom asks for a walk back, and the second one for a walk along the edge.

ghost use Rattle.std.specs.Prelude.{◌≡◌, [], ◌∷◌, None, Some, false, negsuc, pos, true};
ghost use Rattle.mono_graph.specs.Worked.{amount, edge, label, single};
ghost use Rattle.mono_problem.specs.declared.atom.Predicate.TheVariants as kind;
ghost use Rattle.mono_steps.specs.declared.lemma.Witness.TheVariants as by;
ghost use Rattle.mono_theory.specs.declared.stage.Stage.TheVariants as stage;
ghost use Rattle.mono_reach.specs.Readings.{marks_at};
ghost use Rattle.mono_distance.specs.Readings.{labels_in, IsBelowEachWalk};
ghost use Rattle.mono_distance.specs.Worked.{keeping, labelled, searched, within_7};
ghost use Rattle.mono_flow.specs.KeptFlows.{amounts_in};
ghost use Rattle.mono_search_rows.specs.WorkedKinds.{distances_of_two, labels_of_each, marks_of_each, reach_of_two, second_measured, second_searched, trees_of_each, walks_of_each};

/// Each atom has marks of its own, and its own last node.
pub fn marks_of_two_atoms()
    ensures found { (marks_at second_searched 1 1).under ≡ true }
    ensures found_elsewhere { (marks_at second_searched 1 0).under ≡ false }
    ensures first_waits { (marks_at second_searched 0 0).under ≡ false }
    ensures cut_off { (marks_at second_searched 1 1).over ≡ false }
    ensures first_uncut { (marks_at second_searched 0 1).over ≡ true }
    ensures in_its_row { (marks_at (reach_of_two marks_of_each trees_of_each) 1 0).under ≡ true }
    ensures in_another_row_alone { (marks_at (reach_of_two marks_of_each trees_of_each) 1 1).under ≡ false }
    ensures cut_off_by_its_row { (marks_at (reach_of_two marks_of_each trees_of_each) 1 1).over ≡ false }
    ensures first_not_searched { (marks_at (reach_of_two marks_of_each trees_of_each) 0 0).over ≡ true }
{}

/// Each atom has labels of its own, its own last node and its own bound. It is named by its number.
pub fn labels_of_two_atoms()
    ensures found { (labels_in second_measured 4 1).under ≡ Some 7 }
    ensures first_waits { (labels_in second_measured 2 0).under ≡ None }
    ensures listed { (labels_in second_measured 4 1).over ≡ 5 }
    ensures first_unlisted { (labels_in second_measured 2 1).over ≡ 0 }
    ensures in_its_row { (labels_in (distances_of_two labels_of_each walks_of_each) 4 1).under ≡ Some 5 }
    ensures beyond_its_bound { (labels_in (distances_of_two labels_of_each walks_of_each) 2 1).under ≡ None }
    ensures reached_by_its_row { (labels_in (distances_of_two labels_of_each walks_of_each) 4 1).over ≡ 0 }
    ensures cut_off_by_its_row { (labels_in (distances_of_two labels_of_each walks_of_each) 2 0).over ≡ 3 }
{}

/// Of two labels of a node the first one counts. A bound below 0 is told as 0. A walk of one edge costs one step, whatever the edge
/// weighs.
pub fn labels_at_the_limits()
    ensures listed_twice { (labels_in (keeping within_7 (searched stage.Waits) (labelled (label 1 5 ∷ label 1 7 ∷ []))) 4 1).over ≡ 5 }
    ensures bound_below_0 { (labels_in (keeping (kind.Distance 0 1 (negsuc 0)) (searched (stage.Shows 1)) (labelled [])) 4 1).under ≡ Some 0 }
    ensures one_step { IsBelowEachWalk (single (edge 1 0 1 5)) (true ∷ []) (kind.Steps 0 1 (pos 7)) 1 2 → ⊥ }
{}

/// A flow has amounts, and no other witness does.
pub fn amounts_of_witnesses()
    ensures flow { amounts_in (by.Flow (amount 1 3 ∷ [])) ≡ amount 1 3 ∷ [] }
    ensures walk { amounts_in (by.Path (1 ∷ [])) ≡ [] }
{}
