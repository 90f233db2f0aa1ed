//! Worked rows: the labels that a theory tells of node 1, for a walk of weight at most 7 from node 0. One edge of weight 5 leads
//! there.

ghost use Rattle.std.specs.Prelude.{◌≡◌, [], ◌∷◌, None, Some, false, negsuc, pos, true};
ghost use Rattle.mono_graph.specs.Worked.{edge, label, single};
ghost use Rattle.mono_problem.specs.declared.atom.Predicate.TheVariants as kind;
ghost use Rattle.mono_steps.specs.declared.lemma.Witness.TheVariants as by;
ghost use Rattle.mono_theory.specs.declared.stage.Stage.TheVariants as stage;
ghost use Rattle.mono_distance.specs.Readings.{AreBothDecided, IsBelowEachWalk, IsReached, labels_in};
ghost use Rattle.mono_distance.specs.SureLabels.{shows_last};
ghost use Rattle.mono_theory.specs.PossibleRows.{AreTargetsOf};
ghost use Rattle.mono_distance.specs.Worked.{along_the_edge, facts_with, keeping, labelled, labels_with, possibly, rows_with, searched, to_node_1, tree_rows, tree_view, trees_with, ways_from, within_7};

/// Where a node has a label with the surely present edges, some walk costs at most so much, and the label is within the bound.
pub fn nodes_reached()
    ensures exact { IsReached (single (edge 1 0 1 5)) (true ∷ []) (kind.Distance 0 1 (pos 7)) 1 5 }
    ensures at_the_bound { IsReached (single (edge 1 0 1 5)) (true ∷ []) (kind.Distance 0 1 (pos 7)) 1 7 }
    ensures below_each_walk { IsReached (single (edge 1 0 1 5)) (true ∷ []) (kind.Distance 0 1 (pos 7)) 1 4 → ⊥ }
    ensures beyond_the_bound { IsReached (single (edge 1 0 1 5)) (true ∷ []) (kind.Distance 0 1 (pos 7)) 1 8 → ⊥ }
    ensures edge_absent { IsReached (single (edge 1 0 1 5)) (false ∷ []) (kind.Distance 0 1 (pos 7)) 1 5 → ⊥ }
    ensures by_steps { IsReached (single (edge 1 0 1 5)) (true ∷ []) (kind.Steps 0 1 (pos 7)) 1 1 }
{}

/// With the possibly present edges each walk costs at least as much as the label, which is at most one more than the bound.
pub fn labels_below_each_walk()
    ensures exact { IsBelowEachWalk (single (edge 1 0 1 5)) (true ∷ []) (kind.Distance 0 1 (pos 7)) 1 5 }
    ensures lower { IsBelowEachWalk (single (edge 1 0 1 5)) (true ∷ []) (kind.Distance 0 1 (pos 7)) 1 0 }
    ensures above_a_walk { IsBelowEachWalk (single (edge 1 0 1 5)) (true ∷ []) (kind.Distance 0 1 (pos 7)) 1 6 → ⊥ }
    ensures unreached { IsBelowEachWalk (single (edge 1 0 1 5)) (false ∷ []) (kind.Distance 0 1 (pos 7)) 1 8 }
    ensures too_great { IsBelowEachWalk (single (edge 1 0 1 5)) (false ∷ []) (kind.Distance 0 1 (pos 7)) 1 9 → ⊥ }
{}

/// A label is that of the node which is asked for, whatever node the predicate asks for.
pub fn other_nodes()
    ensures first_node { IsReached (single (edge 1 0 1 5)) (true ∷ []) (kind.Distance 0 1 (pos 7)) 0 0 }
    ensures above_the_empty_walk { IsBelowEachWalk (single (edge 1 0 1 5)) (true ∷ []) (kind.Distance 0 1 (pos 7)) 0 1 → ⊥ }
{}

/// With the surely present edges the label is that of the atom's row, where it is within the bound. What a search found is
/// told of the last node alone, and is the bound.
pub fn labels_with_surely_present_edges()
    ensures in_its_row { (labels_in (keeping within_7 (rows_with 1 (0 ∷ 5 ∷ [])) (labelled [])) 4 1).under ≡ Some 5 }
    ensures first_node { (labels_in (keeping within_7 (rows_with 1 (0 ∷ 5 ∷ [])) (labelled [])) 4 0).under ≡ Some 0 }
    ensures at_the_bound { (labels_in (keeping within_7 (rows_with 1 (0 ∷ 7 ∷ [])) (labelled [])) 4 1).under ≡ Some 7 }
    ensures beyond { (labels_in (keeping within_7 (rows_with 1 (0 ∷ 8 ∷ [])) (labelled [])) 4 1).under ≡ None }
    ensures found { (labels_in (keeping within_7 (searched (stage.Shows 1)) (labelled [])) 4 1).under ≡ Some 7 }
    ensures found_in_steps { (labels_in (keeping (kind.Steps 0 1 (pos 3)) (searched (stage.Shows 1)) (labelled [])) 4 1).under ≡ Some 3 }
    ensures found_elsewhere { (labels_in (keeping within_7 (searched (stage.Shows 1)) (labelled [])) 4 0).under ≡ None }
    ensures stands { (labels_in (keeping within_7 (searched stage.Stands) (labelled [])) 4 1).under ≡ None }
    ensures waits { (labels_in (keeping within_7 (searched stage.Waits) (labelled [])) 4 1).under ≡ None }
{}

/// Rows show an atom where the label of its own last node is within its own limit.
pub fn atoms_shown_by_rows()
    ensures below { shows_last (labels_with (5 ∷ 6 ∷ [])) 0 ≡ true }
    ensures at_the_bound { shows_last (labels_with (5 ∷ 7 ∷ [])) 0 ≡ true }
    ensures beyond { shows_last (labels_with (0 ∷ 8 ∷ [])) 0 ≡ false }
    ensures of_the_second_at_the_bound { shows_last (labels_with (4 ∷ 8 ∷ [])) 1 ≡ true }
    ensures of_the_second_beyond { shows_last (labels_with (5 ∷ 0 ∷ [])) 1 ≡ false }
{}

/// With the possibly present edges the label is that of the list that was shown, up to one more than the bound, and 0 while
/// nothing is shown.
pub fn labels_with_possibly_present_edges()
    ensures listed { (labels_in (keeping within_7 (searched stage.Waits) (labelled (label 0 0 ∷ label 1 5 ∷ []))) 4 1).over ≡ 5 }
    ensures first_listed { (labels_in (keeping within_7 (searched stage.Waits) (labelled (label 0 0 ∷ label 1 5 ∷ []))) 4 0).over ≡ 0 }
    ensures unlisted { (labels_in (keeping within_7 (searched stage.Waits) (labelled (label 0 0 ∷ []))) 4 1).over ≡ 8 }
    ensures cut { (labels_in (keeping within_7 (searched stage.Waits) (labelled (label 1 20 ∷ []))) 4 1).over ≡ 8 }
    ensures never_met { (labels_in (keeping (kind.Distance 0 1 (negsuc 0)) (searched stage.Waits) (labelled (label 1 20 ∷ []))) 4 1).over ≡ 0 }
    ensures waits { (labels_in (keeping within_7 (searched stage.Waits) (possibly stage.Waits (Some (by.Label (label 1 5 ∷ []))))) 4 1).over ≡ 0 }
    ensures stands { (labels_in (keeping within_7 (searched stage.Waits) (possibly stage.Stands (Some (by.Label (label 1 5 ∷ []))))) 4 1).over ≡ 0 }
    ensures other_witness { (labels_in (keeping within_7 (searched stage.Waits) (possibly (stage.Shows 0) (Some (by.Path [])))) 4 1).over ≡ 0 }
    ensures nothing_shown { (labels_in (keeping within_7 (searched stage.Waits) (possibly (stage.Shows 0) None)) 4 1).over ≡ 0 }
{}

/// Where rows of the possibly present edges are kept, the label of the last node is one more than the bound where the last search
/// found no walk within it, also after an edge went by which it found others. Of other nodes nothing is known.
pub fn labels_of_last_nodes_in_rows()
    ensures not_found { (labels_in (keeping within_7 (searched stage.Waits) (trees_with 1 (Some 1) None (ways_from 0 [] (0 ∷ 8 ∷ [])))) 4 1).over ≡ 8 }
    ensures found { (labels_in (keeping within_7 (searched stage.Waits) (trees_with 1 (Some 1) None (ways_from 0 along_the_edge (0 ∷ 5 ∷ [])))) 4 1).over ≡ 0 }
    ensures at_the_bound { (labels_in (keeping within_7 (searched stage.Waits)
        (trees_with 1 (Some 1) None (ways_from 0 along_the_edge (0 ∷ 7 ∷ [])))) 4 1).over ≡ 0 }
    ensures beyond { (labels_in (keeping within_7 (searched stage.Waits) (trees_with 1 (Some 1) None (ways_from 0 along_the_edge (0 ∷ 8 ∷ [])))) 4 1).over ≡ 8 }
    ensures an_edge_went { (labels_in (keeping within_7 (searched stage.Waits) (trees_with 1 (Some 0) (Some 1) (ways_from 0 [] (0 ∷ 8 ∷ [])))) 4 1).over ≡ 8 }
    ensures not_searched { (labels_in (keeping within_7 (searched stage.Waits) (trees_with 1 None None (ways_from 0 [] (0 ∷ 8 ∷ [])))) 4 1).over ≡ 0 }
    ensures elsewhere { (labels_in (keeping within_7 (searched stage.Waits) (trees_with 1 (Some 1) None (ways_from 0 [] (0 ∷ 8 ∷ [])))) 4 0).over ≡ 0 }
    ensures never_met { (labels_in (keeping (kind.Distance 0 1 (negsuc 0)) (searched stage.Waits)
        (trees_with 1 (Some 1) None (ways_from 0 [] (0 ∷ 8 ∷ [])))) 4 1).over ≡ 0 }
{}

/// Rows are right before any search, and after one that found the walk. They aren't where the atom's row isn't asked for its walk,
/// is from another node, or measures something else; nor where the walk that was found has an edge that isn't there.
pub fn rows_of_the_possibly_present_edges()
    ensures unsearched { AreTargetsOf (tree_view 1 (tree_rows (to_node_1 ∷ []) None None (ways_from 0 [] (0 ∷ 8 ∷ [])))) (facts_with within_7 (pos 1)) }
    ensures found { AreTargetsOf (tree_view 1 (tree_rows (to_node_1 ∷ []) (Some 0) None (ways_from 0 along_the_edge (0 ∷ 5 ∷ []))))
        (facts_with within_7 (pos 1)) }
    ensures not_asked { AreTargetsOf (tree_view 1 (tree_rows [] None None (ways_from 0 [] (0 ∷ 8 ∷ [])))) (facts_with within_7 (pos 1)) → ⊥ }
    ensures from_another_node { AreTargetsOf (tree_view 0 (tree_rows (to_node_1 ∷ []) None None (ways_from 0 [] (0 ∷ 8 ∷ []))))
        (facts_with within_7 (pos 1)) → ⊥ }
    ensures of_steps { AreTargetsOf (tree_view 1 (tree_rows (to_node_1 ∷ []) None None (ways_from 0 [] (0 ∷ 8 ∷ []))))
        (facts_with (kind.Steps 0 1 (pos 7)) (pos 1)) → ⊥ }
    ensures edge_absent { AreTargetsOf (tree_view 1 (tree_rows (to_node_1 ∷ []) (Some 0) None (ways_from 0 along_the_edge (0 ∷ 5 ∷ []))))
        (facts_with within_7 (negsuc 0)) → ⊥ }
    ensures out_of_reach { AreTargetsOf (tree_view 1 (tree_rows (to_node_1 ∷ []) (Some 1) None (ways_from 0 [] (0 ∷ 8 ∷ []))))
        (facts_with within_7 (pos 1)) → ⊥ }
{}

/// What is kept decides where rows are up to date for all literals seen, or searches leave no atom waiting, on each of the two
/// sides.
pub fn theories_that_decide()
    ensures rows { AreBothDecided (keeping within_7 (rows_with 1 (0 ∷ 5 ∷ [])) (possibly stage.Stands None)) }
    ensures searches { AreBothDecided (keeping within_7 (searched stage.Stands) (possibly (stage.Shows 1) None)) }
    ensures possibly_rows { AreBothDecided (keeping within_7 (searched stage.Stands)
        (trees_with 1 (Some 0) None (ways_from 0 along_the_edge (0 ∷ 5 ∷ [])))) }
    ensures rows_behind { AreBothDecided (keeping within_7 (rows_with 0 (0 ∷ 5 ∷ [])) (possibly stage.Stands None)) → ⊥ }
    ensures surely_waits { AreBothDecided (keeping within_7 (searched stage.Waits) (possibly stage.Stands None)) → ⊥ }
    ensures possibly_behind { AreBothDecided (keeping within_7 (rows_with 1 (0 ∷ 5 ∷ [])) (trees_with 0 (Some 0) None (ways_from 0 [] (0 ∷ 8 ∷ [])))) → ⊥ }
    ensures an_edge_went { AreBothDecided (keeping within_7 (rows_with 1 (0 ∷ 5 ∷ [])) (trees_with 1 (Some 0) (Some 1) (ways_from 0 [] (0 ∷ 8 ∷ [])))) → ⊥ }
    ensures not_searched { AreBothDecided (keeping within_7 (rows_with 1 (0 ∷ 5 ∷ [])) (trees_with 1 None None (ways_from 0 [] (0 ∷ 8 ∷ [])))) → ⊥ }
    ensures possibly_waits { AreBothDecided (keeping within_7 (rows_with 1 (0 ∷ 5 ∷ [])) (possibly stage.Waits None)) → ⊥ }
{}
