//! Worked rows: what the words of this crate's contracts make of small graphs and of one atom, which says with variable 3 that
//! node 1 can be reached from node 0. Edges 1 and 2 of the graph of two parallel edges have the variables 1 and 2.

ghost use Rattle.std.specs.Prelude.{◌≡◌, [], ◌∷◌, ℕ, pos, true, false, None, Some};
ghost use Rattle.mono_dynamic.specs.Worked.{within_weight};
ghost use Rattle.mono_graph.specs.Worked.{amount, both, edge, first_alone, kite, last_alone, neither, parallel, triangle};
ghost use Rattle.mono_problem.specs.declared.atom.Predicate.TheVariants as kind;
ghost use Rattle.mono_steps.specs.declared.lemma.Witness.TheVariants as by;
ghost use Rattle.mono_steps.specs.WorkedLemmas.{minus, of_1};
ghost use Rattle.mono_theory.specs.declared.stage.Stage.TheVariants as stage;
ghost use Rattle.mono_theory.specs.Asked.{asks_walk, first_node, last_node, limit_of, predicate_of, target_of, IsSourceFor};
ghost use Rattle.mono_bounds.specs.Bound.{assigned, unassigned};
ghost use Rattle.mono_theory.specs.Evidences.{all_but, lemma_by, lighter, only, shown_by, side, uses};
ghost use Rattle.mono_theory.specs.PossibleRows.{is_cut_off, possible_parts};
ghost use Rattle.mono_theory.specs.Resting.{absent_across, absent_from, absent_into, absent_out, is_joining};
ghost use Rattle.mono_theory.specs.Stages.{undone, waiting};
ghost use Rattle.mono_theory.specs.Supports.{atom_at, facts_in, gone_back, part_of};
ghost use Rattle.mono_theory.specs.SureParts.{sure_parts};
ghost use Rattle.mono_theory.specs.SureRows.{row_of_atom};
ghost use Rattle.mono_theory.specs.Theories.{atom_of, concerns_of, cut_to, owns_of, seeing};
ghost use Rattle.mono_theory.specs.Walked.{walk_evidence};
ghost use Rattle.mono_theory.specs.Worked.{bound_by, cut_on, reaches, seen_so_far, side_with, twice, two_rows};

use mono_graph::Limit;

/// A theory is concerned with the variables of its graph's edges and of its atoms, and owns the numbers of its atoms. Its facts
/// are its graph, its atoms and what it has seen, whatever it keeps.
pub fn what_theories_are_over()
    ensures variable_of_an_edge { concerns_of (parallel 1 1) reaches 2 ≡ true }
    ensures variable_of_an_atom { concerns_of (parallel 1 1) reaches 3 ≡ true }
    ensures another_variable { concerns_of (parallel 1 1) reaches 4 ≡ false }
    ensures without_atoms { concerns_of (parallel 1 1) [] 3 ≡ false }
    ensures owns_the_first { owns_of twice 1 ≡ true }
    ensures owns_the_last { owns_of twice 2 ≡ true }
    ensures owns_no_variable { owns_of twice 3 ≡ false }
    ensures last { atom_of twice 2 ≡ Some (record { number = 2; graph = 0; var = 3; predicate = kind.Reach 0 1 }) }
    ensures no_atom { atom_of twice 3 ≡ None }
    ensures beside_what_is_kept { facts_in {S = ℕ} {P = ℕ} (record { graph = parallel 1 1; atoms = reaches; seen = pos 1 ∷ []; surely = 4; possibly = 5 })
        ≡ seen_so_far (pos 1 ∷ []) }
{}

/// One more literal stands behind those that were seen. Going back keeps the first ones.
pub fn literals_seen()
    ensures one_more { seeing (seen_so_far (pos 1 ∷ [])) (minus 3) ≡ seen_so_far (pos 1 ∷ minus 3 ∷ []) }
    ensures first_alone { cut_to 1 (seen_so_far (pos 1 ∷ minus 3 ∷ [])) ≡ seen_so_far (pos 1 ∷ []) }
    ensures none { cut_to 0 (seen_so_far (pos 1 ∷ minus 3 ∷ [])) ≡ seen_so_far [] }
    ensures all { cut_to 2 (seen_so_far (pos 1 ∷ minus 3 ∷ [])) ≡ seen_so_far (pos 1 ∷ minus 3 ∷ []) }
{}

/// With each literal the surely present edges grow, or the possibly present ones shrink.
pub fn parts_after_literals()
    ensures surely_at_first { sure_parts (seen_so_far (pos 1 ∷ minus 2 ∷ [])) 0 ≡ neither }
    ensures surely_after_one { sure_parts (seen_so_far (pos 1 ∷ minus 2 ∷ [])) 1 ≡ first_alone }
    ensures possibly_after_one { possible_parts (seen_so_far (pos 1 ∷ minus 2 ∷ [])) 1 ≡ both }
    ensures possibly_after_two { possible_parts (seen_so_far (pos 1 ∷ minus 2 ∷ [])) 2 ≡ first_alone }
    ensures surely { part_of (parallel 1 1) (pos 1 ∷ []) false ≡ first_alone }
    ensures possibly { part_of (parallel 1 1) (pos 1 ∷ []) true ≡ both }
{}

/// A variable with a value is that of all its places. Without one its places are possibly there, and not surely.
pub fn variables_with_values()
    ensures is_true { assigned (bound_by (false ∷ false ∷ false ∷ []) (true ∷ true ∷ true ∷ [])) (pos 1)
        ≡ bound_by (true ∷ false ∷ true ∷ []) (true ∷ true ∷ true ∷ []) }
    ensures is_false { assigned (bound_by (false ∷ false ∷ false ∷ []) (true ∷ true ∷ true ∷ [])) (minus 1)
        ≡ bound_by (false ∷ false ∷ false ∷ []) (false ∷ true ∷ false ∷ []) }
    ensures no_longer_true { unassigned (bound_by (true ∷ true ∷ true ∷ []) (true ∷ true ∷ false ∷ [])) (pos 1)
        ≡ bound_by (false ∷ true ∷ false ∷ []) (true ∷ true ∷ false ∷ []) }
    ensures no_longer_false { unassigned (bound_by (false ∷ false ∷ true ∷ []) (false ∷ false ∷ false ∷ [])) (minus 1)
        ≡ bound_by (false ∷ false ∷ true ∷ []) (true ∷ false ∷ true ∷ []) }
{}

/// Rows of the possibly present edges show an atom where its own row, which was searched, lacks its own target.
pub fn atoms_that_rows_cut_off()
    ensures reached { is_cut_off (two_rows (0 ∷ 1 ∷ []) (within_weight 3 ∷ within_weight 3 ∷ [])) 0 ≡ false }
    ensures lacking { is_cut_off (two_rows (0 ∷ 1 ∷ []) (within_weight 3 ∷ within_weight 3 ∷ [])) 1 ≡ true }
    ensures within_the_first_bound { is_cut_off (two_rows (0 ∷ 0 ∷ []) (within_weight 1 ∷ within_weight 0 ∷ [])) 0 ≡ false }
    ensures beyond_the_second_bound { is_cut_off (two_rows (0 ∷ 0 ∷ []) (within_weight 1 ∷ within_weight 0 ∷ [])) 1 ≡ true }
{}

/// Present edges show that a predicate holds, or that one fails that falls. Absent edges show the other.
pub fn what_evidence_shows()
    ensures present { shown_by (kind.Reach 0 1) true ≡ true }
    ensures absent { shown_by (kind.Reach 0 1) false ≡ false }
    ensures present_on_a_cycle { shown_by kind.Acyclic true ≡ false }
    ensures absent_from_cycles { shown_by kind.Acyclic false ≡ true }
    ensures side_to_hold { side (parallel 1 1) (kind.Reach 0 1) (pos 1 ∷ []) (pos 3) ≡ first_alone }
    ensures side_of_variable_1 { side (parallel 1 1) (kind.Reach 0 1) (pos 2 ∷ []) (pos 1) ≡ last_alone }
    ensures side_to_fail { side (parallel 1 1) (kind.Reach 0 1) (pos 1 ∷ []) (minus 3) ≡ both }
    ensures falling_side_to_hold { side (parallel 1 1) kind.Acyclic (pos 1 ∷ []) (pos 3) ≡ both }
    ensures falling_side_to_fail { side (parallel 1 1) kind.Acyclic (pos 1 ∷ []) (minus 3) ≡ first_alone }
{}

/// Evidence rests on edges by their places, and the witness names them by their numbers. A flow uses an edge to which it gives
/// something.
pub fn edges_of_evidence()
    ensures walk { walk_evidence (triangle 1 1 1) (0 ∷ 2 ∷ []) ≡ record { witness = by.Path (3 ∷ 9 ∷ []); edges = 0 ∷ 2 ∷ [] } }
    ensures these { only kite (1 ∷ 3 ∷ []) ≡ false ∷ true ∷ false ∷ true ∷ [] }
    ensures others { all_but kite (1 ∷ 3 ∷ []) ≡ true ∷ false ∷ true ∷ false ∷ [] }
    ensures used { uses (parallel 1 1) (by.Flow (amount 1 0 ∷ amount 2 1 ∷ [])) 1 ≡ true }
    ensures unused { uses (parallel 1 1) (by.Flow (amount 1 0 ∷ amount 2 1 ∷ [])) 0 ≡ false }
    ensures used_by_a_walk { uses (parallel 1 1) (by.Path (2 ∷ [])) 1 ≡ true }
{}

/// Of two pieces of evidence the one on fewer edges is taken, the first where they rest on as many or there is no other.
pub fn evidence_on_fewer_edges()
    ensures second { lighter (cut_on (0 ∷ 1 ∷ [])) (Some (cut_on (2 ∷ []))) ≡ cut_on (2 ∷ []) }
    ensures first { lighter (cut_on (2 ∷ [])) (Some (cut_on (0 ∷ 1 ∷ []))) ≡ cut_on (2 ∷ []) }
    ensures as_many { lighter (cut_on (0 ∷ 1 ∷ [])) (Some (cut_on (1 ∷ 2 ∷ []))) ≡ cut_on (0 ∷ 1 ∷ []) }
    ensures no_other { lighter (cut_on (0 ∷ [])) None ≡ cut_on (0 ∷ []) }
{}

/// The lemma of evidence has what it shows of the atom, and the other value of each edge on which it rests.
pub fn lemmas_by_evidence()
    ensures holds { lemma_by (parallel 1 1) (atom_at reaches 0) (record { witness = by.Path (2 ∷ []); edges = 1 ∷ [] })
        ≡ of_1 (pos 3 ∷ minus 2 ∷ []) (by.Path (2 ∷ [])) }
    ensures fails { lemma_by (parallel 1 1) (atom_at reaches 0) (record { witness = by.Cut (0 ∷ []); edges = 0 ∷ 1 ∷ [] })
        ≡ of_1 (minus 3 ∷ pos 1 ∷ pos 2 ∷ []) (by.Cut (0 ∷ [])) }
{}

/// An atom waits again where it was shown by a literal that goes, or where its support goes.
pub fn atoms_that_wait_again()
    ensures shown_by_one_that_goes { undone 1 (stage.Shows 2) ≡ stage.Waits }
    ensures shown_by_one_that_stays { undone 2 (stage.Shows 2) ≡ stage.Shows 2 }
    ensures supported { undone 0 stage.Stands ≡ stage.Stands }
    ensures on_a_side { gone_back 1 (side_with (stage.Shows 1 ∷ stage.Stands ∷ stage.Shows 2 ∷ []))
        ≡ side_with (stage.Shows 1 ∷ stage.Stands ∷ stage.Waits ∷ []) }
    ensures support_goes { waiting stage.Stands ≡ stage.Waits }
    ensures shown { waiting (stage.Shows 2) ≡ stage.Shows 2 }
{}

/// Each predicate that asks for a walk is that of its two nodes and its limit, and trees, flows and cycles ask for none.
pub fn predicates_of_walks()
    ensures reach { predicate_of 4 7 Limit.Free ≡ kind.Reach 4 7 }
    ensures steps { predicate_of 4 7 (Limit.Steps (pos 2)) ≡ kind.Steps 4 7 (pos 2) }
    ensures distance { predicate_of 4 7 (Limit.Weight (pos 2)) ≡ kind.Distance 4 7 (pos 2) }
    ensures asked { asks_walk (kind.Reach 4 7) ≡ true }
    ensures asked_in_steps { asks_walk (kind.Steps 4 7 (pos 2)) ≡ true }
    ensures asked_by_weight { asks_walk (kind.Distance 4 7 (pos 2)) ≡ true }
    ensures no_flow { asks_walk (kind.Flow 4 7 (pos 2)) ≡ false }
    ensures no_tree { asks_walk (kind.Tree (pos 2)) ≡ false }
    ensures no_cycle { asks_walk kind.Acyclic ≡ false }
{}

/// Where a walk that is asked for begins, to which node it leads, and what it may cost.
pub fn walks_asked_for()
    ensures first_of_reach { first_node (kind.Reach 4 7) ≡ 4 }
    ensures first_of_steps { first_node (kind.Steps 4 7 (pos 2)) ≡ 4 }
    ensures first_of_distance { first_node (kind.Distance 4 7 (pos 2)) ≡ 4 }
    ensures last_of_reach { last_node (kind.Reach 4 7) ≡ 7 }
    ensures last_of_steps { last_node (kind.Steps 4 7 (pos 2)) ≡ 7 }
    ensures last_of_distance { last_node (kind.Distance 4 7 (pos 2)) ≡ 7 }
    ensures free { limit_of (kind.Reach 4 7) ≡ Limit.Free }
    ensures in_steps { limit_of (kind.Steps 4 7 (pos 2)) ≡ Limit.Steps (pos 2) }
    ensures by_weight { limit_of (kind.Distance 4 7 (pos 2)) ≡ Limit.Weight (pos 2) }
    ensures target { target_of (kind.Steps 4 7 (pos 2)) ≡ record { node = 7; limit = Limit.Steps (pos 2) } }
{}

/// A walk is searched from its first node, by the predicate's measure, and up to beyond its bound.
pub fn sources_of_walks()
    ensures just_beyond { IsSourceFor (kind.Steps 4 7 (pos 2)) (record { node = 4; limit = Limit.Steps (pos 2); cap = 3 }) }
    ensures of_greater_bound { IsSourceFor (kind.Steps 4 7 (pos 2)) (record { node = 4; limit = Limit.Steps (pos 9); cap = 10 }) }
    ensures up_to_the_bound { IsSourceFor (kind.Steps 4 7 (pos 2)) (record { node = 4; limit = Limit.Steps (pos 2); cap = 2 }) → ⊥ }
    ensures by_weight { IsSourceFor (kind.Steps 4 7 (pos 2)) (record { node = 4; limit = Limit.Weight (pos 2); cap = 3 }) → ⊥ }
    ensures from_the_last_node { IsSourceFor (kind.Steps 4 7 (pos 2)) (record { node = 7; limit = Limit.Steps (pos 2); cap = 3 }) → ⊥ }
{}

/// The row of an atom is the one that is named at its place.
pub fn rows_of_atoms()
    ensures first { row_of_atom {R = ℕ} (record { rows = 5 ∷ 7 ∷ 9 ∷ []; row_of = 2 ∷ 0 ∷ 1 ∷ []; targets = [] }) 0 ≡ 2 }
    ensures last { row_of_atom {R = ℕ} (record { rows = 5 ∷ 7 ∷ 9 ∷ []; row_of = 2 ∷ 0 ∷ 1 ∷ []; targets = [] }) 2 ≡ 1 }
{}

/// An edge joins a marked node with one that isn't, in either direction.
pub fn edges_that_join()
    ensures leaves { is_joining (true ∷ false ∷ []) (edge 1 0 1 1) ≡ true }
    ensures enters { is_joining (true ∷ false ∷ []) (edge 1 1 0 1) ≡ true }
    ensures inside { is_joining (true ∷ true ∷ []) (edge 1 0 1 1) ≡ false }
    ensures outside { is_joining (false ∷ false ∷ []) (edge 1 0 1 1) ≡ false }
    ensures to_itself { is_joining (true ∷ []) (edge 1 0 0 1) ≡ false }
{}

/// Where no edge of the kite is present, two leave the set of nodes 2 and 0, one enters it, and one lies within it. They stand
/// node after node. Where the first edge is present, only one leaves the set.
pub fn absent_edges_at_a_border()
    ensures leaving { absent_out kite neither (2 ∷ 0 ∷ []) ≡ 3 ∷ 0 ∷ [] }
    ensures crossing { absent_across kite neither (2 ∷ 0 ∷ []) ≡ 3 ∷ 1 ∷ 0 ∷ [] }
    ensures leaving_absent { absent_out kite first_alone (2 ∷ 0 ∷ []) ≡ 3 ∷ [] }
    ensures crossing_absent { absent_across kite first_alone (2 ∷ 0 ∷ []) ≡ 3 ∷ 1 ∷ [] }
    ensures from_one { absent_from kite neither (2 ∷ 0 ∷ []) 2 ≡ 3 ∷ [] }
    ensures into_one { absent_into kite neither (2 ∷ 0 ∷ []) 2 ≡ 1 ∷ [] }
    ensures of_all { absent_across kite neither (0 ∷ 1 ∷ 2 ∷ 3 ∷ []) ≡ [] }
    ensures of_none { absent_across kite neither [] ≡ [] }
{}
