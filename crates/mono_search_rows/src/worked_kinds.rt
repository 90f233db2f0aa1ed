//! Worked rows: of which kind a predicate is, and what the evidence of a kind rests on.

ghost use Rattle.std.specs.Prelude.{◌≡◌, [], ◌∷◌, map, true, false};
ghost use Rattle.mono_graph.specs.Worked.{both, first_alone, kite, looped, neither, parallel, triangle};
ghost use Rattle.mono_steps.specs.declared.lemma.Witness.TheVariants as by;
ghost use Rattle.mono_acyclic.specs.Cyclic.{absent_falling, is_cycle_predicate};
ghost use Rattle.mono_distance.specs.Distances.{is_distance};
ghost use Rattle.mono_flow.specs.Flowing.{is_flow_predicate};
ghost use Rattle.mono_kinds.specs.Sharing.{kind_count};
ghost use Rattle.mono_reach.specs.Reaches.{cut_evidence, is_reach};
ghost use Rattle.mono_tree.specs.Spanning.{is_tree_predicate, split_evidence};
ghost use Rattle.mono_search_rows.specs.WorkedKinds.{one_of_each};

/// Each predicate is of one kind, and walks within a number of edges or a weight are of the same.
pub fn predicates_of_each_kind()
    ensures walks { map is_reach one_of_each ≡ true ∷ false ∷ false ∷ false ∷ false ∷ false ∷ [] }
    ensures walks_within_a_bound { map is_distance one_of_each ≡ false ∷ true ∷ true ∷ false ∷ false ∷ false ∷ [] }
    ensures flows { map is_flow_predicate one_of_each ≡ false ∷ false ∷ false ∷ true ∷ false ∷ false ∷ [] }
    ensures trees { map is_tree_predicate one_of_each ≡ false ∷ false ∷ false ∷ false ∷ true ∷ false ∷ [] }
    ensures cycles { map is_cycle_predicate one_of_each ≡ false ∷ false ∷ false ∷ false ∷ false ∷ true ∷ [] }
    ensures count { kind_count ≡ 5 }
{}

/// A cut rests on the absent edges that leave it, and a split on those that join it with the rest. An order rests on the absent edges
/// that don't rise in it, as one from a node to itself.
pub fn evidence_of_absent_edges()
    ensures cut { cut_evidence kite neither (2 ∷ 0 ∷ []) ≡ record { witness = by.Cut (2 ∷ 0 ∷ []); edges = 3 ∷ 0 ∷ [] } }
    ensures split { split_evidence kite neither (2 ∷ 0 ∷ []) ≡ record { witness = by.Split (2 ∷ 0 ∷ []); edges = 3 ∷ 1 ∷ 0 ∷ [] } }
    ensures falling { absent_falling (triangle 1 1 1) first_alone (λ u. u) ≡ 2 ∷ [] }
    ensures falling_and_present { absent_falling (parallel 1 1) both (λ _. 0) ≡ [] }
    ensures to_itself { absent_falling looped [] (λ u. u) ≡ 0 ∷ [] }
{}
