//! Worked rows: lemmas over small graphs, and the first fault of each.

ghost use Rattle.std.specs.Prelude.{◌≡◌, [], ◌∷◌, ◌+◌, ◌^◌, true, false, pos, Some, None};
ghost use Rattle.mono_graph.specs.Worked.{round_trip, triangle, pipe};
ghost use Rattle.mono_problem.specs.declared.atom.Predicate.TheVariants as kind;
ghost use Rattle.mono_steps.specs.declared.lemma.Witness.TheVariants as by;
ghost use Rattle.mono_steps.specs.declared.fault.StepFault.TheVariants as fault;
ghost use Rattle.mono_steps.specs.Witnesses.{justifies, lemma_fault};
ghost use Rattle.mono_steps.specs.Steps.{are_justified, is_refutation};
ghost use Rattle.mono_steps.specs.WorkedLemmas.{asks, of_1, minus, barred, edge_1_reaches, chain};

/// A path may go over an edge again. It needs the edge's literal once, and each time counts.
pub fn path_that_repeats_an_edge()
    ensures reach { lemma_fault (asks (round_trip 2 3) (kind.Reach 0 1) 3) (of_1 (minus 1 ∷ minus 2 ∷ pos 3 ∷ []) (by.Path (1 ∷ 2 ∷ 1 ∷ []))) ≡ None }
    ensures justified { justifies (asks (round_trip 2 3) (kind.Reach 0 1) 3) (of_1 (minus 1 ∷ minus 2 ∷ pos 3 ∷ []) (by.Path (1 ∷ 2 ∷ 1 ∷ []))) ≡ true }
    ensures three_steps { lemma_fault (asks (round_trip 2 3) (kind.Steps 0 1 (pos 3)) 3) (of_1 (minus 1 ∷ minus 2
        ∷ pos 3 ∷ []) (by.Path (1 ∷ 2 ∷ 1 ∷ []))) ≡ None }
    ensures not_two { lemma_fault (asks (round_trip 2 3) (kind.Steps 0 1 (pos 2)) 3) (of_1 (minus 1 ∷ minus 2
        ∷ pos 3 ∷ []) (by.Path (1 ∷ 2 ∷ 1 ∷ []))) ≡ Some fault.WitnessFails }
    ensures weighs_seven { lemma_fault (asks (round_trip 2 3) (kind.Distance 0 1 (pos 7)) 3) (of_1 (minus 1 ∷ minus 2
        ∷ pos 3 ∷ []) (by.Path (1 ∷ 2 ∷ 1 ∷ []))) ≡ None }
    ensures not_six { lemma_fault (asks (round_trip 2 3) (kind.Distance 0 1 (pos 6)) 3) (of_1 (minus 1 ∷ minus 2
        ∷ pos 3 ∷ []) (by.Path (1 ∷ 2 ∷ 1 ∷ []))) ≡ Some fault.WitnessFails }
{}

/// The empty path leads from a node to itself and needs the predicate's literal alone. It leads to no other node, and no
/// path meets a bound of -1.
pub fn empty_path()
    ensures stays { lemma_fault (asks (round_trip 2 3) (kind.Reach 1 1) 3) (of_1 (pos 3 ∷ []) (by.Path [])) ≡ None }
    ensures needs_its_literal { lemma_fault (asks (round_trip 2 3) (kind.Reach 1 1) 3) (of_1 [] (by.Path [])) ≡ Some fault.MissingLiteral }
    ensures wrong_sign { lemma_fault (asks (round_trip 2 3) (kind.Reach 1 1) 3) (of_1 (minus 3 ∷ []) (by.Path [])) ≡ Some fault.MissingLiteral }
    ensures goes_nowhere { lemma_fault (asks (round_trip 2 3) (kind.Reach 0 1) 3) (of_1 (pos 3 ∷ []) (by.Path [])) ≡ Some fault.WitnessFails }
    ensures never_met { lemma_fault (asks (round_trip 2 3) (kind.Steps 0 0 (minus 1)) 3) (of_1 (pos 3 ∷ []) (by.Path [])) ≡ Some fault.WitnessFails }
{}

/// A path fails where it would with all edges present. Else its clause has all that it needs, or a literal is missing.
pub fn failing_and_missing_for_a_path()
    ensures wider { lemma_fault (asks (round_trip 2 3) (kind.Reach 0 1) 3) (of_1 (minus 1 ∷ pos 2 ∷ pos 3 ∷ []) (by.Path (1 ∷ []))) ≡ None }
    ensures no_edge_literal { lemma_fault (asks (round_trip 2 3) (kind.Reach 0 1) 3) (of_1 (pos 3 ∷ []) (by.Path (1 ∷ []))) ≡ Some fault.MissingLiteral }
    ensures edge_not_negated { lemma_fault (asks (round_trip 2 3) (kind.Reach 0 1) 3) (of_1 (pos 1 ∷ pos 3 ∷ []) (by.Path (1 ∷ [])))
        ≡ Some fault.MissingLiteral }
    ensures no_own_literal { lemma_fault (asks (round_trip 2 3) (kind.Reach 0 1) 3) (of_1 (minus 1 ∷ []) (by.Path (1 ∷ []))) ≡ Some fault.MissingLiteral }
    ensures wrong_way { lemma_fault (asks (round_trip 2 3) (kind.Reach 0 1) 3) (of_1 (minus 2 ∷ pos 3 ∷ []) (by.Path (2 ∷ []))) ≡ Some fault.WitnessFails }
    ensures failing_first { lemma_fault (asks (round_trip 2 3) (kind.Reach 0 1) 3) (of_1 [] (by.Path (2 ∷ []))) ≡ Some fault.WitnessFails }
{}

/// A cut fails where it would with no edge present. Its list is read as a set.
pub fn failing_and_missing_for_a_cut()
    ensures cut { lemma_fault (asks (round_trip 2 3) (kind.Reach 0 1) 3) (of_1 (pos 1 ∷ minus 3 ∷ []) (by.Cut (0 ∷ []))) ≡ None }
    ensures node_twice { lemma_fault (asks (round_trip 2 3) (kind.Reach 0 1) 3) (of_1 (pos 1 ∷ minus 3 ∷ []) (by.Cut (0 ∷ 0 ∷ []))) ≡ None }
    ensures no_edge_literal { lemma_fault (asks (round_trip 2 3) (kind.Reach 0 1) 3) (of_1 (minus 3 ∷ []) (by.Cut (0 ∷ []))) ≡ Some fault.MissingLiteral }
    ensures edge_negated { lemma_fault (asks (round_trip 2 3) (kind.Reach 0 1) 3) (of_1 (minus 1 ∷ minus 3 ∷ []) (by.Cut (0 ∷ [])))
        ≡ Some fault.MissingLiteral }
    ensures no_own_literal { lemma_fault (asks (round_trip 2 3) (kind.Reach 0 1) 3) (of_1 (pos 1 ∷ []) (by.Cut (0 ∷ []))) ≡ Some fault.MissingLiteral }
    ensures no_start { lemma_fault (asks (round_trip 2 3) (kind.Reach 0 1) 3) (of_1 (pos 1 ∷ minus 3 ∷ []) (by.Cut (1 ∷ []))) ≡ Some fault.WitnessFails }
    ensures end_within { lemma_fault (asks (round_trip 2 3) (kind.Reach 0 1) 3) (of_1 (pos 1 ∷ minus 3 ∷ []) (by.Cut (0 ∷ 1 ∷ []))) ≡ Some fault.WitnessFails }
{}

/// Labels need the edges along which they rise by more than the edge costs. A node that isn't listed has the bound plus 1.
pub fn labels()
    ensures none_needed { lemma_fault (asks (round_trip 2 3) (kind.Distance 0 1 (pos 1)) 3)
        (of_1 (minus 3 ∷ []) (by.Label (record { node = 0; value = 0 } ∷ record { node = 1; value = 2 } ∷ []))) ≡ None }
    ensures unlisted { lemma_fault (asks (round_trip 2 3) (kind.Distance 0 1 (pos 1)) 3)
        (of_1 (minus 3 ∷ []) (by.Label (record { node = 0; value = 0 } ∷ []))) ≡ None }
    ensures tense { lemma_fault (asks (round_trip 2 3) (kind.Distance 0 1 (pos 1)) 3)
        (of_1 (minus 3 ∷ []) (by.Label (record { node = 0; value = 0 } ∷ record { node = 1; value = 3 } ∷ []))) ≡ Some fault.MissingLiteral }
    ensures needed { lemma_fault (asks (round_trip 2 3) (kind.Distance 0 1 (pos 1)) 3) (of_1 (pos 1
        ∷ minus 3 ∷ []) (by.Label (record { node = 0; value = 0 } ∷ record { node = 1; value = 3 } ∷ []))) ≡ None }
    ensures steps_cost_1 { lemma_fault (asks (round_trip 2 3) (kind.Steps 0 1 (pos 1)) 3)
        (of_1 (minus 3 ∷ []) (by.Label (record { node = 0; value = 0 } ∷ []))) ≡ Some fault.MissingLiteral }
    ensures start_not_0 { lemma_fault (asks (round_trip 2 3) (kind.Distance 0 1 (pos 1)) 3)
        (of_1 (minus 3 ∷ []) (by.Label (record { node = 0; value = 1 } ∷ []))) ≡ Some fault.WitnessFails }
    ensures node_twice { lemma_fault (asks (round_trip 2 3) (kind.Distance 0 1 (pos 1)) 3)
        (of_1 (minus 3 ∷ []) (by.Label (record { node = 0; value = 0 } ∷ record { node = 0; value = 0 } ∷ []))) ≡ Some fault.WitnessFails }
    ensures bound_of_minus_1 { lemma_fault (asks (round_trip 2 3) (kind.Steps 0 1 (minus 1)) 3) (of_1 (minus 3 ∷ []) (by.Label [])) ≡ None }
{}

/// A flow needs the edges that carry something. A flow cut needs so many of the edges that leave it that the others weigh
/// less than the bound. For a bound of 0 there is none: it fails with no edge present, and the empty flow passes.
pub fn flows_and_flow_cuts()
    ensures flow { lemma_fault (asks (pipe 3 2) (kind.Flow 0 2 (pos 2)) 5) (of_1 (minus 1 ∷ minus 2
        ∷ pos 5 ∷ []) (by.Flow (record { edge = 1; amount = 2 } ∷ record { edge = 2; amount = 2 } ∷ []))) ≡ None }
    ensures edge_missing { lemma_fault (asks (pipe 3 2) (kind.Flow 0 2 (pos 2)) 5) (of_1 (minus 1
        ∷ pos 5 ∷ []) (by.Flow (record { edge = 1; amount = 2 } ∷ record { edge = 2; amount = 2 } ∷ []))) ≡ Some fault.MissingLiteral }
    ensures lost { lemma_fault (asks (pipe 3 2) (kind.Flow 0 2 (pos 2)) 5) (of_1 (minus 1 ∷ minus 2
        ∷ pos 5 ∷ []) (by.Flow (record { edge = 1; amount = 3 } ∷ record { edge = 2; amount = 2 } ∷ []))) ≡ Some fault.WitnessFails }
    ensures listed_with_0 { lemma_fault (asks (pipe 3 2) (kind.Flow 0 2 (pos 0)) 5)
        (of_1 (pos 5 ∷ []) (by.Flow (record { edge = 2; amount = 0 } ∷ []))) ≡ None }
    ensures cut_needs_none { lemma_fault (asks (pipe 3 2) (kind.Flow 0 2 (pos 3)) 5) (of_1 (minus 5 ∷ []) (by.FlowCut (0 ∷ 1 ∷ []))) ≡ None }
    ensures cut_needs_one { lemma_fault (asks (pipe 3 2) (kind.Flow 0 2 (pos 2)) 5) (of_1 (minus 5 ∷ []) (by.FlowCut (0 ∷ 1 ∷ [])))
        ≡ Some fault.MissingLiteral }
    ensures cut_has_it { lemma_fault (asks (pipe 3 2) (kind.Flow 0 2 (pos 2)) 5) (of_1 (pos 2 ∷ minus 5 ∷ []) (by.FlowCut (0 ∷ 1 ∷ []))) ≡ None }
    ensures no_cut_for_0 { lemma_fault (asks (pipe 3 2) (kind.Flow 0 2 (pos 0)) 5) (of_1 (pos 1 ∷ minus 5 ∷ []) (by.FlowCut (0 ∷ [])))
        ≡ Some fault.WitnessFails }
    ensures flow_for_0 { lemma_fault (asks (pipe 3 2) (kind.Flow 0 2 (pos 0)) 5) (of_1 (pos 5 ∷ []) (by.Flow [])) ≡ None }
{}

/// A least tree needs the edges whose ends it joins only by heavier ones. With a tie it needs nothing.
pub fn trees_splits_and_least_trees()
    ensures tree { lemma_fault (asks (triangle 1 1 1) (kind.Tree (pos 2)) 5) (of_1 (minus 3 ∷ minus 7 ∷ pos 5 ∷ []) (by.Tree (3 ∷ 7 ∷ []))) ≡ None }
    ensures tree_edge_missing { lemma_fault (asks (triangle 1 1 1) (kind.Tree (pos 2)) 5) (of_1 (minus 3 ∷ pos 5 ∷ []) (by.Tree (3 ∷ 7 ∷ [])))
        ≡ Some fault.MissingLiteral }
    ensures too_heavy { lemma_fault (asks (triangle 1 1 1) (kind.Tree (pos 1)) 5) (of_1 (minus 3 ∷ minus 7 ∷ pos 5 ∷ []) (by.Tree (3 ∷ 7 ∷ [])))
        ≡ Some fault.WitnessFails }
    ensures split { lemma_fault (asks (triangle 1 1 1) (kind.Tree (pos 2)) 5) (of_1 (pos 7 ∷ pos 9 ∷ minus 5 ∷ []) (by.Split (2 ∷ []))) ≡ None }
    ensures split_both_ways { lemma_fault (asks (triangle 1 1 1) (kind.Tree (pos 2)) 5) (of_1 (pos 9 ∷ minus 5 ∷ []) (by.Split (2 ∷ [])))
        ≡ Some fault.MissingLiteral }
    ensures all_nodes { lemma_fault (asks (triangle 1 1 1) (kind.Tree (pos 2)) 5) (of_1 (pos 7 ∷ pos 9 ∷ minus 5 ∷ []) (by.Split (0 ∷ 1 ∷ 2 ∷ [])))
        ≡ Some fault.WitnessFails }
    ensures tie { lemma_fault (asks (triangle 1 1 1) (kind.Tree (pos 1)) 5) (of_1 (minus 5 ∷ []) (by.Least (3 ∷ 7 ∷ []))) ≡ None }
    ensures lighter_edge { lemma_fault (asks (triangle 1 1 0) (kind.Tree (pos 1)) 5) (of_1 (minus 5 ∷ []) (by.Least (3 ∷ 7 ∷ []))) ≡ Some fault.MissingLiteral }
    ensures lighter_edge_needed { lemma_fault (asks (triangle 1 1 0) (kind.Tree (pos 1)) 5) (of_1 (pos 9 ∷ minus 5 ∷ []) (by.Least (3 ∷ 7 ∷ []))) ≡ None }
    ensures not_above { lemma_fault (asks (triangle 1 1 1) (kind.Tree (pos 2)) 5) (of_1 (minus 5 ∷ []) (by.Least (3 ∷ 7 ∷ []))) ≡ Some fault.WitnessFails }
    ensures edge_twice { lemma_fault (asks (triangle 1 1 1) (kind.Tree (pos 1)) 5) (of_1 (minus 5 ∷ []) (by.Least (3 ∷ 3 ∷ []))) ≡ Some fault.WitnessFails }
{}

/// An edge may stand under its predicate's own variable. Then the clause needs both signs, and has them.
pub fn edge_under_its_predicates_variable()
    ensures path { lemma_fault (asks (round_trip 2 3) (kind.Reach 0 1) 1) (of_1 (pos 1 ∷ minus 1 ∷ []) (by.Path (1 ∷ []))) ≡ None }
    ensures path_needs_both { lemma_fault (asks (round_trip 2 3) (kind.Reach 0 1) 1) (of_1 (pos 1 ∷ []) (by.Path (1 ∷ []))) ≡ Some fault.MissingLiteral }
    ensures cut { lemma_fault (asks (round_trip 2 3) (kind.Reach 0 1) 1) (of_1 (pos 1 ∷ minus 1 ∷ []) (by.Cut (0 ∷ []))) ≡ None }
    ensures cut_needs_both { lemma_fault (asks (round_trip 2 3) (kind.Reach 0 1) 1) (of_1 (minus 1 ∷ []) (by.Cut (0 ∷ []))) ≡ Some fault.MissingLiteral }
{}

/// Every number that a witness names is looked up, for each of the ten words. Labels and amounts are not.
pub fn unknown_numbers()
    ensures path { lemma_fault (asks (triangle 1 1 1) (kind.Reach 0 1) 5) (of_1 [] (by.Path (3 ∷ 4 ∷ []))) ≡ Some fault.UnknownNumber }
    ensures cut { lemma_fault (asks (triangle 1 1 1) (kind.Reach 0 1) 5) (of_1 [] (by.Cut (0 ∷ 3 ∷ []))) ≡ Some fault.UnknownNumber }
    ensures label { lemma_fault (asks (triangle 1 1 1) (kind.Steps 0 1 (pos 0)) 5)
        (of_1 [] (by.Label (record { node = 0; value = 0 } ∷ record { node = 3; value = 0 } ∷ []))) ≡ Some fault.UnknownNumber }
    ensures flow { lemma_fault (asks (triangle 1 1 1) (kind.Flow 0 1 (pos 0)) 5) (of_1 [] (by.Flow (record { edge = 0; amount = 0 } ∷ [])))
        ≡ Some fault.UnknownNumber }
    ensures flow_cut { lemma_fault (asks (triangle 1 1 1) (kind.Flow 0 1 (pos 2)) 5) (of_1 [] (by.FlowCut (0 ∷ 3 ∷ []))) ≡ Some fault.UnknownNumber }
    ensures tree { lemma_fault (asks (triangle 1 1 1) (kind.Tree (pos 2)) 5) (of_1 [] (by.Tree (3 ∷ 10 ∷ []))) ≡ Some fault.UnknownNumber }
    ensures split { lemma_fault (asks (triangle 1 1 1) (kind.Tree (pos 2)) 5) (of_1 [] (by.Split (2 ∷ 3 ∷ []))) ≡ Some fault.UnknownNumber }
    ensures least { lemma_fault (asks (triangle 1 1 1) (kind.Tree (pos 1)) 5) (of_1 [] (by.Least (3 ∷ 5 ∷ []))) ≡ Some fault.UnknownNumber }
    ensures cycle { lemma_fault (asks (triangle 1 1 1) kind.Acyclic 5) (of_1 [] (by.Cycle (3 ∷ 5 ∷ []))) ≡ Some fault.UnknownNumber }
    ensures order { lemma_fault (asks (triangle 1 1 1) kind.Acyclic 5) (of_1 [] (by.Order (0 ∷ 1 ∷ 2 ∷ 3 ∷ []))) ≡ Some fault.UnknownNumber }
    ensures great_label { lemma_fault (asks (round_trip 2 3) (kind.Distance 0 1 (pos 1)) 3) (of_1 (pos 1
        ∷ minus 3 ∷ []) (by.Label (record { node = 0; value = 0 } ∷ record { node = 1; value = 2 ^ 60 + 1 } ∷ []))) ≡ None }
    ensures not_justified { justifies (asks (round_trip 2 3) (kind.Distance 0 1 (pos 1)) 3) (of_1 (pos 1
        ∷ minus 3 ∷ []) (by.Label (record { node = 0; value = 0 } ∷ record { node = 1; value = 2 ^ 60 + 1 } ∷ []))) ≡ false }
    ensures greatest_label { justifies (asks (round_trip 2 3) (kind.Distance 0 1 (pos 1)) 3) (of_1 (pos 1
        ∷ minus 3 ∷ []) (by.Label (record { node = 0; value = 0 } ∷ record { node = 1; value = 2 ^ 60 } ∷ []))) ≡ true }
    ensures great_amount { justifies (asks (pipe (2 ^ 61) (2 ^ 61)) (kind.Flow 0 2 (pos 2)) 5) (of_1 (minus 1 ∷ minus 2
        ∷ pos 5 ∷ []) (by.Flow (record { edge = 1; amount = 2 ^ 60 + 1 } ∷ record { edge = 2; amount = 2 ^ 60 + 1 } ∷ []))) ≡ false }
    ensures greatest_amount { justifies (asks (pipe (2 ^ 61) (2 ^ 61)) (kind.Flow 0 2 (pos 2)) 5) (of_1 (minus 1 ∷ minus 2
        ∷ pos 5 ∷ []) (by.Flow (record { edge = 1; amount = 2 ^ 60 } ∷ record { edge = 2; amount = 2 ^ 60 } ∷ []))) ≡ true }
{}

/// The checks stand in a fixed order: the predicate, the word, the numbers, the witness, the literals.
pub fn first_fault_of_several()
    ensures no_predicate_2 { lemma_fault (asks (round_trip 2 3) (kind.Reach 0 1) 3) (record {
      atom = 2;
      clause = pos 11 ∷ [];
      witness = by.Split (9 ∷ []);
    }) ≡ Some fault.UnknownAtom }
    ensures no_predicate_0 { lemma_fault (asks (round_trip 2 3) (kind.Reach 0 1) 3) (record { atom = 0; clause = pos 3 ∷ []; witness = by.Path [] })
        ≡ Some fault.UnknownAtom }
    ensures wrong_word { lemma_fault (asks (round_trip 2 3) (kind.Reach 0 1) 3) (of_1 (pos 11 ∷ []) (by.Split (9 ∷ []))) ≡ Some fault.WrongKind }
    ensures no_cut_within_a_bound { lemma_fault (asks (round_trip 2 3) (kind.Steps 0 1 (pos 1)) 3) (of_1 (pos 1 ∷ minus 3 ∷ []) (by.Cut (0 ∷ [])))
        ≡ Some fault.WrongKind }
    ensures no_labels_without { lemma_fault (asks (round_trip 2 3) (kind.Reach 0 1) 3) (of_1 (minus 3 ∷ []) (by.Label [])) ≡ Some fault.WrongKind }
    ensures unknown_variable { lemma_fault (asks (round_trip 2 3) (kind.Reach 0 1) 3) (of_1 (pos 11 ∷ []) (by.Path (2 ∷ []))) ≡ Some fault.UnknownNumber }
    ensures unknown_edge { lemma_fault (asks (triangle 1 1 1) (kind.Reach 0 1) 5) (of_1 [] (by.Path (8 ∷ []))) ≡ Some fault.UnknownNumber }
    ensures unknown_node { lemma_fault (asks (round_trip 2 3) (kind.Reach 0 1) 3) (of_1 [] (by.Cut (0 ∷ 2 ∷ []))) ≡ Some fault.UnknownNumber }
    ensures witness_before_literals { lemma_fault (asks (round_trip 2 3) (kind.Reach 0 1) 3) (of_1 [] (by.Cut [])) ≡ Some fault.WitnessFails }
{}

/// A chain may name the clause of a lemma before it, by its number after the problem's clauses.
pub fn refutation_with_a_lemma()
    ensures refutation { is_refutation barred (edge_1_reaches ∷ chain [] (3 ∷ 1 ∷ 2 ∷ []) ∷ []) ≡ true }
    ensures lemma_alone { are_justified barred (edge_1_reaches ∷ []) ≡ true }
    ensures by_numbers { are_justified barred (edge_1_reaches ∷ chain (pos 3 ∷ []) (3 ∷ 1 ∷ []) ∷ []) ≡ true }
    ensures own_number { are_justified barred (edge_1_reaches ∷ chain (pos 3 ∷ []) (4 ∷ 1 ∷ []) ∷ []) ≡ false }
    ensures no_empty_chain { is_refutation barred (edge_1_reaches ∷ []) ≡ false }
    ensures no_lemma_yet { are_justified barred (chain [] (3 ∷ 1 ∷ 2 ∷ []) ∷ edge_1_reaches ∷ []) ≡ false }
    ensures not_last { is_refutation barred (edge_1_reaches ∷ chain [] (3 ∷ 1 ∷ 2 ∷ []) ∷ chain (pos 1 ∷ []) (1 ∷ []) ∷ []) ≡ false }
{}
