//! Worked rows: lemmas by cycles and by orders, and answers that have them.

ghost use Rattle.std.specs.Prelude.{◌≡◌, [], ◌∷◌, true, false, pos, codes, Some, None};
ghost use Rattle.mono_graph.specs.Worked.{edge_of, lone, looped, parallel, pipe, round_trip, single, triangle};
ghost use Rattle.mono_problem.specs.declared.atom.Predicate.TheVariants as kind;
ghost use Rattle.mono_steps.specs.declared.lemma.Witness.TheVariants as by;
ghost use Rattle.mono_steps.specs.declared.fault.StepFault.TheVariants as fault;
ghost use Rattle.mono_steps.specs.declared.step.Step.TheVariants as step;
ghost use Rattle.mono_steps.specs.Steps.{is_refutation};
ghost use Rattle.mono_steps.specs.Witnesses.{justifies, lemma_fault};
ghost use Rattle.mono_steps.specs.WorkedLemmas.{asks, chain, minus, of_1};
ghost use Rattle.mono_check.specs.Verdicts.{Decided, IsVerdict, outcome_of};
ghost use Rattle.mono_check.specs.declared.reason.Reason.TheVariants as reason;
ghost use Rattle.mono_check.specs.declared.verdict.Verdict.TheVariants as verdict;
ghost use Rattle.mono_rows.specs.Cyclic.{alone, there_and_back, to_itself};
ghost use Rattle.mono_rows.specs.SecondGraph.{asks_of_second};

/// A cycle is a walk from a node to itself, from any of its nodes, also one that goes round again. It shows that the
/// predicate fails, and needs the negation of each edge variable on it.
pub fn cycles()
    ensures cycle { lemma_fault (asks (round_trip 2 3) kind.Acyclic 3) (of_1 (minus 1 ∷ minus 2 ∷ minus 3 ∷ []) (by.Cycle (1 ∷ 2 ∷ []))) ≡ None }
    ensures justified { justifies (asks (round_trip 2 3) kind.Acyclic 3) (of_1 (minus 1 ∷ minus 2 ∷ minus 3 ∷ []) (by.Cycle (1 ∷ 2 ∷ []))) ≡ true }
    ensures other_start { lemma_fault (asks (round_trip 2 3) kind.Acyclic 3) (of_1 (minus 1 ∷ minus 2 ∷ minus 3 ∷ []) (by.Cycle (2 ∷ 1 ∷ []))) ≡ None }
    ensures round_again { lemma_fault (asks (round_trip 2 3) kind.Acyclic 3) (of_1 (minus 1 ∷ minus 2 ∷ minus 3 ∷ []) (by.Cycle (1 ∷ 2 ∷ 1 ∷ 2 ∷ []))) ≡ None }
    ensures wider { lemma_fault (asks (round_trip 2 3) kind.Acyclic 3) (of_1 (minus 1 ∷ minus 2 ∷ minus 3 ∷ pos 1
        ∷ pos 4 ∷ []) (by.Cycle (1 ∷ 2 ∷ []))) ≡ None }
    ensures self_loop { lemma_fault (asks looped kind.Acyclic 3) (of_1 (minus 1 ∷ minus 3 ∷ []) (by.Cycle (1 ∷ []))) ≡ None }
    ensures by_number { lemma_fault (asks (triangle 1 1 1) kind.Acyclic 5) (of_1 (minus 3 ∷ minus 7 ∷ minus 9
        ∷ minus 5 ∷ []) (by.Cycle (7 ∷ 9 ∷ 3 ∷ []))) ≡ None }
{}

/// A cycle fails where it would with all edges present. Else its clause has all that it needs, or a literal is missing.
pub fn failing_and_missing_for_a_cycle()
    ensures no_edge_literal { lemma_fault (asks (round_trip 2 3) kind.Acyclic 3) (of_1 (minus 1 ∷ minus 3 ∷ []) (by.Cycle (1 ∷ 2 ∷ [])))
        ≡ Some fault.MissingLiteral }
    ensures no_literals { lemma_fault (asks (round_trip 2 3) kind.Acyclic 3) (of_1 [] (by.Cycle (1 ∷ 2 ∷ []))) ≡ Some fault.MissingLiteral }
    ensures self_loop { lemma_fault (asks looped kind.Acyclic 3) (of_1 (minus 3 ∷ []) (by.Cycle (1 ∷ []))) ≡ Some fault.MissingLiteral }
    ensures edge_not_negated { lemma_fault (asks (round_trip 2 3) kind.Acyclic 3) (of_1 (pos 1 ∷ minus 2 ∷ minus 3 ∷ []) (by.Cycle (1 ∷ 2 ∷ [])))
        ≡ Some fault.MissingLiteral }
    ensures no_own_literal { lemma_fault (asks (round_trip 2 3) kind.Acyclic 3) (of_1 (minus 1 ∷ minus 2 ∷ []) (by.Cycle (1 ∷ 2 ∷ [])))
        ≡ Some fault.MissingLiteral }
    ensures wrong_sign { lemma_fault (asks (round_trip 2 3) kind.Acyclic 3) (of_1 (minus 1 ∷ minus 2 ∷ pos 3 ∷ []) (by.Cycle (1 ∷ 2 ∷ [])))
        ≡ Some fault.MissingLiteral }
    ensures not_justified { justifies (asks (round_trip 2 3) kind.Acyclic 3) (of_1 (minus 1 ∷ minus 2 ∷ pos 3 ∷ []) (by.Cycle (1 ∷ 2 ∷ []))) ≡ false }
    ensures no_edges { lemma_fault (asks (round_trip 2 3) kind.Acyclic 3) (of_1 (minus 1 ∷ minus 2 ∷ minus 3 ∷ []) (by.Cycle [])) ≡ Some fault.WitnessFails }
    ensures not_closed { lemma_fault (asks (round_trip 2 3) kind.Acyclic 3) (of_1 (minus 1 ∷ minus 2 ∷ minus 3 ∷ []) (by.Cycle (1 ∷ 2 ∷ 1 ∷ [])))
        ≡ Some fault.WitnessFails }
    ensures parallel_edges { lemma_fault (asks (parallel 2 3) kind.Acyclic 3) (of_1 (minus 1 ∷ minus 2 ∷ minus 3 ∷ []) (by.Cycle (1 ∷ 2 ∷ [])))
        ≡ Some fault.WitnessFails }
    ensures against_the_edges { lemma_fault (asks (triangle 1 1 1) kind.Acyclic 5) (of_1 (minus 3 ∷ minus 7 ∷ minus 9
        ∷ minus 5 ∷ []) (by.Cycle (9 ∷ 7 ∷ 3 ∷ []))) ≡ Some fault.WitnessFails }
    ensures failing_first { lemma_fault (asks (round_trip 2 3) kind.Acyclic 3) (of_1 [] (by.Cycle (1 ∷ []))) ≡ Some fault.WitnessFails }
{}

/// An order has each node once. It shows that the predicate holds, and needs the variable of each edge that doesn't begin
/// before it ends in the list.
pub fn orders()
    ensures order { lemma_fault (asks (round_trip 2 3) kind.Acyclic 3) (of_1 (pos 1 ∷ pos 3 ∷ []) (by.Order (1 ∷ 0 ∷ []))) ≡ None }
    ensures justified { justifies (asks (round_trip 2 3) kind.Acyclic 3) (of_1 (pos 1 ∷ pos 3 ∷ []) (by.Order (1 ∷ 0 ∷ []))) ≡ true }
    ensures other_way { lemma_fault (asks (round_trip 2 3) kind.Acyclic 3) (of_1 (pos 2 ∷ pos 3 ∷ []) (by.Order (0 ∷ 1 ∷ []))) ≡ None }
    ensures wider { lemma_fault (asks (round_trip 2 3) kind.Acyclic 3) (of_1 (pos 1 ∷ pos 2 ∷ pos 3 ∷ minus 1 ∷ []) (by.Order (1 ∷ 0 ∷ []))) ≡ None }
    ensures no_edge_against_it { lemma_fault (asks (parallel 2 3) kind.Acyclic 3) (of_1 (pos 3 ∷ []) (by.Order (0 ∷ 1 ∷ []))) ≡ None }
    ensures parallel_edges { lemma_fault (asks (parallel 2 3) kind.Acyclic 3) (of_1 (pos 1 ∷ pos 2 ∷ pos 3 ∷ []) (by.Order (1 ∷ 0 ∷ []))) ≡ None }
    ensures self_loop { lemma_fault (asks looped kind.Acyclic 3) (of_1 (pos 1 ∷ pos 3 ∷ []) (by.Order (0 ∷ []))) ≡ None }
    ensures no_edges { lemma_fault (asks lone kind.Acyclic 3) (of_1 (pos 3 ∷ []) (by.Order (0 ∷ []))) ≡ None }
{}

/// An order fails where it would with no edge present: where a node is listed twice or not at all. Else its clause has all
/// that it needs, or a literal is missing.
pub fn failing_and_missing_for_an_order()
    ensures node_missing { lemma_fault (asks (round_trip 2 3) kind.Acyclic 3) (of_1 (pos 1 ∷ pos 2 ∷ pos 3 ∷ []) (by.Order (0 ∷ [])))
        ≡ Some fault.WitnessFails }
    ensures last_node_missing { lemma_fault (asks (pipe 3 2) kind.Acyclic 3) (of_1 (pos 1 ∷ pos 2 ∷ pos 3 ∷ []) (by.Order (0 ∷ 1 ∷ [])))
        ≡ Some fault.WitnessFails }
    ensures node_twice { lemma_fault (asks (round_trip 2 3) kind.Acyclic 3) (of_1 (pos 1 ∷ pos 2 ∷ pos 3 ∷ []) (by.Order (0 ∷ 1 ∷ 0 ∷ [])))
        ≡ Some fault.WitnessFails }
    ensures one_for_another { lemma_fault (asks (round_trip 2 3) kind.Acyclic 3) (of_1 (pos 1 ∷ pos 2 ∷ pos 3 ∷ []) (by.Order (1 ∷ 1 ∷ [])))
        ≡ Some fault.WitnessFails }
    ensures no_nodes { lemma_fault (asks lone kind.Acyclic 3) (of_1 (pos 3 ∷ []) (by.Order [])) ≡ Some fault.WitnessFails }
    ensures failing_first { lemma_fault (asks (round_trip 2 3) kind.Acyclic 3) (of_1 [] (by.Order (0 ∷ []))) ≡ Some fault.WitnessFails }
    ensures no_literals { lemma_fault (asks (round_trip 2 3) kind.Acyclic 3) (of_1 [] (by.Order (1 ∷ 0 ∷ []))) ≡ Some fault.MissingLiteral }
    ensures no_edge_literal { lemma_fault (asks (round_trip 2 3) kind.Acyclic 3) (of_1 (pos 1 ∷ pos 3 ∷ []) (by.Order (0 ∷ 1 ∷ [])))
        ≡ Some fault.MissingLiteral }
    ensures edge_negated { lemma_fault (asks (round_trip 2 3) kind.Acyclic 3) (of_1 (minus 1 ∷ pos 3 ∷ []) (by.Order (1 ∷ 0 ∷ [])))
        ≡ Some fault.MissingLiteral }
    ensures rests_on_absent_edges { lemma_fault (asks (round_trip 2 3) kind.Acyclic 3) (of_1 (minus 1 ∷ pos 3 ∷ []) (by.Order (0 ∷ 1 ∷ [])))
        ≡ Some fault.MissingLiteral }
    ensures not_justified { justifies (asks (round_trip 2 3) kind.Acyclic 3) (of_1 (minus 1 ∷ pos 3 ∷ []) (by.Order (0 ∷ 1 ∷ []))) ≡ false }
    ensures one_of_two { lemma_fault (asks (parallel 2 3) kind.Acyclic 3) (of_1 (pos 1 ∷ pos 3 ∷ []) (by.Order (1 ∷ 0 ∷ []))) ≡ Some fault.MissingLiteral }
    ensures self_loop { lemma_fault (asks looped kind.Acyclic 3) (of_1 (pos 3 ∷ []) (by.Order (0 ∷ []))) ≡ Some fault.MissingLiteral }
    ensures no_own_literal { lemma_fault (asks (round_trip 2 3) kind.Acyclic 3) (of_1 (pos 1 ∷ []) (by.Order (1 ∷ 0 ∷ []))) ≡ Some fault.MissingLiteral }
    ensures wrong_sign { lemma_fault (asks (round_trip 2 3) kind.Acyclic 3) (of_1 (pos 1 ∷ minus 3 ∷ []) (by.Order (1 ∷ 0 ∷ []))) ≡ Some fault.MissingLiteral }
{}

/// A cycle goes over edges of its own graph, whatever variable an edge of another graph has. An edge of another graph needs
/// no literal, and one with the variable of an edge of the cycle closes none.
pub fn cycles_beside_another_graph()
    ensures own_edges { lemma_fault (asks_of_second (round_trip 1 1) (single (edge_of 7 0 0 1 5)) kind.Acyclic 9) (of_1 (minus 1
        ∷ minus 9 ∷ []) (by.Cycle (7 ∷ []))) ≡ None }
    ensures edge_of_the_first { lemma_fault (asks_of_second (round_trip 1 1) (single (edge_of 7 0 1 1 5)) kind.Acyclic 9) (of_1 (minus 1 ∷ minus 2
        ∷ minus 9 ∷ []) (by.Cycle (7 ∷ 2 ∷ []))) ≡ Some fault.UnknownNumber }
    ensures variable_of_both { lemma_fault (asks_of_second looped (single (edge_of 7 0 1 1 5)) kind.Acyclic 9) (of_1 (minus 1
        ∷ minus 9 ∷ []) (by.Cycle (7 ∷ []))) ≡ Some fault.WitnessFails }
    ensures order { lemma_fault (asks_of_second (round_trip 1 1) (single (edge_of 7 0 1 1 5)) kind.Acyclic 9)
        (of_1 (pos 9 ∷ []) (by.Order (0 ∷ 1 ∷ []))) ≡ None }
    ensures nodes_of_the_first { lemma_fault (asks_of_second (pipe 1 1) (single (edge_of 7 0 1 3 5)) kind.Acyclic 9)
        (of_1 (pos 9 ∷ []) (by.Order (0 ∷ 1 ∷ 2 ∷ []))) ≡ Some fault.UnknownNumber }
{}

/// A predicate may stand under the variable of an edge of its own. Where that edge leads to its own node, the two lemmas refute
/// each value of the variable.
pub fn predicate_under_the_variable_of_its_edge()
    ensures cycle { lemma_fault (asks looped kind.Acyclic 1) (of_1 (minus 1 ∷ []) (by.Cycle (1 ∷ []))) ≡ None }
    ensures order { lemma_fault (asks looped kind.Acyclic 1) (of_1 (pos 1 ∷ []) (by.Order (0 ∷ []))) ≡ None }
    ensures refutation { is_refutation (asks looped kind.Acyclic 1) (step.Lemma (of_1 (minus 1 ∷ []) (by.Cycle (1 ∷ [])))
        ∷ step.Lemma (of_1 (pos 1 ∷ []) (by.Order (0 ∷ []))) ∷ chain [] (1 ∷ 2 ∷ []) ∷ []) ≡ true }
{}

/// Answers whose lemmas are cycles and orders.
pub fn answers_with_cycles_and_orders()
    ensures cycle { outcome_of (there_and_back ((pos 1 ∷ []) ∷ (pos 2 ∷ [])
        ∷ (pos 3 ∷ []) ∷ [])) (codes "s UNSATISFIABLE\ncycle 1 -1 -2 -3 0 1 2\nchain 0 4 1 2 3\n") ≡ Decided verdict.Refutation }
    ensures order { outcome_of (there_and_back ((minus 1 ∷ []) ∷ (minus 3 ∷ []) ∷ [])) (codes "s UNSATISFIABLE\norder 1 1 3 0 1 0\nchain 0 3 1 2\n")
        ≡ Decided verdict.Refutation }
    ensures edge_against_it { outcome_of (there_and_back ((minus 1 ∷ []) ∷ (minus 3 ∷ []) ∷ [])) (codes "s UNSATISFIABLE\norder 1 1 3 0 0 1\n")
        ≡ Decided (verdict.Rejected 2 reason.MissingLiteral) }
    ensures node_missing { outcome_of (there_and_back ((minus 1 ∷ []) ∷ (minus 3 ∷ []) ∷ [])) (codes "s UNSATISFIABLE\norder 1 1 3 0 0\n")
        ≡ Decided (verdict.Rejected 2 reason.WitnessFails) }
    ensures self_loop { outcome_of (to_itself ((pos 1 ∷ []) ∷ (pos 2 ∷ []) ∷ [])) (codes "s UNSATISFIABLE\ncycle 1 -1 -2 0 1\nchain 0 3 1 2\n")
        ≡ Decided verdict.Refutation }
    ensures no_edges { outcome_of (alone ((minus 1 ∷ []) ∷ [])) (codes "s UNSATISFIABLE\norder 1 1 0 0\nchain 0 2 1\n") ≡ Decided verdict.Refutation }
    ensures wrong_kind { outcome_of (there_and_back []) (codes "s UNKNOWN\ntree 1 3 0 1\n") ≡ Decided (verdict.Rejected 2 reason.WrongKind) }
    ensures unknown_edge { outcome_of (there_and_back []) (codes "s UNKNOWN\ncycle 1 -1 -2 -3 0 1 3\n") ≡ Decided (verdict.Rejected 2 reason.UnknownNumber) }
    ensures unknown_node { outcome_of (there_and_back []) (codes "s UNKNOWN\norder 1 1 3 0 1 0 2\n") ≡ Decided (verdict.Rejected 2 reason.UnknownNumber) }
    ensures no_end { outcome_of (there_and_back []) (codes "s UNKNOWN\norder 1 1 3\n") ≡ Decided (verdict.Rejected 2 reason.BadLine) }
    ensures in_a_model { outcome_of (there_and_back []) (codes "s SATISFIABLE\ncycle 1 -1 -2 -3 0 1 2\n") ≡ Decided (verdict.Rejected 2 reason.BadLine) }
{}

/// In a model the variable is true exactly where the enabled edges hold no cycle.
pub fn models_with_cycles()
    ensures cycle { IsVerdict (there_and_back []) (codes "s SATISFIABLE\nv 1 2 -3 0\n") verdict.Model }
    ensures no_cycle { IsVerdict (there_and_back []) (codes "s SATISFIABLE\nv 1 -2 3 0\n") verdict.Model }
    ensures true_beside_a_cycle { IsVerdict (there_and_back []) (codes "s SATISFIABLE\nv 1 2 3 0\n") (verdict.Rejected 2 (reason.AtomWrong 1)) }
    ensures false_without { IsVerdict (there_and_back []) (codes "s SATISFIABLE\nv -1 2 -3 0\n") (verdict.Rejected 2 (reason.AtomWrong 1)) }
    ensures no_model { IsVerdict (there_and_back []) (codes "s SATISFIABLE\nv 1 2 3 0\n") verdict.Model → ⊥ }
    ensures self_loop { IsVerdict (to_itself []) (codes "s SATISFIABLE\nv 1 2 0\n") verdict.Model → ⊥ }
    ensures no_second_predicate { IsVerdict (alone []) (codes "s SATISFIABLE\nv 1 0\n") (verdict.Rejected 2 (reason.AtomWrong 2)) → ⊥ }
{}
