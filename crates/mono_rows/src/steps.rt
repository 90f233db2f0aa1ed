//! Worked rows: resolvents, unit propagation, which steps are justified, clauses that are learned beside lemmas, and lemmas
//! over edges and graphs with numbers of their own, and with amounts that are too great.

ghost use Rattle.std.specs.Prelude.{◌≡◌, ◌+◌, ◌^◌, [], ◌∷◌, true, false, pos, Some, None};
ghost use Rattle.mono_graph.specs.Worked.{amount, both, edge_of, label, neither, parallel, pipe, round_trip, single};
ghost use Rattle.mono_problem.specs.declared.atom.Predicate.TheVariants as kind;
ghost use Rattle.mono_steps.specs.declared.lemma.Witness.TheVariants as by;
ghost use Rattle.mono_steps.specs.declared.fault.StepFault.TheVariants as fault;
ghost use Rattle.mono_steps.specs.declared.step.Step.TheVariants as step;
ghost use Rattle.mono_steps.specs.Chains.{chain_end, resolvent};
ghost use Rattle.mono_steps.specs.Codes.{code};
ghost use Rattle.mono_steps.specs.Journals.{AddsLemmas, chain_clauses, chain_count, has_no_empty, known_clauses};
ghost use Rattle.mono_steps.specs.New.{AreNew, contains_one};
ghost use Rattle.mono_steps.specs.Propagated.{is_unit_with, is_propagated, has_false};
ghost use Rattle.mono_steps.specs.Steps.{are_justified, clauses_after, is_full_chain, is_refutation, is_small_step};
ghost use Rattle.mono_steps.specs.Witnesses.{justifies, lemma_fault, passes};
ghost use Rattle.mono_steps.specs.Worked.{clauses_over, fault_of};
ghost use Rattle.mono_steps.specs.WorkedLemmas.{asks, of_1, minus, chain};
ghost use Rattle.mono_rows.specs.SecondGraph.{asks_of_second};

/// A clause with both signs of a variable is resolved at one of them, and the other stays.
pub fn resolvent_of_both_signs()
    ensures { resolvent (minus 1 ∷ []) (pos 1 ∷ minus 1 ∷ []) ≡ Some (minus 1 ∷ []) }
{}

/// What is left of the first clause stands before what is left of the second. Two clashing variables are one too many, in
/// whatever order they stand.
pub fn resolvents_in_order()
    ensures positive_first { resolvent (pos 1 ∷ pos 2 ∷ []) (minus 1 ∷ pos 3 ∷ []) ≡ Some (pos 2 ∷ pos 3 ∷ []) }
    ensures negative_first { resolvent (minus 1 ∷ pos 2 ∷ []) (pos 1 ∷ pos 3 ∷ []) ≡ Some (pos 2 ∷ pos 3 ∷ []) }
    ensures lesser_variable_last { resolvent (pos 1 ∷ pos 2 ∷ []) (minus 2 ∷ minus 1 ∷ []) ≡ None }
    ensures lesser_variable_first { resolvent (pos 1 ∷ pos 2 ∷ []) (minus 1 ∷ minus 2 ∷ []) ≡ None }
    ensures behind_a_repeat { resolvent (pos 1 ∷ pos 2 ∷ []) (minus 1 ∷ minus 1 ∷ minus 2 ∷ []) ≡ None }
    ensures opposite_clauses { resolvent (pos 1 ∷ minus 2 ∷ []) (pos 2 ∷ minus 1 ∷ []) ≡ None }
    ensures three { chain_end ((pos 1 ∷ pos 2 ∷ []) ∷ (minus 1 ∷ pos 3 ∷ []) ∷ (pos 4 ∷ minus 3 ∷ []) ∷ []) ≡ Some (pos 2 ∷ pos 4 ∷ []) }
    ensures none { chain_end [] ≡ None }
{}

/// A chain is justified by earlier clauses, whose end its clause contains, and by literals over the problem's variables.
pub fn justified_chains()
    ensures justified { are_justified (clauses_over 2 ((pos 1 ∷ pos 2 ∷ []) ∷ (minus 1 ∷ []) ∷ [])) (chain (pos 2 ∷ []) (1 ∷ 2 ∷ []) ∷ []) ≡ true }
    ensures variable_beyond { are_justified (clauses_over 2 ((pos 1 ∷ pos 2 ∷ []) ∷ (minus 1 ∷ []) ∷ [])) (chain (pos 2 ∷ pos 3 ∷ []) (1
        ∷ 2 ∷ []) ∷ []) ≡ false }
    ensures zero { are_justified (clauses_over 2 ((pos 1 ∷ pos 2 ∷ []) ∷ (minus 1 ∷ []) ∷ [])) (chain (pos 2 ∷ pos 0 ∷ []) (1 ∷ 2 ∷ []) ∷ []) ≡ false }
    ensures zero_is_unknown { fault_of 2 ((pos 1 ∷ pos 2 ∷ []) ∷ (minus 1 ∷ []) ∷ []) (pos 2 ∷ pos 0 ∷ []) (1 ∷ 2 ∷ []) ≡ Some fault.UnknownNumber }
    ensures own_number { are_justified (clauses_over 2 ((pos 1 ∷ pos 2 ∷ []) ∷ (minus 1 ∷ []) ∷ [])) (chain (pos 2 ∷ []) (1 ∷ 2 ∷ 3 ∷ []) ∷ []) ≡ false }
    ensures stuck { are_justified (clauses_over 2 ((pos 1 ∷ pos 2 ∷ []) ∷ (minus 1 ∷ []) ∷ [])) (chain (pos 1 ∷ pos 2 ∷ []) (1 ∷ 1 ∷ []) ∷ []) ≡ false }
    ensures names_none { are_justified (clauses_over 2 ((pos 1 ∷ pos 2 ∷ []) ∷ (minus 1 ∷ []) ∷ [])) (chain (pos 2 ∷ []) [] ∷ []) ≡ false }
    ensures uncovered { are_justified (clauses_over 2 ((pos 1 ∷ pos 2 ∷ []) ∷ (minus 1 ∷ []) ∷ [])) (chain [] (1 ∷ 2 ∷ []) ∷ []) ≡ false }
    ensures no_refutation { is_refutation (clauses_over 2 ((pos 1 ∷ pos 2 ∷ []) ∷ (minus 1 ∷ []) ∷ [])) (chain [] (1 ∷ 2 ∷ []) ∷ []) ≡ false }
    ensures unjustified_before { is_refutation (clauses_over 1 ((pos 1 ∷ []) ∷ (minus 1 ∷ []) ∷ [])) (chain [] (1 ∷ []) ∷ chain [] (1 ∷ 2 ∷ []) ∷ []) ≡ false }
    ensures behind_the_empty_clause { are_justified (clauses_over 1 ((pos 1 ∷ []) ∷ (minus 1 ∷ []) ∷ [])) (chain [] (1 ∷ 2 ∷ []) ∷ chain [] (3 ∷ [])
        ∷ chain (pos 1 ∷ []) (4 ∷ []) ∷ []) ≡ true }
    ensures after_the_last_clause { are_justified (clauses_over 1 ((pos 1 ∷ []) ∷ (minus 1 ∷ []) ∷ [])) (chain [] (1 ∷ 2 ∷ [])
        ∷ chain [] (4 ∷ []) ∷ []) ≡ false }
{}

/// A lemma is justified by a predicate that is there and by what its graph has, and its clause is over the problem's
/// variables.
pub fn justified_lemmas()
    ensures justified { justifies (asks (round_trip 2 3) (kind.Reach 0 1) 3) (of_1 (minus 1 ∷ pos 3 ∷ []) (by.Path (1 ∷ []))) ≡ true }
    ensures unjustified_step { are_justified (asks (round_trip 2 3) (kind.Reach 0 1) 3)
        (step.Lemma (of_1 (pos 3 ∷ []) (by.Path (1 ∷ []))) ∷ []) ≡ false }
    ensures no_predicate { justifies (asks (round_trip 2 3) (kind.Reach 0 1) 3) (record {
      atom = 2;
      clause = minus 1 ∷ pos 3 ∷ [];
      witness = by.Path (1 ∷ []);
    }) ≡ false }
    ensures predicate_0 { justifies (asks (round_trip 2 3) (kind.Reach 0 1) 3) (record {
      atom = 0;
      clause = minus 1 ∷ pos 3 ∷ [];
      witness = by.Path (1 ∷ []);
    }) ≡ false }
    ensures variable_beyond { justifies (asks (round_trip 2 3) (kind.Reach 0 1) 3) (of_1 (minus 1 ∷ pos 3 ∷ pos 11 ∷ []) (by.Path (1 ∷ []))) ≡ false }
    ensures zero { justifies (asks (round_trip 2 3) (kind.Reach 0 1) 3) (of_1 (minus 1 ∷ pos 3 ∷ pos 0 ∷ []) (by.Path (1 ∷ []))) ≡ false }
    ensures cut { justifies (asks (round_trip 2 3) (kind.Reach 0 1) 3) (of_1 (pos 1 ∷ minus 3 ∷ []) (by.Cut (0 ∷ []))) ≡ true }
    ensures node_beyond { justifies (asks (round_trip 2 3) (kind.Reach 0 1) 3) (of_1 (pos 1 ∷ minus 3 ∷ []) (by.Cut (0 ∷ 2 ∷ []))) ≡ false }
    ensures other_word { passes (round_trip 2 3) both (kind.Reach 0 1) (by.Tree (0 ∷ [])) ≡ false }
    ensures labels_without_a_bound { passes (round_trip 2 3) neither (kind.Reach 0 1) (by.Label []) ≡ false }
    ensures cut_within_a_bound { passes (round_trip 2 3) neither (kind.Steps 0 1 (pos 1)) (by.Cut (0 ∷ [])) ≡ false }
    ensures path_for_no_cycle { passes (round_trip 2 3) both kind.Acyclic (by.Path (1 ∷ 2 ∷ [])) ≡ false }
{}

/// Whatever a list names is looked up, the first and the last too, whatever stands beside it.
pub fn every_name_is_looked_up()
    ensures first_node { lemma_fault (asks (round_trip 2 3) (kind.Reach 0 1) 3) (of_1 (pos 1 ∷ minus 3 ∷ []) (by.Cut (2 ∷ 0 ∷ []))) ≡ Some fault.UnknownNumber }
    ensures first_edge { lemma_fault (asks (round_trip 2 3) (kind.Reach 0 1) 3) (of_1 (minus 1 ∷ pos 3 ∷ []) (by.Path (3 ∷ 1 ∷ [])))
        ≡ Some fault.UnknownNumber }
    ensures last_edge { lemma_fault (asks (round_trip 2 3) (kind.Reach 0 1) 3) (of_1 (minus 1 ∷ pos 3 ∷ []) (by.Path (1 ∷ 3 ∷ []))) ≡ Some fault.UnknownNumber }
    ensures first_label { lemma_fault (asks (round_trip 2 3) (kind.Distance 0 1 (pos 1)) 3)
        (of_1 (minus 3 ∷ []) (by.Label (label 2 5 ∷ label 0 0 ∷ []))) ≡ Some fault.UnknownNumber }
    ensures last_label_0 { lemma_fault (asks (round_trip 2 3) (kind.Distance 0 1 (pos 1)) 3)
        (of_1 (minus 3 ∷ []) (by.Label (label 0 0 ∷ label 2 0 ∷ []))) ≡ Some fault.UnknownNumber }
    ensures first_amount { lemma_fault (asks (parallel 2 3) (kind.Flow 0 1 (pos 1)) 3) (of_1 (minus 1
        ∷ pos 3 ∷ []) (by.Flow (amount 3 0 ∷ amount 1 1 ∷ []))) ≡ Some fault.UnknownNumber }
    ensures last_amount { lemma_fault (asks (parallel 2 3) (kind.Flow 0 1 (pos 1)) 3) (of_1 (minus 1
        ∷ pos 3 ∷ []) (by.Flow (amount 1 1 ∷ amount 3 1 ∷ []))) ≡ Some fault.UnknownNumber }
    ensures first_literal { lemma_fault (asks (round_trip 2 3) (kind.Reach 0 1) 3) (of_1 (pos 11 ∷ minus 1 ∷ pos 3 ∷ []) (by.Path (1 ∷ [])))
        ≡ Some fault.UnknownNumber }
    ensures last_literal { lemma_fault (asks (round_trip 2 3) (kind.Reach 0 1) 3) (of_1 (minus 1 ∷ pos 3 ∷ minus 11 ∷ []) (by.Path (1 ∷ [])))
        ≡ Some fault.UnknownNumber }
    ensures edge_of_weight_0 { lemma_fault (asks (round_trip 0 3) (kind.Reach 0 1) 3) (of_1 (pos 3 ∷ []) (by.Path (1 ∷ []))) ≡ Some fault.MissingLiteral }
{}

/// Labels and amounts are small up to 2^60, and chains always are.
pub fn small_steps()
    ensures greatest { is_small_step (step.Lemma (of_1 [] (by.Label (label 0 (2 ^ 60) ∷ [])))) ≡ true }
    ensures too_great { is_small_step (step.Lemma (of_1 [] (by.Label (label 0 0 ∷ label 1 (2 ^ 60 + 1) ∷ [])))) ≡ false }
    ensures first_too_great { is_small_step (step.Lemma (of_1 [] (by.Label (label 0 (2 ^ 60 + 1) ∷ label 1 0 ∷ [])))) ≡ false }
    ensures last_amount { is_small_step (step.Lemma (of_1 [] (by.Flow (amount 1 1 ∷ amount 2 (2 ^ 60 + 1) ∷ [])))) ≡ false }
    ensures amount { is_small_step (step.Lemma (of_1 [] (by.Flow (amount 1 (2 ^ 60 + 1) ∷ amount 2 1 ∷ [])))) ≡ false }
    ensures chain { is_small_step (chain [] (2 ^ 61 ∷ [])) ≡ true }
    ensures lemma_is_no_chain { is_full_chain (step.Lemma (of_1 (pos 1 ∷ []) (by.Path []))) ≡ false }
    ensures full_chain { is_full_chain (chain (pos 1 ∷ []) (1 ∷ [])) ≡ true }
    ensures empty_chain_is_not_full { is_full_chain (chain [] (1 ∷ [])) ≡ false }
    ensures one_is_empty { has_no_empty (chain (pos 1 ∷ []) (1 ∷ []) ∷ chain [] (1 ∷ 2 ∷ []) ∷ []) ≡ false }
    ensures none_is_empty { has_no_empty (step.Lemma (of_1 [] (by.Path [])) ∷ chain (pos 1 ∷ []) (1 ∷ []) ∷ []) ≡ true }
{}

/// Unit propagation doesn't go over the clause of a lemma. So a clause may be new that a lemma has.
pub fn clause_of_a_lemma()
    ensures { AreNew (clauses_over 2 ((pos 1 ∷ pos 2 ∷ []) ∷ [])) (step.Lemma (of_1 (pos 1 ∷ []) (by.Path [])) ∷ chain (pos 1 ∷ []) (2 ∷ []) ∷ []) }
{}

/// A chain may name the clause of a chain before it. A clause of the problem isn't new behind another chain either.
pub fn second_learned_clause()
    ensures new { AreNew (clauses_over 3 ((pos 1 ∷ pos 2 ∷ []) ∷ (pos 1 ∷ minus 2 ∷ []) ∷ (minus 1 ∷ pos 2 ∷ pos 3 ∷ [])
        ∷ (minus 1 ∷ minus 2 ∷ pos 3 ∷ []) ∷ [])) (chain (pos 1 ∷ []) (1 ∷ 2 ∷ []) ∷ chain (pos 3 ∷ []) (3 ∷ 4 ∷ 5 ∷ []) ∷ []) }
    ensures of_the_problem { AreNew (clauses_over 4 ((pos 1 ∷ pos 2 ∷ []) ∷ (pos 1 ∷ minus 2 ∷ [])
        ∷ (pos 3 ∷ pos 4 ∷ []) ∷ [])) (chain (pos 1 ∷ []) (1 ∷ 2 ∷ []) ∷ chain (pos 3 ∷ pos 4 ∷ []) (3 ∷ []) ∷ []) → ⊥ }
{}

/// A clause whose literal unit propagation makes false isn't new, though a lemma gives it.
pub fn clause_made_false()
    ensures { AreNew (clauses_over 2 ((minus 1 ∷ []) ∷ [])) (step.Lemma (of_1 (pos 1 ∷ []) (by.Path [])) ∷ chain (pos 1 ∷ []) (2 ∷ []) ∷ []) → ⊥ }
{}

/// No clause is new by an assignment that has both signs of a variable.
pub fn both_signs_of_a_variable()
    ensures { AreNew (clauses_over 2 ((pos 2 ∷ []) ∷ (minus 2 ∷ []) ∷ [])) (step.Lemma (of_1 (pos 1 ∷ []) (by.Path []))
        ∷ chain (pos 1 ∷ []) (3 ∷ []) ∷ []) → ⊥ }
{}

/// 0 is no literal, and no clause is new by it.
pub fn zero_alone()
    ensures { AreNew (clauses_over 2 ((pos 1 ∷ pos 2 ∷ []) ∷ [])) (step.Lemma (of_1 (pos 0 ∷ []) (by.Path [])) ∷ chain (pos 0 ∷ []) (2 ∷ []) ∷ []) → ⊥ }
{}

/// Units come one after the other, the last one first. Each needs a clause whose other literals came before it.
pub fn unit_propagation()
    ensures unit { is_unit_with (minus 1 ∷ []) ((pos 1 ∷ pos 2 ∷ []) ∷ []) (pos 2) ≡ true }
    ensures alone { is_unit_with [] ((pos 2 ∷ []) ∷ []) (pos 2) ≡ true }
    ensures another_alone { is_unit_with [] ((pos 2 ∷ []) ∷ []) (minus 2) ≡ false }
    ensures open_literal { is_unit_with [] ((pos 1 ∷ pos 2 ∷ []) ∷ []) (pos 2) ≡ false }
    ensures not_in_it { is_unit_with (minus 1 ∷ minus 2 ∷ []) ((pos 1 ∷ pos 2 ∷ []) ∷ []) (pos 3) ≡ false }
    ensures second_clause { is_unit_with (minus 3 ∷ []) ((pos 1 ∷ pos 2 ∷ []) ∷ (pos 3 ∷ pos 1 ∷ []) ∷ []) (pos 1) ≡ true }
    ensures both { is_propagated ((pos 1 ∷ pos 2 ∷ []) ∷ (minus 2 ∷ pos 3 ∷ []) ∷ []) (minus 1 ∷ []) (pos 3 ∷ pos 2 ∷ minus 1 ∷ []) ≡ true }
    ensures too_early { is_propagated ((pos 1 ∷ pos 2 ∷ []) ∷ (minus 2 ∷ pos 3 ∷ []) ∷ []) (minus 1 ∷ []) (pos 2 ∷ pos 3 ∷ minus 1 ∷ []) ≡ false }
    ensures not_assumed { is_propagated ((pos 1 ∷ pos 2 ∷ []) ∷ []) [] (pos 2 ∷ minus 1 ∷ []) ≡ false }
    ensures nothing { is_propagated [] [] [] ≡ true }
    ensures false_clause { has_false ((pos 1 ∷ pos 2 ∷ []) ∷ (minus 1 ∷ []) ∷ []) (pos 1 ∷ []) ≡ true }
    ensures no_false_clause { has_false ((pos 1 ∷ pos 2 ∷ []) ∷ []) (minus 1 ∷ []) ≡ false }
    ensures empty_clause { has_false ([] ∷ []) [] ≡ true }
{}

/// A clause as a number to base 3: variable 1 is the lowest digit, 1 where the clause has the variable, 2 where its negation.
pub fn codes_of_clauses()
    ensures one { code 2 (pos 1 ∷ []) ≡ 1 }
    ensures negated { code 2 (minus 1 ∷ []) ≡ 2 }
    ensures both_variables { code 3 (minus 3 ∷ pos 1 ∷ []) ≡ 19 }
    ensures in_any_order { code 3 (pos 1 ∷ minus 3 ∷ pos 1 ∷ []) ≡ 19 }
    ensures empty { code 3 [] ≡ 0 }
    ensures beyond { code 1 (pos 2 ∷ []) ≡ 0 }
{}

/// Clauses are numbered as they come, with those of lemmas. What was learned are those of the chains.
pub fn clauses_of_steps()
    ensures all { clauses_after (clauses_over 2 ((pos 1 ∷ []) ∷ [])) (step.Lemma (of_1 (pos 2 ∷ []) (by.Path []))
        ∷ chain (minus 1 ∷ []) (1 ∷ []) ∷ []) ≡ (pos 1 ∷ []) ∷ (pos 2 ∷ []) ∷ (minus 1 ∷ []) ∷ [] }
    ensures known { known_clauses (clauses_over 2 ((pos 1 ∷ []) ∷ [])) (step.Lemma (of_1 (pos 2 ∷ []) (by.Path []))
        ∷ chain (minus 1 ∷ []) (1 ∷ []) ∷ []) ≡ (pos 1 ∷ []) ∷ (minus 1 ∷ []) ∷ [] }
    ensures learned { chain_clauses (step.Lemma (of_1 (pos 2 ∷ []) (by.Path [])) ∷ chain (minus 1 ∷ []) (1 ∷ []) ∷ []) ≡ (minus 1 ∷ []) ∷ [] }
    ensures count { chain_count (chain [] (1 ∷ []) ∷ step.Lemma (of_1 (pos 2 ∷ []) (by.Path [])) ∷ chain (minus 1 ∷ []) (1 ∷ []) ∷ []) ≡ 2 }
    ensures contains { contains_one ((pos 1 ∷ pos 2 ∷ []) ∷ (pos 3 ∷ []) ∷ []) (pos 3 ∷ pos 1 ∷ []) ≡ true }
    ensures contains_none { contains_one ((pos 1 ∷ pos 2 ∷ []) ∷ []) (pos 1 ∷ []) ≡ false }
{}

/// Where lemmas alone were joined, no chain was, and no step is gone.
pub fn joined_lemmas()
    ensures two { AddsLemmas (chain [] (1 ∷ []) ∷ []) (chain [] (1 ∷ []) ∷ step.Lemma (of_1 [] (by.Path []))
        ∷ step.Lemma (of_1 (pos 1 ∷ []) (by.Order [])) ∷ []) }
    ensures none { AddsLemmas (chain [] (1 ∷ []) ∷ []) (chain [] (1 ∷ []) ∷ []) }
    ensures chain { AddsLemmas [] (chain [] (1 ∷ []) ∷ []) → ⊥ }
    ensures chain_behind_a_lemma { AddsLemmas [] (step.Lemma (of_1 [] (by.Path [])) ∷ chain [] (1 ∷ []) ∷ []) → ⊥ }
    ensures gone { AddsLemmas (chain [] (1 ∷ []) ∷ []) [] → ⊥ }
{}

/// An edge is named by its number, and stands in the clause by its variable. Here edge 7 has the variable 3.
pub fn edge_with_another_number_than_its_variable()
    ensures path { lemma_fault (asks (single (edge_of 7 0 1 3 5)) (kind.Reach 0 1) 9) (of_1 (minus 3 ∷ pos 9 ∷ []) (by.Path (7 ∷ []))) ≡ None }
    ensures path_by_number { lemma_fault (asks (single (edge_of 7 0 1 3 5)) (kind.Reach 0 1) 9) (of_1 (minus 7 ∷ pos 9 ∷ []) (by.Path (7 ∷ [])))
        ≡ Some fault.MissingLiteral }
    ensures path_by_variable { lemma_fault (asks (single (edge_of 7 0 1 3 5)) (kind.Reach 0 1) 9) (of_1 (minus 3 ∷ pos 9 ∷ []) (by.Path (3 ∷ [])))
        ≡ Some fault.UnknownNumber }
    ensures cut { lemma_fault (asks (single (edge_of 7 0 1 3 5)) (kind.Reach 0 1) 9) (of_1 (pos 3 ∷ minus 9 ∷ []) (by.Cut (0 ∷ []))) ≡ None }
    ensures cut_by_number { lemma_fault (asks (single (edge_of 7 0 1 3 5)) (kind.Reach 0 1) 9) (of_1 (pos 7 ∷ minus 9 ∷ []) (by.Cut (0 ∷ [])))
        ≡ Some fault.MissingLiteral }
{}

/// A predicate is over its own graph, and not over the first one.
pub fn predicate_of_the_second_graph()
    ensures own_edge { lemma_fault (asks_of_second (pipe 3 2) (single (edge_of 7 0 1 3 5)) (kind.Reach 0 1) 9) (of_1 (minus 3
        ∷ pos 9 ∷ []) (by.Path (7 ∷ []))) ≡ None }
    ensures justified { justifies (asks_of_second (pipe 3 2) (single (edge_of 7 0 1 3 5)) (kind.Reach 0 1) 9) (of_1 (minus 3
        ∷ pos 9 ∷ []) (by.Path (7 ∷ []))) ≡ true }
    ensures edge_of_the_first { lemma_fault (asks_of_second (pipe 3 2) (single (edge_of 7 0 1 3 5)) (kind.Reach 0 1) 9) (of_1 (minus 1
        ∷ pos 9 ∷ []) (by.Path (1 ∷ []))) ≡ Some fault.UnknownNumber }
    ensures not_justified { justifies (asks_of_second (pipe 3 2) (single (edge_of 7 0 1 3 5)) (kind.Reach 0 1) 9) (of_1 (minus 1
        ∷ pos 9 ∷ []) (by.Path (1 ∷ []))) ≡ false }
{}

/// Each amount of a flow is at most the greatest that a witness may name.
pub fn great_beside_small()
    ensures both_small { justifies (asks (parallel (2 ^ 61) 3) (kind.Flow 0 1 (pos 2)) 5) (of_1 (minus 1 ∷ minus 2
        ∷ pos 5 ∷ []) (by.Flow (record { edge = 1; amount = 2 ^ 60 } ∷ record { edge = 2; amount = 1 } ∷ []))) ≡ true }
    ensures great_first { justifies (asks (parallel (2 ^ 61) 3) (kind.Flow 0 1 (pos 2)) 5) (of_1 (minus 1 ∷ minus 2
        ∷ pos 5 ∷ []) (by.Flow (record { edge = 1; amount = 2 ^ 60 + 1 } ∷ record { edge = 2; amount = 1 } ∷ []))) ≡ false }
    ensures great_last { justifies (asks (parallel (2 ^ 61) 3) (kind.Flow 0 1 (pos 2)) 5) (of_1 (minus 1 ∷ minus 2
        ∷ pos 5 ∷ []) (by.Flow (record { edge = 2; amount = 1 } ∷ record { edge = 1; amount = 2 ^ 60 + 1 } ∷ []))) ≡ false }
{}
