//! Worked rows: what the definitions make of saved signs, restarts, the numbers of learned clauses, spent budgets, outcomes, and
//! solved problems.

ghost use Rattle.std.specs.Prelude.{◌≡◌, ℕ, true, false, [], ◌∷◌, pos, Some, None, Ok, Err};
ghost use Rattle.mono_graph.specs.Worked.{lone, round_trip};
ghost use Rattle.mono_steps.specs.Steps.{clauses_after};
ghost use Rattle.mono_steps.specs.WorkedLemmas.{barred, minus, chain};
ghost use Rattle.mono_theory.specs.Worked.{reaches};
ghost use Rattle.mono_search.specs.Outcomes.{EndsAs, HasModel, HasMoreSteps, IsSpent, beyond_budget, may_go_on, stays_live};
ghost use Rattle.mono_search.specs.Restarts.{CountedAfter, CountsClause};
ghost use Rattle.mono_search.specs.Runs.{DecidesBySign, GoesBack, Releases, saved};
ghost use Rattle.mono_search.specs.Signs.{AreSigns};
ghost use Rattle.mono_search.specs.Solving.{AreTheoriesOf, IsSolved};
ghost use Rattle.mono_search.specs.State.{IsNamed, StateView};
ghost use Rattle.mono_trail.specs.declared.reason.Reason.TheVariants.{Decided};
ghost use Rattle.mono_trail.specs.Moves.{joined};
ghost use Rattle.mono_trail.specs.TrailView.{no_literals};
ghost use Rattle.mono_search.specs.Worked.{after, order, two_clauses, learned_clause, first_learned, learned_behind_a_lemma, both_signs, theory, another};
ghost use Rattle.mono_search.specs.declared.search.Outcome.TheVariants as outcome;
ghost use Rattle.mono_search.specs.declared.solving.Solved.TheVariants as solved;

use mono_steps::worked_new::wider_and_repeated_clauses;

/// Of two signs of one variable the later one is saved.
pub fn saved_signs()
    ensures each { saved (true ∷ true ∷ true ∷ []) (pos 1 ∷ minus 2 ∷ []) ≡ true ∷ false ∷ true ∷ [] }
    ensures later { saved (true ∷ true ∷ []) (pos 2 ∷ minus 2 ∷ []) ≡ true ∷ false ∷ [] }
    ensures none { saved (true ∷ false ∷ []) [] ≡ true ∷ false ∷ [] }
{}

/// A decision on a variable whose sign was saved as true is never false.
pub fn decisions_by_saved_signs()
    ensures { (v w : StateView) → v.order.phases ≡ true ∷ true ∷ [] → v.trail ≡ no_literals 2
        → w.trail ≡ joined (no_literals 2) (minus 1) Decided → DecidesBySign v w → ⊥ }
{}

/// The variable of a dropped literal waits again with its sign, and the others wait as before.
pub fn released_variables()
    ensures one { Releases (order (false ∷ true ∷ []) (true ∷ true ∷ [])) (order (true ∷ true ∷ []) (false ∷ true ∷ [])) (minus 1 ∷ []) }
    ensures not_back { Releases (order (false ∷ true ∷ []) (true ∷ true ∷ [])) (order (false ∷ true ∷ []) (false ∷ true ∷ [])) (minus 1 ∷ []) → ⊥ }
    ensures lost { Releases (order (false ∷ true ∷ []) (true ∷ true ∷ [])) (order (true ∷ false ∷ []) (false ∷ true ∷ [])) (minus 1 ∷ []) → ⊥ }
    ensures not_saved { Releases (order (false ∷ true ∷ []) (true ∷ true ∷ [])) (order (true ∷ true ∷ []) (true ∷ true ∷ [])) (minus 1 ∷ []) → ⊥ }
    ensures shorter { Releases (order (false ∷ []) (true ∷ true ∷ [])) (order (true ∷ true ∷ []) (false ∷ true ∷ [])) (minus 1 ∷ []) → ⊥ }
{}

/// A restart goes back to the beginning, and a learned clause alone to its own level.
pub fn levels_gone_back_to()
    ensures restart { (v w : StateView) → w.trail.level ≡ 1 → GoesBack v w true → ⊥ }
    ensures no_restart { (v w : StateView) → (h : GoesBack v w false) → w.trail.level ≡ h.learnt.back_to }
{}

/// The first restart comes with the 100th clause, and the third with the 200th after the second.
pub fn counted_clauses()
    ensures first { CountsClause (after 99 0) (after 0 1) true }
    ensures not_yet { CountsClause (after 98 0) (after 99 0) false }
    ensures too_early { CountsClause (after 98 0) (after 0 1) true → ⊥ }
    ensures too_late { CountsClause (after 99 0) (after 100 0) false → ⊥ }
    ensures third { CountsClause (after 199 2) (after 0 3) true }
    ensures third_too_early { CountsClause (after 99 2) (after 0 3) true → ⊥ }
{}

/// What is counted follows from how many clauses were learned since the beginning.
pub fn counted_from_the_beginning()
    ensures none { CountedAfter 0 (after 0 0) }
    ensures one { CountedAfter 1 (after 1 0) }
    ensures not_counted { CountedAfter 1 (after 0 0) → ⊥ }
    ensures none_learned { CountedAfter 0 (after 1 0) → ⊥ }
{}

/// A clause that is held is the one of its number. Lemmas have numbers too.
pub fn numbers_of_learned_clauses()
    ensures first { IsNamed (clauses_after two_clauses first_learned) (record { number = 3; lits = pos 1 ∷ [] }) }
    ensures behind { IsNamed (clauses_after two_clauses learned_behind_a_lemma) (record { number = 4; lits = pos 1 ∷ [] }) }
    ensures lemma { IsNamed (clauses_after two_clauses learned_behind_a_lemma) (record { number = 3; lits = pos 2 ∷ [] }) }
    ensures input { IsNamed (clauses_after two_clauses first_learned) (record { number = 2; lits = pos 1 ∷ minus 2 ∷ [] }) }
    ensures another { IsNamed (clauses_after two_clauses learned_behind_a_lemma) (record { number = 3; lits = minus 2 ∷ [] }) → ⊥ }
    ensures beyond { IsNamed (clauses_after two_clauses first_learned) (record { number = 4; lits = pos 1 ∷ [] }) → ⊥ }
{}

/// The budget is spent where as many clauses were learned, counted from the beginning.
pub fn spent_budgets()
    ensures spent { IsSpent 1 0 two_clauses first_learned }
    ensures as_many_before { IsSpent 1 1 two_clauses first_learned }
    ensures not_yet { IsSpent 2 0 two_clauses first_learned → ⊥ }
    ensures more_before { IsSpent 1 2 two_clauses first_learned → ⊥ }
    ensures beyond { IsSpent 9 0 two_clauses first_learned → ⊥ }
{}

/// A clause that was learned before is none that the budget is spent on.
pub fn budgets_of_new_clauses()
    ensures { IsSpent 2 0 two_clauses (learned_clause ∷ learned_clause ∷ []) → ⊥ }
{
    wider_and_repeated_clauses();
}

/// A run ends with a model, a refutation, or a spent budget, as its outcome says.
pub fn outcomes()
    ensures model { EndsAs 1 0 two_clauses [] (outcome.Sat (true ∷ false ∷ [])) }
    ensures no_model { EndsAs 1 0 two_clauses [] (outcome.Sat (false ∷ true ∷ [])) → ⊥ }
    ensures refutation { EndsAs 1 0 both_signs (chain [] (1 ∷ 2 ∷ []) ∷ []) outcome.Unsat }
    ensures no_refutation { EndsAs 1 0 two_clauses first_learned outcome.Unsat → ⊥ }
    ensures not_spent { EndsAs 2 0 two_clauses first_learned outcome.Unknown → ⊥ }
{}

/// The steps from before stay in front, each as it was.
pub fn steps_that_stay()
    ensures more { HasMoreSteps first_learned (learned_clause ∷ learned_clause ∷ []) }
    ensures none_more { HasMoreSteps first_learned first_learned }
    ensures fewer { HasMoreSteps first_learned [] → ⊥ }
    ensures in_front { HasMoreSteps first_learned learned_behind_a_lemma → ⊥ }
    ensures left_out { HasMoreSteps learned_behind_a_lemma first_learned → ⊥ }
{}

/// Beside the clauses that the budget allows a refutation alone has a chain more: that with the empty clause.
pub fn chains_beyond_budgets()
    ensures unsat { beyond_budget {E = ℕ} (Ok outcome.Unsat) ≡ 1 }
    ensures sat { beyond_budget {E = ℕ} (Ok (outcome.Sat [])) ≡ 0 }
    ensures unknown { beyond_budget {E = ℕ} (Ok outcome.Unknown) ≡ 0 }
    ensures no_memory { beyond_budget {E = ℕ} (Err 0) ≡ 0 }
{}

/// A search goes on after Unknown alone.
pub fn searches_that_go_on()
    ensures unknown { stays_live {E = ℕ} (Ok outcome.Unknown) ≡ true }
    ensures sat { stays_live {E = ℕ} (Ok (outcome.Sat [])) ≡ false }
    ensures unsat { stays_live {E = ℕ} (Ok outcome.Unsat) ≡ false }
    ensures no_memory { stays_live {E = ℕ} (Err 0) ≡ false }
    ensures no_outcome { may_go_on None ≡ true }
    ensures after_unknown { may_go_on (Some outcome.Unknown) ≡ true }
    ensures after_unsat { may_go_on (Some outcome.Unsat) ≡ false }
{}

/// A model has a value for each variable, variable 1 first.
pub fn models()
    ensures second { HasModel two_clauses (true ∷ false ∷ []) }
    ensures false_clause { HasModel two_clauses (false ∷ true ∷ []) → ⊥ }
    ensures too_short { HasModel two_clauses (true ∷ []) → ⊥ }
    ensures too_long { HasModel two_clauses (true ∷ false ∷ false ∷ []) → ⊥ }
{}

/// The signs of a model are the literals that it makes true, variable 1 first.
pub fn signs_of_a_model()
    ensures each { AreSigns (true ∷ true ∷ false ∷ []) 3 (pos 1 ∷ pos 2 ∷ minus 3 ∷ []) }
    ensures first_two { AreSigns (true ∷ true ∷ false ∷ []) 2 (pos 1 ∷ pos 2 ∷ []) }
    ensures no_variables { AreSigns [] 0 [] }
    ensures turned { AreSigns (true ∷ true ∷ false ∷ []) 3 (minus 1 ∷ minus 2 ∷ pos 3 ∷ []) → ⊥ }
    ensures values_backward { AreSigns (true ∷ true ∷ false ∷ []) 3 (minus 1 ∷ pos 2 ∷ pos 3 ∷ []) → ⊥ }
    ensures turned_backward { AreSigns (true ∷ true ∷ false ∷ []) 3 (pos 1 ∷ minus 2 ∷ minus 3 ∷ []) → ⊥ }
    ensures variables_backward { AreSigns (true ∷ true ∷ false ∷ []) 3 (minus 3 ∷ pos 2 ∷ pos 1 ∷ []) → ⊥ }
    ensures fewer { AreSigns (true ∷ true ∷ false ∷ []) 3 (pos 1 ∷ pos 2 ∷ []) → ⊥ }
    ensures more { AreSigns (true ∷ true ∷ false ∷ []) 2 (pos 1 ∷ pos 2 ∷ minus 3 ∷ []) → ⊥ }
{}

/// A search begins with theories that own each atom once, over its graph, and have seen nothing.
pub fn theories_to_begin_with()
    ensures one { AreTheoriesOf barred (theory (round_trip 2 3) reaches [] ∷ []) }
    ensures none { AreTheoriesOf barred [] → ⊥ }
    ensures twice { AreTheoriesOf barred (theory (round_trip 2 3) reaches [] ∷ theory (round_trip 2 3) reaches [] ∷ []) → ⊥ }
    ensures another_graph { AreTheoriesOf barred (theory lone reaches [] ∷ []) → ⊥ }
    ensures another_atom { AreTheoriesOf barred (theory (round_trip 2 3) another [] ∷ []) → ⊥ }
    ensures literal_seen { AreTheoriesOf barred (theory (round_trip 2 3) reaches (pos 1 ∷ []) ∷ []) → ⊥ }
    ensures no_atoms { AreTheoriesOf two_clauses [] }
{}

/// A problem is solved by a model, by a refutation that its last step rests on whole, or by as many clauses as the budget says.
pub fn solved_problems()
    ensures model { IsSolved two_clauses 5 (solved.Model (true ∷ false ∷ [])) }
    ensures no_model { IsSolved two_clauses 5 (solved.Model (false ∷ true ∷ [])) → ⊥ }
    ensures refutation { IsSolved both_signs 5 (solved.Refutation (chain [] (1 ∷ 2 ∷ []) ∷ [])) }
    ensures no_refutation { IsSolved two_clauses 5 (solved.Refutation first_learned) → ⊥ }
    ensures step_too_many { IsSolved both_signs 5 (solved.Refutation (chain (pos 1 ∷ []) (1 ∷ []) ∷ chain [] (1 ∷ 2 ∷ []) ∷ [])) → ⊥ }
    ensures progress { IsSolved two_clauses 1 (solved.Progress first_learned) }
    ensures unjustified_lemma { IsSolved two_clauses 1 (solved.Progress learned_behind_a_lemma) → ⊥ }
    ensures too_few { IsSolved two_clauses 2 (solved.Progress first_learned) → ⊥ }
{}

/// A clause that was learned before is none that solving is paid for.
pub fn solved_by_new_clauses()
    ensures { IsSolved two_clauses 2 (solved.Progress (learned_clause ∷ learned_clause ∷ [])) → ⊥ }
{
    wider_and_repeated_clauses();
}
