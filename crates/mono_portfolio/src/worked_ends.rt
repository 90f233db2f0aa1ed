//! Worked rows: at which turn rounds end, and with what.

ghost use Rattle.std.specs.Prelude.{◌≡◌, ℕ, true, false, [], ◌∷◌, ◌++◌, List};
ghost use Rattle.mono_problem.specs.Instance.{Instance};
ghost use Rattle.mono_steps.specs.declared.step.Step.{Step};
ghost use Rattle.mono_steps.specs.Trimmed.{IsTrimRefutation};
ghost use Rattle.mono_steps.specs.WorkedLemmas.{chain};
ghost use Rattle.mono_portfolio.specs.Extended.{extended};
ghost use Rattle.mono_portfolio.specs.Moved.{moved};
ghost use Rattle.mono_portfolio.specs.Ends.{IsAtTurn, IsRefutedTurn};
ghost use Rattle.mono_portfolio.specs.declared.rounds.TeamOutcome.TheVariants as outcome;
ghost use Rattle.mono_portfolio.specs.Outcomes.{IsTeamOutcome};
ghost use Rattle.mono_search.specs.Worked.{two_clauses, both_signs, learned_clause, first_learned};
ghost use Rattle.mono_portfolio.specs.Worked.{three_clauses, four_clauses, given_first};

/// Before the first turn nothing is given. A later turn finds what was given in those before it, and what is short in earlier rounds
/// is taken.
pub fn turns_reached()
    ensures first { IsAtTurn 1 two_clauses 2 1 [] [] }
    ensures second_worker { IsAtTurn 1 two_clauses 2 1 [] first_learned }
    ensures second_round { IsAtTurn 1 four_clauses 1 2 (5 ∷ []) (given_first ∷ []) }
    ensures not_taken { IsAtTurn 1 four_clauses 1 2 [] (given_first ∷ []) → ⊥ }
    ensures one_turn { (p : Instance) (taken : List ℕ) (board : List Step) → IsAtTurn 1 p 1 1 taken board → board ≡ [] }
    ensures no_round { (p : Instance) (taken : List ℕ) (board : List Step) → IsAtTurn 1 p 2 0 taken board → ⊥ }
    ensures nobody { (p : Instance) (taken : List ℕ) (board : List Step) → IsAtTurn 1 p 0 1 taken board → ⊥ }
    ensures few_variables { (taken : List ℕ) (board : List Step) → IsAtTurn 1000 two_clauses 2 2 taken board → board ≡ [] }
{}

/// A refutation joins the board behind what was there, with its numbers there. It isn't nothing, and none of its steps is idle.
pub fn refuted_turns()
    ensures alone { IsRefutedTurn both_signs [] [] (chain [] (1 ∷ 2 ∷ []) ∷ []) }
    ensures renumbered { IsRefutedTurn three_clauses (5 ∷ []) (learned_clause ∷ learned_clause ∷ [])
        (learned_clause ∷ learned_clause ∷ chain [] (3 ∷ 5 ∷ []) ∷ []) }
    ensures no_refutation { IsRefutedTurn two_clauses [] [] first_learned → ⊥ }
    ensures nothing_given { (p : Instance) (taken : List ℕ) (board : List Step) → IsRefutedTurn p taken board board → ⊥ }
    ensures another_beginning { IsRefutedTurn both_signs [] first_learned (chain [] (1 ∷ 2 ∷ []) ∷ []) → ⊥ }
    ensures none_idle { (p : Instance) (taken : List ℕ) (before board : List Step) → IsRefutedTurn p taken before board
        → (steps : List Step) × IsTrimRefutation (extended p before taken) steps × (board ≡ before ++ moved p steps taken before) }
{}

/// A model satisfies the problem, and its board has what was given before it. A refutation refutes the problem. Each comes in a turn
/// of some worker, and over two variables no board of whole rounds is left.
pub fn ends_of_teams()
    ensures model { IsTeamOutcome two_clauses 2 1 (outcome.Model (true ∷ false ∷ []) []) }
    ensures false_clause { IsTeamOutcome two_clauses 2 1 (outcome.Model (false ∷ true ∷ []) []) → ⊥ }
    ensures given_in_no_turn { IsTeamOutcome two_clauses 2 2 (outcome.Model (true ∷ false ∷ []) first_learned) → ⊥ }
    ensures model_in_no_round { IsTeamOutcome two_clauses 2 0 (outcome.Model (true ∷ false ∷ []) []) → ⊥ }
    ensures refutation { IsTeamOutcome both_signs 2 1 (outcome.Refutation (chain [] (1 ∷ 2 ∷ []) ∷ [])) }
    ensures no_refutation { IsTeamOutcome two_clauses 2 1 (outcome.Refutation first_learned) → ⊥ }
    ensures refutation_of_nobody { IsTeamOutcome both_signs 0 1 (outcome.Refutation (chain [] (1 ∷ 2 ∷ []) ∷ [])) → ⊥ }
    ensures few_variables { (board : List Step) → IsTeamOutcome two_clauses 2 1 (outcome.Board board) → ⊥ }
{}
