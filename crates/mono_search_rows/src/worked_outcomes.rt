//! Worked rows: what teams answer and at which turn they end, needs of both kinds and cores, and what is found of bounds.

ghost use Rattle.std.specs.Prelude.{◌≡◌, ℕ, List, [], ◌∷◌, negsuc, pos, Bool, true, false};
ghost use Rattle.mono_base.specs.declared.limits.TheConstants.{MAX_BOUND};
ghost use Rattle.mono_problem.specs.declared.atom.Predicate.TheVariants as kind;
ghost use Rattle.mono_problem.specs.Instance.{Instance};
ghost use Rattle.mono_steps.specs.declared.step.Step.{Step};
ghost use Rattle.mono_steps.specs.WorkedLemmas.{chain, minus};
ghost use Rattle.mono_search.specs.Worked.{both_signs, two_clauses};
ghost use Rattle.mono_core.specs.Cores.{IsCoreOutcome, IsNeed};
ghost use Rattle.mono_core.specs.Minimal.{IsModelNeed};
ghost use Rattle.mono_core.specs.Worked.{one_clause};
ghost use Rattle.mono_core.specs.declared.outcome.CoreOutcome.TheVariants as narrowed;
ghost use Rattle.mono_core.specs.declared.outcome.Need.TheVariants as need;
ghost use Rattle.mono_best.specs.Best.{IsBestOutcome};
ghost use Rattle.mono_best.specs.Bounds.{IsBoundOf};
ghost use Rattle.mono_best.specs.Optimum.{IsBetter};
ghost use Rattle.mono_best.specs.Worked.{both_there, four_refuted, weighed};
ghost use Rattle.mono_best.specs.declared.outcome.BestOutcome.TheVariants as bounded;
ghost use Rattle.mono_portfolio.specs.declared.event.Event.TheVariants as event;
ghost use Rattle.mono_portfolio.specs.declared.event.Reply.TheVariants as reply;
ghost use Rattle.mono_portfolio.specs.declared.rounds.TeamOutcome.TheVariants as outcome;
ghost use Rattle.mono_portfolio.specs.Ends.{IsAtTurn, IsModelOfTurn, IsRefutationOfTurn, IsRefutedTurn};
ghost use Rattle.mono_portfolio.specs.Outcomes.{IsTeamOutcome};
ghost use Rattle.mono_portfolio.specs.Plays.{Answers};
ghost use Rattle.mono_portfolio.specs.Soundness.{refuted_last};
ghost use Rattle.mono_portfolio.specs.TeamView.{start};
ghost use Rattle.mono_portfolio.specs.Worked.{some_lemma};
ghost use Rattle.mono_search_rows.specs.Worked.{over_seven};

/// A worker may find a model, which changes nothing where it had made nothing.
pub fn answers_with_a_model()
    ensures { Answers (start two_clauses 2) (event.Run 0 1) (reply.Model (true ∷ false ∷ [])) (start two_clauses 2) }
{}

/// A worker's last reply is Unsat no more once it gave. What another worker gives changes nothing of that.
pub fn replies_before_gifts()
    ensures its_own { refuted_last 1 false (event.Run 1 1 ∷ event.Give 1 ∷ []) (reply.Unsat ∷ reply.Given 1 ∷ []) ≡ false }
    ensures of_another { refuted_last 0 false (event.Run 0 1 ∷ event.Give 1 ∷ []) (reply.Unsat ∷ reply.Given 1 ∷ []) ≡ true }
{}

/// An event to which nothing is replied changes nothing of what was replied last.
pub fn events_without_replies()
    ensures refuted { refuted_last 0 true (event.Give 0 ∷ []) [] ≡ true }
    ensures not_refuted { refuted_last 0 false (event.Give 0 ∷ []) [] ≡ false }
{}

/// A team may end with the board of its rounds.
pub fn boards_at_the_end()
    ensures { IsTeamOutcome over_seven 2 0 (outcome.Board []) }
{}

/// A model or a refutation comes at a turn of one of so many workers, in one of so many rounds.
pub fn turns_of_answers()
    ensures model { (p : Instance) (workers rounds : ℕ) (values : List Bool) (board : List Step) → IsModelOfTurn p workers rounds values board
        → (taken : List ℕ) × IsAtTurn 1000 p workers rounds taken board }
    ensures refutation { (p : Instance) (workers rounds : ℕ) (board : List Step) → IsRefutationOfTurn p workers rounds board
        → (taken : List ℕ) × (before : List Step) × IsAtTurn 1000 p workers rounds taken before }
{}

/// Behind a step that isn't justified, no worker's refutation makes the board one.
pub fn refutations_behind_unjustified_steps()
    ensures { IsRefutedTurn both_signs [] (some_lemma ∷ []) (some_lemma ∷ chain [] (1 ∷ 2 ∷ []) ∷ []) → ⊥ }
{}

/// A need that is a model counts as one, whichever values it has, and a need may be one that was tried.
pub fn needs_of_both_kinds()
    ensures model { IsModelNeed (need.Model []) }
    ensures tried { IsNeed one_clause 0 (minus 1 ∷ []) (true ∷ []) 0 (need.Tried [] []) }
{}

/// A core that is found comes with a refutation.
pub fn outcomes_with_a_core()
    ensures core { IsCoreOutcome one_clause 1 (minus 1 ∷ [])
        (narrowed.Core (minus 1 ∷ []) (chain [] (1 ∷ 2 ∷ []) ∷ []) (need.Model (true ∷ []) ∷ [])) }
    ensures no_refutation { IsCoreOutcome one_clause 1 (minus 1 ∷ []) (narrowed.Core (minus 1 ∷ []) [] (need.Model (true ∷ []) ∷ [])) → ⊥ }
{}

/// Of what has no bound, none is better than another.
pub fn no_better_bounds()
    ensures reach { IsBetter (kind.Reach 0 1) (pos 8) (pos 7) → ⊥ }
    ensures acyclic { IsBetter kind.Acyclic (pos 8) (pos 7) → ⊥ }
{}

/// A tree may be asked with the bounds -1 and 2^53, and a distance not with -2.
pub fn bounds_of_trees_and_distances()
    ensures tree_least { IsBoundOf (kind.Tree (pos 2)) (negsuc 0) }
    ensures tree_greatest { IsBoundOf (kind.Tree (pos 2)) (pos MAX_BOUND) }
    ensures no_less_distance { IsBoundOf (kind.Distance 0 1 (pos 2)) (negsuc 1) → ⊥ }
{}

/// What is found is the best bound alone, and no walk is beyond every bound.
pub fn outcomes_with_a_bound()
    ensures not_the_best { IsBestOutcome (weighed []) 1 1 (bounded.Best (pos 6) both_there four_refuted) → ⊥ }
    ensures weight { IsBestOutcome (weighed []) 1 1 (bounded.Beyond both_there) → ⊥ }
{}
