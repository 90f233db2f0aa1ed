//! Rows that were worked by hand, as the definitions compute them: what one conflict teaches, and what it doesn't.

ghost use Rattle.std.specs.Prelude.{ℕ, List, [], ◌∷◌, ◌++◌};
ghost use Rattle.mono_problem.specs.Instance.{Instance};
ghost use Rattle.mono_steps.specs.declared.lemma.Lemma.{Lemma};
ghost use Rattle.mono_steps.specs.declared.step.Step.{Step};
ghost use Rattle.mono_steps.specs.declared.step.Step.TheVariants as step;
ghost use Rattle.mono_steps.specs.WorkedLemmas.{minus};
ghost use Rattle.mono_trail.specs.TrailView.{TrailView};
ghost use Rattle.mono_learn.specs.Learned.{IsLearnt, IsMinimal};
ghost use Rattle.mono_learn.specs.Settled.{AreAskedFor};
ghost use Rattle.mono_learn.specs.Worked.{worked_clauses, worked_trail};

/// The clause {-3, -6, -8}, of the levels 1, 2 and 3, goes back to level 2 and to no other.
pub fn learned_clause_goes_back()
    ensures second { IsLearnt worked_trail (minus 3 ∷ minus 6 ∷ minus 8 ∷ []) 2 }
    ensures start { IsLearnt worked_trail (minus 3 ∷ minus 6 ∷ minus 8 ∷ []) 0 → ⊥ }
    ensures first { IsLearnt worked_trail (minus 3 ∷ minus 6 ∷ minus 8 ∷ []) 1 → ⊥ }
    ensures present { IsLearnt worked_trail (minus 3 ∷ minus 6 ∷ minus 8 ∷ []) 3 → ⊥ }
{}

/// A clause with two literals of the present level is never learned.
pub fn learned_clause_has_one_literal_of_its_level()
    ensures { (back : ℕ) → IsLearnt worked_trail (minus 3 ∷ minus 8 ∷ minus 9 ∷ []) back → ⊥ }
{}

/// With -3 in the clause, -4 may not stay: 3 implies 4.
pub fn implied_literal_is_dropped()
    ensures { IsMinimal worked_clauses worked_trail (minus 3 ∷ minus 4 ∷ minus 6 ∷ minus 8 ∷ []) → ⊥ }
{}

/// No lemma joins where no reason is settled.
pub fn lemma_is_asked_for()
    ensures { (p : Instance) (t : TrailView) (steps : List Step) (m : Lemma) → AreAskedFor p t t steps (steps ++ step.Lemma m ∷ []) → ⊥ }
{}
