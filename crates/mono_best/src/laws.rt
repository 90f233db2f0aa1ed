//! What holds of best bounds by their definition.

ghost use Rattle.std.specs.Prelude.{◌≡◌, ℕ, ℤ, List, Bool};
ghost use Rattle.mono_problem.specs.Instance.{Instance};
ghost use Rattle.mono_problem.specs.WellFormed.{IsInstance};
ghost use Rattle.mono_steps.specs.declared.step.Step.{Step};
ghost use Rattle.mono_steps.specs.Trimmed.{IsTrimRefutation};
ghost use Rattle.mono_best.specs.Asking.{asking, predicate_of, HasBoundedAtom, HasRoomToAsk};
ghost use Rattle.mono_best.specs.Bounds.{weakest, IsBoundOf};
ghost use Rattle.mono_best.specs.Best.{IsBest, IsBeyond};
ghost use Rattle.mono_best.specs.Optimum.{IsOptimum, IsNeverMet};

/// A problem that asks for a bound is a problem.
pub fn problems_that_ask_are_problems()
    ensures { (p : Instance) (n : ℕ) (b : ℤ) → IsInstance p → HasBoundedAtom p n → HasRoomToAsk p → IsBoundOf (predicate_of p n) b → IsInstance (asking p n b) }
{}

/// The best bound is the best over all assignments that satisfy the problem: one of them meets it, and none meets a better.
pub fn best_bounds_are_optimal()
    ensures { (p : Instance) (n : ℕ) (b : ℤ) (model : List Bool) (steps : List Step) → IsInstance p → HasBoundedAtom p n → HasRoomToAsk p
        → IsBest p n b model steps → IsOptimum p n b }
{}

/// Where the weakest bound is refuted, no assignment that satisfies the problem meets any bound.
pub fn refuted_weakest_bounds_are_never_met()
    ensures { (p : Instance) (n : ℕ) (steps : List Step) → IsInstance p → HasBoundedAtom p n → HasRoomToAsk p
        → IsTrimRefutation (asking p n (weakest (predicate_of p n))) steps → IsNeverMet p n }
{}

/// What is found of one predicate is one thing: two best bounds are equal, and a best bound, a refutation of the weakest bound
/// and a flow beyond every bound exclude each other.
pub fn outcomes_exclude_each_other()
    ensures one_best { (p : Instance) (n : ℕ) (b c : ℤ) (model other : List Bool) (steps later : List Step) → IsInstance p → HasBoundedAtom p n
        → HasRoomToAsk p → IsBest p n b model steps → IsBest p n c other later → b ≡ c }
    ensures best_or_never { (p : Instance) (n : ℕ) (b : ℤ) (model : List Bool) (steps later : List Step) → IsInstance p → HasBoundedAtom p n
        → HasRoomToAsk p → IsBest p n b model steps → IsTrimRefutation (asking p n (weakest (predicate_of p n))) later → ⊥ }
    ensures best_or_beyond { (p : Instance) (n : ℕ) (b : ℤ) (model other : List Bool) (steps : List Step) → IsInstance p → HasBoundedAtom p n
        → HasRoomToAsk p → IsBest p n b model steps → IsBeyond p n other → ⊥ }
    ensures never_or_beyond { (p : Instance) (n : ℕ) (model : List Bool) (later : List Step) → IsInstance p → HasBoundedAtom p n → HasRoomToAsk p
        → IsTrimRefutation (asking p n (weakest (predicate_of p n))) later → IsBeyond p n model → ⊥ }
{}
