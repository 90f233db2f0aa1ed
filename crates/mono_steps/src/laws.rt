//! What justified steps show.

ghost use Rattle.std.specs.Prelude.{◌≡◌, ◌↔◌, ℕ, ◌-◌, ℤ, Bool, true, false, List, length, map, slice_index_or, IsTrue, Some, None};
ghost use Rattle.mono_base.specs.Literal.{clause_true, all_true};
ghost use Rattle.mono_problem.specs.Instance.{Instance};
ghost use Rattle.mono_problem.specs.WellFormed.{IsInstance};
ghost use Rattle.mono_problem.specs.Holds.{HasNoModel, Satisfies};
ghost use Rattle.mono_steps.specs.declared.step.Step.{Step};
ghost use Rattle.mono_steps.specs.Chains.{resolvent};
ghost use Rattle.mono_steps.specs.Renumbering.{MayBeCarried, steps_with_numbers};
ghost use Rattle.mono_steps.specs.Steps.{are_justified, are_justified_after, clause_of, is_justified_step, is_refutation, is_small_step, step_fault};

/// The resolvent of two true clauses is true.
pub fn resolution_is_sound()
    ensures { (a : ℕ → Bool) (c d e : List ℤ) → IsTrue (clause_true a c) → IsTrue (clause_true a d) → resolvent c d ≡ Some e → IsTrue (clause_true a e) }
{}

/// A step is justified exactly where its labels and amounts are at most 2^60 and it has no fault.
pub fn no_fault_is_justified()
    ensures { (p : Instance) (earlier : List (List ℤ)) (s : Step) → IsTrue (is_justified_step p earlier s)
        ↔ (IsTrue (is_small_step s) × (step_fault p earlier s ≡ None)) }
{}

/// The clauses of justified steps are true in each assignment that satisfies the problem.
pub fn justified_steps_are_true()
    ensures { (p : Instance) (a : ℕ → Bool) (steps : List Step) → IsInstance p → IsTrue (are_justified p steps) → Satisfies p a
        → IsTrue (all_true a (map clause_of steps)) }
{}

/// Where there is a refutation, no assignment satisfies the problem.
pub fn refutation_means_no_model()
    ensures { (p : Instance) (steps : List Step) → IsInstance p → IsTrue (is_refutation p steps) → HasNoModel p }
{}

/// Justified steps stay justified behind other clauses that have what they name, where each number is exchanged for that of
/// the same clause.
pub fn carried_steps_are_justified()
    ensures { (p q : Instance) (old new : List (List ℤ)) (flags : List Bool) (f : ℕ → ℕ) (steps : List Step) → MayBeCarried p q old new flags f steps
        → IsTrue (are_justified_after p old steps) → IsTrue (are_justified_after q new (steps_with_numbers f flags steps)) }
{}

/// A refutation stays one when its steps are carried, where its last step comes along.
pub fn carried_refutations_refute()
    ensures { (p q : Instance) (flags : List Bool) (f : ℕ → ℕ) (steps : List Step) → MayBeCarried p q p.clauses q.clauses flags f steps
        → length flags ≡ length steps → slice_index_or flags (length steps - 1) false ≡ true → IsTrue (is_refutation p steps)
        → IsTrue (is_refutation q (steps_with_numbers f flags steps)) }
{}
