//! What holds of cores by their definition.

ghost use Rattle.std.specs.Prelude.{ℕ, ℤ, List, All};
ghost use Rattle.mono_base.specs.declared.limits.TheConstants.{MAX_VARS};
ghost use Rattle.mono_base.specs.Literal.{IsLitWithin};
ghost use Rattle.mono_problem.specs.Instance.{Instance};
ghost use Rattle.mono_problem.specs.WellFormed.{IsInstance};
ghost use Rattle.mono_steps.specs.declared.step.Step.{Step};
ghost use Rattle.mono_problem.specs.Assuming.{HasRoom};
ghost use Rattle.mono_core.specs.Cores.{IsCore};
ghost use Rattle.mono_core.specs.Minimal.{IsMinimal, IsModelNeed};
ghost use Rattle.mono_core.specs.declared.outcome.Need.{Need};

/// Where each need is a model, the core is minimal: there is no model under all of it, and one under all of it but any one.
pub fn cores_with_models_are_minimal()
    ensures { (p : Instance) (budget : ℕ) (assumed lits : List ℤ) (steps : List Step) (needs : List Need) → IsInstance p
        → All (IsLitWithin MAX_VARS) assumed → HasRoom p assumed → IsCore p budget assumed lits steps needs → All IsModelNeed needs
        → IsMinimal p lits }
{}
