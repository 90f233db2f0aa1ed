//! Whether a step is justified.

ghost use Rattle.std.specs.Prelude.{◌≡◌, ◌++◌, All, IfOk};
ghost use Rattle.mono_base.specs.Literal.{IsLitWithin};
ghost use Rattle.mono_steps.specs.Steps.{step_fault};

use crate::{Clause, Step, StepChecker, StepFault};
use mono_problem::Problem;
use std::alloc::{AllocError, Global};

/// The first fault of a step after the problem's clauses and these, whose literals are over the problem's variables.
/// Where the step's labels and amounts are at most 2^60, `None` exactly where it is justified.
///
/// Who checks many steps keeps a [`StepChecker`], which this call makes for itself.
pub fn examine(
    alloc: Global,
    problem: &Problem,
    earlier: &[Clause],
    step: &Step,
) -> Result<Option<StepFault>, AllocError>
    requires { All (All (IsLitWithin problem.now.vars)) earlier.now }
    ensures { IfOk result (λ fault. fault ≡ step_fault problem.now (problem.now.clauses ++ earlier.now) step.now) }
{
    let mut checker = StepChecker::new(alloc, problem)?;
    checker.fault(problem, earlier, step)
}
