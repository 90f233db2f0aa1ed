//! Answers to problems, looked for by the search.

ghost use Rattle.std.specs.Prelude.{◌≤◌, ℕ, All, IfOk};
ghost use Rattle.mono_base.specs.declared.limits.TheConstants.{MAX_VARS};
ghost use Rattle.mono_base.specs.Literal.{IsLitWithin};
ghost use Rattle.mono_problem.specs.Instance.{Instance};
ghost use Rattle.mono_problem.specs.WellFormed.{IsInstance};
ghost use Rattle.mono_search.specs.Solving.{IsSolved};
ghost use Rattle.mono_problem.specs.Assuming.{HasRoom};
ghost use Rattle.mono_words.specs.declared.command.TheConstants.{DEFAULT_BUDGET};
ghost use Rattle.mono_forms.specs.Solved.{IsSolution, IsNarrowing};

use mono_answer::Answer;
use mono_base::Lit;
use mono_core::{CoreOutcome, core};
use mono_kinds::all_theories;
use mono_problem::Problem;
use mono_search::{Solved, solve};
use mono_words::command::DEFAULT_BUDGET;
use std::alloc::{AllocError, Global};

/// What the search comes to when it may learn so many clauses: a model, a refutation, or as much progress.
pub(crate) fn answer_to(alloc: Global, problem: &Problem, budget: u64) -> Result<Answer, AllocError>
    requires problem { IsInstance problem.now }
    requires budget { 1 ≤ budget }
    ensures { IfOk result (IsSolution problem.now budget) }
{
    let theories = |p: &Problem| all_theories(alloc, p);
    let solved = solve(alloc, problem, &theories, budget)?;
    Ok(answer_of(solved))
}

/// What was found as an answer.
fn answer_of(solved: Solved) -> Answer
    ensures { (p : Instance) (budget : ℕ) → IsInstance p → IsSolved p budget solved → IsSolution p budget result }
{
    match solved {
        Solved::Model(values) => Answer::Model(values),
        Solved::Refutation(steps) => Answer::Refutation(steps),
        Solved::Progress(steps) => Answer::Progress(steps),
    }
}

/// What is found of a problem under assumptions, with the budget of `solve`.
pub(crate) fn core_of(
    alloc: Global,
    problem: &Problem,
    lits: &[Lit],
) -> Result<CoreOutcome, AllocError>
    requires problem { IsInstance problem.now }
    requires literals { All (IsLitWithin MAX_VARS) lits.now }
    requires room { HasRoom problem.now lits.now }
    ensures { IfOk result (IsNarrowing problem.now DEFAULT_BUDGET lits.now) }
{
    let make = |p: &Problem| all_theories(alloc, p);
    core(alloc, problem, &make, lits, DEFAULT_BUDGET)
}
