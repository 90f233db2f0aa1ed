//! Answers of workers that search in turn.

ghost use Rattle.std.specs.Prelude.{◌≤◌, ℕ, IfOk, IsTrue};
ghost use Rattle.mono_problem.specs.WellFormed.{IsInstance};
ghost use Rattle.mono_steps.specs.Steps.{is_refutation};
ghost use Rattle.mono_portfolio.specs.Ends.{IsRefutationOfTurn};
ghost use Rattle.mono_portfolio.specs.Outcomes.{IsTeamOutcome};
ghost use Rattle.mono_words.specs.declared.command.TheConstants.{MAX_WORKERS};
ghost use Rattle.mono_forms.specs.Teams.{IsTeamSolution};

use mono_answer::Answer;
use mono_base::Row;
use mono_kinds::all_theories;
use mono_portfolio::{TeamOutcome, play_team};
use mono_problem::Problem;
use mono_steps::{Step, trimmed};
use std::alloc::{AllocError, Global};

/// What so many workers come to in so many rounds: a model, a refutation, or the board of all rounds.
pub(crate) fn team_answer(
    alloc: Global,
    problem: &Problem,
    workers: u32,
    rounds: u32,
) -> Result<Answer, AllocError>
    requires problem { IsInstance problem.now }
    requires low { 1 ≤ workers }
    requires high { workers ≤ MAX_WORKERS }
    requires rounds { 1 ≤ rounds }
    ensures { IfOk result (IsTeamSolution problem.now workers rounds) }
{
    let make = |p: &Problem| all_theories(alloc, p);
    let outcome = play_team(alloc, problem, &make, workers, rounds)?;
    answer_of(alloc, problem, workers, rounds, outcome)
}

/// The outcome as an answer. A refutation is trimmed, and so is written as `solve` writes one; the board of all rounds is as it is.
fn answer_of(
    alloc: Global,
    problem: &Problem,
    workers: u32,
    rounds: u32,
    outcome: TeamOutcome,
) -> Result<Answer, AllocError>
    requires problem { IsInstance problem.now }
    requires outcome { IsTeamOutcome problem.now workers rounds outcome }
    ensures { IfOk result (IsTeamSolution problem.now workers rounds) }
{
    match outcome {
        TeamOutcome::Model { values, board: _ } => Ok(Answer::Model(values)),
        TeamOutcome::Refutation(steps) => refutation(alloc, problem, steps.as_slice()),
        TeamOutcome::Board(board) => Ok(Answer::Progress(board)),
    }
}

/// The steps of a refutation, without those that its last one doesn't rest on.
fn refutation(alloc: Global, problem: &Problem, steps: &[Step]) -> Result<Answer, AllocError>
    requires problem { IsInstance problem.now }
    requires refutes { IsTrue (is_refutation problem.now steps.now) }
    ensures { (workers rounds : ℕ) → IsRefutationOfTurn problem.now workers rounds steps.now
        → IfOk result (IsTeamSolution problem.now workers rounds) }
{
    let steps = trimmed(alloc, problem, steps)?;
    Ok(Answer::Refutation(Row::from_vec(steps)))
}
