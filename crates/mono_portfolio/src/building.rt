//! The problem that was built last for a worker's search.
//!
//! A team keeps one at most. It serves each worker that took the same as the one that it is of; a worker that took nothing
//! searches over the team's own problem.

ghost use Rattle.std.specs.Prelude.{◌≡◌, ◌<◌, ℕ, List, length, IfSome, OnOk};
ghost use Rattle.mono_problem.specs.Instance.{Instance};
ghost use Rattle.mono_steps.specs.declared.step.Step.{Step};
ghost use Rattle.mono_portfolio.specs.Extended.{extended as extended_by};
ghost use Rattle.mono_portfolio.specs.Workers.{IsKeptTeam, IsBuilt, taken_at, built_or, unless_of};

use crate::extending::extended;
use crate::worker::Worker;
use mono_problem::Problem;
use mono_steps::Step;
use std::alloc::AllocError;

/// A problem that was built, and the place of the worker that it is of.
#[derive(Drop)]
pub(crate) struct Built {
    pub(crate) worker: usize,
    pub(crate) problem: Problem,
}

/// Drops what was built, where it is of the worker at this place.
pub(crate) fn drop_built_of(place: usize, built: &mut Option<Built>)
    ensures { built.new ≡ unless_of place built.old }
{
    let Some(last) = built else {
        return;
    };
    if last.worker == place {
        *built = None;
    }
}

/// What was built becomes the problem of the worker at this place, where it is of one that took the same. Else it is dropped.
fn hand_on(workers: &[Worker], place: usize, built: &mut Option<Built>)
    requires place { place < length workers.now }
    requires there { IfSome built.old (λ b. b.worker < length workers.now) }
    ensures { (p : Instance) (board : List Step) → IfSome built.old (IsBuilt p board workers.now)
        → IfSome built.new (λ b. (b.worker ≡ place) × IsBuilt p board workers.now b) }
{
    let Some(last) = built else {
        return;
    };
    let other = last.worker;
    if workers[other].taken() == workers[place].taken() {
        last.worker = place;
        return;
    }
    drop_built_of(other, built);
}

/// Builds the problem of the worker at this place, unless it is there already, or is the team's own.
///
/// What was built before is dropped first, so that two are never there at once.
pub(crate) fn build_for(
    problem: &Problem,
    board: &[Step],
    workers: &[Worker],
    place: usize,
    built: &mut Option<Built>,
) -> Result<(), AllocError>
    requires team { IsKeptTeam problem.now board.now workers.now built.old }
    requires place { place < length workers.now }
    ensures kept { IfSome built.new (IsBuilt problem.now board.now workers.now) }
    ensures ok { OnOk result (built_or problem.now place built.new ≡ extended_by problem.now board.now (taken_at workers.now place)) }
{
    let taken = workers[place].taken();
    if taken.is_empty() {
        return Ok(());
    }
    hand_on(workers, place, built);
    if built.is_some() {
        return Ok(());
    }
    let over = extended(problem, board, taken)?;
    *built = Some(Built {
        worker: place,
        problem: over,
    });
    Ok(())
}

/// What was built, where it is of the worker at this place; else the team's own problem.
pub(crate) fn problem_of<'a>(
    problem: &'a Problem,
    built: &'a Option<Built>,
    place: usize,
) -> &'a Problem
    ensures { result.now ≡ built_or problem.now place built.now }
{
    match built {
        Some(last) => if last.worker == place {
            &last.problem
        } else {
            problem
        },
        None => problem,
    }
}
