//! Steps over an extended problem, carried to the board.

ghost use Rattle.std.specs.Prelude.{◌≡◌, ◌+◌, ◌^◌, ◌<◌, length, map, IfOk};
ghost use Rattle.mono_steps.specs.Needed.{NamesHeld};
ghost use Rattle.mono_steps.specs.Renumbering.{IsTable};
ghost use Rattle.mono_portfolio.specs.Moved.{moved_number, moved_step};

use mono_steps::{Step, renumber_steps};
use std::alloc::{AllocError, Global};

/// The numbers on a board of so many steps of what stands behind the problem's own clauses: of the taken ones, and then of
/// the steps.
fn numbers_on_board(
    alloc: Global,
    count: u64,
    taken: &[u64],
    board: u64,
    steps: u64,
) -> Result<Vec<u64>, AllocError>
    requires room { count + length taken.now + steps + board < 2 ^ 63 }
    ensures len { IfOk result (λ numbers. length numbers.items ≡ length taken.now + steps) }
    ensures table { IfOk result (λ numbers. IsTable count numbers.items (moved_number count taken.now board)) }
{
    let mut numbers = Vec::from_slice(alloc, taken)?;
    for step in 0..steps {
        numbers.push(count + board + 1 + step)?;
    }
    Ok(numbers)
}

/// Copies of the steps, with their numbers on a board of so many steps.
pub(crate) fn moved_steps(
    alloc: Global,
    count: u64,
    taken: &[u64],
    board: u64,
    steps: &[Step],
) -> Result<Vec<Step>, AllocError>
    requires room { count + length taken.now + length steps.now + board < 2 ^ 63 }
    requires names { NamesHeld (count + length taken.now) steps.now }
    ensures { IfOk result (λ new. new.items ≡ map (moved_step count taken.now board) steps.now) }
{
    let numbers = numbers_on_board(alloc, count, taken, board, steps.len() as u64)?;
    let all = vec![in alloc; true; steps.len()]?;
    renumber_steps(alloc, count, numbers.as_slice(), all.as_slice(), steps)
}
