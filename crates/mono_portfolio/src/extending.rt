//! A problem with clauses of the board behind its own.

ghost use Rattle.std.specs.Prelude.{◌≡◌, ◌∷◌, [], ◌++◌, false, All, IfOk, IsTrue};
ghost use Rattle.mono_steps.specs.Steps.{are_justified};
ghost use Rattle.mono_portfolio.specs.Extended.{extended as extended_by, has_chain as has, passes_limits, board_clause};

use mono_base::Lit;
use mono_problem::{Draft, Problem};
use mono_steps::Step;
use std::alloc::AllocError;

/// The literals of the clause of a chain's number.
pub(crate) fn clause_of<'a>(problem: &Problem, board: &'a [Step], number: u64) -> &'a [Lit]
    requires { IsTrue (has problem.now board.now number) }
    ensures { result.now ≡ board_clause problem.now board.now number }
{
    let count = u64::from(problem.clause_count());
    board[(number - count - 1) as usize].clause().lits()
}

/// Whether a chain of the board has the number.
pub(crate) fn has_chain(problem: &Problem, board: &[Step], number: u64) -> bool
    ensures { result ≡ has problem.now board.now number }
{
    let count = u64::from(problem.clause_count());
    if number <= count {
        return false;
    }
    match board.get((number - count - 1) as usize) {
        Some(Step::Chain(_)) => true,
        _ => false,
    }
}

/// The problem with the clauses of these numbers behind its own.
pub(crate) fn extended(
    problem: &Problem,
    board: &[Step],
    taken: &[u64],
) -> Result<Problem, AllocError>
    requires justified { IsTrue (are_justified problem.now board.now) }
    requires held { All (λ n. IsTrue (has problem.now board.now n)) taken.now }
    requires fits { passes_limits (extended_by problem.now board.now taken.now) ≡ false }
    ensures { IfOk result (λ p. p ≡ extended_by problem.now board.now taken.now) }
{
    let mut draft = Draft::of_problem(problem)?;
    for number in taken {
        draft.add_clause(clause_of(problem, board, *number))?;
    }
    draft.finish()
}
