//! Problems with one more clause for each assumption.

ghost use Rattle.std.specs.Prelude.{◌≡◌, ◌≤◌, ◌↔◌, IfOk, IsTrue, length};
ghost use Rattle.mono_problem.specs.Assuming.{assuming, HasRoom};
ghost use Rattle.mono_problem.specs.Growth.{greatest_var as greatest_of};

use mono_base::Lit;
use mono_base::limits::{MAX_CLAUSES, MAX_LITERALS};
use mono_problem::{Draft, Problem};
use std::alloc::AllocError;

/// Whether there is room for one more clause of each literal.
pub fn has_room(problem: &Problem, lits: &[Lit]) -> bool
    ensures { IsTrue result ↔ HasRoom problem.now lits.now }
{
    problem.known();
    lits.len() <= (MAX_CLAUSES - problem.clause_count()) as usize
        && lits.len() <= (MAX_LITERALS - problem.literal_count()) as usize
}

/// The problem with one more clause for each literal, in order after its own.
pub fn with_lits(problem: &Problem, lits: &[Lit]) -> Result<Problem, AllocError>
    requires { HasRoom problem.now lits.now }
    ensures { IfOk result (λ p. p ≡ assuming problem.now lits.now) }
{
    let mut draft = Draft::of_problem(problem)?;
    for lit in lits {
        draft.add_clause(&[*lit])?;
    }
    draft.finish()
}

/// The greatest variable of the literals, or `vars` where it is greater.
pub(crate) fn greatest_var(vars: u32, lits: &[Lit]) -> u32
    ensures { result ≡ greatest_of vars lits.now }
{
    lits.iter().fold(vars, |most, lit| most.max(lit.var()))
}
