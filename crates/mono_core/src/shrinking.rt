//! Refutations under fewer assumptions.

ghost use Rattle.std.specs.Prelude.{IfOk};
ghost use Rattle.mono_core.specs.Cores.{IsRefuted, AreAmong};

use crate::assuming::greatest_var;
use crate::dropping::{are_over, narrowed, without_unnamed};
use crate::picking::picked;
use mono_base::{Lit, Row};
use mono_problem::Problem;
use mono_steps::{Step, named_by};
use std::alloc::{AllocError, Global};

/// A refutation under some of the assumptions.
#[derive(Drop)]
pub(crate) struct Refuted {
    /// Whether each assumption is one of these.
    pub(crate) kept: Vec<bool>,
    pub(crate) steps: Row<Step>,
}

/// The refutation under those of the assumptions alone that it names.
///
/// Where a clause of it speaks of a variable that no other part of the problem has, all stay.
pub(crate) fn shrunk(
    alloc: Global,
    problem: &Problem,
    assumed: &[Lit],
    kept: Vec<bool>,
    steps: Row<Step>,
) -> Result<Refuted, AllocError>
    requires refuted { IsRefuted problem.now assumed.now kept.items steps }
    ensures refuted { IfOk result (λ r. IsRefuted problem.now assumed.now r.kept.items r.steps) }
    ensures fewer { IfOk result (λ r. AreAmong r.kept.items kept.items) }
{
    problem.known();
    let count = u64::from(problem.clause_count());
    let lits = picked(alloc, kept.as_slice(), assumed)?;
    let named = named_by(alloc, count, lits.len(), steps.as_slice())?;
    let new = narrowed(alloc, kept.as_slice(), named.as_slice())?;
    let fewer = picked(alloc, new.as_slice(), assumed)?;
    let vars = greatest_var(problem.vars(), fewer.as_slice());
    if are_over(vars, steps.as_slice()) {
        let renumbered = without_unnamed(alloc, count, named.as_slice(), steps.as_slice())?;
        let steps = Row::from_vec(renumbered);
        return Ok(Refuted { kept: new, steps });
    }
    Ok(Refuted { kept, steps })
}
