//! The literals that a worker prefers.
//!
//! Workers over the same problem are apart by these alone, until they have taken different clauses: a search decides
//! first by a sign that it saved.

ghost use Rattle.std.specs.Prelude.{◌≡◌, ◌≤◌, All, IfOk};
ghost use Rattle.mono_base.specs.declared.limits.TheConstants.{MAX_VARS};
ghost use Rattle.mono_base.specs.Literal.{IsLitWithin};
ghost use Rattle.mono_portfolio.specs.Preferred.{prefers as prefers_it, preferred as preferred_of};

use mono_base::Lit;
use std::alloc::{AllocError, Global};

/// Whether the worker prefers the variable to be true: it isn't the first worker, and its number and 1 divide the variable.
fn prefers(worker: u32, var: u32) -> bool
    ensures { result ≡ prefers_it worker var }
{
    worker >= 1 && u64::from(var) % (u64::from(worker) + 1) == 0
}

/// The variables of these that the worker prefers to be true, each as a literal.
pub(crate) fn preferred(alloc: Global, worker: u32, vars: u32) -> Result<Vec<Lit>, AllocError>
    requires vars { vars ≤ MAX_VARS }
    ensures exact { IfOk result (λ lits. lits.items ≡ preferred_of worker vars) }
    ensures within { IfOk result (λ lits. All (IsLitWithin vars) lits.items) }
{
    let mut lits = Vec::new(alloc);
    for var in 0..vars {
        if prefers(worker, var + 1) {
            lits.push(Lit::of(var + 1, true))?;
        }
    }
    Ok(lits)
}
