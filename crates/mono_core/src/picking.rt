//! The items whose flag is set.

ghost use Rattle.std.specs.Prelude.{◌≡◌, ℤ, IfOk, length};
ghost use Rattle.mono_steps.specs.Renumbering.{pick};

use mono_base::Lit;
use std::alloc::{AllocError, Global};

/// The literals whose flag is set, in order.
pub(crate) fn picked(alloc: Global, flags: &[bool], lits: &[Lit]) -> Result<Vec<Lit>, AllocError>
    requires { length flags.now ≡ length lits.now }
    ensures { IfOk result (λ some. some.items ≡ pick flags.now lits.now) }
{
    let mut some = Vec::new(alloc);
    for place in 0..lits.len() {
        if flags[place] {
            some.push(lits[place])?;
        }
    }
    Ok(some)
}
