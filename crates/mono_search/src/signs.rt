//! The signs of a model, for a search that is to begin near it.

ghost use Rattle.std.specs.Prelude.{◌≤◌, All, IfOk, length};
ghost use Rattle.mono_base.specs.Literal.{IsLitWithin};
ghost use Rattle.mono_base.specs.declared.limits.TheConstants.{MAX_VARS};
ghost use Rattle.mono_search.specs.Signs.{AreSigns};

use mono_base::Lit;
use std::alloc::{AllocError, Global};

/// The literals that are true in a model, variable 1 first.
pub fn signs_of(alloc: Global, model: &[bool]) -> Result<Vec<Lit>, AllocError>
    requires { length model.now ≤ MAX_VARS }
    ensures within { IfOk result (λ lits. All (IsLitWithin (length model.now)) lits.items) }
    ensures signs { IfOk result (λ lits. AreSigns model.now (length model.now) lits.items) }
{
    let mut lits = Vec::new(alloc);
    for place in 0..model.len() {
        lits.push(Lit::of(place as u32 + 1, model[place]))?;
    }
    Ok(lits)
}
