//! The level to go back to.

ghost use Rattle.std.specs.Prelude.{◌≡◌, length};
ghost use Rattle.mono_trail.specs.TrailView.{IsSoundTrail};
ghost use Rattle.mono_learn.specs.Levels.{highest_of};
ghost use Rattle.mono_learn.specs.Resolvents.{AllFalse};

use mono_base::Lit;
use mono_trail::Trail;

/// The greatest level of the literals, or 0.
pub fn highest(trail: &Trail, lits: &[Lit]) -> u32
    requires sound { IsSoundTrail trail.now }
    requires are_false { AllFalse trail.now.lits (length trail.now.lits) lits.now }
    ensures { result ≡ highest_of trail.now lits.now }
{
    let mut most = 0;
    for lit in lits {
        if let Some(level) = trail.level_of(lit.var()) {
            most = most.max(level);
        }
    }
    most
}
