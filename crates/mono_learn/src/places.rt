//! What a trail says of its places.

ghost use Rattle.std.specs.Prelude.{◌≡◌, ◌<◌, length};
ghost use Rattle.mono_base.specs.Literal.{lit_at};
ghost use Rattle.mono_trail.specs.Places.{reason_at};
ghost use Rattle.mono_trail.specs.TrailView.{IsSoundTrail};
ghost use Rattle.mono_learn.specs.Resolvents.{FalseBy, IsFalseAt};

use mono_base::Lit;
use mono_trail::{Reason, Trail};

/// The literal at a place.
pub fn literal(trail: &Trail, place: usize) -> Lit
    requires { place < length trail.now.lits }
    ensures { result ≡ lit_at trail.now.lits place }
{
    trail.lits()[place]
}

/// How the literal at a place came onto the trail.
pub fn reason(trail: &Trail, place: usize) -> Reason
    requires sound { IsSoundTrail trail.now }
    requires place { place < length trail.now.lits }
    ensures { result ≡ reason_at trail.now.marks place }
{
    let lit = literal(trail, place);
    let Some(reason) = trail.reason(lit.var()) else {
        unreachable!()
    };
    reason
}

/// The place of a false literal's negation.
pub fn place_of_false(trail: &Trail, lit: Lit) -> u32
    requires sound { IsSoundTrail trail.now }
    requires is_false { FalseBy trail.now.lits (length trail.now.lits) lit }
    ensures { IsFalseAt trail.now.lits result lit }
{
    let Some(place) = trail.place_of(lit.var()) else {
        unreachable!()
    };
    place
}
