//! The clauses of a kind join a store.

ghost use Rattle.std.specs.Bool.{OnTrue};
ghost use Rattle.std.specs.Prelude.{◌≡◌, ◌<◌, ◌≤◌, All, []};
ghost use Rattle.mono_base.specs.Literal.{IsLitWithin};
ghost use Rattle.mono_clauses.specs.Store.{Follows};

use crate::making::{Draw, Kind, make};
use mono_base::Lit;
use mono_clauses::ClauseStore;
use mono_trail::Trail;
use std::alloc::{AllocError, Global};

/// Whether the literals are over the variables.
fn are_within(vars: u32, clause: &[Lit]) -> bool
    ensures { OnTrue result (All (IsLitWithin vars) clause.now) }
{
    for lit in clause {
        if lit.var() > vars {
            return false;
        }
    }
    true
}

/// All clauses of the kind join, numbered by their places.
pub fn join_all(
    alloc: Global,
    store: &mut ClauseStore,
    trail: &Trail,
    kind: &Kind,
) -> Result<(), AllocError>
    requires few { kind.now.vars ≤ 50000 }
    requires some { 1 ≤ kind.now.vars }
    requires vars { store.old.vars ≡ kind.now.vars }
    requires empty { store.old.clauses ≡ [] }
    requires follows { Follows store.old trail.now }
    ensures { Follows store.new trail.now }
{
    let mut draw = Draw { state: 12345 };
    let mut clause = Vec::new(alloc);
    let count = kind
        .threes
        .saturating_add(kind.twos)
        .saturating_add(kind.longs);
    let mut place: u32 = 0;
    'join: while place < count {
        make(kind, place, &mut draw, &mut clause)?;
        if clause.len() >= 2 && are_within(kind.vars, clause.as_slice()) {
            store.add(place as u64, clause.as_slice(), trail)?;
        }
        place += 1;
    }
    Ok(())
}
