//! Rounds: a propagation, and then a decision, or a backjump where a clause is false or every variable has a value.

ghost use Rattle.std.specs.Bool.{OnTrue};
ghost use Rattle.std.specs.Prelude.{◌≡◌, ◌<◌, ◌≤◌, IfSome, IfOk, IsTrue};
ghost use Rattle.mono_base.specs.Literal.{IsLitWithin, var_of};
ghost use Rattle.mono_base.specs.Partial.{is_open_in};
ghost use Rattle.mono_clauses.specs.Store.{Follows};

use crate::making::{Draw, Kind, hidden};
use mono_base::{Lit, Value};
use mono_clauses::{ClauseStore, Found, laws};
use mono_trail::Trail;
use std::alloc::{AllocError, Global};

/// What was done: literals given, decisions, false clauses, full trails, and a sum over the lengths of the trail.
#[derive(Clone, Copy)]
pub struct Tally {
    pub given: u64,
    pub decisions: u64,
    pub conflicts: u64,
    pub full: u64,
    pub sum: u64,
}

/// Which variable is decided next: the first open one from the cursor on.
#[derive(Drop)]
struct Chooser {
    draw: Draw,
    cursor: u32,
    /// The cursors of the decisions that stand.
    cursors: Vec<u32>,
    tally: Tally,
}

/// The first open variable from the cursor on, with its sign.
fn pick(trail: &Trail, kind: &Kind, chooser: &mut Chooser) -> Option<Lit>
    requires vars { kind.now.vars ≡ trail.now.vars }
    requires few { kind.now.vars ≤ 50000 }
    ensures { IfSome result (λ l. IsLitWithin trail.now.vars l × IsTrue (is_open_in trail.now.lits l)) }
{
    let mut var = chooser.cursor;
    'pick: while var <= kind.vars {
        let Some(lit) = Lit::new(var as i32) else {
            return None;
        };
        if let Value::Unset = trail.value(lit) {
            chooser.cursor = var;
            return if_open(trail, signed(lit, kind.flips, chooser));
        }
        var += 1;
    }
    chooser.cursor = var;
    None
}

/// The literal, or its negation.
fn signed(lit: Lit, flips: u32, chooser: &mut Chooser) -> Lit
    ensures { var_of result ≡ var_of lit }
{
    let mut positive = hidden(lit.var());
    if flips > 0 && chooser.draw.below(flips) == 0 {
        positive = !positive;
    }
    if positive { lit } else { lit.negated() }
}

/// The literal, if it is open.
fn if_open(trail: &Trail, lit: Lit) -> Option<Lit>
    requires { IsLitWithin trail.now.vars lit }
    ensures { IfSome result (λ l. IsLitWithin trail.now.vars l × IsTrue (is_open_in trail.now.lits l)) }
{
    match trail.value(lit) {
        Value::Unset => Some(lit),
        _ => None,
    }
}

/// A level below the present one, from which the rounds go on.
fn back(chooser: &mut Chooser, kind: &Kind, level: u32) -> u32
    requires above { 1 ≤ level }
    requires some { 1 ≤ kind.now.vars }
    requires few { kind.now.vars ≤ 50000 }
    ensures { result < level }
{
    let to = chooser.draw.below(level);
    if kind.planted {
        chooser.cursor = match chooser.cursors.as_slice().get(to as usize) {
            Some(cursor) => *cursor,
            None => 1,
        };
    } else {
        chooser.cursor = chooser.draw.below(kind.vars) + 1;
    }
    chooser.cursors.truncate(to as usize);
    to
}

/// One round. The answer is whether another one can follow.
fn round(
    store: &mut ClauseStore,
    trail: &mut Trail,
    kind: &Kind,
    chooser: &mut Chooser,
) -> Result<bool, AllocError>
    requires follows { Follows store.old trail.old }
    requires vars { kind.now.vars ≡ trail.old.vars }
    requires some { 1 ≤ kind.now.vars }
    requires few { kind.now.vars ≤ 50000 }
    ensures follows { IfOk result (λ b. OnTrue b (Follows store.new trail.new)) }
    ensures vars { trail.new.vars ≡ trail.old.vars }
{
    let before = trail.lits().len();
    let found = store.propagate(trail);
    count(&mut chooser.tally, before, trail.lits().len());
    laws::deciding_keeps();
    laws::going_back_keeps();
    laws::going_below_restores();
    let level = trail.level();
    match found {
        Found::False(_) => {
            chooser.tally.conflicts = chooser.tally.conflicts.wrapping_add(1);
            if level == 0 {
                return Ok(false);
            }
            let to = back(chooser, kind, level);
            trail.backjump(to);
            Ok(true)
        }
        Found::Quiet => {
            if let Some(lit) = pick(trail, kind, chooser) {
                chooser.cursors.push(chooser.cursor)?;
                chooser.tally.decisions = chooser.tally.decisions.wrapping_add(1);
                chooser.tally.given = chooser.tally.given.wrapping_add(1);
                trail.decide(lit);
                return Ok(true);
            }
            chooser.tally.full = chooser.tally.full.wrapping_add(1);
            if level == 0 {
                return Ok(false);
            }
            let to = back(chooser, kind, level);
            trail.backjump(to);
            Ok(true)
        }
    }
}

/// Counts the literals that a propagation gave.
fn count(tally: &mut Tally, before: usize, after: usize) {
    tally.given = tally
        .given
        .wrapping_add((after as u64).wrapping_sub(before as u64));
    tally.sum = tally.sum.wrapping_mul(31).wrapping_add(after as u64);
}

/// So many rounds.
pub fn run(
    alloc: Global,
    store: &mut ClauseStore,
    trail: &mut Trail,
    kind: &Kind,
    count: u64,
) -> Result<Tally, AllocError>
    requires follows { Follows store.old trail.old }
    requires vars { kind.now.vars ≡ trail.old.vars }
    requires some { 1 ≤ kind.now.vars }
    requires few { kind.now.vars ≤ 50000 }
{
    let mut chooser = Chooser {
        draw: Draw { state: 777 },
        cursor: 1,
        cursors: Vec::new(alloc),
        tally: Tally {
            given: 0,
            decisions: 0,
            conflicts: 0,
            full: 0,
            sum: 0,
        },
    };
    'rounds: for _ in 0..count {
        if !round(store, trail, kind, &mut chooser)? {
            return Ok(chooser.tally);
        }
    }
    Ok(chooser.tally)
}
