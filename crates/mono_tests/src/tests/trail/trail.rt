//! A trail beside a list that is searched from its start.

ghost use Rattle.std.specs.Prelude.{IfSome};
ghost use Rattle.mono_base.specs.Literal.{IsLitWithin};

use super::super::assert_same;
use super::draws::Draws;
use mono_base::{Lit, Value};
use mono_trail::{Reason, Trail};
use std::alloc::{AllocError, Global};
use std::process::Abort;
use std::test::Fail;

const VARS: u32 = 6;

/// A literal with its level and its reason.
#[derive(Clone, Copy)]
struct Entry {
    lit: Lit,
    level: u32,
    reason: Reason,
}

/// The literals that are true, in order, and how many were given.
#[derive(Drop)]
struct SlowTrail {
    entries: Vec<Entry>,
    given: usize,
}

impl SlowTrail {
    fn level(&self) -> u32 {
        match self.entries.last() {
            None => 0,
            Some(entry) => entry.level,
        }
    }

    /// The place and the entry of a variable that has a value.
    fn find(&self, var: u32) -> Option<(u32, Entry)> {
        let place = self
            .entries
            .iter()
            .position(|entry| entry.lit.var() == var)?;
        let entry = self.entries.get(place)?;
        Some((u32::try_from(place).ok()?, *entry))
    }

    /// The literal that is given next.
    fn next_due(&self) -> Option<Lit> {
        let entry = self.entries.get(self.given)?;
        Some(entry.lit)
    }

    /// How many literals came up to a level.
    fn count_to(&self, level: u32) -> usize {
        self.entries
            .iter()
            .filter(|entry| entry.level <= level)
            .count()
    }

    fn value(&self, lit: Lit) -> Value {
        for entry in &self.entries {
            if entry.lit == lit {
                return Value::Yes;
            }
            if entry.lit == lit.negated() {
                return Value::No;
            }
        }
        Value::Unset
    }

    fn join(&mut self, lit: Lit, reason: Reason) -> Result<(), AllocError> {
        let next = if reason == Reason::Decided { 1 } else { 0 };
        let level = self.level().saturating_add(next);
        self.entries.push(Entry { lit, level, reason })?;
        Ok(())
    }

    fn backjump(&mut self, level: u32) {
        let kept = self.count_to(level);
        self.entries.truncate(kept);
        self.given = self.given.min(self.entries.len());
    }

    fn settle(&mut self, var: u32, number: u64) {
        for entry in &mut self.entries {
            if entry.lit.var() == var {
                entry.reason = Reason::Clause(number);
            }
        }
    }
}

/// A literal of the trail's variables, or none.
fn draw_lit(draws: &mut Draws, trail: &Trail) -> Option<Lit>
    ensures { IfSome result (λ l. IsLitWithin trail.now.vars l) }
{
    let sign = if draws.below(2) == 0 { 1 } else { -1 };
    let lit = Lit::new(sign * draws.below(VARS + 1) as i32)?;
    if lit.var() <= trail.vars() {
        Some(lit)
    } else {
        None
    }
}

/// How a literal comes onto the trail.
fn draw_reason(draws: &mut Draws) -> Reason {
    match draws.below(3) {
        0 => Reason::Decided,
        1 => Reason::Clause(u64::from(draws.below(9))),
        _ => Reason::Late {
            atom: draws.below(3),
            kept: draws.below(9),
        },
    }
}

/// An open literal joins both.
fn join(trail: &mut Trail, slow: &mut SlowTrail, draws: &mut Draws) -> Result<(), AllocError> {
    let Some(lit) = draw_lit(draws, trail) else {
        return Ok(());
    };
    if trail.value(lit) != Value::Unset {
        return Ok(());
    }
    let reason = draw_reason(draws);
    if reason == Reason::Decided {
        trail.decide(lit);
    } else {
        trail.imply(lit, reason);
    }
    slow.join(lit, reason)
}

/// Both go back to a level.
fn backjump(trail: &mut Trail, slow: &mut SlowTrail, draws: &mut Draws) {
    let level = draws.below(VARS);
    if level <= trail.level() {
        trail.backjump(level);
        slow.backjump(level);
    }
}

/// A late reason becomes a clause in both.
fn settle(trail: &mut Trail, slow: &mut SlowTrail, draws: &mut Draws) {
    let var = 1 + draws.below(VARS);
    let number = u64::from(draws.below(9));
    if var > trail.vars() {
        return;
    }
    if let Some(Reason::Late { .. }) = trail.reason(var) {
        trail.settle(var, number);
        slow.settle(var, number);
    }
}

/// Both give the same literal.
fn give(rt: &impl Abort, trail: &mut Trail, slow: &mut SlowTrail) {
    assert_same(rt, trail.next_due(), slow.next_due());
    slow.given = slow.given.saturating_add(1).min(slow.entries.len());
}

/// Both say the same of a literal.
fn assert_same_literal(rt: &impl Abort, trail: &Trail, slow: &SlowTrail, number: i32) {
    let Some(lit) = Lit::new(number) else {
        return;
    };
    let var = lit.var();
    assert!(rt; var <= trail.vars());
    assert_same(rt, trail.value(lit), slow.value(lit));
    let (place, level, reason) = match slow.find(var) {
        None => (None, None, None),
        Some((place, entry)) => (Some(place), Some(entry.level), Some(entry.reason)),
    };
    assert_same(rt, trail.place_of(var), place);
    assert_same(rt, trail.level_of(var), level);
    assert_same(rt, trail.reason(var), reason);
}

/// Both hold the same literals at the same levels.
fn assert_alike(rt: &impl Abort, trail: &Trail, slow: &SlowTrail) {
    assert_same(rt, trail.level(), slow.level());
    assert_same(rt, trail.lits().len(), slow.entries.len());
    for level in 0..VARS {
        assert_same(rt, trail.count_to(level), slow.count_to(level));
    }
    for number in -6..=6 {
        assert_same_literal(rt, trail, slow, number);
    }
}

/// A drawn call of both.
fn call(
    rt: &impl Abort,
    trail: &mut Trail,
    slow: &mut SlowTrail,
    draws: &mut Draws,
) -> Result<(), AllocError> {
    match draws.below(8) {
        0 => backjump(trail, slow, draws),
        1 => settle(trail, slow, draws),
        2 | 3 => give(rt, trail, slow),
        _ => join(trail, slow, draws)?,
    }
    Ok(())
}

/// Drawn calls of a trail and of a list that is empty at first.
fn play(rt: &impl Abort, alloc: Global, trail: &mut Trail, seed: u64) -> Result<(), AllocError> {
    let mut draws = Draws::new(seed);
    let mut slow = SlowTrail {
        entries: Vec::new(alloc),
        given: 0,
    };
    for _ in 0..200 {
        call(rt, trail, &mut slow, &mut draws)?;
        assert_alike(rt, trail, &slow);
    }
    Ok(())
}

/// Drawn calls of a new trail.
fn play_anew(rt: &impl Abort, alloc: Global, seed: u64) -> Result<(), AllocError> {
    let mut trail = Trail::new(alloc, VARS)?;
    play(rt, alloc, &mut trail, seed)
}

#[test]
fn drawn_calls_of_a_trail(rt: HostRuntime) -> Result<(), Fail> {
    for seed in 1..=20 {
        play_anew(&rt, rt.alloc(), seed)?;
    }
    Ok(())
}
