//! An order of decision beside a list of activities that is searched from its start.

ghost use Rattle.std.specs.Prelude.{◌≡◌, length};
ghost use Rattle.mono_trail.specs.Order.{AllOpenWait};

use super::super::assert_same;
use super::draws::Draws;
use mono_base::{Lit, Value};
use mono_trail::{Order, Reason, Trail};
use std::alloc::{AllocError, Global};
use std::process::Abort;
use std::test::Fail;

const VARS: u32 = 20;

/// A trail and an order of the same variables.
#[derive(Drop)]
struct Pair {
    trail: Trail,
    order: Order,
    ghost same_vars: { trail.vars ≡ length order.waits },
}

impl Pair {
    fn new(alloc: Global) -> Result<Pair, AllocError> {
        let trail = Trail::new(alloc, VARS)?;
        let order = Order::new(alloc, VARS)?;
        Ok(Pair { trail, order })
    }
}

/// How active each variable is and which sign was saved last, by variable.
#[derive(Drop)]
struct SlowOrder {
    activities: Vec<u64>,
    phases: Vec<bool>,
    increment: u64,
}

impl SlowOrder {
    fn new(alloc: Global) -> Result<SlowOrder, AllocError> {
        Ok(SlowOrder {
            activities: vec![in alloc; 0; 21]?,
            phases: vec![in alloc; false; 21]?,
            increment: 64,
        })
    }

    fn activity(&self, var: u32) -> u64 {
        match self.activities.get(var as usize) {
            None => 0,
            Some(activity) => *activity,
        }
    }

    fn bump(&mut self, var: u32) {
        let increment = self.increment;
        if let Some(activity) = self.activities.get_mut(var as usize) {
            *activity = activity.saturating_add(increment);
        }
    }

    fn decay(&mut self) {
        self.increment = self.increment.saturating_add(self.increment / 16);
    }

    fn save(&mut self, lit: Lit) {
        if let Some(phase) = self.phases.get_mut(lit.var() as usize) {
            *phase = lit.is_positive();
        }
    }

    /// No open variable is more active.
    fn is_most_active(&self, var: u32, trail: &Trail) -> bool {
        for other in 1..=VARS {
            if other <= trail.vars()
                && trail.place_of(other).is_none()
                && self.activity(other) > self.activity(var)
            {
                return false;
            }
        }
        true
    }
}

/// Every variable stands in the order, those that have values too.
fn give_all_back(order: &mut Order, trail: &Trail)
    requires { trail.now.vars ≡ length order.old.waits }
    ensures as_many { length order.new.waits ≡ length order.old.waits }
    ensures wait { AllOpenWait order.new trail.now.lits }
{
    for before in 0..trail.vars() {
        order.give_back(before + 1);
    }
}

/// Decides an open variable that no open one is more active than, by the sign saved last.
fn decide(rt: &impl Abort, pair: &mut Pair, slow: &SlowOrder) {
    give_all_back(&mut pair.order, &pair.trail);
    let Some(var) = pair.order.pick(&pair.trail) else {
        assert_same(rt, pair.trail.lits().len(), VARS as usize);
        return;
    };
    assert!(rt; var <= VARS);
    assert!(rt; slow.is_most_active(var, &pair.trail));
    let phase = pair.order.phase(var);
    assert_same(rt, slow.phases.get(var as usize).copied(), Some(phase));
    let positive = Lit::new(var as i32).expect(rt, "a literal");
    let lit = if phase { positive } else { positive.negated() };
    assert!(rt; lit.var() <= pair.trail.vars());
    assert_eq!(rt; pair.trail.value(lit), Value::Unset);
    pair.trail.decide(lit);
}

/// The literal of a number is implied where it is open.
fn imply(pair: &mut Pair, number: u32) {
    if number > VARS {
        return;
    }
    let Some(lit) = Lit::new(number as i32) else {
        return;
    };
    if lit.var() <= pair.trail.vars() && pair.trail.value(lit) == Value::Unset {
        pair.trail.imply(lit, Reason::Clause(1));
    }
}

/// The signs of dropped literals are saved.
fn save_all(order: &mut Order, slow: &mut SlowOrder, vars: u32, lits: &[Lit])
    requires { vars ≡ length order.old.waits }
    ensures { length order.new.waits ≡ length order.old.waits }
{
    for lit in lits {
        if lit.var() <= vars {
            order.save(*lit);
            slow.save(*lit);
        }
    }
}

/// Both go back to a level.
fn backjump(pair: &mut Pair, slow: &mut SlowOrder, draws: &mut Draws) {
    let level = draws.below(VARS);
    if level > pair.trail.level() {
        return;
    }
    let kept = pair.trail.count_to(level);
    let dropped = &pair.trail.lits()[kept..];
    save_all(&mut pair.order, slow, pair.trail.vars(), dropped);
    pair.trail.backjump(level);
}

/// A variable becomes more active.
fn bump(pair: &mut Pair, slow: &mut SlowOrder, var: u32) {
    if 1 <= var && var <= pair.trail.vars() {
        pair.order.bump(var);
        slow.bump(var);
    }
}

/// Earlier bumps count for less.
fn decay(pair: &mut Pair, slow: &mut SlowOrder) {
    pair.order.decay();
    slow.decay();
}

/// A drawn call of both.
fn call(rt: &impl Abort, pair: &mut Pair, slow: &mut SlowOrder, draws: &mut Draws) {
    let kind = draws.below(8);
    match kind {
        0 => backjump(pair, slow, draws),
        1 => imply(pair, draws.below(VARS + 1)),
        2 => decay(pair, slow),
        3 | 4 => decide(rt, pair, slow),
        _ => bump(pair, slow, 1 + draws.below(VARS)),
    }
}

/// Drawn calls of an order and of a list in which no variable is active at first.
fn play(rt: &impl Abort, alloc: Global, pair: &mut Pair, seed: u64) -> Result<(), AllocError> {
    let mut draws = Draws::new(seed);
    let mut slow = SlowOrder::new(alloc)?;
    for _ in 0..200 {
        call(rt, pair, &mut slow, &mut draws);
    }
    Ok(())
}

/// Drawn calls of a new order.
fn play_anew(rt: &impl Abort, alloc: Global, seed: u64) -> Result<(), AllocError> {
    let mut pair = Pair::new(alloc)?;
    play(rt, alloc, &mut pair, seed)
}

#[test]
fn drawn_calls_of_an_order(rt: HostRuntime) -> Result<(), Fail> {
    for seed in 1..=20 {
        play_anew(&rt, rt.alloc(), seed)?;
    }
    Ok(())
}

/// The next variable to be decided, which gets a value.
fn next(pair: &mut Pair) -> Option<u32> {
    give_all_back(&mut pair.order, &pair.trail);
    let var = pair.order.pick(&pair.trail)?;
    imply(pair, var);
    Some(var)
}

/// Far more decays than a number's range holds, so that activities are scaled down several times.
fn bump_in_turn(alloc: Global, pair: &mut Pair) -> Result<(), AllocError> {
    let mut slow = SlowOrder::new(alloc)?;
    for round in 0..2000 {
        bump(pair, &mut slow, 1 + round % VARS);
        decay(pair, &mut slow);
    }
    Ok(())
}

/// The variables are decided from the last one on.
fn assert_last_comes_first(rt: &impl Abort, pair: &mut Pair) {
    for var in (1..=VARS).rev() {
        assert_same(rt, next(pair), Some(var));
    }
    assert_same(rt, next(pair), None);
}

#[test]
fn later_bumps_count_for_more(rt: HostRuntime) -> Result<(), Fail> {
    let mut pair = Pair::new(rt.alloc())?;
    bump_in_turn(rt.alloc(), &mut pair)?;
    assert_last_comes_first(&rt, &mut pair);
    Ok(())
}
