//! The store beside a plain reference that looks at every clause again and again, over scripts and over drawn calls.

ghost use Rattle.std.specs.Bool.{OnTrue};
ghost use Rattle.std.specs.Prelude.{◌≡◌, ◌<◌, ◌≤◌, All, IsTrue, IfOk, IfSome, length};
ghost use Rattle.mono_base.specs.Literal.{IsLitWithin};
ghost use Rattle.mono_base.specs.Partial.{is_open_in};
ghost use Rattle.mono_clauses.specs.Propagation.{FoundIs};
ghost use Rattle.mono_clauses.specs.Store.{Follows};

use super::assert_same;
use mono_base::{Lit, Value};
use mono_clauses::{ClauseStore, Found, laws};
use mono_trail::Trail;
use std::alloc::{AllocError, Global};
use std::process::Abort;
use std::test::Fail;

/// A call. A propagation goes before each decision and each backjump.
#[derive(Clone, Copy)]
enum Call<'a> {
    Join(&'a [i32]),
    Decide(i32),
    Back(u32),
}

/// The reference: clauses as lists of numbers.
#[derive(Drop)]
struct Plain {
    clauses: Vec<Vec<i32>>,
}

/// What is to be done for a clause.
enum Task {
    Nothing,
    Imply(i32),
    Refuse,
}

/// What the numbers that are true leave to do for a clause.
fn task_of(known: &[i32], clause: &[i32]) -> Task {
    let mut unit = 0;
    for lit in clause {
        if known.contains(lit) {
            return Task::Nothing;
        }
        if known.contains(&lit.wrapping_neg()) || *lit == unit {
            continue;
        }
        if unit != 0 {
            return Task::Nothing;
        }
        unit = *lit;
    }
    if unit == 0 {
        Task::Refuse
    } else {
        Task::Imply(unit)
    }
}

impl Plain {
    /// Looks at each clause once. The answer is whether one is false.
    fn sweep(&self, known: &mut Vec<i32>) -> Result<bool, AllocError> {
        for clause in &self.clauses {
            match task_of(known, clause) {
                Task::Nothing => {}
                Task::Imply(lit) => known.push(lit)?,
                Task::Refuse => return Ok(true),
            }
        }
        Ok(false)
    }

    /// All that follows from the numbers by unit clauses. The answer is whether a clause is false.
    fn close(&self, known: &mut Vec<i32>) -> Result<bool, AllocError> {
        for _ in 0..20 {
            if self.sweep(known)? {
                return Ok(true);
            }
        }
        Ok(false)
    }
}

/// The literals as numbers.
fn numbers(alloc: Global, lits: &[Lit]) -> Result<Vec<i32>, AllocError> {
    let mut numbers = Vec::new(alloc);
    for lit in lits {
        numbers.push(lit.number())?;
    }
    Ok(numbers)
}

/// The literal of a number from 1 to the greatest variable, or of its negative.
fn literal(vars: u32, number: i32) -> Option<Lit>
    ensures { IfSome result (IsLitWithin vars) }
{
    let lit = Lit::new(number)?;
    if lit.var() > vars {
        return None;
    }
    Some(lit)
}

/// The literals of those numbers.
fn literals(alloc: Global, vars: u32, numbers: &[i32]) -> Result<Vec<Lit>, AllocError>
    ensures { IfOk result (λ c. All (IsLitWithin vars) c.items) }
{
    let mut lits = Vec::new(alloc);
    for number in numbers {
        let Some(lit) = literal(vars, *number) else {
            continue;
        };
        lits.push(lit)?;
    }
    Ok(lits)
}

/// The clause joins, numbered from 0.
fn join(store: &mut ClauseStore, trail: &Trail, clause: &[Lit]) -> Result<(), AllocError>
    requires within { All (IsLitWithin store.old.vars) clause.now }
    requires numbered { All (λ c. c.number < length store.old.clauses) store.old.clauses }
    requires follows { Follows store.old trail.now }
    ensures numbered { All (λ c. c.number < length store.new.clauses) store.new.clauses }
    ensures follows { Follows store.new trail.now }
{
    let number = store.len() as u64;
    store.add(number, clause, trail)
}

/// The clause of those numbers joins here and there.
fn join_numbers(
    alloc: Global,
    store: &mut ClauseStore,
    trail: &Trail,
    plain: &mut Plain,
    clause: &[i32],
) -> Result<(), AllocError>
    requires numbered { All (λ c. c.number < length store.old.clauses) store.old.clauses }
    requires follows { Follows store.old trail.now }
    ensures numbered { All (λ c. c.number < length store.new.clauses) store.new.clauses }
    ensures follows { Follows store.new trail.now }
{
    let lits = literals(alloc, trail.vars(), clause)?;
    plain.clauses.push(Vec::from_slice(alloc, clause)?)?;
    join(store, trail, lits.as_slice())
}

/// Asserts that the store found what the reference finds from the numbers that were true before.
fn assert_found(
    rt: &impl Abort,
    plain: &Plain,
    known: &mut Vec<i32>,
    trail: &Trail,
    found: Found,
) -> Result<(), AllocError> {
    let is_false = plain.close(known)?;
    assert_same(rt, found != Found::Quiet, is_false);
    if is_false {
        return Ok(());
    }
    assert_same(rt, trail.lits().len(), known.len());
    for lit in trail.lits() {
        assert!(rt; known.contains(&lit.number()));
    }
    Ok(())
}

/// A propagation, beside the reference.
fn propagate(
    rt: &impl Abort,
    alloc: Global,
    store: &mut ClauseStore,
    trail: &mut Trail,
    plain: &Plain,
) -> Result<Found, AllocError>
    requires { Follows store.old trail.old }
    ensures clauses { store.new.clauses ≡ store.old.clauses }
    ensures found { IfOk result (FoundIs store.new trail.new) }
{
    let mut known = numbers(alloc, trail.lits())?;
    let found = store.propagate(trail);
    assert_found(rt, plain, &mut known, trail, found)?;
    Ok(found)
}

/// A literal of that number, if it is open.
fn open_literal(trail: &Trail, number: i32) -> Option<Lit>
    ensures { IfSome result (λ l. IsLitWithin trail.now.vars l × IsTrue (is_open_in trail.now.lits l)) }
{
    let lit = literal(trail.vars(), number)?;
    if let Value::Unset = trail.value(lit) {
        return Some(lit);
    }
    None
}

/// After a propagation, a decision of that number, if it is open, or a backjump. The answer is whether the store follows the
/// trail: it doesn't after a false clause at level 0.
fn go_on(
    store: &ClauseStore,
    trail: &mut Trail,
    found: Found,
    decide: Option<i32>,
    back: u32,
) -> bool
    requires { FoundIs store.now trail.old found }
    ensures { OnTrue result (Follows store.now trail.new) }
{
    laws::deciding_keeps();
    laws::going_back_keeps();
    laws::going_below_restores();
    let level = trail.level();
    match found {
        Found::False(_) => {
            if level == 0 {
                return false;
            }
            trail.backjump(back.min(level - 1));
            true
        }
        Found::Quiet => {
            let Some(number) = decide else {
                trail.backjump(back.min(level));
                return true;
            };
            if let Some(lit) = open_literal(trail, number) {
                trail.decide(lit);
                return true;
            }
            true
        }
    }
}

/// What the call asks for. The answer is whether the store follows the trail.
fn act(
    rt: &impl Abort,
    alloc: Global,
    store: &mut ClauseStore,
    trail: &mut Trail,
    plain: &mut Plain,
    call: Call<'_>,
) -> Result<bool, AllocError>
    requires numbered { All (λ c. c.number < length store.old.clauses) store.old.clauses }
    requires follows { Follows store.old trail.old }
    ensures numbered { All (λ c. c.number < length store.new.clauses) store.new.clauses }
    ensures follows { IfOk result (λ b. OnTrue b (Follows store.new trail.new)) }
{
    match call {
        Call::Join(clause) => {
            join_numbers(alloc, store, trail, plain, clause)?;
            Ok(true)
        }
        Call::Decide(number) => {
            let found = propagate(rt, alloc, store, trail, plain)?;
            Ok(go_on(store, trail, found, Some(number), u32::MAX))
        }
        Call::Back(level) => {
            let found = propagate(rt, alloc, store, trail, plain)?;
            Ok(go_on(store, trail, found, None, level))
        }
    }
}

/// The literals on the trail after the calls and a last propagation.
fn after_with(
    rt: &impl Abort,
    alloc: Global,
    store: &mut ClauseStore,
    trail: &mut Trail,
    calls: &[Call<'_>],
) -> Result<Vec<i32>, AllocError>
    requires numbered { All (λ c. c.number < length store.old.clauses) store.old.clauses }
    requires follows { Follows store.old trail.old }
{
    let mut plain = Plain {
        clauses: Vec::new(alloc),
    };
    'calls: for call in calls {
        if !act(rt, alloc, store, trail, &mut plain, *call)? {
            return numbers(alloc, trail.lits());
        }
    }
    let _ = propagate(rt, alloc, store, trail, &plain)?;
    numbers(alloc, trail.lits())
}

/// The literals after these calls on a store that has no clauses yet.
fn after_on(
    rt: &impl Abort,
    alloc: Global,
    trail: &mut Trail,
    calls: &[Call<'_>],
) -> Result<Vec<i32>, AllocError>
    requires { trail.old.vars ≤ 10 }
{
    laws::a_new_store_follows();
    let mut store = ClauseStore::new(alloc, trail.vars())?;
    after_with(rt, alloc, &mut store, trail, calls)
}

/// The literals after these calls on a store without clauses and a trail without literals.
fn after(
    rt: &impl Abort,
    alloc: Global,
    vars: u32,
    calls: &[Call<'_>],
) -> Result<Vec<i32>, AllocError>
    requires { vars ≤ 10 }
{
    let mut trail = Trail::new(alloc, vars)?;
    after_on(rt, alloc, &mut trail, calls)
}

#[test]
fn clauses_worked_by_hand(rt: HostRuntime) -> Result<(), Fail> {
    for (calls, trail) in [
        ([Call::Join(&[])].as_slice(), [].as_slice()),
        ([Call::Join(&[1])].as_slice(), [1].as_slice()),
        ([Call::Join(&[1, 1])].as_slice(), [1].as_slice()),
        ([Call::Join(&[1, -1])].as_slice(), [].as_slice()),
        (
            [Call::Join(&[1]), Call::Join(&[-1])].as_slice(),
            [1].as_slice(),
        ),
        (
            [Call::Join(&[1, 1, 2]), Call::Join(&[-1])].as_slice(),
            [-1, 2].as_slice(),
        ),
        (
            [Call::Join(&[1, -1, 2]), Call::Join(&[-2])].as_slice(),
            [-2].as_slice(),
        ),
        // It is unit again after the backjump, though no literal is given.
        (
            [
                Call::Decide(1),
                Call::Decide(2),
                Call::Join(&[-1, 3]),
                Call::Back(1),
            ]
            .as_slice(),
            [1, 3].as_slice(),
        ),
        // A clause of one literal that joined above level 0.
        (
            [Call::Decide(-2), Call::Join(&[1]), Call::Back(0)].as_slice(),
            [1].as_slice(),
        ),
    ] {
        assert_same(&rt, after(&rt, rt.alloc(), 3, calls)?.as_slice(), trail);
    }
    Ok(())
}

/// Numbers drawn by a linear congruential generator.
#[derive(Drop)]
struct Draw {
    state: u64,
}

impl Draw {
    /// A number below the bound, or 0.
    fn below(&mut self, bound: u32) -> u32 {
        self.state = self
            .state
            .wrapping_mul(6364136223846793005)
            .wrapping_add(1442695040888963407);
        let high = (self.state >> 33) as u32;
        high.checked_rem(bound).unwrap_or(0)
    }

    /// The number of a literal over the variables, with either sign.
    fn number(&mut self, vars: u32) -> i32 {
        let number = i32::try_from(self.below(vars)).unwrap_or(0).wrapping_add(1);
        if self.below(2) == 0 {
            number
        } else {
            number.wrapping_neg()
        }
    }

    /// A clause of up to four literals, seldom of none.
    fn clause(&mut self, alloc: Global, vars: u32) -> Result<Vec<i32>, AllocError> {
        let count = match self.below(40) {
            0 => 0,
            _ => self.below(4).wrapping_add(1),
        };
        let mut clause = Vec::new(alloc);
        for _ in 0..count {
            clause.push(self.number(vars))?;
        }
        Ok(clause)
    }
}

/// A drawn call. The answer is whether the store follows the trail.
fn act_drawn(
    rt: &impl Abort,
    alloc: Global,
    store: &mut ClauseStore,
    trail: &mut Trail,
    plain: &mut Plain,
    draw: &mut Draw,
) -> Result<bool, AllocError>
    requires numbered { All (λ c. c.number < length store.old.clauses) store.old.clauses }
    requires follows { Follows store.old trail.old }
    ensures numbered { All (λ c. c.number < length store.new.clauses) store.new.clauses }
    ensures follows { IfOk result (λ b. OnTrue b (Follows store.new trail.new)) }
{
    let vars = trail.vars();
    let clause = draw.clause(alloc, vars)?;
    let call = match draw.below(8) {
        0..=2 => Call::Join(clause.as_slice()),
        3..=6 => Call::Decide(draw.number(vars)),
        _ => Call::Back(draw.below(4)),
    };
    act(rt, alloc, store, trail, plain, call)
}

/// So many drawn calls.
fn play_with(
    rt: &impl Abort,
    alloc: Global,
    store: &mut ClauseStore,
    trail: &mut Trail,
    seed: u64,
    steps: u64,
) -> Result<(), AllocError>
    requires numbered { All (λ c. c.number < length store.old.clauses) store.old.clauses }
    requires follows { Follows store.old trail.old }
{
    let mut plain = Plain {
        clauses: Vec::new(alloc),
    };
    let mut draw = Draw { state: seed };
    'steps: for _ in 0..steps {
        if !act_drawn(rt, alloc, store, trail, &mut plain, &mut draw)? {
            return Ok(());
        }
    }
    Ok(())
}

/// Drawn calls on a store that has no clauses yet.
fn play_on(
    rt: &impl Abort,
    alloc: Global,
    trail: &mut Trail,
    seed: u64,
    steps: u64,
) -> Result<(), AllocError>
    requires { trail.old.vars ≤ 10 }
{
    laws::a_new_store_follows();
    let mut store = ClauseStore::new(alloc, trail.vars())?;
    play_with(rt, alloc, &mut store, trail, seed, steps)
}

/// Drawn calls on a store without clauses and a trail without literals.
fn play(rt: &impl Abort, alloc: Global, vars: u32, seed: u64, steps: u64) -> Result<(), AllocError>
    requires { vars ≤ 10 }
{
    let mut trail = Trail::new(alloc, vars)?;
    play_on(rt, alloc, &mut trail, seed, steps)
}

#[test]
fn drawn_calls_agree_with_the_reference(rt: HostRuntime) -> Result<(), Fail> {
    for vars in 1..9 {
        for seed in 0..40 {
            play(&rt, rt.alloc(), vars, seed, 100)?;
        }
    }
    Ok(())
}
