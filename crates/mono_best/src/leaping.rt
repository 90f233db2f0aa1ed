//! Leaps over bounds that are met, or refuted, with ease.
//!
//! A model most often meets the bound that was asked for and no better one, so asking for one more each time would make as
//! many searches as there are bounds. And a weak bound may be a harder question than a strong one. So behind the weakest
//! bound short searches ask for bounds further on: from the bound that all edges together give they go down by steps that
//! double, until there is a model, and close the gap behind it by halves.
//!
//! A bound that isn't met there shows nothing that is printed. Behind a leap the next one is asked for by the whole budget,
//! and after each model once more.

ghost use Rattle.std.specs.Prelude.{◌≡◌, ◌<◌, ◌≤◌, ◌+◌, ◌-◌, ℕ, All, IfOk, IfSome, length};
ghost use Rattle.mono_base.specs.Literal.{IsLitWithin};
ghost use Rattle.mono_theory.specs.Owners.{facts_of};
ghost use Rattle.mono_problem.specs.Instance.{Instance};
ghost use Rattle.mono_search.specs.Solving.{MakesTheories};
ghost use Rattle.mono_best.specs.Asking.{HasBoundedAtom, HasRoomToAsk};
ghost use Rattle.mono_best.specs.Best.{IsReply};
ghost use Rattle.mono_best.specs.Leaps.{IsFound, IsGap};

use crate::gap::{Found, Gap, lowered, risen};
use crate::questions::{Reply, question};
use mono_base::Lit;
use mono_base::limits::{MAX_BOUND, MAX_VARS};
use mono_problem::Problem;
use mono_search::signs_of;
use mono_theory::Theory;
use std::alloc::{AllocError, Global};

/// How many clauses a short search may learn.
const SHORT: u64 = 200;

/// Asks for the bound of a number, by a leap where it is the weakest. The searches decide first by these signs.
///
/// Where the short searches of a leap find no model, the whole budget is spent on the bound, unless it is no greater than theirs.
pub(crate) fn leap<T: Theory, F: Fn(&Problem) -> Result<Vec<T>, AllocError>>(
    alloc: Global,
    problem: &Problem,
    make: &F,
    atom: u32,
    number: u64,
    limit: u64,
    signs: &[Lit],
    budget: u64,
) -> Result<Reply, AllocError>
    requires callable { F.IsAlwaysCallable make.now }
    requires makes { MakesTheories (F.post make.now) (λ ts. facts_of T.graph T.atoms T.seen ts.items) }
    requires atom { HasBoundedAtom problem.now atom }
    requires room { HasRoomToAsk problem.now }
    requires number { number ≤ MAX_BOUND + 1 }
    requires limit { limit ≤ MAX_BOUND + 1 }
    requires signs { All (IsLitWithin (problem.now.vars + 1)) signs.now }
    requires budget { 1 ≤ budget }
    ensures { IfOk result (IsReply problem.now atom budget number) }
{
    if 0 < number {
        return question(alloc, problem, make, atom, number, signs, budget);
    }
    if budget <= SHORT {
        return leapt(alloc, problem, make, atom, number, limit, signs, budget);
    }
    match leapt(alloc, problem, make, atom, number, limit, signs, SHORT)? {
        Reply::Refuted(steps) => Ok(Reply::Refuted(steps)),
        Reply::Met {
            model,
            number: last,
        } => Ok(Reply::Met {
            model,
            number: last,
        }),
        Reply::Spent(_) => question(alloc, problem, make, atom, number, signs, budget),
    }
}

/// The last model of a leap by searches of this budget, or what the first of them comes to, which asks for the bound of the number.
fn leapt<T: Theory, F: Fn(&Problem) -> Result<Vec<T>, AllocError>>(
    alloc: Global,
    problem: &Problem,
    make: &F,
    atom: u32,
    number: u64,
    limit: u64,
    signs: &[Lit],
    budget: u64,
) -> Result<Reply, AllocError>
    requires callable { F.IsAlwaysCallable make.now }
    requires makes { MakesTheories (F.post make.now) (λ ts. facts_of T.graph T.atoms T.seen ts.items) }
    requires atom { HasBoundedAtom problem.now atom }
    requires room { HasRoomToAsk problem.now }
    requires number { number ≤ MAX_BOUND + 1 }
    requires limit { limit ≤ MAX_BOUND + 1 }
    requires signs { All (IsLitWithin (problem.now.vars + 1)) signs.now }
    requires budget { 1 ≤ budget }
    ensures { IfOk result (IsReply problem.now atom budget number) }
{
    match question(alloc, problem, make, atom, number, signs, budget)? {
        Reply::Refuted(steps) => Ok(Reply::Refuted(steps)),
        Reply::Met {
            model,
            number: last,
        } => {
            let near = signs_of(alloc, model.as_slice())?;
            let gap = Gap::new(last + 1, limit + 1);
            let found = last_found(
                alloc,
                problem,
                make,
                atom,
                number,
                near.as_slice(),
                budget,
                gap,
            )?;
            let first = Reply::Met {
                model,
                number: last,
            };
            Ok(met_or(found, first))
        }
        Reply::Spent(steps) => {
            let gap = Gap::new(number, limit + 1);
            let found = last_found(alloc, problem, make, atom, number, signs, budget, gap)?;
            Ok(met_or(found, Reply::Spent(steps)))
        }
    }
}

/// The reply with the last model of a leap, or this one where it found none.
fn met_or(last: Option<Found>, first: Reply) -> Reply
    ensures { (p : Instance) (n budget k : ℕ) → IfSome last (IsFound p n k) → IsReply p n budget k first → IsReply p n budget k result }
{
    match last {
        Some(found) => Reply::Met {
            model: found.model,
            number: found.number,
        },
        None => first,
    }
}

/// The last model of a leap over this gap, if there is one.
fn last_found<T: Theory, F: Fn(&Problem) -> Result<Vec<T>, AllocError>>(
    alloc: Global,
    problem: &Problem,
    make: &F,
    atom: u32,
    number: u64,
    signs: &[Lit],
    budget: u64,
    whole: Gap,
) -> Result<Option<Found>, AllocError>
    requires callable { F.IsAlwaysCallable make.now }
    requires makes { MakesTheories (F.post make.now) (λ ts. facts_of T.graph T.atoms T.seen ts.items) }
    requires atom { HasBoundedAtom problem.now atom }
    requires room { HasRoomToAsk problem.now }
    requires signs { All (IsLitWithin (problem.now.vars + 1)) signs.now }
    requires budget { 1 ≤ budget }
    requires gap { IsGap problem.now atom number whole }
    ensures { IfOk result (λ found. IfSome found (IsFound problem.now atom number)) }
{
    let mut gap = whole;
    while gap.is_open() {
        gap = narrower(alloc, problem, make, atom, number, signs, budget, gap)?;
    }
    Ok(gap.found)
}

/// The gap behind one question more.
fn narrower<T: Theory, F: Fn(&Problem) -> Result<Vec<T>, AllocError>>(
    alloc: Global,
    problem: &Problem,
    make: &F,
    atom: u32,
    number: u64,
    signs: &[Lit],
    budget: u64,
    gap: Gap,
) -> Result<Gap, AllocError>
    requires callable { F.IsAlwaysCallable make.now }
    requires makes { MakesTheories (F.post make.now) (λ ts. facts_of T.graph T.atoms T.seen ts.items) }
    requires atom { HasBoundedAtom problem.now atom }
    requires room { HasRoomToAsk problem.now }
    requires signs { All (IsLitWithin (problem.now.vars + 1)) signs.now }
    requires budget { 1 ≤ budget }
    requires gap { IsGap problem.now atom number gap }
    requires open { gap.low + 1 < gap.high }
    ensures gap { IfOk result (IsGap problem.now atom number) }
    ensures narrower { IfOk result (λ new. new.high - new.low < gap.high - gap.low) }
{
    let next = gap.asked();
    let near = signs_near(alloc, problem, &gap.found, signs)?;
    match question(alloc, problem, make, atom, next, near.as_slice(), budget)? {
        Reply::Met {
            model,
            number: last,
        } => {
            let found = Found {
                model,
                number: last,
            };
            Ok(risen(gap, found))
        }
        Reply::Refuted(_) => Ok(lowered(gap, next, false)),
        Reply::Spent(_) => Ok(lowered(gap, next, true)),
    }
}

/// The signs of the last model, or these where there is none.
fn signs_near(
    alloc: Global,
    problem: &Problem,
    last: &Option<Found>,
    signs: &[Lit],
) -> Result<Vec<Lit>, AllocError>
    requires room { problem.now.vars < MAX_VARS }
    requires last { IfSome last.now (λ found. length found.model ≡ problem.now.vars + 1) }
    requires signs { All (IsLitWithin (problem.now.vars + 1)) signs.now }
    ensures { IfOk result (λ near. All (IsLitWithin (problem.now.vars + 1)) near.items) }
{
    match last {
        Some(found) => {
            let near = signs_of(alloc, found.model.as_slice())?;
            Ok(near)
        }
        None => {
            let near = Vec::from_slice(alloc, signs)?;
            Ok(near)
        }
    }
}
