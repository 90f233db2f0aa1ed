//! Assumptions deleted one by one.
//!
//! What is left after each deletion is what the last refutation names. Each assumption is tried by a short search first, so
//! that a hard one doesn't stand before easy ones; those that are left are tried by the whole budget. A budget that is no greater
//! than that of a short search is spent on each but once.

ghost use Rattle.std.specs.Prelude.{◌≡◌, ◌<◌, ◌≤◌, ℕ, false, length, slice_set, IfOk, OnOk};
ghost use Rattle.mono_theory.specs.Owners.{facts_of};
ghost use Rattle.mono_steps.specs.Trimmed.{IsTrimRefutation};
ghost use Rattle.mono_search.specs.Solving.{MakesTheories};
ghost use Rattle.mono_problem.specs.Assuming.{assuming, HasRoom};
ghost use Rattle.mono_core.specs.Cores.{IsRefuted, AreAmong, IsFoundAt, IsLeftAt, IsCoreOutcome, AreFound, AreLeft};

use crate::needing::needs_of;
use crate::outcome::{CoreOutcome, Need};
use crate::picking::picked;
use crate::searching::solve_under;
use crate::shrinking::{Refuted, shrunk};
use mono_base::{Lit, Row};
use mono_problem::Problem;
use mono_search::Solved;
use mono_steps::Step;
use mono_theory::Theory;
use std::alloc::{AllocError, Global};

/// How many clauses a short search may learn.
const SHORT: u64 = 2_000;

/// What is known after some deletions.
#[derive(Drop)]
struct Deletion {
    refuted: Refuted,
    /// The values of the last model that was found. The next search prefers their signs.
    model: Vec<bool>,
}

/// A model under all assumptions; or some of them under which the problem has no model, with a refutation, and of each why it
/// stays: a model under the others, or the work that was spent in vain without it; or the progress made under all of them.
///
/// Where each need is a model, the set is minimal (`laws::cores_with_models_are_minimal`).
/// A search that is told as spent learned as many clauses as the budget says.
pub fn core<T: Theory, F: Fn(&Problem) -> Result<Vec<T>, AllocError>>(
    alloc: Global,
    problem: &Problem,
    make: &F,
    assumed: &[Lit],
    budget: u64,
) -> Result<CoreOutcome, AllocError>
    requires callable { F.IsAlwaysCallable make.now }
    requires makes { MakesTheories (F.post make.now) (λ ts. facts_of T.graph T.atoms T.seen ts.items) }
    requires room { HasRoom problem.now assumed.now }
    requires budget { 1 ≤ budget }
    ensures { IfOk result (IsCoreOutcome problem.now budget assumed.now) }
{
    match solve_under(alloc, problem, make, assumed, &[], budget)? {
        Solved::Model(values) => Ok(CoreOutcome::Model(values)),
        Solved::Progress(steps) => Ok(CoreOutcome::Unknown(steps)),
        Solved::Refutation(steps) => delete_each(alloc, problem, make, assumed, budget, steps),
    }
}

/// Deletes assumptions as long as one can be done without. Those on which a short search is spent are tried again at the end, since
/// others may have been dropped since then, and one of them with it.
fn delete_each<T: Theory, F: Fn(&Problem) -> Result<Vec<T>, AllocError>>(
    alloc: Global,
    problem: &Problem,
    make: &F,
    assumed: &[Lit],
    budget: u64,
    steps: Row<Step>,
) -> Result<CoreOutcome, AllocError>
    requires callable { F.IsAlwaysCallable make.now }
    requires makes { MakesTheories (F.post make.now) (λ ts. facts_of T.graph T.atoms T.seen ts.items) }
    requires room { HasRoom problem.now assumed.now }
    requires budget { 1 ≤ budget }
    requires refutes { IsTrimRefutation (assuming problem.now assumed.now) steps }
    ensures { IfOk result (IsCoreOutcome problem.now budget assumed.now) }
{
    let all = vec![in alloc; true; assumed.len()]?;
    let refuted = shrunk(alloc, problem, assumed, all, steps)?;
    let model = Vec::new(alloc);
    let mut deletion = Deletion { refuted, model };
    if budget <= SHORT {
        let found = tried_each(alloc, problem, make, assumed, budget, &mut deletion)?;
        return with_needs(alloc, problem, assumed, deletion.refuted, found);
    }
    let mut soon = tried_each(alloc, problem, make, assumed, SHORT, &mut deletion)?;
    soon.reverse();
    let found = tried_again(alloc, problem, make, assumed, budget, &mut deletion, soon)?;
    with_needs(alloc, problem, assumed, deletion.refuted, found)
}

/// Tries to do without each of the assumptions, the last one first.
fn tried_each<T: Theory, F: Fn(&Problem) -> Result<Vec<T>, AllocError>>(
    alloc: Global,
    problem: &Problem,
    make: &F,
    assumed: &[Lit],
    budget: u64,
    deletion: &mut Deletion,
) -> Result<Vec<Option<Need>>, AllocError>
    requires callable { F.IsAlwaysCallable make.now }
    requires makes { MakesTheories (F.post make.now) (λ ts. facts_of T.graph T.atoms T.seen ts.items) }
    requires room { HasRoom problem.now assumed.now }
    requires budget { 1 ≤ budget }
    requires refuted { IsRefuted problem.now assumed.now deletion.old.refuted.kept.items deletion.old.refuted.steps }
    ensures refuted { OnOk result (IsRefuted problem.now assumed.now deletion.new.refuted.kept.items deletion.new.refuted.steps) }
    ensures found { IfOk result (λ found. AreFound problem.now budget assumed.now deletion.new.refuted.kept.items found.items) }
    ensures all { IfOk result (λ found. length found.items ≡ length assumed.now) }
{
    let mut found = Vec::new(alloc);
    let mut place = assumed.len();
    while place > 0 {
        place -= 1;
        let need = try_without(alloc, problem, make, assumed, budget, deletion, place)?;
        found.push(need)?;
    }
    Ok(found)
}

/// Tries once more to do without those on which a smaller budget was spent, the last one first.
fn tried_again<T: Theory, F: Fn(&Problem) -> Result<Vec<T>, AllocError>>(
    alloc: Global,
    problem: &Problem,
    make: &F,
    assumed: &[Lit],
    budget: u64,
    deletion: &mut Deletion,
    mut soon: Vec<Option<Need>>,
) -> Result<Vec<Option<Need>>, AllocError>
    requires callable { F.IsAlwaysCallable make.now }
    requires makes { MakesTheories (F.post make.now) (λ ts. facts_of T.graph T.atoms T.seen ts.items) }
    requires room { HasRoom problem.now assumed.now }
    requires budget { 1 ≤ budget }
    requires refuted { IsRefuted problem.now assumed.now deletion.old.refuted.kept.items deletion.old.refuted.steps }
    requires soon { AreLeft problem.now assumed.now deletion.old.refuted.kept.items soon.items }
    requires all { length soon.items ≡ length assumed.now }
    ensures refuted { OnOk result (IsRefuted problem.now assumed.now deletion.new.refuted.kept.items deletion.new.refuted.steps) }
    ensures found { IfOk result (λ found. AreFound problem.now budget assumed.now deletion.new.refuted.kept.items found.items) }
    ensures all { IfOk result (λ found. length found.items ≡ length assumed.now) }
{
    let mut found = Vec::new(alloc);
    let mut place = assumed.len();
    while place > 0 {
        place -= 1;
        let Some(one) = soon.pop() else {
            unreachable!()
        };
        let need = try_again(alloc, problem, make, assumed, budget, deletion, place, one)?;
        found.push(need)?;
    }
    Ok(found)
}

/// What is found of the assumption at a place: what was found of it soon, unless a smaller budget was spent on it.
fn try_again<T: Theory, F: Fn(&Problem) -> Result<Vec<T>, AllocError>>(
    alloc: Global,
    problem: &Problem,
    make: &F,
    assumed: &[Lit],
    budget: u64,
    deletion: &mut Deletion,
    place: usize,
    soon: Option<Need>,
) -> Result<Option<Need>, AllocError>
    requires callable { F.IsAlwaysCallable make.now }
    requires makes { MakesTheories (F.post make.now) (λ ts. facts_of T.graph T.atoms T.seen ts.items) }
    requires room { HasRoom problem.now assumed.now }
    requires budget { 1 ≤ budget }
    requires refuted { IsRefuted problem.now assumed.now deletion.old.refuted.kept.items deletion.old.refuted.steps }
    requires place { place < length assumed.now }
    requires soon { IsLeftAt problem.now assumed.now deletion.old.refuted.kept.items place soon }
    ensures refuted { OnOk result (IsRefuted problem.now assumed.now deletion.new.refuted.kept.items deletion.new.refuted.steps) }
    ensures fewer { OnOk result (AreAmong deletion.new.refuted.kept.items deletion.old.refuted.kept.items) }
    ensures need { IfOk result (IsFoundAt problem.now budget assumed.now deletion.new.refuted.kept.items place) }
{
    let Some(need) = soon else {
        return Ok(None);
    };
    match need {
        Need::Model(values) => Ok(Some(Need::Model(values))),
        Need::Tried { tried: _, steps: _ } => {
            let found = try_without(alloc, problem, make, assumed, budget, deletion, place)?;
            Ok(found)
        }
    }
}

/// Tries to do without the assumption at a place: `None` where it isn't kept.
fn try_without<T: Theory, F: Fn(&Problem) -> Result<Vec<T>, AllocError>>(
    alloc: Global,
    problem: &Problem,
    make: &F,
    assumed: &[Lit],
    budget: u64,
    deletion: &mut Deletion,
    place: usize,
) -> Result<Option<Need>, AllocError>
    requires callable { F.IsAlwaysCallable make.now }
    requires makes { MakesTheories (F.post make.now) (λ ts. facts_of T.graph T.atoms T.seen ts.items) }
    requires room { HasRoom problem.now assumed.now }
    requires budget { 1 ≤ budget }
    requires refuted { IsRefuted problem.now assumed.now deletion.old.refuted.kept.items deletion.old.refuted.steps }
    requires place { place < length assumed.now }
    ensures refuted { OnOk result (IsRefuted problem.now assumed.now deletion.new.refuted.kept.items deletion.new.refuted.steps) }
    ensures fewer { OnOk result (AreAmong deletion.new.refuted.kept.items deletion.old.refuted.kept.items) }
    ensures need { IfOk result (IsFoundAt problem.now budget assumed.now deletion.new.refuted.kept.items place) }
{
    if !deletion.refuted.kept[place] {
        return Ok(None);
    }
    let others = cleared(&deletion.refuted.kept, place)?;
    let tried = picked(alloc, others.as_slice(), assumed)?;
    let model = deletion.model.as_slice();
    match solve_under(alloc, problem, make, tried.as_slice(), model, budget)? {
        Solved::Model(values) => {
            deletion.model = Vec::from_slice(alloc, values.as_slice())?;
            Ok(Some(Need::Model(values)))
        }
        Solved::Progress(steps) => {
            let tried = Row::from_vec(tried);
            Ok(Some(Need::Tried { tried, steps }))
        }
        Solved::Refutation(steps) => {
            deletion.refuted = shrunk(alloc, problem, assumed, others, steps)?;
            Ok(None)
        }
    }
}

/// The flags without the one at a place.
pub(crate) fn cleared(flags: &Vec<bool>, place: usize) -> Result<Vec<bool>, AllocError>
    requires { place < length flags.now.items }
    ensures { IfOk result (λ others. others.items ≡ slice_set flags.now.items place false) }
{
    let mut others = flags.clone()?;
    others[place] = false;
    Ok(others)
}

/// The core, with the needs that were found.
fn with_needs(
    alloc: Global,
    problem: &Problem,
    assumed: &[Lit],
    refuted: Refuted,
    found: Vec<Option<Need>>,
) -> Result<CoreOutcome, AllocError>
    requires refuted { IsRefuted problem.now assumed.now refuted.kept.items refuted.steps }
    requires all { length found.items ≡ length assumed.now }
    ensures { (budget : ℕ) → AreFound problem.now budget assumed.now refuted.kept.items found.items
        → IfOk result (IsCoreOutcome problem.now budget assumed.now) }
{
    let Refuted { kept, steps } = refuted;
    let lits = picked(alloc, kept.as_slice(), assumed)?;
    let needs = needs_of(alloc, problem, assumed, &kept, found)?;
    Ok(CoreOutcome::Core {
        lits: Row::from_vec(lits),
        steps,
        needs: Row::from_vec(needs),
    })
}
