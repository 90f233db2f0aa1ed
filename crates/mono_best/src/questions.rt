//! Questions for one bound.

ghost use Rattle.std.specs.Prelude.{◌<◌, ◌≤◌, ◌+◌, ℕ, All, IfOk, length};
ghost use Rattle.mono_base.specs.Literal.{IsLitWithin, value_in};
ghost use Rattle.mono_theory.specs.Owners.{facts_of};
ghost use Rattle.mono_search.specs.Outcomes.{HasModel};
ghost use Rattle.mono_search.specs.Solving.{MakesTheories, IsSolved};
ghost use Rattle.mono_best.specs.Asking.{asking, predicate_of, HasBoundedAtom, HasRoomToAsk};
ghost use Rattle.mono_best.specs.Bounds.{bound_at as bound_of};
ghost use Rattle.mono_best.specs.Best.{IsReply};
ghost use Rattle.mono_best.specs.Met.{IsMetFrom};

use crate::asking::ask;
use crate::bounds::bound_at;
use crate::measuring::number_in;
use mono_base::limits::MAX_BOUND;
use mono_base::{Lit, Row};
use mono_graph::enabled_edges;
use mono_problem::Problem;
use mono_search::{Solved, solve_preferring};
use mono_steps::Step;
use mono_theory::Theory;
use std::alloc::{AllocError, Global};

/// What a question for the bound of a number comes to.
#[derive(Drop)]
pub(crate) enum Reply {
    /// A model, and the number of the bound that is its own value: that of the question or a later one.
    Met { model: Row<bool>, number: u64 },
    /// There is none.
    Refuted(Row<Step>),
    /// The budget was spent.
    Spent(Row<Step>),
}

/// Solves the problem that asks for the bound of a number.
fn solved_at<T: Theory, F: Fn(&Problem) -> Result<Vec<T>, AllocError>>(
    alloc: Global,
    problem: &Problem,
    make: &F,
    atom: u32,
    number: u64,
    signs: &[Lit],
    budget: u64,
) -> Result<Solved, AllocError>
    requires callable { F.IsAlwaysCallable make.now }
    requires makes { MakesTheories (F.post make.now) (λ ts. facts_of T.graph T.atoms T.seen ts.items) }
    requires atom { HasBoundedAtom problem.now atom }
    requires room { HasRoomToAsk problem.now }
    requires number { number ≤ MAX_BOUND + 1 }
    requires signs { All (IsLitWithin (problem.now.vars + 1)) signs.now }
    requires budget { 1 ≤ budget }
    ensures { IfOk result (IsSolved (asking problem.now atom (bound_of (predicate_of problem.now atom) number)) budget) }
{
    let asked = ask(
        problem,
        atom,
        bound_at(problem.atom(atom).predicate, number),
    )?;
    let solved = solve_preferring(alloc, &asked, make, signs, budget)?;
    Ok(solved)
}

/// The number of a bound that the model meets, from this one on, which it meets: the number of its own value.
pub(crate) fn number_met(
    alloc: Global,
    problem: &Problem,
    atom: u32,
    number: u64,
    model: &[bool],
) -> Result<u64, AllocError>
    requires low { 0 < atom }
    requires high { atom ≤ length problem.now.atoms }
    requires number { number ≤ MAX_BOUND + 1 }
    requires model { problem.now.vars ≤ length model.now }
    ensures { IfOk result (IsMetFrom problem.now atom (value_in model.now) number) }
{
    problem.known();
    let asked = problem.atom(atom);
    let graph = problem.graph(asked.graph);
    let part = enabled_edges(alloc, graph, model)?;
    let Some(found) = number_in(alloc, graph, &part, asked.predicate)? else {
        return Ok(number);
    };
    if found < number {
        return Ok(number);
    }
    Ok(found)
}

/// The reply with this model.
fn met(
    alloc: Global,
    problem: &Problem,
    atom: u32,
    number: u64,
    model: Row<bool>,
) -> Result<Reply, AllocError>
    requires atom { HasBoundedAtom problem.now atom }
    requires number { number ≤ MAX_BOUND + 1 }
    requires model { HasModel (asking problem.now atom (bound_of (predicate_of problem.now atom) number)) model }
    ensures { (budget : ℕ) → IfOk result (IsReply problem.now atom budget number) }
{
    let number = number_met(alloc, problem, atom, number, model.as_slice())?;
    Ok(Reply::Met { model, number })
}

/// Asks for the bound of a number. The search prefers these signs at first.
pub(crate) fn question<T: Theory, F: Fn(&Problem) -> Result<Vec<T>, AllocError>>(
    alloc: Global,
    problem: &Problem,
    make: &F,
    atom: u32,
    number: u64,
    signs: &[Lit],
    budget: u64,
) -> Result<Reply, AllocError>
    requires callable { F.IsAlwaysCallable make.now }
    requires makes { MakesTheories (F.post make.now) (λ ts. facts_of T.graph T.atoms T.seen ts.items) }
    requires atom { HasBoundedAtom problem.now atom }
    requires room { HasRoomToAsk problem.now }
    requires number { number ≤ MAX_BOUND + 1 }
    requires signs { All (IsLitWithin (problem.now.vars + 1)) signs.now }
    requires budget { 1 ≤ budget }
    ensures { IfOk result (IsReply problem.now atom budget number) }
{
    match solved_at(alloc, problem, make, atom, number, signs, budget)? {
        Solved::Model(model) => met(alloc, problem, atom, number, model),
        Solved::Refutation(steps) => Ok(Reply::Refuted(steps)),
        Solved::Progress(steps) => Ok(Reply::Spent(steps)),
    }
}
