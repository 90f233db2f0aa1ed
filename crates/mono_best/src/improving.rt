//! The best bound: after each model better bounds are asked for, until the next one has no model.

ghost use Rattle.std.specs.Prelude.{◌≡◌, ◌≤◌, ◌+◌, ℕ, Bool, List, Option, IfOk};
ghost use Rattle.mono_theory.specs.Owners.{facts_of};
ghost use Rattle.mono_search.specs.Solving.{MakesTheories};
ghost use Rattle.mono_steps.specs.Trimmed.{IsTrimRefutation};
ghost use Rattle.mono_steps.specs.New.{IsProgress};
ghost use Rattle.mono_best.specs.Asking.{asking, predicate_of, HasBoundedAtom, HasRoomToAsk};
ghost use Rattle.mono_best.specs.Bounds.{bound_at as bound_of};
ghost use Rattle.mono_best.specs.Best.{IsBestOutcome, IsMetBefore};

use crate::bounds::{LAST, bound_at};
use crate::leaping::leap;
use crate::limiting::limit;
use crate::outcome::BestOutcome;
use crate::questions::Reply;
use mono_base::Row;
use mono_base::limits::MAX_BOUND;
use mono_problem::Problem;
use mono_search::signs_of;
use mono_steps::Step;
use mono_theory::Theory;
use std::alloc::{AllocError, Global};

/// The best bound with which the predicate of this number holds under values that satisfy the problem. The predicate is one
/// on steps, a distance, a flow or a tree, and the problem has room for what a question adds.
///
/// The search on which the budget, at least 1, is spent learns as many clauses as the budget says. No clause bounds what the searches
/// before it learn.
pub fn best<T: Theory, F: Fn(&Problem) -> Result<Vec<T>, AllocError>>(
    alloc: Global,
    problem: &Problem,
    make: &F,
    atom: u32,
    budget: u64,
) -> Result<BestOutcome, AllocError>
    requires callable { F.IsAlwaysCallable make.now }
    requires makes { MakesTheories (F.post make.now) (λ ts. facts_of T.graph T.atoms T.seen ts.items) }
    requires atom { HasBoundedAtom problem.now atom }
    requires room { HasRoomToAsk problem.now }
    requires budget { 1 ≤ budget }
    ensures { IfOk result (IsBestOutcome problem.now atom budget) }
{
    let most = limit(alloc, problem, atom)?;
    let mut met = None;
    let mut signs = Vec::new(alloc);
    let mut number = 0;
    loop {
        match leap(
            alloc,
            problem,
            make,
            atom,
            number,
            most,
            signs.as_slice(),
            budget,
        )? {
            Reply::Spent(steps) => return Ok(spent(problem, atom, number, steps)),
            Reply::Refuted(steps) => return Ok(refuted(problem, atom, number, met, steps)),
            Reply::Met {
                model,
                number: last,
            } => {
                if last == LAST {
                    return Ok(BestOutcome::Beyond(model));
                }
                signs = signs_of(alloc, model.as_slice())?;
                met = Some(model);
                number = last + 1;
            }
        }
    }
}

/// What is found where the budget was spent on the bound of a number, the one before which was met by a model, if there is one before.
fn spent(problem: &Problem, atom: u32, number: u64, steps: Row<Step>) -> BestOutcome
    requires atom { HasBoundedAtom problem.now atom }
    requires number { number ≤ MAX_BOUND + 1 }
    ensures { (budget : ℕ) (met : Option (List Bool)) → IsMetBefore problem.now atom number met
        → IsProgress (asking problem.now atom (bound_of (predicate_of problem.now atom) number)) budget steps
        → IsBestOutcome problem.now atom budget result }
{
    BestOutcome::Unknown {
        bound: bound_at(problem.atom(atom).predicate, number),
        steps,
    }
}

/// What is found where the bound of a number is refuted, and the one before it was met by a model, if there is one before.
fn refuted(
    problem: &Problem,
    atom: u32,
    number: u64,
    met: Option<Row<bool>>,
    steps: Row<Step>,
) -> BestOutcome
    requires atom { HasBoundedAtom problem.now atom }
    requires met { IsMetBefore problem.now atom number met }
    requires refutes { IsTrimRefutation (asking problem.now atom (bound_of (predicate_of problem.now atom) number)) steps }
    ensures { (budget : ℕ) → IsBestOutcome problem.now atom budget result }
{
    match met {
        None => BestOutcome::Never(steps),
        Some(model) => BestOutcome::Best {
            bound: bound_at(problem.atom(atom).predicate, number - 1),
            model,
            steps,
        },
    }
}
