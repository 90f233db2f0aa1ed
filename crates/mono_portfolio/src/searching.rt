//! A worker's search over its own problem.

ghost use Rattle.std.specs.Prelude.{◌≤◌, ℕ, IfOk};
ghost use Rattle.mono_problem.specs.Instance.{Instance};
ghost use Rattle.mono_theory.specs.Owners.{facts_of};
ghost use Rattle.mono_search.specs.Solving.{MakesTheories, IsSolved};
ghost use Rattle.mono_portfolio.specs.Searched.{Tells, HasModelsOf};

use crate::event::Reply;
use crate::preferring::preferred;
use mono_base::Row;
use mono_problem::Problem;
use mono_search::{Solved, solve_preferring};
use mono_steps::Step;
use mono_theory::Theory;
use std::alloc::{AllocError, Global};

/// A reply, and the steps that were made.
#[derive(Drop)]
pub(crate) struct Told {
    pub(crate) reply: Reply,
    pub(crate) made: Row<Step>,
}

/// What a search came to, as a reply, and what it made.
fn tell(alloc: Global, solved: Solved) -> Told
    ensures { (p q : Instance) (slice : ℕ) → HasModelsOf p q → IsSolved q slice solved → Tells p q slice result.reply result.made }
{
    match solved {
        Solved::Model(model) => Told {
            reply: Reply::Model(model),
            made: Row::from_vec(Vec::new(alloc)),
        },
        Solved::Refutation(made) => Told {
            reply: Reply::Unsat,
            made,
        },
        Solved::Progress(made) => Told {
            reply: Reply::Slice,
            made,
        },
    }
}

/// What a worker of this number tells after a search over its problem, and what it made.
pub(crate) fn search_over<T: Theory, F: Fn(&Problem) -> Result<Vec<T>, AllocError>>(
    alloc: Global,
    over: &Problem,
    make: &F,
    number: u32,
    slice: u64,
) -> Result<Told, AllocError>
    requires callable { F.IsAlwaysCallable make.now }
    requires makes { MakesTheories (F.post make.now) (λ ts. facts_of T.graph T.atoms T.seen ts.items) }
    requires slice { 1 ≤ slice }
    ensures { (p : Instance) → HasModelsOf p over.now → IfOk result (λ told. Tells p over.now slice told.reply told.made) }
{
    let signs = preferred(alloc, number, over.vars())?;
    let solved = solve_preferring(alloc, over, make, signs.as_slice(), slice)?;
    Ok(tell(alloc, solved))
}
