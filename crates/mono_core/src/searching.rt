//! One search under assumptions.

ghost use Rattle.std.specs.Prelude.{◌≤◌, All, IfOk};
ghost use Rattle.mono_base.specs.Literal.{IsLitWithin};
ghost use Rattle.mono_base.specs.declared.limits.TheConstants.{MAX_VARS};
ghost use Rattle.mono_theory.specs.Owners.{facts_of};
ghost use Rattle.mono_search.specs.Solving.{MakesTheories, IsSolved};
ghost use Rattle.mono_problem.specs.Assuming.{assuming, HasRoom};

use crate::assuming::with_lits;
use mono_base::Lit;
use mono_problem::Problem;
use mono_search::{Solved, signs_of, solve_preferring};
use mono_theory::Theory;
use std::alloc::{AllocError, Global};

/// What a search comes to under the assumptions. It prefers the signs of the values at first.
pub(crate) fn solve_under<T: Theory, F: Fn(&Problem) -> Result<Vec<T>, AllocError>>(
    alloc: Global,
    problem: &Problem,
    make: &F,
    assumed: &[Lit],
    values: &[bool],
    budget: u64,
) -> Result<Solved, AllocError>
    requires callable { F.IsAlwaysCallable make.now }
    requires makes { MakesTheories (F.post make.now) (λ ts. facts_of T.graph T.atoms T.seen ts.items) }
    requires room { HasRoom problem.now assumed.now }
    requires budget { 1 ≤ budget }
    ensures { IfOk result (IsSolved (assuming problem.now assumed.now) budget) }
{
    let whole = with_lits(problem, assumed)?;
    let signs = signs_within(alloc, values, whole.vars())?;
    let solved = solve_preferring(alloc, &whole, make, signs.as_slice(), budget)?;
    Ok(solved)
}

/// The literals that the values make true, variable 1 first, up to the last of `vars` variables.
fn signs_within(alloc: Global, values: &[bool], vars: u32) -> Result<Vec<Lit>, AllocError>
    requires { vars ≤ MAX_VARS }
    ensures { IfOk result (λ signs. All (IsLitWithin vars) signs.items) }
{
    let known = values.len().min(vars as usize);
    let signs = signs_of(alloc, &values[..known])?;
    Ok(signs)
}
