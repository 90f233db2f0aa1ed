//! The bound that all edges together give, which no model exceeds.
//!
//! It only tells where to ask first: nothing rests on it, and no contract says that it is right. So what clauses of one open
//! literal say is followed for some passes alone, and what predicates say isn't.

ghost use Rattle.std.specs.Prelude.{◌≡◌, ◌<◌, ◌≤◌, ◌+◌, ◌||◌, neg_ℤ, not, find, length, All, IfOk, IfSome};
ghost use Rattle.std.specs.List.{list_all};
ghost use Rattle.std.specs.Ordering.{int_eq};
ghost use Rattle.mono_base.specs.Literal.{has_lit, var_of, IsLitWithin};
ghost use Rattle.mono_best.specs.Asking.{HasBoundedAtom};

use crate::questions::number_met;
use mono_base::limits::{MAX_BOUND, MAX_VARS};
use mono_base::{Lit, LitSet};
use mono_problem::Problem;
use std::alloc::{AllocError, Global};

/// How often all clauses are looked at.
const PASSES: u32 = 8;

/// The number of the bound that the predicate has by every edge that clauses of one open literal leave.
pub(crate) fn limit(alloc: Global, problem: &Problem, atom: u32) -> Result<u64, AllocError>
    requires atom { HasBoundedAtom problem.now atom }
    ensures { IfOk result (λ number. number ≤ MAX_BOUND + 1) }
{
    let left = left_open(alloc, problem)?;
    let number = number_met(alloc, problem, atom, 0, left.as_slice())?;
    Ok(number)
}

/// Whether each variable may be true, variable 1 first.
fn left_open(alloc: Global, problem: &Problem) -> Result<Vec<bool>, AllocError>
    ensures { IfOk result (λ flags. length flags.items ≡ problem.now.vars) }
{
    let said = units(alloc, problem)?;
    let mut flags = Vec::new(alloc);
    for place in 0..problem.vars() {
        flags.push(may_be_true(&said, place + 1))?;
    }
    Ok(flags)
}

fn may_be_true(said: &LitSet, var: u32) -> bool
    requires low { 0 < var }
    requires high { var ≤ said.now.vars }
    requires limit { var ≤ MAX_VARS }
{
    !said.has(Lit::of(var, false))
}

/// The literals that clauses of one open literal say.
fn units(alloc: Global, problem: &Problem) -> Result<LitSet, AllocError>
    ensures { IfOk result (λ said. said.vars ≡ problem.now.vars) }
{
    problem.known();
    let mut said = LitSet::new(alloc, problem.vars())?;
    for _pass in 0..PASSES {
        if !add_units(&mut said, problem) {
            return Ok(said);
        }
    }
    Ok(said)
}

/// Adds what each clause says, one after the other. Whether that was anything new.
fn add_units(said: &mut LitSet, problem: &Problem) -> bool
    requires { said.old.vars ≡ problem.now.vars }
    ensures { said.new.vars ≡ said.old.vars }
{
    let before = said.members().len();
    for place in 0..problem.clause_count() {
        add_unit(said, problem.clause(place + 1));
    }
    before < said.members().len()
}

/// Adds the one literal of a clause that isn't false, where there is one alone.
fn add_unit(said: &mut LitSet, lits: &[Lit])
    requires { All (IsLitWithin said.old.vars) lits.now }
    ensures { said.new.vars ≡ said.old.vars }
{
    let Some(lit) = first_open(said, lits) else {
        return;
    };
    if is_alone(said, lits, lit) {
        said.insert(lit);
    }
}

fn is_false(said: &LitSet, lit: Lit) -> bool
    requires { var_of lit ≤ said.now.vars }
    ensures { result ≡ has_lit said.now.members (neg_ℤ lit) }
{
    said.has(lit.negated())
}

fn first_open(said: &LitSet, lits: &[Lit]) -> Option<Lit>
    requires { All (IsLitWithin said.now.vars) lits.now }
    ensures value { result ≡ find (λ l. not (has_lit said.now.members (neg_ℤ l))) lits.now }
    ensures within { IfSome result (λ l. var_of l ≤ said.now.vars) }
{
    lits.iter().copied().find(|lit| !is_false(said, *lit))
}

fn is_alone(said: &LitSet, lits: &[Lit], one: Lit) -> bool
    requires { All (IsLitWithin said.now.vars) lits.now }
    ensures { result ≡ list_all (λ l. has_lit said.now.members (neg_ℤ l) || int_eq l one) lits.now }
{
    lits.iter().all(|lit| is_false(said, *lit) || *lit == one)
}
