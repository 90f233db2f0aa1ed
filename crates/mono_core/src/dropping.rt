//! Which assumptions a refutation rests on, and the refutation without the others.

ghost use Rattle.std.specs.Prelude.{◌≡◌, ◌+◌, ◌<◌, ◌^◌, ◌++◌, ◌&&◌, length, All, IfOk};
ghost use Rattle.mono_core.specs.Dropped.{is_over as is_clause_over, are_over as are_clauses_over, AreNarrowed, steps_without};
ghost use Rattle.mono_steps.specs.Needed.{is_set, StepNamesHeld};

use mono_base::Lit;
use mono_steps::{Step, new_numbers, renumber_steps};
use std::alloc::{AllocError, Global};

/// Whether the flag is set, and that of its unit too.
fn stays(flag: bool, named: &[bool], unit: usize) -> bool
    ensures { result ≡ (flag && is_set named.now unit) }
{
    flag && unit < named.len() && named[unit]
}

/// Of the flags that are set those that are named, where there is one flag for each of them in `named`.
pub(crate) fn narrowed(
    alloc: Global,
    kept: &[bool],
    named: &[bool],
) -> Result<Vec<bool>, AllocError>
    ensures { IfOk result (λ new. AreNarrowed kept.now named.now new.items) }
{
    let mut new = Vec::with_capacity(alloc, kept.len())?;
    let mut unit = 0usize;
    for flag in kept {
        new.push(stays(*flag, named, unit))?;
        if *flag {
            unit += 1;
        }
    }
    Ok(new)
}

/// Whether each literal is over the first `vars` variables.
fn is_over(vars: u32, lits: &[Lit]) -> bool
    ensures { result ≡ is_clause_over vars lits.now }
{
    lits.iter().all(|lit| 1 <= lit.var() && lit.var() <= vars)
}

/// Whether the literals of all steps are.
pub(crate) fn are_over(vars: u32, steps: &[Step]) -> bool
    ensures { result ≡ are_clauses_over vars steps.now }
{
    steps.iter().all(|step| is_over(vars, step.clause().lits()))
}

/// The steps without those clauses behind the first `count` whose flag isn't set.
pub(crate) fn without_unnamed(
    alloc: Global,
    count: u64,
    named: &[bool],
    steps: &[Step],
) -> Result<Vec<Step>, AllocError>
    requires few { count < 2 ^ 32 }
    requires names { All (StepNamesHeld count (length named.now + length steps.now)) steps.now }
    ensures { IfOk result (λ new. new.items ≡ steps_without count named.now steps.now) }
{
    let all = vec![in alloc; true; steps.len()]?;
    let flags = joined(alloc, named, all.as_slice())?;
    let numbers = new_numbers(alloc, count, flags.as_slice())?;
    renumber_steps(alloc, count, numbers.as_slice(), all.as_slice(), steps)
}

fn joined(alloc: Global, first: &[bool], second: &[bool]) -> Result<Vec<bool>, AllocError>
    ensures { IfOk result (λ both. both.items ≡ first.now ++ second.now) }
{
    let mut both = Vec::from_slice(alloc, first)?;
    both.extend_from_slice(second)?;
    Ok(both)
}
