//! Steps with other numbers.
//!
//! Justified steps may be carried to another problem that has the clauses they name, each number exchanged for that of the
//! same clause there: `laws::carried_steps_are_justified`. Trimming is such a case, where steps are dropped.

ghost use Rattle.std.specs.Prelude.{◌≡◌, ℕ, ◌+◌, ◌≤◌, ◌^◌, ◌<◌, length, map, All, IfOk};
ghost use Rattle.std.specs.List.{list_any};
ghost use Rattle.mono_steps.specs.Needed.{is_set, AreNumbers, StepNamesHeld};
ghost use Rattle.mono_steps.specs.Renumbering.{IsTable, names_step, steps_with_numbers, with_numbers};

use crate::trimming::mark_named;
use crate::{Chain, Step};
use mono_base::Row;
use std::alloc::{AllocError, Global};

/// Which of so many clauses behind the first `count` one of the steps names.
pub fn named_by(
    alloc: Global,
    count: u64,
    len: usize,
    steps: &[Step],
) -> Result<Vec<bool>, AllocError>
    requires small { len < 2 ^ 63 }
    requires names { All (StepNamesHeld count (len + length steps.now)) steps.now }
    ensures len { IfOk result (λ named. length named.items ≡ len) }
    ensures each { IfOk result (λ named. (k : ℕ) → k < len → is_set named.items k ≡ list_any (λ s. names_step count s k) steps.now) }
{
    let mut named = vec![in alloc; false; len + steps.len()]?;
    for step in steps {
        mark_named(count, step, &mut named);
    }
    named.truncate(len);
    Ok(named)
}

/// The numbers of the clauses behind the first `count`, once those whose flag isn't set were dropped: that of a dropped one is
/// the next one's.
pub fn new_numbers(alloc: Global, count: u64, flags: &[bool]) -> Result<Vec<u64>, AllocError>
    requires { count < 2 ^ 32 }
    ensures { IfOk result (λ numbers. AreNumbers count flags.now numbers.items) }
{
    let mut numbers = Vec::with_capacity(alloc, flags.len())?;
    let mut next = count + 1;
    for flag in flags {
        numbers.push(next)?;
        if *flag {
            next += 1;
        }
    }
    Ok(numbers)
}

fn new_number(count: u64, numbers: &[u64], number: u64) -> u64
    requires { number ≤ count + length numbers.now }
    ensures { (f : ℕ → ℕ) → IsTable count numbers.now f → result ≡ f number }
{
    if number <= count {
        number
    } else {
        numbers[(number - count - 1) as usize]
    }
}

fn renumber_used(
    alloc: Global,
    count: u64,
    numbers: &[u64],
    used: &[u64],
) -> Result<Vec<u64>, AllocError>
    requires { All (λ n. n ≤ count + length numbers.now) used.now }
    ensures { IfOk result (λ new. (f : ℕ → ℕ) → IsTable count numbers.now f → new.items ≡ map f used.now) }
{
    let mut new = Vec::with_capacity(alloc, used.len())?;
    for number in used {
        new.push(new_number(count, numbers, *number))?;
    }
    Ok(new)
}

/// A copy of the step with new numbers.
fn renumber(alloc: Global, count: u64, numbers: &[u64], step: &Step) -> Result<Step, AllocError>
    requires { StepNamesHeld count (length numbers.now) step.now }
    ensures { IfOk result (λ new. (f : ℕ → ℕ) → IsTable count numbers.now f → new ≡ with_numbers f step.now) }
{
    match step {
        Step::Lemma(lemma) => Ok(Step::Lemma(lemma.copy()?)),
        Step::Chain(chain) => {
            let clause = chain.clause.copy()?;
            let used = renumber_used(alloc, count, numbers, chain.used.as_slice())?;
            Ok(Step::Chain(Chain {
                clause,
                used: Row::from_vec(used),
            }))
        }
    }
}

/// Copies of the steps whose flag is set, with new numbers: the first `count` clauses keep theirs, and each behind them has
/// the one in the table.
pub fn renumber_steps(
    alloc: Global,
    count: u64,
    numbers: &[u64],
    flags: &[bool],
    steps: &[Step],
) -> Result<Vec<Step>, AllocError>
    requires len { length flags.now ≡ length steps.now }
    requires names { All (StepNamesHeld count (length numbers.now)) steps.now }
    ensures { IfOk result (λ new. (f : ℕ → ℕ) → IsTable count numbers.now f → new.items ≡ steps_with_numbers f flags.now steps.now) }
{
    let mut new = Vec::new(alloc);
    for place in 0..steps.len() {
        if flags[place] {
            new.push(renumber(alloc, count, numbers, &steps[place])?)?;
        }
    }
    Ok(new)
}
