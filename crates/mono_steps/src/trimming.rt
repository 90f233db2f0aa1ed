//! A refutation without the steps that its last one doesn't rest on.
//!
//! One pass back marks what is needed: the last step, and what a needed step names. So each marked step but the last is
//! named by a marked one after it. One pass forth copies the marked steps, with new numbers.

ghost use Rattle.std.specs.Prelude.{◌≡◌, ℕ, ◌+◌, ◌<◌, ◌≤◌, ◌||◌, length, All, IfOk, IsTrue, false};
ghost use Rattle.mono_steps.specs.Steps.{is_refutation};
ghost use Rattle.mono_steps.specs.Renumbering.{has_number, names_step};
ghost use Rattle.mono_steps.specs.Trimmed.{IsTrimmed};
ghost use Rattle.mono_steps.specs.Needed.{is_set, IsNeeded, NamesHeld, StepNamesHeld};

use crate::Step;
use crate::renumbering::{new_numbers, renumber_steps};
use mono_problem::Problem;
use std::alloc::{AllocError, Global};

/// Marks the steps that are named.
fn mark_used(count: u64, used: &[u64], needed: &mut Vec<bool>)
    requires { All (λ n. n ≤ count + length needed.old.items) used.now }
    ensures len { length needed.new.items ≡ length needed.old.items }
    ensures marks { (k : ℕ) → k < length needed.old.items → is_set needed.new.items k ≡ (is_set needed.old.items k || has_number used.now (count + 1 + k)) }
{
    for number in used {
        if *number > count {
            needed[(*number - count - 1) as usize] = true;
        }
    }
}

/// Marks the steps that a step names.
pub(crate) fn mark_named(count: u64, step: &Step, needed: &mut Vec<bool>)
    requires { StepNamesHeld count (length needed.old.items) step.now }
    ensures len { length needed.new.items ≡ length needed.old.items }
    ensures marks { (k : ℕ) → k < length needed.old.items → is_set needed.new.items k ≡ (is_set needed.old.items k || names_step count step.now k) }
{
    match step {
        Step::Lemma(_) => {}
        Step::Chain(chain) => mark_used(count, chain.used.as_slice(), needed),
    }
}

/// Marks the last step and all that it rests on.
fn mark_needed(count: u64, steps: &[Step], needed: &mut Vec<bool>)
    requires some { 0 < length steps.now }
    requires len { length needed.old.items ≡ length steps.now }
    requires none { (k : ℕ) → is_set needed.old.items k ≡ false }
    requires names { NamesHeld count steps.now }
    ensures { IsNeeded count steps.now 0 needed.new.items }
{
    let mut place = steps.len();
    needed[place - 1] = true;
    while place > 0 {
        place -= 1;
        if needed[place] {
            mark_named(count, &steps[place], needed);
        }
    }
}

/// The steps that the last one rests on, in order, renumbered.
pub fn trimmed(alloc: Global, problem: &Problem, steps: &[Step]) -> Result<Vec<Step>, AllocError>
    requires { IsTrue (is_refutation problem.now steps.now) }
    ensures { IfOk result (λ new. IsTrimmed problem.now steps.now new.items) }
{
    let count = u64::from(problem.clause_count());
    let mut needed = vec![in alloc; false; steps.len()]?;
    mark_needed(count, steps, &mut needed);
    let numbers = new_numbers(alloc, count, needed.as_slice())?;
    renumber_steps(alloc, count, numbers.as_slice(), needed.as_slice(), steps)
}
