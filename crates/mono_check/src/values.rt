//! The lines of a model.
//!
//! The literals so far are the members of one set. So each literal is judged in constant time, and the model is read off
//! the set at the end.

ghost use Rattle.std.specs.Prelude.{◌≡◌, ◌<◌, ◌≤◌, ◌++◌, ◌&&◌, ◌||◌, ℤ, ℕ, List, Option, pos, map, not, length, is_some, unwrap_or, IsTrue, IfOk, IfNone};
ghost use Rattle.std.specs.List.{range_with_len};
ghost use Rattle.std.specs.Ordering.{int_eq};
ghost use Rattle.mono_base.specs.Literal.{has_lit};
ghost use Rattle.mono_answer.specs.declared.item.Item.{Item};
ghost use Rattle.mono_answer.specs.declared.item.Item.TheVariants as says;
ghost use Rattle.mono_check.specs.Values.{are_values, literals_among, has_end, goes_on, is_end, passes_end, value_fault, model_of};
ghost use Rattle.mono_check.specs.Seen.{AreMembers, AreValuesKept, AreValuesAfter, fits, is_new, model_kept};
ghost use Rattle.mono_check.specs.SoFar.{model_behind, model_more, no_values};
ghost use Rattle.mono_check.specs.Verdicts.{IsVerdictOf, ended_outcome};

use crate::atoms::first_wrong_atom;
use crate::{Reason, Verdict};
use mono_answer::{Item, ItemReader};
use mono_base::limits::MAX_VARS;
use mono_base::{Lit, LitSet};
use mono_problem::Problem;
use std::alloc::{AllocError, Global};

/// What the lines of a model have said so far.
pub(crate) struct Values {
    /// The literals.
    set: LitSet,
    /// The line of the ending 0.
    end: Option<u64>,
    /// The last line.
    last: Option<u64>,
}

impl Drop for Values {
    fn drop(self) {
        let Values {
            set: _,
            end: _,
            last: _,
        } = self;
    }
}

/// Whether the line has an ending 0.
fn has_end(numbers: &[i32]) -> bool
    ensures { result ≡ has_end numbers.now }
{
    numbers.iter().any(|number| *number == 0)
}

/// Whether a number stands behind a 0.
fn goes_on(numbers: &[i32]) -> bool
    ensures { result ≡ goes_on numbers.now }
{
    if numbers.is_empty() {
        return false;
    }
    has_end(&numbers[..numbers.len() - 1])
}

/// Whether a number stands behind the ending 0, which was in an earlier line or is in this one.
fn passes_end(ended: bool, numbers: &[i32]) -> bool
    ensures { result ≡ passes_end ended numbers.now }
{
    if ended && !numbers.is_empty() {
        return true;
    }
    goes_on(numbers)
}

/// Whether a literal is over a variable of the problem that has no literal in the set.
fn is_value(set: &LitSet, problem: &Problem, lit: Lit) -> bool
    requires { set.now.vars ≡ problem.now.vars }
    ensures { result ≡ is_new problem.now set.now.members lit }
{
    lit.var() <= problem.vars() && !set.has(lit) && !set.has(lit.negated())
}

/// Puts a literal into the set, where it is over a variable of the problem that has no literal there. A 0 is none.
fn add_number(set: &mut LitSet, problem: &Problem, number: i32) -> bool
    requires { set.old.vars ≡ problem.now.vars }
    ensures vars { set.new.vars ≡ set.old.vars }
    ensures fits { result ≡ fits problem.now set.old.members number }
    ensures has { IsTrue result → (m : ℤ) → has_lit set.new.members m ≡ (has_lit set.old.members m || (not (is_end number) && int_eq m number)) }
{
    if number == 0 {
        return true;
    }
    problem.known();
    let Some(lit) = Lit::new(number) else {
        return false;
    };
    if !is_value(set, problem, lit) {
        return false;
    }
    set.insert(lit);
    true
}

/// Puts the literals among the numbers into the set, as long as each is over a variable of the problem that has no literal
/// there.
fn add_literals(set: &mut LitSet, problem: &Problem, numbers: &[i32]) -> bool
    requires { set.old.vars ≡ problem.now.vars }
    ensures vars { set.new.vars ≡ set.old.vars }
    ensures values { (lits : List ℤ) → AreMembers problem.now lits set.old → result ≡ are_values problem.now (lits ++ literals_among numbers.now) }
    ensures members { (lits : List ℤ) → AreMembers problem.now lits set.old → IsTrue result
        → AreMembers problem.now (lits ++ literals_among numbers.now) set.new }
{
    for number in numbers {
        if !add_number(set, problem, *number) {
            return false;
        }
    }
    true
}

/// Whether the positive literal of a variable is in the set.
fn is_true(set: &LitSet, var: u32) -> bool
    requires low { 0 < var }
    requires high { var ≤ set.now.vars }
    requires limit { var ≤ MAX_VARS }
    ensures { result ≡ has_lit set.now.members (pos var) }
{
    set.has(Lit::of(var, true))
}

/// The values of the variables, variable 1 first.
fn model(alloc: Global, problem: &Problem, set: &LitSet) -> Result<Vec<bool>, AllocError>
    requires { set.now.vars ≡ problem.now.vars }
    ensures values { IfOk result (λ values. values.items ≡ model_of problem.now set.now.members) }
    ensures len { IfOk result (λ values. length values.items ≡ problem.now.vars) }
{
    let mut values = Vec::new(alloc);
    for place in 0..problem.vars() {
        values.push(is_true(set, place + 1))?;
    }
    Ok(values)
}

impl Values {
    pub(crate) fn new(alloc: Global, problem: &Problem) -> Result<Values, AllocError>
        ensures kept { IfOk result (AreValuesKept problem.now) }
        ensures none { IfOk result (λ values. (n : ℕ) → model_kept n values ≡ no_values n) }
    {
        Ok(Values {
            set: LitSet::new(alloc, problem.vars())?,
            end: None,
            last: None,
        })
    }

    fn add_values(&mut self, problem: &Problem, number: u64, values: &[i32]) -> Option<Reason>
        requires { self.old.set.vars ≡ problem.now.vars }
        ensures fault { (lits : List ℤ) → AreMembers problem.now lits self.old.set
            → result ≡ value_fault problem.now lits (is_some self.old.end) (Some (says.Values values.now)) }
        ensures after { (lits : List ℤ) → AreMembers problem.now lits self.old.set
            → IfNone result (AreValuesAfter problem.now lits self.old number (Some (says.Values values.now)) self.new) }
    {
        if passes_end(self.end.is_some(), values) {
            return Some(Reason::BadLine);
        }
        if !add_literals(&mut self.set, problem, values) {
            return Some(Reason::ModelVariables);
        }
        if has_end(values) {
            if self.set.members().len() < problem.vars() as usize {
                return Some(Reason::ModelVariables);
            }
            self.end = Some(number);
        }
        self.last = Some(number);
        None
    }

    /// Judges a line, and adds what it says where it isn't at fault. The reader gets its room back.
    pub(crate) fn add(
        &mut self,
        reader: &mut ItemReader,
        problem: &Problem,
        number: u64,
        item: Option<Item>,
    ) -> Option<Reason>
        requires { AreValuesKept problem.now self.old }
        ensures fault { result ≡ value_fault problem.now self.old.set.members (is_some self.old.end) item }
        ensures kept { IfNone result (AreValuesKept problem.now self.new) }
        ensures behind { IfNone result ((n : ℕ) (ls : List (ℕ × Option Item))
            → model_behind problem.now (model_kept n self.new) ls ≡ model_behind problem.now (model_more number item (model_kept n self.old)) ls) }
    {
        match item {
            Some(Item::Values(values)) => {
                let reason = self.add_values(problem, number, values.as_slice());
                let _ = self.set.members();
                reader.reuse_values(values);
                reason
            }
            _ => Some(Reason::BadLine),
        }
    }

    /// The values of the variables, variable 1 first: those that are literals are true.
    pub(crate) fn model(&self, alloc: Global, problem: &Problem) -> Result<Vec<bool>, AllocError>
        requires { self.now.set.vars ≡ problem.now.vars }
        ensures { IfOk result (λ values. values.items ≡ model_of problem.now self.now.set.members) }
    {
        model(alloc, problem, &self.set)
    }

    /// The verdict behind the last line, where no line is at fault. `status` is the status line.
    pub(crate) fn verdict(
        &self,
        alloc: Global,
        problem: &Problem,
        status: u64,
    ) -> Result<Verdict, AllocError>
        requires { self.now.set.vars ≡ problem.now.vars }
        ensures { IfOk result (IsVerdictOf problem.now
            (ended_outcome problem.now self.now.end (unwrap_or self.now.last status) (model_of problem.now self.now.set.members))) }
    {
        let Some(line) = self.end else {
            return Ok(Verdict::Rejected {
                line: self.last.unwrap_or(status),
                reason: Reason::BadLine,
            });
        };
        let model = model(alloc, problem, &self.set)?;
        let model = model.as_slice();
        if let Some(clause) = problem.first_false_clause(model) {
            return Ok(Verdict::Rejected {
                line,
                reason: Reason::ClauseFalse(clause),
            });
        }
        match first_wrong_atom(alloc, problem, model)? {
            Some(atom) => Ok(Verdict::Rejected {
                line,
                reason: Reason::AtomWrong(atom),
            }),
            None => Ok(Verdict::Model),
        }
    }
}
