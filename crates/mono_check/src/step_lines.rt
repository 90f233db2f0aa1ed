//! The lines of a refutation and of progress.
//!
//! The clauses of the steps are kept, since later chains name them by number, and one checker serves all steps. Of a
//! line nothing else stays once it is judged.

ghost use Rattle.std.specs.Prelude.{◌≡◌, ◌≤◌, ℕ, Some, IfOk, IfNone, OnOk, length};
ghost use Rattle.mono_answer.specs.declared.item.Item.TheVariants as says;
ghost use Rattle.mono_check.specs.StepLines.{reason_of, step_line_fault};
ghost use Rattle.mono_check.specs.Seen.{AreStepsKept, AreStepsAfter, steps_kept};
ghost use Rattle.mono_answer.specs.Versions.{item_by, step_by};
ghost use Rattle.mono_check.specs.SoFar.{next_number, no_steps, steps_more, steps_so_far};

use crate::turning::named;
use crate::{Reason, Verdict};
use mono_answer::{Item, ItemReader, Version};
use mono_problem::Problem;
use mono_steps::{Chain, Clause, Lemma, Step, StepChecker, StepFault};
use std::alloc::{AllocError, Global};

/// What the lines of steps have said so far.
pub(crate) struct StepLines {
    checker: StepChecker,
    /// The clauses of the steps.
    earlier: Vec<Clause>,
    /// How many of the steps are chains.
    chains: u64,
    /// The last line.
    last: Option<u64>,
    /// Whether the last step is a chain with the empty clause.
    ends_empty: bool,
}

impl Drop for StepLines {
    fn drop(self) {
        let StepLines {
            checker: _,
            earlier: _,
            chains: _,
            last: _,
            ends_empty: _,
        } = self;
    }
}

fn reason(fault: StepFault) -> Reason
    ensures { result ≡ reason_of fault }
{
    match fault {
        StepFault::UnknownAtom => Reason::UnknownAtom,
        StepFault::WrongKind => Reason::WrongKind,
        StepFault::UnknownNumber => Reason::UnknownNumber,
        StepFault::WitnessFails => Reason::WitnessFails,
        StepFault::MissingLiteral => Reason::MissingLiteral,
        StepFault::ChainStuck => Reason::ChainStuck,
        StepFault::NotCovered => Reason::NotCovered,
    }
}

impl StepLines {
    pub(crate) fn new(alloc: Global, problem: &Problem) -> Result<StepLines, AllocError>
        ensures kept { IfOk result (AreStepsKept problem.now) }
        ensures none { IfOk result (λ steps. (n : ℕ) → steps_kept n steps ≡ no_steps n) }
    {
        Ok(StepLines {
            checker: StepChecker::new(alloc, problem)?,
            earlier: Vec::new(alloc),
            chains: 0,
            last: None,
            ends_empty: false,
        })
    }

    /// Keeps the clause of a step. The reader gets its room back.
    fn keep(&mut self, reader: &mut ItemReader, number: u64, step: Step) -> Result<(), AllocError>
        requires { self.old.chains ≤ length self.old.earlier.items }
        ensures { OnOk result (AreStepsAfter self.old number step self.new) }
    {
        self.last = Some(number);
        match step {
            Step::Lemma(lemma) => {
                let Lemma {
                    atom: _,
                    clause,
                    witness,
                } = lemma;
                reader.reuse_witness(witness);
                self.ends_empty = false;
                self.earlier.push(clause)?;
                Ok(())
            }
            Step::Chain(chain) => {
                let Chain { clause, used } = chain;
                reader.reuse_used(used);
                self.ends_empty = clause.lits().is_empty();
                self.earlier.push(clause)?;
                self.chains += 1;
                Ok(())
            }
        }
    }

    fn add_step(
        &mut self,
        reader: &mut ItemReader,
        problem: &Problem,
        number: u64,
        step: Step,
    ) -> Result<Option<Reason>, AllocError>
        requires { AreStepsKept problem.now self.old }
        ensures fault { IfOk result (λ reason. reason ≡ step_line_fault problem.now self.old.earlier.items (Some (says.Step step))) }
        ensures kept { IfOk result (λ reason. IfNone reason (AreStepsKept problem.now self.new)) }
        ensures more { IfOk result (λ reason. IfNone reason ((n : ℕ)
            → steps_kept n self.new ≡ steps_more number (Some (says.Step step)) (steps_kept n self.old))) }
    {
        if let Some(fault) = self.checker.fault(problem, self.earlier.as_slice(), &step)? {
            return Ok(Some(reason(fault)));
        }
        self.keep(reader, number, step)?;
        Ok(None)
    }

    /// The number of the next step.
    fn next_number(&self, problem: &Problem) -> u64
        ensures { result ≡ next_number problem.now self.now.earlier.items }
    {
        u64::from(problem.clause_count()) + self.earlier.len() as u64 + 1
    }

    /// Judges a step, whose chain's numbers are those that are written in an answer of this version.
    fn add_written(
        &mut self,
        reader: &mut ItemReader,
        problem: &Problem,
        version: Version,
        number: u64,
        step: Step,
    ) -> Result<Option<Reason>, AllocError>
        requires { AreStepsKept problem.now self.old }
        ensures fault { IfOk result (λ reason. reason
            ≡ step_line_fault problem.now self.old.earlier.items
            (Some (says.Step (step_by version (next_number problem.now self.old.earlier.items) step)))) }
        ensures kept { IfOk result (λ reason. IfNone reason (AreStepsKept problem.now self.new)) }
        ensures more { IfOk result (λ reason. IfNone reason ((n : ℕ)
            → steps_kept n self.new ≡ steps_more number (Some (says.Step (step_by version (next_number problem.now self.old.earlier.items) step)))
            (steps_kept n self.old))) }
    {
        let own = self.next_number(problem);
        let step = named(version, own, step);
        self.add_step(reader, problem, number, step)
    }

    /// Judges a line, and adds what it says where it isn't at fault. A chain's numbers are those that are written in an answer of
    /// this version.
    pub(crate) fn add(
        &mut self,
        reader: &mut ItemReader,
        problem: &Problem,
        version: Version,
        number: u64,
        item: Option<Item>,
    ) -> Result<Option<Reason>, AllocError>
        requires { AreStepsKept problem.now self.old }
        ensures fault { IfOk result (λ reason. reason
            ≡ step_line_fault problem.now self.old.earlier.items (item_by version (next_number problem.now self.old.earlier.items) item)) }
        ensures kept { IfOk result (λ reason. IfNone reason (AreStepsKept problem.now self.new)) }
        ensures more { IfOk result (λ reason. IfNone reason ((n : ℕ)
            → steps_kept n self.new ≡ steps_more number (item_by version (next_number problem.now self.old.earlier.items) item)
            (steps_kept n self.old))) }
    {
        match item {
            Some(Item::Step(step)) => self.add_written(reader, problem, version, number, step),
            _ => Ok(Some(Reason::BadLine)),
        }
    }

    /// The verdict behind the last line, where no line is at fault. `status` is the status line.
    pub(crate) fn verdict(&self, refutes: bool, status: u64) -> Verdict
        ensures { result ≡ steps_so_far refutes (steps_kept status self.now) }
    {
        if !refutes {
            return Verdict::Progress(self.chains);
        }
        if self.ends_empty {
            Verdict::Refutation
        } else {
            Verdict::Rejected {
                line: self.last.unwrap_or(status),
                reason: Reason::NoEmptyClause,
            }
        }
    }
}
