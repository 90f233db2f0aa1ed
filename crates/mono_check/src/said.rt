//! What the lines of an answer so far have said.

ghost use Rattle.std.specs.Prelude.{◌≡◌, ◌+◌, ◌∷◌, [], ℕ, List, Option, Some, IfOk, OnOk, IsTrue, length};
ghost use Rattle.mono_problem.specs.Instance.{Instance};
ghost use Rattle.mono_answer.specs.declared.item.Item.{Item};
ghost use Rattle.mono_answer.specs.declared.item.Item.TheVariants as says;
ghost use Rattle.mono_answer.specs.Versions.{items_by};
ghost use Rattle.mono_check.specs.Judges.{IsBegun, IsSoundSoFar, is_nothing, so_far};
ghost use Rattle.mono_check.specs.SoFar.{behind, behind_items};
ghost use Rattle.mono_check.specs.Verdicts.{IsVerdictOf, ended_outcome, steps_outcome, items_outcome};
ghost use Rattle.mono_check.specs.declared.verdict.Verdict.TheVariants as verdict;

use crate::step_lines::StepLines;
use crate::values::Values;
use crate::{Reason, Verdict};
use mono_answer::{Item, ItemReader, Kind, Version};
use mono_problem::Problem;
use std::alloc::{AllocError, Global};

/// What the lines so far have said that are neither blank nor comments.
#[derive(Drop)]
pub(crate) enum Said {
    /// There was no such line.
    Nothing,
    /// The version line of version 2, by its number.
    OfVersion {
        line: u64,
    },
    /// The status line of a model, by its number, and values.
    OfModel {
        status: u64,
        values: Values,
    },
    /// The version, the status line of steps, which says whether they are to be a refutation, and steps.
    OfSteps {
        version: Version,
        refutes: bool,
        status: u64,
        steps: StepLines,
    },
    /// The first line at fault. No line behind it changes the verdict.
    AtFault {
        line: u64,
        reason: Reason,
    },
}

/// Behind the status line of steps, which says whether they are to be a refutation, in an answer of this version.
fn begin_steps(
    alloc: Global,
    problem: &Problem,
    version: Version,
    number: u64,
    refutes: bool,
) -> Result<Said, AllocError>
    ensures sound { IfOk result (IsSoundSoFar problem.now) }
    ensures behind { IfOk result (λ said. (ls : List (ℕ × Option Item))
        → behind_items problem.now (so_far said) ls
        ≡ steps_outcome problem.now refutes number (items_by version (length problem.now.clauses + 1) ls)) }
    ensures begun { IfOk result IsBegun }
{
    Ok(Said::OfSteps {
        version,
        refutes,
        status: number,
        steps: StepLines::new(alloc, problem)?,
    })
}

/// Behind a status line of this kind, in an answer of this version.
fn begin(
    alloc: Global,
    problem: &Problem,
    version: Version,
    number: u64,
    kind: Kind,
) -> Result<Said, AllocError>
    ensures sound { IfOk result (IsSoundSoFar problem.now) }
    ensures behind { IfOk result (λ said. (n : ℕ) (ls : List (ℕ × Option Item))
        → behind_items problem.now (so_far said) ls
        ≡ items_outcome problem.now n (items_by version (length problem.now.clauses + 1) ((number, Some (says.Status kind)) ∷ ls))) }
    ensures begun { IfOk result IsBegun }
{
    match kind {
        Kind::Model => Ok(Said::OfModel {
            status: number,
            values: Values::new(alloc, problem)?,
        }),
        Kind::Refutation => begin_steps(alloc, problem, version, number, true),
        Kind::Progress => begin_steps(alloc, problem, version, number, false),
    }
}

/// Behind the first line that is neither blank, a comment nor the version line. It is to be a status line.
fn first_line(
    alloc: Global,
    problem: &Problem,
    version: Version,
    number: u64,
    item: Option<Item>,
) -> Result<Said, AllocError>
    ensures sound { IfOk result (IsSoundSoFar problem.now) }
    ensures behind { IfOk result (λ said. (n : ℕ) (ls : List (ℕ × Option Item))
        → behind_items problem.now (so_far said) ls
        ≡ items_outcome problem.now n (items_by version (length problem.now.clauses + 1) ((number, item) ∷ ls))) }
    ensures begun { IfOk result IsBegun }
{
    match item {
        Some(Item::Status(kind)) => begin(alloc, problem, version, number, kind),
        _ => Ok(Said::AtFault {
            line: number,
            reason: Reason::NotAnswer,
        }),
    }
}

impl Said {
    /// Whether a line was at fault.
    pub(crate) fn has_fault(&self) -> bool
        ensures { IsTrue result → (ls : List (ℕ × List ℕ)) (ks : List (ℕ × List ℕ)) (p : Instance)
            → behind p (so_far self.now) ls ≡ behind p (so_far self.now) ks }
    {
        match self {
            Said::AtFault { line: _, reason: _ } => true,
            _ => false,
        }
    }

    /// Whether there was no line but blank ones and comments.
    pub(crate) fn is_nothing(&self) -> bool
        ensures { result ≡ is_nothing self.now }
    {
        match self {
            Said::Nothing => true,
            _ => false,
        }
    }

    /// Judges the next line that is neither blank, a comment nor a version line that comes first. Behind a line at fault nothing
    /// is judged.
    pub(crate) fn add(
        &mut self,
        alloc: Global,
        reader: &mut ItemReader,
        problem: &Problem,
        number: u64,
        item: Option<Item>,
    ) -> Result<(), AllocError>
        requires { IsSoundSoFar problem.now self.old }
        ensures sound { OnOk result (IsSoundSoFar problem.now self.new) }
        ensures behind { OnOk result ((ls : List (ℕ × Option Item))
            → behind_items problem.now (so_far self.new) ls ≡ behind_items problem.now (so_far self.old) ((number, item) ∷ ls)) }
        ensures begun { OnOk result (IsBegun self.new) }
    {
        let fault = match self {
            Said::Nothing => {
                *self = first_line(alloc, problem, Version::One, number, item)?;
                return Ok(());
            }
            Said::OfVersion { line: _ } => {
                *self = first_line(alloc, problem, Version::Two, number, item)?;
                return Ok(());
            }
            Said::OfModel { status: _, values } => values.add(reader, problem, number, item),
            Said::OfSteps {
                version,
                refutes: _,
                status: _,
                steps,
            } => steps.add(reader, problem, *version, number, item)?,
            Said::AtFault { line: _, reason: _ } => return Ok(()),
        };
        if let Some(reason) = fault {
            *self = Said::AtFault {
                line: number,
                reason,
            };
        }
        Ok(())
    }

    /// The verdict where no line follows.
    pub(crate) fn verdict(&self, alloc: Global, problem: &Problem) -> Result<Verdict, AllocError>
        requires { IsSoundSoFar problem.now self.now }
        ensures { IfOk result (IsVerdictOf problem.now (behind problem.now (so_far self.now) [])) }
    {
        match self {
            Said::Nothing => Ok(Verdict::Rejected {
                line: 1,
                reason: Reason::NotAnswer,
            }),
            Said::OfVersion { line } => Ok(Verdict::Rejected {
                line: *line,
                reason: Reason::NotAnswer,
            }),
            Said::OfModel { status, values } => values.verdict(alloc, problem, *status),
            Said::OfSteps {
                version: _,
                refutes,
                status,
                steps,
            } => Ok(steps.verdict(*refutes, *status)),
            Said::AtFault { line, reason } => Ok(Verdict::Rejected {
                line: *line,
                reason: *reason,
            }),
        }
    }

    /// The values that a model's lines give to the variables, in their order; none where they are no model's.
    pub(crate) fn values(&self, alloc: Global, problem: &Problem) -> Result<Vec<bool>, AllocError>
        requires { IsSoundSoFar problem.now self.now }
        ensures { IfOk result (λ values. IsVerdictOf problem.now (behind problem.now (so_far self.now) []) verdict.Model
            → (end : Option ℕ) × (last : ℕ) × (behind problem.now (so_far self.now) [] ≡ ended_outcome problem.now end last values.items)) }
    {
        match self {
            Said::OfModel { status: _, values } => values.model(alloc, problem),
            _ => Ok(Vec::new(alloc)),
        }
    }
}
