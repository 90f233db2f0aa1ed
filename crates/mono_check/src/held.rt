//! The steps that the text of an answer holds.
//!
//! It is read once more after it was judged, so that judging keeps no more than it needs. Nothing is judged here.

ghost use Rattle.std.specs.Prelude.{◌≡◌, if◌then◌else◌, IfOk, length};
ghost use Rattle.mono_text.specs.Text.{tokens_of};
ghost use Rattle.mono_answer.specs.Items.{items_of, spoken_of};
ghost use Rattle.mono_answer.specs.Readings.{IsReading};
ghost use Rattle.mono_answer.specs.Versions.{is_version_two};
ghost use Rattle.mono_check.specs.Migrations.{version_in, steps_held};
ghost use Rattle.mono_check.specs.StepLines.{steps_in};
ghost use Rattle.mono_check.specs.Held.{step_said};

use crate::turning::named;
use mono_answer::{Item, ItemReader, ItemRefusal, Version, is_version_line};
use mono_base::Row;
use mono_problem::Problem;
use mono_steps::Step;
use mono_text::{Line, Lines};
use std::alloc::{AllocError, Global};

fn version_by(line: &Line<'_>) -> Version
    ensures { result ≡ (if is_version_two (tokens_of line.now.text.now) then Version.Two else Version.One) }
{
    if is_version_line(line) {
        Version::Two
    } else {
        Version::One
    }
}

/// The version of a text: that of its first line that is neither blank nor a comment.
fn version_of(text: &[u8]) -> Version
    ensures { result ≡ version_in (spoken_of text.now) }
{
    let mut lines = Lines::new(text);
    'lines: while let Some(line) = lines.next() {
        if !line.is_skipped() {
            return version_by(&line);
        }
    }
    Version::One
}

/// The step that a line says, as it is written, or `None` where it says something else.
fn step_in(reader: &mut ItemReader, line: &Line<'_>) -> Result<Option<Step>, AllocError>
    ensures { IfOk result (λ step. step ≡ step_said (tokens_of line.now.text.now)) }
{
    match reader.read(line) {
        Ok(Some(Item::Step(step))) => Ok(Some(step)),
        Err(ItemRefusal::Memory) => Err(AllocError),
        _ => Ok(None),
    }
}

/// The steps of an answer to the problem, their chains naming clauses by their numbers.
pub(crate) fn held_steps(
    alloc: Global,
    problem: &Problem,
    text: &[u8],
) -> Result<Row<Step>, AllocError>
    ensures { IfOk result (λ steps. steps ≡ steps_in (items_of (length problem.now.clauses) text.now)) }
{
    let version = version_of(text);
    let clauses = u64::from(problem.clause_count());
    let mut reader = ItemReader::new(alloc);
    let mut steps = Vec::new(alloc);
    let mut lines = Lines::new(text);
    'lines: while let Some(line) = lines.next() {
        if let Some(step) = step_in(&mut reader, &line)? {
            let number = clauses + steps.len() as u64 + 1;
            steps.push(named(version, number, step))?;
        }
    }
    Ok(Row::from_vec(steps))
}
