//! Accepted answers, printed in a version of the format.

ghost use Rattle.std.specs.Prelude.{IfOk};
ghost use Rattle.mono_check.specs.Migrations.{IsMigrated};

use crate::held::held_steps;
use crate::judge::verdict_with_values;
use crate::{Migrated, Verdict};
use mono_answer::{Answer, Version, print_answer_as};
use mono_base::Row;
use mono_problem::Problem;
use std::alloc::{AllocError, Global};

/// The printed text, in the version, of the answer that the bytes stand for: `Rejected` exactly where the verdict on them is,
/// with its line and reason.
///
/// Literals and lists keep the order and the repeats in which they were read; a model has its literals in the order of the
/// variables. Memory is taken in proportion to the answer.
pub fn migrate(
    alloc: Global,
    problem: &Problem,
    answer: &[u8],
    version: Version,
) -> Result<Migrated, AllocError>
    ensures { IfOk result (IsMigrated problem.now answer.now version) }
{
    let (verdict, values) = verdict_with_values(alloc, problem, answer)?;
    let held = match verdict {
        Verdict::Rejected { line, reason } => return Ok(Migrated::Rejected { line, reason }),
        Verdict::Model => Answer::Model(Row::from_vec(values)),
        Verdict::Refutation => Answer::Refutation(held_steps(alloc, problem, answer)?),
        Verdict::Progress(_) => Answer::Progress(held_steps(alloc, problem, answer)?),
    };
    let text = print_answer_as(alloc, &held, version, problem.clause_count())?;
    Ok(Migrated::Text(Row::from_vec(text)))
}
