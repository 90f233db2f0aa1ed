//! The checker: whether an answer is a model, a refutation or progress of a problem, and if not, which line is at fault
//! and why.
//!
//! It reads the lines one after the other and keeps what later lines are judged by: the clauses of the steps, or the
//! literals of the model. `specs/` say what the verdict is; [`judge::verdict`] gives exactly that for a text in memory,
//! [`Checker`] for one that comes in pieces, cut anywhere, and [`verdict_from`] for one on a shelf.
#![tactic(auto)]

/// Predicates whose variables have the wrong value.
mod atoms;
/// Answers that are judged while they are read.
mod checker;
/// The part of a graph that an assignment enables.
mod enabled;
/// Answers that are read from a shelf and judged on the way.
mod from_shelf;
/// The verdict on an answer, line by line.
pub mod judge;
/// The steps that the text of an answer holds.
mod held;
/// What verdicts show.
pub mod laws;
/// Accepted answers, printed in a version of the format.
mod migration;
/// What migrating an answer gives.
mod migrated;
/// The parts of a problem's graphs that an assignment enables.
mod parts;
/// Whether a predicate holds in a part.
mod predicates;
/// Predicates on walks, as they are asked of a search.
mod question;
/// Why an answer is rejected.
mod reason;
/// Why an answer on a shelf got no verdict.
mod refusal;
/// What the lines of an answer so far have said.
mod said;
/// The lines of a refutation and of progress.
mod step_lines;
/// Chains whose numbers count backwards.
mod turning;
/// The lines of a model.
mod values;
/// What the checker says of an answer.
mod verdict;
/// Rows that were worked by hand, as the definitions compute them.
pub mod worked;

pub use atoms::first_wrong_atom;
pub use checker::{Checker, MOST_FED};
pub use from_shelf::verdict_from;
pub use migrated::Migrated;
pub use migration::migrate;
pub use reason::Reason;
pub use refusal::CheckRefusal;
pub use verdict::Verdict;
