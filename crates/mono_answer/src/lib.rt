//! The lines of answers, read and printed: models, refutations and progress.
//!
//! The first line that isn't blank or a comment is a status line; in version 2 the line `version 2` comes before it, and
//! chains count backwards from their own steps. Behind the status line stand the values of a model (DIMACS and the
//! SAT competition's `v` lines), or steps, one a line: lemmas with their witnesses, and chains.
#![tactic(auto)]

/// Answers.
mod answer;
/// What a line of an answer says.
mod item;
/// Kinds of answers.
mod kind;
/// What is printed is read back.
pub mod laws;
/// Lists of numbers in a line.
mod lists;
/// The printer of answers.
mod print;
/// Lines of an answer, read one by one.
mod reader;
/// The printer of answers in a version.
mod turned;
/// Versions of the answer format.
mod version;
/// The words of lemmas.
mod word;
/// Rows that were worked by hand, as the definitions compute them.
pub mod worked;

pub use answer::Answer;
pub use item::{Item, ItemRefusal};
pub use kind::Kind;
pub use print::{
    print_answer, push_claim, push_literals, push_lits, push_model, push_status, push_step,
};
pub use reader::{ItemReader, read_item};
pub use turned::print_answer_as;
pub use version::{Version, is_version_line};
