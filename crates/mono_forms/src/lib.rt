//! The program's forms: what the words of a command line ask for, what a run of it comes to, and what is written of that.
//!
//! [`ending_of`] goes from the words to the ending of the run, and [`write_ending`] writes its text. The program is one after
//! the other.
#![tactic(auto)]

/// The forms `best` and `ask` behind their FILE.
pub mod asking;
/// What `best` writes.
mod best_text;
/// What `core` writes.
mod core_text;
/// What a run comes to, and the text that it writes.
pub mod ending;
/// What each form comes to.
mod forms;
/// What holds of the definitions alone.
pub mod laws;
/// Lines that take no memory.
mod line;
/// Answers to problems.
mod solving;
/// How a run ends.
pub mod status;
/// Summaries of generated inputs.
pub mod summary;
/// Answers of workers that search in turn.
mod teaming;
/// The text that a run writes.
pub mod text;
/// The last step of a run.
mod writing;

pub use ending::Ending;
pub use forms::ending_of;
pub use mono_words::Command;
pub use status::Status;
pub use writing::write_ending;
