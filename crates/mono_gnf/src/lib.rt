//! The reader and the printer of inputs: clauses, graphs whose edges are Boolean variables, and predicates over them.
//!
//! An input is a list of lines. Each is blank, a comment, a line of numbers or a line that begins with a word of the
//! format. The first line at fault is named with its fault; a text without a fault stands for one problem.
//! Each problem has one printed form, which stands for it.
#![tactic(auto)]

/// What may be wrong with a line.
mod fault;
/// The text of a problem.
mod print;
/// One pass over the lines of an input.
mod read;
/// What the lines so far say.
mod reader;
/// Why an input is not read.
mod refusal;
/// What a word line says.
mod statement;

/// Laws of what a text stands for, and of its printed form.
pub mod laws;
/// Worked cases of printed forms.
pub mod print_worked;
/// Worked cases of faults and problems.
pub mod worked;

pub use fault::GnfFault;
pub use print::{print_gnf, push_clause};
pub use read::read_gnf;
pub use refusal::GnfRefusal;
