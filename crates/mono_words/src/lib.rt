//! The words of a command line: which command they are.
#![tactic(auto)]

/// Commands.
pub mod command;
/// The words of a command line.
pub mod words;

pub use command::Command;
