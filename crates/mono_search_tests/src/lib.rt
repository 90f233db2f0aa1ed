//! Tests of the calls of theories, of searches and of teams.
//!
//! They stand here since a crate with tests is proved twice, once with them: here they are proved alone, over crates that are
//! proved already, and beside the program's own.
#![tactic(auto)]

/// Tests of calls.
#[cfg(test)]
mod tests;
