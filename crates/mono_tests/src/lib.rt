//! Tests of the calls of the low crates, and of those of checking.
//!
//! They stand here since a crate with tests is proved twice, once with them: here they are proved alone, over crates that are
//! proved already.
#![tactic(auto)]

/// Tests of calls.
#[cfg(test)]
mod tests;
