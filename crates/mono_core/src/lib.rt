//! Sets of assumptions under which a problem has no model, made as small as the budget allows.
#![tactic(auto)]

/// Problems with more clauses of one literal.
mod assuming;
/// Assumptions deleted one by one.
mod deleting;
/// What holds of cores by their definition.
pub mod laws;
/// The needs of the assumptions that are kept.
mod needing;
/// What is found of a problem under assumptions.
mod outcome;
/// The items whose flag is set.
mod picking;
/// Which assumptions a refutation rests on.
mod dropping;
/// One search under assumptions.
mod searching;
/// Refutations under fewer assumptions.
mod shrinking;

/// Worked rows of the definitions.
pub mod worked;

pub use assuming::{has_room, with_lits};
pub use deleting::core;
pub use outcome::{CoreOutcome, Need};
