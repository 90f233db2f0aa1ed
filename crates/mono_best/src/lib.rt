//! The best bound that a predicate can have over all values that satisfy a problem: a model that reaches it, and a
//! refutation of the next.
//!
//! A problem that asks for a bound has the predicate once more, with that bound and a new variable that has to be true. The
//! weakest bound is asked for first. From each model the predicate's own value is measured by one search in its graph. Short
//! searches then leap over bounds that are met or refuted with ease, and the bound behind the last model is asked for, until
//! there is no model: that refutation is the one that is shown.
#![tactic(auto)]

/// Problems that ask for a bound.
mod asking;
/// Bounds by their numbers.
mod bounds;
/// What a leap has found, and between which bounds it goes on.
mod gap;
/// The best bound.
mod improving;
/// Leaps over bounds that are met, or refuted, with ease.
mod leaping;
/// What holds of best bounds by their definition.
pub mod laws;
/// The bound that all edges together give.
mod limiting;
/// The value that a predicate has in a model.
mod measuring;
/// What is found of a predicate's bound.
mod outcome;
/// Questions for one bound.
mod questions;
/// Worked rows of the definitions.
pub mod worked;

pub use asking::{ask, has_bounded_atom, has_room_to_ask, is_bound_of};
pub use improving::best;
pub use outcome::BestOutcome;
