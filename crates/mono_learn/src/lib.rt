//! Clauses learned from conflicts.
//!
//! A chain begins with the false clause and is resolved with the reasons of its literals, from the last one on the trail
//! down, until one literal of the present level is left: the first unique implication point (Een and Sorensson's MiniSat).
//! Of the others each is dropped whose reason's other literals are all in the clause. A literal that a theory forced has a
//! late reason: its lemma is asked for when the analysis reaches it.
//!
//! All literals of the clause that a chain has come to are false, so the clause is a set of places of the trail. Its marks
//! lie in a table that the trail keeps between conflicts, and each conflict takes its own marks away again. So a conflict
//! costs the literals of the clauses that it resolves, and those of its level that it passes.
#![tactic(auto)]

/// The analysis of one conflict.
mod analysis;
/// The reasons of literals, late ones made.
mod ask;
/// Who makes the lemmas of late reasons.
mod explain;
/// What a search keeps.
pub mod laws;
/// What conflicts teach.
mod learn;
/// The level to go back to.
mod levels;
/// What a trail says of its places.
mod places;
/// The last step of an analysis.
mod pushing;
/// Conflicts at level 0.
mod refuting;
/// The clause that a chain has come to.
mod resolvent;
/// Literals that the rest of a clause implies are dropped.
mod minimize;
/// Resolution back along a trail.
mod resolve;
/// Rows that were worked by hand.
pub mod worked;

pub use explain::Explainer;
pub use learn::{Learnt, analyse};
pub use refuting::refute;
