//! Unit propagation with two watched literals a clause (Moskewicz et al. 2001; Een and Sorensson's MiniSat).
//!
//! A clause of two different literals that are true or open watches two such. Only when one of them becomes false does the
//! clause have to be looked at, and going back needs no work at all: `Follows` says why.
#![tactic(auto)]

/// Chunks of watch lists.
mod chunks;
/// Clauses in one flat list of literals.
mod clauses;
/// Clauses that are due to be looked at.
mod due;
/// What a propagation found.
mod found;
/// How a store goes on following a trail that changes.
pub mod laws;
/// Literals of a clause that aren't false.
mod scan;
/// The store.
mod store;
/// Clauses one of whose watched literals became false.
mod propagate;
/// Watch lists.
mod watches;

pub use found::Found;
pub use store::ClauseStore;
