//! The weight of spanning trees as a theory (Bayless et al. 2015).
#![tactic(auto)]

/// Predicates on spanning trees.
mod tree;

pub use tree::{Tree, TreeTheory};
