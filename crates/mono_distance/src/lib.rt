//! Distances by steps and by weight as a theory (Bayless et al. 2015).
#![tactic(auto)]

/// Predicates on walks within a limit.
mod distance;
/// Labels by node.
mod label_table;
/// Labels along the surely present edges.
mod least_rows;
/// What follows from definitions, and from calls.
pub mod laws;
/// Labels counted from a walk's last node.
mod nearest;
/// What a theory knows of a node.
mod node_labels;
/// Rows of what is told of labels, worked by hand.
pub mod worked;

pub use distance::{Distance, DistanceTheory};
pub use least_rows::{LeastRows, MAX_LABELS};
pub use node_labels::{HasLabels, Labels};
