//! Reachability as a theory (Bayless et al. 2015).
#![tactic(auto)]

/// The nodes between which walks are to lead.
mod ends;
/// What holds of marks by their definitions, and from call to call.
pub mod laws;
/// What is known of a node.
mod marks;
/// The cut nearest to a walk's last node.
mod nearest;
/// Predicates of reachability.
mod reach;
/// What is reached along the surely present edges.
mod reached_rows;
/// Rows of what is known of nodes, worked by hand.
pub mod worked;

pub use marks::{HasMarks, Marks};
pub use reach::{Reach, ReachTheory};
pub use reached_rows::{MOST_REACHED, ReachedRows};
