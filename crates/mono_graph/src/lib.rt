//! Directed graphs whose edges are named by variables, their parts, and what walks, flows, spanning trees and cycles are.
#![tactic(auto)]

/// Amounts on edges.
mod amount;
/// Edges.
mod edge;
/// The values of an assignment, and the edges that it enables.
mod enabled;
/// Graphs.
mod graph;
/// Labels of nodes.
mod label;
/// What follows from the definitions of walks, flows, trees and cycles alone.
pub mod laws;
/// Limits of walks.
mod limit;
/// Marks by number.
mod marking;
/// Parts of a graph.
mod part;
/// The test of walks.
mod walk;
/// What the definitions make of small graphs.
pub mod worked;

pub use amount::Amount;
pub use edge::Edge;
pub use enabled::{enabled_edges, value_of};
pub use graph::{EdgeRefusal, Graph};
pub use label::Label;
pub use limit::Limit;
pub use marking::{mark, unmark};
pub use part::Part;
pub use walk::is_walk;
