//! Whether a part of a graph has no cycle, as a theory.
#![tactic(auto)]

/// The predicate on cycles.
mod acyclic;
/// Edges that would close a cycle.
mod closing_edges;
/// Sets of nodes.
mod node_set;
/// The surely present edges in an order.
mod ordered_edges;
/// Edges that come to a part with an order together.
mod ordering;
/// Open edges that would break an atom.
mod threatening;

pub use acyclic::{Acyclic, AcyclicTheory};
pub use ordered_edges::{Closing, OrderedEdges};
