//! Maximum flow as a theory (Bayless et al. 2015).
#![tactic(auto)]

/// Tables by node.
mod by_node;
/// Predicates on flows.
mod flow;
/// What a theory keeps of an edge.
mod flows;
/// Cuts that grow by the edges that came.
mod growing;
/// Flows of earlier searches.
mod kept_flows;
/// What follows for kept flows.
pub mod laws;
/// Flows that pass each node once.
mod node_paths;
/// Rows of what is told of flows, worked by hand.
pub mod worked;

pub use flow::{Flow, FlowTheory};
pub use flows::{Flows, HasFlows};
