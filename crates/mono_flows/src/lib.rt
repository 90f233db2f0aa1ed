//! Flows in the parts of a graph, and the cuts that bound their values.
#![tactic(auto)]

/// Carries more along paths that rise level by level.
mod blocking_flow;
/// Tests of flows and of cuts.
mod checker;
/// What leaves a set of nodes.
mod cut;
/// Room by edge.
mod edge_room;
/// The search for a flow.
mod finder;
/// A flow that grows.
mod flow;
/// What a search finds.
mod found;
/// A flow that begins with given amounts.
mod kept_flow;
/// Levels of the nodes.
mod level_graph;
/// What follows from the definitions of flows for lists of amounts.
pub mod laws;
/// Edges that a list of amounts names.
mod listed_edges;
/// Lists of marked nodes and of what edges carry.
mod listing;
/// A flow without the edges that are lost.
mod mend;
/// A part with a source and a sink.
mod network;
/// What leaves and enters each node.
mod node_sums;
/// The breadth-first search.
mod search;
/// Visits of a search.
mod visit;
/// What the words of contracts make of small graphs.
pub mod worked;

pub use checker::{FlowChecker, is_flow, is_flow_cut};
pub use finder::{FlowFinder, find_flow};
pub use found::{FlowOrCut, Found};
pub use mono_graph::Amount;
