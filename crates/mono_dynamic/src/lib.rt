//! Nodes that are reached, and what it costs to reach them, in a part of a graph that gains edges and loses the last of
//! them again: what a search found is kept, and only what an edge changes is searched (Ramalingam and Reps 1996).
#![tactic(auto)]

/// How nodes were reached.
mod arrival;
/// What is at a node.
mod at_node;
/// Rows from several sources.
mod by_source;
/// How labels were lowered.
mod change;
/// From where walks are measured, and how.
mod cost_source;
/// Labels by node.
mod cost_table;
/// What follows from the definitions alone.
pub mod laws;
/// What walks from one source cost at least.
mod least_costs;
/// Trees of walks that are mended.
mod mending;
/// Parts of a graph after a step.
mod part_after;
/// Nodes that are reached from one source.
mod reached_nodes;
/// Which of some nodes are reached while edges go.
mod reached_targets;
/// Labels that are lowered along edges.
mod relaxation;
/// What is kept for one source.
mod row;
/// Trees of walks from one source.
mod search_tree;
/// The rows that are asked for.
mod sources;
/// Which of some nodes are reached from each of several sources.
mod targets_by_source;
/// Searches for trees of walks.
mod tree_search;
/// Nodes that wait.
mod waiting;
/// To where walks are asked for.
mod walk_target;
/// What the words of contracts make of small graphs.
pub mod worked;

pub use arrival::Arrival;
pub use at_node::AtNode;
pub use by_source::BySource;
pub use change::Change;
pub use cost_source::CostSource;
pub use least_costs::LeastCosts;
pub use reached_nodes::ReachedNodes;
pub use reached_targets::ReachedTargets;
pub use row::SourceRow;
pub use search_tree::SearchTree;
pub use sources::Sources;
pub use targets_by_source::TargetsBySource;
pub use tree_search::TreeSearch;
pub use walk_target::WalkTarget;
