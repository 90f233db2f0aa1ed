//! Edges.

/// A directed edge of a graph.
///
/// `number` names the edge over the whole input, from 1. `from` and `to` are nodes, from 0. The edge is present
/// where the variable `var`, from 1, is true. `weight` is what a walk, a flow or a tree counts for it.
#[derive(Debug, Clone, Copy, PartialEq, Eq)]
pub struct Edge {
    pub number: u32,
    pub from: u32,
    pub to: u32,
    pub var: u32,
    pub weight: u64,
}
