//! To where walks are asked for.

use mono_graph::Limit;

/// A node to which a walk is asked for, and what the walk may cost.
#[derive(Debug, Clone, Copy, PartialEq, Eq)]
pub struct WalkTarget {
    /// The node, from 0.
    pub node: u32,
    /// What is measured, and the bound.
    pub limit: Limit,
}
