//! How nodes were reached.

/// A node that was reached: by the edge at which place, from which earlier arrival, and after how many steps.
///
/// The source is reached by no edge, after 0 steps.
#[derive(Debug, Clone, Copy, PartialEq, Eq)]
pub struct Arrival {
    /// The node, from 0.
    pub node: u32,
    /// The place of the edge that leads to it.
    pub place: u32,
    /// Which arrival the edge leaves, counted from 0 in their order.
    pub before: u32,
    /// The number of steps after which the node is reached.
    pub stamp: u32,
}
