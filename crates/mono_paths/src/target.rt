//! Nodes that are asked for.

/// A node, and the bound within which a walk is to lead there: from -1 to 2^53, and no walk is within -1. The bound
/// doesn't matter where nothing is measured.
#[derive(Debug, Clone, Copy, PartialEq, Eq)]
pub struct Target {
    pub node: u32,
    pub most: i64,
}
