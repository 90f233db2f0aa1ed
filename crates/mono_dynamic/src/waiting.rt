//! Nodes whose leaving edges are still to be looked at.

/// A node that waits, those with the least label first: they leave the most of the cap.
#[derive(Clone, Copy, PartialEq, Eq, PartialOrd, Ord)]
pub struct Waiting {
    /// What its label leaves of the cap.
    pub left: u64,
    /// The node, from 0.
    pub node: u32,
}
