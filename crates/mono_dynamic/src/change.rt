//! How labels were lowered.

/// A label that was lowered: of which node, by which edge, from what to what, and in which step.
///
/// Which change gave a label is said by a number from 1, in their order; 0 says that none did.
#[derive(Debug, Clone, Copy, PartialEq, Eq)]
pub struct Change {
    /// The node, from 0.
    pub node: u32,
    /// The place of the edge that leads to it.
    pub place: u32,
    /// Which change gave the node that the edge leaves its label. None did at the source.
    pub before: usize,
    /// Which change gave the node its label before.
    pub previous: usize,
    /// Its label before.
    pub old: u64,
    /// Its label now.
    pub label: u64,
    /// The number of the step.
    pub stamp: u32,
}
