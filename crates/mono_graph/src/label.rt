//! Labels of nodes.

/// The label of a node, as labels that bound what walks cost list it: no walk of present edges from the start to the
/// node costs less. A node that isn't listed has a label one above the bound.
#[derive(Debug, Clone, Copy, PartialEq, Eq)]
pub struct Label {
    /// The node, from 0.
    pub node: u32,
    pub value: u64,
}
