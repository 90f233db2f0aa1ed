//! What a search for a flow finds.

use mono_graph::Amount;

/// A flow, or a set of nodes that shows that no flow has as great a value.
#[derive(Drop)]
pub enum FlowOrCut {
    /// The edges that carry something. No edge is listed twice.
    Flow(Vec<Amount>),
    /// Nodes with the source and without the sink, which present edges leave that weigh less in sum than is asked for.
    Cut(Vec<u32>),
}

/// What a search found, and the value of the flow that it came to: the flow's own, or else what the present edges that
/// leave the cut weigh, since no flow carries more.
#[derive(Drop)]
pub struct Found {
    pub answer: FlowOrCut,
    pub value: u64,
}
