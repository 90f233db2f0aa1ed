//! Amounts on edges.

/// What an edge carries, as a flow lists it. An edge that isn't listed carries 0.
#[derive(Debug, Clone, Copy, PartialEq, Eq)]
pub struct Amount {
    /// The edge: its place in the graph's list of edges, from 0, where a function takes a graph and a flow on it. In an
    /// answer and in a witness it is the edge's number over the whole input, from 1.
    pub edge: u32,
    pub amount: u64,
}
