//! A part of a graph with a source and a sink, and how much more its edges can carry.
//!
//! A flow leaves each edge a residual capacity in either direction: as much as the edge has left takes its direction,
//! and as much as it carries can be taken back against it (Ford and Fulkerson, 1956).

ghost use Rattle.std.specs.Prelude.{◌≡◌, ◌<◌, ◌≤◌, length};
ghost use Rattle.mono_graph.specs.Digraph.{IsPartOf, edge_at};
ghost use Rattle.mono_flows.specs.Residual.{amount_of, capacity as capacity_of, residual_at, end_of};

use mono_base::limits::MAX_WEIGHT;
use mono_graph::{Graph, Part};

/// The present edges of a graph, and the nodes from and to which a flow leads.
#[derive(Clone, Copy)]
pub(crate) struct Network<'a> {
    pub graph: &'a Graph,
    pub part: &'a Part,
    pub source: u32,
    pub sink: u32,
    ghost part_of_graph: { IsPartOf part.now graph.now },
    ghost source_in_graph: { source < graph.now.nodes },
    ghost sink_in_graph: { sink < graph.now.nodes },
}

/// An edge taken in its direction, or against it, where it carries less afterwards.
#[derive(Clone, Copy)]
pub(crate) struct ResidualEdge {
    /// The place of the edge.
    pub place: u32,
    /// Whether it is taken against its direction.
    pub back: bool,
}

impl<'a> Network<'a> {
    /// How much the edge can carry in the part: its weight, or nothing where it isn't present.
    pub fn capacity(&self, place: u32) -> u64
        requires { place < length self.now.graph.now.edges }
        ensures capacity { result ≡ capacity_of self.now.graph.now self.now.part.now place }
        ensures small { result ≤ MAX_WEIGHT }
    {
        if self.part.has(place) {
            self.graph.edge(place).weight
        } else {
            0
        }
    }

    /// How much more the edge can carry, or, against its direction, how much less.
    pub fn residual(&self, amounts: &[u64], edge: ResidualEdge) -> u64
        requires amounts { length amounts.now ≡ length self.now.graph.now.edges }
        requires place { edge.place < length self.now.graph.now.edges }
        ensures { result ≡ residual_at self.now.graph.now self.now.part.now (amount_of amounts.now) edge.place edge.back }
    {
        let amount = amounts[edge.place as usize];
        if edge.back {
            return amount;
        }
        self.capacity(edge.place).saturating_sub(amount)
    }

    /// The node to which the edge leads when it is taken so.
    pub fn end(&self, edge: ResidualEdge) -> u32
        requires { edge.place < length self.now.graph.now.edges }
        ensures end { result ≡ end_of (edge_at self.now.graph.now edge.place) edge.back }
        ensures in_graph { result < self.now.graph.now.nodes }
    {
        let ends = self.graph.edge(edge.place);
        if edge.back { ends.from } else { ends.to }
    }
}
