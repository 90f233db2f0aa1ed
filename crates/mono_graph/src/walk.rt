//! The test of walks.

ghost use Rattle.std.specs.Prelude.{◌≡◌, ◌<◌, All, length};
ghost use Rattle.mono_graph.specs.Digraph.{IsPartOf};
ghost use Rattle.mono_graph.specs.Walks.{is_walk};

use crate::{Graph, Part};

/// Whether the edges are present and form a walk between the nodes. An edge may occur again.
///
/// Edges are given by their places, from 0. It takes no memory, and costs the list.
pub fn is_walk(graph: &Graph, part: &Part, from: u32, to: u32, edges: &[u32]) -> bool
    requires part { IsPartOf part.now graph.now }
    requires known { All (λ k. k < length graph.now.edges) edges.now }
    ensures { result ≡ is_walk graph.now part.now from to edges.now }
{
    let mut at = from;
    for place in edges {
        if !part.has(*place) {
            return false;
        }
        let edge = graph.edge(*place);
        if edge.from != at {
            return false;
        }
        at = edge.to;
    }
    at == to
}
