//! The test of cycles.

ghost use Rattle.std.specs.Prelude.{◌≡◌, ◌<◌, All, length};
ghost use Rattle.mono_graph.specs.Digraph.{IsPartOf};
ghost use Rattle.mono_graph.specs.Cycles.{is_cycle as is_cycle_of};

use mono_graph::{Graph, Part, is_walk};

/// Whether the edges are present and form a nonempty walk from a node to itself. Where it begins is free, and an edge or a
/// node may come again: where it is so, no order of the nodes has each present edge begin before it ends.
///
/// Edges are given by their places, from 0. It takes no memory, and costs the list.
pub fn is_cycle(graph: &Graph, part: &Part, edges: &[u32]) -> bool
    requires part { IsPartOf part.now graph.now }
    requires known { All (λ k. k < length graph.now.edges) edges.now }
    ensures { result ≡ is_cycle_of graph.now part.now edges.now }
{
    if edges.is_empty() {
        return false;
    }
    let start = graph.edge(edges[0]).from;
    is_walk(graph, part, start, start, edges)
}
