//! Tests walks.

ghost use Rattle.std.specs.Prelude.{◌≡◌, ◌<◌, All, length};
ghost use Rattle.mono_graph.specs.Walks.{is_path as is_path_of};
ghost use Rattle.mono_graph.specs.Digraph.{IsPartOf};

use mono_graph::{Graph, Limit, Part, is_walk};

/// Whether the edges are present and form a walk between the nodes within the limit. An edge may occur again.
pub fn is_path(graph: &Graph, part: &Part, from: u32, to: u32, limit: Limit, edges: &[u32]) -> bool
    requires part { IsPartOf part.now graph.now }
    requires known { All (λ k. k < length graph.now.edges) edges.now }
    ensures { result ≡ is_path_of graph.now part.now from to limit edges.now }
{
    is_walk(graph, part, from, to, edges)
        && match limit {
            Limit::Free => true,
            Limit::Steps(_) => limit.admits(edges.len() as u128),
            Limit::Weight(_) => limit.admits(graph.weight_of(edges)),
        }
}
