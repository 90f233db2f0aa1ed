//! What makes a list of edges a light spanning tree.
//!
//! Edges that join n nodes are at least n - 1. So n - 1 places whose edges join all nodes are different, and the test
//! of a spanning tree looks for no place that is listed twice.

ghost use Rattle.std.specs.Prelude.{◌≡◌, ◌<◌, pos, int_le, All, IfOk, OnOk, length};
ghost use Rattle.std.specs.List.{list_all};
ghost use Rattle.mono_graph.specs.Digraph.{present, weight_of};
ghost use Rattle.mono_graph.specs.Trees.{edges_at, is_spanning_tree};
ghost use Rattle.mono_trees.specs.Tells.{Tells};

use crate::components::Components;
use mono_graph::{Graph, Part};
use std::alloc::AllocError;

/// Makes the components those that the edges form.
fn join_all(components: &mut Components, graph: &Graph, edges: &[u32]) -> Result<(), AllocError>
    requires nodes { length components.old ≡ graph.now.nodes }
    requires places { All (λ k. k < length graph.now.edges) edges.now }
    ensures nodes { length components.new ≡ graph.now.nodes }
    ensures tells { OnOk result (Tells (edges_at graph.now edges.now) components.new) }
{
    components.reset();
    for place in edges {
        let edge = graph.edge(*place);
        components.join(edge.from, edge.to)?;
    }
    Ok(())
}

/// Whether the edges form a spanning tree.
pub fn is_spanning(
    components: &mut Components,
    graph: &Graph,
    edges: &[u32],
) -> Result<bool, AllocError>
    requires nodes { length components.old ≡ graph.now.nodes }
    requires places { All (λ k. k < length graph.now.edges) edges.now }
    ensures nodes { length components.new ≡ graph.now.nodes }
    ensures spans { IfOk result (λ spans. spans ≡ is_spanning_tree graph.now edges.now) }
{
    if edges.len() + 1 != graph.nodes() as usize {
        return Ok(false);
    }
    join_all(components, graph, edges)?;
    Ok(components.are_all_joined())
}

/// Whether the edges weigh at most as much.
pub fn is_light(graph: &Graph, edges: &[u32], most: i64) -> bool
    requires { All (λ k. k < length graph.now.edges) edges.now }
    ensures { result ≡ int_le (pos (weight_of graph.now edges.now)) most }
{
    most >= 0 && graph.weight_of(edges) <= most as u128
}

/// Whether each edge is present.
pub fn are_present(part: &Part, edges: &[u32]) -> bool
    requires { All (λ k. k < length part.now) edges.now }
    ensures { result ≡ list_all (present part.now) edges.now }
{
    for place in edges {
        if !part.has(*place) {
            return false;
        }
    }
    true
}
