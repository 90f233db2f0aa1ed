//! What makes a tree a least one: it joins the ends of each present edge by edges no heavier than it.
//!
//! One sweep goes over the tree's edges and the present edges, both from the lightest on.

ghost use Rattle.std.specs.Prelude.{◌≡◌, ◌<◌, ◌≤◌, ℕ, All, IfOk, length, take, slice_index};
ghost use Rattle.std.specs.List.{list_all};
ghost use Rattle.std.specs.List.Sorted.{IsNonDecreasingBy};
ghost use Rattle.mono_graph.specs.Digraph.{edge_at};
ghost use Rattle.mono_graph.specs.Trees.{edges_at, is_bridged};
ghost use Rattle.mono_trees.specs.Tells.{Tells};
ghost use Rattle.mono_trees.specs.Swept.{IsSwept};

use crate::components::Components;
use mono_graph::Graph;
use std::alloc::AllocError;

/// Joins the tree's edges that are no heavier than the weight, where the first ones have been joined, and says how many
/// have been joined now.
pub fn advance(
    components: &mut Components,
    graph: &Graph,
    tree: &[u32],
    from: usize,
    weight: u64,
) -> Result<usize, AllocError>
    requires places { All (λ k. k < length graph.now.edges) tree.now }
    requires from { from ≤ length tree.now }
    requires len { length components.old ≡ graph.now.nodes }
    requires tells { Tells (edges_at graph.now (take from tree.now)) components.old }
    requires light { (i : ℕ) → i < from → (edge_at graph.now (slice_index tree.now i)).weight ≤ weight }
    ensures nodes { length components.new ≡ graph.now.nodes }
    ensures swept { IfOk result (λ at. IsSwept graph.now tree.now components.new at weight) }
{
    let mut at = from;
    while at < tree.len() {
        let edge = graph.edge(tree[at]);
        if edge.weight > weight {
            return Ok(at);
        }
        components.join(edge.from, edge.to)?;
        at += 1;
    }
    Ok(at)
}

/// Whether the tree joins the ends of each edge by edges no heavier than it.
pub fn are_bridged(
    components: &mut Components,
    graph: &Graph,
    tree: &[u32],
    edges: &[u32],
) -> Result<bool, AllocError>
    requires nodes { length components.old ≡ graph.now.nodes }
    requires tree { All (λ k. k < length graph.now.edges) tree.now }
    requires edges { All (λ k. k < length graph.now.edges) edges.now }
    requires tree_rises { IsNonDecreasingBy (λ k. (edge_at graph.now k).weight) tree.now }
    requires edges_rise { IsNonDecreasingBy (λ k. (edge_at graph.now k).weight) edges.now }
    ensures nodes { length components.new ≡ graph.now.nodes }
    ensures bridged { IfOk result (λ all. all ≡ list_all (λ k. is_bridged graph.now tree.now (edge_at graph.now k)) edges.now) }
{
    components.reset();
    let mut at = 0;
    for place in edges {
        let edge = graph.edge(*place);
        at = advance(components, graph, tree, at, edge.weight)?;
        if !components.are_joined(edge.from, edge.to) {
            return Ok(false);
        }
    }
    Ok(true)
}
