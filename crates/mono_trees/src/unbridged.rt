//! The absent edges that would make a tree lighter.
//!
//! One sweep over the edges in the kept order and over the tree's edges, both from the lightest on: the components are
//! those of the tree's edges no heavier than the edge that is looked at.

ghost use Rattle.std.specs.Prelude.{◌≡◌, ◌<◌, All, IfOk, IfSome, IsPermutation, IsSome, length};
ghost use Rattle.std.specs.List.Sorted.{IsNonDecreasingBy};
ghost use Rattle.mono_graph.specs.Digraph.{IsPartOf, edge_at, places as places_of};
ghost use Rattle.mono_trees.specs.Unbridged.{AreUnbridged};

use crate::components::Components;
use crate::edge_order::EdgeOrder;
use crate::least::advance;
use crate::order::by_weight;
use mono_graph::{Graph, Part};
use std::alloc::{AllocError, Global};

/// The absent edges of the order whose ends the tree doesn't join by edges no heavier. Nothing is found where an absent
/// edge is lighter than one before it.
fn collect(
    alloc: Global,
    components: &mut Components,
    graph: &Graph,
    part: &Part,
    tree: &[u32],
    order: &[u32],
) -> Result<Option<Vec<u32>>, AllocError>
    requires nodes { length components.old ≡ graph.now.nodes }
    requires part { IsPartOf part.now graph.now }
    requires tree { All (λ k. k < length graph.now.edges) tree.now }
    requires tree_rises { IsNonDecreasingBy (λ k. (edge_at graph.now k).weight) tree.now }
    requires order { IsPermutation (places_of graph.now) order.now }
    ensures nodes { length components.new ≡ graph.now.nodes }
    ensures unbridged { IfOk result (λ found. IfSome found (λ edges. AreUnbridged graph.now part.now tree.now edges.items)) }
    ensures rising { IsNonDecreasingBy (λ k. (edge_at graph.now k).weight) order.now → IfOk result (λ found. IsSome found) }
{
    components.reset();
    let mut edges = Vec::new(alloc);
    let mut at = 0;
    let mut heaviest: u64 = 0;
    for place in order {
        if !part.has(*place) {
            let edge = graph.edge(*place);
            if edge.weight < heaviest {
                return Ok(None);
            }
            at = advance(components, graph, tree, at, edge.weight)?;
            if !components.are_joined(edge.from, edge.to) {
                edges.push(*place)?;
            }
            heaviest = edge.weight;
        }
    }
    Ok(Some(edges))
}

/// Those that the kept order gives, if it is one of the graph's edges and the absent ones rise in it.
fn collect_by_kept(
    alloc: Global,
    components: &mut Components,
    graph: &Graph,
    part: &Part,
    tree: &[u32],
    order: &EdgeOrder,
) -> Result<Option<Vec<u32>>, AllocError>
    requires nodes { length components.old ≡ graph.now.nodes }
    requires part { IsPartOf part.now graph.now }
    requires tree { All (λ k. k < length graph.now.edges) tree.now }
    requires tree_rises { IsNonDecreasingBy (λ k. (edge_at graph.now k).weight) tree.now }
    ensures nodes { length components.new ≡ graph.now.nodes }
    ensures unbridged { IfOk result (λ found. IfSome found (λ edges. AreUnbridged graph.now part.now tree.now edges.items)) }
{
    let places = order.as_slice();
    if places.len() != graph.edge_count() as usize {
        return Ok(None);
    }
    collect(alloc, components, graph, part, tree, places)
}

/// Sorts the edges anew, and gives those that are absent and unbridged.
fn collect_by_new(
    alloc: Global,
    components: &mut Components,
    graph: &Graph,
    part: &Part,
    tree: &[u32],
    order: &mut EdgeOrder,
) -> Result<Vec<u32>, AllocError>
    requires nodes { length components.old ≡ graph.now.nodes }
    requires part { IsPartOf part.now graph.now }
    requires tree { All (λ k. k < length graph.now.edges) tree.now }
    requires tree_rises { IsNonDecreasingBy (λ k. (edge_at graph.now k).weight) tree.now }
    ensures nodes { length components.new ≡ graph.now.nodes }
    ensures unbridged { IfOk result (λ edges. AreUnbridged graph.now part.now tree.now edges.items) }
{
    order.sort_for(alloc, graph)?;
    let places = order.as_slice();
    match collect(alloc, components, graph, part, tree, places)? {
        Some(edges) => Ok(edges),
        None => unreachable!(),
    }
}

/// The absent edges whose ends the tree, its edges in any order, doesn't join by edges no heavier. The edges are sorted
/// where the kept order isn't the graph's.
pub fn unbridged_absent(
    alloc: Global,
    components: &mut Components,
    order: &mut EdgeOrder,
    graph: &Graph,
    part: &Part,
    edges: &[u32],
) -> Result<Vec<u32>, AllocError>
    requires nodes { length components.old ≡ graph.now.nodes }
    requires part { IsPartOf part.now graph.now }
    requires edges { All (λ k. k < length graph.now.edges) edges.now }
    ensures nodes { length components.new ≡ graph.now.nodes }
    ensures unbridged { IfOk result (λ found. AreUnbridged graph.now part.now edges.now found.items) }
{
    let tree = by_weight(alloc, graph, edges)?;
    let kept = collect_by_kept(alloc, components, graph, part, tree.as_slice(), order)?;
    if let Some(found) = kept {
        return Ok(found);
    }
    collect_by_new(alloc, components, graph, part, tree.as_slice(), order)
}
