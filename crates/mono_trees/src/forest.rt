//! Forests of light edges.
//!
//! Edges are gone through from the lightest on, and each that joins what was apart is chosen (Kruskal, On the shortest
//! spanning subtree of a graph, 1956). So the chosen edges are as many as they lower the number of components by, and
//! join the ends of each edge by edges no heavier than it.
//!
//! The order of the edges is kept from one search to the next, so that a graph's edges are sorted once, and not at each
//! search. Whether the kept order is the graph's own shows on the way: its present edges rise in weight, or the edges are
//! sorted anew.

ghost use Rattle.std.specs.Prelude.{◌≡◌, ◌<◌, ◌++◌, ◌∷◌, [], ℕ, IfOk, IfSome, IsPermutation, IsSome, List, OnOk, filter, length};
ghost use Rattle.std.specs.List.Sorted.{IsNonDecreasingBy};
ghost use Rattle.std.specs.List.{range_with_len};
ghost use Rattle.mono_graph.specs.Digraph.{IsPartOf, edge_at, places as places_of};
ghost use Rattle.mono_trees.specs.Grown.{AreNoHeavier, IsForest, IsGrown};
ghost use Rattle.mono_trees.specs.Tells.{same_label};

use crate::components::Components;
use crate::edge_order::EdgeOrder;
use mono_graph::{Graph, Part};
use std::alloc::{AllocError, Global};

/// Chooses an edge that is no lighter than those before, if the chosen ones don't join its ends.
fn choose(
    components: &mut Components,
    chosen: &mut Vec<u32>,
    graph: &Graph,
    place: u32,
) -> Result<(), AllocError>
    requires nodes { length components.old ≡ graph.now.nodes }
    requires place { place < length graph.now.edges }
    ensures nodes { length components.new ≡ graph.now.nodes }
    ensures grown { OnOk result ((done : List ℕ) → IsGrown graph.now done chosen.old.items components.old
        → AreNoHeavier graph.now done (edge_at graph.now place).weight → IsGrown graph.now (done ++ place ∷ []) chosen.new.items components.new) }
{
    let edge = graph.edge(place);
    if components.are_joined(edge.from, edge.to) {
        return Ok(());
    }
    components.join(edge.from, edge.to)?;
    chosen.push(place)?;
    Ok(())
}

/// Goes through the present edges in order, and chooses each whose ends the edges before don't join. The components
/// become those of the chosen edges. Nothing is found where a present edge is lighter than one before it.
fn grow(
    alloc: Global,
    components: &mut Components,
    graph: &Graph,
    part: &Part,
    order: &[u32],
) -> Result<Option<Vec<u32>>, AllocError>
    requires nodes { length components.old ≡ graph.now.nodes }
    requires part { IsPartOf part.now graph.now }
    requires order { IsPermutation (places_of graph.now) order.now }
    ensures nodes { length components.new ≡ graph.now.nodes }
    ensures forest { IfOk result (λ found. IfSome found (λ chosen. IsForest graph.now part.now chosen.items components.new)) }
    ensures rising { IsNonDecreasingBy (λ k. (edge_at graph.now k).weight) order.now → IfOk result (λ found. IsSome found) }
{
    components.reset();
    let mut chosen = Vec::new(alloc);
    let mut heaviest: u64 = 0;
    for place in order {
        if part.has(*place) {
            let weight = graph.edge(*place).weight;
            if weight < heaviest {
                return Ok(None);
            }
            choose(components, &mut chosen, graph, *place)?;
            heaviest = weight;
        }
    }
    Ok(Some(chosen))
}

/// The forest that the kept order gives, if it is one of the graph's edges and the present ones rise in it.
fn grow_by_kept(
    alloc: Global,
    components: &mut Components,
    graph: &Graph,
    part: &Part,
    order: &EdgeOrder,
) -> Result<Option<Vec<u32>>, AllocError>
    requires nodes { length components.old ≡ graph.now.nodes }
    requires part { IsPartOf part.now graph.now }
    ensures nodes { length components.new ≡ graph.now.nodes }
    ensures forest { IfOk result (λ found. IfSome found (λ chosen. IsForest graph.now part.now chosen.items components.new)) }
{
    let places = order.as_slice();
    if places.len() != graph.edge_count() as usize {
        return Ok(None);
    }
    grow(alloc, components, graph, part, places)
}

/// Sorts the edges anew, and gives their forest.
fn grow_by_new(
    alloc: Global,
    components: &mut Components,
    graph: &Graph,
    part: &Part,
    order: &mut EdgeOrder,
) -> Result<Vec<u32>, AllocError>
    requires nodes { length components.old ≡ graph.now.nodes }
    requires part { IsPartOf part.now graph.now }
    ensures nodes { length components.new ≡ graph.now.nodes }
    ensures forest { IfOk result (λ chosen. IsForest graph.now part.now chosen.items components.new) }
{
    order.sort_for(alloc, graph)?;
    let places = order.as_slice();
    match grow(alloc, components, graph, part, places)? {
        Some(chosen) => Ok(chosen),
        None => unreachable!(),
    }
}

/// A forest of present edges that joins the ends of each present edge by edges no heavier than it. The components become
/// its own. The edges are sorted where the kept order isn't the graph's.
pub fn lightest_forest(
    alloc: Global,
    components: &mut Components,
    order: &mut EdgeOrder,
    graph: &Graph,
    part: &Part,
) -> Result<Vec<u32>, AllocError>
    requires nodes { length components.old ≡ graph.now.nodes }
    requires part { IsPartOf part.now graph.now }
    ensures nodes { length components.new ≡ graph.now.nodes }
    ensures forest { IfOk result (λ chosen. IsForest graph.now part.now chosen.items components.new) }
{
    if let Some(chosen) = grow_by_kept(alloc, components, graph, part, order)? {
        return Ok(chosen);
    }
    grow_by_new(alloc, components, graph, part, order)
}

/// The nodes in the component of node 0.
pub fn first_component(
    alloc: Global,
    components: &Components,
    count: u32,
) -> Result<Vec<u32>, AllocError>
    requires { length components.now ≡ count }
    ensures { IfOk result (λ v. v.items ≡ filter (same_label components.now 0) (range_with_len 0 count)) }
{
    let mut nodes = Vec::new(alloc);
    for node in 0..count {
        if components.are_joined(0, node) {
            nodes.push(node)?;
        }
    }
    Ok(nodes)
}
