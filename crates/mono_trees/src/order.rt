//! Edges from the lightest to the heaviest.

ghost use Rattle.std.specs.Prelude.{◌≡◌, ◌<◌, All, IfOk, IsPermutation, filter, length, map};
ghost use Rattle.std.specs.List.Sorted.{IsNonDecreasingBy};
ghost use Rattle.mono_graph.specs.Digraph.{IsPartOf, edge_at, present, places};
ghost use Rattle.mono_trees.specs.Order.{placed_at};

use mono_base::numbers_below;
use mono_graph::{Graph, Part};
use std::alloc::{AllocError, Global};

/// An edge's place and weight.
#[derive(Clone, Copy)]
struct Placed {
    place: u32,
    weight: u64,
}

/// The places with the weights of their edges.
fn weighed(alloc: Global, graph: &Graph, places: &[u32]) -> Result<Vec<Placed>, AllocError>
    requires { All (λ k. k < length graph.now.edges) places.now }
    ensures { IfOk result (λ v. v.items ≡ map (placed_at graph.now) places.now) }
{
    let mut listed = Vec::new(alloc);
    for place in places {
        let edge = graph.edge(*place);
        listed.push(Placed {
            place: *place,
            weight: edge.weight,
        })?;
    }
    Ok(listed)
}

/// The places alone.
fn places_of(alloc: Global, listed: &[Placed]) -> Result<Vec<u32>, AllocError>
    ensures { IfOk result (λ v. v.items ≡ map (λ p. p.place) listed.now) }
{
    listed.iter().map(|p| p.place).collect(alloc)
}

/// The places in the order of the weights of their edges.
pub fn by_weight(alloc: Global, graph: &Graph, places: &[u32]) -> Result<Vec<u32>, AllocError>
    requires { All (λ k. k < length graph.now.edges) places.now }
    ensures permutation { IfOk result (λ order. IsPermutation places.now order.items) }
    ensures rising { IfOk result (λ order. IsNonDecreasingBy (λ k. (edge_at graph.now k).weight) order.items) }
{
    let mut listed = weighed(alloc, graph, places)?;
    listed.sort_by_key(|p| p.weight)?;
    let order = places_of(alloc, &listed)?;
    Ok(order)
}

/// The places of all edges, in the order of their weights.
pub fn all_by_weight(alloc: Global, graph: &Graph) -> Result<Vec<u32>, AllocError>
    ensures permutation { IfOk result (λ order. IsPermutation (places graph.now) order.items) }
    ensures rising { IfOk result (λ order. IsNonDecreasingBy (λ k. (edge_at graph.now k).weight) order.items) }
{
    let all = numbers_below(alloc, graph.edge_count())?;
    let order = by_weight(alloc, graph, &all)?;
    Ok(order)
}

/// The places of the present edges, in the order of the graph.
fn present_places(alloc: Global, graph: &Graph, part: &Part) -> Result<Vec<u32>, AllocError>
    requires { IsPartOf part.now graph.now }
    ensures { IfOk result (λ v. v.items ≡ filter (present part.now) (places graph.now)) }
{
    let mut found = Vec::new(alloc);
    for place in 0..graph.edge_count() {
        if part.has(place) {
            found.push(place)?;
        }
    }
    Ok(found)
}

/// The places of the present edges, in the order of their weights.
pub fn present_by_weight(alloc: Global, graph: &Graph, part: &Part) -> Result<Vec<u32>, AllocError>
    requires { IsPartOf part.now graph.now }
    ensures permutation { IfOk result (λ order. IsPermutation (filter (present part.now) (places graph.now)) order.items) }
    ensures rising { IfOk result (λ order. IsNonDecreasingBy (λ k. (edge_at graph.now k).weight) order.items) }
{
    let present = present_places(alloc, graph, part)?;
    let order = by_weight(alloc, graph, &present)?;
    Ok(order)
}
