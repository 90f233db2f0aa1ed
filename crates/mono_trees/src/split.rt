//! The test of splits: sets of nodes that no present edge joins with the rest.
//!
//! An edge between the set and the rest is at a node of the set, so only the edges at the listed nodes are looked at, and
//! those at a node that is listed again no second time. A list that is shorter than the list of all nodes lacks one.

ghost use Rattle.std.specs.Prelude.{◌≡◌, ◌<◌, ◌&&◌, ℕ, All, IsTrue, length, vec_len, false, not, slice_index_or};
ghost use Rattle.std.specs.List.{list_all, range_with_len};
ghost use Rattle.mono_graph.specs.Digraph.{IsPartOf, has};
ghost use Rattle.mono_graph.specs.Trees.{is_split as is_split_of};
ghost use Rattle.mono_trees.specs.Crossing.{crosses_by, is_closed_at as closed_at};

use mono_graph::{Graph, Part};

/// Whether the edge is present and joins the marked nodes with the rest.
fn crosses(graph: &Graph, part: &Part, inside: &[bool], place: u32) -> bool
    requires part { IsPartOf part.now graph.now }
    requires place { place < length graph.now.edges }
    requires inside { length inside.now ≡ graph.now.nodes }
    ensures { result ≡ crosses_by inside.now graph.now part.now place }
{
    if !part.has(place) {
        return false;
    }
    let edge = graph.edge(place);
    inside[edge.from as usize] != inside[edge.to as usize]
}

/// Whether none of the edges is present and joins the marked nodes with the rest.
fn none_crosses(graph: &Graph, part: &Part, inside: &[bool], places: &[u32]) -> bool
    requires part { IsPartOf part.now graph.now }
    requires inside { length inside.now ≡ graph.now.nodes }
    requires places { All (λ k. k < length graph.now.edges) places.now }
    ensures { result ≡ list_all (λ k. not (crosses_by inside.now graph.now part.now k)) places.now }
{
    for place in places {
        if crosses(graph, part, inside, *place) {
            return false;
        }
    }
    true
}

/// Whether no present edge at the node joins the marked nodes with the rest.
fn is_closed_at(graph: &Graph, part: &Part, inside: &[bool], node: u32) -> bool
    requires part { IsPartOf part.now graph.now }
    requires inside { length inside.now ≡ graph.now.nodes }
    requires node { node < graph.now.nodes }
    ensures { result ≡ closed_at inside.now graph.now part.now node }
{
    none_crosses(graph, part, inside, graph.leaving(node))
        && none_crosses(graph, part, inside, graph.entering(node))
}

/// Whether so it is at each of the nodes. Those that were looked at are marked as seen.
fn is_closed(
    graph: &Graph,
    part: &Part,
    inside: &[bool],
    seen: &mut Vec<bool>,
    nodes: &[u32],
) -> bool
    requires part { IsPartOf part.now graph.now }
    requires inside { length inside.now ≡ graph.now.nodes }
    requires nodes { All (λ u. u < graph.now.nodes) nodes.now }
    requires seen { vec_len seen.old ≡ graph.now.nodes }
    requires clear { (u : ℕ) → slice_index_or seen.old.items u false ≡ false }
    ensures closed { result ≡ list_all (closed_at inside.now graph.now part.now) nodes.now }
    ensures seen { vec_len seen.new ≡ graph.now.nodes }
    ensures marked { (u : ℕ) → IsTrue (slice_index_or seen.new.items u false) → IsTrue (has nodes.now u) }
{
    for node in nodes {
        if !seen[*node as usize] {
            seen[*node as usize] = true;
            if !is_closed_at(graph, part, inside, *node) {
                return false;
            }
        }
    }
    true
}

fn are_all_marked(inside: &[bool]) -> bool
    ensures { result ≡ list_all (λ m. m) inside.now }
{
    inside.iter().all(|m| *m)
}

/// Whether one of the numbers below that of the marks isn't in the list that they mark.
fn lacks_one(inside: &[bool], nodes: &[u32]) -> bool
    requires marked { (u : ℕ) → slice_index_or inside.now u false ≡ has nodes.now u }
    ensures { result ≡ not (list_all (has nodes.now) (range_with_len 0 (length inside.now))) }
{
    if nodes.len() < inside.len() {
        return true;
    }
    !are_all_marked(inside)
}

/// Whether the set, whose nodes are marked, has a node, lacks a node, and no present edge joins it with the rest. Nodes
/// that were looked at are marked as seen.
pub fn is_split(
    graph: &Graph,
    part: &Part,
    inside: &[bool],
    seen: &mut Vec<bool>,
    nodes: &[u32],
) -> bool
    requires part { IsPartOf part.now graph.now }
    requires nodes { All (λ u. u < graph.now.nodes) nodes.now }
    requires inside { length inside.now ≡ graph.now.nodes }
    requires inside_marked { (u : ℕ) → slice_index_or inside.now u false ≡ has nodes.now u }
    requires seen { vec_len seen.old ≡ graph.now.nodes }
    requires clear { (u : ℕ) → slice_index_or seen.old.items u false ≡ false }
    ensures passes { result ≡ is_split_of graph.now part.now nodes.now }
    ensures seen { vec_len seen.new ≡ graph.now.nodes }
    ensures marked { (u : ℕ) → IsTrue (slice_index_or seen.new.items u false) → IsTrue (has nodes.now u) }
{
    // The edges of a graph lead to its nodes.
    graph.known();
    if nodes.is_empty() {
        return false;
    }
    if !lacks_one(inside, nodes) {
        return false;
    }
    is_closed(graph, part, inside, seen, nodes)
}
