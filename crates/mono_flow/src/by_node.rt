//! Edges and marks by node, and what is asked of edges, answered at every number: at one that has nothing with nothing.

ghost use Rattle.mono_graph.specs.Digraph.{IsPartOf};

use mono_graph::{Amount, Edge, Graph, Part};

/// No edge.
pub(crate) const NONE: u32 = 0xffff_ffff;

/// The edge at a place, if there is one.
pub(crate) fn edge_of(graph: &Graph, place: u32) -> Option<Edge> {
    if place < graph.edge_count() {
        return Some(graph.edge(place));
    }
    None
}

/// Whether the edge is there and present.
pub(crate) fn is_present(graph: &Graph, part: &Part, place: u32) -> bool
    requires { IsPartOf part.now graph.now }
{
    place < graph.edge_count() && part.has(place)
}

/// Whether the edge is present and carries 1.
pub(crate) fn carries_one(graph: &Graph, part: &Part, amount: Amount) -> bool
    requires { IsPartOf part.now graph.now }
{
    amount.amount == 1 && is_present(graph, part, amount.edge)
}

/// Whether the edge leaves the node.
pub(crate) fn leaves(graph: &Graph, place: u32, node: u32) -> bool {
    match edge_of(graph, place) {
        Some(edge) => edge.from == node,
        None => false,
    }
}

/// The edge that a table has at a node.
pub(crate) fn edge_at(table: &[u32], node: u32) -> u32 {
    match table.get(node as usize) {
        Some(edge) => *edge,
        None => NONE,
    }
}

/// The table has the edge at the node from now on.
pub(crate) fn set_edge(table: &mut Vec<u32>, node: u32, edge: u32) {
    if let Some(known) = table.get_mut(node as usize) {
        *known = edge;
    }
}

/// Whether a node is marked.
pub(crate) fn is_marked(marks: &[bool], node: u32) -> bool {
    match marks.get(node as usize) {
        Some(mark) => *mark,
        None => false,
    }
}

/// Marks a node, or takes its mark back.
pub(crate) fn set_mark(marks: &mut Vec<bool>, node: u32, on: bool) {
    if let Some(mark) = marks.get_mut(node as usize) {
        *mark = on;
    }
}

/// No path enters or leaves the nodes any more.
pub(crate) fn forget_edges(entering: &mut Vec<u32>, leaving: &mut Vec<u32>, nodes: &[u32]) {
    for node in nodes {
        set_edge(entering, *node, NONE);
        set_edge(leaving, *node, NONE);
    }
}
