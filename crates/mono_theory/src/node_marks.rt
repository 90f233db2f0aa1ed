//! Absent edges at the border of a set of nodes, for every kind of predicate that such a set denies.
//!
//! They are found from the nodes of the set, and so in proportion to the edges there and not to the graph.

ghost use Rattle.std.specs.Prelude.{◌≡◌, ◌<◌, ◌++◌, ℕ, List, false, length, All, IfOk, slice_index_or};
ghost use Rattle.mono_graph.specs.Digraph.{IsPartOf, has};
ghost use Rattle.mono_theory.specs.Resting.{absent_across, absent_joining, absent_out, is_joining};

use mono_graph::{Edge, Graph, Part, mark, unmark};
use std::alloc::{AllocError, Global};
use std::marker::Model;

/// A mark for each node of graphs with one number of nodes, which is what contracts see of it. No mark is set between two
/// calls, so a call costs what it marks.
#[derive(Drop)]
pub struct NodeMarks {
    marks: Vec<bool>,
}

impl Model for NodeMarks {
    ghost use Rattle.std.specs.Prelude.{ℕ, length};
    ghost use Rattle.mono_theory.specs.Resting.{AreClear};

    ghost Value = { ℕ };

    ghost view = { λ m. length m.marks.items };

    ghost invariant = { λ m. AreClear m.marks.items };
}

/// Whether the edge joins a marked node with one that isn't.
fn joins(marks: &[bool], edge: Edge) -> bool
    requires from { edge.from < length marks.now }
    requires to { edge.to < length marks.now }
    ensures { result ≡ is_joining marks.now edge }
{
    let from = marks[edge.from as usize];
    let to = marks[edge.to as usize];
    (from && !to) || (to && !from)
}

/// Adds those of these edges that are absent and join a marked node with one that isn't.
fn push_joining(
    graph: &Graph,
    part: &Part,
    marks: &[bool],
    places: &[u32],
    edges: &mut Vec<u32>,
) -> Result<(), AllocError>
    requires part { IsPartOf part.now graph.now }
    requires places { All (λ k. k < length graph.now.edges) places.now }
    requires len { length marks.now ≡ graph.now.nodes }
    ensures { (nodes : List ℕ) → ((u : ℕ) → slice_index_or marks.now u false ≡ has nodes u)
        → IfOk result (λ _. edges.new.items ≡ edges.old.items ++ absent_joining graph.now part.now nodes places.now) }
{
    // The edges of a graph lead between its nodes.
    graph.known();
    for place in places {
        if !part.has(*place) && joins(marks, graph.edge(*place)) {
            edges.push(*place)?;
        }
    }
    Ok(())
}

/// The absent edges that leave the marked set.
fn leaving_marked(
    alloc: Global,
    graph: &Graph,
    part: &Part,
    marks: &[bool],
    nodes: &[u32],
) -> Result<Vec<u32>, AllocError>
    requires part { IsPartOf part.now graph.now }
    requires nodes { All (λ u. u < graph.now.nodes) nodes.now }
    requires len { length marks.now ≡ graph.now.nodes }
    requires marked { (u : ℕ) → slice_index_or marks.now u false ≡ has nodes.now u }
    ensures { IfOk result (λ edges. edges.items ≡ absent_out graph.now part.now nodes.now) }
{
    let mut edges = Vec::new(alloc);
    for node in nodes {
        push_joining(graph, part, marks, graph.leaving(*node), &mut edges)?;
    }
    Ok(edges)
}

/// The absent edges that join the marked set with the rest.
fn crossing_marked(
    alloc: Global,
    graph: &Graph,
    part: &Part,
    marks: &[bool],
    nodes: &[u32],
) -> Result<Vec<u32>, AllocError>
    requires part { IsPartOf part.now graph.now }
    requires nodes { All (λ u. u < graph.now.nodes) nodes.now }
    requires len { length marks.now ≡ graph.now.nodes }
    requires marked { (u : ℕ) → slice_index_or marks.now u false ≡ has nodes.now u }
    ensures { IfOk result (λ edges. edges.items ≡ absent_across graph.now part.now nodes.now) }
{
    let mut edges = Vec::new(alloc);
    for node in nodes {
        push_joining(graph, part, marks, graph.leaving(*node), &mut edges)?;
        push_joining(graph, part, marks, graph.entering(*node), &mut edges)?;
    }
    Ok(edges)
}

impl NodeMarks {
    /// Marks for graphs with this many nodes.
    pub fn new(alloc: Global, nodes: u32) -> Result<Self, AllocError>
        ensures { IfOk result (λ marks. marks ≡ nodes) }
    {
        Ok(NodeMarks {
            marks: vec![in alloc; false; nodes as usize]?,
        })
    }

    /// The absent edges that leave a set of nodes, node after node.
    pub fn absent_leaving(
        &mut self,
        alloc: Global,
        graph: &Graph,
        part: &Part,
        nodes: &[u32],
    ) -> Result<Vec<u32>, AllocError>
        requires size { self.old ≡ graph.now.nodes }
        requires part { IsPartOf part.now graph.now }
        requires nodes { All (λ u. u < graph.now.nodes) nodes.now }
        ensures size { self.new ≡ self.old }
        ensures edges { IfOk result (λ edges. edges.items ≡ absent_out graph.now part.now nodes.now) }
    {
        mark(&mut self.marks, nodes);
        let found = leaving_marked(alloc, graph, part, self.marks.as_slice(), nodes);
        unmark(&mut self.marks, nodes);
        found
    }

    /// The absent edges that join a set of nodes with the rest, in either direction, node after node.
    pub fn absent_crossing(
        &mut self,
        alloc: Global,
        graph: &Graph,
        part: &Part,
        nodes: &[u32],
    ) -> Result<Vec<u32>, AllocError>
        requires size { self.old ≡ graph.now.nodes }
        requires part { IsPartOf part.now graph.now }
        requires nodes { All (λ u. u < graph.now.nodes) nodes.now }
        ensures size { self.new ≡ self.old }
        ensures edges { IfOk result (λ edges. edges.items ≡ absent_across graph.now part.now nodes.now) }
    {
        mark(&mut self.marks, nodes);
        let found = crossing_marked(alloc, graph, part, self.marks.as_slice(), nodes);
        unmark(&mut self.marks, nodes);
        found
    }
}
