//! The tests of spanning trees, of splits and of least trees.
//!
//! A checker keeps the components of the nodes and two marks for each. No node is marked between two tests, and the test
//! of a split marks and clears only what its list names: it costs the list and the edges at the nodes there, and not the
//! graph. A tree has one node more than edges, so the other two tests go over all nodes anyway; the memory of their
//! components is kept as well.

ghost use Rattle.std.specs.Prelude.{◌≡◌, ◌<◌, All, IfOk, length};
ghost use Rattle.mono_graph.specs.Digraph.{IsPartOf};
ghost use Rattle.mono_graph.specs.Trees.{is_tree as is_tree_of, is_split as is_split_of, is_least as is_least_of};

use crate::components::Components;
use crate::least::are_bridged;
use crate::order::{by_weight, present_by_weight};
use crate::spanning::{are_present, is_light, is_spanning};
use crate::split;
use mono_graph::{Graph, Part, mark, unmark};
use std::alloc::{AllocError, Global};
use std::marker::Model;

/// Tests spanning trees, splits and least trees of graphs with one number of nodes, which is its value.
pub struct TreeChecker {
    /// By node: whether it is in the set, and whether its edges have been looked at.
    inside: Vec<bool>,
    seen: Vec<bool>,
    components: Components,
}

impl Drop for TreeChecker {
    fn drop(self) {
        let TreeChecker {
            inside: _,
            seen: _,
            components: _,
        } = self;
    }
}

impl Model for TreeChecker {
    ghost use Rattle.std.specs.Prelude.{ℕ};
    ghost use Rattle.mono_trees.specs.Checker.{node_count, IsClear};

    ghost Value = { ℕ };

    ghost view = { node_count };

    ghost invariant = { IsClear };
}

impl TreeChecker {
    /// A checker for graphs with this many nodes.
    pub fn new(alloc: Global, nodes: u32) -> Result<Self, AllocError>
        ensures { IfOk result (λ checker. checker ≡ nodes) }
    {
        Ok(TreeChecker {
            inside: vec![in alloc; false; nodes as usize]?,
            seen: vec![in alloc; false; nodes as usize]?,
            components: Components::new(alloc, nodes)?,
        })
    }

    /// What [`is_tree`] answers.
    pub fn is_tree(
        &mut self,
        graph: &Graph,
        part: &Part,
        most: i64,
        edges: &[u32],
    ) -> Result<bool, AllocError>
        requires checker { self.old ≡ graph.now.nodes }
        requires part { IsPartOf part.now graph.now }
        requires places { All (λ k. k < length graph.now.edges) edges.now }
        ensures passes { IfOk result (λ passes. passes ≡ is_tree_of graph.now part.now most edges.now) }
        ensures checker { self.new ≡ self.old }
    {
        if !are_present(part, edges) {
            return Ok(false);
        }
        if !is_spanning(&mut self.components, graph, edges)? {
            return Ok(false);
        }
        Ok(is_light(graph, edges, most))
    }

    /// What [`is_split`] answers. It takes no memory.
    pub fn is_split(&mut self, graph: &Graph, part: &Part, nodes: &[u32]) -> bool
        requires checker { self.old ≡ graph.now.nodes }
        requires part { IsPartOf part.now graph.now }
        requires nodes { All (λ u. u < graph.now.nodes) nodes.now }
        ensures passes { result ≡ is_split_of graph.now part.now nodes.now }
        ensures checker { self.new ≡ self.old }
    {
        mark(&mut self.inside, nodes);
        let passes = split::is_split(graph, part, &self.inside, &mut self.seen, nodes);
        unmark(&mut self.inside, nodes);
        unmark(&mut self.seen, nodes);
        passes
    }

    /// What [`is_least`] answers.
    pub fn is_least(
        &mut self,
        graph: &Graph,
        part: &Part,
        most: i64,
        edges: &[u32],
    ) -> Result<bool, AllocError>
        requires checker { self.old ≡ graph.now.nodes }
        requires part { IsPartOf part.now graph.now }
        requires places { All (λ k. k < length graph.now.edges) edges.now }
        ensures passes { IfOk result (λ passes. passes ≡ is_least_of graph.now part.now most edges.now) }
        ensures checker { self.new ≡ self.old }
    {
        let alloc = *self.inside.allocator();
        if !is_spanning(&mut self.components, graph, edges)? {
            return Ok(false);
        }
        if is_light(graph, edges, most) {
            return Ok(false);
        }
        let tree = by_weight(alloc, graph, edges)?;
        let order = present_by_weight(alloc, graph, part)?;
        let bridged = are_bridged(&mut self.components, graph, &tree, &order)?;
        Ok(bridged)
    }
}

/// Whether the edges are present, form a spanning tree of the graph, and weigh at most `most` in sum.
///
/// Edges are given by their places, from 0, in any order. A spanning tree of n nodes is a list of n - 1 different edges
/// that join every node to node 0, whatever their directions; with one node it is the empty list.
pub fn is_tree(
    alloc: Global,
    graph: &Graph,
    part: &Part,
    most: i64,
    edges: &[u32],
) -> Result<bool, AllocError>
    requires part { IsPartOf part.now graph.now }
    requires places { All (λ k. k < length graph.now.edges) edges.now }
    ensures { IfOk result (λ passes. passes ≡ is_tree_of graph.now part.now most edges.now) }
{
    let mut checker = TreeChecker::new(alloc, graph.nodes())?;
    checker.is_tree(graph, part, most, edges)
}

/// Whether the set has a node, lacks a node, and no present edge joins it with the rest in either direction: where it is
/// so, no present edges form a spanning tree.
///
/// The list of nodes, from 0, is read as a set.
pub fn is_split(
    alloc: Global,
    graph: &Graph,
    part: &Part,
    nodes: &[u32],
) -> Result<bool, AllocError>
    requires part { IsPartOf part.now graph.now }
    requires nodes { All (λ u. u < graph.now.nodes) nodes.now }
    ensures { IfOk result (λ passes. passes ≡ is_split_of graph.now part.now nodes.now) }
{
    let mut checker = TreeChecker::new(alloc, graph.nodes())?;
    Ok(checker.is_split(graph, part, nodes))
}

/// Whether the edges, present or not, form a spanning tree that weighs more than `most` and joins the ends of each
/// present edge by edges no heavier than it: where it is so, every spanning tree of present edges is as heavy.
///
/// Edges are given by their places, from 0, in any order.
pub fn is_least(
    alloc: Global,
    graph: &Graph,
    part: &Part,
    most: i64,
    edges: &[u32],
) -> Result<bool, AllocError>
    requires part { IsPartOf part.now graph.now }
    requires places { All (λ k. k < length graph.now.edges) edges.now }
    ensures { IfOk result (λ passes. passes ≡ is_least_of graph.now part.now most edges.now) }
{
    let mut checker = TreeChecker::new(alloc, graph.nodes())?;
    checker.is_least(graph, part, most, edges)
}
