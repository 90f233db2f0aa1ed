//! Finds a light spanning tree, or what shows that there is none.
//!
//! Where the lightest forest of present edges doesn't join all nodes, those that it joins with node 0 are a split.
//! Otherwise it is a spanning tree, and the ends of each present edge are joined by edges of it no heavier than that
//! edge: so where it is too heavy, each spanning tree is.

ghost use Rattle.std.specs.Prelude.{◌≡◌, ◌<◌, All, IfOk, length};
ghost use Rattle.mono_graph.specs.Digraph.{IsPartOf};
ghost use Rattle.mono_trees.specs.Found.{Passes, IsKnown, HasPresentEdges, IsInOrder};
ghost use Rattle.mono_trees.specs.Unbridged.{AreUnbridged};

use crate::components::Components;
use crate::edge_order::EdgeOrder;
use crate::forest::{first_component, lightest_forest};
use crate::spanning::is_light;
use crate::unbridged::unbridged_absent;
use mono_graph::{Graph, Part};
use std::alloc::{AllocError, Global};
use std::marker::Model;

/// A light spanning tree, or what shows that there is none. Edges are given by their places, from 0.
#[derive(Drop)]
pub enum TreeFound {
    /// A spanning tree of present edges within the bound.
    Tree(Vec<u32>),
    /// Nodes that no present edge joins with the others, each once and in order.
    Split(Vec<u32>),
    /// A lightest spanning tree of present edges, where it is too heavy.
    Least(Vec<u32>),
}

/// Finds light spanning trees of graphs with one number of nodes, which is its value.
///
/// The order of the edges by weight is kept from search to search: the first search in a graph sorts its edges, and those
/// that follow in the same graph go over them in that order, in E + N log N steps among E edges and N nodes.
pub struct TreeFinder {
    components: Components,
    order: EdgeOrder,
}

impl Drop for TreeFinder {
    fn drop(self) {
        let TreeFinder {
            components: _,
            order: _,
        } = self;
    }
}

impl Model for TreeFinder {
    ghost use Rattle.std.specs.Prelude.{ℕ, length};

    ghost Value = { ℕ };

    ghost view = { λ f. length f.components };
}

impl TreeFinder {
    /// A finder for graphs with this many nodes.
    pub fn new(alloc: Global, nodes: u32) -> Result<Self, AllocError>
        ensures { IfOk result (λ finder. finder ≡ nodes) }
    {
        Ok(TreeFinder {
            components: Components::new(alloc, nodes)?,
            order: EdgeOrder::empty(alloc),
        })
    }

    /// What [`find_tree`] gives.
    pub fn find_tree(
        &mut self,
        graph: &Graph,
        part: &Part,
        most: i64,
    ) -> Result<TreeFound, AllocError>
        requires finder { self.old ≡ graph.now.nodes }
        requires part { IsPartOf part.now graph.now }
        ensures passes { IfOk result (Passes graph.now part.now most) }
        ensures known { IfOk result (IsKnown graph.now) }
        ensures present { IfOk result (HasPresentEdges part.now) }
        ensures order { IfOk result (IsInOrder graph.now) }
        ensures finder { self.new ≡ self.old }
    {
        let alloc = self.components.allocator();
        let count = graph.nodes();
        let chosen = lightest_forest(alloc, &mut self.components, &mut self.order, graph, part)?;
        if !self.components.are_all_joined() {
            let set = first_component(alloc, &self.components, count)?;
            return Ok(TreeFound::Split(set));
        }
        if is_light(graph, &chosen, most) {
            return Ok(TreeFound::Tree(chosen));
        }
        Ok(TreeFound::Least(chosen))
    }

    /// The absent edges that would make a tree of these edges lighter: those whose ends it doesn't join by edges no
    /// heavier.
    pub fn unbridged_absent(
        &mut self,
        graph: &Graph,
        part: &Part,
        edges: &[u32],
    ) -> Result<Vec<u32>, AllocError>
        requires finder { self.old ≡ graph.now.nodes }
        requires part { IsPartOf part.now graph.now }
        requires edges { All (λ k. k < length graph.now.edges) edges.now }
        ensures unbridged { IfOk result (λ found. AreUnbridged graph.now part.now edges.now found.items) }
        ensures finder { self.new ≡ self.old }
    {
        let alloc = self.components.allocator();
        unbridged_absent(
            alloc,
            &mut self.components,
            &mut self.order,
            graph,
            part,
            edges,
        )
    }
}

/// A spanning tree of present edges that weighs at most `most` in sum, a split where no present edges form a spanning
/// tree, or a lightest tree where each is heavier.
pub fn find_tree(
    alloc: Global,
    graph: &Graph,
    part: &Part,
    most: i64,
) -> Result<TreeFound, AllocError>
    requires part { IsPartOf part.now graph.now }
    ensures passes { IfOk result (Passes graph.now part.now most) }
    ensures known { IfOk result (IsKnown graph.now) }
    ensures present { IfOk result (HasPresentEdges part.now) }
    ensures order { IfOk result (IsInOrder graph.now) }
{
    let mut finder = TreeFinder::new(alloc, graph.nodes())?;
    finder.find_tree(graph, part, most)
}
