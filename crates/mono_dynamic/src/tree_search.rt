//! Searches for trees of walks from one source.
//!
//! A search, breadth first, goes on only as far as the next node that is asked for needs. Of what it found the tree takes
//! the ways to these nodes, each back to the first node that it has already. So a search costs the edges that it reaches,
//! and what the tree takes costs its own nodes.

ghost use Rattle.std.specs.Prelude.{◌≡◌, ◌-◌, ◌<◌, ◌≤◌, ◌∷◌, ◌⊎◌, [], ℕ, List, false, All, IfOk, IsTrue, length, slice_index_or, vec_capacity};
ghost use Rattle.mono_graph.specs.Digraph.{IsPartOf};
ghost use Rattle.mono_dynamic.specs.Arrivals.{arrival_at, is_reached};
ghost use Rattle.mono_dynamic.specs.Mending.{IsMendedTree};
ghost use Rattle.mono_dynamic.specs.Rows.{alone};
ghost use Rattle.mono_dynamic.specs.SearchTrees.{IsSearching, IsSearchTree, IsWay, IsJoined, IsAttached, HasWay};

use crate::arrival::Arrival;
use crate::mending::mend;
use crate::reached_nodes::ReachedNodes;
use mono_base::limits::MAX_NODES;
use mono_graph::{Graph, Part};
use std::alloc::{AllocError, Global};
use std::marker::Model;

/// Room for searches in graphs with some number of nodes, which is kept from one search to the next. Contracts see that
/// number.
pub struct TreeSearch {
    found: ReachedNodes,
    /// Arrivals, each by way of the next.
    way: Vec<u32>,
}

impl Drop for TreeSearch {
    fn drop(self) {
        let TreeSearch { found: _, way: _ } = self;
    }
}

impl Model for TreeSearch {
    ghost use Rattle.std.specs.Prelude.{ℕ, ◌≤◌, vec_capacity};

    ghost Value = { ℕ };

    ghost view = { λ s. s.found.nodes };

    ghost invariant = { λ s. s.found.nodes ≤ vec_capacity s.way };
}

/// Whether the node is reached, or there is no arrival left whose edges are to be followed.
fn is_over(found: &ReachedNodes, followed: usize, node: u32) -> bool
    requires { node < found.now.nodes }
    ensures over { IsTrue result → IsTrue (is_reached found.now.arrivals node) ⊎ (length found.now.arrivals ≤ followed) }
    ensures more { result ≡ false → followed < length found.now.arrivals }
    ensures few { length found.now.arrivals ≤ found.now.nodes }
    ensures most { found.now.nodes ≤ MAX_NODES }
{
    found.count() <= followed || found.has(node)
}

/// Goes on until the node is reached, if it ever is. Answers how many first arrivals are followed then.
fn reach_on(
    found: &mut ReachedNodes,
    graph: &Graph,
    part: &Part,
    followed: usize,
    node: u32,
) -> usize
    requires part { IsPartOf part.now graph.now }
    requires node { node < graph.now.nodes }
    requires searching { IsSearching graph.now part.now found.old.source followed found.old }
    ensures searching { IsSearching graph.now part.now found.old.source result found.new }
    ensures over { IsTrue (is_reached found.new.arrivals node) ⊎ (length found.new.arrivals ≤ result) }
{
    let mut head = followed;
    while !is_over(found, head, node) {
        let next = found.node_at(head);
        found.follow(graph, part, graph.leaving(next), 0);
        head += 1;
    }
    head
}

/// The way from an arrival back to the first one whose node the tree has.
fn way_back(found: &ReachedNodes, tree: &ReachedNodes, last: u32, way: &mut Vec<u32>)
    requires nodes { found.now.nodes ≡ tree.now.nodes }
    requires source { found.now.source ≡ tree.now.source }
    requires last { last < length found.now.arrivals }
    requires room { found.now.nodes ≤ vec_capacity way.old }
    ensures room { vec_capacity way.new ≡ vec_capacity way.old }
    ensures way { IsWay found.now.arrivals last way.new.items }
    ensures joined { IsJoined found.now.arrivals tree.now.arrivals way.new.items }
{
    let _ = found.count();
    way.clear();
    way.push_reserved(last);
    let mut at = last;
    while !tree.has(found.node_at(at as usize)) {
        at = found.arrival(at as usize).before;
        way.push_reserved(at);
    }
}

/// Adds the node of an arrival to the tree, which has the node from where it was reached.
fn attach(found: &ReachedNodes, tree: &mut ReachedNodes, position: u32)
    requires nodes { found.now.nodes ≡ tree.old.nodes }
    requires position { position < length found.now.arrivals }
    requires behind { 0 < position }
    requires from { IsTrue (is_reached tree.old.arrivals (arrival_at found.now.arrivals (arrival_at found.now.arrivals position).before).node) }
    requires new { is_reached tree.old.arrivals (arrival_at found.now.arrivals position).node ≡ false }
    requires stamps { All (λ a. a.stamp ≤ 0) tree.old.arrivals }
    ensures { IsAttached found.now.arrivals position tree.old tree.new }
{
    let arrival = found.arrival(position as usize);
    match tree.arrival_of(found.node_at(arrival.before as usize)) {
        Some(before) => tree.arrive(Arrival {
            node: arrival.node,
            place: arrival.place,
            before,
            stamp: 0,
        }),
        None => unreachable!(),
    }
}

/// Adds the nodes of a way to the tree, which has the one at which it begins.
fn add_way(found: &ReachedNodes, tree: &mut ReachedNodes, way: &[u32])
    requires nodes { found.now.nodes ≡ tree.old.nodes }
    requires stamps { All (λ a. a.stamp ≤ 0) tree.old.arrivals }
    requires way { IsWay found.now.arrivals (slice_index_or way.now 0 0) way.now }
    requires joined { IsJoined found.now.arrivals tree.old.arrivals way.now }
    ensures { HasWay found.now.arrivals (arrival_at found.now.arrivals (slice_index_or way.now 0 0)).node tree.old tree.new }
{
    let mut left = way.len() - 1;
    while left > 0 {
        left -= 1;
        attach(found, tree, way[left]);
    }
}

/// Adds the way to a node to the tree, if the node was reached.
fn keep_way(found: &ReachedNodes, tree: &mut ReachedNodes, node: u32, way: &mut Vec<u32>)
    requires nodes { found.now.nodes ≡ tree.old.nodes }
    requires source { found.now.source ≡ tree.old.source }
    requires node { node < found.now.nodes }
    requires stamps { All (λ a. a.stamp ≤ 0) tree.old.arrivals }
    requires room { found.now.nodes ≤ vec_capacity way.old }
    ensures room { vec_capacity way.new ≡ vec_capacity way.old }
    ensures way { HasWay found.now.arrivals node tree.old tree.new }
{
    if let Some(last) = found.arrival_of(node) {
        way_back(found, tree, last, way);
        add_way(found, tree, way.as_slice());
    }
}

/// Adds to the tree, which is the source alone, the ways to these nodes.
fn search_all(
    found: &mut ReachedNodes,
    way: &mut Vec<u32>,
    tree: &mut ReachedNodes,
    graph: &Graph,
    part: &Part,
    targets: &[u32],
)
    requires nodes { found.old.nodes ≡ graph.now.nodes }
    requires part { IsPartOf part.now graph.now }
    requires targets { All (λ v. v < graph.now.nodes) targets.now }
    requires room { found.old.nodes ≤ vec_capacity way.old }
    requires tree { tree.old ≡ alone graph.now.nodes tree.old.source }
    ensures nodes { found.new.nodes ≡ graph.now.nodes }
    ensures room { vec_capacity way.new ≡ vec_capacity way.old }
    ensures size { tree.new.nodes ≡ graph.now.nodes }
    ensures source { tree.new.source ≡ tree.old.source }
    ensures tree { IsSearchTree graph.now part.now tree.old.source targets.now tree.new.arrivals }
{
    found.restart(tree.source());
    let mut followed = 0;
    for target in targets {
        followed = reach_on(found, graph, part, followed, *target);
        keep_way(found, tree, *target, way);
    }
}

impl TreeSearch {
    /// Room for graphs with this many nodes, from 1 to [`MAX_NODES`].
    pub fn new(alloc: Global, nodes: u32) -> Result<Self, AllocError>
        requires some { 1 ≤ nodes }
        requires few { nodes ≤ MAX_NODES }
        ensures { IfOk result (λ room. room ≡ nodes) }
    {
        let way = Vec::with_capacity(alloc, nodes as usize)?;
        Ok(TreeSearch {
            found: ReachedNodes::new(alloc, nodes, 0)?,
            way,
        })
    }

    /// Adds to a tree, which is the source alone, the ways to these nodes.
    pub(crate) fn search(
        &mut self,
        tree: &mut ReachedNodes,
        graph: &Graph,
        part: &Part,
        targets: &[u32],
    )
        requires room { self.old ≡ graph.now.nodes }
        requires part { IsPartOf part.now graph.now }
        requires targets { All (λ v. v < graph.now.nodes) targets.now }
        requires tree { tree.old ≡ alone graph.now.nodes tree.old.source }
        ensures room { self.new ≡ self.old }
        ensures size { tree.new.nodes ≡ graph.now.nodes }
        ensures source { tree.new.source ≡ tree.old.source }
        ensures tree { IsSearchTree graph.now part.now tree.old.source targets.now tree.new.arrivals }
    {
        search_all(&mut self.found, &mut self.way, tree, graph, part, targets);
    }

    /// Mends a tree: of these nodes it then has those to which walks lead. It costs a look at what is left of the tree, and at
    /// what lies about the nodes that were cut off.
    pub(crate) fn mend(
        &mut self,
        tree: &mut ReachedNodes,
        graph: &Graph,
        part: &Part,
        targets: &[u32],
    )
        requires room { self.old ≡ graph.now.nodes }
        requires part { IsPartOf part.now graph.now }
        requires targets { All (λ v. v < graph.now.nodes) targets.now }
        requires size { tree.old.nodes ≡ graph.now.nodes }
        ensures room { self.new ≡ self.old }
        ensures size { tree.new.nodes ≡ graph.now.nodes }
        ensures source { tree.new.source ≡ tree.old.source }
        ensures tree { IsMendedTree graph.now part.now tree.old.source targets.now tree.new.arrivals }
    {
        mend(&mut self.found, &mut self.way, tree, graph, part, targets);
    }
}
