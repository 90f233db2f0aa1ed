//! Graphs: a number of nodes and a list of edges with rising numbers.
//!
//! Beside the list, each node has the places of the edges that leave it and of those that enter it, so that a walk
//! from node to node looks only at the edges there. `add_edge` keeps the three in step: it adds to the two lists by
//! node first, and takes back what it added where memory is missing for the rest.

ghost use Rattle.std.specs.Prelude.{◌≡◌, ◌<◌, ◌≤◌, ◌⊎◌, ◌↔◌, [], All, OnOk, OnErr, IfOk, IfSome, length, slice_index_or};
ghost use Rattle.mono_graph.specs.Digraph.{IsGraph, with_edge, no_edge, edge_at, place_of, leaving as leaving_of, entering as entering_of, weight_of as weight_sum};

use crate::Edge;
use mono_base::Buckets;
use mono_base::limits::{MAX_EDGES, MAX_NODES, MAX_VARS, MAX_WEIGHT};
use std::alloc::{AllocError, Global};
use std::marker::Model;

/// Why an edge was not added.
#[derive(Debug, Clone, Copy, PartialEq, Eq)]
pub enum EdgeRefusal {
    /// Memory is missing.
    Memory,
    /// An end of the edge is no node of the graph.
    NodeOutOfRange,
}

/// A number of nodes and a list of edges with rising numbers.
///
/// Nodes are counted from 0. Inside the graph an edge is named by its place in the list, from 0.
pub struct Graph {
    nodes: u32,
    edges: Vec<Edge>,
    leaving: Buckets<u32>,
    entering: Buckets<u32>,
}

impl Drop for Graph {
    fn drop(self) {
        let Graph {
            nodes: _,
            edges: _,
            leaving: _,
            entering: _,
        } = self;
    }
}

impl Model for Graph {
    ghost use Rattle.mono_graph.specs.Digraph.{Digraph};

    ghost Value = { Digraph };

    ghost use Rattle.mono_graph.specs.Kept.{shown, IsInStep};

    ghost view = { shown };

    ghost invariant = { IsInStep };
}

/// The place of the edge with this number, where no number is missing between the first edge's and this one: it is as far
/// behind the first edge as its number is above that edge's.
fn place_without_gaps(edges: &[Edge], number: u32) -> Option<u32>
    ensures known { IfSome result (λ k. k < length edges.now) }
    ensures number { IfSome result (λ k. (slice_index_or edges.now k no_edge).number ≡ number) }
{
    if edges.is_empty() || number < edges[0].number {
        return None;
    }
    let place = number - edges[0].number;
    if (place as usize) < edges.len() && edges[place as usize].number == number {
        Some(place)
    } else {
        None
    }
}

impl Graph {
    /// A graph with this many nodes, from 1 to [`MAX_NODES`], and no edge.
    pub fn new(alloc: Global, nodes: u32) -> Result<Self, AllocError>
        requires some { 1 ≤ nodes }
        requires few { nodes ≤ MAX_NODES }
        ensures { IfOk result (λ g. g ≡ record { nodes = nodes; edges = [] }) }
    {
        let leaving = Buckets::new(alloc, nodes)?;
        let entering = Buckets::new(alloc, nodes)?;
        Ok(Graph {
            nodes,
            edges: Vec::new(alloc),
            leaving,
            entering,
        })
    }

    /// The number of nodes.
    pub fn nodes(&self) -> u32
        ensures count { result ≡ self.now.nodes }
        ensures graph { IsGraph self.now }
    {
        self.nodes
    }

    /// What holds of every graph. Nothing is computed: it is there for the clause.
    pub fn known(&self)
        ensures graph { IsGraph self.now }
    {
        let _ = &self.nodes;
    }

    /// How many edges there are.
    pub fn edge_count(&self) -> u32
        ensures { result ≡ length self.now.edges }
    {
        self.edges.len() as u32
    }

    /// The edge at a place.
    pub fn edge(&self, place: u32) -> Edge
        requires { place < length self.now.edges }
        ensures edge { result ≡ edge_at self.now place }
        ensures from { result.from < self.now.nodes }
        ensures to { result.to < self.now.nodes }
        ensures number { 1 ≤ result.number }
        ensures var { (1 ≤ result.var) × (result.var ≤ MAX_VARS) }
        ensures weight { result.weight ≤ MAX_WEIGHT }
    {
        self.edges[place as usize]
    }

    /// The sum of the weights of the edges at these places, each counted as often as it is listed.
    pub fn weight_of(&self, places: &[u32]) -> u128
        requires { All (λ k. k < length self.now.edges) places.now }
        ensures { result ≡ weight_sum self.now places.now }
    {
        let mut weight: u128 = 0;
        for place in places {
            weight += u128::from(self.edge(*place).weight);
        }
        weight
    }

    /// The place of the edge with this number. `None` exactly where no edge has it.
    ///
    /// It is found at once where the numbers before it have no gap, as in an input with one graph, and else by a binary
    /// search.
    pub fn place(&self, number: u32) -> Option<u32>
        ensures place { result ≡ place_of self.now number }
        ensures known { IfSome result (λ k. k < length self.now.edges) }
    {
        if let Some(place) = place_without_gaps(&self.edges, number) {
            return Some(place);
        }
        match self.edges.binary_search_by_key(&number, |edge| edge.number) {
            Ok(place) => Some(place as u32),
            Err(_) => None,
        }
    }

    /// The places of the edges that leave a node, in order.
    pub fn leaving(&self, node: u32) -> &[u32]
        requires { node < self.now.nodes }
        ensures places { result.now ≡ leaving_of self.now node }
        ensures known { All (λ k. k < length self.now.edges) result.now }
        ensures few { length result.now ≤ length self.now.edges }
    {
        self.leaving.list(node)
    }

    /// The places of the edges that enter a node, in order.
    pub fn entering(&self, node: u32) -> &[u32]
        requires { node < self.now.nodes }
        ensures places { result.now ≡ entering_of self.now node }
        ensures known { All (λ k. k < length self.now.edges) result.now }
        ensures few { length result.now ≤ length self.now.edges }
    {
        self.entering.list(node)
    }

    /// Adds an edge behind the others, of which there are fewer than [`MAX_EDGES`]. Its number is at least 1 and greater
    /// than theirs, its variable is from 1 to [`MAX_VARS`], its weight is at most [`MAX_WEIGHT`].
    ///
    /// `NodeOutOfRange` exactly where `from` or `to` is not below the number of nodes.
    pub fn add_edge(&mut self, edge: Edge) -> Result<(), EdgeRefusal>
        requires room { length self.old.edges < MAX_EDGES }
        requires rising { All (λ e. e.number < edge.number) self.old.edges }
        requires number { 1 ≤ edge.number }
        requires var { (1 ≤ edge.var) × (edge.var ≤ MAX_VARS) }
        requires weight { edge.weight ≤ MAX_WEIGHT }
        ensures ok { OnOk result (self.new ≡ with_edge self.old edge) }
        ensures range { (result ≡ Err EdgeRefusal.NodeOutOfRange) ↔ ((self.old.nodes ≤ edge.from) ⊎ (self.old.nodes ≤ edge.to)) }
        ensures err { OnErr result (self.new ≡ self.old) }
    {
        if edge.from >= self.nodes || edge.to >= self.nodes {
            return Err(EdgeRefusal::NodeOutOfRange);
        }
        let place = self.edge_count();
        if self.edges.reserve(1).is_err() {
            return Err(EdgeRefusal::Memory);
        }
        if self.leaving.push(edge.from, place).is_err() {
            return Err(EdgeRefusal::Memory);
        }
        if self.entering.push(edge.to, place).is_err() {
            self.leaving.pop(edge.from);
            return Err(EdgeRefusal::Memory);
        }
        let _ = self.edges.push(edge);
        Ok(())
    }

    /// An equal graph.
    pub fn copy(&self) -> Result<Self, AllocError>
        ensures { IfOk result (λ g. g ≡ self.now) }
    {
        let leaving = self.leaving.copy()?;
        let entering = self.entering.copy()?;
        Ok(Graph {
            nodes: self.nodes,
            edges: self.edges.clone()?,
            leaving,
            entering,
        })
    }
}
