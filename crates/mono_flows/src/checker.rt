//! The tests of flows and of cuts, with room that is kept.
//!
//! All marks and sums are clear between two tests, and a test touches and clears only what its list names. So after the
//! checker was made, a test costs in proportion to its list, and a test of a cut also to the edges at its nodes.

ghost use Rattle.std.specs.Prelude.{◌≡◌, ◌<◌, ℕ, false, All, IfOk, IsTrue, length, slice_index_or};
ghost use Rattle.mono_graph.specs.Digraph.{IsPartOf, has};
ghost use Rattle.mono_graph.specs.Flows.{is_flow_of, is_flow_cut as is_flow_cut_of};
ghost use Rattle.mono_flows.specs.Listed.{edges_of};
ghost use Rattle.mono_flows.specs.Sums.{AreSums, AreZero, MayBeSumsOf};

use crate::cut::bounds_flows;
use crate::listed_edges::{mark_edges, unmark_edges};
use crate::network::Network;
use crate::node_sums::NodeSums;
use mono_graph::{Amount, Graph, Part, mark, unmark};
use std::alloc::{AllocError, Global};
use std::marker::Model;

/// Tests flows and cuts in graphs with one number of nodes and one of edges, which is what contracts see of it.
pub struct FlowChecker {
    /// By place: whether it was listed.
    listed: Vec<bool>,
    sums: NodeSums,
    /// By node: whether it is in the set, and whether what leaves it was counted.
    inside: Vec<bool>,
    counted: Vec<bool>,
}

impl Drop for FlowChecker {
    fn drop(self) {
        let FlowChecker {
            listed: _,
            sums: _,
            inside: _,
            counted: _,
        } = self;
    }
}

impl Model for FlowChecker {
    ghost use Rattle.mono_flows.specs.Checker.{Sizes, shown, IsClear};

    ghost Value = { Sizes };

    ghost view = { shown };

    ghost invariant = { IsClear };
}

impl FlowChecker {
    ghost use Rattle.mono_flows.specs.Checker.{sizes_of};

    /// A checker for graphs of this many nodes and edges.
    pub fn new(alloc: Global, nodes: u32, edges: u32) -> Result<Self, AllocError>
        ensures { IfOk result (λ checker. checker ≡ record { nodes = nodes; edges = edges }) }
    {
        Ok(FlowChecker {
            listed: vec![in alloc; false; edges as usize]?,
            sums: NodeSums::new(alloc, nodes)?,
            inside: vec![in alloc; false; nodes as usize]?,
            counted: vec![in alloc; false; nodes as usize]?,
        })
    }

    /// Whether no edge is listed twice, and the amounts are a flow in the part from the source to the sink: none exceeds
    /// its edge's weight, edges with a positive amount are present, as much enters each node but the two as leaves it,
    /// and at least `least` more leaves the source than enters it. An edge that isn't listed carries 0.
    pub fn is_flow(
        &mut self,
        graph: &Graph,
        part: &Part,
        source: u32,
        sink: u32,
        least: i64,
        amounts: &[Amount],
    ) -> bool
        requires checker { self.old ≡ sizes_of graph.now }
        requires part { IsPartOf part.now graph.now }
        requires source { source < graph.now.nodes }
        requires sink { sink < graph.now.nodes }
        requires known { All (λ a. a.edge < length graph.now.edges) amounts.now }
        ensures passes { result ≡ is_flow_of graph.now part.now source sink least amounts.now }
        ensures checker { self.new ≡ self.old }
    {
        let network = Network {
            graph,
            part,
            source,
            sink,
        };
        let passes = is_flow_in(&network, &mut self.listed, &mut self.sums, least, amounts);
        unmark_edges(&mut self.listed, amounts);
        self.sums.clear(graph, amounts);
        passes
    }

    /// Whether the set has the source and lacks the sink, and the present edges that leave it weigh below `least` in
    /// sum. A node may be listed again.
    pub fn is_flow_cut(
        &mut self,
        graph: &Graph,
        part: &Part,
        source: u32,
        sink: u32,
        least: i64,
        nodes: &[u32],
    ) -> bool
        requires checker { self.old ≡ sizes_of graph.now }
        requires part { IsPartOf part.now graph.now }
        requires source { source < graph.now.nodes }
        requires sink { sink < graph.now.nodes }
        requires nodes { All (λ u. u < graph.now.nodes) nodes.now }
        ensures passes { result ≡ is_flow_cut_of graph.now part.now source sink least nodes.now }
        ensures checker { self.new ≡ self.old }
    {
        let network = Network {
            graph,
            part,
            source,
            sink,
        };
        mark(&mut self.inside, nodes);
        let passes = bounds_flows(&network, &self.inside, &mut self.counted, least, nodes);
        unmark(&mut self.inside, nodes);
        unmark(&mut self.counted, nodes);
        passes
    }
}

/// Whether the amounts are a flow of at least `least`. What they name may be left marked and summed.
fn is_flow_in(
    network: &Network,
    listed: &mut Vec<bool>,
    sums: &mut NodeSums,
    least: i64,
    amounts: &[Amount],
) -> bool
    requires known { All (λ a. a.edge < length network.now.graph.now.edges) amounts.now }
    requires listed_len { length listed.old.items ≡ length network.now.graph.now.edges }
    requires listed_clear { (k : ℕ) → slice_index_or listed.old.items k false ≡ false }
    requires sums { AreZero network.now.graph.now.nodes sums.old }
    ensures passes { result ≡ is_flow_of network.now.graph.now network.now.part.now network.now.source network.now.sink least amounts.now }
    ensures listed_len { length listed.new.items ≡ length network.now.graph.now.edges }
    ensures listed { (k : ℕ) → IsTrue (slice_index_or listed.new.items k false) → IsTrue (has (edges_of amounts.now) k) }
    ensures sums_len { AreSums network.now.graph.now.nodes sums.new }
    ensures sums { MayBeSumsOf network.now.graph.now amounts.now sums.new }
{
    // A graph has few edges, so no sum overflows.
    network.graph.known();
    if !mark_edges(network, listed, amounts) {
        return false;
    }
    sums.add_amounts(network.graph, amounts);
    sums.are_balanced(network, amounts) && sums.is_enough_at(network.source, least)
}

/// Whether the amounts are a flow of at least `least`: `FlowChecker::is_flow` with room of its own.
pub fn is_flow(
    alloc: Global,
    graph: &Graph,
    part: &Part,
    source: u32,
    sink: u32,
    least: i64,
    amounts: &[Amount],
) -> Result<bool, AllocError>
    requires part { IsPartOf part.now graph.now }
    requires source { source < graph.now.nodes }
    requires sink { sink < graph.now.nodes }
    requires known { All (λ a. a.edge < length graph.now.edges) amounts.now }
    ensures { IfOk result (λ passes. passes ≡ is_flow_of graph.now part.now source sink least amounts.now) }
{
    let mut checker = FlowChecker::new(alloc, graph.nodes(), graph.edge_count())?;
    Ok(checker.is_flow(graph, part, source, sink, least, amounts))
}

/// Whether the set bounds every flow below `least`: `FlowChecker::is_flow_cut` with room of its own.
pub fn is_flow_cut(
    alloc: Global,
    graph: &Graph,
    part: &Part,
    source: u32,
    sink: u32,
    least: i64,
    nodes: &[u32],
) -> Result<bool, AllocError>
    requires part { IsPartOf part.now graph.now }
    requires source { source < graph.now.nodes }
    requires sink { sink < graph.now.nodes }
    requires nodes { All (λ u. u < graph.now.nodes) nodes.now }
    ensures { IfOk result (λ passes. passes ≡ is_flow_cut_of graph.now part.now source sink least nodes.now) }
{
    let mut checker = FlowChecker::new(alloc, graph.nodes(), graph.edge_count())?;
    Ok(checker.is_flow_cut(graph, part, source, sink, least, nodes))
}
