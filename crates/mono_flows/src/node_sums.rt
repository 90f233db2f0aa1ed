//! By node, what a list of amounts makes leave it and enter it.
//!
//! Each function goes over the list, and none over the graph: at a node that the list doesn't name both sums are 0, so
//! it is balanced. Amounts are at most the weights of their edges, and there are at most as many as edges, so a sum may
//! need 84 bits: it has 128.

ghost use Rattle.std.specs.Prelude.{◌≡◌, ◌<◌, ◌≤◌, ◌+◌, ◌^◌, ◌-ℤ◌, pos, All, IfOk, IfSome, length, slice_index_or, int_le};
ghost use Rattle.std.specs.List.{list_all};
ghost use Rattle.mono_flows.specs.Listed.{has_balanced_ends, is_balanced_at as is_balanced_node};
ghost use Rattle.mono_flows.specs.Sums.{AreSmall, AreSums, AreZero, AreSumsOf, MayBeSumsOf};

use crate::network::Network;
use mono_base::limits::{MAX_EDGES, MAX_WEIGHT};
use mono_graph::{Amount, Graph};
use std::alloc::{AllocError, Global};

/// By node, how much leaves it and how much enters it.
#[derive(Drop)]
pub(crate) struct NodeSums {
    pub leaving: Vec<u128>,
    pub entering: Vec<u128>,
}

/// Whether at least `least` more leaves than enters.
fn is_enough(leaving: u128, entering: u128, least: i64) -> bool
    requires leaving { leaving < 2 ^ 120 }
    requires entering { entering < 2 ^ 120 }
    ensures { result ≡ int_le least (pos leaving -ℤ pos entering) }
{
    (leaving as i128) - (entering as i128) >= i128::from(least)
}

impl NodeSums {
    /// Nothing leaves or enters any of this many nodes.
    pub fn new(alloc: Global, nodes: u32) -> Result<Self, AllocError>
        ensures { IfOk result (AreZero nodes) }
    {
        Ok(NodeSums {
            leaving: vec![in alloc; 0; nodes as usize]?,
            entering: vec![in alloc; 0; nodes as usize]?,
        })
    }

    /// Adds each amount at the ends of its edge.
    pub fn add_amounts(&mut self, graph: &Graph, amounts: &[Amount])
        requires known { All (λ a. a.edge < length graph.now.edges) amounts.now }
        requires few { length amounts.now ≤ MAX_EDGES }
        requires small { All (λ a. a.amount ≤ MAX_WEIGHT) amounts.now }
        requires zero { AreZero graph.now.nodes self.old }
        ensures sums { AreSums graph.now.nodes self.new }
        ensures listed { AreSumsOf graph.now amounts.now self.new }
        ensures small { AreSmall self.new }
    {
        for amount in amounts {
            let edge = graph.edge(amount.edge);
            let carried = u128::from(amount.amount);
            self.leaving[edge.from as usize] += carried;
            self.entering[edge.to as usize] += carried;
        }
    }

    /// Whether the node is the source or the sink, or as much enters it as leaves it.
    fn is_balanced_at(&self, network: &Network, node: u32) -> bool
        requires sums { AreSums network.now.graph.now.nodes self.now }
        requires node { node < network.now.graph.now.nodes }
        ensures { result ≡ is_balanced_node self.now.leaving.items self.now.entering.items network.now.source network.now.sink node }
    {
        node == network.source
            || node == network.sink
            || self.entering[node as usize] == self.leaving[node as usize]
    }

    /// Whether the ends of every listed edge are balanced, the source and the sink left out.
    pub fn are_balanced(&self, network: &Network, amounts: &[Amount]) -> bool
        requires sums { AreSums network.now.graph.now.nodes self.now }
        requires known { All (λ a. a.edge < length network.now.graph.now.edges) amounts.now }
        ensures { result
            ≡ list_all (has_balanced_ends network.now.graph.now self.now.leaving.items self.now.entering.items network.now.source network.now.sink)
            amounts.now }
    {
        for amount in amounts {
            let edge = network.graph.edge(amount.edge);
            if !self.is_balanced_at(network, edge.from) || !self.is_balanced_at(network, edge.to) {
                return false;
            }
        }
        true
    }

    /// Whether at least `least` more leaves the node than enters it.
    pub fn is_enough_at(&self, node: u32, least: i64) -> bool
        requires leaving { node < length self.now.leaving.items }
        requires entering { node < length self.now.entering.items }
        requires small { AreSmall self.now }
        ensures { result ≡ int_le least (pos (slice_index_or self.now.leaving.items node 0) -ℤ pos (slice_index_or self.now.entering.items node 0)) }
    {
        is_enough(
            self.leaving[node as usize],
            self.entering[node as usize],
            least,
        )
    }

    /// How much more leaves the node than enters it, if not less does and 64 bits hold it.
    pub fn surplus_at(&self, node: u32) -> Option<u64>
        requires leaving { node < length self.now.leaving.items }
        requires entering { node < length self.now.entering.items }
        ensures { IfSome result (λ value. slice_index_or self.now.leaving.items node 0 ≡ slice_index_or self.now.entering.items node 0 + value) }
    {
        let leaving = self.leaving[node as usize];
        let entering = self.entering[node as usize];
        if leaving < entering || leaving - entering > u128::from(u64::MAX) {
            return None;
        }
        Some((leaving - entering) as u64)
    }

    /// Sets the sums at the ends of the listed edges back to 0.
    pub fn clear(&mut self, graph: &Graph, amounts: &[Amount])
        requires known { All (λ a. a.edge < length graph.now.edges) amounts.now }
        requires sums { AreSums graph.now.nodes self.old }
        requires listed { MayBeSumsOf graph.now amounts.now self.old }
        ensures { AreZero graph.now.nodes self.new }
    {
        for amount in amounts {
            let edge = graph.edge(amount.edge);
            self.leaving[edge.from as usize] = 0;
            self.entering[edge.to as usize] = 0;
        }
    }
}
