//! The test of orders of the nodes.
//!
//! A table holds for each node where it stands in the list. With it each present edge is one comparison, and a node that
//! isn't listed is one whose entry is the length of the list.

ghost use Rattle.std.specs.Prelude.{◌≡◌, ◌<◌, ℕ, All, IfOk, IsTrue, length, nat_lt, slice_index};
ghost use Rattle.std.specs.List.{list_all, range_with_len};
ghost use Rattle.mono_graph.specs.Digraph.{IsPartOf, is_distinct};
ghost use Rattle.mono_graph.specs.Cycles.{all_rise as all_rise_of, is_order as is_order_of, rank_in};

use mono_graph::{Graph, Part};
use std::alloc::{AllocError, Global};
use std::marker::Model;

/// Writes for each node into the table where it stands in the list, from 0, or the length of the list where it isn't listed.
/// Whether no node is listed twice: where one is, the table isn't of use.
///
/// It costs the table and the list.
pub fn rank(ranks: &mut [usize], nodes: &[u32]) -> bool
    requires { All (λ u. u < length ranks.old) nodes.now }
    ensures once { result ≡ is_distinct nodes.now }
    ensures ranks { IsTrue result → (u : ℕ) → u < length ranks.old → slice_index ranks.new u ≡ rank_in nodes.now u }
{
    ranks.fill(nodes.len());
    for (at, node) in nodes.iter().enumerate() {
        if ranks[*node as usize] < nodes.len() {
            return false;
        }
        ranks[*node as usize] = at;
    }
    true
}

/// Whether all ranks are below a limit.
fn all_below(ranks: &[usize], limit: usize) -> bool
    ensures { result ≡ list_all (λ u. nat_lt (slice_index ranks.now u) limit) (range_with_len 0 (length ranks.now)) }
{
    for node in 0..ranks.len() {
        if ranks[node] >= limit {
            return false;
        }
    }
    true
}

/// Whether each present edge leads to a greater rank.
fn all_rise(graph: &Graph, part: &Part, ranks: &[usize]) -> bool
    requires part { IsPartOf part.now graph.now }
    requires ranks { length ranks.now ≡ graph.now.nodes }
    ensures { result ≡ all_rise_of graph.now part.now (λ u. slice_index ranks.now u) }
{
    for place in 0..graph.edge_count() {
        let edge = graph.edge(place);
        if part.has(place) && ranks[edge.from as usize] >= ranks[edge.to as usize] {
            return false;
        }
    }
    true
}

/// Tests orders of the nodes of graphs with one number of nodes, which is its value. Its call takes no memory.
#[derive(Drop)]
pub struct OrderChecker {
    /// By node: its place in the list.
    ranks: Vec<usize>,
}

impl Model for OrderChecker {
    ghost use Rattle.std.specs.Prelude.{ℕ, length};

    ghost Value = { ℕ };

    ghost view = { λ c. length c.ranks.items };
}

impl OrderChecker {
    /// A checker for graphs with this many nodes.
    pub fn new(alloc: Global, nodes: u32) -> Result<Self, AllocError>
        ensures { IfOk result (λ checker. checker ≡ nodes) }
    {
        Ok(OrderChecker {
            ranks: vec![in alloc; 0; nodes as usize]?,
        })
    }

    /// What [`is_order`] answers.
    pub fn is_order(&mut self, graph: &Graph, part: &Part, nodes: &[u32]) -> bool
        requires checker { self.old ≡ graph.now.nodes }
        requires part { IsPartOf part.now graph.now }
        requires nodes { All (λ u. u < graph.now.nodes) nodes.now }
        ensures passes { result ≡ is_order_of graph.now part.now nodes.now }
        ensures checker { self.new ≡ self.old }
    {
        holds(graph, part, &mut self.ranks, nodes)
    }
}

fn holds(graph: &Graph, part: &Part, ranks: &mut [usize], nodes: &[u32]) -> bool
    requires part { IsPartOf part.now graph.now }
    requires nodes { All (λ u. u < graph.now.nodes) nodes.now }
    requires ranks { length ranks.old ≡ graph.now.nodes }
    ensures { result ≡ is_order_of graph.now part.now nodes.now }
{
    // The edges of a graph lead between its nodes.
    graph.known();
    if !rank(ranks, nodes) {
        return false;
    }
    if !all_below(ranks, nodes.len()) {
        return false;
    }
    all_rise(graph, part, ranks)
}

/// Whether every node is listed once, and each present edge begins before it ends in the list: where it is so, there is no
/// cycle of present edges. An edge from a node to itself never does.
///
/// It costs the nodes and the edges. `Err` is want of memory.
pub fn is_order(
    alloc: Global,
    graph: &Graph,
    part: &Part,
    nodes: &[u32],
) -> Result<bool, AllocError>
    requires part { IsPartOf part.now graph.now }
    requires nodes { All (λ u. u < graph.now.nodes) nodes.now }
    ensures { IfOk result (λ passes. passes ≡ is_order_of graph.now part.now nodes.now) }
{
    Ok(OrderChecker::new(alloc, graph.nodes())?.is_order(graph, part, nodes))
}
