//! Finds a cycle, or an order of the nodes that shows that there is none.
//!
//! A search goes back along the edges, depth first, from each node that isn't done yet. Each search ends with a cycle, or
//! with all nodes done from which walks lead to its root. So where none closes a cycle, the order in which the nodes were done has
//! each of them once, and each present edge begins before it ends there (Tarjan 1972).

ghost use Rattle.std.specs.Prelude.{◌≡◌, IfOk};
ghost use Rattle.mono_graph.specs.Digraph.{IsPartOf};
ghost use Rattle.mono_cycles.specs.Searches.{HasRoom};
ghost use Rattle.mono_cycles.specs.Found.{IsCycleOrOrder, HasKnownNames};

use crate::search::CycleSearch;
use mono_graph::{Graph, Part};
use std::alloc::{AllocError, Global};
use std::marker::Model;

/// A cycle, or an order that shows that there is none. Edges are given by their places, from 0.
#[derive(Drop)]
pub enum CycleOrOrder {
    /// Present edges that form a nonempty walk from a node to itself, in walking order.
    Cycle(Vec<u32>),
    /// Every node once, so that each present edge begins before it ends in the list.
    Order(Vec<u32>),
}

/// Finds cycles in graphs with one number of nodes, which is its value.
///
/// A search costs the nodes and the edges. The room for it is kept from call to call.
#[derive(Drop)]
pub struct CycleFinder {
    search: CycleSearch,
}

impl Model for CycleFinder {
    ghost use Rattle.std.specs.Prelude.{ℕ, length};
    ghost use Rattle.mono_cycles.specs.Searches.{HasRoom};

    ghost Value = { ℕ };

    ghost view = { λ f. length f.search.next.items };

    ghost invariant = { λ f. HasRoom (length f.search.next.items) f.search };
}

impl CycleFinder {
    /// A finder for graphs with this many nodes.
    pub fn new(alloc: Global, nodes: u32) -> Result<Self, AllocError>
        ensures { IfOk result (λ finder. finder ≡ nodes) }
    {
        Ok(CycleFinder {
            search: CycleSearch::new(alloc, nodes)?,
        })
    }

    /// What [`find_cycle`] gives.
    pub fn find_cycle(&mut self, graph: &Graph, part: &Part) -> Result<CycleOrOrder, AllocError>
        requires finder { self.old ≡ graph.now.nodes }
        requires part { IsPartOf part.now graph.now }
        ensures passes { IfOk result (IsCycleOrOrder graph.now part.now) }
        ensures known { IfOk result (HasKnownNames graph.now) }
        ensures finder { self.new ≡ self.old }
    {
        let alloc = *self.search.path.allocator();
        find(alloc, &mut self.search, graph, part)
    }
}

fn find(
    alloc: Global,
    search: &mut CycleSearch,
    graph: &Graph,
    part: &Part,
) -> Result<CycleOrOrder, AllocError>
    requires room { HasRoom graph.now.nodes search.old }
    requires part { IsPartOf part.now graph.now }
    ensures passes { IfOk result (IsCycleOrOrder graph.now part.now) }
    ensures known { IfOk result (HasKnownNames graph.now) }
    ensures room { HasRoom graph.now.nodes search.new }
{
    search.clear();
    for root in 0..graph.nodes() {
        if search.done[root as usize] {
            continue;
        }
        if let Some(cycle) = search.search_from(alloc, graph, part, root)? {
            return Ok(CycleOrOrder::Cycle(cycle));
        }
    }
    Ok(CycleOrOrder::Order(Vec::from_slice(alloc, &search.order)?))
}

/// A cycle of present edges, or an order of all nodes in which each present edge begins before it ends: where there is one,
/// there is no cycle.
///
/// It costs the nodes and the edges, by one depth first search. `Err` is want of memory.
pub fn find_cycle(alloc: Global, graph: &Graph, part: &Part) -> Result<CycleOrOrder, AllocError>
    requires part { IsPartOf part.now graph.now }
    ensures passes { IfOk result (IsCycleOrOrder graph.now part.now) }
    ensures known { IfOk result (HasKnownNames graph.now) }
{
    CycleFinder::new(alloc, graph.nodes())?.find_cycle(graph, part)
}
