//! An order of the nodes that is kept while edges come (Marchetti-Spaccamela, Nanni and Rohnert 1996).
//!
//! Each present edge leads to a greater rank. An edge from x to y that comes and doesn't is mended: the nodes from which
//! walks lead to x, no further back than to the rank of y, are put before the others from the rank of y to that of x. If y is
//! among them, the edge closes a cycle. Where edges go, nothing is to be done: an order of a part is one of each smaller part.

ghost use Rattle.std.specs.Prelude.{◌≡◌, ◌<◌, ◌≤◌, ◌+◌, ℕ, Bool, List, [], true, false, IfOk, IsTrue, length, slice_index, vec_capacity};
ghost use Rattle.mono_graph.specs.Digraph.{Digraph, IsPartOf, edge_at, has, present};
ghost use Rattle.mono_graph.specs.Cycles.{is_cycle, is_order};
ghost use Rattle.mono_cycles.specs.Searches.{IsStep};
ghost use Rattle.mono_cycles.specs.Behind.{AreBehind};
ghost use Rattle.mono_cycles.specs.Kept.{IsGrownBy};

use crate::arrange::arrange;
use crate::behind::Behind;
use mono_base::limits::MAX_NODES;
use mono_base::numbers_below;
use mono_graph::{Graph, Part};
use std::alloc::{AllocError, Global};
use std::marker::Model;

/// An order of the nodes of a graph. Contracts see it, and the cycle that an edge
/// closed last. Only `new` takes memory.
pub struct KeptOrder {
    order: Vec<u32>,
    /// By node: where it stands in the order.
    ranks: Vec<u32>,
    /// What the search for an edge finds. Nothing is marked between two searches.
    behind: Behind,
    buffer: Vec<u32>,
    cycle: Vec<u32>,
}

impl Drop for KeptOrder {
    fn drop(self) {
        let KeptOrder {
            order: _,
            ranks: _,
            behind: _,
            buffer: _,
            cycle: _,
        } = self;
    }
}

impl Model for KeptOrder {
    ghost use Rattle.mono_cycles.specs.Kept.{Kept, shown, IsKeptOrder};

    ghost Value = { Kept };

    ghost view = { shown };

    ghost invariant = { IsKeptOrder };
}

/// The cycle of an edge from the target to a node that was found, the way on from there, and the edge back to the target.
fn close(
    graph: &Graph,
    part: &Part,
    behind: &Behind,
    closing: u32,
    place: u32,
    cycle: &mut Vec<u32>,
)
    requires behind { AreBehind graph.now part.now behind.now }
    requires closing { IsStep graph.now part.now closing (edge_at graph.now place).to (edge_at graph.now closing).to }
    requires found { IsTrue (has behind.now.nodes.items (edge_at graph.now closing).to) }
    requires place { IsStep graph.now part.now place (slice_index behind.now.nodes.items 0) (edge_at graph.now place).to }
    requires room { graph.now.nodes + 1 ≤ vec_capacity cycle.old }
    ensures cycle { IsTrue (is_cycle graph.now part.now cycle.new.items) }
    ensures capacity { vec_capacity cycle.old ≤ vec_capacity cycle.new }
{
    // The edges of a graph lead between its nodes.
    graph.known();
    cycle.clear();
    cycle.push_reserved(closing);
    behind.walk_on(graph, part, graph.edge(closing).to, cycle);
    cycle.push_reserved(place);
}

impl KeptOrder {
    /// An order of this many nodes, at most [`MAX_NODES`], where no edge is present, and no cycle.
    pub fn new(alloc: Global, nodes: u32) -> Result<Self, AllocError>
        requires { nodes ≤ MAX_NODES }
        ensures size { IfOk result (λ kept. length kept.order ≡ nodes) }
        ensures no_cycle { IfOk result (λ kept. kept.cycle ≡ []) }
        ensures order { IfOk result (λ kept. (g : Digraph) (P : List Bool) → g.nodes ≡ nodes → ((k : ℕ) → present P k ≡ false)
            → IsTrue (is_order g P kept.order)) }
    {
        Ok(KeptOrder {
            order: numbers_below(alloc, nodes)?,
            ranks: numbers_below(alloc, nodes)?,
            behind: Behind::new(alloc, nodes)?,
            buffer: Vec::with_capacity(alloc, nodes as usize)?,
            cycle: Vec::with_capacity(alloc, nodes as usize + 1)?,
        })
    }

    /// The edge at a place, from 0, has come into the part. Whether there is still an order, which is kept then. Otherwise
    /// the edge closes a cycle, and the order stays. The cycle that an edge closed last stays until another edge closes one.
    ///
    /// An edge that agrees with the order costs nothing; any other one costs the nodes between its ends in the order, and
    /// the edges that enter those from which walks lead to where it begins.
    pub fn grow(&mut self, graph: &Graph, part: &Part, place: u32) -> bool
        requires size { length self.old.order ≡ graph.now.nodes }
        requires part { IsPartOf part.now graph.now }
        requires place { place < length graph.now.edges }
        requires here { IsTrue (present part.now place) }
        ensures size { length self.new.order ≡ length self.old.order }
        ensures order { IsTrue result → (P : List Bool) → IsTrue (is_order graph.now P self.old.order) → IsGrownBy P part.now place
            → IsTrue (is_order graph.now part.now self.new.order) }
        ensures cycle { result ≡ false → IsTrue (is_cycle graph.now part.now self.new.cycle) }
        ensures stays { result ≡ false → self.new.order ≡ self.old.order }
        ensures cycle_stays { IsTrue result → self.new.cycle ≡ self.old.cycle }
    {
        // The edges of a graph lead between its nodes.
        graph.known();
        let edge = graph.edge(place);
        let low = self.ranks[edge.to as usize];
        let high = self.ranks[edge.from as usize];
        if high < low {
            return true;
        }
        if edge.from == edge.to {
            self.cycle.clear();
            self.cycle.push_reserved(place);
            return false;
        }
        self.behind.begin(graph, part, edge.from);
        let found = self.behind.search(graph, part, &self.ranks, low, edge.to);
        match found {
            Some(closing) => {
                close(graph, part, &self.behind, closing, place, &mut self.cycle);
                self.behind.forget();
                false
            }
            None => {
                arrange(
                    &mut self.order,
                    &mut self.ranks,
                    &self.behind.marks,
                    &mut self.buffer,
                    low,
                    high,
                );
                self.behind.forget();
                true
            }
        }
    }

    /// The order: every node once, so that each present edge begins before it ends.
    pub fn order(&self) -> &[u32]
        ensures { result.now ≡ self.now.order }
    {
        &self.order
    }

    /// The cycle that an edge closed last.
    pub fn cycle(&self) -> &[u32]
        ensures { result.now ≡ self.now.cycle }
    {
        &self.cycle
    }
}
