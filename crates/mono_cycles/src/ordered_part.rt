//! A part of a graph with an order of its nodes, to which edges come while they close no cycle, and from which they go.

ghost use Rattle.std.specs.Prelude.{◌≡◌, ◌<◌, ◌≤◌, ◌==◌, ◌||◌, ◌&&◌, ℕ, Bool, List, [], true, false, not, IfOk, IsTrue, length};
ghost use Rattle.mono_graph.specs.Digraph.{Digraph, IsPartOf, present};
ghost use Rattle.mono_graph.specs.Cycles.{is_cycle, is_order};
ghost use Rattle.mono_cycles.specs.Kept.{IsGrownBy};

use crate::KeptOrder;
use mono_base::limits::MAX_NODES;
use mono_graph::{Graph, Part};
use std::alloc::{AllocError, Global};
use std::marker::Model;

/// Edges without a cycle, and an order that shows it. Contracts see the part, the order and the cycle that an edge closed
/// last. Only `new` takes memory.
#[derive(Drop)]
pub struct OrderedPart {
    part: Part,
    kept: KeptOrder,
}

impl Model for OrderedPart {
    ghost use Rattle.mono_cycles.specs.Kept.{PartWithOrder};

    ghost Value = { PartWithOrder };

    ghost view = { λ o. record { part = o.part; order = o.kept.order; cycle = o.kept.cycle } };
}

impl OrderedPart {
    /// No edge and no cycle, in graphs with so many nodes, at most [`MAX_NODES`], and edges.
    pub fn new(alloc: Global, nodes: u32, edges: u32) -> Result<Self, AllocError>
        requires { nodes ≤ MAX_NODES }
        ensures size { IfOk result (λ o. length o.order ≡ nodes) }
        ensures part_size { IfOk result (λ o. length o.part ≡ edges) }
        ensures none { IfOk result (λ o. (k : ℕ) → present o.part k ≡ false) }
        ensures no_cycle { IfOk result (λ o. o.cycle ≡ []) }
        ensures order { IfOk result (λ o. (g : Digraph) → g.nodes ≡ nodes → IsTrue (is_order g o.part o.order)) }
    {
        Ok(OrderedPart {
            part: Part::none(alloc, edges)?,
            kept: KeptOrder::new(alloc, nodes)?,
        })
    }

    /// Puts an absent edge into the part, unless it closes a cycle. Whether it is there now. If it isn't, part and order are as
    /// before, and there is a cycle of the edges there and this one.
    pub fn insert(&mut self, graph: &Graph, place: u32) -> bool
        requires size { length self.old.order ≡ graph.now.nodes }
        requires part { IsPartOf self.old.part graph.now }
        requires place { place < length graph.now.edges }
        requires absent { present self.old.part place ≡ false }
        ensures size { length self.new.order ≡ length self.old.order }
        ensures part_size { length self.new.part ≡ length self.old.part }
        ensures part { IsTrue result → IsGrownBy self.old.part self.new.part place }
        ensures order { IsTrue result → IsTrue (is_order graph.now self.old.part self.old.order) → IsTrue (is_order graph.now self.new.part self.new.order) }
        ensures cycle { result ≡ false → (Q : List Bool) → IsGrownBy self.old.part Q place → IsTrue (is_cycle graph.now Q self.new.cycle) }
        ensures stays { result ≡ false → self.new.order ≡ self.old.order }
        ensures cycle_stays { IsTrue result → self.new.cycle ≡ self.old.cycle }
        ensures part_stays { result ≡ false → (k : ℕ) → present self.new.part k ≡ present self.old.part k }
    {
        self.part.put(place);
        if self.kept.grow(graph, &self.part, place) {
            return true;
        }
        self.part.take(place);
        false
    }

    /// Takes an edge out of the part. The order stays one.
    pub fn remove(&mut self, place: u32)
        requires { place < length self.old.part }
        ensures part_size { length self.new.part ≡ length self.old.part }
        ensures part { (k : ℕ) → present self.new.part k ≡ (not (k == place) && present self.old.part k) }
        ensures stays { self.new.order ≡ self.old.order }
        ensures cycle_stays { self.new.cycle ≡ self.old.cycle }
        ensures order { (g : Digraph) → IsTrue (is_order g self.old.part self.old.order) → IsTrue (is_order g self.new.part self.new.order) }
    {
        self.part.take(place);
    }

    /// The edges that are there.
    pub fn part(&self) -> &Part
        ensures { result.now ≡ self.now.part }
    {
        &self.part
    }

    /// The order: every node once, so that each edge that is there begins before it ends.
    pub fn order(&self) -> &[u32]
        ensures { result.now ≡ self.now.order }
    {
        self.kept.order()
    }

    /// The cycle that an edge would have closed last.
    pub fn cycle(&self) -> &[u32]
        ensures { result.now ≡ self.now.cycle }
    {
        self.kept.cycle()
    }
}
