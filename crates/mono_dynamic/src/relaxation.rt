//! Labels that are lowered along edges until each is tight (Dijkstra's method, from the edges that are new).
//!
//! An edge may weigh more than any label, so its weight is compared with what is left below the old label before it is
//! added.

ghost use Rattle.std.specs.Prelude.{◌≡◌, ◌<◌, ◌∷◌, [], ℕ, List, All, IfOk, length};
ghost use Rattle.std.specs.BinaryHeap.{heap_items};
ghost use Rattle.mono_dynamic.specs.Costs.{AreRelaxed, IsLater};
ghost use Rattle.mono_dynamic.specs.LeastRows.{IsCostRow};

use crate::change::Change;
use crate::cost_table::CostTable;
use crate::part_after::PartAfter;
use crate::waiting::Waiting;
use std::alloc::AllocError;
use std::collections::BinaryHeap;

/// Labels, and the nodes that wait for a look at the edges that leave them.
#[derive(Drop)]
pub struct Relaxation {
    pub table: CostTable,
    pub queue: BinaryHeap<Waiting>,
}

impl Relaxation {
    /// Lowers the label of the node to which the edge at a place leads, where the edge is present and asks for it. Then that
    /// node waits.
    fn relax(&mut self, step: &PartAfter, place: u32) -> Result<(), AllocError>
        requires row { IsCostRow step.now.graph.now.nodes step.now.stamp self.old.table }
        requires place { place < length step.now.graph.now.edges }
        ensures later { IsLater step.now.stamp self.old.table self.new.table }
        ensures relaxed { IfOk result (λ _. (remaining : List ℕ)
            → AreRelaxed step.now.graph.now step.now.part.now (place ∷ remaining) remaining self.old.table self.new.table
            (heap_items self.old.queue) (heap_items self.old.queue) (heap_items self.new.queue)) }
    {
        if !step.part.has(place) {
            return Ok(());
        }
        let edge = step.graph.edge(place);
        let start = self.table.label(edge.from);
        let old = self.table.label(edge.to);
        let cost = self.table.cost_of(edge);
        if old <= start || old - start <= cost {
            return Ok(());
        }
        let change = Change {
            node: edge.to,
            place,
            before: self.table.last(edge.from),
            previous: self.table.last(edge.to),
            old,
            label: start + cost,
            stamp: step.stamp,
        };
        self.table.lower(change)?;
        self.queue.push(Waiting {
            left: self.table.left(edge.to),
            node: edge.to,
        })?;
        Ok(())
    }

    /// Looks at edges one after another.
    fn relax_all(&mut self, step: &PartAfter, places: &[u32]) -> Result<(), AllocError>
        requires row { IsCostRow step.now.graph.now.nodes step.now.stamp self.old.table }
        requires places { All (λ k. k < length step.now.graph.now.edges) places.now }
        ensures later { IsLater step.now.stamp self.old.table self.new.table }
        ensures relaxed { IfOk result (λ _. AreRelaxed step.now.graph.now step.now.part.now places.now [] self.old.table self.new.table
            (heap_items self.old.queue) (heap_items self.old.queue) (heap_items self.new.queue)) }
    {
        for place in places {
            self.relax(step, *place)?;
        }
        Ok(())
    }

    /// Looks at the edges that leave a node that waited, unless its label is lower by now: then it waits once more.
    fn expand(&mut self, step: &PartAfter, next: Waiting) -> Result<(), AllocError>
        requires row { IsCostRow step.now.graph.now.nodes step.now.stamp self.old.table }
        requires node { next.node < step.now.graph.now.nodes }
        ensures later { IsLater step.now.stamp self.old.table self.new.table }
        ensures relaxed { IfOk result (λ _. AreRelaxed step.now.graph.now step.now.part.now [] [] self.old.table self.new.table
            (next ∷ heap_items self.old.queue) (heap_items self.old.queue) (heap_items self.new.queue)) }
    {
        if next.left != self.table.left(next.node) {
            return Ok(());
        }
        self.relax_all(step, step.graph.leaving(next.node))?;
        Ok(())
    }

    /// Looks at these edges, and at those of the nodes that wait, until none waits.
    pub fn relax_from(&mut self, step: &PartAfter, places: &[u32]) -> Result<(), AllocError>
        requires row { IsCostRow step.now.graph.now.nodes step.now.stamp self.old.table }
        requires places { All (λ k. k < length step.now.graph.now.edges) places.now }
        ensures later { IsLater step.now.stamp self.old.table self.new.table }
        ensures relaxed { IfOk result (λ _. AreRelaxed step.now.graph.now step.now.part.now places.now [] self.old.table self.new.table [] [] []) }
    {
        self.queue.clear();
        self.relax_all(step, places)?;
        while let Some(next) = self.queue.pop() {
            self.expand(step, next)?;
        }
        Ok(())
    }
}
