//! What walks from one source cost at least, in a part that gains edges and loses the last of them again.
//!
//! A label is the cost of the cheapest walk, or the cap. A new edge lowers the label of the node to which it leads, and
//! from there Dijkstra's method goes on as far as labels fall. What each label was before is kept with the number of the
//! step, so going back puts it there again, the last change first. Each change names its edge and the change that gave the
//! start of the edge its label, so a walk that costs what the label says is read off by going back over them.

ghost use Rattle.std.specs.Prelude.{◌≡◌, ◌+◌, ◌<◌, ◌≤◌, ◌==◌, ◌&&◌, ◌⊎◌, ◌∷◌, [], ℕ, Bool, List, All, IfOk, IsTrue, OnOk, OnErr, length, replicate, slice_set};
ghost use Rattle.mono_graph.specs.Digraph.{Digraph, edge_at, present, IsPartOf};
ghost use Rattle.mono_graph.specs.Walks.{is_walk, cost_along};
ghost use Rattle.mono_dynamic.specs.Arrivals.{IsGrown, GrowsAfter};
ghost use Rattle.mono_dynamic.specs.Costs.{label_of, labels_after, made_by, AreLeast, AreLeastAlong, IsLater};
ghost use Rattle.mono_dynamic.specs.Ways.{gives_label as gives_label_by, is_lightest as is_lightest_by, AreCostsFrom, AreLightest};

use crate::change::Change;
use crate::cost_source::CostSource;
use crate::cost_table::{CostTable, walk_back};
use crate::part_after::PartAfter;
use crate::relaxation::Relaxation;
use crate::row::SourceRow;
use mono_base::limits::MAX_BOUND;
use mono_graph::{Edge, Graph, Limit, Part};
use std::alloc::{AllocError, Global};
use std::collections::BinaryHeap;
use std::marker::Model;

/// The least costs of walks from one source, after each number of steps by which the part grew.
///
/// Contracts see what walks cost, the cap, the labels by node, and the changes that led to them. `new`, `grow`
/// and `walk_to` take memory.
#[derive(Drop)]
pub struct LeastCosts {
    relaxation: Relaxation,
}

impl Model for LeastCosts {
    ghost use Rattle.mono_dynamic.specs.Costs.{Costs};

    ghost Value = { Costs };

    ghost view = { λ s. s.relaxation.table };
}

impl LeastCosts {
    /// Label 0 at the source, and the cap at each other node: so it is in a part with no edge.
    ///
    /// The limit says what a walk costs; its bound doesn't matter. The cap is at most one above [`MAX_BOUND`].
    pub fn new(
        alloc: Global,
        nodes: u32,
        source: u32,
        limit: Limit,
        cap: u64,
    ) -> Result<Self, AllocError>
        requires source { source < nodes }
        requires cap { cap ≤ MAX_BOUND + 1 }
        ensures { IfOk result (λ s. s ≡ record { limit = limit; cap = cap; labels = slice_set (replicate nodes cap) source 0; changes = [] }) }
    {
        let source = CostSource {
            node: source,
            limit,
            cap,
        };
        let table = CostTable::new(alloc, nodes, source)?;
        let queue = BinaryHeap::new(alloc);
        Ok(LeastCosts {
            relaxation: Relaxation { table, queue },
        })
    }

    /// The label of a node.
    pub fn label(&self, node: u32) -> u64
        requires { node < length self.now.labels }
        ensures label { result ≡ label_of self.now.labels node }
        ensures most { result ≤ self.now.cap }
    {
        self.relaxation.table.label(node)
    }

    /// The label that a node had after so many steps. It costs the later changes of this node.
    pub fn label_after(&self, node: u32, kept: u32) -> u64
        requires { node < length self.now.labels }
        ensures { result ≡ label_of (labels_after kept self.now) node }
    {
        self.relaxation.table.given_after(node, kept).label
    }

    /// A walk to a node, where its label was below the cap after so many steps. It is a walk in the part as it was then, and
    /// costs what that label was.
    pub fn walk_to(&self, alloc: Global, node: u32, kept: u32) -> Result<Vec<u32>, AllocError>
        requires node { node < length self.now.labels }
        ensures { IfOk result (λ walk. label_of (labels_after kept self.now) node < self.now.cap
            → (g : Digraph) (parts : ℕ → List Bool) (n u : ℕ) → kept ≤ n → AreLeastAlong g parts n u self.now
            → IsTrue (is_walk g (parts kept) u node walk.items)
            × (cost_along self.now.limit g walk.items ≡ label_of (labels_after kept self.now) node)) }
    {
        let given = self.relaxation.table.given_after(node, kept);
        let walk = walk_back(alloc, self.relaxation.table.changes(), given.last)?;
        Ok(walk)
    }

    /// The changes of labels, in order: what a step lowered stands at the end.
    pub fn changes(&self) -> &[Change]
        ensures changes { result.now ≡ self.now.changes }
        ensures known { All (λ c. c.node < length self.now.labels) result.now }
    {
        self.relaxation.table.changes()
    }

    /// Edges have come into the part, with the step of this number. Labels that they lower are lowered. Where memory is
    /// missing, all is as before.
    ///
    /// It costs the places, the nodes whose labels fall and the edges that leave them, each as often as its label falls.
    pub fn grow(
        &mut self,
        graph: &Graph,
        part: &Part,
        places: &[u32],
        stamp: u32,
    ) -> Result<(), AllocError>
        requires size { length self.old.labels ≡ graph.now.nodes }
        requires part { IsPartOf part.now graph.now }
        requires places { All (λ k. k < length graph.now.edges) places.now }
        requires stamps { All (λ c. c.stamp ≤ stamp) self.old.changes }
        ensures later { IsLater stamp self.old self.new }
        ensures unchanged { OnErr result (self.new ≡ self.old) }
        ensures stamps { All (λ c. c.stamp ≤ stamp) self.new.changes }
        ensures earlier { (m : ℕ) → m < stamp → labels_after m self.new ≡ labels_after m self.old }
        ensures least { OnOk result ((u : ℕ) (P : List Bool) → AreLeast graph.now P self.old.limit u self.old.cap self.old.labels
            → IsGrown P part.now places.now → AreLeast graph.now part.now self.old.limit u self.old.cap self.new.labels) }
        ensures along { OnOk result ((parts : ℕ → List Bool) (n u : ℕ) → AreLeastAlong graph.now parts n u self.old
            → GrowsAfter parts n stamp part.now places.now → AreLeastAlong graph.now parts stamp u self.new) }
    {
        // The edges of a graph lead between its nodes.
        graph.known();
        let count = self.relaxation.table.change_count();
        let step = PartAfter { graph, part, stamp };
        match self.relaxation.relax_from(&step, places) {
            Ok(()) => Ok(()),
            Err(error) => {
                self.relaxation.table.undo_to(count);
                Err(error)
            }
        }
    }

    /// Goes back to the labels after so many steps. It costs the changes that it takes back.
    pub fn undo_to(&mut self, kept: u32)
        ensures restored { self.new ≡ record self.old { labels = labels_after kept self.old; changes = made_by kept self.old.changes } }
        ensures along { (g : Digraph) (parts : ℕ → List Bool) (n u : ℕ) → kept ≤ n → AreLeastAlong g parts n u self.old
            → AreLeastAlong g parts kept u self.new }
    {
        let count = self.relaxation.table.count_by(kept);
        self.relaxation.table.undo_to(count);
    }
}

impl LeastCosts {
    /// Forgets what was found, and finds the least costs in a part anew. Where memory is missing, some labels may be too great.
    ///
    /// It costs what it forgets, the nodes whose labels fall and the edges that leave them.
    pub(crate) fn search(
        &mut self,
        graph: &Graph,
        part: &Part,
        source: u32,
    ) -> Result<(), AllocError>
        requires from { AreCostsFrom graph.now.nodes source self.old }
        requires part { IsPartOf part.now graph.now }
        ensures from { AreCostsFrom graph.now.nodes source self.new }
        ensures limit { self.new.limit ≡ self.old.limit }
        ensures cap { self.new.cap ≡ self.old.cap }
        ensures least { OnOk result (AreLeast graph.now part.now self.old.limit source self.old.cap self.new.labels) }
    {
        // The edges of a graph lead between its nodes.
        graph.known();
        self.relaxation.table.undo_to(0);
        let step = PartAfter {
            graph,
            part,
            stamp: 0,
        };
        self.relaxation.relax_from(&step, graph.leaving(source))?;
        Ok(())
    }

    /// Whether an edge gives the node to which it leads its label.
    fn gives_label(&self, edge: Edge) -> bool
        requires from { edge.from < length self.now.labels }
        requires to { edge.to < length self.now.labels }
        ensures { result ≡ gives_label_by self.now.limit self.now.labels edge }
    {
        let start = self.relaxation.table.label(edge.from);
        let end = self.relaxation.table.label(edge.to);
        end >= start && end - start == self.relaxation.table.cost_of(edge)
    }

    /// Whether the edge at a place is present, and gives the node to which it leads its label.
    fn is_lightest(&self, graph: &Graph, part: &Part, place: u32) -> bool
        requires size { length self.now.labels ≡ graph.now.nodes }
        requires part { IsPartOf part.now graph.now }
        requires place { place < length graph.now.edges }
        ensures { result ≡ is_lightest_by graph.now part.now self.now.limit self.now.labels place }
    {
        part.has(place) && self.gives_label(graph.edge(place))
    }

    /// Puts those edges into a part that leave the node, are present, and give the nodes to which they lead their labels.
    fn put_leaving(&self, graph: &Graph, part: &Part, node: u32, light: &mut Part)
        requires size { length self.now.labels ≡ graph.now.nodes }
        requires part { IsPartOf part.now graph.now }
        requires node { node < graph.now.nodes }
        requires light { IsPartOf light.old graph.now }
        ensures light { IsPartOf light.new graph.now }
        ensures more { (k : ℕ) → IsTrue (present light.old k) → IsTrue (present light.new k) }
        ensures only { (k : ℕ) → IsTrue (present light.new k)
            → IsTrue (present light.old k) ⊎ IsTrue (is_lightest_by graph.now part.now self.now.limit self.now.labels k) }
        ensures put { (k : ℕ) → k < length graph.now.edges → (edge_at graph.now k).from ≡ node
            → IsTrue (is_lightest_by graph.now part.now self.now.limit self.now.labels k) → IsTrue (present light.new k) }
    {
        for place in graph.leaving(node) {
            light.put_if(*place, self.is_lightest(graph, part, *place));
        }
    }

    /// The part of the edges that give the nodes to which they lead their labels: walks of them from the source cost the least.
    ///
    /// It costs the nodes that have labels and the edges that leave them, beside room for the part.
    pub(crate) fn lightest_part(
        &self,
        alloc: Global,
        graph: &Graph,
        part: &Part,
        source: u32,
    ) -> Result<Part, AllocError>
        requires from { AreCostsFrom graph.now.nodes source self.now }
        requires part { IsPartOf part.now graph.now }
        ensures { IfOk result (AreLightest graph.now part.now self.now.limit self.now.cap self.now.labels) }
    {
        // The edges of a graph lead between its nodes.
        graph.known();
        let mut light = Part::none(alloc, graph.edge_count())?;
        self.put_leaving(graph, part, source, &mut light);
        for change in self.relaxation.table.changes() {
            if change.label != self.label(change.node) {
                // The label fell once more.
                continue;
            }
            self.put_leaving(graph, part, change.node, &mut light);
        }
        Ok(light)
    }
}

impl SourceRow for LeastCosts {
    ghost use Rattle.mono_dynamic.specs.Costs.{made_after};
    ghost use Rattle.mono_dynamic.specs.LeastRows.{costs_from, IsBackCosts, IsCostRow, IsGrownCosts};

    type Change = Change;

    ghost at_first = { costs_from };

    ghost fits = { IsCostRow };

    ghost grown = { λ g Q ks looked. IsGrownCosts g Q ks (looked + 1) };

    ghost undone = { IsBackCosts };

    ghost changed_after = { λ kept t. made_after kept t.changes };

    fn new(alloc: Global, nodes: u32, source: CostSource) -> Result<Self, AllocError> {
        LeastCosts::new(alloc, nodes, source.node, source.limit, source.cap)
    }

    fn grow(
        &mut self,
        graph: &Graph,
        part: &Part,
        places: &[u32],
        looked: u32,
    ) -> Result<(), AllocError> {
        LeastCosts::grow(self, graph, part, places, looked + 1)
    }

    fn undo_to(&mut self, kept: u32) {
        LeastCosts::undo_to(self, kept);
    }

    fn changes_after(&self, kept: u32) -> &[Change] {
        let count = self.relaxation.table.count_by(kept);
        &self.relaxation.table.changes()[count..]
    }
}
