//! Labels by node, and the absent edges along which they rise by more than the edge costs.
//!
//! A table has an entry for each node: one more than its label where it is listed, and 0 where it isn't. It is cleared by
//! the labels that were entered, so a call costs the edges at the listed nodes and not the graph.

ghost use Rattle.std.specs.Prelude.{◌≡◌, ◌<◌, ◌≤◌, ◌+◌, ◌++◌, ◌+ℤ◌, ℕ, pos, length, All, IfOk, slice_index_or};
ghost use Rattle.mono_graph.specs.Digraph.{IsPartOf, edge_at, leaving, entering};
ghost use Rattle.mono_graph.specs.Walks.{bound_of, label_at, is_tense};
ghost use Rattle.mono_paths.specs.Found.{HasBound};
ghost use Rattle.mono_theory.specs.Resting.{AreAbsent};
ghost use Rattle.mono_distance.specs.Labels.{entry_in, label_in, rises as rises_by, absent_rising, absent_at, absent_tense as absent_tense_of, AreSmall};

use mono_base::limits::{MAX_BOUND, MAX_WITNESS_VALUE};
use mono_graph::{Graph, Label, Limit, Part};
use std::alloc::{AllocError, Global};
use std::marker::Model;

/// Labels by node, over a part of a graph and a limit.
#[derive(Clone, Copy)]
struct Labelled<'a> {
    graph: &'a Graph,
    part: &'a Part,
    entries: &'a [u64],
    /// The label of the nodes that aren't listed.
    others: u64,
    limit: Limit,
    ghost part_of_graph: { IsPartOf part.now graph.now },
    ghost sized: { length entries.now ≡ graph.now.nodes },
    ghost small: { AreSmall entries.now others },
}

impl<'a> Labelled<'a> {
    /// The label of a node.
    fn label(&self, node: u32) -> u64
        requires { node < self.now.graph.now.nodes }
        ensures label { result ≡ label_in self.now.entries.now self.now.others node }
        ensures small { result ≤ MAX_WITNESS_VALUE }
    {
        match self.entries[node as usize] {
            0 => self.others,
            entry => entry - 1,
        }
    }

    /// Whether the labels rise along the edge by more than it costs.
    fn rises(&self, place: u32) -> bool
        requires { place < length self.now.graph.now.edges }
        ensures { result ≡ rises_by self.now.entries.now self.now.others self.now.limit (edge_at self.now.graph.now place) }
    {
        let edge = self.graph.edge(place);
        let start = self.label(edge.from);
        let end = self.label(edge.to);
        start < end && self.limit.cost_of(edge) < end - start
    }

    /// Adds those of the edges that are absent and along which the labels rise.
    fn push_rising(&self, places: &[u32], edges: &mut Vec<u32>) -> Result<(), AllocError>
        requires { All (λ k. k < length self.now.graph.now.edges) places.now }
        ensures { IfOk result (λ _. edges.new.items ≡ edges.old.items
            ++ absent_rising self.now.graph.now self.now.part.now self.now.entries.now self.now.others self.now.limit places.now) }
    {
        for place in places {
            if !self.part.has(*place) && self.rises(*place) {
                edges.push(*place)?;
            }
        }
        Ok(())
    }

    /// Adds those at a listed node. Into it they rise from a node that isn't listed only where its label is greater.
    fn push_at(&self, label: Label, edges: &mut Vec<u32>) -> Result<(), AllocError>
        requires { label.node < self.now.graph.now.nodes }
        ensures { IfOk result (λ _. edges.new.items ≡ edges.old.items
            ++ absent_at self.now.graph.now self.now.part.now self.now.entries.now self.now.others self.now.limit label) }
    {
        self.push_rising(self.graph.leaving(label.node), edges)?;
        if label.value > self.others {
            self.push_rising(self.graph.entering(label.node), edges)?;
        }
        Ok(())
    }

    /// Those at the listed nodes.
    fn absent_tense(&self, alloc: Global, labels: &[Label]) -> Result<Vec<u32>, AllocError>
        requires { All (λ l. l.node < self.now.graph.now.nodes) labels.now }
        ensures { IfOk result (λ edges. edges.items
            ≡ absent_tense_of self.now.graph.now self.now.part.now self.now.entries.now self.now.others self.now.limit labels.now) }
    {
        let mut edges = Vec::new(alloc);
        for label in labels {
            self.push_at(*label, &mut edges)?;
        }
        Ok(edges)
    }
}

/// Enters the labels, the first of a node last.
fn enter(entries: &mut Vec<u64>, labels: &[Label])
    requires within { All (λ l. l.node < length entries.old.items) labels.now }
    requires small { All (λ l. l.value ≤ MAX_WITNESS_VALUE) labels.now }
    requires clear { (u : ℕ) → slice_index_or entries.old.items u 0 ≡ 0 }
    ensures len { length entries.new.items ≡ length entries.old.items }
    ensures entered { (u : ℕ) → slice_index_or entries.new.items u 0 ≡ entry_in labels.now u }
{
    let mut at = labels.len();
    'back: while at > 0 {
        at -= 1;
        let label = labels[at];
        entries[label.node as usize] = label.value + 1;
    }
}

/// Clears the entries of the labels.
fn clear(entries: &mut Vec<u64>, labels: &[Label])
    requires within { All (λ l. l.node < length entries.old.items) labels.now }
    requires entered { (u : ℕ) → slice_index_or entries.old.items u 0 ≡ entry_in labels.now u }
    ensures len { length entries.new.items ≡ length entries.old.items }
    ensures clear { (u : ℕ) → slice_index_or entries.new.items u 0 ≡ 0 }
{
    for label in labels {
        entries[label.node as usize] = 0;
    }
}

/// The label of the nodes that aren't listed: one more than the bound.
pub(crate) fn others_of(limit: Limit) -> u64
    requires { HasBound limit }
    ensures value { pos result ≡ bound_of limit +ℤ pos 1 }
    ensures small { result ≤ MAX_BOUND + 1 }
{
    limit.cap()
}

/// An entry for each node of graphs with one number of nodes, which is what contracts see of it. No node is listed
/// between two calls.
#[derive(Drop)]
pub(crate) struct LabelTable {
    entries: Vec<u64>,
}

impl Model for LabelTable {
    ghost use Rattle.std.specs.Prelude.{ℕ, length};
    ghost use Rattle.mono_distance.specs.Labels.{IsUnlisted};

    ghost Value = { ℕ };

    ghost view = { λ t. length t.entries.items };

    ghost invariant = { λ t. IsUnlisted t.entries.items };
}

impl LabelTable {
    /// A table for graphs with this many nodes.
    pub(crate) fn new(alloc: Global, nodes: u32) -> Result<LabelTable, AllocError>
        ensures { IfOk result (λ table. table ≡ nodes) }
    {
        Ok(LabelTable {
            entries: vec![in alloc; 0; nodes as usize]?,
        })
    }

    /// The absent edges along which the labels rise by more than the edge costs.
    pub(crate) fn absent_tense(
        &mut self,
        alloc: Global,
        graph: &Graph,
        part: &Part,
        limit: Limit,
        labels: &[Label],
    ) -> Result<Vec<u32>, AllocError>
        requires size { self.old ≡ graph.now.nodes }
        requires part { IsPartOf part.now graph.now }
        requires limit { HasBound limit }
        requires labels { All (λ l. (l.node < graph.now.nodes) × (l.value ≤ MAX_WITNESS_VALUE)) labels.now }
        ensures size { self.new ≡ self.old }
        ensures edges { IfOk result (λ edges. AreAbsent (is_tense (label_at labels.now (bound_of limit)) limit) graph.now part.now edges.items) }
    {
        enter(&mut self.entries, labels);
        let others = others_of(limit);
        let labelled = Labelled {
            graph,
            part,
            entries: self.entries.as_slice(),
            others,
            limit,
        };
        let found = labelled.absent_tense(alloc, labels);
        clear(&mut self.entries, labels);
        found
    }
}
