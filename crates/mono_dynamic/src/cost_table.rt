//! Labels by node that are lowered, and raised again to what they were.

ghost use Rattle.std.specs.Prelude.{◌≡◌, ◌+◌, ◌-◌, ◌<◌, ◌≤◌, ◌++◌, ◌∷◌, [], ℕ, Bool, List, All, IfOk, IsTrue, OnOk, OnErr, length, take, drop, slice_set, vec_len};
ghost use Rattle.mono_graph.specs.Digraph.{Digraph};
ghost use Rattle.mono_graph.specs.Walks.{cost_of as cost_by, is_walk, cost_along};
ghost use Rattle.mono_graph.specs.declared.limit.Limit.{Limit};
ghost use Rattle.mono_dynamic.specs.Costs.{label_by, label_of, node_by, unwound, made_by, made_after, AreInOrder, AreLinked, IsGiven, IsLast, IsLed};
ghost use Rattle.mono_dynamic.specs.LeastRows.{costs_from, IsCostSource};

use crate::change::Change;
use crate::cost_source::CostSource;
use mono_base::limits::MAX_BOUND;
use mono_graph::{Edge, Limit};
use std::alloc::{AllocError, Global};
use std::marker::Model;

/// A label for each node, from 0 to a cap, and the changes that led to them.
pub struct CostTable {
    limit: Limit,
    cap: u64,
    labels: Vec<u64>,
    /// By node: which change gave it its label, counted from 1.
    latest: Vec<usize>,
    changes: Vec<Change>,
}

impl Drop for CostTable {
    fn drop(self) {
        let CostTable {
            limit: _,
            cap: _,
            labels: _,
            latest: _,
            changes: _,
        } = self;
    }
}

/// The label of a node after some steps, and which change gave it, counted from 1.
#[derive(Clone, Copy)]
pub struct Given {
    pub label: u64,
    pub last: usize,
}

impl Model for CostTable {
    ghost use Rattle.mono_dynamic.specs.Costs.{Costs, AreKept};

    ghost Value = { Costs };

    ghost view = { λ t. record { limit = t.limit; cap = t.cap; labels = t.labels.items; changes = t.changes.items } };

    ghost invariant = { λ t. AreKept t.cap t.labels.items t.changes.items t.latest.items };
}

/// Takes back all but the first changes.
fn undo_changes_to(
    labels: &mut Vec<u64>,
    latest: &mut Vec<usize>,
    changes: &mut Vec<Change>,
    count: usize,
)
    requires known { All (λ c. c.node < vec_len labels.old) changes.old.items }
    requires count { count ≤ vec_len changes.old }
    requires linked { AreLinked labels.old.items changes.old.items latest.old.items }
    ensures labels { labels.new.items ≡ unwound labels.old.items (drop count changes.old.items) }
    ensures changes { changes.new.items ≡ take count changes.old.items }
    ensures linked { AreLinked labels.new.items changes.new.items latest.new.items }
{
    while changes.len() > count {
        let change = changes[changes.len() - 1];
        labels[change.node as usize] = change.old;
        latest[change.node as usize] = change.previous;
        changes.truncate(changes.len() - 1);
    }
}

/// The walk that led to a change, by going back from change to change.
pub fn walk_back(alloc: Global, changes: &[Change], last: usize) -> Result<Vec<u32>, AllocError>
    requires ordered { AreInOrder changes.now }
    requires last { last ≤ length changes.now }
    ensures { IfOk result (λ walk. (g : Digraph) (P : List Bool) (limit : Limit) (u : ℕ) → ((i : ℕ) → i < last → IsLed g P limit u changes.now i)
        → IsTrue (is_walk g P u (node_by u changes.now last) walk.items) × (cost_along limit g walk.items ≡ label_by changes.now last)) }
{
    let mut walk = Vec::new(alloc);
    let mut at = last;
    while at > 0 {
        let change = changes[at - 1];
        walk.push(change.place)?;
        at = change.before;
    }
    walk.reverse();
    Ok(walk)
}

impl CostTable {
    /// Label 0 at the source, and the cap at each other node.
    pub fn new(alloc: Global, nodes: u32, source: CostSource) -> Result<Self, AllocError>
        requires { IsCostSource nodes source }
        ensures { IfOk result (λ t. t ≡ costs_from nodes source) }
    {
        let mut labels = vec![in alloc; source.cap; nodes as usize]?;
        labels[source.node as usize] = 0;
        let latest = vec![in alloc; 0; nodes as usize]?;
        Ok(CostTable {
            limit: source.limit,
            cap: source.cap,
            labels,
            latest,
            changes: Vec::new(alloc),
        })
    }

    /// The label of a node.
    pub fn label(&self, node: u32) -> u64
        requires { node < length self.now.labels }
        ensures label { result ≡ label_of self.now.labels node }
        ensures most { result ≤ self.now.cap }
        ensures bounded { self.now.cap ≤ MAX_BOUND + 1 }
    {
        self.labels[node as usize]
    }

    /// What the label of a node leaves of the cap.
    pub fn left(&self, node: u32) -> u64
        requires { node < length self.now.labels }
        ensures { result ≡ self.now.cap - label_of self.now.labels node }
    {
        self.cap - self.labels[node as usize]
    }

    /// What an edge counts.
    pub fn cost_of(&self, edge: Edge) -> u64
        ensures { result ≡ cost_by self.now.limit edge }
    {
        self.limit.cost_of(edge)
    }

    /// Which change gave a node its label, counted from 1; 0 if none did.
    pub fn last(&self, node: u32) -> usize
        requires { node < length self.now.labels }
        ensures { IsLast self.now.changes (length self.now.changes) node (label_of self.now.labels node) result }
    {
        self.latest[node as usize]
    }

    /// Lowers the label of a node.
    pub fn lower(&mut self, change: Change) -> Result<(), AllocError>
        requires node { change.node < length self.old.labels }
        requires old { change.old ≡ label_of self.old.labels change.node }
        requires below { change.label < change.old }
        requires before { change.before ≤ length self.old.changes }
        requires previous { IsLast self.old.changes (length self.old.changes) change.node change.old change.previous }
        requires stamps { All (λ c. c.stamp ≤ change.stamp) self.old.changes }
        ensures lowered { OnOk result (self.new
            ≡ record self.old { labels = slice_set self.old.labels change.node change.label; changes = self.old.changes ++ change ∷ [] }) }
        ensures unchanged { OnErr result (self.new ≡ self.old) }
    {
        self.changes.push(change)?;
        self.labels[change.node as usize] = change.label;
        self.latest[change.node as usize] = self.changes.len();
        Ok(())
    }

    /// The changes, in order. A node's last one gave it its label.
    pub fn changes(&self) -> &[Change]
        ensures changes { result.now ≡ self.now.changes }
        ensures known { All (λ c. c.node < length self.now.labels) result.now }
        ensures last { (v : ℕ) → v < length self.now.labels
            → (last : ℕ) × IsLast self.now.changes (length self.now.changes) v (label_of self.now.labels v) last }
        ensures ordered { AreInOrder self.now.changes }
    {
        &self.changes
    }

    /// How many changes there were.
    pub fn change_count(&self) -> usize
        ensures { result ≡ length self.now.changes }
    {
        self.changes.len()
    }

    /// How many of the changes are of the first `kept` steps. It costs the others.
    pub fn count_by(&self, kept: u32) -> usize
        ensures count { result ≤ length self.now.changes }
        ensures first { take result self.now.changes ≡ made_by kept self.now.changes }
        ensures rest { drop result self.now.changes ≡ made_after kept self.now.changes }
    {
        let mut count = self.changes.len();
        while count > 0 && self.changes[count - 1].stamp > kept {
            count -= 1;
        }
        count
    }

    /// Takes back all but the first changes, in proportion to their number.
    pub fn undo_to(&mut self, count: usize)
        requires { count ≤ length self.old.changes }
        ensures { self.new ≡ record self.old { labels = unwound self.old.labels (drop count self.old.changes); changes = take count self.old.changes } }
    {
        undo_changes_to(&mut self.labels, &mut self.latest, &mut self.changes, count);
    }

    /// What a node's label was after so many steps, by going back over its own changes.
    pub fn given_after(&self, node: u32, kept: u32) -> Given
        requires { node < length self.now.labels }
        ensures { IsGiven self.now kept node result.label result.last }
    {
        let mut label = self.labels[node as usize];
        let mut last = self.latest[node as usize];
        while last > 0 && self.changes[last - 1].stamp > kept {
            let change = self.changes[last - 1];
            label = change.old;
            last = change.previous;
        }
        Given { label, last }
    }
}
