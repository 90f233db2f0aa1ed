//! The labels of a search: for each node a number from 0 to a cap, which the search lowers.
//!
//! A label is kept as what it is below the cap. So a node that was not reached has 0 there whatever the cap is, and a
//! search with another cap begins as soon as the nodes that the last one reached are set back: nothing is done in
//! proportion to the graph. The nodes whose labels are below the cap are listed, each once.

ghost use Rattle.std.specs.Prelude.{◌≡◌, ◌<◌, ◌==◌, ◌++◌, ◌∷◌, [], ℕ, if◌then◌else◌, All, IfOk, OnOk, OnErr, IsTrue, length, map, replicate, slice_index_or, slice_set, vec_len};
ghost use Rattle.mono_graph.specs.Digraph.{has};
ghost use Rattle.mono_paths.specs.NodeLabels.{AreReached};
ghost use Rattle.mono_paths.specs.Spread.{label_of};

use mono_graph::Label;
use std::alloc::{AllocError, Global};
use std::marker::Model;

/// Labels by node, and the nodes whose labels are below the cap.
#[derive(Drop)]
pub struct Labels {
    cap: u64,
    /// By node: what the label is below the cap.
    below: Vec<u64>,
    reached: Vec<u32>,
}

impl Model for Labels {
    ghost use Rattle.mono_paths.specs.NodeLabels.{NodeLabels};

    ghost Value = { NodeLabels };

    ghost use Rattle.mono_paths.specs.NodeLabels.{shown, AreBelowCap};

    ghost view = { shown };

    ghost invariant = { λ l. AreBelowCap l.cap l.below.items l.reached.items };
}

/// Sets what these nodes have back to 0.
fn set_back(below: &mut Vec<u64>, nodes: &[u32])
    requires within { All (λ u. u < vec_len below.old) nodes.now }
    ensures len { vec_len below.new ≡ vec_len below.old }
    ensures clear { ((u : ℕ) → 0 < slice_index_or below.old.items u 0 → IsTrue (has nodes.now u)) → (u : ℕ) → slice_index_or below.new.items u 0 ≡ 0 }
{
    for node in nodes {
        below[*node as usize] = 0;
    }
}

/// Gives a node something, and lists it where it had nothing.
fn give(
    below: &mut Vec<u64>,
    reached: &mut Vec<u32>,
    node: u32,
    some: u64,
) -> Result<(), AllocError>
    requires known { node < vec_len below.old }
    ensures given { OnOk result (below.new.items ≡ slice_set below.old.items node some) }
    ensures listed { OnOk result (reached.new.items
        ≡ (if slice_index_or below.old.items node 0 == 0 then reached.old.items ++ node ∷ [] else reached.old.items)) }
    ensures unchanged { OnErr result ((below.new.items ≡ below.old.items) × (reached.new.items ≡ reached.old.items)) }
{
    if below[node as usize] == 0 {
        reached.push(node)?;
    }
    below[node as usize] = some;
    Ok(())
}

impl Labels {
    /// Labels for this many nodes.
    pub fn new(alloc: Global, nodes: u32) -> Result<Self, AllocError>
        ensures { IfOk result (λ labels. length labels.each ≡ nodes) }
    {
        Ok(Labels {
            cap: 0,
            below: vec![in alloc; 0; nodes as usize]?,
            reached: Vec::new(alloc),
        })
    }

    /// Sets all labels to a cap.
    pub fn reset(&mut self, cap: u64)
        ensures { self.new ≡ record { cap = cap; each = replicate (length self.old.each) cap; reached = [] } }
    {
        set_back(&mut self.below, &self.reached);
        self.reached.clear();
        self.cap = cap;
    }

    /// The label of a node.
    pub fn get(&self, node: u32) -> u64
        requires { node < length self.now.each }
        ensures { result ≡ label_of self.now.each node }
    {
        self.cap - self.below[node as usize]
    }

    /// Lowers the label of a node.
    pub fn lower(&mut self, node: u32, label: u64) -> Result<(), AllocError>
        requires { label < label_of self.old.each node }
        ensures cap { self.new.cap ≡ self.old.cap }
        ensures lowered { OnOk result (self.new.each ≡ slice_set self.old.each node label) }
        ensures unchanged { OnErr result (self.new.each ≡ self.old.each) }
    {
        give(&mut self.below, &mut self.reached, node, self.cap - label)?;
        Ok(())
    }

    /// The nodes whose labels are below the cap, each once, in the order in which they were reached.
    pub fn reached(&self) -> &[u32]
        ensures nodes { result.now ≡ self.now.reached }
        ensures reached { AreReached (length self.now.each) self.now.cap self.now.each result.now }
    {
        &self.reached
    }

    /// The labels of the nodes that were reached.
    pub fn listed(&self) -> Result<Vec<Label>, AllocError>
        ensures reached { AreReached (length self.now.each) self.now.cap self.now.each self.now.reached }
        ensures labels { IfOk result (λ listed. listed.items ≡ map (λ u. record { node = u; value = label_of self.now.each u }) self.now.reached) }
    {
        let reached = self.reached();
        let mut listed = Vec::new(*self.reached.allocator());
        for node in reached {
            listed.push(Label {
                node: *node,
                value: self.get(*node),
            })?;
        }
        Ok(listed)
    }
}
