//! Labels by node, as a list gives them.
//!
//! A node is marked once it is listed, and the values of the others don't matter. So a table is cleared by taking the
//! marks off, in proportion to the list, and the label of the nodes that aren't listed may change from list to list.

ghost use Rattle.std.specs.Prelude.{◌≡◌, ◌<◌, ◌+ℤ◌, ℕ, ℤ, pos, false, All, IfOk, IsTrue, replicate, slice_index_or, vec_len};
ghost use Rattle.mono_graph.specs.Digraph.{has, is_distinct};
ghost use Rattle.mono_graph.specs.Walks.{label_at};
ghost use Rattle.mono_paths.specs.Listed.{nodes_listed, value_at, label_in};

use mono_graph::Label;
use std::alloc::{AllocError, Global};

/// By node: whether it is listed, and with which value.
#[derive(Drop)]
pub struct LabelTable {
    pub listed: Vec<bool>,
    pub values: Vec<u64>,
    /// The label of the nodes that aren't listed.
    pub others: u64,
}

impl LabelTable {
    /// A table for this many nodes, none of them listed.
    pub fn new(alloc: Global, nodes: u32) -> Result<Self, AllocError>
        ensures listed { IfOk result (λ table. table.listed.items ≡ replicate nodes false) }
        ensures values { IfOk result (λ table. vec_len table.values ≡ nodes) }
    {
        Ok(LabelTable {
            listed: vec![in alloc; false; nodes as usize]?,
            values: vec![in alloc; 0; nodes as usize]?,
            others: 0,
        })
    }

    /// Enters the labels. Whether no node is listed twice.
    pub fn enter(&mut self, labels: &[Label]) -> bool
        requires len { vec_len self.old.values ≡ vec_len self.old.listed }
        requires within { All (λ l. l.node < vec_len self.old.listed) labels.now }
        requires clear { (u : ℕ) → slice_index_or self.old.listed.items u false ≡ false }
        ensures listed_len { vec_len self.new.listed ≡ vec_len self.old.listed }
        ensures values_len { vec_len self.new.values ≡ vec_len self.old.values }
        ensures others { self.new.others ≡ self.old.others }
        ensures marked { (u : ℕ) → IsTrue (slice_index_or self.new.listed.items u false) → IsTrue (has (nodes_listed labels.now) u) }
        ensures distinct { result ≡ is_distinct (nodes_listed labels.now) }
        ensures all { IsTrue result → (u : ℕ) → slice_index_or self.new.listed.items u false ≡ has (nodes_listed labels.now) u }
        ensures labels { IsTrue result → (most : ℤ) (others u : ℕ) → pos others ≡ most +ℤ pos 1
            → label_at labels.now most u ≡ pos (value_at self.new.listed.items self.new.values.items others u) }
    {
        for label in labels {
            let node = label.node as usize;
            if self.listed[node] {
                return false;
            }
            self.listed[node] = true;
            self.values[node] = label.value;
        }
        true
    }

    /// The label of a node.
    pub fn label(&self, node: u32) -> u64
        requires listed { node < vec_len self.now.listed }
        requires values { node < vec_len self.now.values }
        ensures { result ≡ label_in self.now node }
    {
        if self.listed[node as usize] {
            self.values[node as usize]
        } else {
            self.others
        }
    }

    /// Takes the marks off the nodes that these labels list. Where no other was marked, none is marked then.
    pub fn clear(&mut self, labels: &[Label])
        requires within { All (λ l. l.node < vec_len self.old.listed) labels.now }
        ensures listed_len { vec_len self.new.listed ≡ vec_len self.old.listed }
        ensures values_len { vec_len self.new.values ≡ vec_len self.old.values }
        ensures clear { ((u : ℕ) → IsTrue (slice_index_or self.old.listed.items u false) → IsTrue (has (nodes_listed labels.now) u)) → (u : ℕ)
            → slice_index_or self.new.listed.items u false ≡ false }
    {
        for label in labels {
            self.listed[label.node as usize] = false;
        }
    }
}
