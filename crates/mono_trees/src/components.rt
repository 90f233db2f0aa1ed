//! The components that edges form: each node has a label, and two nodes have one label exactly where edges join them.
//!
//! A label is one of the nodes that have it, and each label has a list of its nodes. An edge between two labels rewrites
//! the label with the shorter list, so a node is relabelled at most log N times among N nodes. At first each list is
//! empty, so that no memory is asked for node by node: a label's own node is added only when the label is rewritten.

ghost use Rattle.std.specs.Prelude.{◌≡◌, ◌≢◌, ◌⊎◌, ◌==◌, ◌<◌, ◌^◌, ◌++◌, ◌∷◌, [], ℕ, All, List, IfOk, OnOk, OnErr, if◌then◌else◌, length, slice_index, slice_index_or, slice_set};
ghost use Rattle.std.specs.List.{list_all, range_with_len};
ghost use Rattle.mono_graph.specs.declared.edge.Edge.{Edge};
ghost use Rattle.mono_graph.specs.Digraph.{has};
ghost use Rattle.mono_trees.specs.Lists.{lists_of};
ghost use Rattle.mono_trees.specs.Kept.{AreLists, moved_label};
ghost use Rattle.mono_trees.specs.Tells.{Tells, same_label};

use mono_base::numbers_below;
use std::alloc::{AllocError, Global};
use std::marker::Model;
use std::mem;

/// The components of a number of nodes, under edges that are added one by one.
///
/// Its value is the list of the labels. Of which edges they tell is said by its users.
#[derive(Drop)]
pub struct Components {
    labels: Vec<u32>,
    lists: Vec<Vec<u32>>,
}

impl Model for Components {
    ghost use Rattle.std.specs.Prelude.{List, ℕ};
    ghost use Rattle.mono_trees.specs.Lists.{lists_of};
    ghost use Rattle.mono_trees.specs.Kept.{AreLists, moved_label};

    ghost Value = { List ℕ };

    ghost view = { λ s. s.labels.items };

    ghost invariant = { λ s. AreLists s.labels.items (lists_of s.lists.items) };
}

/// Adds nodes to the list of a label.
fn append_all(lists: &mut [Vec<u32>], label: u32, nodes: &[u32]) -> Result<(), AllocError>
    requires { label < length lists.old }
    ensures ok { OnOk result (lists_of lists.new ≡ slice_set (lists_of lists.old) label (slice_index_or (lists_of lists.old) label [] ++ nodes.now)) }
    ensures err { OnErr result (lists_of lists.new ≡ lists_of lists.old) }
{
    lists[label as usize].extend_from_slice(nodes)
}

/// Gives a label another list, and hands out the one that it had.
fn put_list(lists: &mut [Vec<u32>], label: u32, nodes: Vec<u32>) -> Vec<u32>
    requires { label < length lists.old }
    ensures was { result.items ≡ slice_index_or (lists_of lists.old) label [] }
    ensures is { lists_of lists.new ≡ slice_set (lists_of lists.old) label nodes.items }
{
    mem::replace(&mut lists[label as usize], nodes)
}

/// Gives the nodes the label.
fn relabel(labels: &mut [u32], nodes: &[u32], label: u32)
    requires { All (λ u. u < length labels.old) nodes.now }
    ensures { (u : ℕ) → slice_index labels.new u ≡ (if has nodes.now u then label else slice_index labels.old u) }
{
    for node in nodes {
        labels[*node as usize] = label;
    }
}

/// As many empty lists.
fn empty_lists(alloc: Global, count: u32) -> Result<Vec<Vec<u32>>, AllocError>
    ensures len { IfOk result (λ lists. length lists.items ≡ count) }
    ensures empty { IfOk result (λ lists. All (λ list. list.items ≡ []) lists.items) }
{
    let mut lists = Vec::new(alloc);
    for _label in 0..count {
        lists.push(Vec::new(alloc))?;
    }
    Ok(lists)
}

/// Two labels, the one with the shorter list first.
fn shorter_first(labels: &[u32], lists: &[Vec<u32>], first: u32, second: u32) -> (u32, u32)
    requires first { first < length labels.now }
    requires second { second < length labels.now }
    requires lists { length labels.now ≡ length lists.now }
    requires own_first { slice_index labels.now first ≡ first }
    requires own_second { slice_index labels.now second ≡ second }
    requires apart { first ≢ second }
    ensures small { result.0 < length labels.now }
    ensures large { result.1 < length labels.now }
    ensures own_small { slice_index labels.now result.0 ≡ result.0 }
    ensures own_large { slice_index labels.now result.1 ≡ result.1 }
    ensures apart { result.0 ≢ result.1 }
    ensures either { ((result.0 ≡ first) × (result.1 ≡ second)) ⊎ ((result.0 ≡ second) × (result.1 ≡ first)) }
{
    if lists[first as usize].len() < lists[second as usize].len() {
        (first, second)
    } else {
        (second, first)
    }
}

/// Rewrites one label to another. The nodes are moved with it, and the memory of their list stays where it was.
fn merge(
    alloc: Global,
    labels: &mut [u32],
    lists: &mut [Vec<u32>],
    small: u32,
    large: u32,
) -> Result<(), AllocError>
    requires kept { AreLists labels.old (lists_of lists.old) }
    requires small { small < length labels.old }
    requires large { large < length labels.old }
    requires own_small { slice_index labels.old small ≡ small }
    requires own_large { slice_index labels.old large ≡ large }
    requires apart { small ≢ large }
    ensures kept { AreLists labels.new (lists_of lists.new) }
    ensures ok { OnOk result ((u : ℕ) → u < length labels.old → slice_index labels.new u ≡ moved_label small large (slice_index labels.old u)) }
    ensures err { OnErr result (labels.new ≡ labels.old) }
{
    append_all(lists, small, &[small])?;
    let mut nodes = put_list(lists, small, Vec::new(alloc));
    match append_all(lists, large, &nodes) {
        Ok(()) => {
            relabel(labels, &nodes, large);
            nodes.clear();
            let _ = put_list(lists, small, nodes);
            Ok(())
        }
        Err(error) => {
            let _ = put_list(lists, small, nodes);
            Err(error)
        }
    }
}

/// Adds an edge between two nodes: what [`Components::join`] does, to the labels and their lists.
fn join_labels(
    alloc: Global,
    labels: &mut [u32],
    lists: &mut [Vec<u32>],
    u: u32,
    v: u32,
) -> Result<(), AllocError>
    requires kept { AreLists labels.old (lists_of lists.old) }
    requires u { u < length labels.old }
    requires v { v < length labels.old }
    ensures kept { AreLists labels.new (lists_of lists.new) }
    ensures tells { OnOk result ((es : List Edge) (e : Edge) → e.from ≡ u → e.to ≡ v → Tells es labels.old → Tells (es ++ e ∷ []) labels.new) }
    ensures err { OnErr result (labels.new ≡ labels.old) }
{
    let first = labels[u as usize];
    let second = labels[v as usize];
    if first == second {
        return Ok(());
    }
    let (small, large) = shorter_first(labels, lists, first, second);
    merge(alloc, labels, lists, small, large)?;
    Ok(())
}

/// Gives each node its own label.
fn renumber(labels: &mut [u32])
    requires { length labels.old < 2 ^ 32 }
    ensures { (u : ℕ) → u < length labels.old → slice_index labels.new u ≡ u }
{
    let count = labels.len() as u32;
    for node in 0..count {
        labels[node as usize] = node;
    }
}

/// Empties the list of a label.
fn clear_list(lists: &mut [Vec<u32>], label: usize)
    requires { label < length lists.old }
    ensures { lists_of lists.new ≡ slice_set (lists_of lists.old) label [] }
{
    lists[label].clear();
}

/// Empties the lists, whose memory is kept.
fn clear_all(lists: &mut [Vec<u32>])
    ensures { (l : ℕ) → slice_index_or (lists_of lists.new) l [] ≡ [] }
{
    for label in 0..lists.len() {
        clear_list(lists, label);
    }
}

impl Components {
    /// So many nodes, from 0, and no edge between them.
    pub fn new(alloc: Global, count: u32) -> Result<Self, AllocError>
        ensures len { IfOk result (λ labels. length labels ≡ count) }
        ensures tells { IfOk result (λ labels. Tells [] labels) }
    {
        // Each node is its own label.
        let labels = numbers_below(alloc, count)?;
        let lists = empty_lists(alloc, count)?;
        Ok(Components { labels, lists })
    }

    /// The same nodes, and no edge between them any more.
    pub fn reset(&mut self)
        ensures len { length self.new ≡ length self.old }
        ensures tells { Tells [] self.new }
    {
        renumber(&mut self.labels);
        clear_all(&mut self.lists);
    }

    /// Where the components have their memory.
    pub fn allocator(&self) -> Global {
        *self.lists.allocator()
    }

    /// Whether two nodes are in one component.
    pub fn are_joined(&self, u: u32, v: u32) -> bool
        requires u { u < length self.now }
        requires v { v < length self.now }
        ensures { result ≡ same_label self.now u v }
    {
        self.labels[u as usize] == self.labels[v as usize]
    }

    /// Whether all nodes are in one component.
    pub fn are_all_joined(&self) -> bool
        ensures { result ≡ list_all (same_label self.now 0) (range_with_len 0 (length self.now)) }
    {
        for node in 0..self.labels.len() {
            if self.labels[node] != self.labels[0] {
                return false;
            }
        }
        true
    }

    /// Adds an edge between two nodes: from now on the labels tell what it joins with the edges before, whichever
    /// these were.
    pub fn join(&mut self, u: u32, v: u32) -> Result<(), AllocError>
        requires u { u < length self.old }
        requires v { v < length self.old }
        ensures len { length self.new ≡ length self.old }
        ensures tells { OnOk result ((es : List Edge) (e : Edge) → e.from ≡ u → e.to ≡ v → Tells es self.old → Tells (es ++ e ∷ []) self.new) }
        ensures err { OnErr result (self.new ≡ self.old) }
    {
        let alloc = *self.lists.allocator();
        join_labels(alloc, &mut self.labels, &mut self.lists, u, v)?;
        Ok(())
    }
}
