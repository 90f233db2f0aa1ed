//! To which targets walks lead from each of several sources, in one part that loses edges and gets the last of them back.

ghost use Rattle.std.specs.Prelude.{◌≡◌, ◌+◌, ◌<◌, ◌≤◌, ◌++◌, ◌∷◌, [], ℕ, Bool, List, false, None, All, IfOk, IsTrue, OnErr, OnOk, length, map, slice_set};
ghost use Rattle.std.specs.List.{AllZip};
ghost use Rattle.mono_graph.specs.Digraph.{IsPartOf};
ghost use Rattle.mono_dynamic.specs.declared.walk_target.WalkTarget.{WalkTarget};
ghost use Rattle.mono_dynamic.specs.LeastRows.{IsCostSource};
ghost use Rattle.mono_dynamic.specs.Ways.{IsTargetOf};
ghost use Rattle.mono_dynamic.specs.Targets.{Targets, is_lacking, is_settled, targets_at, unsearched, IsOneChanged, IsSearchedRow, IsSettledBy, IsShrunkRow, IsUndoneRow};

use crate::cost_source::CostSource;
use crate::reached_targets::ReachedTargets;
use crate::tree_search::TreeSearch;
use crate::walk_target::WalkTarget;
use mono_base::limits::MAX_NODES;
use mono_graph::{Graph, Part};
use std::alloc::{AllocError, Global};
use std::marker::Model;

/// To which targets of each of several sources walks lead.
///
/// Contracts see the number of nodes and the rows, one for each source, in the order in which the sources were given. `new`,
/// `add_target` and `search` take memory.
#[derive(Drop)]
pub struct TargetsBySource {
    rows: Vec<ReachedTargets>,
    room: TreeSearch,
}

impl Model for TargetsBySource {
    ghost use Rattle.std.specs.Prelude.{◌≡◌, ℕ, ◌<◌, length};
    ghost use Rattle.mono_dynamic.specs.Targets.{TargetRows, targets_at};

    ghost Value = { TargetRows };

    ghost view = { λ s. record { nodes = s.room; rows = s.rows.items } };

    ghost invariant = { λ s. (i : ℕ) → i < length s.rows.items → (targets_at s.rows.items i).ways.tree.nodes ≡ s.room };
}

/// A row for each source.
fn rows_of(
    alloc: Global,
    nodes: u32,
    sources: &[CostSource],
) -> Result<Vec<ReachedTargets>, AllocError>
    requires few { nodes ≤ MAX_NODES }
    requires sources { All (IsCostSource nodes) sources.now }
    ensures { IfOk result (λ rows. rows.items ≡ map (unsearched nodes) sources.now) }
{
    let mut rows = Vec::new(alloc);
    for source in sources {
        let row = ReachedTargets::new(alloc, nodes, *source)?;
        rows.push(row)?;
    }
    Ok(rows)
}

/// The row has one more target.
fn add_to(rows: &mut Vec<ReachedTargets>, row: usize, target: WalkTarget) -> Result<(), AllocError>
    requires row { row < length rows.old.items }
    requires target { IsTargetOf (targets_at rows.old.items row).ways target }
    ensures added { OnOk result (rows.new.items
        ≡ slice_set rows.old.items row (record (targets_at rows.old.items row) {
          targets = (targets_at rows.old.items row).targets ++ target ∷ [];
          since = None;
        })) }
    ensures unchanged { OnErr result (rows.new.items ≡ rows.old.items) }
{
    let row = &mut rows[row];
    row.add_target(target)?;
    Ok(())
}

/// The edges at these places go, with the step of this number.
fn shrink_each(rows: &mut Vec<ReachedTargets>, graph: &Graph, places: &[u32], number: u32)
    requires size { (i : ℕ) → i < length rows.old.items → (targets_at rows.old.items i).ways.tree.nodes ≡ graph.now.nodes }
    requires places { All (λ k. k < length graph.now.edges) places.now }
    ensures { AllZip (IsShrunkRow graph.now places.now number) rows.old.items rows.new.items }
{
    for i in 0..rows.len() {
        let row = &mut rows[i];
        row.shrink(graph, places, number);
    }
}

/// Each row goes back.
fn undo_each(rows: &mut Vec<ReachedTargets>, kept: u32)
    ensures { AllZip (IsUndoneRow kept) rows.old.items rows.new.items }
{
    for i in 0..rows.len() {
        let row = &mut rows[i];
        row.undo_to(kept);
    }
}

/// Searches for a row.
fn search_row(
    alloc: Global,
    rows: &mut Vec<ReachedTargets>,
    room: &mut TreeSearch,
    row: usize,
    graph: &Graph,
    part: &Part,
    number: u32,
) -> Result<bool, AllocError>
    requires row { row < length rows.old.items }
    requires size { (targets_at rows.old.items row).ways.tree.nodes ≡ graph.now.nodes }
    requires room { room.old ≡ graph.now.nodes }
    requires part { IsPartOf part.now graph.now }
    ensures room { room.new ≡ room.old }
    ensures searched { IsOneChanged (IsSearchedRow graph.now part.now number) rows.old.items rows.new.items row }
    ensures settled { IfOk result (λ whole. IsSettledBy whole (targets_at rows.old.items row) (targets_at rows.new.items row)) }
    ensures forgotten { OnErr result ((t : WalkTarget) → is_lacking (targets_at rows.new.items row) t ≡ false) }
{
    let row = &mut rows[row];
    let whole = row.search(alloc, room, graph, part, number)?;
    Ok(whole)
}

impl TargetsBySource {
    /// No row has a target yet. The graph has this many nodes, from 1 to [`MAX_NODES`].
    pub fn new(alloc: Global, nodes: u32, sources: &[CostSource]) -> Result<Self, AllocError>
        requires some { 1 ≤ nodes }
        requires few { nodes ≤ MAX_NODES }
        requires sources { All (IsCostSource nodes) sources.now }
        ensures { IfOk result (λ s. s ≡ record { nodes = nodes; rows = map (unsearched nodes) sources.now }) }
    {
        let rows = rows_of(alloc, nodes, sources)?;
        Ok(TargetsBySource {
            rows,
            room: TreeSearch::new(alloc, nodes)?,
        })
    }

    /// How many rows there are.
    pub fn count(&self) -> usize
        ensures count { result ≡ length self.now.rows }
        ensures sized { (i : ℕ) → i < length self.now.rows → (targets_at self.now.rows i).ways.tree.nodes ≡ self.now.nodes }
    {
        self.rows.len()
    }

    /// This is a target of a row too. What was known there is forgotten.
    pub fn add_target(&mut self, row: usize, target: WalkTarget) -> Result<(), AllocError>
        requires row { row < length self.old.rows }
        requires target { IsTargetOf (targets_at self.old.rows row).ways target }
        ensures added { OnOk result (self.new
            ≡ record self.old {
              rows = slice_set self.old.rows row
                  (record (targets_at self.old.rows row) { targets = (targets_at self.old.rows row).targets ++ target ∷ []; since = None });
            }) }
        ensures unchanged { OnErr result (self.new ≡ self.old) }
    {
        add_to(&mut self.rows, row, target)?;
        Ok(())
    }

    /// Whether it is known that no walk leads from a row's source to the target within its limit.
    pub fn is_lacking(&self, row: usize, target: WalkTarget) -> bool
        requires row { row < length self.now.rows }
        requires node { target.node < self.now.nodes }
        ensures { result ≡ is_lacking (targets_at self.now.rows row) target }
    {
        let row = &self.rows[row];
        row.is_lacking(target)
    }

    /// Whether it is known of each target of a row whether it is reached.
    pub fn is_settled(&self, row: usize) -> bool
        requires { row < length self.now.rows }
        ensures { result ≡ is_settled (targets_at self.now.rows row) }
    {
        let row = &self.rows[row];
        row.is_settled()
    }

    /// The edges at these places go, with the step of this number. It costs the places for each row.
    pub fn shrink(&mut self, graph: &Graph, places: &[u32], number: u32)
        requires nodes { self.old.nodes ≡ graph.now.nodes }
        requires places { All (λ k. k < length graph.now.edges) places.now }
        ensures nodes { self.new.nodes ≡ self.old.nodes }
        ensures rows { AllZip (IsShrunkRow graph.now places.now number) self.old.rows self.new.rows }
    {
        shrink_each(&mut self.rows, graph, places, number);
    }

    /// Whether the tree of a row rests on one of the edges at these places. It costs the places for each row. The answer is free.
    pub fn rest_on_any(&self, graph: &Graph, places: &[u32]) -> bool
        requires nodes { self.now.nodes ≡ graph.now.nodes }
        requires places { All (λ k. k < length graph.now.edges) places.now }
    {
        for row in self.rows.iter() {
            if row.rests_on_any(graph, places) {
                return true;
            }
        }
        false
    }

    /// The edges of the steps after the first `kept` come back. It costs a look at each row.
    pub fn undo_to(&mut self, kept: u32)
        ensures nodes { self.new.nodes ≡ self.old.nodes }
        ensures rows { AllZip (IsUndoneRow kept) self.old.rows self.new.rows }
    {
        undo_each(&mut self.rows, kept);
    }

    /// Searches the part, which is that after so many steps, for a row. Whether all targets of the row are reached. Where memory
    /// is missing, nothing is known of them.
    pub fn search(
        &mut self,
        alloc: Global,
        row: usize,
        graph: &Graph,
        part: &Part,
        number: u32,
    ) -> Result<bool, AllocError>
        requires row { row < length self.old.rows }
        requires nodes { self.old.nodes ≡ graph.now.nodes }
        requires part { IsPartOf part.now graph.now }
        ensures nodes { self.new.nodes ≡ self.old.nodes }
        ensures searched { IsOneChanged (IsSearchedRow graph.now part.now number) self.old.rows self.new.rows row }
        ensures settled { IfOk result (λ whole. IsSettledBy whole (targets_at self.old.rows row) (targets_at self.new.rows row)) }
        ensures forgotten { OnErr result ((t : WalkTarget) → is_lacking (targets_at self.new.rows row) t ≡ false) }
    {
        let rows = &mut self.rows;
        let whole = search_row(alloc, rows, &mut self.room, row, graph, part, number)?;
        Ok(whole)
    }
}
