//! Rows from several sources, in one part that grows.

ghost use Rattle.std.specs.Prelude.{◌≡◌, ◌+◌, ◌<◌, ◌≤◌, ◌^◌, All, IfOk, OnErr, OnOk, length, map, slice_index_or};
ghost use Rattle.std.specs.List.{AllZip};
ghost use Rattle.mono_graph.specs.Digraph.{IsPartOf};
ghost use Rattle.mono_dynamic.specs.BySource.{IsBack, OrSame};
ghost use Rattle.mono_dynamic.specs.LeastRows.{IsCostSource};

use crate::cost_source::CostSource;
use crate::row::SourceRow;
use mono_base::limits::MAX_NODES;
use mono_graph::{Graph, Part};
use std::alloc::{AllocError, Global};
use std::marker::Model;

/// A row for each of several sources, after each number of steps by which the part grew.
///
/// Contracts see the rows, in the order in which the sources were given. `new` and `grow` take memory.
#[derive(Drop)]
pub struct BySource<R> {
    rows: Vec<R>,
}

impl<R> Model for BySource<R> {
    ghost use Rattle.std.specs.Prelude.{List};

    ghost Value = { List R };

    ghost view = { λ s. s.rows.items };
}

/// A row for each source.
fn rows_of<R: SourceRow>(
    alloc: Global,
    nodes: u32,
    sources: &[CostSource],
) -> Result<Vec<R>, AllocError>
    requires few { nodes ≤ MAX_NODES }
    requires sources { All (IsCostSource nodes) sources.now }
    ensures { IfOk result (λ rows. rows.items ≡ map (R.at_first nodes) sources.now) }
{
    let mut rows = Vec::new(alloc);
    for source in sources {
        let row = R::new(alloc, nodes, *source)?;
        rows.push(row)?;
    }
    Ok(rows)
}

/// Edges have come into the part: each row grows, up to the first for which memory is missing.
fn grow_each<R: SourceRow>(
    rows: &mut Vec<R>,
    graph: &Graph,
    part: &Part,
    places: &[u32],
    looked: u32,
) -> Result<(), AllocError>
    requires rows { All (R.fits graph.now.nodes looked) rows.old.items }
    requires part { IsPartOf part.now graph.now }
    requires places { All (λ k. k < length graph.now.edges) places.now }
    requires few { looked + 1 < 2 ^ 32 }
    ensures grown { OnOk result (AllZip (R.grown graph.now part.now places.now looked) rows.old.items rows.new.items) }
    ensures some { AllZip (OrSame (R.grown graph.now part.now places.now looked)) rows.old.items rows.new.items }
{
    for i in 0..rows.len() {
        let row = &mut rows[i];
        row.grow(graph, part, places, looked)?;
    }
    Ok(())
}

/// Each row goes back.
fn undo_each<R: SourceRow>(rows: &mut Vec<R>, kept: u32)
    ensures { AllZip (IsBack R.fits R.grown R.undone kept) rows.old.items rows.new.items }
{
    for i in 0..rows.len() {
        let row = &mut rows[i];
        row.undo_to(kept);
    }
}

impl<R: SourceRow> BySource<R> {
    /// A row from each source, in a part with no edge.
    pub fn new(alloc: Global, nodes: u32, sources: &[CostSource]) -> Result<Self, AllocError>
        requires few { nodes ≤ MAX_NODES }
        requires sources { All (IsCostSource nodes) sources.now }
        ensures { IfOk result (λ s. s ≡ map (R.at_first nodes) sources.now) }
    {
        let rows = rows_of::<R>(alloc, nodes, sources)?;
        Ok(BySource { rows })
    }

    /// How many rows there are.
    pub fn count(&self) -> usize
        ensures { result ≡ length self.now }
    {
        self.rows.len()
    }

    /// Edges have come into the part, with the step after those that were looked at, and no others since the last call. Where
    /// memory is missing, all is as before.
    ///
    /// It costs the places for each row, the nodes that change and the edges that leave them, each as often as it changes.
    pub fn grow(
        &mut self,
        graph: &Graph,
        part: &Part,
        places: &[u32],
        looked: u32,
    ) -> Result<(), AllocError>
        requires rows { All (R.fits graph.now.nodes looked) self.old }
        requires part { IsPartOf part.now graph.now }
        requires places { All (λ k. k < length graph.now.edges) places.now }
        requires few { looked + 1 < 2 ^ 32 }
        ensures grown { OnOk result (AllZip (R.grown graph.now part.now places.now looked) self.old self.new) }
        ensures unchanged { OnErr result (self.new ≡ self.old) }
    {
        match grow_each::<R>(&mut self.rows, graph, part, places, looked) {
            Ok(()) => Ok(()),
            Err(error) => {
                undo_each::<R>(&mut self.rows, looked);
                Err(error)
            }
        }
    }

    /// Goes back to what was found after so many steps. It costs what it takes back, and a look at each row.
    pub fn undo_to(&mut self, kept: u32)
        ensures { AllZip (R.undone kept) self.old self.new }
    {
        undo_each::<R>(&mut self.rows, kept);
    }

    /// The row from the source at a place of those that were given.
    pub fn row(&self, place: usize) -> &R
        requires { place < length self.now }
        ensures { (d : R) → result.now ≡ slice_index_or self.now place d }
    {
        &self.rows[place]
    }
}
