//! For which atoms there is a walk along the possibly present edges as they ask for one.
//!
//! Atoms whose walks begin at one node and are measured alike share a row: one search answers for all of them. While literals
//! come, possibly present edges only go, so what no walk leads to stays so, and a walk that was found stays as long as its edges
//! are there. So a literal costs a look at its edges for each row, and only rows whose walks went are searched once more (Even
//! and Shiloach 1981).

ghost use Rattle.std.specs.Prelude.{◌≡◌, ◌<◌, ◌≤◌, ◌^◌, ℕ, true, length, All, IfOk, OnOk, slice_index_or};
ghost use Rattle.mono_graph.specs.Digraph.{IsPartOf};
ghost use Rattle.mono_dynamic.specs.LeastRows.{IsCostSource};
ghost use Rattle.mono_dynamic.specs.Ways.{IsTargetOf};
ghost use Rattle.mono_dynamic.specs.Targets.{targets_at, is_settled, IsOneChanged};
ghost use Rattle.mono_theory.specs.Asked.{AreOfAtoms, HasTarget, HaveRows};
ghost use Rattle.mono_theory.specs.Theories.{cut_to};
ghost use Rattle.mono_theory.specs.PossibleRows.{is_cut_off as is_cut_off_by, target_at, AreAsked, AreBroughtUp, AreEach, AreSettledRows, AreTargetRows, IsFilledRow, IsRenewedRow};

use crate::asked::{AsksWalk, sources_of, targets_of};
use crate::{Evidence, Frame, Rows};
use mono_base::{Lit, Worklist};
use mono_bounds::Index;
use mono_dynamic::{Sources, TargetsBySource, WalkTarget};
use mono_graph::{Graph, Part};
use std::alloc::{AllocError, Global};
use std::marker::Model;

/// Rows are kept where their number times the nodes of the graph is at most so much.
///
/// A row takes 20 bytes for each node of the graph. Where walks cost something, it takes 16 more, and 56 for each label that its
/// last search lowered.
const MOST_CELLS: usize = 4_000_000;

/// Rows are kept where there are at least so many atoms for each: a search for a row, which keeps a tree of walks, costs as much
/// as a few searches for one atom.
const LEAST_SHARED: usize = 4;

/// The rows of the walks for which atoms ask, along the possibly present edges.
pub struct PossibleRows {
    rows: TargetsBySource,
    /// By place of an atom its row, and by row its atoms.
    atoms: Index,
    /// By place of an atom where its walk is to lead.
    targets: Vec<WalkTarget>,
}

impl Drop for PossibleRows {
    fn drop(self) {
        let PossibleRows {
            rows: _,
            atoms: _,
            targets: _,
        } = self;
    }
}

impl Model for PossibleRows {
    ghost use Rattle.mono_theory.specs.PossibleRows.{PossibleView};

    ghost Value = { PossibleView };

    ghost view = { λ s. record { rows = s.rows; row_of = s.atoms.keys; targets = s.targets.items } };
}

/// The row of each atom is asked for the atom's walk.
fn add_targets(
    rows: &mut TargetsBySource,
    row_of: &[u32],
    targets: &[WalkTarget],
) -> Result<(), AllocError>
    requires rows { (a : ℕ) → a < length row_of.now → slice_index_or row_of.now a 0 < length rows.old.rows }
    requires len { length targets.now ≡ length row_of.now }
    requires targets { (a : ℕ) → a < length row_of.now
        → IsTargetOf (targets_at rows.old.rows (slice_index_or row_of.now a 0)).ways (target_at targets.now a) }
    ensures nodes { IfOk result (λ _. rows.new.nodes ≡ rows.old.nodes) }
    ensures filled { IfOk result (λ _. AreEach IsFilledRow rows.old.rows rows.new.rows) }
    ensures asked { IfOk result (λ _. AreAsked rows.new.rows row_of.now targets.now) }
{
    for place in 0..row_of.len() {
        rows.add_target(row_of[place] as usize, targets[place])?;
    }
    Ok(())
}

/// The rows of the atoms of a frame where no literal was looked at, each asked for the walks of its atoms.
fn rows_of(
    alloc: Global,
    frame: &Frame,
    sources: &Sources,
    targets: &[WalkTarget],
) -> Result<TargetsBySource, AllocError>
    requires known { All (IsCostSource frame.now.graph.nodes) sources.now.rows.items }
    requires few { length sources.now.rows.items ≤ length frame.now.atoms }
    requires own { HaveRows frame.now.atoms (length frame.now.atoms) sources.now.row_of.items sources.now.rows.items }
    requires targets { AreOfAtoms HasTarget frame.now.atoms (length frame.now.atoms) targets.now }
    requires ends { All (λ t. t.node < frame.now.graph.nodes) targets.now }
    ensures { IfOk result (λ rows. AreTargetRows (cut_to 0 frame.now) 0
        (record { rows = rows; row_of = sources.now.row_of.items; targets = targets.now })) }
{
    let graph = frame.graph();
    frame.known();
    let mut rows = TargetsBySource::new(alloc, graph.nodes(), sources.rows.as_slice())?;
    add_targets(&mut rows, sources.row_of.as_slice(), targets)?;
    Ok(rows)
}

/// Brings a row up to date, and puts its atoms in `due` where that shows of one of them that there is no walk. Where memory is
/// missing, nothing is known of the row.
fn settle_row(
    rows: &mut TargetsBySource,
    atoms: &Index,
    alloc: Global,
    row: usize,
    graph: &Graph,
    part: &Part,
    number: u32,
    due: &mut Worklist,
) -> Result<(), AllocError>
    requires row { row < length rows.old.rows }
    requires few { length rows.old.rows < 2 ^ 32 }
    requires nodes { rows.old.nodes ≡ graph.now.nodes }
    requires part { IsPartOf part.now graph.now }
    requires size { length due.old.listed ≡ length atoms.now.keys }
    ensures renewed { AreBroughtUp (λ olds news. IsOneChanged (IsRenewedRow graph.now part.now number) olds news row) atoms.now.keys
        rows.old rows.new due.old.listed due.new.listed }
    ensures settled { OnOk result (is_settled (targets_at rows.new.rows row) ≡ true) }
{
    if rows.is_settled(row) {
        return Ok(());
    }
    if rows.search(alloc, row, graph, part, number)? {
        return Ok(());
    }
    atoms.insert_places(row as u32, due);
    Ok(())
}

/// Brings all rows up to date, up to the first for which memory is missing.
fn settle_rows(
    rows: &mut TargetsBySource,
    atoms: &Index,
    alloc: Global,
    graph: &Graph,
    part: &Part,
    number: u32,
    due: &mut Worklist,
) -> Result<(), AllocError>
    requires few { length rows.old.rows < 2 ^ 32 }
    requires nodes { rows.old.nodes ≡ graph.now.nodes }
    requires part { IsPartOf part.now graph.now }
    requires size { length due.old.listed ≡ length atoms.now.keys }
    ensures renewed { AreBroughtUp (AreEach (IsRenewedRow graph.now part.now number)) atoms.now.keys rows.old rows.new
        due.old.listed due.new.listed }
    ensures settled { OnOk result (AreSettledRows rows.new.rows) }
{
    for row in 0..rows.count() {
        settle_row(rows, atoms, alloc, row, graph, part, number, due)?;
    }
    Ok(())
}

impl PossibleRows {
    /// Whether it is known that no walk is as the atom at a place asks.
    fn is_cut_off(&self, place: usize) -> bool
        requires row { place < length self.now.row_of }
        requires target { place < length self.now.targets }
        requires held { slice_index_or self.now.row_of place 0 < length self.now.rows.rows }
        requires node { (target_at self.now.targets place).node < self.now.rows.nodes }
        ensures { result ≡ is_cut_off_by self.now place }
    {
        let row = self.atoms.key(place) as usize;
        self.rows.is_lacking(row, self.targets[place])
    }
}

impl<K: AsksWalk> Rows<K> for PossibleRows {
    ghost use Rattle.mono_theory.specs.PossibleRows.{AreTargetsOf, RowsStand, is_cut_off};

    const IS_POSSIBLE: bool = true;

    ghost IS_POSSIBLE = { true };

    ghost are_right = { AreTargetsOf };

    ghost shown = { is_cut_off };

    ghost stand = { RowsStand };

    /// Few rows, and several atoms for each: an atom that shares its row with few others is searched for alone.
    fn are_few(alloc: Global, frame: &Frame) -> Result<bool, AllocError> {
        let sources = sources_of::<K>(alloc, frame)?;
        let count = sources.rows.len();
        let cells = count.saturating_mul(frame.graph().nodes() as usize);
        Ok(cells <= MOST_CELLS && count <= frame.atom_count() / LEAST_SHARED)
    }

    fn of_frame(alloc: Global, frame: &Frame) -> Result<Self, AllocError> {
        frame.known();
        let sources = sources_of::<K>(alloc, frame)?;
        let targets = targets_of::<K>(alloc, frame)?;
        let rows = rows_of(alloc, frame, &sources, targets.as_slice())?;
        let atoms = Index::new(alloc, sources.row_of)?;
        Ok(PossibleRows {
            rows,
            atoms,
            targets,
        })
    }

    fn look_at(
        &mut self,
        frame: &Frame,
        part: &Part,
        looked: usize,
        lit: Lit,
        due: &mut Worklist,
    ) -> Result<(), AllocError> {
        frame.known();
        let _ = &*due;
        // The variable of a literal isn't 0.
        let _ = lit.var();
        if lit.is_positive() {
            return Ok(());
        }
        self.rows
            .shrink(frame.graph(), frame.edges_at(looked), looked as u32 + 1);
        Ok(())
    }

    fn settle(
        &mut self,
        alloc: Global,
        frame: &Frame,
        part: &Part,
        looked: usize,
        due: &mut Worklist,
    ) -> Result<(), AllocError> {
        frame.known();
        settle_rows(
            &mut self.rows,
            &self.atoms,
            alloc,
            frame.graph(),
            part,
            looked as u32,
            due,
        )?;
        Ok(())
    }

    fn undo_to(&mut self, frame: &Frame, looked: usize, kept: usize) {
        frame.known();
        let _ = looked;
        self.rows.undo_to(kept as u32);
    }

    fn prefers(&self, frame: &Frame, looked: usize, var: u32) -> bool {
        frame.known();
        let _ = looked;
        self.rows.rest_on_any(frame.graph(), frame.edges_of(var))
    }

    fn shows(&self, frame: &Frame, looked: usize, place: usize) -> bool {
        let _ = (frame.atom_at(place), looked);
        self.is_cut_off(place)
    }

    fn evidence(
        &self,
        alloc: Global,
        frame: &Frame,
        looked: usize,
        place: usize,
        kept: usize,
    ) -> Result<Option<Evidence>, AllocError> {
        frame.known();
        let _ = (alloc, looked, place, kept);
        Ok(None)
    }
}
