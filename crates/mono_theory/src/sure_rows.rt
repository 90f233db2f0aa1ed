//! Rows along the surely present edges, by the first nodes of the atoms of a frame.
//!
//! Atoms whose walks begin at one node, and are measured alike, share a row. The rows follow the literals one by one: a positive
//! literal brings edges, by which each row grows, and going back takes from each row what came with later literals (Ramalingam
//! and Reps 1996). What a row tells of a node changes only where the row says so, and then the atoms are due whose walks are to
//! lead to that node. A row shows the walk for which an atom asks exactly where there is one, and keeps it with the number of
//! literals that it needed. So neither asks for a search.

ghost use Rattle.std.specs.Prelude.{◌≡◌, ◌+◌, ◌<◌, ◌≤◌, ◌^◌, All, IfOk, OnErr, OnOk, length, map, slice_index_or};
ghost use Rattle.std.specs.List.{AllZip};
ghost use Rattle.mono_dynamic.specs.LeastRows.{IsCostSource};
ghost use Rattle.mono_bounds.specs.DueNodes.{PutsNodes, PutsRows};
ghost use Rattle.mono_theory.specs.PossibleRows.{target_at};
ghost use Rattle.mono_theory.specs.SureParts.{sure_parts};
ghost use Rattle.mono_theory.specs.SureRows.{nodes_of, row_of_atom, HaveLooked};

use crate::asked::{AsksWalk, sources_of, targets_of};
use crate::shows_walks::ShowsWalks;
use crate::walks::walk_evidence;
use crate::{Evidence, Frame, Rows};
use mono_base::limits::MAX_NODES;
use mono_base::{Lit, Worklist};
use mono_bounds::Index;
use mono_dynamic::{AtNode, BySource, CostSource, SourceRow, Sources, WalkTarget};
use mono_graph::Part;
use std::alloc::{AllocError, Global};
use std::marker::Model;

/// Rows along the surely present edges, and by place of an atom its row and where its walk is to lead.
pub struct SureRows<R> {
    rows: BySource<R>,
    /// By place of an atom its row.
    row_of: Vec<u32>,
    /// By place of an atom where its walk is to lead.
    targets: Vec<WalkTarget>,
    /// The atoms by their last nodes.
    lasts: Index,
}

impl<R: Drop> Drop for SureRows<R> {
    fn drop(self) {
        let SureRows {
            rows: _,
            row_of: _,
            targets: _,
            lasts: _,
        } = self;
    }
}

impl<R> Model for SureRows<R> {
    ghost use Rattle.std.specs.Prelude.{◌≡◌};
    ghost use Rattle.mono_theory.specs.SureRows.{nodes_of, SureRowsView};

    ghost Value = { SureRowsView R };

    ghost view = { λ s. record { rows = s.rows; row_of = s.row_of.items; targets = s.targets.items } };

    ghost invariant = { λ s. s.lasts.keys ≡ nodes_of s.targets.items };
}

/// The targets by their nodes.
fn lasts_of(alloc: Global, targets: &[WalkTarget]) -> Result<Index, AllocError>
    requires { length targets.now < 2 ^ 32 }
    ensures { IfOk result (λ lasts. lasts.keys ≡ nodes_of targets.now) }
{
    let nodes: Vec<u32> = targets.iter().map(|target| target.node).collect(alloc)?;
    Index::new(alloc, nodes)
}

/// Puts the atoms in `due` whose last nodes have changed in a row after the first `looked` steps.
fn put_due<R: SourceRow>(lasts: &Index, row: &R, looked: u32, due: &mut Worklist)
    requires { length due.old.listed ≡ length lasts.now.keys }
    ensures { PutsNodes lasts.now.keys (map R.Change.node (R.changed_after looked row.now)) due.old.listed due.new.listed }
{
    for change in row.changes_after(looked) {
        lasts.insert_places(change.node(), due);
    }
}

/// Puts the atoms in `due` whose last nodes have changed in some row after the first `looked` steps.
fn put_each_due<R: SourceRow>(lasts: &Index, rows: &BySource<R>, looked: u32, due: &mut Worklist)
    requires { length due.old.listed ≡ length lasts.now.keys }
    ensures { PutsRows lasts.now.keys (λ r. map R.Change.node (R.changed_after looked r)) rows.now (length rows.now)
        due.old.listed due.new.listed }
{
    for i in 0..rows.count() {
        put_due::<R>(lasts, rows.row(i), looked, due);
    }
}

impl<R: SourceRow> SureRows<R> {
    /// A row from each of these sources, where no literal was looked at. The atoms have these rows and targets, by place.
    fn new(
        alloc: Global,
        nodes: u32,
        sources: &[CostSource],
        row_of: Vec<u32>,
        targets: Vec<WalkTarget>,
    ) -> Result<Self, AllocError>
        requires nodes { nodes ≤ MAX_NODES }
        requires sources { All (IsCostSource nodes) sources.now }
        requires few { length targets.items < 2 ^ 32 }
        ensures { IfOk result (λ s. s
            ≡ record { rows = map (R.at_first nodes) sources.now; row_of = row_of.items; targets = targets.items }) }
    {
        let lasts = lasts_of(alloc, targets.as_slice())?;
        let rows = BySource::new(alloc, nodes, sources)?;
        Ok(SureRows {
            rows,
            row_of,
            targets,
            lasts,
        })
    }

    /// The row of the atom at a place.
    pub fn row(&self, place: usize) -> &R
        requires place { place < length self.now.row_of }
        requires row { row_of_atom self.now place < length self.now.rows }
        ensures { (d : R) → result.now ≡ slice_index_or self.now.rows (row_of_atom self.now place) d }
    {
        self.rows.row(self.row_of[place] as usize)
    }

    /// Where the walk of the atom at a place is to lead.
    fn target(&self, place: usize) -> WalkTarget
        requires { place < length self.now.targets }
        ensures { result ≡ target_at self.now.targets place }
    {
        self.targets[place]
    }

    /// Looks at the next literal, the one at place `looked`, and puts the atoms in `due` whose last nodes change in a row by it.
    /// The part is that of the surely present edges which the literal leaves. Where memory is missing, all is as before.
    fn look_at(
        &mut self,
        frame: &Frame,
        part: &Part,
        looked: usize,
        lit: Lit,
        due: &mut Worklist,
    ) -> Result<(), AllocError>
        requires rows { All (R.fits frame.now.graph.nodes looked) self.old.rows }
        requires more { looked < length frame.now.seen }
        requires next { slice_index_or frame.now.seen looked lit ≡ lit }
        requires part { part.now ≡ sure_parts frame.now (looked + 1) }
        requires size { length due.old.listed ≡ length self.old.targets }
        ensures looked { OnOk result (HaveLooked R.grown (λ n r. map R.Change.node (R.changed_after n r)) frame.now looked
            self.old self.new due.old.listed due.new.listed) }
        ensures unlooked { OnErr result (self.new ≡ self.old) }
        ensures none_due { OnErr result (due.new ≡ due.old) }
    {
        frame.known();
        // The variable of a literal isn't 0.
        let _ = lit.var();
        if !lit.is_positive() {
            return Ok(());
        }
        let graph = frame.graph();
        graph.known();
        self.rows
            .grow(graph, part, frame.edges_at(looked), looked as u32)?;
        put_each_due::<R>(&self.lasts, &self.rows, looked as u32, due);
        Ok(())
    }

    /// Goes back to the first `kept` literals. It takes no memory.
    fn undo_to(&mut self, kept: u32)
        ensures same { self.new ≡ record self.old { rows = self.new.rows } }
        ensures undone { AllZip (R.undone kept) self.old.rows self.new.rows }
    {
        self.rows.undo_to(kept);
    }
}

impl<K: AsksWalk, R: ShowsWalks<K>> Rows<K> for SureRows<R> {
    ghost use Rattle.std.specs.Prelude.{false, length};
    ghost use Rattle.mono_theory.specs.RowSides.{AlwaysStand};
    ghost use Rattle.mono_theory.specs.SureRows.{shows_walk, AreSureRows};

    const IS_POSSIBLE: bool = false;

    ghost IS_POSSIBLE = { false };

    ghost are_right = { λ s f. AreSureRows K.covers R.along f (length f.seen) s };

    ghost shown = { λ s a. shows_walk R.shows s a };

    ghost stand = { AlwaysStand };

    fn are_few(alloc: Global, frame: &Frame) -> Result<bool, AllocError> {
        let sources = sources_of::<K>(alloc, frame)?;
        let count = sources.rows.len();
        let cells = count.saturating_mul(frame.graph().nodes() as usize);
        Ok(cells <= R::MOST_CELLS)
    }

    fn of_frame(alloc: Global, frame: &Frame) -> Result<Self, AllocError> {
        let graph = frame.graph();
        frame.known();
        let sources = sources_of::<K>(alloc, frame)?;
        let targets = targets_of::<K>(alloc, frame)?;
        let Sources { rows, row_of } = sources;
        let rows = SureRows::<R>::new(alloc, graph.nodes(), rows.as_slice(), row_of, targets)?;
        Ok(rows)
    }

    fn look_at(
        &mut self,
        frame: &Frame,
        part: &Part,
        looked: usize,
        lit: Lit,
        due: &mut Worklist,
    ) -> Result<(), AllocError> {
        SureRows::look_at(self, frame, part, looked, lit, due)?;
        Ok(())
    }

    fn settle(
        &mut self,
        alloc: Global,
        frame: &Frame,
        part: &Part,
        looked: usize,
        due: &mut Worklist,
    ) -> Result<(), AllocError> {
        frame.known();
        Ok(())
    }

    fn undo_to(&mut self, frame: &Frame, looked: usize, kept: usize) {
        frame.known();
        let _ = looked;
        SureRows::undo_to(self, kept as u32);
    }

    fn shows(&self, frame: &Frame, looked: usize, place: usize) -> bool {
        frame.known();
        let _ = looked;
        let target = self.target(place);
        let row = self.row(place);
        <R as ShowsWalks<K>>::shows(row, target)
    }

    fn evidence(
        &self,
        alloc: Global,
        frame: &Frame,
        looked: usize,
        place: usize,
        kept: usize,
    ) -> Result<Option<Evidence>, AllocError> {
        frame.known();
        let target = self.target(place);
        let stamp = kept.min(looked) as u32;
        let row = self.row(place);
        let Some(walk) = <R as ShowsWalks<K>>::walk_within(row, alloc, target, stamp)? else {
            return Ok(None);
        };
        let evidence = walk_evidence(alloc, frame.graph(), walk)?;
        Ok(Some(evidence))
    }
}
