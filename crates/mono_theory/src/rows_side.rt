//! What a theory keeps of its atoms by rows of what was found along the edges of one side.
//!
//! The rows are of the literals that were looked at. These are looked at only when an atom's literal is asked for, where
//! memory may be missing; a literal that comes takes no work before. Going back drops what came with the literals that go.
//!
//! What the rows show of an atom, they show under more literals too, and a literal of the atom that is true stays true. So an
//! atom that owes nothing only owes something when the rows show something new of it, or when its own literal goes: it is put
//! in a set of atoms that are due, and only these are asked. An atom that owes its literal stays due until that is true.

ghost use Rattle.std.specs.Prelude.{[], ◌≡◌, ◌+◌, ◌<◌, ◌≤◌, ℕ, Bool, false, not, length, min, replicate, take, true, IfOk, IsTrue, OnOk};
ghost use Rattle.mono_base.specs.Partial.{is_true_in};
ghost use Rattle.mono_steps.specs.Switching.{literal_of};
ghost use Rattle.mono_theory.specs.Evidences.{Decides, shown_by as shown_by_of};
ghost use Rattle.mono_theory.specs.RowSides.{AreRowsFor, AreSettledBut, DecidesRest};
ghost use Rattle.mono_theory.specs.Supports.{AreCovered, IsSettled, SideIs, atom_at, part_of};
ghost use Rattle.mono_theory.specs.Theories.{cut_to};

use crate::{Evidence, Force, Frame, Kind, Question, Rows, Side, Threat, literal, shown_by};
use mono_base::Worklist;
use mono_bounds::set_all;
use mono_graph::{Graph, Part};
use std::alloc::{AllocError, Global};
use std::marker::Model;

/// Rows of what was found along the edges of one side, and the literals that they are of.
///
/// Contracts see the part of the side that the literals looked at leave, how many these are, the rows, and which atoms are due.
pub struct RowsSide<R> {
    /// The part of the side that the literals looked at leave.
    part: Part,
    /// So many first literals were looked at.
    looked: usize,
    rows: R,
    /// The atoms that may owe a literal. All others owe nothing.
    due: Worklist,
}

impl<R: Drop> Drop for RowsSide<R> {
    fn drop(self) {
        let RowsSide {
            part: _,
            looked: _,
            rows: _,
            due: _,
        } = self;
    }
}

impl<R> Model for RowsSide<R> {
    ghost use Rattle.mono_theory.specs.RowSides.{RowsView};

    ghost Value = { RowsView R };

    ghost view = { λ s. record { part = s.part; looked = s.looked; rows = s.rows; due = s.due.listed } };
}

/// The part of a side follows the literal at a place: true variables bring edges to the surely present ones, and false ones
/// take edges from the possibly present ones.
fn follow(frame: &Frame, part: &mut Part, place: usize, possible: bool)
    requires place { place < length frame.now.seen }
    requires part { part.old ≡ part_of frame.now.graph (take place frame.now.seen) possible }
    ensures { part.new ≡ part_of frame.now.graph (take (place + 1) frame.now.seen) possible }
{
    frame.known();
    let lit = frame.literal_at(place);
    // The variable of a literal isn't 0.
    let _ = lit.var();
    if lit.is_positive() == possible {
        return;
    }
    set_all(frame.edges_at(place), part, !possible);
}

/// The part of a side goes back over the literal at a place.
fn follow_back(frame: &Frame, part: &mut Part, place: usize, possible: bool)
    requires place { place < length frame.now.seen }
    requires part { part.old ≡ part_of frame.now.graph (take (place + 1) frame.now.seen) possible }
    ensures { part.new ≡ part_of frame.now.graph (take place frame.now.seen) possible }
{
    frame.known();
    let lit = frame.literal_at(place);
    // The variable of a literal isn't 0.
    let _ = lit.var();
    if lit.is_positive() == possible {
        return;
    }
    set_all(frame.edges_at(place), part, possible);
}

/// The part goes back from the first literals to fewer.
fn undo_part_to(frame: &Frame, part: &mut Part, possible: bool, looked: usize, kept: usize)
    requires looked { looked ≤ length frame.now.seen }
    requires part { part.old ≡ part_of frame.now.graph (take looked frame.now.seen) possible }
    requires kept { kept ≤ looked }
    ensures { part.new ≡ part_of frame.now.graph (take kept frame.now.seen) possible }
{
    let mut at = looked;
    'back: while at > kept {
        at -= 1;
        follow_back(frame, part, at, possible);
    }
}

/// The atoms are due whose own literals aren't among the first `kept` literals any more.
fn undo_due_to(frame: &Frame, due: &mut Worklist, looked: usize, kept: usize)
    requires looked { looked ≤ length frame.now.seen }
    requires kept { kept ≤ looked }
    requires size { length due.old.listed ≡ length frame.now.atoms }
    ensures { (possible : Bool) → (shown : ℕ → Bool) → AreSettledBut (take looked frame.now.seen) possible frame.now.atoms shown due.old.listed
        → AreSettledBut (take kept frame.now.seen) possible frame.now.atoms shown due.new.listed }
{
    frame.known();
    let mut at = looked;
    'back: while at > kept {
        at -= 1;
        due.insert_all(frame.atoms_at(at));
    }
}

/// Looks at the next literal. Where memory is missing, it is still to be looked at.
fn look_at_next<K: Kind, R: Rows<K>>(
    side: &mut RowsSide<R>,
    frame: &Frame,
) -> Result<(), AllocError>
    requires more { side.old.looked < length frame.now.seen }
    requires right { AreRowsFor K.covers R.IS_POSSIBLE R.are_right R.shown frame.now side.old }
    ensures right { AreRowsFor K.covers R.IS_POSSIBLE R.are_right R.shown frame.now side.new }
    ensures looked { OnOk result (side.new.looked ≡ side.old.looked + 1) }
{
    frame.known();
    let lit = frame.literal_at(side.looked);
    follow(frame, &mut side.part, side.looked, R::IS_POSSIBLE);
    match side
        .rows
        .look_at(frame, &side.part, side.looked, lit, &mut side.due)
    {
        Ok(()) => {
            side.looked += 1;
            Ok(())
        }
        Err(error) => {
            follow_back(frame, &mut side.part, side.looked, R::IS_POSSIBLE);
            Err(error)
        }
    }
}

/// Looks at all literals.
fn look<K: Kind, R: Rows<K>>(side: &mut RowsSide<R>, frame: &Frame) -> Result<(), AllocError>
    requires right { AreRowsFor K.covers R.IS_POSSIBLE R.are_right R.shown frame.now side.old }
    ensures right { AreRowsFor K.covers R.IS_POSSIBLE R.are_right R.shown frame.now side.new }
    ensures all { OnOk result (side.new.looked ≡ length frame.now.seen) }
{
    'literals: while side.looked < frame.seen() {
        look_at_next::<K, R>(side, frame)?;
    }
    Ok(())
}

/// Brings the rows up to date for the literals that were looked at.
fn settle<K: Kind, R: Rows<K>>(
    side: &mut RowsSide<R>,
    alloc: Global,
    frame: &Frame,
) -> Result<(), AllocError>
    requires right { AreRowsFor K.covers R.IS_POSSIBLE R.are_right R.shown frame.now side.old }
    ensures right { AreRowsFor K.covers R.IS_POSSIBLE R.are_right R.shown frame.now side.new }
    ensures looked { side.new.looked ≡ side.old.looked }
    ensures stand { OnOk result (R.stand side.new.rows (cut_to side.old.looked frame.now)) }
    ensures rest { OnOk result (DecidesRest (cut_to side.old.looked frame.now) R.IS_POSSIBLE (R.shown side.new.rows)) }
{
    side.rows
        .settle(alloc, frame, &side.part, side.looked, &mut side.due)
}

/// Whether the rows show something of the atom at a place that its variable doesn't say.
fn owes<K: Kind, R: Rows<K>>(rows: &R, frame: &Frame, place: usize) -> bool
    requires right { R.are_right rows.now (cut_to (length frame.now.seen) frame.now) }
    requires covered { AreCovered K.covers frame.now.atoms }
    requires place { place < length frame.now.atoms }
    ensures shown { IsTrue result → Decides frame.now.graph (part_of frame.now.graph frame.now.seen R.IS_POSSIBLE)
        (atom_at frame.now.atoms place).predicate (shown_by_of (atom_at frame.now.atoms place).predicate (not R.IS_POSSIBLE)) }
    ensures open { IsTrue result → is_true_in frame.now.seen
        (literal_of (shown_by_of (atom_at frame.now.atoms place).predicate (not R.IS_POSSIBLE)) (atom_at frame.now.atoms place).var) ≡ false }
    ensures settled { result ≡ false → R.shown rows.now place ≡ true → IsSettled frame.now.seen R.IS_POSSIBLE (atom_at frame.now.atoms place) }
{
    if frame.is_settled(place, R::IS_POSSIBLE) {
        return false;
    }
    rows.shows(frame, frame.seen(), place)
}

/// The literal of an atom that is due and owes it. Atoms that owe nothing aren't due any more.
fn first_owed<K: Kind, R: Rows<K>>(rows: &R, frame: &Frame, due: &mut Worklist) -> Force
    requires right { R.are_right rows.now (cut_to (length frame.now.seen) frame.now) }
    requires covered { AreCovered K.covers frame.now.atoms }
    requires rest { DecidesRest frame.now R.IS_POSSIBLE (R.shown rows.now) }
    requires due { AreSettledBut frame.now.seen R.IS_POSSIBLE frame.now.atoms (R.shown rows.now) due.old.listed }
    ensures due { AreSettledBut frame.now.seen R.IS_POSSIBLE frame.now.atoms (R.shown rows.now) due.new.listed }
    ensures answer { SideIs frame.now R.IS_POSSIBLE result }
{
    'atoms: while let Some(place) = due.take_next() {
        if owes::<K, R>(rows, frame, place) {
            due.insert(place);
            let atom = frame.atom_at(place);
            return Force::Literal {
                atom: atom.number,
                lit: literal(atom.var, shown_by(atom.predicate, !R::IS_POSSIBLE)),
            };
        }
    }
    Force::Quiet
}

impl<R> RowsSide<R> {
    /// How many first literals were looked at.
    pub fn looked(&self) -> usize
        ensures { result ≡ self.now.looked }
    {
        self.looked
    }

    /// The rows, which are those of the literals that were looked at.
    pub fn rows(&self) -> &R
        ensures { result.now ≡ self.now.rows }
    {
        &self.rows
    }
}

/// All of so many atoms are due, the first of them first.
fn all_due(alloc: Global, count: usize) -> Result<Worklist, AllocError>
    ensures { IfOk result (λ due. due.listed ≡ replicate count true) }
{
    let mut due = Worklist::empty(alloc, count)?;
    due.fill();
    Ok(due)
}

/// The edges of a side before anything was seen: no edge is surely present, and all are possibly present.
fn first_part(alloc: Global, graph: &Graph, possible: bool) -> Result<Part, AllocError>
    ensures { IfOk result (λ part. part ≡ part_of graph.now [] possible) }
{
    let edges = graph.edge_count();
    if possible {
        let whole = Part::all(alloc, edges)?;
        return Ok(whole);
    }
    let none = Part::none(alloc, edges)?;
    Ok(none)
}

/// The rows of a frame that has seen nothing. All atoms are due.
pub(crate) fn side_of_rows<K: Kind, R: Rows<K>>(
    alloc: Global,
    frame: &Frame,
) -> Result<RowsSide<R>, AllocError>
    requires covered { AreCovered K.covers frame.now.atoms }
    requires unseen { frame.now.seen ≡ [] }
    ensures { IfOk result (AreRowsFor K.covers R.IS_POSSIBLE R.are_right R.shown frame.now) }
{
    let part = first_part(alloc, frame.graph(), R::IS_POSSIBLE)?;
    let due = all_due(alloc, frame.atom_count())?;
    let rows = R::of_frame(alloc, frame)?;
    Ok(RowsSide {
        part,
        looked: 0,
        rows,
        due,
    })
}

impl<K: Kind, R: Rows<K>> Side<K> for RowsSide<R> {
    ghost use Rattle.mono_theory.specs.RowSides.{AreRowsFor, AreUpToDate};

    ghost possible = { λ _. R.IS_POSSIBLE };

    ghost is_right = { λ s f. AreRowsFor K.covers R.IS_POSSIBLE R.are_right R.shown f s };

    ghost keeps = { λ _ _ s r. r ≡ s };

    ghost keeps_back = { λ _ kept s r. r.looked ≡ min s.looked kept };

    ghost decides = { λ s f. AreUpToDate R.stand f s };

    fn assign(&mut self, frame: &Frame) {
        frame.known();
    }

    fn undo_to(&mut self, frame: &Frame, kept: usize) {
        frame.known();
        if self.looked <= kept {
            return;
        }
        undo_part_to(frame, &mut self.part, R::IS_POSSIBLE, self.looked, kept);
        undo_due_to(frame, &mut self.due, self.looked, kept);
        self.rows.undo_to(frame, self.looked, kept);
        self.looked = kept;
    }

    fn force(&mut self, alloc: Global, kind: &mut K, frame: &Frame) -> Result<Force, AllocError> {
        look::<K, R>(self, frame)?;
        settle::<K, R>(self, alloc, frame)?;
        Ok(first_owed::<K, R>(&self.rows, frame, &mut self.due))
    }

    fn explain(
        &self,
        alloc: Global,
        kind: &mut K,
        frame: &mut Frame,
        question: Question,
    ) -> Result<Evidence, AllocError> {
        frame.known();
        let place = question.place as usize;
        match self
            .rows
            .evidence(alloc, frame, self.looked, place, question.kept)?
        {
            Some(evidence) => Ok(evidence),
            None => frame.evidence_at::<K>(alloc, kind, None, question),
        }
    }

    fn threat(&mut self, alloc: Global, frame: &Frame) -> Result<Option<Threat>, AllocError> {
        if self.looked < frame.seen() {
            return Ok(None);
        }
        let found = self.rows.threat(alloc, frame, self.looked)?;
        Ok(found)
    }

    fn prefers(&self, frame: &Frame, var: u32) -> bool {
        self.rows.prefers(frame, self.looked, var)
    }
}
