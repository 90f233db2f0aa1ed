//! What is kept of searches along the edges of one side, while literals come and go.

ghost use Rattle.std.specs.Prelude.{◌<◌, ◌≤◌, ◌+◌, ◌≡◌, false, not, length, slice_index_or, take, true, IfOk, IfSome, IsTrue, OnErr, OnOk};

use crate::{Evidence, Frame, Kind, Threat};
use mono_base::{Lit, Worklist};
use mono_graph::Part;
use std::alloc::{AllocError, Global};

/// Rows of what was found along the surely present edges, or along the possibly present ones, by the first nodes of the atoms of
/// a frame: atoms that begin at one node share its row.
///
/// They follow the literals of the frame one by one (Ramalingam and Reps 1996): they are right for the first literals, those
/// that were looked at. While these come, the surely present edges only grow, and the possibly present ones only go. So what
/// the rows show of an atom, they show under more literals too, and each change says of which atoms it shows something new:
/// those are put in a set of atoms that are due. Going back drops what came with the other literals, and shows nothing new.
pub trait Rows<K: Kind>: Drop {
    ghost use Rattle.std.specs.Prelude.{Bool, ℕ};
    ghost use Rattle.mono_theory.specs.DueAtoms.{PutsDue};
    ghost use Rattle.mono_theory.specs.Evidences.{Decides, IsEvidence, shown_by};
    ghost use Rattle.mono_theory.specs.RowSides.{DecidesRest};
    ghost use Rattle.mono_theory.specs.Supports.{AreCovered, atom_at, part_of};
    ghost use Rattle.mono_theory.specs.Theories.{Facts, cut_to};
    ghost use Rattle.mono_theory.specs.Threats.{IsThreat};

    /// Whether the rows are of the possibly present edges, else of the surely present ones.
    const IS_POSSIBLE: bool;

    ghost IS_POSSIBLE: { Bool };

    /// They are right where these are the graph, the atoms and the literals that were looked at.
    ghost are_right: { Self → Facts → Type 0 };

    /// Whether they show of the atom at a place what the edges of their side may show of its predicate.
    ghost shown: { Self → ℕ → Bool };

    /// They are up to date for these literals. Rows that change with each literal always are.
    ghost stand: { Self → Facts → Type 0 };

    /// Whether the rows of the atoms of a frame are few enough to be kept. Either answer is right: it is a matter of memory.
    fn are_few(alloc: Global, frame: &Frame) -> Result<bool, AllocError>
        requires { AreCovered K.covers frame.now.atoms };

    /// The rows of the atoms of a frame where no literal was looked at.
    fn of_frame(alloc: Global, frame: &Frame) -> Result<Self, AllocError>
        requires { AreCovered K.covers frame.now.atoms }
        ensures { IfOk result (λ rows. are_right rows (cut_to 0 frame.now)) };

    /// Looks at the next literal, the one at place `looked`, and puts the atoms in `due` of which it shows something new. The
    /// part is that of the side which the literal leaves. Where memory is missing, it is still to be looked at.
    fn look_at(
        &mut self,
        frame: &Frame,
        part: &Part,
        looked: usize,
        lit: Lit,
        due: &mut Worklist,
    ) -> Result<(), AllocError>
        requires right { are_right self.old (cut_to looked frame.now) }
        requires covered { AreCovered K.covers frame.now.atoms }
        requires more { looked < length frame.now.seen }
        requires next { slice_index_or frame.now.seen looked lit ≡ lit }
        requires part { part.now ≡ part_of frame.now.graph (take (looked + 1) frame.now.seen) IS_POSSIBLE }
        requires size { length due.old.listed ≡ length frame.now.atoms }
        ensures looked { OnOk result (are_right self.new (cut_to (looked + 1) frame.now)) }
        ensures unlooked { OnErr result (are_right self.new (cut_to looked frame.now)) }
        ensures due { PutsDue (length frame.now.atoms) (shown self.old) (shown self.new) due.old.listed due.new.listed };

    /// Brings the rows up to date for the first `looked` literals, whose part is given, and puts the atoms in `due` of which that
    /// shows something new. What is shown of no atom is then decided the other way. Where memory is missing, some rows may not be
    /// up to date.
    fn settle(
        &mut self,
        alloc: Global,
        frame: &Frame,
        part: &Part,
        looked: usize,
        due: &mut Worklist,
    ) -> Result<(), AllocError>
        requires right { are_right self.old (cut_to looked frame.now) }
        requires covered { AreCovered K.covers frame.now.atoms }
        requires looked { looked ≤ length frame.now.seen }
        requires part { part.now ≡ part_of frame.now.graph (take looked frame.now.seen) IS_POSSIBLE }
        requires size { length due.old.listed ≡ length frame.now.atoms }
        ensures right { are_right self.new (cut_to looked frame.now) }
        ensures stand { OnOk result (stand self.new (cut_to looked frame.now)) }
        ensures rest { OnOk result (DecidesRest (cut_to looked frame.now) IS_POSSIBLE (shown self.new)) }
        ensures due { PutsDue (length frame.now.atoms) (shown self.old) (shown self.new) due.old.listed due.new.listed };

    /// Goes back from the first `looked` literals to the first `kept`, and shows nothing new. It takes no memory.
    fn undo_to(&mut self, frame: &Frame, looked: usize, kept: usize)
        requires right { are_right self.old (cut_to looked frame.now) }
        requires looked { looked ≤ length frame.now.seen }
        requires kept { kept ≤ looked }
        ensures right { are_right self.new (cut_to kept frame.now) }
        ensures shown { (a : ℕ) → a < length frame.now.atoms → shown self.new a ≡ true → shown self.old a ≡ true };

    /// Whether the rows show what edges of their side may show of the predicate of the atom at a place: the surely present ones
    /// that it holds, or that it fails if it falls as edges come, and the possibly present ones the other of the two. It asks for
    /// no search.
    fn shows(&self, frame: &Frame, looked: usize, place: usize) -> bool
        requires right { are_right self.now (cut_to looked frame.now) }
        requires looked { looked ≤ length frame.now.seen }
        requires covered { AreCovered K.covers frame.now.atoms }
        requires place { place < length frame.now.atoms }
        ensures shown { result ≡ shown self.now place }
        ensures decides { IsTrue result → Decides frame.now.graph (part_of frame.now.graph (take looked frame.now.seen) IS_POSSIBLE)
            (atom_at frame.now.atoms place).predicate (shown_by (atom_at frame.now.atoms place).predicate (not IS_POSSIBLE)) };

    /// What shows that the predicate of the atom at a place holds or fails with the edges of this side of the first `kept`
    /// literals, if what is kept shows it. Else a search finds it.
    fn evidence(
        &self,
        alloc: Global,
        frame: &Frame,
        looked: usize,
        place: usize,
        kept: usize,
    ) -> Result<Option<Evidence>, AllocError>
        requires right { are_right self.now (cut_to looked frame.now) }
        requires looked { looked ≤ length frame.now.seen }
        requires covered { AreCovered K.covers frame.now.atoms }
        requires place { place < length frame.now.atoms }
        requires kept { kept ≤ length frame.now.seen }
        ensures { IfOk result (λ found. IfSome found
            (IsEvidence frame.now.graph (part_of frame.now.graph (take kept frame.now.seen) IS_POSSIBLE)
            (atom_at frame.now.atoms place).predicate)) }
    {
        frame.known();
        let _ = (alloc, looked, place, kept);
        Ok(None)
    }

    /// An open edge that would break an atom if it were present, for rows of the surely present edges, or absent, for those of the
    /// possibly present ones, if one is at hand. All literals were looked at.
    fn threat(
        &mut self,
        alloc: Global,
        frame: &Frame,
        looked: usize,
    ) -> Result<Option<Threat>, AllocError>
        requires right { are_right self.old (cut_to looked frame.now) }
        requires covered { AreCovered K.covers frame.now.atoms }
        requires all { looked ≡ length frame.now.seen }
        ensures right { are_right self.new (cut_to looked frame.now) }
        ensures shown { (a : ℕ) → shown self.new a ≡ shown self.old a }
        ensures threat { IfOk result (λ found. IfSome found (IsThreat frame.now IS_POSSIBLE)) }
    {
        frame.known();
        let _ = (alloc, looked);
        Ok(None)
    }

    /// Whether the variable would better be decided true. The answer is free: nothing rests on it but how long a search takes.
    fn prefers(&self, frame: &Frame, looked: usize, var: u32) -> bool
        requires right { are_right self.now (cut_to looked frame.now) }
        requires looked { looked ≤ length frame.now.seen }
    {
        frame.known();
        let _ = (looked, var);
        false
    }
}
