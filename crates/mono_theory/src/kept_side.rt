//! What is kept of each atom on one side: the evidence that its last searches found.
//!
//! While the edges on which evidence rests stay as they are, so does what it shows, whatever else comes and goes. So a
//! literal makes only those atoms wait that stand on an edge that it changes, and literals that go only those that they
//! settled. Evidence that isn't right at present is kept, since it may be right again when literals go.

ghost use Rattle.std.specs.Prelude.{◌≡◌, ◌<◌, ◌≤◌, Bool, Some, None, IsSome, not, true, false, length, slice_set, All, IfOk, IfNone, IfSome, IsTrue, MatchOption};
ghost use Rattle.mono_base.specs.Partial.{is_true_in};
ghost use Rattle.mono_steps.specs.Switching.{literal_of};
ghost use Rattle.mono_theory.specs.Evidences.{shown_by};
ghost use Rattle.mono_theory.specs.Sound.{IsRightIn, IsSound, evidence_at};
ghost use Rattle.mono_theory.specs.Stages.{NoneWaits};
ghost use Rattle.mono_theory.specs.Supports.{IsAlike, IsFewer, IsKeptBy, IsNext, IsSide, IsSettled, SideView, atom_at, gone_back, part_of, with_watchers};
ghost use Rattle.mono_theory.specs.Theories.{Facts, but_last, cut_to, last_seen};
ghost use Rattle.mono_theory.specs.Watching.{AreWatched, WatchesIts};

use crate::frame::Frame;
use crate::invalidation::invalidate;
use crate::kept_evidence::{KeptEvidence, edges_of};
use crate::looking::force_by;
use crate::stages::Stages;
use crate::wanting::{any_wants, first_open};
use crate::watchers::Watchers;
use crate::{Evidence, Force, Kind, NewSide, Question, Side, Stage};
use mono_graph::Part;
use mono_steps::Witness;
use std::alloc::{AllocError, Global};
use std::marker::Model;

/// What is kept of the atoms on one side, and which of it is known to be right.
pub struct KeptSide {
    /// Whether the side is that of the possibly present edges.
    possible: bool,
    /// By what the atoms owe nothing.
    supports: KeptEvidence,
    /// By what they force their literals.
    shown: KeptEvidence,
    watchers: Watchers,
    stages: Stages,
    /// Whether the predicates of settled atoms are decided too.
    thorough: bool,
}

impl Drop for KeptSide {
    fn drop(self) {
        let KeptSide {
            possible: _,
            supports: _,
            shown: _,
            watchers: _,
            stages: _,
            thorough: _,
        } = self;
    }
}

impl Model for KeptSide {
    ghost use Rattle.mono_theory.specs.Supports.{AreByAtom, SideView};

    ghost Value = { SideView };

    ghost view = { λ s. record {
      possible = s.possible;
      supports = s.supports;
      shown = s.shown;
      watchers = s.watchers;
      stages = s.stages;
      thorough = s.thorough;
    } };

    ghost invariant = { λ s. AreByAtom s.supports s.shown s.stages };
}

impl KeptSide {
    ghost use Rattle.std.specs.Prelude.{◌≢◌};
    ghost use Rattle.mono_theory.specs.declared.stage.Stage.TheVariants as stage;
    ghost use Rattle.mono_theory.specs.Sound.{IsWitnessIn};
    ghost use Rattle.mono_theory.specs.Stages.{shows, stage_at};

    /// Nothing is kept, and every atom waits.
    fn new(
        alloc: Global,
        atoms: u32,
        edges: u32,
        possible: bool,
        thorough: bool,
    ) -> Result<KeptSide, AllocError>
        ensures side { IfOk result (λ s. (f : Facts) → length f.atoms ≡ atoms → length f.graph.edges ≡ edges → IsSide f possible s) }
        ensures thorough { IfOk result (λ s. s.thorough ≡ thorough) }
    {
        let supports = KeptEvidence::new(alloc, atoms)?;
        let shown = KeptEvidence::new(alloc, atoms)?;
        let watchers = Watchers::of_supports(alloc, edges, &supports)?;
        let stages = Stages::new(alloc, atoms)?;
        Ok(KeptSide {
            possible,
            supports,
            shown,
            watchers,
            stages,
            thorough,
        })
    }

    /// The frame has seen one more literal, its last one. An atom waits where its support needs an edge that the literal changes.
    fn assign(&mut self, frame: &Frame)
        requires some { 0 < length frame.now.seen }
        requires side { IsSide (but_last frame.now) self.old.possible self.old }
        ensures side { IsSide frame.now self.new.possible self.new }
        ensures kept { IsKeptBy frame.now.graph self.old.possible (last_seen frame.now) self.old self.new }
    {
        frame.known();
        let seen = frame.seen();
        let lit = frame.literal_at(seen - 1);
        // The variable of a literal isn't 0.
        let _ = lit.var();
        if lit.is_positive() != self.possible {
            let edges = frame.edges_at(seen - 1);
            invalidate(&self.supports, &self.watchers, &mut self.stages, edges);
        }
    }

    /// The list is cut to its first `kept` literals. An atom waits where a later one settled it.
    fn undo_to(&mut self, kept: usize)
        ensures exact { self.new ≡ gone_back kept self.old }
        ensures side { (f : Facts) → kept ≤ length f.seen → IsSide f self.old.possible self.old → IsSide (cut_to kept f) self.new.possible self.new }
    {
        self.stages.undo_to(kept);
    }

    /// Whether the support of an atom whose variable is true has an edge of the variable.
    fn is_wanted(&self, frame: &Frame, var: u32) -> bool
        requires side { IsSide frame.now self.now.possible self.now }
    {
        frame.known();
        let edges = frame.edges_of(var);
        any_wants(frame, &self.supports, &self.watchers, edges)
    }

    /// The variable of an open edge in the support of the atom, if the atom's variable is true.
    fn wanted_by(&self, frame: &Frame, atom: u32) -> Option<u32>
        requires side { IsSide frame.now self.now.possible self.now }
        requires atom { atom < length frame.now.atoms }
    {
        if !frame.is_true(atom as usize) {
            return None;
        }
        match self.support(frame, atom) {
            Some(support) => first_open(frame, support.edges.as_slice()),
            None => None,
        }
    }

    /// Whether the side is that of the possibly present edges.
    pub(crate) fn is_possible(&self) -> bool
        ensures { result ≡ self.now.possible }
    {
        self.possible
    }

    /// The edges of the side.
    pub(crate) fn part<'a>(&self, frame: &'a Frame) -> &'a Part
        ensures part { result.now ≡ part_of frame.now.graph frame.now.seen self.now.possible }
        ensures size { length result.now ≡ length frame.now.graph.edges }
    {
        frame.part(self.possible)
    }

    /// Whether the variable of the atom has the value that the side would force.
    pub(crate) fn is_settled(&self, frame: &Frame, atom: u32) -> bool
        requires { atom < length frame.now.atoms }
        ensures settled { IsTrue result → IsSettled frame.now.seen self.now.possible (atom_at frame.now.atoms atom) }
        ensures open { result ≡ false → is_true_in frame.now.seen
            (literal_of (shown_by (atom_at frame.now.atoms atom).predicate (not self.now.possible)) (atom_at frame.now.atoms atom).var) ≡ false }
    {
        frame.is_settled(atom as usize, self.possible)
    }

    /// An atom that waits: `None` exactly where none does.
    pub(crate) fn next(&self) -> Option<u32>
        ensures { MatchOption result (NoneWaits self.now.stages) (IsNext self.now) }
    {
        self.stages.next()
    }

    /// Whether the predicates of settled atoms are decided too.
    pub(crate) fn is_thorough(&self) -> bool
        ensures { result ≡ self.now.thorough }
    {
        self.thorough
    }

    /// Whether the support of the atom is right.
    pub(crate) fn is_supported(&self, frame: &Frame, atom: u32) -> bool
        requires side { IsSide frame.now self.now.possible self.now }
        requires atom { atom < length frame.now.atoms }
        ensures { IsTrue result → IsRightIn (part_of frame.now.graph frame.now.seen self.now.possible) self.now.possible (evidence_at self.now.supports atom) }
    {
        self.supports
            .is_right(self.part(frame), atom, self.possible)
    }

    /// Whether what is shown of the atom is right.
    pub(crate) fn is_shown(&self, frame: &Frame, atom: u32) -> bool
        requires side { IsSide frame.now self.now.possible self.now }
        requires atom { atom < length frame.now.atoms }
        ensures { IsTrue result → IsRightIn (part_of frame.now.graph frame.now.seen self.now.possible) (not self.now.possible)
            (evidence_at self.now.shown atom) }
    {
        self.shown.is_right(self.part(frame), atom, !self.possible)
    }

    /// The support that is kept of the atom, if there is one. It rests on edges of the side's own value, and needn't be right.
    pub(crate) fn support(&self, frame: &Frame, atom: u32) -> Option<&Evidence>
        requires side { IsSide frame.now self.now.possible self.now }
        requires atom { atom < length frame.now.atoms }
        ensures { IfSome result (λ e. IsSound frame.now.graph (atom_at frame.now.atoms atom).predicate self.now.possible e.now) }
    {
        frame.known();
        self.supports.at(atom).as_ref()
    }

    /// An atom that waits stands on its support, which is right.
    pub(crate) fn stand(&mut self, atom: u32)
        requires next { IsNext self.old atom }
        ensures side { (f : Facts) → IsSide f self.old.possible self.old
            → IsRightIn (part_of f.graph f.seen self.old.possible) self.old.possible (evidence_at self.old.supports atom)
            → IsSide f self.new.possible self.new }
        ensures fewer { IsFewer self.old self.new }
    {
        self.stages.stand(atom);
    }

    /// An atom that waits and is settled shows.
    pub(crate) fn show(&mut self, frame: &Frame, atom: u32)
        requires side { IsSide frame.now self.old.possible self.old }
        requires next { IsNext self.old atom }
        requires settled { IsSettled frame.now.seen self.old.possible (atom_at frame.now.atoms atom) }
        requires right { self.old.thorough ≡ true
            → IsRightIn (part_of frame.now.graph frame.now.seen self.old.possible) (not self.old.possible) (evidence_at self.old.shown atom) }
        ensures side { IsSide frame.now self.new.possible self.new }
        ensures fewer { IsFewer self.old self.new }
    {
        self.stages.show(atom, frame.seen());
    }

    /// Makes the lists of watchers anew where they have grown too long.
    fn renew(&mut self, alloc: Global, frame: &Frame) -> Result<(), AllocError>
        requires side { IsSide frame.now self.old.possible self.old }
        ensures side { IsSide frame.now self.new.possible self.new }
        ensures same { self.new ≡ with_watchers self.old self.new.watchers }
    {
        if self.watchers.is_full() {
            let edges = frame.graph().edge_count();
            frame.known();
            self.watchers = Watchers::of_supports(alloc, edges, &self.supports)?;
        }
        Ok(())
    }

    /// The atom watches these edges, as it does those of its support.
    fn watch(&mut self, atom: u32, edges: &[u32]) -> Result<(), AllocError>
        requires atom { atom < length self.old.stages }
        requires its { WatchesIts self.old.watchers atom (evidence_at self.old.supports atom) }
        requires edges { All (λ k. k < length self.old.watchers) edges.now }
        ensures side { (f : Facts) → atom < length f.atoms → IsSide f self.old.possible self.old → IsSide f self.new.possible self.new }
        ensures same { self.new ≡ with_watchers self.old self.new.watchers }
        ensures watched { IfOk result (λ _. AreWatched self.new.watchers atom edges.now) }
    {
        let known = edges_of(self.supports.at(atom));
        self.watchers.watch(atom, known, edges)
    }

    /// This is the support of an atom that waits and watches its edges.
    fn put_support(&mut self, atom: u32, support: Evidence)
        requires next { IsNext self.old atom }
        requires watched { AreWatched self.old.watchers atom support.edges }
        ensures side { (f : Facts) → IsSound f.graph (atom_at f.atoms atom).predicate self.old.possible support → IsSide f self.old.possible self.old
            → IsSide f self.new.possible self.new }
        ensures same { self.new ≡ record self.old { supports = slice_set self.old.supports atom (Some support) } }
    {
        self.supports.put(atom, support);
    }

    /// An atom that waits stands on this support.
    pub(crate) fn take_up(
        &mut self,
        alloc: Global,
        frame: &Frame,
        atom: u32,
        support: Evidence,
    ) -> Result<(), AllocError>
        requires side { IsSide frame.now self.old.possible self.old }
        requires next { IsNext self.old atom }
        requires sound { IsSound frame.now.graph (atom_at frame.now.atoms atom).predicate self.old.possible support }
        requires right { IsRightIn (part_of frame.now.graph frame.now.seen self.old.possible) self.old.possible (Some support) }
        ensures side { IsSide frame.now self.new.possible self.new }
        ensures alike { IsAlike self.old self.new }
        ensures fewer { IfOk result (λ _. IsFewer self.old self.new) }
    {
        self.renew(alloc, frame)?;
        self.watch(atom, support.edges.as_slice())?;
        self.put_support(atom, support);
        self.stand(atom);
        Ok(())
    }

    /// This is shown of an atom that waits.
    pub(crate) fn put_shown(&mut self, atom: u32, shown: Evidence)
        requires next { IsNext self.old atom }
        ensures side { (f : Facts) → IsSound f.graph (atom_at f.atoms atom).predicate (not self.old.possible) shown
            → IsSide f self.old.possible self.old → IsSide f self.new.possible self.new }
        ensures same { self.new ≡ record self.old { shown = slice_set self.old.shown atom (Some shown) } }
    {
        self.shown.put(atom, shown);
    }

    /// What was last shown of an atom. It is right wherever its edges are as it needs them.
    fn shown_at(&self, atom: u32) -> &Option<Evidence>
        requires { atom < length self.now.stages }
        ensures { result.now ≡ evidence_at self.now.shown atom }
    {
        self.shown.at(atom)
    }

    /// What is known of the atom at a place.
    pub fn stage(&self, atom: u32) -> Stage
        requires { atom < length self.now.stages }
        ensures { result ≡ stage_at self.now.stages atom }
    {
        self.stages.stage(atom)
    }

    /// The witness by which an atom owes nothing. It rests on edges that are possibly present, or on edges that aren't surely
    /// present: `None` exactly where the atom doesn't stand.
    pub fn support_witness(&self, atom: u32) -> Option<&Witness>
        requires { atom < length self.now.stages }
        ensures none { (f : Facts) → (possible : Bool) → IsSide f possible self.now → IfNone result (stage_at self.now.stages atom ≢ stage.Stands) }
        ensures stands { IsSome result → stage_at self.now.stages atom ≡ stage.Stands }
        ensures its { IfSome result (λ w. MatchOption (evidence_at self.now.supports atom) ⊥ (λ e. w.now ≡ e.witness)) }
        ensures right { IfSome result (λ w. (f : Facts) → (possible : Bool) → IsSide f possible self.now
            → IsWitnessIn f.graph (part_of f.graph f.seen possible) (atom_at f.atoms atom).predicate possible w.now) }
    {
        match self.stage(atom) {
            Stage::Stands => witness_of(self.supports.at(atom)),
            _ => None,
        }
    }

    /// The witness by which an atom forces its literal. It rests on edges that aren't possibly present, or on edges that are
    /// surely present. Where the predicates of settled atoms are decided, it is `None` exactly where the atom doesn't show.
    pub fn shown_witness(&self, atom: u32) -> Option<&Witness>
        requires { atom < length self.now.stages }
        ensures none { (f : Facts) → (possible : Bool) → IsSide f possible self.now → self.now.thorough ≡ true
            → IfNone result (shows (stage_at self.now.stages atom) ≡ false) }
        ensures shows { IsSome result → shows (stage_at self.now.stages atom) ≡ true }
        ensures its { IfSome result (λ w. MatchOption (evidence_at self.now.shown atom) ⊥ (λ e. w.now ≡ e.witness)) }
        ensures right { IfSome result (λ w. (f : Facts) → (possible : Bool) → IsSide f possible self.now
            → IsWitnessIn f.graph (part_of f.graph f.seen possible) (atom_at f.atoms atom).predicate (not possible) w.now) }
    {
        if !self.thorough {
            return None;
        }
        match self.stage(atom) {
            Stage::Shows(_) => witness_of(self.shown_at(atom)),
            _ => None,
        }
    }
}

/// The witness of the evidence, if there is any.
fn witness_of(evidence: &Option<Evidence>) -> Option<&Witness>
    ensures none { IfNone result (evidence.now ≡ None) }
    ensures some { IfSome result (λ w. MatchOption evidence.now ⊥ (λ e. w.now ≡ e.witness)) }
{
    match evidence {
        None => None,
        Some(known) => Some(&known.witness),
    }
}

impl<K: Kind> Side<K> for KeptSide {
    ghost use Rattle.mono_theory.specs.Stages.{NoneWaits};
    ghost use Rattle.mono_theory.specs.Supports.{IsKeptBy, IsSideFor, gone_back};

    ghost possible = { λ side. side.possible };

    ghost is_right = { λ side f. IsSideFor f side.possible K.IS_THOROUGH side };

    ghost keeps = { λ f l before after. IsKeptBy f.graph before.possible l before after };

    ghost keeps_back = { λ _ kept before after. after ≡ gone_back kept before };

    ghost decides = { λ side _. NoneWaits side.stages };

    fn assign(&mut self, frame: &Frame) {
        KeptSide::assign(self, frame);
    }

    fn undo_to(&mut self, frame: &Frame, kept: usize) {
        frame.known();
        KeptSide::undo_to(self, kept);
    }

    fn force(&mut self, alloc: Global, kind: &mut K, frame: &Frame) -> Result<Force, AllocError> {
        force_by::<K>(alloc, kind, frame, self)
    }

    fn explain(
        &self,
        alloc: Global,
        kind: &mut K,
        frame: &mut Frame,
        question: Question,
    ) -> Result<Evidence, AllocError> {
        frame.known();
        let known = self.shown_at(question.place).as_ref();
        frame.evidence_at::<K>(alloc, kind, known, question)
    }

    fn prefers(&self, frame: &Frame, var: u32) -> bool {
        self.is_wanted(frame, var)
    }

    fn wanted(&self, frame: &Frame, place: u32) -> Option<u32> {
        self.wanted_by(frame, place)
    }
}

impl<K: Kind> NewSide<K> for KeptSide {
    fn of_frame(alloc: Global, frame: &Frame, possible: bool) -> Result<Self, AllocError> {
        let edges = frame.graph().edge_count();
        let atoms = frame.atom_count() as u32;
        KeptSide::new(alloc, atoms, edges, possible, K::IS_THOROUGH)
    }
}
