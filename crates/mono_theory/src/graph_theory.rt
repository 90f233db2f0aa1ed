//! Theories of one kind of predicate.
//!
//! What was seen stands in a frame; the kind alone knows what shows a predicate. For each side something is kept of the
//! atoms from one question to the next. Where a kind knows nothing better, these are the edges on which the last answer
//! rests. So a literal makes work only for the atoms that rest on its edges, and an undone one only for those that lost
//! their support.

ghost use Rattle.std.specs.Prelude.{◌≡◌, ◌<◌, ◌≤◌, ◌++◌, ◌∷◌, [], ℕ, true, false, take, map, length, All, Some, IfOk, IsTrue};
ghost use Rattle.mono_problem.specs.Instance.{graph_at};
ghost use Rattle.mono_problem.specs.Read.{atom_numbered};
ghost use Rattle.mono_theory.specs.Frames.{AreNumbersOf};
ghost use Rattle.mono_theory.specs.Theories.{atom_of, concerns_of, FindingIs, ForceIs, ForcesBy, IsLemmaOf};
ghost use Rattle.mono_base.specs.Literal.{var_of};
ghost use Rattle.mono_base.specs.Partial.{is_open_in};
ghost use Rattle.mono_theory.specs.Questions.{IsAnswer};
ghost use Rattle.mono_theory.specs.Supports.{AreCovered, IsSideOf, atom_at, facts_in};

use crate::evidence::{lemma_of, shown_by};
use crate::frame::Frame;
use crate::threat::unit_lemma_of;
use crate::{Evidence, Finding, Force, KeptSide, Kind, NewSide, Question, Side, Theory, UnitLemma};
use mono_base::Lit;
use mono_problem::{Atom, Problem};
use mono_steps::Lemma;
use std::alloc::{AllocError, Global};
use std::marker::Model;

/// What answers a question, by the side whose edges force its literal.
fn answer<K: Kind, S: Side<K>, P: Side<K>>(
    alloc: Global,
    kind: &mut K,
    surely: &S,
    possibly: &P,
    frame: &mut Frame,
    question: Question,
) -> Result<Evidence, AllocError>
    requires size { K.nodes kind.old ≡ frame.old.graph.nodes }
    requires covered { AreCovered K.covers frame.old.atoms }
    requires surely { IsSideOf frame.old false (S.is_right surely.now) (S.possible surely.now) }
    requires possibly { IsSideOf frame.old true (P.is_right possibly.now) (P.possible possibly.now) }
    requires place { question.place < length frame.old.atoms }
    requires kept { question.kept ≤ length frame.old.seen }
    ensures size { K.nodes kind.new ≡ K.nodes kind.old }
    ensures same { frame.new ≡ frame.old }
    ensures evidence { IfOk result (IsAnswer frame.old question) }
{
    let predicate = frame.atom_at(question.place as usize).predicate;
    if shown_by(predicate, question.lit.is_positive()) {
        surely.explain(alloc, kind, frame, question)
    } else {
        possibly.explain(alloc, kind, frame, question)
    }
}

/// The lemma by which an atom forces a literal, for any number under which it stands.
fn explanation<K: Kind, S: Side<K>, P: Side<K>>(
    alloc: Global,
    kind: &mut K,
    surely: &S,
    possibly: &P,
    frame: &mut Frame,
    question: Question,
) -> Result<Lemma, AllocError>
    requires size { K.nodes kind.old ≡ frame.old.graph.nodes }
    requires covered { AreCovered K.covers frame.old.atoms }
    requires surely { IsSideOf frame.old false (S.is_right surely.now) (S.possible surely.now) }
    requires possibly { IsSideOf frame.old true (P.is_right possibly.now) (P.possible possibly.now) }
    requires place { question.place < length frame.old.atoms }
    requires kept { question.kept ≤ length frame.old.seen }
    ensures size { K.nodes kind.new ≡ K.nodes kind.old }
    ensures same { frame.new ≡ frame.old }
    ensures lemma { (n : ℕ) → atom_of frame.old.atoms n ≡ Some (atom_at frame.old.atoms question.place)
        → ForcesBy frame.old.graph frame.old.atoms (take question.kept frame.old.seen) n question.lit
        → IfOk result (IsLemmaOf frame.old.graph frame.old.atoms (take question.kept frame.old.seen) n question.lit) }
{
    let atom = frame.atom_at(question.place as usize);
    let evidence = answer::<K, S, P>(alloc, kind, surely, possibly, frame, question)?;
    lemma_of(alloc, frame.graph(), atom, evidence)
}

/// The variable of an open edge that the first atom which wants one would have present.
fn first_wanted<K: Kind, S: Side<K>>(side: &S, frame: &Frame) -> Option<u32>
    requires { S.is_right side.now frame.now }
{
    for place in 0..frame.atom_count() as u32 {
        if let Some(var) = side.wanted(frame, place) {
            return Some(var);
        }
    }
    None
}

/// A theory of atoms of one kind over one graph.
///
/// Contracts see the graph, the atoms, the literals seen, and what is kept of the atoms with the surely present edges and with
/// the possibly present ones.
pub struct GraphTheory<K: Kind, S: Side<K> = KeptSide, P: Side<K> = KeptSide> {
    alloc: Global,
    frame: Frame,
    kind: K,
    /// What is kept of the atoms with the surely present edges, and with the possibly present ones.
    surely: S,
    possibly: P,
    /// How many literals it has explained, up to the last value of the type.
    explained: u32,
}

impl<K: Kind, S: Side<K>, P: Side<K>> Drop for GraphTheory<K, S, P> {
    fn drop(self) {
        let GraphTheory {
            alloc: _,
            frame: _,
            kind: _,
            surely: _,
            possibly: _,
            explained: _,
        } = self;
    }
}

impl<K: Kind, S: Side<K>, P: Side<K>> Model for GraphTheory<K, S, P> {
    ghost use Rattle.mono_theory.specs.Supports.{GraphTheoryView, IsRightTheory};

    ghost Value = { GraphTheoryView S P };

    ghost view = { λ s. record { graph = s.frame.graph; atoms = s.frame.atoms; seen = s.frame.seen; surely = s.surely; possibly = s.possibly } };

    ghost invariant = { λ s. IsRightTheory K.covers (K.nodes s.kind) s.frame (S.is_right s.surely) (S.possible s.surely) (P.is_right s.possibly)
        (P.possible s.possibly) };
}

/// The atoms of these numbers.
fn atoms_of(alloc: Global, problem: &Problem, numbers: &[u32]) -> Result<Vec<Atom>, AllocError>
    requires { All (λ n. (0 < n) × (n ≤ length problem.now.atoms)) numbers.now }
    ensures { IfOk result (λ atoms. atoms.items ≡ map (atom_numbered problem.now) numbers.now) }
{
    let mut atoms = Vec::new(alloc);
    for number in numbers {
        let atom = problem.atom(*number);
        atoms.push(atom)?;
    }
    Ok(atoms)
}

/// A frame of a graph of the problem and of the atoms of these numbers. Nothing was seen yet.
fn frame_of<K: Kind>(
    alloc: Global,
    problem: &Problem,
    graph: u32,
    numbers: &[u32],
) -> Result<Frame, AllocError>
    requires place { graph < length problem.now.graphs }
    requires atoms { AreNumbersOf K.covers problem.now graph numbers.now }
    ensures { IfOk result (λ f. f ≡ record { graph = graph_at problem.now graph; atoms = map (atom_numbered problem.now) numbers.now; seen = [] }) }
{
    problem.known();
    let held = atoms_of(alloc, problem, numbers)?;
    let own = problem.graph(graph).copy()?;
    Frame::new(alloc, own, held)
}

/// Room for searches in the graph of a frame that has seen nothing, and what is kept of its atoms with the surely present edges
/// and with the possibly present ones.
fn parts_of<K: Kind, S: NewSide<K>, P: NewSide<K>>(
    alloc: Global,
    frame: &Frame,
) -> Result<(K, S, P), AllocError>
    requires covered { AreCovered K.covers frame.now.atoms }
    requires unseen { frame.now.seen ≡ [] }
    ensures size { IfOk result (λ parts. K.nodes parts.0 ≡ frame.now.graph.nodes) }
    ensures surely { IfOk result (λ parts. IsSideOf frame.now false (S.is_right parts.1) (S.possible parts.1)) }
    ensures possibly { IfOk result (λ parts. IsSideOf frame.now true (P.is_right parts.2) (P.possible parts.2)) }
{
    let kind = K::with_nodes(alloc, frame.graph().nodes())?;
    let surely = S::of_frame(alloc, frame, false)?;
    let possibly = P::of_frame(alloc, frame, true)?;
    Ok((kind, surely, possibly))
}

impl<K: Kind, S: NewSide<K>, P: NewSide<K>> GraphTheory<K, S, P> {
    /// The theory of some atoms over a graph of the problem. The numbers are those of different atoms of the kind over that
    /// graph. Nothing was seen yet.
    pub fn new(
        alloc: Global,
        problem: &Problem,
        graph: u32,
        atoms: &[u32],
    ) -> Result<GraphTheory<K, S, P>, AllocError>
        requires place { graph < length problem.now.graphs }
        requires atoms { AreNumbersOf K.covers problem.now graph atoms.now }
        ensures { IfOk result (λ s. facts_in s ≡ record { graph = graph_at problem.now graph; atoms = map (atom_numbered problem.now) atoms.now; seen = [] }) }
    {
        let frame = frame_of::<K>(alloc, problem, graph, atoms)?;
        let (kind, surely, possibly) = parts_of::<K, S, P>(alloc, &frame)?;
        Ok(GraphTheory {
            alloc,
            frame,
            kind,
            surely,
            possibly,
            explained: 0,
        })
    }
}

impl<K: Kind, S: Side<K>, P: Side<K>> GraphTheory<K, S, P> {
    /// The graph, the atoms and the literals seen.
    pub fn frame(&self) -> &Frame
        ensures { result.now ≡ facts_in self.now }
    {
        &self.frame
    }

    /// What is kept of the atoms with the surely present edges.
    pub fn surely(&self) -> &S
        ensures value { result.now ≡ self.now.surely }
        ensures right { S.is_right self.now.surely (facts_in self.now) }
        ensures sign { S.possible self.now.surely ≡ false }
        ensures covered { AreCovered K.covers self.now.atoms }
    {
        &self.surely
    }

    /// What is kept of them with the possibly present edges.
    pub fn possibly(&self) -> &P
        ensures value { result.now ≡ self.now.possibly }
        ensures right { P.is_right self.now.possibly (facts_in self.now) }
        ensures sign { P.possible self.now.possibly ≡ true }
        ensures covered { AreCovered K.covers self.now.atoms }
    {
        &self.possibly
    }
}

impl<K: Kind, S: Side<K>, P: Side<K>> Theory for GraphTheory<K, S, P> {
    ghost graph = { λ s. s.graph };

    ghost atoms = { λ s. s.atoms };

    ghost seen = { λ s. s.seen };

    fn concerns(&self, var: u32) -> bool {
        self.frame.concerns(var)
    }

    fn variables(&self) -> Option<&[u32]> {
        Some(self.frame.variables())
    }

    fn prefers(&self, var: u32) -> bool {
        self.explained < K::MOST_FOLLOWED
            && self.frame.graph().edge_count() >= K::LEAST_FOLLOWED
            && self.possibly.prefers(&self.frame, var)
    }

    fn wanted(&self) -> Option<u32> {
        if K::MOST_FOLLOWED == 0 {
            return None;
        }
        first_wanted::<K, P>(&self.possibly, &self.frame)
    }

    fn seen(&self) -> usize {
        self.frame.seen()
    }

    fn owns(&self, atom: u32) -> bool {
        self.frame.owns(atom)
    }

    fn assign(&mut self, lit: Lit)
        requires concerned { IsTrue (concerns_of self.old.graph self.old.atoms (var_of lit)) }
        requires fresh { IsTrue (is_open_in self.old.seen lit) }
        ensures graph { self.new.graph ≡ self.old.graph }
        ensures atoms { self.new.atoms ≡ self.old.atoms }
        ensures seen { self.new.seen ≡ self.old.seen ++ lit ∷ [] }
        ensures surely { S.keeps (facts_in self.old) lit self.old.surely self.new.surely }
        ensures possibly { P.keeps (facts_in self.old) lit self.old.possibly self.new.possibly }
    {
        self.frame.assign(lit);
        self.surely.assign(&self.frame);
        self.possibly.assign(&self.frame);
    }

    fn undo_to(&mut self, kept: usize)
        requires { kept ≤ length self.old.seen }
        ensures graph { self.new.graph ≡ self.old.graph }
        ensures atoms { self.new.atoms ≡ self.old.atoms }
        ensures seen { self.new.seen ≡ take kept self.old.seen }
        ensures surely { S.keeps_back (facts_in self.old) kept self.old.surely self.new.surely }
        ensures possibly { P.keeps_back (facts_in self.old) kept self.old.possibly self.new.possibly }
    {
        self.surely.undo_to(&self.frame, kept);
        self.possibly.undo_to(&self.frame, kept);
        self.frame.undo_to(kept);
    }

    fn force(&mut self) -> Result<Force, AllocError>
        ensures graph { self.new.graph ≡ self.old.graph }
        ensures atoms { self.new.atoms ≡ self.old.atoms }
        ensures seen { self.new.seen ≡ self.old.seen }
        ensures answer { IfOk result (ForceIs self.old.graph self.old.atoms self.old.seen) }
        ensures surely { IfOk result (λ answer. answer ≡ Force.Quiet → S.decides self.new.surely (facts_in self.old)) }
        ensures possibly { IfOk result (λ answer. answer ≡ Force.Quiet → P.decides self.new.possibly (facts_in self.old)) }
    {
        let kind = &mut self.kind;
        match self.surely.force(self.alloc, kind, &self.frame)? {
            Force::Quiet => {
                let kind = &mut self.kind;
                self.possibly.force(self.alloc, kind, &self.frame)
            }
            Force::Literal { atom, lit } => Ok(Force::Literal { atom, lit }),
        }
    }

    fn unit_lemma(&mut self) -> Result<Option<UnitLemma>, AllocError> {
        let Some(threat) = self.surely.threat(self.alloc, &self.frame)? else {
            return Ok(None);
        };
        let unit = unit_lemma_of(self.alloc, &self.frame, threat)?;
        Ok(Some(unit))
    }

    fn explain(&mut self, atom: u32, lit: Lit, kept: usize) -> Result<Lemma, AllocError>
        requires within { kept ≤ length self.old.seen }
        requires forces { ForcesBy self.old.graph self.old.atoms (take kept self.old.seen) atom lit }
        ensures graph { self.new.graph ≡ self.old.graph }
        ensures atoms { self.new.atoms ≡ self.old.atoms }
        ensures seen { self.new.seen ≡ self.old.seen }
        ensures lemma { IfOk result (IsLemmaOf self.old.graph self.old.atoms (take kept self.old.seen) atom lit) }
        ensures surely { self.new.surely ≡ self.old.surely }
        ensures possibly { self.new.possibly ≡ self.old.possibly }
    {
        self.explained = self.explained.saturating_add(1);
        let place = self.frame.place_of(atom);
        explanation::<K, S, P>(
            self.alloc,
            &mut self.kind,
            &self.surely,
            &self.possibly,
            &mut self.frame,
            Question { place, lit, kept },
        )
    }

    fn propagate(&mut self) -> Result<Finding, AllocError>
        ensures graph { self.new.graph ≡ self.old.graph }
        ensures atoms { self.new.atoms ≡ self.old.atoms }
        ensures seen { self.new.seen ≡ self.old.seen }
        ensures finding { IfOk result (FindingIs self.old.graph self.old.atoms self.old.seen) }
        ensures surely { IfOk result (λ answer. answer ≡ Finding.Quiet → S.decides self.new.surely (facts_in self.old)) }
        ensures possibly { IfOk result (λ answer. answer ≡ Finding.Quiet → P.decides self.new.possibly (facts_in self.old)) }
    {
        let kept = self.frame().seen();
        match self.force()? {
            Force::Quiet => Ok(Finding::Quiet),
            Force::Literal { atom, lit } => Ok(Finding::Lemma(self.explain(atom, lit, kept)?)),
        }
    }
}
