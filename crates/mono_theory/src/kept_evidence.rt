//! Evidence that is kept of atoms: it is right again wherever its edges are as it needs them.

ghost use Rattle.std.specs.Prelude.{◌≡◌, ◌↔◌, ◌<◌, ℕ, Bool, List, None, Some, length, slice_set, All, IfOk, IsTrue};
ghost use Rattle.mono_graph.specs.Digraph.{Digraph, has};
ghost use Rattle.mono_problem.specs.declared.atom.Atom.{Atom};
ghost use Rattle.mono_theory.specs.Sound.{AllHave, AreSound, EdgesBelow, IsRightIn, RestsOn, evidence_at};
ghost use Rattle.mono_theory.specs.Watching.{AreWatched, IsEdgeAt, RestsAt, WatchesIts};

use crate::Evidence;
use crate::watch::Watch;
use mono_graph::Part;
use std::alloc::{AllocError, Global};
use std::marker::Model;

/// Evidence of atoms, by place.
#[derive(Drop)]
pub(crate) struct KeptEvidence {
    evidence: Vec<Option<Evidence>>,
}

impl Model for KeptEvidence {
    ghost use Rattle.std.specs.Prelude.{List, Option};
    ghost use Rattle.mono_theory.specs.declared.evidence.Evidence.{Evidence};

    ghost Value = { List (Option Evidence) };

    ghost view = { λ s. s.evidence.items };
}

/// Whether the edges all have the value in the part.
pub(crate) fn have(part: &Part, edges: &[u32], value: bool) -> bool
    requires { All (λ k. k < length part.now) edges.now }
    ensures { IsTrue result → AllHave part.now value edges.now }
{
    for edge in edges {
        if part.has(*edge) != value {
            return false;
        }
    }
    true
}

/// Whether there is evidence, and its edges all have the value in the part.
fn is_right_in(part: &Part, evidence: &Option<Evidence>, value: bool) -> bool
    requires { EdgesBelow (length part.now) evidence.now }
    ensures { IsTrue result → IsRightIn part.now value evidence.now }
{
    match evidence {
        None => false,
        Some(known) => have(part, known.edges.as_slice(), value),
    }
}

/// Whether the edge is at this place among these.
pub(crate) fn is_at(edges: &[u32], place: usize, edge: u32) -> bool
    ensures at { IsTrue result ↔ IsEdgeAt edges.now place edge }
    ensures has { IsTrue result → IsTrue (has edges.now edge) }
{
    place < edges.len() && edges[place] == edge
}

/// The edges on which evidence rests: none where there is none.
pub(crate) fn edges_of(evidence: &Option<Evidence>) -> &[u32]
    ensures { (watchers : List (List Watch)) (atom : ℕ) → WatchesIts watchers atom evidence.now → AreWatched watchers atom result.now }
{
    match evidence {
        None => &[],
        Some(known) => known.edges.as_slice(),
    }
}

/// Whether there is evidence, and the edge is at this place among those on which it rests.
fn rests_at(evidence: &Option<Evidence>, place: usize, edge: u32) -> bool
    ensures at { IsTrue result ↔ RestsAt evidence.now place edge }
    ensures on { IsTrue result → RestsOn evidence.now edge }
{
    match evidence {
        None => false,
        Some(known) => is_at(known.edges.as_slice(), place, edge),
    }
}

impl KeptEvidence {
    /// No evidence of any atom.
    pub(crate) fn new(alloc: Global, atoms: u32) -> Result<KeptEvidence, AllocError>
        ensures len { IfOk result (λ kept. length kept ≡ atoms) }
        ensures none { IfOk result (λ kept. (a : ℕ) → evidence_at kept a ≡ None) }
        ensures sound { IfOk result (λ kept. (g : Digraph) → (all : List Atom) → (value : Bool) → length all ≡ atoms → AreSound g all value kept) }
    {
        let mut evidence = Vec::new(alloc);
        for _atom in 0..atoms {
            evidence.push(None)?;
        }
        Ok(KeptEvidence { evidence })
    }

    /// Of how many atoms.
    pub(crate) fn count(&self) -> usize
        ensures { result ≡ length self.now }
    {
        self.evidence.len()
    }

    /// What is kept of the atom.
    pub(crate) fn at(&self, atom: u32) -> &Option<Evidence>
        requires { atom < length self.now }
        ensures { result.now ≡ evidence_at self.now atom }
    {
        &self.evidence[atom as usize]
    }

    /// This is the evidence of the atom.
    pub(crate) fn put(&mut self, atom: u32, evidence: Evidence)
        requires { atom < length self.old }
        ensures { self.new ≡ slice_set self.old atom (Some evidence) }
    {
        self.evidence[atom as usize] = Some(evidence);
    }

    /// Whether what is kept of the atom is right in the part.
    pub(crate) fn is_right(&self, part: &Part, atom: u32, value: bool) -> bool
        requires atom { atom < length self.now }
        requires edges { EdgesBelow (length part.now) (evidence_at self.now atom) }
        ensures { IsTrue result → IsRightIn part.now value (evidence_at self.now atom) }
    {
        is_right_in(part, self.at(atom), value)
    }

    /// Whether what is kept of the atom has the edge at the place of the watch.
    pub(crate) fn rests_by(&self, watch: Watch, edge: u32) -> bool
        requires { watch.atom < length self.now }
        ensures at { IsTrue result ↔ RestsAt (evidence_at self.now watch.atom) watch.place edge }
        ensures on { IsTrue result → RestsOn (evidence_at self.now watch.atom) edge }
    {
        rests_at(self.at(watch.atom), watch.place, edge)
    }
}
