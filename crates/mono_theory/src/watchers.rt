//! The atoms that watch each edge: those whose support has it.
//!
//! A watch names the place that the edge has in the support, so whether an atom rests on an edge is one look, however long its
//! support is. An atom whose support changes goes on watching the edges of the old one. So the lists are made anew from the
//! supports when they have grown to more than twice what these need.

ghost use Rattle.std.specs.Prelude.{◌≡◌, ◌<◌, ◌^◌, ℕ, List, All, IfOk, length};
ghost use Rattle.mono_theory.specs.Sound.{EdgesBelow, evidence_at};
ghost use Rattle.mono_theory.specs.Watching.{watching, AreBelow, AreWatched, AllWatch, IsGrown, WatchesIts};

use crate::Evidence;
use crate::kept_evidence::{KeptEvidence, is_at};
use crate::watch::Watch;
use mono_base::Buckets;
use std::alloc::{AllocError, Global};
use std::marker::Model;

/// A list of watches for each edge.
#[derive(Drop)]
pub(crate) struct Watchers {
    lists: Buckets<Watch>,
    /// How many entries the lists have.
    entries: usize,
    /// How many they may have before they are made anew.
    limit: usize,
}

impl Model for Watchers {
    ghost use Rattle.std.specs.Prelude.{List};
    ghost use Rattle.mono_theory.specs.declared.watch.Watch.{Watch};

    ghost Value = { List (List Watch) };

    ghost view = { λ w. w.lists };
}

/// The atom watches each of the edges, where it watches the known ones already, each by its place. The answer is how many watches
/// came.
fn watch_all(
    lists: &mut Buckets<Watch>,
    atom: u32,
    known: &[u32],
    edges: &[u32],
) -> Result<usize, AllocError>
    requires edges { All (λ k. k < length lists.old) edges.now }
    requires known { AreWatched lists.old atom known.now }
    ensures grown { IsGrown lists.old lists.new }
    ensures below { (n : ℕ) → atom < n → AreBelow n lists.old → AreBelow n lists.new }
    ensures watched { IfOk result (λ _. AreWatched lists.new atom edges.now) }
{
    let mut count: usize = 0;
    for place in 0..edges.len() {
        let edge = edges[place];
        if is_at(known, place, edge) {
            continue;
        }
        lists.push(edge, Watch { atom, place })?;
        count = count.saturating_add(1);
    }
    Ok(count)
}

/// The atom watches the edges of its support.
fn watch_support(
    lists: &mut Buckets<Watch>,
    atom: u32,
    support: &Option<Evidence>,
) -> Result<usize, AllocError>
    requires edges { EdgesBelow (length lists.old) support.now }
    ensures grown { IsGrown lists.old lists.new }
    ensures below { (n : ℕ) → atom < n → AreBelow n lists.old → AreBelow n lists.new }
    ensures watched { IfOk result (λ _. WatchesIts lists.new atom support.now) }
{
    match support {
        None => Ok(0),
        Some(known) => watch_all(lists, atom, &[], known.edges.as_slice()),
    }
}

impl Watchers {
    /// Each atom watches the edges of its support.
    pub(crate) fn of_supports(
        alloc: Global,
        edges: u32,
        supports: &KeptEvidence,
    ) -> Result<Watchers, AllocError>
        requires few { length supports.now < 2 ^ 32 }
        requires edges { (a : ℕ) → a < length supports.now → EdgesBelow edges (evidence_at supports.now a) }
        ensures len { IfOk result (λ w. length w ≡ edges) }
        ensures below { IfOk result (AreBelow (length supports.now)) }
        ensures watch { IfOk result (λ w. AllWatch w supports.now (length supports.now)) }
    {
        let mut lists = Buckets::new(alloc, edges)?;
        let mut entries: usize = 0;
        for atom in 0..supports.count() as u32 {
            let more = watch_support(&mut lists, atom, supports.at(atom))?;
            entries = entries.saturating_add(more);
        }
        let least = supports.count().saturating_add(edges as usize);
        let limit = entries.saturating_mul(2).saturating_add(least);
        Ok(Watchers {
            lists,
            entries,
            limit,
        })
    }

    /// What watches the edge.
    pub(crate) fn list(&self, edge: u32) -> &[Watch]
        requires { edge < length self.now }
        ensures { result.now ≡ watching self.now edge }
    {
        self.lists.list(edge)
    }

    /// Whether it is time to make the lists anew.
    pub(crate) fn is_full(&self) -> bool {
        self.entries > self.limit
    }

    /// The atom watches each of the edges, where it watches those of `known` already. Where memory is wanting, it may watch some.
    pub(crate) fn watch(
        &mut self,
        atom: u32,
        known: &[u32],
        edges: &[u32],
    ) -> Result<(), AllocError>
        requires edges { All (λ k. k < length self.old) edges.now }
        requires known { AreWatched self.old atom known.now }
        ensures grown { IsGrown self.old self.new }
        ensures below { (n : ℕ) → atom < n → AreBelow n self.old → AreBelow n self.new }
        ensures watched { IfOk result (λ _. AreWatched self.new atom edges.now) }
    {
        let more = watch_all(&mut self.lists, atom, known, edges)?;
        self.entries = self.entries.saturating_add(more);
        Ok(())
    }
}
