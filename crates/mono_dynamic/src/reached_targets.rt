//! To which targets walks lead from one source, each within the target's bound, in a part that loses edges and gets the last
//! of them back.
//!
//! A search finds a tree of walks to those that are reached. While edges go, those that it lacks stay out of reach, and
//! those that it has are reached as long as its edges are there: so a step costs a look at its edges. Where an edge
//! of the tree goes, another search is needed, unless that edge comes back before.

ghost use Rattle.std.specs.Prelude.{◌≡◌, ◌↔◌, ◌+◌, ◌≤◌, ◌<◌, ◌++◌, ◌∷◌, [], ℕ, List, Bool, true, false, None, Some, All, IfOk, IsTrue, OnErr, OnOk, if◌then◌else◌, length};
ghost use Rattle.mono_graph.specs.Digraph.{Digraph, has, IsPartOf};
ghost use Rattle.mono_dynamic.specs.declared.walk_target.WalkTarget.{WalkTarget};
ghost use Rattle.mono_dynamic.specs.Arrivals.{IsTree};
ghost use Rattle.mono_dynamic.specs.LeastRows.{IsCostSource};
ghost use Rattle.mono_dynamic.specs.SearchTrees.{RestsOn};
ghost use Rattle.mono_dynamic.specs.Ways.{has_target, IsSameSource, IsTargetOf};
ghost use Rattle.mono_dynamic.specs.Targets.{is_lacking, is_settled, step_within as step_within_of, AreTold, unsearched, IsSettledBy, IsShrunk, OnlyShrink};

use crate::cost_source::CostSource;
use crate::search_tree::SearchTree;
use crate::tree_search::TreeSearch;
use crate::walk_target::WalkTarget;
use mono_base::limits::MAX_NODES;
use mono_graph::{Graph, Part};
use std::alloc::{AllocError, Global};
use std::marker::Model;

/// To which targets walks lead from one source.
///
/// Contracts see the walks of the last search, the targets, since how many steps what the walks lack is known to be out of
/// reach, and by which step an edge of the walks went.
pub struct ReachedTargets {
    tree: SearchTree,
    targets: Vec<WalkTarget>,
    since: Option<u32>,
    lost: Option<u32>,
}

impl Drop for ReachedTargets {
    fn drop(self) {
        let ReachedTargets {
            tree: _,
            targets: _,
            since: _,
            lost: _,
        } = self;
    }
}

impl Model for ReachedTargets {
    ghost use Rattle.std.specs.Prelude.{All};
    ghost use Rattle.mono_dynamic.specs.Targets.{Targets};
    ghost use Rattle.mono_dynamic.specs.Ways.{IsTargetOf};

    ghost Value = { Targets };

    ghost view = { λ r. record { ways = r.tree; targets = r.targets.items; since = r.since; lost = r.lost } };

    ghost invariant = { λ r. All (IsTargetOf r.tree) r.targets.items };
}

/// The step of this number, if it is one of the first `kept`.
fn step_within(number: Option<u32>, kept: u32) -> Option<u32>
    ensures { result ≡ step_within_of number kept }
{
    match number {
        Some(number) if number <= kept => Some(number),
        _ => None,
    }
}

/// Since which step it is known what is lacking, after a search: where nothing is, since ever.
fn known_since(whole: bool, number: u32) -> u32
    ensures { result ≡ (if whole then 0 else number) }
{
    if whole { 0 } else { number }
}

/// Whether the tree rests on one of these edges.
fn rests_on_any(tree: &SearchTree, graph: &Graph, places: &[u32]) -> bool
    requires size { tree.now.tree.nodes ≡ graph.now.nodes }
    requires places { All (λ k. k < length graph.now.edges) places.now }
    ensures { (P : List Bool) → IsTree graph.now P tree.now.tree.source tree.now.tree.arrivals
        → IsTrue result ↔ ((k : ℕ) × IsTrue (has places.now k) × RestsOn tree.now.tree.arrivals k) }
{
    for place in places {
        if tree.rests_on(graph, *place) {
            return true;
        }
    }
    false
}

/// Whether the tree has all of these targets.
fn has_all(tree: &SearchTree, targets: &[WalkTarget]) -> bool
    requires { All (IsTargetOf tree.now) targets.now }
    ensures { IsTrue result ↔ All (λ t. IsTrue (has_target tree.now t)) targets.now }
{
    for target in targets {
        if !tree.has(*target) {
            return false;
        }
    }
    true
}

impl ReachedTargets {
    /// There is no target yet, and no search was made. The graph has this many nodes, at most [`MAX_NODES`].
    pub fn new(alloc: Global, nodes: u32, source: CostSource) -> Result<Self, AllocError>
        requires few { nodes ≤ MAX_NODES }
        requires source { IsCostSource nodes source }
        ensures { IfOk result (λ r. r ≡ unsearched nodes source) }
    {
        let tree = SearchTree::new(alloc, nodes, source)?;
        Ok(ReachedTargets {
            tree,
            targets: Vec::new(alloc),
            since: None,
            lost: None,
        })
    }

    /// This is a target too. What was known is forgotten.
    pub fn add_target(&mut self, target: WalkTarget) -> Result<(), AllocError>
        requires { IsTargetOf self.old.ways target }
        ensures added { OnOk result (self.new ≡ record self.old { targets = self.old.targets ++ target ∷ []; since = None }) }
        ensures unchanged { OnErr result (self.new ≡ self.old) }
    {
        self.targets.push(target)?;
        self.since = None;
        Ok(())
    }

    /// Whether it is known that no walk leads to the target within its limit.
    pub fn is_lacking(&self, target: WalkTarget) -> bool
        requires { target.node < self.now.ways.tree.nodes }
        ensures { result ≡ is_lacking self.now target }
    {
        self.since.is_some() && !self.tree.has(target)
    }

    /// Whether it is known of each target whether it is reached.
    pub fn is_settled(&self) -> bool
        ensures { result ≡ is_settled self.now }
    {
        self.since.is_some() && self.lost.is_none()
    }

    /// The edges at these places go, with the step of this number.
    pub fn shrink(&mut self, graph: &Graph, places: &[u32], number: u32)
        requires size { self.old.ways.tree.nodes ≡ graph.now.nodes }
        requires places { All (λ k. k < length graph.now.edges) places.now }
        ensures same { self.new ≡ record self.old { lost = self.new.lost } }
        ensures told { (parts : ℕ → List Bool) (n : ℕ) → number ≡ n + 1 → IsShrunk (parts n) (parts number) places.now
            → AreTold graph.now parts n self.old → AreTold graph.now parts number self.new }
    {
        if self.lost.is_none() && rests_on_any(&self.tree, graph, places) {
            self.lost = Some(number);
        }
    }

    /// Whether the tree rests on one of the edges at these places. Where an edge of it went, it isn't asked: the answer is free.
    pub fn rests_on_any(&self, graph: &Graph, places: &[u32]) -> bool
        requires size { self.now.ways.tree.nodes ≡ graph.now.nodes }
        requires places { All (λ k. k < length graph.now.edges) places.now }
    {
        self.is_settled() && rests_on_any(&self.tree, graph, places)
    }

    /// The edges of the steps after the first `kept` come back. It takes no memory, and tells of no more targets that they are
    /// out of reach.
    pub fn undo_to(&mut self, kept: u32)
        ensures ways { self.new.ways ≡ self.old.ways }
        ensures targets { self.new.targets ≡ self.old.targets }
        ensures lacking { (t : WalkTarget) → is_lacking self.new t ≡ true → is_lacking self.old t ≡ true }
        ensures told { (g : Digraph) (parts : ℕ → List Bool) (n : ℕ) → kept ≤ n → AreTold g parts n self.old → AreTold g parts kept self.new }
    {
        self.since = step_within(self.since, kept);
        self.lost = step_within(self.lost, kept);
    }

    /// Searches the part, which is that after so many steps. Whether all targets are reached. Where memory is missing, nothing
    /// is known of them.
    ///
    /// What it costs, [`SearchTree::renew`] says.
    pub fn search(
        &mut self,
        alloc: Global,
        room: &mut TreeSearch,
        graph: &Graph,
        part: &Part,
        number: u32,
    ) -> Result<bool, AllocError>
        requires size { self.old.ways.tree.nodes ≡ graph.now.nodes }
        requires room { room.old ≡ graph.now.nodes }
        requires part { IsPartOf part.now graph.now }
        ensures room { room.new ≡ room.old }
        ensures from { IsSameSource self.old.ways self.new.ways }
        ensures targets { self.new.targets ≡ self.old.targets }
        ensures told { (parts : ℕ → List Bool) → parts number ≡ part.now → OnlyShrink parts number → AreTold graph.now parts number self.new }
        ensures settled { IfOk result (λ whole. IsSettledBy whole self.old self.new) }
        ensures forgotten { OnErr result ((t : WalkTarget) → is_lacking self.new t ≡ false) }
    {
        self.since = None;
        self.lost = None;
        let targets = self.targets.as_slice();
        self.tree.renew(alloc, room, graph, part, targets)?;
        let whole = has_all(&self.tree, self.targets.as_slice());
        self.since = Some(known_since(whole, number));
        Ok(whole)
    }
}
