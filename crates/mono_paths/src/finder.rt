//! Searches that keep their room.
//!
//! A finder has labels for the nodes of a graph, a list of visits and a heap. A search takes back what the one before left,
//! in proportion to what that one reached. So a search costs the edges that it reaches, and not the graph.

ghost use Rattle.std.specs.Prelude.{◌≡◌, ◌<◌, All, IfOk};
ghost use Rattle.mono_paths.specs.Asked.{IsTarget, AreAnswers};
ghost use Rattle.mono_graph.specs.Digraph.{IsPartOf};
ghost use Rattle.mono_paths.specs.Found.{IsPathOrCut, IsPathOrLabels, HasKnownNames, HasKnownLabels, IsReachedSet, HasReachedLabels, HasBound};

use crate::asked::which_are_reached;
use crate::find::{PathOrCut, PathOrLabels, path_or_cut, path_or_labels};
use crate::search::LabelSearch;
use crate::{Measure, Target};
use mono_graph::{Graph, Limit, Part};
use std::alloc::{AllocError, Global};
use std::marker::Model;

/// Finds walks in graphs with some number of nodes. Contracts see that number.
///
/// Its calls are those of the same names, for a caller that makes many: they keep their room from call to call, also
/// after one that found no memory.
#[derive(Drop)]
pub struct WalkFinder {
    search: LabelSearch,
}

impl Model for WalkFinder {
    ghost use Rattle.std.specs.Prelude.{ℕ, length};

    ghost Value = { ℕ };

    ghost view = { λ f. length f.search.labels.each };
}

impl WalkFinder {
    /// A finder for graphs with this many nodes.
    pub fn new(alloc: Global, nodes: u32) -> Result<Self, AllocError>
        ensures { IfOk result (λ finder. finder ≡ nodes) }
    {
        Ok(WalkFinder {
            search: LabelSearch::new(alloc, nodes)?,
        })
    }

    /// What [`find_path`] gives.
    pub fn find_path(
        &mut self,
        graph: &Graph,
        part: &Part,
        from: u32,
        to: u32,
    ) -> Result<PathOrCut, AllocError>
        requires finder { self.old ≡ graph.now.nodes }
        requires part { IsPartOf part.now graph.now }
        requires from { from < graph.now.nodes }
        requires to { to < graph.now.nodes }
        ensures passes { IfOk result (IsPathOrCut graph.now part.now from to) }
        ensures known { IfOk result (HasKnownNames graph.now) }
        ensures reached { IfOk result (IsReachedSet graph.now part.now from) }
        ensures finder { self.new ≡ self.old }
    {
        let alloc = *self.search.visits.allocator();
        path_or_cut(alloc, &mut self.search, graph, part, from, to)
    }

    /// What [`find_light`] gives.
    pub fn find_light(
        &mut self,
        graph: &Graph,
        part: &Part,
        from: u32,
        to: u32,
        limit: Limit,
    ) -> Result<PathOrLabels, AllocError>
        requires finder { self.old ≡ graph.now.nodes }
        requires part { IsPartOf part.now graph.now }
        requires from { from < graph.now.nodes }
        requires to { to < graph.now.nodes }
        requires limit { HasBound limit }
        ensures passes { IfOk result (IsPathOrLabels graph.now part.now from to limit) }
        ensures known { IfOk result (HasKnownLabels graph.now) }
        ensures reached { IfOk result (HasReachedLabels graph.now part.now from limit) }
        ensures finder { self.new ≡ self.old }
    {
        let alloc = *self.search.visits.allocator();
        path_or_labels(alloc, &mut self.search, graph, part, from, to, limit)
    }

    /// Which of the targets a walk from `from` leads to, each within its own bound: one answer for each, in their order.
    ///
    /// One search answers for all of them. It goes only as far as the targets need, and no further than the greatest
    /// bound.
    pub fn which_are_reached(
        &mut self,
        graph: &Graph,
        part: &Part,
        from: u32,
        measure: Measure,
        targets: &[Target],
    ) -> Result<Vec<bool>, AllocError>
        requires finder { self.old ≡ graph.now.nodes }
        requires part { IsPartOf part.now graph.now }
        requires from { from < graph.now.nodes }
        requires targets { All (IsTarget graph.now) targets.now }
        ensures answers { IfOk result (λ answers. AreAnswers graph.now part.now measure from targets.now answers.items) }
        ensures finder { self.new ≡ self.old }
    {
        let alloc = *self.search.visits.allocator();
        which_are_reached(alloc, &mut self.search, graph, part, from, measure, targets)
    }
}

/// A walk of present edges from `from` to `to`, or a set of nodes that has `from`, lacks `to`, and that no present edge
/// leaves: the nodes that are reached.
///
/// Breadth first, so it costs the edges of the nodes that it reaches. A walk's edges are named by their places, in order.
pub fn find_path(
    alloc: Global,
    graph: &Graph,
    part: &Part,
    from: u32,
    to: u32,
) -> Result<PathOrCut, AllocError>
    requires part { IsPartOf part.now graph.now }
    requires from { from < graph.now.nodes }
    requires to { to < graph.now.nodes }
    ensures passes { IfOk result (IsPathOrCut graph.now part.now from to) }
    ensures known { IfOk result (HasKnownNames graph.now) }
    ensures reached { IfOk result (IsReachedSet graph.now part.now from) }
{
    WalkFinder::new(alloc, graph.nodes())?.find_path(graph, part, from, to)
}

/// A walk of present edges from `from` to `to` within the limit, or labels that show that there is none: those of the
/// nodes that are reached within the bound.
///
/// The limit isn't `Free`, and its bound is from -1 to 2^53; no walk is within -1. Breadth first under `Steps`, by
/// Dijkstra's method under `Weight`; it goes no further than the bound. The labels' values are at most 2^60.
pub fn find_light(
    alloc: Global,
    graph: &Graph,
    part: &Part,
    from: u32,
    to: u32,
    limit: Limit,
) -> Result<PathOrLabels, AllocError>
    requires part { IsPartOf part.now graph.now }
    requires from { from < graph.now.nodes }
    requires to { to < graph.now.nodes }
    requires limit { HasBound limit }
    ensures passes { IfOk result (IsPathOrLabels graph.now part.now from to limit) }
    ensures known { IfOk result (HasKnownLabels graph.now) }
    ensures reached { IfOk result (HasReachedLabels graph.now part.now from limit) }
{
    WalkFinder::new(alloc, graph.nodes())?.find_light(graph, part, from, to, limit)
}
