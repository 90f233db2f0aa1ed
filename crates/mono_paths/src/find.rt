//! Finds walks, or what shows that there is none.
//!
//! A search lowers labels along the edges until the node that is sought is reached or no edge lowers any. Then the labels
//! that are left are the answer: those below the cap are listed, or, where nothing is counted, their nodes.

ghost use Rattle.std.specs.Prelude.{◌≡◌, ◌<◌, IfOk, length};
ghost use Rattle.mono_graph.specs.Digraph.{IsPartOf};
ghost use Rattle.mono_paths.specs.Found.{IsPathOrCut, IsPathOrLabels, HasKnownNames, HasKnownLabels, IsReachedSet, HasReachedLabels, HasBound, IsBound, IsNatural};

use crate::search::LabelSearch;
use mono_graph::{Graph, Label, Limit, Part};
use std::alloc::{AllocError, Global};

/// A walk, or a set of nodes that none leaves.
#[derive(Drop)]
pub enum PathOrCut {
    /// The places of the walk's edges.
    Path(Vec<u32>),
    /// The nodes of the set.
    Cut(Vec<u32>),
}

/// A walk, or labels that show that none is within a limit.
#[derive(Drop)]
pub enum PathOrLabels {
    /// The places of the walk's edges.
    Path(Vec<u32>),
    /// The labels that are at most the bound.
    Labels(Vec<Label>),
}

/// A walk, or the set of the nodes that are reached.
pub fn path_or_cut(
    alloc: Global,
    search: &mut LabelSearch,
    graph: &Graph,
    part: &Part,
    from: u32,
    to: u32,
) -> Result<PathOrCut, AllocError>
    requires part { IsPartOf part.now graph.now }
    requires from { from < graph.now.nodes }
    requires to { to < graph.now.nodes }
    requires labels { length search.old.labels.each ≡ graph.now.nodes }
    ensures len { length search.new.labels.each ≡ length search.old.labels.each }
    ensures passes { IfOk result (IsPathOrCut graph.now part.now from to) }
    ensures known { IfOk result (HasKnownNames graph.now) }
    ensures reached { IfOk result (IsReachedSet graph.now part.now from) }
{
    // The edges of a graph lead between its nodes.
    graph.known();
    let limit = Limit::Free;
    search.begin(graph, limit, from, 1)?;
    if search.goes_to(graph, part, limit, to, 0)? {
        Ok(PathOrCut::Path(search.walk(alloc, graph, part, limit, to)?))
    } else {
        Ok(PathOrCut::Cut(Vec::from_slice(alloc, search.labels.reached())?))
    }
}

/// A walk within the limit, or the labels that are at most the bound.
pub fn path_or_labels(
    alloc: Global,
    search: &mut LabelSearch,
    graph: &Graph,
    part: &Part,
    from: u32,
    to: u32,
    limit: Limit,
) -> Result<PathOrLabels, AllocError>
    requires part { IsPartOf part.now graph.now }
    requires from { from < graph.now.nodes }
    requires to { to < graph.now.nodes }
    requires limit { HasBound limit }
    requires labels { length search.old.labels.each ≡ graph.now.nodes }
    ensures len { length search.new.labels.each ≡ length search.old.labels.each }
    ensures passes { IfOk result (IsPathOrLabels graph.now part.now from to limit) }
    ensures known { IfOk result (HasKnownLabels graph.now) }
    ensures reached { IfOk result (HasReachedLabels graph.now part.now from limit) }
{
    // The edges of a graph lead between its nodes.
    graph.known();
    let Some(most) = bound_of(limit) else {
        return Ok(PathOrLabels::Labels(Vec::new(alloc)));
    };
    search.begin(graph, limit, from, most + 1)?;
    if search.goes_to(graph, part, limit, to, most)? {
        Ok(PathOrLabels::Path(search.walk(alloc, graph, part, limit, to)?))
    } else {
        Ok(PathOrLabels::Labels(search.labels.listed()?))
    }
}

/// The bound, where it isn't -1.
fn as_bound(most: i64) -> Option<u64>
    ensures { IsNatural most result }
{
    if most < 0 { None } else { Some(most as u64) }
}

/// The bound, if any walk can be within it: 0 where nothing counts.
pub fn bound_of(limit: Limit) -> Option<u64>
    ensures { IsBound limit result }
{
    match limit {
        Limit::Free => Some(0),
        Limit::Steps(most) => as_bound(most),
        Limit::Weight(most) => as_bound(most),
    }
}
