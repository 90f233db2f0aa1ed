//! Whether a predicate holds in a part of a graph: a search finds what shows that it does, or what shows that it doesn't.

ghost use Rattle.std.specs.Prelude.{◌≡◌, ◌≢◌, ◌<◌, ◌≤ℤ◌, ◌+◌, ◌↔◌, ℕ, List, pos, IsTrue, IfOk};
ghost use Rattle.mono_graph.specs.Digraph.{IsPartOf};
ghost use Rattle.mono_graph.specs.Walks.{is_path};
ghost use Rattle.mono_paths.specs.Found.{HasBound};
ghost use Rattle.mono_problem.specs.Holds.{Holds};

use mono_base::limits::MAX_BOUND;
use mono_cycles::{CycleFinder, CycleOrOrder};
use mono_flows::{FlowFinder, FlowOrCut};
use mono_graph::{Graph, Limit, Part};
use mono_paths::{PathOrCut, PathOrLabels, WalkFinder};
use mono_problem::Predicate;
use mono_trees::{TreeFinder, TreeFound};
use std::alloc::{AllocError, Global};

/// Whether a walk leads from one node to the other.
pub(crate) fn reaches(
    finder: &mut WalkFinder,
    graph: &Graph,
    part: &Part,
    from: u32,
    to: u32,
) -> Result<bool, AllocError>
    requires finder { finder.old ≡ graph.now.nodes }
    requires part { IsPartOf part.now graph.now }
    requires from { from < graph.now.nodes }
    requires to { to < graph.now.nodes }
    ensures holds { IfOk result (λ yes. IsTrue yes ↔ Holds graph.now part.now (Predicate.Reach from to)) }
    ensures finder { finder.new ≡ finder.old }
{
    match finder.find_path(graph, part, from, to)? {
        PathOrCut::Path(_) => Ok(true),
        PathOrCut::Cut(_) => Ok(false),
    }
}

/// Whether a walk within the limit, which has a bound, leads from one node to the other.
pub(crate) fn reaches_within(
    finder: &mut WalkFinder,
    graph: &Graph,
    part: &Part,
    from: u32,
    to: u32,
    limit: Limit,
) -> Result<bool, AllocError>
    requires finder { finder.old ≡ graph.now.nodes }
    requires part { IsPartOf part.now graph.now }
    requires from { from < graph.now.nodes }
    requires to { to < graph.now.nodes }
    requires limit { HasBound limit }
    ensures holds { IfOk result (λ yes. IsTrue yes ↔ ((walk : List ℕ) × IsTrue (is_path graph.now part.now from to limit walk))) }
    ensures finder { finder.new ≡ finder.old }
{
    match finder.find_light(graph, part, from, to, limit)? {
        PathOrLabels::Path(_) => Ok(true),
        PathOrLabels::Labels(_) => Ok(false),
    }
}

/// Whether a flow of at least so much leads from the source to the sink.
pub(crate) fn carries(
    alloc: Global,
    finder: &mut FlowFinder,
    graph: &Graph,
    part: &Part,
    source: u32,
    sink: u32,
    least: i64,
) -> Result<bool, AllocError>
    requires finder { finder.old ≡ graph.now.nodes }
    requires part { IsPartOf part.now graph.now }
    requires source { source < graph.now.nodes }
    requires sink { sink < graph.now.nodes }
    requires apart { source ≢ sink }
    requires low { pos 0 ≤ℤ least }
    requires high { least ≤ℤ pos (MAX_BOUND + 1) }
    ensures holds { IfOk result (λ yes. IsTrue yes ↔ Holds graph.now part.now (Predicate.Flow source sink least)) }
    ensures finder { finder.new ≡ finder.old }
{
    graph.known();
    match finder.find_flow(alloc, graph, part, source, sink, least)? {
        FlowOrCut::Flow(_) => Ok(true),
        FlowOrCut::Cut(_) => Ok(false),
    }
}

/// Whether a spanning tree weighs at most so much.
pub(crate) fn spans(
    finder: &mut TreeFinder,
    graph: &Graph,
    part: &Part,
    most: i64,
) -> Result<bool, AllocError>
    requires finder { finder.old ≡ graph.now.nodes }
    requires part { IsPartOf part.now graph.now }
    ensures holds { IfOk result (λ yes. IsTrue yes ↔ Holds graph.now part.now (Predicate.Tree most)) }
    ensures finder { finder.new ≡ finder.old }
{
    match finder.find_tree(graph, part, most)? {
        TreeFound::Tree(_) => Ok(true),
        TreeFound::Split(_) => Ok(false),
        TreeFound::Least(_) => Ok(false),
    }
}

/// Whether no walk of one edge or more leads from a node to itself.
pub(crate) fn is_acyclic(
    finder: &mut CycleFinder,
    graph: &Graph,
    part: &Part,
) -> Result<bool, AllocError>
    requires finder { finder.old ≡ graph.now.nodes }
    requires part { IsPartOf part.now graph.now }
    ensures holds { IfOk result (λ yes. IsTrue yes ↔ Holds graph.now part.now Predicate.Acyclic) }
    ensures finder { finder.new ≡ finder.old }
{
    match finder.find_cycle(graph, part)? {
        CycleOrOrder::Order(_) => Ok(true),
        CycleOrOrder::Cycle(_) => Ok(false),
    }
}
