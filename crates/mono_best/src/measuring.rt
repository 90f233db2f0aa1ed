//! The value that a predicate has in a part of its graph, as one search finds it: how many edges a shortest walk has, what a
//! lightest walk or spanning tree weighs, how much flows. It is told by the number of the bound that it is.
//!
//! What is found is a witness of that value, and the contracts say no more. That it is the best in the part is why a
//! question is asked once for each improvement, and not for each bound.

ghost use Rattle.std.specs.Prelude.{◌≡◌, ◌≢◌, ◌<◌, ◌≤◌, ◌+◌, ◌-ℤ◌, pos, IfOk, IfSome};
ghost use Rattle.mono_graph.specs.Digraph.{IsPartOf};
ghost use Rattle.mono_problem.specs.declared.atom.Predicate.TheVariants as kind;
ghost use Rattle.mono_problem.specs.Holds.{Holds};
ghost use Rattle.mono_problem.specs.WellFormed.{IsOver};
ghost use Rattle.mono_best.specs.Met.{HasNumber};

use crate::bounds::LAST;
use mono_base::limits::MAX_BOUND;
use mono_flows::FlowFinder;
use mono_graph::{Graph, Limit, Part};
use mono_paths::{PathOrLabels, find_light};
use mono_problem::Predicate;
use mono_trees::{TreeFound, find_tree};
use std::alloc::{AllocError, Global};

/// The number of the bound that a shortest walk meets.
fn by_steps(
    alloc: Global,
    graph: &Graph,
    part: &Part,
    from: u32,
    to: u32,
) -> Result<Option<u64>, AllocError>
    requires part { IsPartOf part.now graph.now }
    requires from { from < graph.now.nodes }
    requires to { to < graph.now.nodes }
    ensures { IfOk result (λ found. IfSome found (λ k. (k ≤ MAX_BOUND) × Holds graph.now part.now (kind.Steps from to (pos MAX_BOUND -ℤ pos k)))) }
{
    match find_light(alloc, graph, part, from, to, Limit::Steps(MAX_BOUND as i64))? {
        PathOrLabels::Path(places) => Ok(Some(MAX_BOUND - places.len() as u64)),
        PathOrLabels::Labels(_) => Ok(None),
    }
}

/// The number of the bound that a lightest walk meets.
fn by_distance(
    alloc: Global,
    graph: &Graph,
    part: &Part,
    from: u32,
    to: u32,
) -> Result<Option<u64>, AllocError>
    requires part { IsPartOf part.now graph.now }
    requires from { from < graph.now.nodes }
    requires to { to < graph.now.nodes }
    ensures { IfOk result (λ found. IfSome found (λ k. (k ≤ MAX_BOUND) × Holds graph.now part.now (kind.Distance from to (pos MAX_BOUND -ℤ pos k)))) }
{
    match find_light(
        alloc,
        graph,
        part,
        from,
        to,
        Limit::Weight(MAX_BOUND as i64),
    )? {
        PathOrLabels::Path(places) => {
            Ok(Some(MAX_BOUND - graph.weight_of(places.as_slice()) as u64))
        }
        PathOrLabels::Labels(_) => Ok(None),
    }
}

/// The number of the bound that a lightest spanning tree meets.
fn by_tree(alloc: Global, graph: &Graph, part: &Part) -> Result<Option<u64>, AllocError>
    requires { IsPartOf part.now graph.now }
    ensures { IfOk result (λ found. IfSome found (λ k. (k ≤ MAX_BOUND) × Holds graph.now part.now (kind.Tree (pos MAX_BOUND -ℤ pos k)))) }
{
    match find_tree(alloc, graph, part, MAX_BOUND as i64)? {
        TreeFound::Tree(places) => {
            Ok(Some(MAX_BOUND - graph.weight_of(places.as_slice()) as u64))
        }
        TreeFound::Split(_) => Ok(None),
        TreeFound::Least(_) => Ok(None),
    }
}

/// The number of the bound that the greatest flow meets: that of the greatest bound where it has a greater value.
fn by_flow(
    alloc: Global,
    graph: &Graph,
    part: &Part,
    source: u32,
    sink: u32,
) -> Result<u64, AllocError>
    requires part { IsPartOf part.now graph.now }
    requires source { source < graph.now.nodes }
    requires sink { sink < graph.now.nodes }
    requires apart { source ≢ sink }
    ensures { IfOk result (λ k. (k ≤ MAX_BOUND + 1) × Holds graph.now part.now (kind.Flow source sink (pos k))) }
{
    let mut kept = Vec::new(alloc);
    let mut finder = FlowFinder::new(alloc, graph.nodes())?;
    let most = LAST as i64;
    let found = finder.find_flow_from(alloc, graph, part, source, sink, most, &mut kept)?;
    Ok(found.value)
}

/// The number of the bound that is the predicate's own value in the part. `None` where it has none within the bounds.
pub(crate) fn number_in(
    alloc: Global,
    graph: &Graph,
    part: &Part,
    predicate: Predicate,
) -> Result<Option<u64>, AllocError>
    requires part { IsPartOf part.now graph.now }
    requires over { IsOver graph.now predicate }
    ensures { IfOk result (λ found. IfSome found (HasNumber graph.now part.now predicate)) }
{
    match predicate {
        Predicate::Reach { .. } => Ok(None),
        Predicate::Steps { from, to, most: _ } => by_steps(alloc, graph, part, from, to),
        Predicate::Distance { from, to, most: _ } => by_distance(alloc, graph, part, from, to),
        Predicate::Flow {
            source,
            sink,
            least: _,
        } => {
            let number = by_flow(alloc, graph, part, source, sink)?;
            Ok(Some(number))
        }
        Predicate::Tree { most: _ } => by_tree(alloc, graph, part),
        Predicate::Acyclic => Ok(None),
    }
}
