//! Carries more along the paths that rise by one level at each step, until none is left: a blocking flow (Dinic, 1970).
//!
//! A path of visits starts at the source. Where it comes to the sink, more is carried along it, and it starts anew.
//! Where no edge leads on, its last visit is taken back, and the edge to it is passed for good.

ghost use Rattle.std.specs.Prelude.{◌≡◌, ◌<◌, ◌≤◌, ◌-◌, false, All, IfOk, IsTrue, length, slice_index_or, take};
ghost use Rattle.mono_flows.specs.Flowing.{IsFlowTowards};
ghost use Rattle.mono_flows.specs.Visits.{visit_at};
ghost use Rattle.mono_flows.specs.Levels.{AreLevels, IsLevelPath};

use crate::flow::Flow;
use crate::level_graph::LevelGraph;
use crate::network::Network;
use crate::visit::Visit;
use std::alloc::AllocError;

/// Carries more along the path, which came to the sink, and starts anew. Whether as much is carried as is asked for.
fn arrive(
    network: &Network,
    flow: &mut Flow,
    levels: &LevelGraph,
    path: &mut Vec<Visit>,
    goal: u64,
) -> Result<bool, AllocError>
    requires flow { IsFlowTowards network.now goal flow.old }
    requires level { slice_index_or levels.now.levels.items network.now.source 0 ≡ 0 }
    requires path { IsLevelPath network.now flow.old levels.now.levels.items goal path.old.items }
    requires there { (visit_at path.old.items (length path.old.items - 1)).node ≡ network.now.sink }
    ensures flow { IfOk result (λ _. IsFlowTowards network.now goal flow.new) }
    ensures more { IfOk result (λ _. flow.old.value ≤ flow.new.value) }
    ensures path { IfOk result (λ done. done ≡ false → IsLevelPath network.now flow.new levels.now.levels.items goal path.new.items) }
{
    let _ = levels;
    flow.augment(network, path, goal)?;
    if flow.value == goal {
        return Ok(true);
    }
    path.clear();
    path.push(Visit::first(network.source, goal - flow.value))?;
    Ok(false)
}

/// Takes back the last visit, and passes the edge to it. Whether there was one besides the first.
fn retreat(levels: &mut LevelGraph, path: &mut Vec<Visit>) -> bool
    requires levels { AreLevels (length levels.old.levels.items) levels.old }
    requires path { All (λ v. v.node < length levels.old.levels.items) path.old.items }
    requires some { 0 < length path.old.items }
    ensures levels { AreLevels (length levels.old.levels.items) levels.new }
    ensures same { levels.new.levels.items ≡ levels.old.levels.items }
    ensures taken { IsTrue result → path.new.items ≡ take (length path.old.items - 1) path.old.items }
    ensures left { IsTrue result → 1 < length path.old.items }
{
    let at = path.len() - 1;
    if at == 0 {
        return false;
    }
    path.truncate(at);
    levels.pass_edge(path[at - 1].node);
    true
}

/// One step: more is carried, or one more visit is made, or one is taken back. Whether it was the last.
fn advance(
    network: &Network,
    flow: &mut Flow,
    levels: &mut LevelGraph,
    path: &mut Vec<Visit>,
    goal: u64,
) -> Result<bool, AllocError>
    requires flow { IsFlowTowards network.now goal flow.old }
    requires levels { AreLevels network.now.graph.now.nodes levels.old }
    requires level { slice_index_or levels.old.levels.items network.now.source 0 ≡ 0 }
    requires path { IsLevelPath network.now flow.old levels.old.levels.items goal path.old.items }
    ensures flow { IfOk result (λ _. IsFlowTowards network.now goal flow.new) }
    ensures more { IfOk result (λ _. flow.old.value ≤ flow.new.value) }
    ensures levels { AreLevels network.now.graph.now.nodes levels.new }
    ensures same { IfOk result (λ _. levels.new.levels.items ≡ levels.old.levels.items) }
    ensures path { IfOk result (λ done. done ≡ false → IsLevelPath network.now flow.new levels.new.levels.items goal path.new.items) }
{
    let at = path.len() - 1;
    let last = path[at];
    if last.node == network.sink {
        return arrive(network, flow, levels, path, goal);
    }
    match levels.next_visit(network, &flow.amounts, at, last) {
        Some(visit) => {
            path.push(visit)?;
            Ok(false)
        }
        None => Ok(!retreat(levels, path)),
    }
}

/// Carries more along the paths that rise by one level at each step, until none is left or as much is carried as is
/// asked for. The path is emptied first; its room is used again.
pub(crate) fn add_blocking_flow(
    network: &Network,
    flow: &mut Flow,
    levels: &mut LevelGraph,
    path: &mut Vec<Visit>,
    goal: u64,
) -> Result<(), AllocError>
    requires flow { IsFlowTowards network.now goal flow.old }
    requires levels { AreLevels network.now.graph.now.nodes levels.old }
    requires level { slice_index_or levels.old.levels.items network.now.source 0 ≡ 0 }
    ensures flow { IfOk result (λ _. IsFlowTowards network.now goal flow.new) }
    ensures more { IfOk result (λ _. flow.old.value ≤ flow.new.value) }
    ensures levels { AreLevels network.now.graph.now.nodes levels.new }
{
    if flow.value == goal {
        return Ok(());
    }
    path.clear();
    path.push(Visit::first(network.source, goal - flow.value))?;
    // Each step passes an edge, makes the path longer or fills an edge, so there are few; but nothing rests on that.
    for _step in 0..u64::MAX {
        if advance(network, flow, levels, path, goal)? {
            return Ok(());
        }
    }
    Ok(())
}
