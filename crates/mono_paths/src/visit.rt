//! Visits, and the walks that they make.
//!
//! Visits are only ever added, each with the one before it on its walk. So what is said of a visit stays true, and the
//! walk to a node is read off by going back, whatever was visited since.

ghost use Rattle.std.specs.Prelude.{◌≡◌, ◌<◌, All, IfOk, length, IsTrue};
ghost use Rattle.mono_graph.specs.Digraph.{IsPartOf};
ghost use Rattle.mono_graph.specs.Walks.{is_walk, cost_along};
ghost use Rattle.mono_paths.specs.Trails.{IsTrail, visit_at};

use mono_graph::{Graph, Limit, Part};
use std::alloc::{AllocError, Global};

/// A node that was reached: by the edge at which place, from which earlier visit, and at what cost from the start.
#[derive(Clone, Copy)]
pub struct Visit {
    pub node: u32,
    pub place: u32,
    pub before: usize,
    pub cost: u64,
}

/// The walk that led to a visit.
pub fn walk_to(
    alloc: Global,
    graph: &Graph,
    part: &Part,
    limit: Limit,
    visits: &[Visit],
    last: usize,
) -> Result<Vec<u32>, AllocError>
    requires trail { IsTrail graph.now part.now limit visits.now }
    requires last { last < length visits.now }
    ensures walk { IfOk result (λ walk. IsTrue (is_walk graph.now part.now (visit_at visits.now 0).node (visit_at visits.now last).node walk.items)) }
    ensures known { IfOk result (λ walk. All (λ k. k < length graph.now.edges) walk.items) }
    ensures cost { IfOk result (λ walk. cost_along limit graph.now walk.items ≡ (visit_at visits.now last).cost) }
{
    let mut walk = Vec::new(alloc);
    let mut at = last;
    while at > 0 {
        let visit = visits[at];
        walk.push(visit.place)?;
        at = visit.before;
    }
    walk.reverse();
    Ok(walk)
}
