//! Walks some of whose edges are gone.

ghost use Rattle.std.specs.Prelude.{◌<◌, ◌≤◌, All, IsTrue, length};
ghost use Rattle.mono_graph.specs.Digraph.{IsPartOf};
ghost use Rattle.mono_graph.specs.Walks.{is_path as is_path_of};

use mono_graph::{Graph, Limit, Part};
use mono_paths::is_path;

/// A walk that was, and what is asked for in its place: a walk of present edges between the nodes within the limit.
#[derive(Clone, Copy)]
pub(crate) struct TornWalk<'a> {
    pub graph: &'a Graph,
    pub part: &'a Part,
    pub from: u32,
    pub to: u32,
    pub limit: Limit,
    /// The edges of the walk that was, by their places.
    pub edges: &'a [u32],
    ghost part_of_graph: { IsPartOf part.now graph.now },
    ghost from_in_graph: { from < graph.now.nodes },
    ghost to_in_graph: { to < graph.now.nodes },
    ghost edges_in_graph: { All (λ k. k < length graph.now.edges) edges.now },
}

/// Whether the places are below so many.
fn are_known(places: &[u32], count: u32) -> bool
    ensures { IsTrue result → All (λ k. k < count) places.now }
{
    for place in places {
        if *place >= count {
            return false;
        }
    }
    true
}

impl<'a> TornWalk<'a> {
    /// How many edges there are before the first that is gone.
    pub(crate) fn before_gap(&self) -> usize
        ensures { result ≤ length self.now.edges.now }
    {
        for at in 0..self.edges.len() {
            if !self.part.has(self.edges[at]) {
                return at;
            }
        }
        self.edges.len()
    }

    /// From which place on no edge is gone.
    pub(crate) fn behind_gap(&self) -> usize
        ensures { result ≤ length self.now.edges.now }
    {
        let mut at = self.edges.len();
        while 0 < at && self.part.has(self.edges[at - 1]) {
            at -= 1;
        }
        at
    }

    /// Whether the edges form such a walk.
    pub(crate) fn is_mended_by(&self, walk: &[u32]) -> bool
        ensures walk { IsTrue result
            → IsTrue (is_path_of self.now.graph.now self.now.part.now self.now.from self.now.to self.now.limit walk.now) }
        ensures known { IsTrue result → All (λ k. k < length self.now.graph.now.edges) walk.now }
    {
        if !are_known(walk, self.graph.edge_count()) {
            return false;
        }
        is_path(self.graph, self.part, self.from, self.to, self.limit, walk)
    }
}
