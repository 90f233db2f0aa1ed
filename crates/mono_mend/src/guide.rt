//! Walks from one node to another in a large graph, by a search that landmarks guide.
//!
//! The search goes on from the node by which a walk would cost least, as far as its distances from the landmarks tell (Hart,
//! Nilsson and Raphael 1968). So it costs about what the walk does, where a search breadth first costs what lies around the
//! two nodes. No more is shown of it than that it ends, and that what it keeps names edges and nodes of the graph: the walk that
//! comes of it is tested.

ghost use Rattle.std.specs.Prelude.{◌≡◌, ◌<◌, All, IfOk, IfSome, IsTrue, length, vec_len};
ghost use Rattle.mono_graph.specs.Walks.{is_path};
ghost use Rattle.mono_mend.specs.Growing.{IsGrowth, IsRoom, IsWayIn};
ghost use Rattle.mono_mend.specs.Guiding.{AreWithin};

use crate::frontier::{Frontier, Open};
use crate::growth::Growth;
use crate::landmarks::{Landmarks, cost_of};
use crate::torn_walk::TornWalk;
use crate::way::{Mark, Way};
use std::alloc::{AllocError, Global};

/// How many nodes a search looks at.
const MOST_NODES: u32 = 20_000;

/// What guides searches in a graph.
#[derive(Drop)]
pub(crate) struct Guide {
    landmarks: Landmarks,
    frontier: Frontier,
}

/// A walk that is asked for, and the landmarks by which it is searched.
#[derive(Clone, Copy)]
struct Guided<'a> {
    torn: TornWalk<'a>,
    landmarks: &'a Landmarks,
    ghost known: { vec_len landmarks.now.by_node ≡ torn.graph.now.nodes },
}

impl<'a> Guided<'a> {
    /// A node is reached so, unless it was before at no greater cost, and the search may go on from it.
    fn reach(
        &self,
        growth: &mut Growth,
        frontier: &mut Frontier,
        node: u32,
        mark: Mark,
    ) -> Result<(), AllocError>
        requires node { node < self.now.torn.graph.now.nodes }
        requires way { IsWayIn self.now.torn.graph.now mark.way }
        requires growth { IsGrowth self.now.torn.graph.now growth.old }
        requires waiting { AreWithin self.now.torn.graph.now.nodes frontier.old }
        ensures growth { IsGrowth self.now.torn.graph.now growth.new }
        ensures waiting { AreWithin self.now.torn.graph.now.nodes frontier.new }
    {
        let old = growth.marks[node as usize];
        if old.way.is_reached() && old.cost <= mark.cost {
            return Ok(());
        }
        growth.put(node, mark)?;
        let left = self.landmarks.between(node, self.torn.to);
        frontier.push(node, mark.cost, mark.cost.saturating_add(left))
    }

    /// Reaches the end of an edge that leaves a node of this cost, where the edge is present.
    fn follow(
        &self,
        growth: &mut Growth,
        frontier: &mut Frontier,
        place: u32,
        start: u64,
    ) -> Result<(), AllocError>
        requires place { place < length self.now.torn.graph.now.edges }
        requires growth { IsGrowth self.now.torn.graph.now growth.old }
        requires waiting { AreWithin self.now.torn.graph.now.nodes frontier.old }
        ensures growth { IsGrowth self.now.torn.graph.now growth.new }
        ensures waiting { AreWithin self.now.torn.graph.now.nodes frontier.new }
    {
        if !self.torn.part.has(place) {
            return Ok(());
        }
        let edge = self.torn.graph.edge(place);
        let cost = start.saturating_add(cost_of(self.torn.limit, edge));
        let way = Way::by(place, true);
        self.reach(growth, frontier, edge.to, Mark { way, cost })
    }

    /// Reaches the ends of the present edges that leave a node, unless it was reached at a lower cost by now.
    fn go_on(
        &self,
        growth: &mut Growth,
        frontier: &mut Frontier,
        next: Open,
    ) -> Result<(), AllocError>
        requires node { next.node < self.now.torn.graph.now.nodes }
        requires growth { IsGrowth self.now.torn.graph.now growth.old }
        requires waiting { AreWithin self.now.torn.graph.now.nodes frontier.old }
        ensures growth { IsGrowth self.now.torn.graph.now growth.new }
        ensures waiting { AreWithin self.now.torn.graph.now.nodes frontier.new }
    {
        if growth.marks[next.node as usize].cost != next.cost {
            return Ok(());
        }
        for place in self.torn.graph.leaving(next.node) {
            self.follow(growth, frontier, *place, next.cost)?;
        }
        Ok(())
    }

    /// Searches for a walk. Whether its last node was reached.
    fn search(&self, growth: &mut Growth, frontier: &mut Frontier) -> Result<bool, AllocError>
        requires room { IsRoom growth.old }
        requires count { vec_len growth.old.marks ≡ self.now.torn.graph.now.nodes }
        ensures { IsGrowth self.now.torn.graph.now growth.new }
    {
        growth.clear();
        frontier.clear();
        let way = Way::First;
        self.reach(growth, frontier, self.torn.from, Mark { way, cost: 0 })?;
        for _step in 0..MOST_NODES {
            let Some(next) = frontier.pop() else {
                return Ok(false);
            };
            if next.node == self.torn.to {
                return Ok(true);
            }
            self.go_on(growth, frontier, next)?;
        }
        Ok(false)
    }
}

impl Guide {
    /// Nothing is found yet.
    pub(crate) fn new(alloc: Global) -> Self {
        Guide {
            landmarks: Landmarks::none(alloc),
            frontier: Frontier::new(alloc),
        }
    }

    /// A walk as it is asked for. `None` where none was found with little work.
    pub(crate) fn find(
        &mut self,
        alloc: Global,
        growth: &mut Growth,
        torn: &TornWalk,
    ) -> Result<Option<Vec<u32>>, AllocError>
        requires room { IsRoom growth.old }
        requires count { vec_len growth.old.marks ≡ torn.now.graph.now.nodes }
        ensures walk { IfOk result (λ found. IfSome found (λ walk. IsTrue (is_path torn.now.graph.now torn.now.part.now torn.now.from torn.now.to
            torn.now.limit walk.items))) }
        ensures known { IfOk result (λ found. IfSome found (λ walk. All (λ k. k < length torn.now.graph.now.edges) walk.items)) }
        ensures room { IsRoom growth.new }
        ensures count { vec_len growth.new.marks ≡ vec_len growth.old.marks }
    {
        self.landmarks
            .find(alloc, torn.graph, torn.limit, torn.from)?;
        let guided = Guided {
            torn: *torn,
            landmarks: &self.landmarks,
        };
        if !guided.search(growth, &mut self.frontier)? {
            return Ok(None);
        }
        let mut walk = Vec::new(alloc);
        growth.trace(torn.graph, torn.to, &mut walk)?;
        walk.reverse();
        if torn.is_mended_by(walk.as_slice()) {
            Ok(Some(walk))
        } else {
            Ok(None)
        }
    }
}
