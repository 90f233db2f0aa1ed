//! Walks that lost edges, mended near the gap.
//!
//! What is left of such a walk are a part before the first edge that is gone, and a part behind the last one. Two searches grow
//! from there towards each other, in turn, a node each time: breadth first, from the ends at the gap. The next node of the walk,
//! away from the gap, counts as a neighbour. So a search costs what lies around the gap, and not the graph. Where the two meet,
//! and the walk that this makes is within the limit, the walk is mended.
//!
//! Of the two searches no more is shown than that they end, and that what they keep names edges and nodes of the graph: the
//! walk that comes of them is tested. Where there is none, a search of the graph has to tell why.
//!
//! Where no earlier walk is left, they look at all that lies half way around both nodes. In a large graph landmarks guide one search
//! in their place, once the two have cost more than finding landmarks does; also for a walk whose detour passes the limit.

ghost use Rattle.std.specs.Prelude.{◌≡◌, ◌<◌, All, IfOk, IfSome, IsTrue, length};
ghost use Rattle.mono_graph.specs.Digraph.{IsPartOf};
ghost use Rattle.mono_graph.specs.Walks.{is_path};

use crate::growth::Growth;
use crate::guide::Guide;
use crate::torn_walk::TornWalk;
use mono_graph::{Graph, Limit, Part};
use std::alloc::{AllocError, Global};
use std::marker::Model;

/// Graphs with fewer nodes have no landmarks.
const LEAST_NODES: u32 = 10_000;

/// Landmarks are found once the searches between two nodes that nothing guided have reached so many times as many nodes as there
/// are: finding them costs less than those did, and few walks are no reason to.
const LEAST_ROUNDS: u64 = 6;

/// Mends walks in graphs with some number of nodes. Contracts see that number.
///
/// It keeps its room from call to call, and clears what the call before has reached.
pub struct WalkMender {
    growth: Growth,
    by_steps: Guide,
    by_weight: Guide,
    /// How many nodes the searches between two nodes that nothing guided have reached, up to the last value of the type.
    reached: u64,
}

impl Drop for WalkMender {
    fn drop(self) {
        let WalkMender {
            growth: _,
            by_steps: _,
            by_weight: _,
            reached: _,
        } = self;
    }
}

impl Model for WalkMender {
    ghost use Rattle.std.specs.Prelude.{ℕ, vec_len};
    ghost use Rattle.mono_mend.specs.Growing.{IsRoom};

    ghost Value = { ℕ };

    ghost view = { λ m. vec_len m.growth.marks };

    ghost invariant = { λ m. IsRoom m.growth };
}

impl WalkMender {
    /// Room for graphs with this many nodes.
    pub fn new(alloc: Global, nodes: u32) -> Result<Self, AllocError>
        ensures { IfOk result (λ mender. mender ≡ nodes) }
    {
        Ok(WalkMender {
            growth: Growth::new(alloc, nodes)?,
            by_steps: Guide::new(alloc),
            by_weight: Guide::new(alloc),
            reached: 0,
        })
    }

    /// A walk from `from` to `to` within the limit near to an earlier one, some of whose edges are gone. Where the earlier one has
    /// no edge, what the two searches find from the nodes themselves. `None` where nothing was found.
    pub fn mend(
        &mut self,
        alloc: Global,
        graph: &Graph,
        part: &Part,
        from: u32,
        to: u32,
        limit: Limit,
        edges: &[u32],
    ) -> Result<Option<Vec<u32>>, AllocError>
        requires mender { self.old ≡ graph.now.nodes }
        requires part { IsPartOf part.now graph.now }
        requires from { from < graph.now.nodes }
        requires to { to < graph.now.nodes }
        requires edges { All (λ k. k < length graph.now.edges) edges.now }
        ensures walk { IfOk result (λ found. IfSome found (λ walk. IsTrue (is_path graph.now part.now from to limit walk.items))) }
        ensures known { IfOk result (λ found. IfSome found (λ walk. All (λ k. k < length graph.now.edges) walk.items)) }
        ensures mender { self.new ≡ self.old }
    {
        let torn = TornWalk {
            graph,
            part,
            from,
            to,
            limit,
            edges,
        };
        if edges.is_empty() {
            return self.connect(alloc, &torn);
        }
        self.growth.clear();
        let mended = self.growth.mend(alloc, &torn)?;
        if mended.is_some() || matches!(limit, Limit::Free) || !self.is_guided(graph.nodes()) {
            return Ok(mended);
        }
        self.follow_guide(alloc, &torn)
    }

    /// Whether it is worth its cost to guide a search in a graph with so many nodes.
    fn is_guided(&self, nodes: u32) -> bool {
        nodes >= LEAST_NODES && self.reached / LEAST_ROUNDS >= u64::from(nodes)
    }

    /// A walk between two nodes where none was before.
    fn connect(&mut self, alloc: Global, torn: &TornWalk) -> Result<Option<Vec<u32>>, AllocError>
        requires { self.old ≡ torn.now.graph.now.nodes }
        ensures walk { IfOk result (λ found. IfSome found (λ walk. IsTrue (is_path torn.now.graph.now torn.now.part.now torn.now.from torn.now.to
            torn.now.limit walk.items))) }
        ensures known { IfOk result (λ found. IfSome found (λ walk. All (λ k. k < length torn.now.graph.now.edges) walk.items)) }
        ensures mender { self.new ≡ self.old }
    {
        if !self.is_guided(torn.graph.nodes()) {
            return self.connect_freely(alloc, torn);
        }
        let found = self.follow_guide(alloc, torn)?;
        if found.is_some() {
            return Ok(found);
        }
        self.connect_freely(alloc, torn)
    }

    /// A walk that landmarks guide to, where little work finds one.
    fn follow_guide(
        &mut self,
        alloc: Global,
        torn: &TornWalk,
    ) -> Result<Option<Vec<u32>>, AllocError>
        requires { self.old ≡ torn.now.graph.now.nodes }
        ensures walk { IfOk result (λ found. IfSome found (λ walk. IsTrue (is_path torn.now.graph.now torn.now.part.now torn.now.from torn.now.to
            torn.now.limit walk.items))) }
        ensures known { IfOk result (λ found. IfSome found (λ walk. All (λ k. k < length torn.now.graph.now.edges) walk.items)) }
        ensures mender { self.new ≡ self.old }
    {
        match torn.limit {
            Limit::Weight(_) => self.by_weight.find(alloc, &mut self.growth, torn),
            Limit::Free => self.by_steps.find(alloc, &mut self.growth, torn),
            Limit::Steps(_) => self.by_steps.find(alloc, &mut self.growth, torn),
        }
    }

    /// A walk between two nodes by searches that nothing guides, where they find one.
    fn connect_freely(
        &mut self,
        alloc: Global,
        torn: &TornWalk,
    ) -> Result<Option<Vec<u32>>, AllocError>
        requires { self.old ≡ torn.now.graph.now.nodes }
        ensures walk { IfOk result (λ found. IfSome found (λ walk. IsTrue (is_path torn.now.graph.now torn.now.part.now torn.now.from torn.now.to
            torn.now.limit walk.items))) }
        ensures known { IfOk result (λ found. IfSome found (λ walk. All (λ k. k < length torn.now.graph.now.edges) walk.items)) }
        ensures mender { self.new ≡ self.old }
    {
        self.growth.clear();
        let found = self.growth.mend(alloc, torn)?;
        self.reached = self
            .reached
            .saturating_add(self.growth.reached.len() as u64);
        Ok(found)
    }
}
