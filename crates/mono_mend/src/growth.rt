//! Two searches that grow towards each other, from the ends at the gap of a walk.

ghost use Rattle.std.specs.Prelude.{◌≡◌, ◌<◌, ℕ, false, All, IfOk, IfSome, IsTrue, length, slice_index_or, vec_len};
ghost use Rattle.mono_graph.specs.Digraph.{Digraph, has};
ghost use Rattle.mono_graph.specs.Walks.{is_path};
ghost use Rattle.mono_mend.specs.Growing.{IsGrowth, IsRoom, IsWayIn, no_mark};

use crate::torn_walk::TornWalk;
use crate::way::{Mark, Way};
use mono_graph::{Graph, Limit};
use std::alloc::{AllocError, Global};

/// How many nodes each search looks at where the walk is bounded and one is left to begin with. Beyond that a search of the graph
/// is better: it finds a walk that leaves more room for the next gap.
const MOST_NODES: u32 = 2000;

/// The nodes that were reached, and those that are to be looked at.
pub(crate) struct Growth {
    /// By node.
    pub marks: Vec<Mark>,
    /// The nodes that were reached.
    pub reached: Vec<u32>,
    /// The nodes from which the search from the front goes on, in order.
    pub front: Vec<u32>,
    /// The nodes from which the search from behind goes on, in order.
    pub behind: Vec<u32>,
}

impl Drop for Growth {
    fn drop(self) {
        let Growth {
            marks: _,
            reached: _,
            front: _,
            behind: _,
        } = self;
    }
}

/// No node was reached.
const NO_MARK: Mark = Mark {
    way: Way::Unreached,
    cost: 0,
};

/// Takes the marks off these nodes. Where no other node had one, none has one then.
fn unmark(marks: &mut Vec<Mark>, nodes: &[u32])
    requires within { All (λ u. u < vec_len marks.old) nodes.now }
    ensures len { vec_len marks.new ≡ vec_len marks.old }
    ensures clear { ((u : ℕ) → has nodes.now u ≡ false → slice_index_or marks.old.items u no_mark ≡ no_mark) → (u : ℕ)
        → slice_index_or marks.new.items u no_mark ≡ no_mark }
{
    for node in nodes {
        marks[*node as usize] = NO_MARK;
    }
}

/// The node of the walk that comes next behind one that was reached, away from the gap.
fn next_on_walk(graph: &Graph, way: Way) -> Option<u32>
    requires { IsWayIn graph.now way }
    ensures { IfSome result (λ u. u < graph.now.nodes) }
{
    match way {
        Way::Before(place) => Some(graph.edge(place).from),
        Way::Behind(place) => Some(graph.edge(place).to),
        _ => None,
    }
}

impl Growth {
    /// Room for graphs with this many nodes.
    pub(crate) fn new(alloc: Global, nodes: u32) -> Result<Self, AllocError>
        ensures count { IfOk result (λ growth. vec_len growth.marks ≡ nodes) }
        ensures room { IfOk result IsRoom }
    {
        Ok(Growth {
            marks: vec![in alloc; NO_MARK; nodes as usize]?,
            reached: Vec::new(alloc),
            front: Vec::new(alloc),
            behind: Vec::new(alloc),
        })
    }

    /// Forgets what the searches before have reached.
    pub(crate) fn clear(&mut self)
        requires { IsRoom self.old }
        ensures { (g : Digraph) → vec_len self.old.marks ≡ g.nodes → IsGrowth g self.new }
    {
        unmark(&mut self.marks, &self.reached);
        self.reached.clear();
        self.front.clear();
        self.behind.clear();
    }

    /// A node was reached so.
    pub(crate) fn put(&mut self, node: u32, mark: Mark) -> Result<(), AllocError>
        requires { node < length self.old.marks.items }
        ensures { (g : Digraph) → IsWayIn g mark.way → IsGrowth g self.old → IsGrowth g self.new }
    {
        self.reached.push(node)?;
        self.marks[node as usize] = mark;
        Ok(())
    }

    /// A node was reached so, unless it was before.
    fn reach(&mut self, node: u32, way: Way, cost: u64) -> Result<(), AllocError>
        requires { node < length self.old.marks.items }
        ensures { (g : Digraph) → IsWayIn g way → IsGrowth g self.old → IsGrowth g self.new }
    {
        if self.marks[node as usize].way.is_reached() {
            return Ok(());
        }
        self.put(node, Mark { way, cost })
    }

    /// A search goes on from this node: the one from the front, or the one from behind.
    fn enqueue(&mut self, node: u32, onward: bool) -> Result<(), AllocError>
        ensures { (g : Digraph) → node < g.nodes → IsGrowth g self.old → IsGrowth g self.new }
    {
        if onward {
            self.front.push(node)?;
            return Ok(());
        }
        self.behind.push(node)?;
        Ok(())
    }

    /// The nodes before the gap are reached, and the search from the front goes on from the last of them.
    fn begin_front(&mut self, torn: &TornWalk) -> Result<(), AllocError>
        requires { IsGrowth torn.now.graph.now self.old }
        ensures { IsGrowth torn.now.graph.now self.new }
    {
        let mut node = torn.from;
        let mut cost: u64 = 0;
        self.reach(node, Way::First, 0)?;
        for at in 0..torn.before_gap() {
            let place = torn.edges[at];
            let edge = torn.graph.edge(place);
            node = edge.to;
            cost = cost.saturating_add(torn.limit.cost_of(edge));
            self.reach(node, Way::Before(place), cost)?;
        }
        self.enqueue(node, true)
    }

    /// The nodes behind the gap are reached, and the search from behind goes on from the first of them.
    fn begin_behind(&mut self, torn: &TornWalk) -> Result<(), AllocError>
        requires { IsGrowth torn.now.graph.now self.old }
        ensures { IsGrowth torn.now.graph.now self.new }
    {
        let mut node = torn.to;
        let mut cost: u64 = 0;
        let first = torn.behind_gap();
        let mut at = torn.edges.len();
        self.reach(node, Way::Last, 0)?;
        while first < at {
            at -= 1;
            let place = torn.edges[at];
            let edge = torn.graph.edge(place);
            node = edge.from;
            cost = cost.saturating_add(torn.limit.cost_of(edge));
            self.reach(node, Way::Behind(place), cost)?;
        }
        self.enqueue(node, false)
    }

    /// A search goes on from the node of the walk that comes next behind one that was reached.
    fn follow_walk(&mut self, graph: &Graph, node: u32, onward: bool) -> Result<(), AllocError>
        requires node { node < graph.now.nodes }
        requires growth { IsGrowth graph.now self.old }
        ensures { IsGrowth graph.now self.new }
    {
        match next_on_walk(graph, self.marks[node as usize].way) {
            Some(next) => self.enqueue(next, onward),
            None => Ok(()),
        }
    }

    /// Follows an edge of a node that was reached, onward or back. Whether the searches meet there, with a walk within the limit.
    fn follow(
        &mut self,
        torn: &TornWalk,
        node: u32,
        place: u32,
        onward: bool,
    ) -> Result<bool, AllocError>
        requires node { node < torn.now.graph.now.nodes }
        requires place { place < length torn.now.graph.now.edges }
        requires growth { IsGrowth torn.now.graph.now self.old }
        ensures { IsGrowth torn.now.graph.now self.new }
    {
        if !torn.part.has(place) {
            return Ok(false);
        }
        let edge = torn.graph.edge(place);
        let other = if onward { edge.to } else { edge.from };
        let cost = self.marks[node as usize]
            .cost
            .saturating_add(torn.limit.cost_of(edge));
        let mark = self.marks[other as usize];
        let from_front = match mark.way {
            Way::Unreached => {
                self.reach(other, Way::by(place, onward), cost)?;
                self.enqueue(other, onward)?;
                return Ok(false);
            }
            Way::First | Way::Before(_) | Way::Forward(_) => true,
            Way::Last | Way::Behind(_) | Way::Backward(_) => false,
        };
        let whole = u128::from(cost.saturating_add(mark.cost));
        Ok(from_front != onward && torn.limit.admits(whole))
    }

    /// A search goes on from a node. The edge by which it meets the other one with a walk within the limit, if it does.
    fn grow(&mut self, torn: &TornWalk, node: u32, onward: bool) -> Result<Option<u32>, AllocError>
        requires node { node < torn.now.graph.now.nodes }
        requires growth { IsGrowth torn.now.graph.now self.old }
        ensures growth { IsGrowth torn.now.graph.now self.new }
        ensures known { IfOk result (λ found. IfSome found (λ k. k < length torn.now.graph.now.edges)) }
    {
        self.follow_walk(torn.graph, node, onward)?;
        let places = if onward {
            torn.graph.leaving(node)
        } else {
            torn.graph.entering(node)
        };
        for place in places {
            if self.follow(torn, node, *place, onward)? {
                return Ok(Some(*place));
            }
        }
        Ok(None)
    }

    /// The searches go on in turn. The edge by which they meet with a walk within the limit, if they do.
    fn meet(&mut self, torn: &TornWalk) -> Result<Option<u32>, AllocError>
        requires { IsGrowth torn.now.graph.now self.old }
        ensures growth { IsGrowth torn.now.graph.now self.new }
        ensures known { IfOk result (λ found. IfSome found (λ k. k < length torn.now.graph.now.edges)) }
    {
        let most = match torn.limit {
            Limit::Free => torn.graph.nodes(),
            _ if torn.edges.is_empty() => torn.graph.nodes(),
            _ => MOST_NODES,
        };
        for turn in 0..most {
            let at = turn as usize;
            if at >= self.front.len() || at >= self.behind.len() {
                return Ok(None);
            }
            let (before, behind) = (self.front[at], self.behind[at]);
            if let Some(place) = self.grow(torn, before, true)? {
                return Ok(Some(place));
            }
            if let Some(place) = self.grow(torn, behind, false)? {
                return Ok(Some(place));
            }
        }
        Ok(None)
    }

    /// Adds the edges that lead from a node to an end of the walk, as they were found.
    pub(crate) fn trace(
        &self,
        graph: &Graph,
        start: u32,
        walk: &mut Vec<u32>,
    ) -> Result<(), AllocError>
        requires start { start < graph.now.nodes }
        requires growth { IsGrowth graph.now self.now }
    {
        let mut node = start;
        for _step in 0..self.reached.len() {
            let Some(place) = self.marks[node as usize].way.place() else {
                return Ok(());
            };
            walk.push(place)?;
            let edge = graph.edge(place);
            node = if edge.from == node {
                edge.to
            } else {
                edge.from
            };
        }
        Ok(())
    }

    /// The walk through an edge by which the searches meet.
    fn walk_through(&self, alloc: Global, graph: &Graph, place: u32) -> Result<Vec<u32>, AllocError>
        requires place { place < length graph.now.edges }
        requires growth { IsGrowth graph.now self.now }
    {
        let edge = graph.edge(place);
        let mut walk = vec![in alloc; place]?;
        self.trace(graph, edge.from, &mut walk)?;
        walk.reverse();
        self.trace(graph, edge.to, &mut walk)?;
        Ok(walk)
    }

    /// A walk as it is asked for, where the searches find one.
    pub(crate) fn mend(
        &mut self,
        alloc: Global,
        torn: &TornWalk,
    ) -> Result<Option<Vec<u32>>, AllocError>
        requires { IsGrowth torn.now.graph.now self.old }
        ensures walk { IfOk result (λ found. IfSome found (λ walk. IsTrue (is_path torn.now.graph.now torn.now.part.now torn.now.from torn.now.to
            torn.now.limit walk.items))) }
        ensures known { IfOk result (λ found. IfSome found (λ walk. All (λ k. k < length torn.now.graph.now.edges) walk.items)) }
        ensures growth { IsGrowth torn.now.graph.now self.new }
    {
        self.begin_front(torn)?;
        self.begin_behind(torn)?;
        let Some(place) = self.meet(torn)? else {
            return Ok(None);
        };
        let walk = self.walk_through(alloc, torn.graph, place)?;
        if torn.is_mended_by(walk.as_slice()) {
            Ok(Some(walk))
        } else {
            Ok(None)
        }
    }
}
