//! The breadth-first search for an augmenting path.
//!
//! The list of visits is the queue: the nodes behind the head wait. Visits are only added, so what holds of one holds
//! from then on. A node is marked exactly where it was visited. Where no node waits any longer, each residual edge
//! with capacity out of a marked node leads to a marked node.

ghost use Rattle.std.specs.Prelude.{◌≡◌, ◌≢◌, ◌<◌, ℕ, [], false, IfOk, IfSome, OnSome, IfNone, All, length, map, IsTrue, min};
ghost use Rattle.mono_graph.specs.Digraph.{edge_at, has};
ghost use Rattle.mono_flows.specs.Residual.{amount_of, residual_at, start_of, end_of};
ghost use Rattle.mono_flows.specs.Visits.{visit_at, is_marked, IsFlowSearch, IsSearchTree, AreMarks, GoesOn, CameTo, IsExpanded, IsAugmentingPath, IsBlocked};

use crate::network::{Network, ResidualEdge};
use crate::visit::Visit;
use std::alloc::{AllocError, Global};

/// The visits of a search, in order, and by node whether it was visited.
#[derive(Drop)]
pub(crate) struct AugmentingSearch {
    pub marks: Vec<bool>,
    pub visits: Vec<Visit>,
}

/// Takes the marks off the visited nodes.
fn unmark_visits(marks: &mut Vec<bool>, visits: &[Visit])
    requires within { All (λ v. v.node < length marks.old.items) visits.now }
    requires visited { (u : ℕ) → IsTrue (is_marked marks.old.items u) → IsTrue (has (map (λ v. v.node) visits.now) u) }
    ensures len { length marks.new.items ≡ length marks.old.items }
    ensures clear { (u : ℕ) → is_marked marks.new.items u ≡ false }
{
    for visit in visits {
        marks[visit.node as usize] = false;
    }
}

impl AugmentingSearch {
    /// A search that has visited nothing, in a graph of this many nodes.
    pub fn new(alloc: Global, nodes: u32) -> Result<Self, AllocError>
        ensures { IfOk result (IsFlowSearch nodes) }
    {
        Ok(AugmentingSearch {
            marks: vec![in alloc; false; nodes as usize]?,
            visits: Vec::new(alloc),
        })
    }

    /// Takes the visits back, and the marks off their nodes.
    fn clear(&mut self)
        requires search { IsFlowSearch (length self.old.marks.items) self.old }
        ensures len { length self.new.marks.items ≡ length self.old.marks.items }
        ensures clear { (u : ℕ) → is_marked self.new.marks.items u ≡ false }
        ensures visits { self.new.visits.items ≡ [] }
    {
        unmark_visits(&mut self.marks, &self.visits);
        self.visits.clear();
    }

    /// The visit of the node to which the edge leads, where the edge has capacity left and its end isn't marked.
    fn visit_by(
        &self,
        network: &Network,
        amounts: &[u64],
        at: usize,
        edge: ResidualEdge,
    ) -> Option<Visit>
        requires amounts { length amounts.now ≡ length network.now.graph.now.edges }
        requires place { edge.place < length network.now.graph.now.edges }
        requires at { at < length self.now.visits.items }
        requires marks { length self.now.marks.items ≡ network.now.graph.now.nodes }
        ensures visit { IfSome result (λ v. v
            ≡ record {
              node = end_of (edge_at network.now.graph.now edge.place) edge.back;
              edge = edge;
              before = at;
              residual = min (residual_at network.now.graph.now network.now.part.now (amount_of amounts.now) edge.place edge.back)
                  (visit_at self.now.visits.items at).residual;
            }) }
        ensures residual { OnSome result (0 < residual_at network.now.graph.now network.now.part.now (amount_of amounts.now) edge.place edge.back) }
        ensures inside { OnSome result (end_of (edge_at network.now.graph.now edge.place) edge.back < network.now.graph.now.nodes) }
        ensures new { OnSome result (is_marked self.now.marks.items (end_of (edge_at network.now.graph.now edge.place) edge.back) ≡ false) }
        ensures none { IfNone result (0 < residual_at network.now.graph.now network.now.part.now (amount_of amounts.now) edge.place edge.back
            → IsTrue (is_marked self.now.marks.items (end_of (edge_at network.now.graph.now edge.place) edge.back))) }
    {
        let residual = network.residual(amounts, edge);
        let node = network.end(edge);
        if residual == 0 || self.marks[node as usize] {
            return None;
        }
        Some(Visit {
            node,
            edge,
            before: at,
            residual: residual.min(self.visits[at].residual),
        })
    }

    /// Visits the ends of these edges, all taken in their direction or all against it. Whether it came to the sink.
    fn expand(
        &mut self,
        network: &Network,
        amounts: &[u64],
        at: usize,
        places: &[u32],
        back: bool,
    ) -> Result<bool, AllocError>
        requires amounts { length amounts.now ≡ length network.now.graph.now.edges }
        requires places { All (λ k. (k < length network.now.graph.now.edges)
            × (start_of (edge_at network.now.graph.now k) back ≡ (visit_at self.old.visits.items at).node)) places.now }
        requires at { at < length self.old.visits.items }
        requires tree { IsSearchTree network.now.graph.now network.now.part.now (amount_of amounts.now) self.old.visits.items }
        requires marks { AreMarks network.now.graph.now self.old.marks.items self.old.visits.items }
        ensures search { IsFlowSearch network.now.graph.now.nodes self.new }
        ensures goes_on { IfOk result (λ _. GoesOn network.now amounts.now self.old self.new) }
        ensures came { IfOk result (CameTo network.now.sink self.old self.new) }
        ensures covers { IfOk result (λ found. found ≡ false → (k : ℕ) → IsTrue (has places.now k)
            → 0 < residual_at network.now.graph.now network.now.part.now (amount_of amounts.now) k back
            → IsTrue (is_marked self.new.marks.items (end_of (edge_at network.now.graph.now k) back))) }
    {
        for place in places {
            let edge = ResidualEdge {
                place: *place,
                back,
            };
            if let Some(visit) = self.visit_by(network, amounts, at, edge) {
                self.visits.push(visit)?;
                self.marks[visit.node as usize] = true;
                if visit.node == network.sink {
                    return Ok(true);
                }
            }
        }
        Ok(false)
    }

    /// Visits the nodes to which more can be carried from a visit's node. Whether it came to the sink.
    fn expand_node(
        &mut self,
        network: &Network,
        amounts: &[u64],
        at: usize,
    ) -> Result<bool, AllocError>
        requires amounts { length amounts.now ≡ length network.now.graph.now.edges }
        requires at { at < length self.old.visits.items }
        requires tree { IsSearchTree network.now.graph.now network.now.part.now (amount_of amounts.now) self.old.visits.items }
        requires marks { AreMarks network.now.graph.now self.old.marks.items self.old.visits.items }
        ensures search { IsFlowSearch network.now.graph.now.nodes self.new }
        ensures goes_on { IfOk result (λ _. GoesOn network.now amounts.now self.old self.new) }
        ensures came { IfOk result (CameTo network.now.sink self.old self.new) }
        ensures covers { IfOk result (λ found. found ≡ false
            → IsExpanded network.now.graph.now network.now.part.now (amount_of amounts.now)
            (visit_at self.old.visits.items at).node self.new.marks.items) }
    {
        let node = self.visits[at].node;
        let graph = network.graph;
        if self.expand(network, amounts, at, graph.leaving(node), false)? {
            return Ok(true);
        }
        self.expand(network, amounts, at, graph.entering(node), true)
    }

    /// Searches for an augmenting path along which up to `most` more can be carried. Whether there is one: then the
    /// visits hold it, and it ends at the last. Otherwise the marked nodes are those that can be reached.
    pub fn find_path(
        &mut self,
        network: &Network,
        amounts: &[u64],
        most: u64,
    ) -> Result<bool, AllocError>
        requires amounts { length amounts.now ≡ length network.now.graph.now.edges }
        requires search { IsFlowSearch network.now.graph.now.nodes self.old }
        requires apart { network.now.source ≢ network.now.sink }
        requires most { 0 < most }
        ensures search { IsFlowSearch network.now.graph.now.nodes self.new }
        ensures found { IfOk result (λ found. IsTrue found
            → IsAugmentingPath network.now.graph.now network.now.part.now
            (amount_of amounts.now) network.now.source network.now.sink most self.new.visits.items) }
        ensures marks { IfOk result (λ found. AreMarks network.now.graph.now self.new.marks.items self.new.visits.items) }
        ensures blocked { IfOk result (λ found. found ≡ false
            → IsBlocked network.now.graph.now network.now.part.now (amount_of amounts.now) network.now.source network.now.sink self.new.marks.items) }
    {
        self.clear();
        self.visits.push(Visit::first(network.source, most))?;
        self.marks[network.source as usize] = true;
        let mut head = 0;
        while head < self.visits.len() {
            if self.expand_node(network, amounts, head)? {
                return Ok(true);
            }
            head += 1;
        }
        Ok(false)
    }
}
