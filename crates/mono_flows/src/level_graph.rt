//! The levels of the nodes, and the residual edges that lead one level up.
//!
//! A depth-first search along these edges keeps for each node the number of its edge that is looked at next, so that no
//! edge is looked at again once it was passed (Dinic, 1970). Of the levels the search needs only that they rise along
//! its path by one at each step: then its nodes differ. That a level is the distance from the source makes the search
//! fast, and nothing that is claimed rests on it.

ghost use Rattle.std.specs.Prelude.{◌≡◌, ◌<◌, ◌+◌, ℕ, IfOk, IfSome, length, slice_index_or, min, All};
ghost use Rattle.mono_graph.specs.Digraph.{edge_at};
ghost use Rattle.mono_flows.specs.Residual.{amount_of, residual_at, start_of, end_of};
ghost use Rattle.mono_flows.specs.Levels.{AreLevels};

use crate::network::{Network, ResidualEdge};
use crate::visit::Visit;
use mono_graph::Graph;
use std::alloc::{AllocError, Global};

/// By node: its level, and the number of its edge that is looked at next.
#[derive(Drop)]
pub(crate) struct LevelGraph {
    /// How many steps the node is from the source, and `u32::MAX` where it wasn't reached.
    pub levels: Vec<u32>,
    next: Vec<u32>,
}

/// The edge at a node with this number: those that leave it come first, then those that enter it.
fn edge_at_node(graph: &Graph, node: u32, number: u32) -> Option<ResidualEdge>
    requires { node < graph.now.nodes }
    ensures known { IfSome result (λ e. e.place < length graph.now.edges) }
    ensures start { IfSome result (λ e. start_of (edge_at graph.now e.place) e.back ≡ node) }
{
    let leaving = graph.leaving(node);
    let number = number as usize;
    if number < leaving.len() {
        let place = leaving[number];
        return Some(ResidualEdge { place, back: false });
    }
    let entering = graph.entering(node);
    let number = number - leaving.len();
    if number < entering.len() {
        let place = entering[number];
        return Some(ResidualEdge { place, back: true });
    }
    None
}

impl LevelGraph {
    /// No node of this many has a level.
    pub fn new(alloc: Global, nodes: u32) -> Result<Self, AllocError>
        ensures { IfOk result (AreLevels nodes) }
    {
        Ok(LevelGraph {
            levels: vec![in alloc; u32::MAX; nodes as usize]?,
            next: vec![in alloc; 0; nodes as usize]?,
        })
    }

    /// Gives the source level 0, and each visited node one more than the node from which it was visited.
    pub fn set_levels(&mut self, visits: &[Visit], source: u32)
        requires levels { AreLevels (length self.old.levels.items) self.old }
        requires visits { All (λ v. v.node < length self.old.levels.items) visits.now }
        requires source { source < length self.old.levels.items }
        ensures levels { AreLevels (length self.old.levels.items) self.new }
        ensures source { slice_index_or self.new.levels.items source 0 ≡ 0 }
    {
        self.levels[source as usize] = 0;
        for visit in visits {
            if visit.node != source && visit.before < visits.len() {
                let before = visits[visit.before].node;
                self.levels[visit.node as usize] = self.levels[before as usize].saturating_add(1);
            }
        }
    }

    /// Takes the levels of the visited nodes away, and lets their edges be looked at from the first on.
    pub fn clear(&mut self, visits: &[Visit])
        requires levels { AreLevels (length self.old.levels.items) self.old }
        requires visits { All (λ v. v.node < length self.old.levels.items) visits.now }
        ensures { AreLevels (length self.old.levels.items) self.new }
    {
        for visit in visits {
            self.levels[visit.node as usize] = u32::MAX;
            self.next[visit.node as usize] = 0;
        }
    }

    /// The visit along the edge, where it has capacity left and leads one level up.
    fn visit_along(
        &self,
        network: &Network,
        amounts: &[u64],
        at: usize,
        last: Visit,
        edge: ResidualEdge,
    ) -> Option<Visit>
        requires amounts { length amounts.now ≡ length network.now.graph.now.edges }
        requires levels { AreLevels network.now.graph.now.nodes self.now }
        requires node { last.node < network.now.graph.now.nodes }
        requires known { edge.place < length network.now.graph.now.edges }
        ensures visit { IfSome result (λ v. v
            ≡ record {
              node = end_of (edge_at network.now.graph.now edge.place) edge.back;
              edge = edge;
              before = at;
              residual = min (residual_at network.now.graph.now network.now.part.now (amount_of amounts.now) edge.place edge.back) last.residual;
            }) }
        ensures inside { IfSome result (λ v. v.node < network.now.graph.now.nodes) }
        ensures some { IfSome result (λ v. 0 < residual_at network.now.graph.now network.now.part.now (amount_of amounts.now) edge.place edge.back) }
        ensures level { IfSome result (λ v. slice_index_or self.now.levels.items v.node 0 ≡ slice_index_or self.now.levels.items last.node 0 + 1) }
    {
        let residual = network.residual(amounts, edge);
        let node = network.end(edge);
        if residual == 0 {
            return None;
        }
        if u64::from(self.levels[node as usize]) != u64::from(self.levels[last.node as usize]) + 1 {
            return None;
        }
        Some(Visit {
            node,
            edge,
            before: at,
            residual: residual.min(last.residual),
        })
    }

    /// The visit along the next edge at the last visit's node that has capacity left and leads one level up.
    pub fn next_visit(
        &mut self,
        network: &Network,
        amounts: &[u64],
        at: usize,
        last: Visit,
    ) -> Option<Visit>
        requires amounts { length amounts.now ≡ length network.now.graph.now.edges }
        requires levels { AreLevels network.now.graph.now.nodes self.old }
        requires node { last.node < network.now.graph.now.nodes }
        ensures levels { AreLevels network.now.graph.now.nodes self.new }
        ensures same { self.new.levels.items ≡ self.old.levels.items }
        ensures before { IfSome result (λ v. v.before ≡ at) }
        ensures known { IfSome result (λ v. v.edge.place < length network.now.graph.now.edges) }
        ensures start { IfSome result (λ v. start_of (edge_at network.now.graph.now v.edge.place) v.edge.back ≡ last.node) }
        ensures end { IfSome result (λ v. end_of (edge_at network.now.graph.now v.edge.place) v.edge.back ≡ v.node) }
        ensures inside { IfSome result (λ v. v.node < network.now.graph.now.nodes) }
        ensures some { IfSome result (λ v. 0 < residual_at network.now.graph.now network.now.part.now (amount_of amounts.now) v.edge.place v.edge.back) }
        ensures residual { IfSome result (λ v. v.residual
            ≡ min (residual_at network.now.graph.now network.now.part.now (amount_of amounts.now) v.edge.place v.edge.back) last.residual) }
        ensures level { IfSome result (λ v. slice_index_or self.new.levels.items v.node 0 ≡ slice_index_or self.new.levels.items last.node 0 + 1) }
    {
        let node = last.node as usize;
        for number in self.next[node]..u32::MAX {
            match edge_at_node(network.graph, last.node, number) {
                None => {
                    self.next[node] = number;
                    return None;
                }
                Some(edge) => {
                    let found = self.visit_along(network, amounts, at, last, edge);
                    if found.is_some() {
                        self.next[node] = number;
                        return found;
                    }
                }
            }
        }
        None
    }

    /// Passes the edge at the node that is looked at next.
    pub fn pass_edge(&mut self, node: u32)
        requires levels { AreLevels (length self.old.levels.items) self.old }
        requires node { node < length self.old.levels.items }
        ensures levels { AreLevels (length self.old.levels.items) self.new }
        ensures same { self.new.levels.items ≡ self.old.levels.items }
    {
        self.next[node as usize] = self.next[node as usize].saturating_add(1);
    }
}
