//! Searches that lower labels until a node is reached or no edge lowers any.
//!
//! The label of a node is what the cheapest walk found so far costs. At first that of the start is 0 and each other is
//! the cap: one more than the greatest bound that is asked about, so that a node at the cap isn't reached within it. What
//! a search keeps is that along each present edge the label rises by at most what the edge costs, or a visit that has
//! the label of the edge's start still waits. So a search may stop after any visit and go on later.

ghost use Rattle.std.specs.Prelude.{◌≡◌, ◌<◌, ◌≤◌, ◌∷◌, ◌==◌, ◌&&◌, [], ℕ, Bool, List, false, IfOk, IsTrue, length, replicate, slice_set, vec_len};
ghost use Rattle.mono_graph.specs.Digraph.{IsPartOf};
ghost use Rattle.mono_paths.specs.Trails.{first_visit, visit_at, IsVisited};
ghost use Rattle.mono_paths.specs.Spread.{label_of, AreTight};
ghost use Rattle.mono_paths.specs.Reaches.{IsCheap};
ghost use Rattle.mono_paths.specs.Searches.{IsLabelSearch, source_of};

use crate::labels::Labels;
use crate::spread::expand;
use crate::visit::{Visit, walk_to};
use crate::waiting::Waiting;
use mono_graph::{Graph, Limit, Part};
use std::alloc::{AllocError, Global};

/// Labels, the visits that lowered them, and which of these wait.
pub struct LabelSearch {
    pub labels: Labels,
    pub visits: Vec<Visit>,
    pub waiting: Waiting,
}

impl Drop for LabelSearch {
    fn drop(self) {
        let LabelSearch {
            labels: _,
            visits: _,
            waiting: _,
        } = self;
    }
}

/// Sets the labels to the cap and that of the start to 0, and makes the one visit there.
fn begin(
    labels: &mut Labels,
    visits: &mut Vec<Visit>,
    from: u32,
    cap: u64,
) -> Result<(), AllocError>
    requires from { from < length labels.old.each }
    requires cap { 0 < cap }
    ensures cap { labels.new.cap ≡ cap }
    ensures len { length labels.new.each ≡ length labels.old.each }
    ensures labels { IfOk result (λ _. labels.new.each ≡ slice_set (replicate (length labels.old.each) cap) from 0) }
    ensures visits { IfOk result (λ _. visits.new.items ≡ first_visit from ∷ []) }
{
    labels.reset(cap);
    visits.clear();
    labels.lower(from, 0)?;
    visits.push(Visit {
        node: from,
        place: 0,
        before: 0,
        cost: 0,
    })?;
    Ok(())
}

/// Whether the visit is of this node, at this cost.
fn is_visit_of(visit: Visit, node: u32, cost: u64) -> bool
    ensures { result ≡ (visit.node == node && visit.cost == cost) }
{
    visit.node == node && visit.cost == cost
}

/// The last visit of a node at this cost, of which there is one.
fn last_visit(visits: &[Visit], node: u32, cost: u64) -> usize
    requires { IsVisited visits.now node cost }
    ensures known { result < length visits.now }
    ensures node { (visit_at visits.now result).node ≡ node }
    ensures cost { (visit_at visits.now result).cost ≡ cost }
{
    let mut at = visits.len() - 1;
    while !is_visit_of(visits[at], node, cost) {
        at -= 1;
    }
    at
}

impl LabelSearch {
    /// A search in graphs with this many nodes, to be begun.
    pub fn new(alloc: Global, nodes: u32) -> Result<Self, AllocError>
        ensures { IfOk result (λ search. length search.labels.each ≡ nodes) }
    {
        Ok(LabelSearch {
            labels: Labels::new(alloc, nodes)?,
            visits: Vec::new(alloc),
            waiting: Waiting::new(alloc),
        })
    }

    /// Begins anew, from a node. What the search before left is taken back, in proportion to what that one reached.
    pub fn begin(
        &mut self,
        graph: &Graph,
        limit: Limit,
        from: u32,
        cap: u64,
    ) -> Result<(), AllocError>
        requires from { from < graph.now.nodes }
        requires cap { 0 < cap }
        requires labels { length self.old.labels.each ≡ graph.now.nodes }
        ensures len { length self.new.labels.each ≡ length self.old.labels.each }
        ensures cap { self.new.labels.cap ≡ cap }
        ensures source { IfOk result (λ _. source_of self.new ≡ from) }
        ensures begun { IfOk result (λ _. (P : List Bool) → IsLabelSearch graph.now P limit self.new) }
    {
        // The edges of a graph lead between its nodes.
        graph.known();
        begin(&mut self.labels, &mut self.visits, from, cap)?;
        self.waiting.clear(matches!(limit, Limit::Weight(_)));
        self.waiting.add(&self.visits, 0)?;
        Ok(())
    }

    /// Goes on until a walk to the node costs at most so much, or no visit waits. Whether there is such a walk.
    pub fn goes_to(
        &mut self,
        graph: &Graph,
        part: &Part,
        limit: Limit,
        to: u32,
        most: u64,
    ) -> Result<bool, AllocError>
        requires part { IsPartOf part.now graph.now }
        requires to { to < graph.now.nodes }
        requires search { IsLabelSearch graph.now part.now limit self.old }
        ensures len { length self.new.labels.each ≡ length self.old.labels.each }
        ensures cap { self.new.labels.cap ≡ self.old.labels.cap }
        ensures source { IfOk result (λ _. source_of self.new ≡ source_of self.old) }
        ensures search { IfOk result (λ _. IsLabelSearch graph.now part.now limit self.new) }
        ensures found { IfOk result (λ found. IsTrue found → label_of self.new.labels.each to ≤ most) }
        ensures above { IfOk result (λ found. found ≡ false → most < label_of self.new.labels.each to) }
        ensures tight { IfOk result (λ found. found ≡ false → AreTight graph.now part.now limit self.new.labels.each) }
    {
        while self.labels.get(to) > most {
            let first = self.visits.len();
            let Some(at) = self.waiting.take(first) else {
                return Ok(false);
            };
            expand(graph, part, limit, &mut self.labels, &mut self.visits, at)?;
            self.waiting.add(&self.visits, first)?;
        }
        Ok(true)
    }

    /// The walk that gave a node its label, which is below the cap.
    pub fn walk(
        &self,
        alloc: Global,
        graph: &Graph,
        part: &Part,
        limit: Limit,
        to: u32,
    ) -> Result<Vec<u32>, AllocError>
        requires to { to < graph.now.nodes }
        requires search { IsLabelSearch graph.now part.now limit self.now }
        requires below { label_of self.now.labels.each to < self.now.labels.cap }
        ensures { IfOk result (λ walk. IsCheap graph.now part.now limit (source_of self.now) to self.now.labels.cap walk.items) }
    {
        let last = last_visit(&self.visits, to, self.labels.get(to));
        walk_to(alloc, graph, part, limit, &self.visits, last)
    }
}
