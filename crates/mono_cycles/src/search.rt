//! A search along the edges backwards, depth first and without recursion (Tarjan 1972).
//!
//! The nodes on the path from the root are open. A node is done once each present edge that enters it begins at a node that
//! is done: so the nodes that are done stand in an order in which each present edge begins before it ends. An edge that
//! begins at an open node closes a cycle with the edges that were taken from there on.

ghost use Rattle.std.specs.Prelude.{◌≡◌, ◌<◌, ◌≤◌, ◌-◌, ◌++◌, ◌∷◌, [], ℕ, Bool, List, true, false, All, IfOk, MatchOption, IsTrue, length, take, slice_index, slice_index_or, slice_set};
ghost use Rattle.mono_graph.specs.Digraph.{Digraph, IsPartOf, HasEnds, present, edge_at, entering, has};
ghost use Rattle.mono_graph.specs.Cycles.{is_cycle};
ghost use Rattle.mono_cycles.specs.Searches.{HasRoom, IsStep, IsPath, IsCycleSearch};
ghost use Rattle.mono_cycles.specs.Found.{IsSearched};

use mono_graph::{Graph, Part};
use std::alloc::{AllocError, Global};

/// What is known of the nodes so far.
pub struct CycleSearch {
    /// By node: which of the edges that enter it is looked at next. Those before it are absent or begin at nodes that are done.
    pub next: Vec<usize>,
    /// By node: whether it is on the path.
    pub on_path: Vec<bool>,
    /// By node: whether it is in the order.
    pub done: Vec<bool>,
    pub path: Vec<u32>,
    /// By place on the path: the edge that was taken to it. There is none at the root.
    pub taken: Vec<u32>,
    pub order: Vec<u32>,
}

impl Drop for CycleSearch {
    fn drop(self) {
        let CycleSearch {
            next: _,
            on_path: _,
            done: _,
            path: _,
            taken: _,
            order: _,
        } = self;
    }
}

/// Which of these edges, from some place in the list on, is the first that is present and begins at a node that isn't done.
fn next_due(graph: &Graph, part: &Part, done: &[bool], edges: &[u32], first: usize) -> usize
    requires part { IsPartOf part.now graph.now }
    requires edges { All (λ k. k < length graph.now.edges) edges.now }
    requires done { length done.now ≡ graph.now.nodes }
    requires ends { HasEnds graph.now }
    requires first { first ≤ length edges.now }
    ensures from { first ≤ result }
    ensures within { result ≤ length edges.now }
    ensures passed { (j : ℕ) → first ≤ j → j < result → IsTrue (present part.now (slice_index edges.now j))
        → slice_index_or done.now (edge_at graph.now (slice_index edges.now j)).from false ≡ true }
    ensures here { result < length edges.now → present part.now (slice_index edges.now result) ≡ true }
    ensures due { result < length edges.now → slice_index_or done.now (edge_at graph.now (slice_index edges.now result)).from false ≡ false }
{
    let mut at = first;
    while at < edges.len() {
        let place = edges[at];
        if part.has(place) && !done[graph.edge(place).from as usize] {
            break;
        }
        at += 1;
    }
    at
}

/// The edges from the last node of the path back to an earlier one, behind the edge that leads from there to the last.
fn close(
    alloc: Global,
    path: &[u32],
    taken: &[u32],
    start: u32,
    closing: u32,
) -> Result<Vec<u32>, AllocError>
    requires len { length taken.now ≡ length path.now }
    requires start { IsTrue (has path.now start) }
    ensures { IfOk result (λ cycle. (g : Digraph) (P : List Bool) → IsPath g P path.now taken.now
        → IsStep g P closing start (slice_index path.now (length path.now - 1))
        → IsTrue (is_cycle g P cycle.items) × All (λ k. k < length g.edges) cycle.items) }
{
    let mut cycle = Vec::new(alloc);
    cycle.push(closing)?;
    let mut at = path.len() - 1;
    while path[at] != start {
        cycle.push(taken[at])?;
        at -= 1;
    }
    Ok(cycle)
}

impl CycleSearch {
    /// Room for this many nodes.
    pub fn new(alloc: Global, nodes: u32) -> Result<Self, AllocError>
        ensures { IfOk result (HasRoom nodes) }
    {
        Ok(CycleSearch {
            next: vec![in alloc; 0; nodes as usize]?,
            on_path: vec![in alloc; false; nodes as usize]?,
            done: vec![in alloc; false; nodes as usize]?,
            path: Vec::new(alloc),
            taken: Vec::new(alloc),
            order: Vec::new(alloc),
        })
    }

    /// Forgets what the search before found.
    pub fn clear(&mut self)
        ensures room { (n : ℕ) → HasRoom n self.old → HasRoom n self.new }
        ensures search { (g : Digraph) (P : List Bool) → HasRoom g.nodes self.old → IsCycleSearch g P self.new }
        ensures path { self.new.path.items ≡ [] }
        ensures order { self.new.order.items ≡ [] }
    {
        self.next.fill(0);
        self.on_path.fill(false);
        self.done.fill(false);
        self.path.clear();
        self.taken.clear();
        self.order.clear();
    }

    /// Opens a node at the end of the path.
    fn enter(&mut self, node: u32, place: u32) -> Result<(), AllocError>
        requires { node < length self.old.on_path.items }
        ensures room { (n : ℕ) → HasRoom n self.old → HasRoom n self.new }
        ensures next { self.new.next.items ≡ self.old.next.items }
        ensures done { self.new.done.items ≡ self.old.done.items }
        ensures order { self.new.order.items ≡ self.old.order.items }
        ensures on_path { self.new.on_path.items ≡ slice_set self.old.on_path.items node true }
        ensures path { IfOk result (λ _. self.new.path.items ≡ self.old.path.items ++ node ∷ []) }
        ensures taken { IfOk result (λ _. self.new.taken.items ≡ self.old.taken.items ++ place ∷ []) }
    {
        self.on_path[node as usize] = true;
        self.path.push(node)?;
        self.taken.push(place)?;
        Ok(())
    }

    /// Puts the last node of the path into the order.
    fn leave(&mut self, node: u32) -> Result<(), AllocError>
        requires on_path { node < length self.old.on_path.items }
        requires done { node < length self.old.done.items }
        ensures room { (n : ℕ) → HasRoom n self.old → HasRoom n self.new }
        ensures next { self.new.next.items ≡ self.old.next.items }
        ensures done { self.new.done.items ≡ slice_set self.old.done.items node true }
        ensures order { IfOk result (λ _. self.new.order.items ≡ self.old.order.items ++ node ∷ []) }
        ensures on_path { self.new.on_path.items ≡ slice_set self.old.on_path.items node false }
        ensures path { self.new.path.items ≡ take (length self.old.path.items - 1) self.old.path.items }
        ensures taken { self.new.taken.items ≡ take (length self.old.taken.items - 1) self.old.taken.items }
    {
        self.on_path[node as usize] = false;
        self.done[node as usize] = true;
        let _ = self.path.pop();
        let _ = self.taken.pop();
        self.order.push(node)?;
        Ok(())
    }

    /// The last node of the path.
    fn last(&self) -> Option<u32>
        ensures { MatchOption result (self.now.path.items ≡ []) (λ u. (0 < length self.now.path.items)
            × (slice_index self.now.path.items (length self.now.path.items - 1) ≡ u)) }
    {
        if self.path.is_empty() {
            None
        } else {
            Some(self.path[self.path.len() - 1])
        }
    }

    /// The next edge that enters the node, is present and begins at a node that isn't done. Where there is none, all of them
    /// have been looked at.
    fn next_edge(&mut self, graph: &Graph, part: &Part, node: u32) -> Option<u32>
        requires part { IsPartOf part.now graph.now }
        requires node { node < graph.now.nodes }
        requires search { IsCycleSearch graph.now part.now self.old }
        ensures search { IsCycleSearch graph.now part.now self.new }
        ensures on_path { self.new.on_path.items ≡ self.old.on_path.items }
        ensures done { self.new.done.items ≡ self.old.done.items }
        ensures path { self.new.path.items ≡ self.old.path.items }
        ensures taken { self.new.taken.items ≡ self.old.taken.items }
        ensures order { self.new.order.items ≡ self.old.order.items }
        ensures due { MatchOption result (slice_index self.new.next.items node
            ≡ length (entering graph.now node)) (λ k. IsStep graph.now part.now k (edge_at graph.now k).from node
            × (has self.old.order.items (edge_at graph.now k).from ≡ false)) }
    {
        // The edges of a graph lead between its nodes.
        graph.known();
        let edges = graph.entering(node);
        let first = self.next[node as usize];
        let at = next_due(graph, part, &self.done, edges, first);
        self.next[node as usize] = at;
        if at < edges.len() {
            Some(edges[at])
        } else {
            None
        }
    }

    /// Goes back from the root until a cycle is found or all nodes are done from which walks lead to it.
    pub fn search_from(
        &mut self,
        alloc: Global,
        graph: &Graph,
        part: &Part,
        root: u32,
    ) -> Result<Option<Vec<u32>>, AllocError>
        requires part { IsPartOf part.now graph.now }
        requires root { root < graph.now.nodes }
        requires search { IsCycleSearch graph.now part.now self.old }
        requires path { self.old.path.items ≡ [] }
        requires fresh { has self.old.order.items root ≡ false }
        ensures room { HasRoom graph.now.nodes self.new }
        ensures searched { IfOk result (IsSearched graph.now part.now root self.old self.new) }
    {
        // The edges of a graph lead between its nodes.
        graph.known();
        self.enter(root, 0)?;
        'back: while let Some(node) = self.last() {
            match self.next_edge(graph, part, node) {
                None => self.leave(node)?,
                Some(place) => {
                    let before = graph.edge(place).from;
                    if self.on_path[before as usize] {
                        let cycle = close(alloc, &self.path, &self.taken, before, place)?;
                        return Ok(Some(cycle));
                    }
                    self.enter(before, place)?;
                }
            }
        }
        Ok(None)
    }
}
