//! The nodes that are reached from one source in a part that gains edges and loses the last of them again.
//!
//! The arrivals stand in a list in the order in which they were found, so their stamps never fall, and what was reached
//! after fewer steps is a first part of the list: going back drops the rest. A table says of each node which arrival is its
//! own, and is right wherever that arrival names the node (a sparse set, Briggs and Torczon 1993). So going back
//! leaves the table as it is. The list is at the same time the queue of the search that a new edge starts: the arrivals
//! that it adds are those whose leaving edges are still to be followed.

ghost use Rattle.std.specs.Prelude.{◌≡◌, ◌+◌, ◌<◌, ◌≤◌, ◌++◌, ◌∷◌, [], ℕ, Bool, List, if◌then◌else◌, false, All, IfOk, IfSome, IsTrue, length, reverse, slice_set, take, drop, vec_len, vec_capacity};
ghost use Rattle.mono_graph.specs.Digraph.{Digraph, IsPartOf, present};
ghost use Rattle.mono_graph.specs.Walks.{is_walk};
ghost use Rattle.mono_dynamic.specs.Arrivals.{arrival_at, at_source, after, is_reached, is_by, within, IsTree, AreReached, AreReachedAlong, IsGrown, GrowsAfter};
ghost use Rattle.mono_dynamic.specs.Reached.{ArePlaced, AreOrdered, IsArrivalOf, AreFollowed};

use crate::arrival::Arrival;
use crate::cost_source::CostSource;
use crate::row::SourceRow;
use mono_base::limits::MAX_NODES;
use mono_graph::{Graph, Part};
use std::alloc::{AllocError, Global};
use std::marker::Model;

/// The nodes that are reached from one source, after each number of steps by which the part grew.
///
/// Contracts see the number of nodes, the source and the arrivals in their order. Only `new` and `walk_to` take memory.
#[derive(Drop)]
pub struct ReachedNodes {
    source: u32,
    /// By node: which arrival is its own, if that one names the node.
    positions: Vec<u32>,
    arrivals: Vec<Arrival>,
}

impl Model for ReachedNodes {
    ghost use Rattle.std.specs.Prelude.{length, vec_capacity};
    ghost use Rattle.mono_dynamic.specs.Reached.{Reached, IsKept};

    ghost Value = { Reached };

    ghost view = { λ r. record { nodes = length r.positions.items; source = r.source; arrivals = r.arrivals.items } };

    ghost invariant = { λ r. IsKept r.source r.positions.items r.arrivals.items (vec_capacity r.arrivals) };
}

/// Which arrival is the node's.
fn find(positions: &[u32], arrivals: &[Arrival], node: u32) -> Option<u32>
    requires placed { ArePlaced positions.now arrivals.now }
    requires node { node < length positions.now }
    ensures { IsArrivalOf arrivals.now node result }
{
    let position = positions[node as usize];
    if (position as usize) < arrivals.len() && arrivals[position as usize].node == node {
        Some(position)
    } else {
        None
    }
}

/// Adds an arrival where there is room for it.
fn add(positions: &mut Vec<u32>, arrivals: &mut Vec<Arrival>, arrival: Arrival)
    requires node { arrival.node < vec_len positions.old }
    requires room { vec_len arrivals.old < vec_capacity arrivals.old }
    requires few { vec_len arrivals.old < MAX_NODES }
    ensures positions { positions.new.items ≡ slice_set positions.old.items arrival.node (length arrivals.old.items) }
    ensures arrivals { arrivals.new.items ≡ arrivals.old.items ++ arrival ∷ [] }
    ensures capacity { vec_capacity arrivals.old ≤ vec_capacity arrivals.new }
{
    positions[arrival.node as usize] = arrivals.len() as u32;
    arrivals.push_reserved(arrival);
}

/// The arrival at a source.
fn first_at(source: u32) -> Arrival
    ensures { result ≡ at_source source }
{
    Arrival {
        node: source,
        place: 0,
        before: 0,
        stamp: 0,
    }
}

/// How many of the first arrivals have no later stamps.
fn count_within(arrivals: &[Arrival], kept: u32) -> usize
    requires { (i j : ℕ) → i ≤ j → j < length arrivals.now → (arrival_at arrivals.now i).stamp ≤ (arrival_at arrivals.now j).stamp }
    ensures held { result ≤ length arrivals.now }
    ensures first { take result arrivals.now ≡ within kept arrivals.now }
    ensures rest { drop result arrivals.now ≡ after kept arrivals.now }
{
    let mut count = arrivals.len();
    while count > 0 && arrivals[count - 1].stamp > kept {
        count -= 1;
    }
    count
}

/// Drops the arrivals with later stamps.
fn drop_later(arrivals: &mut Vec<Arrival>, kept: u32)
    requires { (i j : ℕ) → i ≤ j → j < length arrivals.old.items → (arrival_at arrivals.old.items i).stamp ≤ (arrival_at arrivals.old.items j).stamp }
    ensures arrivals { arrivals.new.items ≡ within kept arrivals.old.items }
    ensures capacity { vec_capacity arrivals.new ≡ vec_capacity arrivals.old }
{
    let count = count_within(arrivals.as_slice(), kept);
    arrivals.truncate(count);
}

impl ReachedNodes {
    /// The source alone is reached, in a part with no edge. The graph has this many nodes, at most [`MAX_NODES`].
    pub fn new(alloc: Global, nodes: u32, source: u32) -> Result<Self, AllocError>
        requires few { nodes ≤ MAX_NODES }
        requires source { source < nodes }
        ensures { IfOk result (λ r. r ≡ record { nodes = nodes; source = source; arrivals = at_source source ∷ [] }) }
    {
        let mut positions = vec![in alloc; 0; nodes as usize]?;
        let mut arrivals = Vec::with_capacity(alloc, nodes as usize)?;
        add(&mut positions, &mut arrivals, first_at(source));
        Ok(ReachedNodes {
            source,
            positions,
            arrivals,
        })
    }

    /// Reaches the node, unless it was reached before.
    pub(crate) fn arrive(&mut self, arrival: Arrival)
        requires node { arrival.node < self.old.nodes }
        requires before { arrival.before < length self.old.arrivals }
        requires stamps { All (λ a. a.stamp ≤ arrival.stamp) self.old.arrivals }
        ensures { self.new ≡ record self.old {
          arrivals = (if is_reached self.old.arrivals arrival.node then self.old.arrivals else self.old.arrivals
              ++ arrival ∷ []);
        } }
    {
        match find(&self.positions, &self.arrivals, arrival.node) {
            Some(_) => {}
            None => add(&mut self.positions, &mut self.arrivals, arrival),
        }
    }

    /// Follows those of these edges that are present and leave a reached node.
    pub(crate) fn follow(&mut self, graph: &Graph, part: &Part, places: &[u32], stamp: u32)
        requires size { self.old.nodes ≡ graph.now.nodes }
        requires part { IsPartOf part.now graph.now }
        requires places { All (λ k. k < length graph.now.edges) places.now }
        requires stamps { All (λ a. a.stamp ≤ stamp) self.old.arrivals }
        ensures { AreFollowed graph.now part.now stamp places.now [] self.old self.new }
    {
        for place in places {
            if !part.has(*place) {
                continue;
            }
            let edge = graph.edge(*place);
            if let Some(before) = self.arrival_of(edge.from) {
                self.arrive(Arrival {
                    node: edge.to,
                    place: *place,
                    before,
                    stamp,
                });
            }
        }
    }

    /// Which arrival is the node's. No other is.
    pub(crate) fn arrival_of(&self, node: u32) -> Option<u32>
        requires { node < self.now.nodes }
        ensures arrival { IsArrivalOf self.now.arrivals node result }
        ensures alone { IfSome result (λ i. (j : ℕ) → j < length self.now.arrivals → (arrival_at self.now.arrivals j).node ≡ node → i ≡ j) }
    {
        find(&self.positions, &self.arrivals, node)
    }

    /// Whether the node is reached. The source is.
    pub fn has(&self, node: u32) -> bool
        requires { node < self.now.nodes }
        ensures reached { result ≡ is_reached self.now.arrivals node }
        ensures source { IsTrue (is_reached self.now.arrivals self.now.source) }
    {
        find(&self.positions, &self.arrivals, node).is_some()
    }

    /// The source.
    pub(crate) fn source(&self) -> u32
        ensures source { result ≡ self.now.source }
        ensures known { result < self.now.nodes }
    {
        self.source
    }

    /// The arrival at a position. But for the first one, which is the source's, it comes by an earlier one.
    pub(crate) fn arrival(&self, position: usize) -> Arrival
        requires { position < length self.now.arrivals }
        ensures arrival { result ≡ arrival_at self.now.arrivals position }
        ensures known { result.node < self.now.nodes }
        ensures alone { (j : ℕ) → j < length self.now.arrivals → (arrival_at self.now.arrivals j).node ≡ result.node → position ≡ j }
        ensures source { position ≡ 0 → result.node ≡ self.now.source }
        ensures before { 0 < position → result.before < position }
    {
        self.arrivals[position]
    }

    /// Goes back to a source alone, which may be another one.
    pub(crate) fn restart(&mut self, source: u32)
        requires { source < self.old.nodes }
        ensures { self.new ≡ record { nodes = self.old.nodes; source = source; arrivals = at_source source ∷ [] } }
    {
        self.source = source;
        self.arrivals.clear();
        add(&mut self.positions, &mut self.arrivals, first_at(source));
    }

    /// How many nodes are reached.
    pub(crate) fn count(&self) -> usize
        ensures count { result ≡ length self.now.arrivals }
        ensures few { length self.now.arrivals ≤ self.now.nodes }
        ensures most { self.now.nodes ≤ MAX_NODES }
    {
        self.arrivals.len()
    }

    /// The node of an arrival.
    pub(crate) fn node_at(&self, position: usize) -> u32
        requires { position < length self.now.arrivals }
        ensures node { result ≡ (arrival_at self.now.arrivals position).node }
        ensures known { result < self.now.nodes }
    {
        self.arrivals[position].node
    }

    /// Edges have come into the part, with the step of this number, and no others since the last call. Nodes to which walks lead only by them are
    /// reached with this stamp.
    ///
    /// It costs the places, the nodes that are newly reached and the edges that leave them.
    pub fn grow(&mut self, graph: &Graph, part: &Part, places: &[u32], stamp: u32)
        requires size { self.old.nodes ≡ graph.now.nodes }
        requires part { IsPartOf part.now graph.now }
        requires places { All (λ k. k < length graph.now.edges) places.now }
        requires stamps { All (λ a. a.stamp ≤ stamp) self.old.arrivals }
        ensures nodes { self.new.nodes ≡ self.old.nodes }
        ensures source { self.new.source ≡ self.old.source }
        ensures stamps { All (λ a. a.stamp ≤ stamp) self.new.arrivals }
        ensures earlier { (m : ℕ) → m < stamp → within m self.new.arrivals ≡ within m self.old.arrivals }
        ensures reached { (P : List Bool) → AreReached graph.now P self.old.source self.old.arrivals → IsGrown P part.now places.now
            → AreReached graph.now part.now self.old.source self.new.arrivals }
        ensures along { (parts : ℕ → List Bool) (n : ℕ) → AreReachedAlong graph.now parts n self.old.source self.old.arrivals
            → GrowsAfter parts n stamp part.now places.now → AreReachedAlong graph.now parts stamp self.old.source self.new.arrivals }
    {
        let mut head = self.count();
        self.follow(graph, part, places, stamp);
        while head < self.count() {
            let node = self.node_at(head);
            self.follow(graph, part, graph.leaving(node), stamp);
            head += 1;
        }
    }

    /// Goes back to what was reached after so many steps. It costs what it drops.
    pub fn undo_to(&mut self, kept: u32)
        ensures arrivals { self.new ≡ record self.old { arrivals = within kept self.old.arrivals } }
        ensures along { (g : Digraph) (parts : ℕ → List Bool) (n : ℕ) → kept ≤ n → AreReachedAlong g parts n self.old.source self.old.arrivals
            → AreReachedAlong g parts kept self.old.source self.new.arrivals }
    {
        drop_later(&mut self.arrivals, kept);
    }

    /// The arrivals, in the order in which the nodes were reached: what a step added stands at the end.
    pub fn arrivals(&self) -> &[Arrival]
        ensures arrivals { result.now ≡ self.now.arrivals }
        ensures known { All (λ a. a.node < self.now.nodes) result.now }
    {
        &self.arrivals
    }

    /// The least number of steps after which the node is reached, if it is.
    pub fn reached_after(&self, node: u32) -> Option<u32>
        requires { node < self.now.nodes }
        ensures { (m : ℕ) → is_reached (within m self.now.arrivals) node ≡ is_by result m }
    {
        match find(&self.positions, &self.arrivals, node) {
            Some(position) => Some(self.arrivals[position as usize].stamp),
            None => None,
        }
    }

    /// The walk by which the node was reached, in order. It is a walk in the part as it was after any number of steps by which the node
    /// was reached.
    pub fn walk_to(&self, alloc: Global, node: u32) -> Result<Vec<u32>, AllocError>
        requires node { node < self.now.nodes }
        requires reached { IsTrue (is_reached self.now.arrivals node) }
        ensures { IfOk result (λ walk. (g : Digraph) (P : List Bool) (m : ℕ) → IsTree g P self.now.source (within m self.now.arrivals)
            → IsTrue (is_reached (within m self.now.arrivals) node) → IsTrue (is_walk g P self.now.source node walk.items)) }
    {
        match find(&self.positions, &self.arrivals, node) {
            Some(last) => {
                let walk = walk_back(alloc, &self.arrivals, last as usize, self.source)?;
                Ok(walk)
            }
            None => unreachable!(),
        }
    }
}

impl SourceRow for ReachedNodes {
    ghost use Rattle.mono_dynamic.specs.Arrivals.{after};
    ghost use Rattle.mono_dynamic.specs.Rows.{alone, back_to, IsGrownRow, IsRow};

    type Change = Arrival;

    ghost at_first = { λ n s. alone n s.node };

    ghost fits = { IsRow };

    ghost grown = { λ g Q ks looked. IsGrownRow g Q ks (looked + 1) };

    ghost undone = { λ kept old new. new ≡ back_to kept old };

    ghost changed_after = { λ kept r. after kept r.arrivals };

    fn new(alloc: Global, nodes: u32, source: CostSource) -> Result<Self, AllocError> {
        ReachedNodes::new(alloc, nodes, source.node)
    }

    fn grow(
        &mut self,
        graph: &Graph,
        part: &Part,
        places: &[u32],
        looked: u32,
    ) -> Result<(), AllocError> {
        ReachedNodes::grow(self, graph, part, places, looked + 1);
        Ok(())
    }

    fn undo_to(&mut self, kept: u32) {
        ReachedNodes::undo_to(self, kept);
    }

    fn changes_after(&self, kept: u32) -> &[Arrival] {
        let count = count_within(self.arrivals.as_slice(), kept);
        &self.arrivals[count..]
    }
}

/// The walk that led to an arrival.
fn walk_back(
    alloc: Global,
    arrivals: &[Arrival],
    last: usize,
    source: u32,
) -> Result<Vec<u32>, AllocError>
    requires ordered { AreOrdered source arrivals.now }
    requires last { last < length arrivals.now }
    ensures { IfOk result (λ walk. (g : Digraph) (P : List Bool) (m : ℕ) → IsTree g P source (within m arrivals.now)
        → last < length (within m arrivals.now) → IsTrue (is_walk g P source (arrival_at arrivals.now last).node walk.items)) }
{
    let mut walk = Vec::new(alloc);
    let mut at = last;
    while at > 0 {
        let arrival = arrivals[at];
        walk.push(arrival.place)?;
        at = arrival.before as usize;
    }
    walk.reverse();
    Ok(walk)
}
