//! Trees of walks that are mended where they lost edges.
//!
//! What is left of a tree is what those of its edges that are present still lead to from its source. For a node that this
//! lacks a search goes back, over the edges that enter the nodes to which it came, up to the first edge that leaves the
//! tree: by that edge, and those by which the search came there, the tree has the node once more. So a mend costs a look at
//! the tree and what lies about the nodes that were cut off, and not the graph (Ramalingam and Reps 1996). Where a search
//! meets no such edge, no walk leads to any node to which it came, and none of them is searched for again.

ghost use Rattle.std.specs.Prelude.{◌≡◌, ◌≢◌, ◌+◌, ◌<◌, ◌≤◌, ◌⊎◌, length, vec_capacity, All, IfNone, IfSome, IsTrue};
ghost use Rattle.mono_graph.specs.Digraph.{IsPartOf, edge_at};
ghost use Rattle.mono_dynamic.specs.Arrivals.{arrival_at, is_reached, IsTree};
ghost use Rattle.mono_dynamic.specs.Mending.{AreOut, HasGrown, IsComing, IsEntry, IsExtended, IsLonger, IsMendedTree, IsOut};

use crate::arrival::Arrival;
use crate::reached_nodes::ReachedNodes;
use mono_graph::{Graph, Part};

/// An edge that leaves a node of a tree, and to the node of which arrival it leads.
#[derive(Clone, Copy)]
struct Entry {
    place: u32,
    at: u32,
}

/// The places of the edges of a tree, in the order in which they were followed.
fn note_places(tree: &ReachedNodes, graph: &Graph, places: &mut Vec<u32>)
    requires room { tree.now.nodes ≤ vec_capacity places.old }
    ensures room { vec_capacity places.new ≡ vec_capacity places.old }
    ensures known { All (λ k. k < length graph.now.edges) places.new.items }
{
    places.clear();
    for position in 1..tree.count() {
        let place = tree.arrival(position).place;
        if place < graph.edge_count() {
            places.push_reserved(place);
        }
    }
}

/// What those of these edges that are present lead to from the source of the tree, in this order.
fn regrow(tree: &mut ReachedNodes, graph: &Graph, part: &Part, places: &[u32])
    requires size { tree.old.nodes ≡ graph.now.nodes }
    requires part { IsPartOf part.now graph.now }
    requires places { All (λ k. k < length graph.now.edges) places.now }
    ensures nodes { tree.new.nodes ≡ tree.old.nodes }
    ensures source { tree.new.source ≡ tree.old.source }
    ensures stamps { All (λ a. a.stamp ≤ 0) tree.new.arrivals }
    ensures tree { IsTree graph.now part.now tree.old.source tree.new.arrivals }
{
    let source = tree.source();
    tree.restart(source);
    tree.follow(graph, part, places, 0);
}

/// Goes back over the edges that enter the node of an arrival, up to one that leaves a node of the tree.
fn come_back(
    behind: &mut ReachedNodes,
    tree: &ReachedNodes,
    graph: &Graph,
    part: &Part,
    at: u32,
    first: u32,
) -> Option<u32>
    requires size { behind.old.nodes ≡ graph.now.nodes }
    requires tree { tree.now.nodes ≡ graph.now.nodes }
    requires part { IsPartOf part.now graph.now }
    requires from { first ≤ at }
    requires at { at < length behind.old.arrivals }
    requires coming { IsComing graph.now part.now tree.now.source first at behind.old.arrivals }
    ensures nodes { behind.new.nodes ≡ behind.old.nodes }
    ensures source { behind.new.source ≡ behind.old.source }
    ensures longer { IsLonger behind.old.arrivals behind.new.arrivals }
    ensures none { IfNone result (IsComing graph.now part.now tree.now.source first (at + 1) behind.new.arrivals) }
    ensures entry { IfSome result (λ k. IsEntry graph.now part.now tree.now.arrivals behind.new.arrivals k at) }
    ensures coming { IfSome result (λ _. IsComing graph.now part.now tree.now.source first at behind.new.arrivals) }
{
    let node = behind.node_at(at as usize);
    for place in graph.entering(node) {
        if !part.has(*place) {
            continue;
        }
        let edge = graph.edge(*place);
        let leaves = tree.has(edge.from);
        if leaves {
            return Some(*place);
        }
        behind.arrive(Arrival {
            node: edge.from,
            place: *place,
            before: at,
            stamp: first,
        });
    }
    None
}

/// An edge by which the search that goes back from a target comes to the tree. Where there is none, no walk leads to the target.
fn find_entry(
    behind: &mut ReachedNodes,
    tree: &ReachedNodes,
    graph: &Graph,
    part: &Part,
    target: u32,
    first: u32,
) -> Option<Entry>
    requires size { behind.old.nodes ≡ graph.now.nodes }
    requires tree { tree.now.nodes ≡ graph.now.nodes }
    requires part { IsPartOf part.now graph.now }
    requires target { target < graph.now.nodes }
    requires other { target ≢ tree.now.source }
    requires first { first ≡ length behind.old.arrivals }
    requires out { AreOut graph.now part.now tree.now.source behind.old.arrivals }
    ensures nodes { behind.new.nodes ≡ behind.old.nodes }
    ensures source { behind.new.source ≡ behind.old.source }
    ensures none { IfNone result (AreOut graph.now part.now tree.now.source behind.new.arrivals) }
    ensures lacks { IfNone result (IsOut graph.now part.now tree.now.source target) }
    ensures entry { IfSome result (λ e. IsEntry graph.now part.now tree.now.arrivals behind.new.arrivals e.place e.at) }
    ensures held { IfSome result (λ e. e.at < length behind.new.arrivals) }
    ensures from { IfSome result (λ e. first ≤ e.at) }
    ensures target { IfSome result (λ e. (arrival_at behind.new.arrivals first).node ≡ target) }
    ensures coming { IfSome result (λ e. IsComing graph.now part.now tree.now.source first e.at behind.new.arrivals) }
{
    let mut head = first;
    behind.arrive(Arrival {
        node: target,
        place: 0,
        before: 0,
        stamp: first,
    });
    while (head as usize) < behind.count() {
        if let Some(place) = come_back(behind, tree, graph, part, head, first) {
            return Some(Entry { place, at: head });
        }
        head += 1;
    }
    None
}

/// Adds the node to which an edge leads from a node of the tree.
fn extend(tree: &mut ReachedNodes, graph: &Graph, place: u32)
    requires size { tree.old.nodes ≡ graph.now.nodes }
    requires place { place < length graph.now.edges }
    requires from { IsTrue (is_reached tree.old.arrivals (edge_at graph.now place).from) }
    requires stamps { All (λ a. a.stamp ≤ 0) tree.old.arrivals }
    ensures { IsExtended graph.now place tree.old tree.new }
{
    let edge = graph.edge(place);
    match tree.arrival_of(edge.from) {
        Some(before) => tree.arrive(Arrival {
            node: edge.to,
            place,
            before,
            stamp: 0,
        }),
        None => unreachable!(),
    }
}

/// Adds to the tree an edge that leaves it, and the way from there to the node of the arrival at `first`.
fn add_way_on(
    behind: &ReachedNodes,
    tree: &mut ReachedNodes,
    graph: &Graph,
    part: &Part,
    entry: Entry,
    first: u32,
)
    requires size { tree.old.nodes ≡ graph.now.nodes }
    requires stamps { All (λ a. a.stamp ≤ 0) tree.old.arrivals }
    requires from { first ≤ entry.at }
    requires held { entry.at < length behind.now.arrivals }
    requires coming { IsComing graph.now part.now tree.old.source first entry.at behind.now.arrivals }
    requires entry { IsEntry graph.now part.now tree.old.arrivals behind.now.arrivals entry.place entry.at }
    ensures grown { HasGrown graph.now part.now tree.old tree.new }
    ensures there { IsTrue (is_reached tree.new.arrivals (arrival_at behind.now.arrivals first).node) }
{
    extend(tree, graph, entry.place);
    let mut at = entry.at;
    while at > first {
        let arrival = behind.arrival(at as usize);
        extend(tree, graph, arrival.place);
        at = arrival.before;
    }
}

/// Adds a way to the target to the tree, if there is one.
fn mend_to(
    behind: &mut ReachedNodes,
    tree: &mut ReachedNodes,
    graph: &Graph,
    part: &Part,
    target: u32,
)
    requires size { behind.old.nodes ≡ graph.now.nodes }
    requires nodes { tree.old.nodes ≡ graph.now.nodes }
    requires part { IsPartOf part.now graph.now }
    requires target { target < graph.now.nodes }
    requires stamps { All (λ a. a.stamp ≤ 0) tree.old.arrivals }
    requires out { AreOut graph.now part.now tree.old.source behind.old.arrivals }
    ensures nodes { behind.new.nodes ≡ behind.old.nodes }
    ensures out { AreOut graph.now part.now tree.old.source behind.new.arrivals }
    ensures grown { HasGrown graph.now part.now tree.old tree.new }
    ensures told { IsTrue (is_reached tree.new.arrivals target) ⊎ IsOut graph.now part.now tree.old.source target }
{
    if tree.has(target) {
        return;
    }
    let first = behind.count() as u32;
    if let Some(entry) = find_entry(behind, tree, graph, part, target, first) {
        add_way_on(behind, tree, graph, part, entry, first);
        behind.undo_to(first - 1);
    }
}

/// Mends a tree: of these nodes it then has those to which walks in the part lead.
pub(crate) fn mend(
    behind: &mut ReachedNodes,
    places: &mut Vec<u32>,
    tree: &mut ReachedNodes,
    graph: &Graph,
    part: &Part,
    targets: &[u32],
)
    requires size { behind.old.nodes ≡ graph.now.nodes }
    requires nodes { tree.old.nodes ≡ graph.now.nodes }
    requires part { IsPartOf part.now graph.now }
    requires targets { All (λ v. v < graph.now.nodes) targets.now }
    requires room { tree.old.nodes ≤ vec_capacity places.old }
    ensures size { behind.new.nodes ≡ behind.old.nodes }
    ensures nodes { tree.new.nodes ≡ tree.old.nodes }
    ensures source { tree.new.source ≡ tree.old.source }
    ensures room { vec_capacity places.new ≡ vec_capacity places.old }
    ensures tree { IsMendedTree graph.now part.now tree.old.source targets.now tree.new.arrivals }
{
    note_places(tree, graph, places);
    regrow(tree, graph, part, places.as_slice());
    let source = tree.source();
    behind.restart(source);
    for target in targets {
        mend_to(behind, tree, graph, part, *target);
    }
}
