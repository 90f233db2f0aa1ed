//! How far nodes are from three nodes that lie far apart, along all edges of a graph.
//!
//! The difference of the distances of two nodes from one landmark is about what lies between the two at least (Goldberg and
//! Harrelson 2005). Edges may be absent, and lead in one direction alone: nothing rests on these numbers but how long a search
//! takes.

ghost use Rattle.std.specs.Prelude.{◌≡◌, ◌<◌, ◌^◌, ℕ, All, IfOk, OnOk, length, vec_len};

use mono_graph::{Edge, Graph, Limit};
use std::alloc::{AllocError, Global};

/// The distance of a node to which no edges lead.
const FAR: u64 = u64::MAX;

/// How often a node is taken up, on average, before distances are left as they are.
const ROUNDS: usize = 8;

/// How far a node is from each landmark.
#[derive(Clone, Copy)]
pub(crate) struct Distances {
    pub first: u64,
    pub second: u64,
    pub third: u64,
}

/// Landmarks, as the distances of the nodes from them.
#[derive(Drop)]
pub(crate) struct Landmarks {
    /// By node. Of no node before they are found.
    pub by_node: Vec<Distances>,
}

/// What an edge counts: its weight where the limit counts weights, else 1.
pub(crate) fn cost_of(limit: Limit, edge: Edge) -> u64 {
    match limit {
        Limit::Weight(_) => edge.weight,
        Limit::Free => 1,
        Limit::Steps(_) => 1,
    }
}

/// A node is no farther than this: where that is nearer than before, it waits.
fn lower(
    distances: &mut Vec<u64>,
    waiting: &mut Vec<u32>,
    node: u32,
    distance: u64,
) -> Result<(), AllocError>
    requires { node < vec_len distances.old }
    ensures len { vec_len distances.new ≡ vec_len distances.old }
    ensures waiting { (n : ℕ) → node < n → All (λ u. u < n) waiting.old.items → All (λ u. u < n) waiting.new.items }
{
    if distances[node as usize] <= distance {
        return Ok(());
    }
    distances[node as usize] = distance;
    waiting.push(node)?;
    Ok(())
}

/// Lowers the distances of the ends of the edges that leave a node.
fn relax(
    graph: &Graph,
    limit: Limit,
    node: u32,
    distances: &mut Vec<u64>,
    waiting: &mut Vec<u32>,
) -> Result<(), AllocError>
    requires node { node < graph.now.nodes }
    requires len { vec_len distances.old ≡ graph.now.nodes }
    requires waiting { All (λ u. u < graph.now.nodes) waiting.old.items }
    ensures len { vec_len distances.new ≡ graph.now.nodes }
    ensures waiting { All (λ u. u < graph.now.nodes) waiting.new.items }
{
    let start = distances[node as usize];
    for place in graph.leaving(node) {
        let edge = graph.edge(*place);
        let distance = start.saturating_add(cost_of(limit, edge));
        lower(distances, waiting, edge.to, distance)?;
    }
    Ok(())
}

/// How far each node is from one, or farther where nodes would have to be taken up too often.
fn distances_from(
    alloc: Global,
    graph: &Graph,
    limit: Limit,
    start: u32,
) -> Result<Vec<u64>, AllocError>
    requires { start < graph.now.nodes }
    ensures { IfOk result (λ distances. vec_len distances ≡ graph.now.nodes) }
{
    let count = graph.nodes() as usize;
    let mut distances = vec![in alloc; FAR; count]?;
    let mut waiting = Vec::new(alloc);
    lower(&mut distances, &mut waiting, start, 0)?;
    for turn in 0..ROUNDS * count {
        if turn >= waiting.len() {
            return Ok(distances);
        }
        relax(graph, limit, waiting[turn], &mut distances, &mut waiting)?;
    }
    Ok(distances)
}

/// The node that is farthest from the nearer one of two, of those to which edges lead.
fn farthest(one: &[u64], two: &[u64]) -> u32
    requires some { 0 < length one.now }
    requires few { length one.now < 2 ^ 32 }
    requires same { length two.now ≡ length one.now }
    ensures { result < length one.now }
{
    let mut node = 0;
    let mut most = 0;
    for at in 0..one.len() {
        let distance = one[at].min(two[at]);
        if distance == FAR || distance <= most {
            continue;
        }
        node = at as u32;
        most = distance;
    }
    node
}

/// About what lies between two nodes that are so far from a landmark.
fn difference(one: u64, two: u64) -> u64 {
    if one == FAR || two == FAR {
        return 0;
    }
    one.max(two) - one.min(two)
}

/// The three distances of each node side by side.
fn side_by_side(
    alloc: Global,
    first: &[u64],
    second: &[u64],
    third: &[u64],
) -> Result<Vec<Distances>, AllocError>
    requires second { length second.now ≡ length first.now }
    requires third { length third.now ≡ length first.now }
    ensures { IfOk result (λ by_node. vec_len by_node ≡ length first.now) }
{
    let mut by_node = Vec::new(alloc);
    for at in 0..first.len() {
        by_node.push(Distances {
            first: first[at],
            second: second[at],
            third: third[at],
        })?;
    }
    Ok(by_node)
}

impl Landmarks {
    /// None yet.
    pub(crate) fn none(alloc: Global) -> Self {
        Landmarks {
            by_node: Vec::new(alloc),
        }
    }

    /// Finds landmarks of a graph, unless they were found before: the first is the node farthest from a given one, each other the
    /// node farthest from those before.
    pub(crate) fn find(
        &mut self,
        alloc: Global,
        graph: &Graph,
        limit: Limit,
        from: u32,
    ) -> Result<(), AllocError>
        requires { from < graph.now.nodes }
        ensures { OnOk result (vec_len self.new.by_node ≡ graph.now.nodes) }
    {
        if self.by_node.len() == graph.nodes() as usize {
            return Ok(());
        }
        let near = distances_from(alloc, graph, limit, from)?;
        let first = distances_from(alloc, graph, limit, farthest(&near, &near))?;
        let second = distances_from(alloc, graph, limit, farthest(&first, &first))?;
        let third = distances_from(alloc, graph, limit, farthest(&first, &second))?;
        self.by_node = side_by_side(alloc, &first, &second, &third)?;
        Ok(())
    }

    /// About how far two nodes are apart.
    pub(crate) fn between(&self, node: u32, other: u32) -> u64
        requires node { node < vec_len self.now.by_node }
        requires other { other < vec_len self.now.by_node }
    {
        let one = self.by_node[node as usize];
        let two = self.by_node[other as usize];
        difference(one.first, two.first)
            .max(difference(one.second, two.second))
            .max(difference(one.third, two.third))
    }
}
