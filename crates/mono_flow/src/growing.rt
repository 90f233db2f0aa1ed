//! A set of nodes that bounds flows grows by the edges that came.
//!
//! Where edges come on which the set rests, their ends join it, and all that present edges reach from there. An edge that may leave the
//! greater set is one that could leave the smaller one, or it is absent and the set rests on it. So the greater set bounds flows by the
//! same weight, unless the sink joins. No edge of a node that stood in the set before is looked at but those on which it rested.

ghost use Rattle.std.specs.Prelude.{◌≡◌, ◌<◌, ◌≤◌, ◌++◌, All, IfOk, IfSome, IsTrue, false, filter, flat_map, length};
ghost use Rattle.mono_graph.specs.Digraph.{IsPartOf, edge_at, has, leaving, present};
ghost use Rattle.mono_flow.specs.Growing.{AreRests, IsMarked, IsJoined, IsClosedFrom, IsGrownCut, IsGrownEvidence, IsReplaced, IsReplacedAt, IsSpread, is_open};

use mono_base::Row;
use mono_graph::{Graph, Part, mark, unmark};
use mono_steps::Witness;
use mono_theory::Evidence;
use std::alloc::{AllocError, Global};
use std::marker::Model;

/// A mark for each node of graphs with one number of nodes, which is what contracts see of it. No mark is set between two
/// calls, so a call costs what it marks.
#[derive(Drop)]
pub(crate) struct CutGrowth {
    marks: Vec<bool>,
}

impl Model for CutGrowth {
    ghost use Rattle.std.specs.Prelude.{ℕ, length};
    ghost use Rattle.mono_theory.specs.Resting.{AreClear};

    ghost Value = { ℕ };

    ghost view = { λ g. length g.marks.items };

    ghost invariant = { λ g. AreClear g.marks.items };
}

/// The end of the edge joins the set, if it isn't there.
fn join_end(
    graph: &Graph,
    place: u32,
    marks: &mut Vec<bool>,
    set: &mut Vec<u32>,
) -> Result<(), AllocError>
    requires place { place < length graph.now.edges }
    requires marked { IsMarked graph.now marks.old.items set.old.items }
    ensures joined { IsJoined graph.now marks.old.items set.old.items marks.new.items set.new.items }
    ensures has { IfOk result (λ _. IsTrue (has set.new.items (edge_at graph.now place).to)) }
{
    // The edges of a graph lead between its nodes.
    graph.known();
    let node = graph.edge(place).to;
    if marks[node as usize] {
        return Ok(());
    }
    set.push(node)?;
    marks[node as usize] = true;
    Ok(())
}

/// The ends of those of these edges join that are present.
fn join_ends(
    graph: &Graph,
    part: &Part,
    places: &[u32],
    marks: &mut Vec<bool>,
    set: &mut Vec<u32>,
) -> Result<(), AllocError>
    requires part { IsPartOf part.now graph.now }
    requires places { All (λ k. k < length graph.now.edges) places.now }
    requires marked { IsMarked graph.now marks.old.items set.old.items }
    ensures joined { IsJoined graph.now marks.old.items set.old.items marks.new.items set.new.items }
    ensures closed { IfOk result (λ _. All (λ k. IsTrue (present part.now k) → IsTrue (has set.new.items (edge_at graph.now k).to)) places.now) }
{
    for place in places {
        if part.has(*place) {
            join_end(graph, *place, marks, set)?;
        }
    }
    Ok(())
}

/// All nodes join that present edges reach from those behind the first `before` of the list, up to the sink. Whether it stays outside.
fn close(
    graph: &Graph,
    part: &Part,
    before: usize,
    sink: u32,
    marks: &mut Vec<bool>,
    set: &mut Vec<u32>,
) -> Result<bool, AllocError>
    requires part { IsPartOf part.now graph.now }
    requires sink { sink < graph.now.nodes }
    requires before { before ≤ length set.old.items }
    requires marked { IsMarked graph.now marks.old.items set.old.items }
    ensures joined { IsJoined graph.now marks.old.items set.old.items marks.new.items set.new.items }
    ensures closed { IfOk result (λ outside. IsTrue outside → IsClosedFrom graph.now part.now before (length set.new.items) set.new.items) }
    ensures outside { IfOk result (λ outside. IsTrue outside → has set.new.items sink ≡ false) }
{
    let mut head = before;
    while head < set.len() {
        if marks[sink as usize] {
            return Ok(false);
        }
        let node = set[head];
        join_ends(graph, part, graph.leaving(node), marks, set)?;
        head += 1;
    }
    Ok(!marks[sink as usize])
}

/// Whether the edge is absent and leads to a node that isn't marked.
fn is_still_open(graph: &Graph, part: &Part, marks: &[bool], place: u32) -> bool
    requires part { IsPartOf part.now graph.now }
    requires place { place < length graph.now.edges }
    requires len { length marks.now ≡ graph.now.nodes }
    ensures { result ≡ is_open graph.now part.now marks.now place }
{
    // The edges of a graph lead between its nodes.
    graph.known();
    !part.has(place) && !marks[graph.edge(place).to as usize]
}

/// Adds those of these edges that are absent and lead to a node that isn't marked.
fn push_open(
    graph: &Graph,
    part: &Part,
    marks: &[bool],
    places: &[u32],
    edges: &mut Vec<u32>,
) -> Result<(), AllocError>
    requires part { IsPartOf part.now graph.now }
    requires places { All (λ k. k < length graph.now.edges) places.now }
    requires len { length marks.now ≡ graph.now.nodes }
    ensures { IfOk result (λ _. edges.new.items ≡ edges.old.items ++ filter (is_open graph.now part.now marks.now) places.now) }
{
    for place in places {
        if is_still_open(graph, part, marks, *place) {
            edges.push(*place)?;
        }
    }
    Ok(())
}

/// Adds the absent edges that lead from these nodes to one that isn't marked.
fn push_leaving(
    graph: &Graph,
    part: &Part,
    marks: &[bool],
    nodes: &[u32],
    edges: &mut Vec<u32>,
) -> Result<(), AllocError>
    requires part { IsPartOf part.now graph.now }
    requires nodes { All (λ u. u < graph.now.nodes) nodes.now }
    requires len { length marks.now ≡ graph.now.nodes }
    ensures { IfOk result (λ _. edges.new.items
        ≡ edges.old.items ++ flat_map (λ u. filter (is_open graph.now part.now marks.now) (leaving graph.now u)) nodes.now) }
{
    for node in nodes {
        push_open(graph, part, marks, graph.leaving(*node), edges)?;
    }
    Ok(())
}

/// The edge at the place leaves the list: a fresh one takes its place, or else the last. The answer is the next place to look at.
fn replace_at(rest: &mut Vec<u32>, fresh: &mut Vec<u32>, place: usize) -> usize
    requires { place < length rest.old.items }
    ensures { IsReplacedAt rest.old.items fresh.old.items place rest.new.items fresh.new.items result }
{
    if let Some(edge) = fresh.pop() {
        rest[place] = edge;
        return place + 1;
    }
    let _ = rest.swap_remove(place);
    place
}

/// Takes the edges out of the list that aren't open any more, each replaced by a fresh one, as long as there are such, or else by the
/// last. So most of the others stay at their places, where what watches them stays too.
fn replace_closed(
    graph: &Graph,
    part: &Part,
    marks: &[bool],
    rest: &mut Vec<u32>,
    fresh: &mut Vec<u32>,
)
    requires part { IsPartOf part.now graph.now }
    requires rest { All (λ k. k < length graph.now.edges) rest.old.items }
    requires fresh { All (λ k. (k < length graph.now.edges) × IsTrue (is_open graph.now part.now marks.now k)) fresh.old.items }
    requires len { length marks.now ≡ graph.now.nodes }
    ensures { IsReplaced graph.now part.now marks.now rest.old.items fresh.old.items rest.new.items fresh.new.items }
{
    let mut place = 0;
    while place < rest.len() {
        if is_still_open(graph, part, marks, rest[place]) {
            place += 1;
            continue;
        }
        place = replace_at(rest, fresh, place);
    }
}

/// The edges on which the grown set rests: those on which the smaller one rested and those of the nodes that joined, as far as they are
/// absent and lead out of it.
fn resting(
    alloc: Global,
    graph: &Graph,
    part: &Part,
    marks: &[bool],
    edges: &[u32],
    nodes: &[u32],
) -> Result<Vec<u32>, AllocError>
    requires part { IsPartOf part.now graph.now }
    requires edges { All (λ k. k < length graph.now.edges) edges.now }
    requires nodes { All (λ u. u < graph.now.nodes) nodes.now }
    requires len { length marks.now ≡ graph.now.nodes }
    ensures { IfOk result (λ found. AreRests graph.now part.now marks.now edges.now nodes.now found.items) }
{
    let mut rest = Vec::from_slice(alloc, edges)?;
    let mut fresh = Vec::new(alloc);
    push_leaving(graph, part, marks, nodes, &mut fresh)?;
    replace_closed(graph, part, marks, &mut rest, &mut fresh);
    rest.extend_from_slice(fresh.as_slice())?;
    Ok(rest)
}

/// The ends of those of the edges join that are present, and all nodes that present edges reach from there, up to the sink. Whether it
/// stays outside.
fn spread(
    graph: &Graph,
    part: &Part,
    sink: u32,
    edges: &[u32],
    marks: &mut Vec<bool>,
    set: &mut Vec<u32>,
) -> Result<bool, AllocError>
    requires part { IsPartOf part.now graph.now }
    requires sink { sink < graph.now.nodes }
    requires edges { All (λ k. k < length graph.now.edges) edges.now }
    requires marked { IsMarked graph.now marks.old.items set.old.items }
    ensures joined { IsJoined graph.now marks.old.items set.old.items marks.new.items set.new.items }
    ensures spread { IfOk result (λ outside. IsTrue outside → IsSpread graph.now part.now sink edges.now (length set.old.items) set.new.items) }
{
    let before = set.len();
    join_ends(graph, part, edges, marks, set)?;
    let outside = close(graph, part, before, sink, marks, set)?;
    Ok(outside)
}

/// The set grows, and answers the edges on which it rests from then on: `None` where the sink joined.
fn grow_marked(
    alloc: Global,
    graph: &Graph,
    part: &Part,
    sink: u32,
    edges: &[u32],
    marks: &mut Vec<bool>,
    set: &mut Vec<u32>,
) -> Result<Option<Vec<u32>>, AllocError>
    requires part { IsPartOf part.now graph.now }
    requires sink { sink < graph.now.nodes }
    requires edges { All (λ k. k < length graph.now.edges) edges.now }
    requires marked { IsMarked graph.now marks.old.items set.old.items }
    ensures joined { IsJoined graph.now marks.old.items set.old.items marks.new.items set.new.items }
    ensures grown { IfOk result (λ found. IfSome found (λ open_edges.
        IsGrownCut graph.now part.now sink set.old.items edges.now set.new.items open_edges.items)) }
{
    let before = set.len();
    if !spread(graph, part, sink, edges, marks, set)? {
        return Ok(None);
    }
    let joined = &set[before..set.len()];
    let rest = resting(alloc, graph, part, marks.as_slice(), edges, joined)?;
    Ok(Some(rest))
}

impl CutGrowth {
    /// Marks for graphs with this many nodes.
    pub(crate) fn new(alloc: Global, nodes: u32) -> Result<Self, AllocError>
        ensures { IfOk result (λ growth. growth ≡ nodes) }
    {
        Ok(CutGrowth {
            marks: vec![in alloc; false; nodes as usize]?,
        })
    }

    /// The evidence that a set of nodes is with those that edges reach that came: `None` where they reach the sink.
    pub(crate) fn grow(
        &mut self,
        alloc: Global,
        graph: &Graph,
        part: &Part,
        sink: u32,
        nodes: &[u32],
        edges: &[u32],
    ) -> Result<Option<Evidence>, AllocError>
        requires size { self.old ≡ graph.now.nodes }
        requires part { IsPartOf part.now graph.now }
        requires sink { sink < graph.now.nodes }
        requires nodes { All (λ u. u < graph.now.nodes) nodes.now }
        requires edges { All (λ k. k < length graph.now.edges) edges.now }
        ensures size { self.new ≡ self.old }
        ensures grown { IfOk result (λ found. IfSome found (IsGrownEvidence graph.now part.now sink nodes.now edges.now)) }
    {
        let mut set = Vec::from_slice(alloc, nodes)?;
        mark(&mut self.marks, nodes);
        let found = grow_marked(alloc, graph, part, sink, edges, &mut self.marks, &mut set);
        unmark(&mut self.marks, set.as_slice());
        match found? {
            None => Ok(None),
            Some(rest) => Ok(Some(Evidence {
                witness: Witness::FlowCut(Row::from_vec(set)),
                edges: Row::from_vec(rest),
            })),
        }
    }
}
