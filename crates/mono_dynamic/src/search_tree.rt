//! Walks from one source to targets, each within the target's bound, in a part that loses edges and gets the last of them
//! back.
//!
//! What is kept of a search are the ways to the targets alone, as a tree. It stays one wherever the part has its edges, and
//! a target that it lacks stays out of reach while the part has no edge that it hadn't when it was searched. So another
//! search is needed only where an edge of the tree goes, or where edges come back and a target is lacking (Even and Shiloach
//! 1981).
//!
//! Where walks cost something, the search finds what they cost at least (Dijkstra's method), and the tree is one of the edges
//! along which these costs rise by what the edge costs: so each walk of it costs the least.

ghost use Rattle.std.specs.Prelude.{◌≡◌, ◌∷◌, [], ◌<◌, ◌≤◌, ◌↔◌, List, Bool, None, All, IfOk, IfSome, IsTrue, OnErr, OnOk, length};
ghost use Rattle.mono_graph.specs.Digraph.{IsPartOf};
ghost use Rattle.mono_dynamic.specs.Arrivals.{IsTree};
ghost use Rattle.mono_dynamic.specs.Costs.{label_of};
ghost use Rattle.mono_dynamic.specs.LeastRows.{IsCostSource};
ghost use Rattle.mono_dynamic.specs.Rows.{alone};
ghost use Rattle.mono_dynamic.specs.SearchTrees.{RestsOn};
ghost use Rattle.mono_dynamic.specs.Ways.{cap_in, first_costs, first_ways, has_target, labels_in, limit_in, searched_part, ways_of, AreAsked, AreFrom, AreReachedWays, AreWaysTo, IsLight, IsSameSource, IsTargetOf};

use crate::cost_source::{CostSource, measure_of};
use crate::least_costs::LeastCosts;
use crate::reached_nodes::ReachedNodes;
use crate::tree_search::TreeSearch;
use crate::walk_target::WalkTarget;
use mono_base::limits::MAX_NODES;
use mono_graph::{Graph, Part};
use std::alloc::{AllocError, Global};
use std::marker::Model;

/// A tree of walks from one source. Contracts see what walks cost, the nodes of the tree, each with the edge that leads to
/// it, and what walks to them cost at least.
///
/// `new` and `search` take memory.
pub struct SearchTree {
    kept: ReachedNodes,
    /// The least costs, where walks cost something.
    costs: Option<LeastCosts>,
}

impl Drop for SearchTree {
    fn drop(self) {
        let SearchTree { kept: _, costs: _ } = self;
    }
}

impl Model for SearchTree {
    ghost use Rattle.mono_dynamic.specs.Ways.{Ways, ways_of, AreFrom};

    ghost Value = { Ways };

    ghost view = { λ t. ways_of t.kept t.costs };

    ghost invariant = { λ t. AreFrom t.kept.nodes t.kept.source t.costs };
}

/// The costs before any search.
fn costs_at_first(
    alloc: Global,
    nodes: u32,
    source: CostSource,
) -> Result<Option<LeastCosts>, AllocError>
    requires { IsCostSource nodes source }
    ensures { IfOk result (λ costs. costs ≡ first_costs nodes source) }
{
    if measure_of(source.limit) == 0 {
        return Ok(None);
    }
    let costs = LeastCosts::new(alloc, nodes, source.node, source.limit, source.cap)?;
    Ok(Some(costs))
}

/// What walks to a node cost at least.
fn label_in(costs: &Option<LeastCosts>, node: u32) -> u64
    requires { IfSome costs.now (λ c. node < length c.labels) }
    ensures { result ≡ label_of (labels_in costs.now) node }
{
    match costs {
        None => 0,
        Some(costs) => costs.label(node),
    }
}

/// The nodes of those targets to which walks within their bounds lead.
fn asked_nodes(
    alloc: Global,
    costs: &Option<LeastCosts>,
    targets: &[WalkTarget],
) -> Result<Vec<u32>, AllocError>
    requires { IfSome costs.now (λ c. All (λ t. t.node < length c.labels) targets.now) }
    ensures { IfOk result (λ nodes. AreAsked (labels_in costs.now) targets.now nodes.items) }
{
    let mut nodes = Vec::new(alloc);
    for target in targets {
        let label = label_in(costs, target.node);
        if !target.limit.admits(u128::from(label)) {
            continue;
        }
        nodes.push(target.node)?;
    }
    Ok(nodes)
}

/// The part of the lightest edges, where walks cost something, after a search for their costs.
fn lightest_part(
    alloc: Global,
    costs: &mut Option<LeastCosts>,
    graph: &Graph,
    part: &Part,
    source: u32,
) -> Result<Option<Part>, AllocError>
    requires from { AreFrom graph.now.nodes source costs.old }
    requires part { IsPartOf part.now graph.now }
    ensures from { AreFrom graph.now.nodes source costs.new }
    ensures limit { limit_in costs.new ≡ limit_in costs.old }
    ensures cap { cap_in costs.new ≡ cap_in costs.old }
    ensures size { IfOk result (λ light. IsPartOf (searched_part part.now light) graph.now) }
    ensures light { IfOk result (λ light. IsLight graph.now part.now (searched_part part.now light) source costs.new) }
{
    // The edges of a graph lead between its nodes.
    graph.known();
    match costs {
        None => Ok(None),
        Some(costs) => {
            costs.search(graph, part, source)?;
            let light = costs.lightest_part(alloc, graph, part, source)?;
            Ok(Some(light))
        }
    }
}

/// The part in which walks are then searched.
fn searched<'a>(light: &'a Option<Part>, part: &'a Part) -> &'a Part
    ensures { result.now ≡ searched_part part.now light.now }
{
    match light {
        None => part,
        Some(light) => light,
    }
}

/// Adds to a tree, which is the source alone, the ways to the targets within their bounds. Where walks cost something, they
/// are ways along the lightest edges.
fn search_ways(
    alloc: Global,
    kept: &mut ReachedNodes,
    costs: &mut Option<LeastCosts>,
    room: &mut TreeSearch,
    graph: &Graph,
    part: &Part,
    targets: &[WalkTarget],
) -> Result<(), AllocError>
    requires room { room.old ≡ graph.now.nodes }
    requires part { IsPartOf part.now graph.now }
    requires kept { kept.old ≡ alone graph.now.nodes kept.old.source }
    requires from { AreFrom graph.now.nodes kept.old.source costs.old }
    requires targets { All (IsTargetOf (ways_of kept.old costs.old)) targets.now }
    ensures room { room.new ≡ room.old }
    ensures nodes { kept.new.nodes ≡ kept.old.nodes }
    ensures source { kept.new.source ≡ kept.old.source }
    ensures from { AreFrom graph.now.nodes kept.old.source costs.new }
    ensures limit { limit_in costs.new ≡ limit_in costs.old }
    ensures cap { cap_in costs.new ≡ cap_in costs.old }
    ensures ways { OnOk result (AreWaysTo graph.now part.now targets.now (ways_of kept.new costs.new)) }
    ensures alone { OnErr result (kept.new ≡ kept.old) }
{
    let source = kept.source();
    let light = lightest_part(alloc, costs, graph, part, source)?;
    let nodes = asked_nodes(alloc, costs, targets)?;
    room.search(kept, graph, searched(&light, part), nodes.as_slice());
    Ok(())
}

/// Whether walks cost nothing, and the tree has more than its source.
fn can_be_mended(kept: &ReachedNodes, costs: &Option<LeastCosts>) -> bool
    ensures { IsTrue result → costs.now ≡ None }
{
    match costs {
        None => kept.count() > 1,
        Some(_) => false,
    }
}

/// Mends a tree of walks that cost nothing. Where memory is missing, it is the source alone.
fn mend_ways(
    alloc: Global,
    kept: &mut ReachedNodes,
    room: &mut TreeSearch,
    graph: &Graph,
    part: &Part,
    targets: &[WalkTarget],
) -> Result<(), AllocError>
    requires size { kept.old.nodes ≡ graph.now.nodes }
    requires room { room.old ≡ graph.now.nodes }
    requires part { IsPartOf part.now graph.now }
    requires targets { All (IsTargetOf (ways_of kept.old None)) targets.now }
    ensures room { room.new ≡ room.old }
    ensures nodes { kept.new.nodes ≡ kept.old.nodes }
    ensures source { kept.new.source ≡ kept.old.source }
    ensures ways { OnOk result (AreReachedWays graph.now part.now targets.now (ways_of kept.new None)) }
    ensures alone { OnErr result (kept.new ≡ alone kept.old.nodes kept.old.source) }
{
    match asked_nodes(alloc, &None, targets) {
        Ok(nodes) => {
            room.mend(kept, graph, part, nodes.as_slice());
            Ok(())
        }
        Err(error) => {
            let source = kept.source();
            kept.restart(source);
            Err(error)
        }
    }
}

impl SearchTree {
    /// The source alone. The graph has this many nodes, at most [`MAX_NODES`].
    pub fn new(alloc: Global, nodes: u32, source: CostSource) -> Result<Self, AllocError>
        requires few { nodes ≤ MAX_NODES }
        requires source { IsCostSource nodes source }
        ensures { IfOk result (λ t. t ≡ first_ways nodes source) }
    {
        let kept = ReachedNodes::new(alloc, nodes, source.node)?;
        let costs = costs_at_first(alloc, nodes, source)?;
        Ok(SearchTree { kept, costs })
    }

    /// Searches the part, and keeps the ways to those targets to which walks lead within their bounds. Where memory is
    /// missing, it keeps the source alone.
    ///
    /// It costs the nodes that it reaches and the edges that leave them, and the targets. Where walks cost nothing it is breadth
    /// first, and ends once all targets are found; where they cost something it reaches what costs less than the cap.
    pub fn search(
        &mut self,
        alloc: Global,
        room: &mut TreeSearch,
        graph: &Graph,
        part: &Part,
        targets: &[WalkTarget],
    ) -> Result<(), AllocError>
        requires size { self.old.tree.nodes ≡ graph.now.nodes }
        requires room { room.old ≡ graph.now.nodes }
        requires part { IsPartOf part.now graph.now }
        requires targets { All (IsTargetOf self.old) targets.now }
        ensures from { IsSameSource self.old self.new }
        ensures ways { OnOk result (AreWaysTo graph.now part.now targets.now self.new) }
        ensures alone { OnErr result (self.new.tree ≡ alone self.old.tree.nodes self.old.tree.source) }
        ensures room { room.new ≡ room.old }
    {
        let source = self.kept.source();
        self.kept.restart(source);
        let costs = &mut self.costs;
        search_ways(alloc, &mut self.kept, costs, room, graph, part, targets)?;
        Ok(())
    }

    /// As [`SearchTree::search`], but where walks cost nothing a tree that has more than its source is mended: it keeps what its
    /// edges that are present still lead to, and what isn't on the way to a target too.
    ///
    /// A mend costs a look at the tree, at the targets, and at what lies about those that were cut off.
    pub(crate) fn renew(
        &mut self,
        alloc: Global,
        room: &mut TreeSearch,
        graph: &Graph,
        part: &Part,
        targets: &[WalkTarget],
    ) -> Result<(), AllocError>
        requires size { self.old.tree.nodes ≡ graph.now.nodes }
        requires room { room.old ≡ graph.now.nodes }
        requires part { IsPartOf part.now graph.now }
        requires targets { All (IsTargetOf self.old) targets.now }
        ensures from { IsSameSource self.old self.new }
        ensures ways { OnOk result (AreReachedWays graph.now part.now targets.now self.new) }
        ensures alone { OnErr result (self.new.tree ≡ alone self.old.tree.nodes self.old.tree.source) }
        ensures room { room.new ≡ room.old }
    {
        if can_be_mended(&self.kept, &self.costs) {
            mend_ways(alloc, &mut self.kept, room, graph, part, targets)?;
            return Ok(());
        }
        self.search(alloc, room, graph, part, targets)?;
        Ok(())
    }

    /// Whether the tree has a walk to the target within its limit.
    pub fn has(&self, target: WalkTarget) -> bool
        requires { target.node < self.now.tree.nodes }
        ensures { result ≡ has_target self.now target }
    {
        let label = label_in(&self.costs, target.node);
        self.kept.has(target.node) && target.limit.admits(u128::from(label))
    }

    /// Whether a walk of the tree has the edge at a place. The tree is one of the graph, in whatever part of it.
    pub fn rests_on(&self, graph: &Graph, place: u32) -> bool
        requires size { self.now.tree.nodes ≡ graph.now.nodes }
        requires place { place < length graph.now.edges }
        ensures { (P : List Bool) → IsTree graph.now P self.now.tree.source self.now.tree.arrivals → IsTrue result ↔ RestsOn self.now.tree.arrivals place }
    {
        let edge = graph.edge(place);
        let Some(position) = self.kept.arrival_of(edge.to) else {
            return false;
        };
        position > 0 && self.kept.arrival(position as usize).place == place
    }
}
