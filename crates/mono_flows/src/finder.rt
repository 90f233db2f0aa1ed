//! The search for a flow, with room that is kept.
//!
//! As long as less is carried than is asked for, a breadth-first search looks for an augmenting path. Where it finds
//! one, more is carried along it and along all others that rise by one level at each step (Dinic, 1970). Where there is
//! none, the visited nodes are a cut: each present edge that leaves them is full, and each edge that enters them
//! carries nothing, so what leaves them weighs exactly as much as is carried (Ford and Fulkerson, 1956). A search may
//! begin with what an earlier one found.

ghost use Rattle.std.specs.Prelude.{◌≡◌, ◌≢◌, ◌<◌, ◌≤◌, ◌+◌, ◌≤ℤ◌, ℕ, pos, All, IfOk, MatchOption, OnErr, OnOk, length};
ghost use Rattle.mono_graph.specs.Flows.{amount_at};
ghost use Rattle.mono_graph.specs.Digraph.{IsPartOf};
ghost use Rattle.mono_flows.specs.Residual.{amount_of};
ghost use Rattle.mono_flows.specs.Visits.{IsFlowSearch};
ghost use Rattle.mono_flows.specs.Flowing.{IsFlow, IsFlowing, IsFlowTowards, IsListing, HasEnded};
ghost use Rattle.mono_flows.specs.Levels.{AreLevels};
ghost use Rattle.mono_flows.specs.Rooms.{HasRoomFor, IsClearRoom};
ghost use Rattle.mono_flows.specs.Sums.{AreZero};
ghost use Rattle.mono_flows.specs.Answers.{Passes, IsAnswer, IsKnown, IsSmall, IsCarrying, IsDistinct, IsExact, HasValue, IsFlowOfValue};

use crate::blocking_flow::add_blocking_flow;
use crate::edge_room::EdgeRoom;
use crate::flow::Flow;
use crate::kept_flow::kept_flow;
use crate::level_graph::LevelGraph;
use crate::listing::{drain, visited_nodes};
use crate::mend::mend;
use crate::network::Network;
use crate::node_sums::NodeSums;
use crate::search::AugmentingSearch;
use crate::visit::Visit;
use crate::{FlowOrCut, Found};
use mono_base::limits::MAX_BOUND;
use mono_graph::{Amount, Graph, Part};
use std::alloc::{AllocError, Global};
use std::marker::Model;
use std::mem;

/// Finds flows in graphs with one number of nodes, which is what contracts see of it.
///
/// It keeps the room of a search by node and by edge from one call to the next, and clears only what a call touched.
pub struct FlowFinder {
    search: AugmentingSearch,
    levels: LevelGraph,
    path: Vec<Visit>,
    sums: NodeSums,
    room: EdgeRoom,
    /// Room for what edges carry while a kept flow is mended.
    mending: Vec<u64>,
}

impl Drop for FlowFinder {
    fn drop(self) {
        let FlowFinder {
            search: _,
            levels: _,
            path: _,
            sums: _,
            room: _,
            mending: _,
        } = self;
    }
}

impl Model for FlowFinder {
    ghost use Rattle.std.specs.Prelude.{ℕ};
    ghost use Rattle.mono_flows.specs.Finder.{node_count, IsReady};

    ghost Value = { ℕ };

    ghost view = { node_count };

    ghost invariant = { IsReady };
}

impl FlowFinder {
    /// A finder for graphs of this many nodes.
    pub fn new(alloc: Global, nodes: u32) -> Result<Self, AllocError>
        ensures { IfOk result (λ finder. finder ≡ nodes) }
    {
        Ok(FlowFinder {
            search: AugmentingSearch::new(alloc, nodes)?,
            levels: LevelGraph::new(alloc, nodes)?,
            path: Vec::new(alloc),
            sums: NodeSums::new(alloc, nodes)?,
            room: EdgeRoom::new(alloc),
            mending: Vec::new(alloc),
        })
    }

    /// A flow in the part from the source to the sink with a value of at least `least`, or a cut that shows that there
    /// is none. `least` is from 0 to 2^53 + 1.
    ///
    /// The flow has exactly the value `least`, each edge that it lists carries something, and the cut lists each node once. Their
    /// order isn't promised.
    pub fn find_flow(
        &mut self,
        alloc: Global,
        graph: &Graph,
        part: &Part,
        source: u32,
        sink: u32,
        least: i64,
    ) -> Result<FlowOrCut, AllocError>
        requires finder { self.old ≡ graph.now.nodes }
        requires part { IsPartOf part.now graph.now }
        requires source { source < graph.now.nodes }
        requires sink { sink < graph.now.nodes }
        requires apart { source ≢ sink }
        requires low { pos 0 ≤ℤ least }
        requires high { least ≤ℤ pos (MAX_BOUND + 1) }
        ensures passes { IfOk result (Passes graph.now part.now source sink least) }
        ensures known { IfOk result (IsKnown graph.now) }
        ensures small { IfOk result IsSmall }
        ensures carrying { IfOk result IsCarrying }
        ensures distinct { IfOk result IsDistinct }
        ensures exact { IfOk result (IsExact graph.now source least) }
        ensures finder { self.new ≡ self.old }
    {
        let mut kept = Vec::new(alloc);
        let found = self.find_flow_from(alloc, graph, part, source, sink, least, &mut kept)?;
        Ok(found.answer)
    }

    /// What `find_flow` answers, and the value that it came to.
    ///
    /// The search begins with the amounts `kept`, of which what edges carry that aren't present goes other ways or is taken
    /// back, where that is a flow with a value of at most `least`, else with nothing; and it leaves there the flow that it
    /// came to. So where an earlier flow in much the same part is given, it costs what that flow and the ways round its lost
    /// edges do. Where memory runs out, `kept` stays as it was.
    pub fn find_flow_from(
        &mut self,
        alloc: Global,
        graph: &Graph,
        part: &Part,
        source: u32,
        sink: u32,
        least: i64,
        kept: &mut Vec<Amount>,
    ) -> Result<Found, AllocError>
        requires finder { self.old ≡ graph.now.nodes }
        requires part { IsPartOf part.now graph.now }
        requires source { source < graph.now.nodes }
        requires sink { sink < graph.now.nodes }
        requires apart { source ≢ sink }
        requires low { pos 0 ≤ℤ least }
        requires high { least ≤ℤ pos (MAX_BOUND + 1) }
        requires kept { All (λ a. a.edge < length graph.now.edges) kept.old.items }
        ensures passes { IfOk result (λ found. Passes graph.now part.now source sink least found.answer) }
        ensures known { IfOk result (λ found. IsKnown graph.now found.answer) }
        ensures small { IfOk result (λ found. IsSmall found.answer) }
        ensures carrying { IfOk result (λ found. IsCarrying found.answer) }
        ensures distinct { IfOk result (λ found. IsDistinct found.answer) }
        ensures exact { IfOk result (λ found. IsExact graph.now source least found.answer) }
        ensures value { IfOk result (λ found. HasValue graph.now part.now source found.value found.answer) }
        ensures flow { IfOk result (λ found. IsFlowOfValue graph.now part.now source sink found.value kept.new.items) }
        ensures kept { All (λ a. a.edge < length graph.now.edges) kept.new.items }
        ensures unchanged { OnErr result (kept.new.items ≡ kept.old.items) }
        ensures finder { self.new ≡ self.old }
    {
        let network = Network {
            graph,
            part,
            source,
            sink,
        };
        let goal = unsigned(least);
        self.room.fit(alloc, graph)?;
        let mut flow = begin(
            alloc,
            &network,
            &mut self.search,
            &mut self.sums,
            &mut self.room,
            &mut self.mending,
            kept.as_slice(),
            goal,
        )?;
        grow(
            &network,
            &mut flow,
            &mut self.search,
            &mut self.levels,
            &mut self.path,
            goal,
        )?;
        let found = outcome(alloc, &network, &mut flow, &self.search, goal, kept)?;
        self.room.amounts = mem::replace(&mut flow.amounts, Vec::new(alloc));
        Ok(found)
    }
}

/// The flow with which a search begins: what is left of the kept amounts, if it is a flow, or nothing.
fn begin(
    alloc: Global,
    network: &Network,
    search: &mut AugmentingSearch,
    sums: &mut NodeSums,
    room: &mut EdgeRoom,
    mending: &mut Vec<u64>,
    kept: &[Amount],
    goal: u64,
) -> Result<Flow, AllocError>
    requires kept { All (λ a. a.edge < length network.now.graph.now.edges) kept.now }
    requires search { IsFlowSearch network.now.graph.now.nodes search.old }
    requires sums { AreZero network.now.graph.now.nodes sums.old }
    requires clear { IsClearRoom room.old }
    requires fits { HasRoomFor (length network.now.graph.now.edges) room.old }
    ensures flow { IfOk result (IsFlow network.now) }
    ensures most { IfOk result (λ flow. flow.value ≤ goal) }
    ensures search { IsFlowSearch network.now.graph.now.nodes search.new }
    ensures sums { AreZero network.now.graph.now.nodes sums.new }
    ensures clear { IsClearRoom room.new }
{
    if kept.is_empty() {
        return Ok(Flow::none(alloc, network, room));
    }
    let left = mend(alloc, network, search, mending, kept)?;
    match kept_flow(alloc, network, room, sums, left.as_slice(), goal)? {
        Some(flow) => Ok(flow),
        None => Ok(Flow::none(alloc, network, room)),
    }
}

/// Makes the flow greater until it carries as much as is asked for, or no augmenting path is left: then the visited nodes
/// are those that can still be reached.
fn grow(
    network: &Network,
    flow: &mut Flow,
    search: &mut AugmentingSearch,
    levels: &mut LevelGraph,
    path: &mut Vec<Visit>,
    goal: u64,
) -> Result<(), AllocError>
    requires flow { IsFlowTowards network.now goal flow.old }
    requires search { IsFlowSearch network.now.graph.now.nodes search.old }
    requires levels { AreLevels network.now.graph.now.nodes levels.old }
    ensures ended { OnOk result (HasEnded network.now goal flow.new search.new) }
    ensures search { IsFlowSearch network.now.graph.now.nodes search.new }
    ensures levels { AreLevels network.now.graph.now.nodes levels.new }
{
    while flow.value < goal {
        levels.clear(&search.visits);
        if !search.find_path(network, &flow.amounts, goal - flow.value)? {
            return Ok(());
        }
        flow.augment(network, &search.visits, goal)?;
        levels.set_levels(&search.visits, network.source);
        add_blocking_flow(network, flow, levels, path, goal)?;
    }
    Ok(())
}

/// The cut that the visited nodes are, where less is carried than is asked for.
fn cut_of(
    alloc: Global,
    network: &Network,
    flow: &Flow,
    search: &AugmentingSearch,
    goal: u64,
) -> Result<Option<Vec<u32>>, AllocError>
    requires ended { HasEnded network.now goal flow.now search.now }
    ensures cut { IfOk result (λ found. MatchOption found (flow.now.value ≡ goal) (λ nodes. IsAnswer network.now goal flow.now.value (FlowOrCut.Cut nodes))) }
{
    if flow.value == goal {
        return Ok(None);
    }
    // The edges of a graph lead between its nodes.
    network.graph.known();
    let nodes = visited_nodes(alloc, &search.visits)?;
    Ok(Some(nodes))
}

/// The cut, or where there is none, the flow of these amounts, which carries as much as is asked for.
fn answer_of(
    alloc: Global,
    network: &Network,
    cut: Option<Vec<u32>>,
    carried: &[Amount],
    value: u64,
    goal: u64,
) -> Result<FlowOrCut, AllocError>
    requires cut { MatchOption cut (value ≡ goal) (λ nodes. IsAnswer network.now goal value (FlowOrCut.Cut nodes)) }
    requires flow { IsFlowing network.now.graph.now network.now.part.now network.now.source network.now.sink (amount_at carried.now) value }
    requires listed { IsListing network.now carried.now }
    ensures { IfOk result (IsAnswer network.now goal value) }
{
    let _ = network;
    let _ = value;
    let _ = goal;
    match cut {
        Some(nodes) => Ok(FlowOrCut::Cut(nodes)),
        None => Ok(FlowOrCut::Flow(Vec::from_slice(alloc, carried)?)),
    }
}

/// What a search came to. The amounts of the flow are kept, unless memory runs out, and it carries nothing from then on.
fn outcome(
    alloc: Global,
    network: &Network,
    flow: &mut Flow,
    search: &AugmentingSearch,
    goal: u64,
    kept: &mut Vec<Amount>,
) -> Result<Found, AllocError>
    requires ended { HasEnded network.now goal flow.old search.now }
    requires kept { All (λ a. a.edge < length network.now.graph.now.edges) kept.old.items }
    ensures answer { IfOk result (λ found. IsAnswer network.now goal found.value found.answer) }
    ensures flow { IfOk result (λ found.
        IsFlowOfValue network.now.graph.now network.now.part.now network.now.source network.now.sink found.value kept.new.items) }
    ensures kept { All (λ a. a.edge < length network.now.graph.now.edges) kept.new.items }
    ensures unchanged { OnErr result (kept.new.items ≡ kept.old.items) }
    ensures clear { OnOk result ((k : ℕ) → amount_of flow.new.amounts.items k ≡ 0) }
{
    let cut = cut_of(alloc, network, flow, search, goal)?;
    let carried = drain(alloc, &mut flow.amounts, &flow.touched)?;
    let answer = answer_of(alloc, network, cut, carried.as_slice(), flow.value, goal)?;
    *kept = carried;
    Ok(Found {
        answer,
        value: flow.value,
    })
}

/// A number that isn't negative, as an unsigned one.
fn unsigned(least: i64) -> u64
    requires { pos 0 ≤ℤ least }
    ensures { least ≡ pos result }
{
    least as u64
}

/// A flow of a value of at least `least`, or a cut: `FlowFinder::find_flow` with room of its own.
pub fn find_flow(
    alloc: Global,
    graph: &Graph,
    part: &Part,
    source: u32,
    sink: u32,
    least: i64,
) -> Result<FlowOrCut, AllocError>
    requires part { IsPartOf part.now graph.now }
    requires source { source < graph.now.nodes }
    requires sink { sink < graph.now.nodes }
    requires apart { source ≢ sink }
    requires low { pos 0 ≤ℤ least }
    requires high { least ≤ℤ pos (MAX_BOUND + 1) }
    ensures passes { IfOk result (Passes graph.now part.now source sink least) }
    ensures known { IfOk result (IsKnown graph.now) }
    ensures small { IfOk result IsSmall }
    ensures carrying { IfOk result IsCarrying }
    ensures distinct { IfOk result IsDistinct }
    ensures exact { IfOk result (IsExact graph.now source least) }
{
    FlowFinder::new(alloc, graph.nodes())?.find_flow(alloc, graph, part, source, sink, least)
}
