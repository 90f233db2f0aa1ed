//! Predicates on flows: a flow shows that one holds, a set of nodes that it fails.
//!
//! Both come from one search. A flow rests on the edges that carry something. A set rests on absent edges that leave it,
//! since the present ones weigh too little. It needn't rest on those that could be present as well: as long as all others
//! together weigh less than is asked for, they may come.

ghost use Rattle.std.specs.Prelude.{◌≡◌, ◌<◌, ◌+◌, All, IfOk, IfSome, IsTrue, int_lt, length, pos};
ghost use Rattle.mono_flows.specs.Answers.{HasValue, IsDistinct, IsKnown, IsSmall, Passes};
ghost use Rattle.mono_graph.specs.Digraph.{IsPartOf, is_distinct};
ghost use Rattle.mono_problem.specs.WellFormed.{IsOver};
ghost use Rattle.mono_steps.specs.Witnesses.{names_known};
ghost use Rattle.mono_theory.specs.Evidences.{IsEvidence};
ghost use Rattle.mono_theory.specs.Resting.{absent_out};
ghost use Rattle.mono_flow.specs.Growing.{IsGrownOf};
ghost use Rattle.mono_flow.specs.Flowing.{numbered as numbered_by, carrying as carrying_of, flow_evidence as flow_evidence_of, AreNeeded, EachIsNeeded, IsCutEvidence};

use crate::growing::CutGrowth;
use crate::kept_flows::KeptFlows;
use crate::node_paths::NodePaths;
use mono_base::Row;
use mono_flows::{FlowFinder, FlowOrCut, Found};
use mono_graph::{Amount, Graph, Part};
use mono_problem::Predicate;
use mono_steps::Witness;
use mono_theory::{Evidence, GraphTheory, Kind, NodeMarks};
use std::alloc::{AllocError, Global};
use std::marker::Model;

/// Predicates on flows, with room to search graphs with one number of nodes, and flows with which searches begin.
pub struct Flow {
    finder: FlowFinder,
    marks: NodeMarks,
    growth: CutGrowth,
    paths: NodePaths,
    kept: KeptFlows,
}

impl Drop for Flow {
    fn drop(self) {
        let Flow {
            finder: _,
            marks: _,
            growth: _,
            paths: _,
            kept: _,
        } = self;
    }
}

impl Model for Flow {
    ghost use Rattle.std.specs.Prelude.{ℕ, ◌≡◌};

    ghost Value = { ℕ };

    ghost view = { λ f. f.finder };

    ghost invariant = { λ f. (f.marks ≡ f.finder) × (f.growth ≡ f.finder) };
}

/// The amounts with edges named by their numbers.
fn numbered(alloc: Global, graph: &Graph, amounts: &[Amount]) -> Result<Vec<Amount>, AllocError>
    requires { All (λ a. a.edge < length graph.now.edges) amounts.now }
    ensures { IfOk result (λ named. named.items ≡ numbered_by graph.now amounts.now) }
{
    let mut named = Vec::new(alloc);
    for amount in amounts {
        let edge = graph.edge(amount.edge);
        named.push(Amount {
            edge: edge.number,
            amount: amount.amount,
        })?;
    }
    Ok(named)
}

/// The edges that carry something.
fn carrying(alloc: Global, amounts: &[Amount]) -> Result<Vec<u32>, AllocError>
    ensures { IfOk result (λ edges. edges.items ≡ carrying_of amounts.now) }
{
    let mut edges = Vec::new(alloc);
    for amount in amounts {
        if amount.amount > 0 {
            edges.push(amount.edge)?;
        }
    }
    Ok(edges)
}

/// The evidence that a flow is. It rests on each edge that carries something.
fn flow_evidence(alloc: Global, graph: &Graph, amounts: &[Amount]) -> Result<Evidence, AllocError>
    requires { All (λ a. a.edge < length graph.now.edges) amounts.now }
    ensures { IfOk result (λ e. e ≡ flow_evidence_of graph.now amounts.now) }
{
    let named = numbered(alloc, graph, amounts)?;
    let edges = carrying(alloc, amounts)?;
    Ok(Evidence {
        witness: Witness::Flow(Row::from_vec(named)),
        edges: Row::from_vec(edges),
    })
}

/// Those of the edges that have to stay absent, where the others may weigh `slack` in sum. None of them could come as
/// well. No edge is listed twice.
fn needed(alloc: Global, graph: &Graph, absent: &[u32], slack: u64) -> Result<Vec<u32>, AllocError>
    requires known { All (λ k. k < length graph.now.edges) absent.now }
    requires distinct { IsTrue (is_distinct absent.now) }
    ensures others { IfOk result (λ named. AreNeeded graph.now slack absent.now named.items) }
    ensures each { IfOk result (λ named. EachIsNeeded graph.now slack absent.now named.items) }
{
    let mut left = slack;
    let mut named = Vec::new(alloc);
    for place in absent {
        let edge = graph.edge(*place);
        if edge.weight <= left {
            left -= edge.weight;
            continue;
        }
        named.push(*place)?;
    }
    Ok(named)
}

/// The evidence that a set of nodes is, where absent edges that weigh `slack` in sum may come. It rests on the other
/// absent edges that leave it, none of which could come as well. No node is listed twice.
fn cut_evidence(
    alloc: Global,
    marks: &mut NodeMarks,
    graph: &Graph,
    part: &Part,
    nodes: Vec<u32>,
    slack: u64,
) -> Result<Evidence, AllocError>
    requires size { marks.old ≡ graph.now.nodes }
    requires part { IsPartOf part.now graph.now }
    requires nodes { All (λ u. u < graph.now.nodes) nodes.items }
    requires distinct { IsTrue (is_distinct nodes.items) }
    ensures size { marks.new ≡ marks.old }
    ensures evidence { IfOk result (IsCutEvidence graph.now part.now slack nodes.items) }
    ensures each { IfOk result (λ e. EachIsNeeded graph.now slack (absent_out graph.now part.now nodes.items) e.edges) }
{
    let absent = marks.absent_leaving(alloc, graph, part, nodes.as_slice())?;
    let edges = needed(alloc, graph, absent.as_slice(), slack)?;
    Ok(Evidence {
        witness: Witness::FlowCut(Row::from_vec(nodes)),
        edges: Row::from_vec(edges),
    })
}

/// How much more than `weight` is still less than `least`.
fn slack_of(least: i64, weight: u64) -> u64
    requires { IsTrue (int_lt (pos weight) least) }
    ensures { least ≡ pos (weight + result + 1) }
{
    least as u64 - weight - 1
}

impl Flow {
    /// A flow of at least so much, or a cut, found from the flow that is kept of these nodes. The flow that the search came
    /// to is kept.
    fn search(
        &mut self,
        alloc: Global,
        graph: &Graph,
        part: &Part,
        source: u32,
        sink: u32,
        least: i64,
    ) -> Result<Found, AllocError>
        requires size { self.old ≡ graph.now.nodes }
        requires part { IsPartOf part.now graph.now }
        requires over { IsOver graph.now (Predicate.Flow source sink least) }
        ensures size { self.new ≡ self.old }
        ensures passes { IfOk result (λ found. Passes graph.now part.now source sink least found.answer) }
        ensures known { IfOk result (λ found. IsKnown graph.now found.answer) }
        ensures small { IfOk result (λ found. IsSmall found.answer) }
        ensures distinct { IfOk result (λ found. IsDistinct found.answer) }
        ensures value { IfOk result (λ found. HasValue graph.now part.now source found.value found.answer) }
    {
        let mut flow = self.kept.choose(alloc, graph, part, source, sink)?;
        if self.paths.are_apt(graph) && self.kept.may_be_whole(graph, part, source, sink) {
            let once = self
                .paths
                .find(alloc, graph, part, source, sink, least, flow.as_slice())?;
            if let Some(paths) = once {
                flow = paths;
            }
        }
        let found = self
            .finder
            .find_flow_from(alloc, graph, part, source, sink, least, &mut flow)?;
        let is_whole = matches!(&found.answer, FlowOrCut::Flow(_));
        self.kept.put(alloc, source, sink, flow, is_whole)?;
        Ok(found)
    }

    /// What shows that a flow of at least so much leads from the source to the sink, or that none does.
    fn show(
        &mut self,
        alloc: Global,
        graph: &Graph,
        part: &Part,
        source: u32,
        sink: u32,
        least: i64,
    ) -> Result<Evidence, AllocError>
        requires size { self.old ≡ graph.now.nodes }
        requires part { IsPartOf part.now graph.now }
        requires over { IsOver graph.now (Predicate.Flow source sink least) }
        ensures size { self.new ≡ self.old }
        ensures evidence { IfOk result (IsEvidence graph.now part.now (Predicate.Flow source sink least)) }
    {
        graph.known();
        let found = self.search(alloc, graph, part, source, sink, least)?;
        let Found { answer, value } = found;
        match answer {
            FlowOrCut::Flow(amounts) => flow_evidence(alloc, graph, amounts.as_slice()),
            FlowOrCut::Cut(nodes) => {
                let slack = slack_of(least, value);
                cut_evidence(alloc, &mut self.marks, graph, part, nodes, slack)
            }
        }
    }
}

impl Flow {
    /// The evidence that a kept cut is once its edges that came lead on. `None` for evidence that is no cut, and where the sink joins.
    fn grown(
        &mut self,
        alloc: Global,
        graph: &Graph,
        part: &Part,
        sink: u32,
        known: &Evidence,
    ) -> Result<Option<Evidence>, AllocError>
        requires size { self.old ≡ graph.now.nodes }
        requires part { IsPartOf part.now graph.now }
        requires sink { sink < graph.now.nodes }
        requires named { IsTrue (names_known graph.now known.now.witness) }
        requires held { All (λ k. k < length graph.now.edges) known.now.edges }
        ensures size { self.new ≡ self.old }
        ensures grown { IfOk result (λ found. IfSome found (IsGrownOf graph.now part.now sink known.now)) }
    {
        match &known.witness {
            Witness::FlowCut(nodes) => {
                let edges = known.edges.as_slice();
                self.growth
                    .grow(alloc, graph, part, sink, nodes.as_slice(), edges)
            }
            _ => Ok(None),
        }
    }
}

impl Kind for Flow {
    ghost use Rattle.std.specs.Prelude.{true};
    ghost use Rattle.mono_flow.specs.Flowing.{is_flow_predicate};

    ghost covers = { is_flow_predicate };

    ghost nodes = { λ f. f };

    const IS_THOROUGH: bool = true;

    ghost IS_THOROUGH = { true };

    const MOST_FOLLOWED: u32 = u32::MAX;

    const LEAST_FOLLOWED: u32 = 0;

    fn with_nodes(alloc: Global, count: u32) -> Result<Self, AllocError> {
        let finder = FlowFinder::new(alloc, count)?;
        let marks = NodeMarks::new(alloc, count)?;
        let growth = CutGrowth::new(alloc, count)?;
        let paths = NodePaths::new(alloc, count)?;
        let kept = KeptFlows::new(alloc);
        Ok(Flow {
            finder,
            marks,
            growth,
            paths,
            kept,
        })
    }

    fn evidence(
        &mut self,
        alloc: Global,
        graph: &Graph,
        part: &Part,
        predicate: Predicate,
    ) -> Result<Evidence, AllocError> {
        match predicate {
            Predicate::Flow {
                source,
                sink,
                least,
            } => self.show(alloc, graph, part, source, sink, least),
            _ => unreachable!(),
        }
    }

    fn mend(
        &mut self,
        alloc: Global,
        graph: &Graph,
        part: &Part,
        predicate: Predicate,
        kept: Option<&Evidence>,
    ) -> Result<Option<Evidence>, AllocError> {
        graph.known();
        let Predicate::Flow { source, sink, .. } = predicate else {
            unreachable!()
        };
        if self.kept.still_carries(graph, part, source, sink) {
            return Ok(None);
        }
        match kept {
            None => Ok(None),
            Some(known) => self.grown(alloc, graph, part, sink, known),
        }
    }
}

/// Predicates on flows over one graph.
pub type FlowTheory = GraphTheory<Flow>;
