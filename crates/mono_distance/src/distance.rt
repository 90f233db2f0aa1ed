//! Predicates on walks within a limit: a walk shows that one holds, labels that it fails.
//!
//! Both come from one search, breadth first under a number of edges, by Dijkstra's method under a weight. A walk rests on
//! its edges. Labels rest on the absent edges along which they rise by more than the edge costs. Of two labellings, the
//! one counted from the first node and the one counted from the last, it is the one that rests on fewer.

ghost use Rattle.std.specs.Prelude.{◌≡◌, ◌<◌, ◌≤◌, All, IfOk, IfSome, IsTrue, length};
ghost use Rattle.mono_graph.specs.Digraph.{IsPartOf};
ghost use Rattle.mono_graph.specs.Walks.{is_labelling};
ghost use Rattle.mono_paths.specs.Found.{HasBound};
ghost use Rattle.mono_theory.specs.Evidences.{IsEvidence};
ghost use Rattle.mono_distance.specs.Distances.{is_distance, predicate_of, IsLabelEvidence};

use crate::label_table::LabelTable;
use crate::least_rows::LeastRows;
use crate::nearest::widened_for;
use mono_base::Row;
use mono_base::limits::MAX_WITNESS_VALUE;
use mono_graph::{Graph, Label, Limit, Part};
use mono_mend::WalkMender;
use mono_paths::{PathOrLabels, WalkFinder};
use mono_problem::Predicate;
use mono_steps::Witness;
use mono_theory::walks::{kept_walk, walk_evidence};
use mono_theory::{Asked, AsksWalk, EitherSide, Evidence, GraphTheory, Kind, PossibleRows};
use std::alloc::{AllocError, Global};
use std::marker::Model;

/// Predicates on walks within a number of edges or a weight, with room to search graphs with one number of nodes.
pub struct Distance {
    finder: WalkFinder,
    mender: WalkMender,
    table: LabelTable,
}

impl Drop for Distance {
    fn drop(self) {
        let Distance {
            finder: _,
            mender: _,
            table: _,
        } = self;
    }
}

impl Model for Distance {
    ghost use Rattle.std.specs.Prelude.{ℕ, ◌≡◌};

    ghost Value = { ℕ };

    ghost view = { λ d. d.finder };

    ghost invariant = { λ d. (d.mender ≡ d.finder) × (d.table ≡ d.finder) };
}

/// What the predicate asks for.
pub(crate) fn what_is_asked(predicate: Predicate) -> Asked
    requires { IsTrue (is_distance predicate) }
    ensures { predicate ≡ predicate_of result.from result.to result.limit }
{
    match predicate {
        Predicate::Steps { from, to, most } => Asked {
            from,
            to,
            limit: Limit::Steps(most),
        },
        Predicate::Distance { from, to, most } => Asked {
            from,
            to,
            limit: Limit::Weight(most),
        },
        _ => unreachable!(),
    }
}

/// The evidence that labels are. It rests on each absent edge along which they rise by more than the edge costs.
fn label_evidence(
    alloc: Global,
    table: &mut LabelTable,
    graph: &Graph,
    part: &Part,
    limit: Limit,
    labels: Vec<Label>,
) -> Result<Evidence, AllocError>
    requires size { table.old ≡ graph.now.nodes }
    requires part { IsPartOf part.now graph.now }
    requires limit { HasBound limit }
    requires labels { All (λ l. (l.node < graph.now.nodes) × (l.value ≤ MAX_WITNESS_VALUE)) labels.items }
    ensures size { table.new ≡ table.old }
    ensures evidence { IfOk result (IsLabelEvidence graph.now part.now limit labels.items) }
{
    let edges = table.absent_tense(alloc, graph, part, limit, labels.as_slice())?;
    Ok(Evidence {
        witness: Witness::Label(Row::from_vec(labels)),
        edges: Row::from_vec(edges),
    })
}

/// The evidence that labels are which are counted from `to`, where a search finds some.
fn far_labels(
    alloc: Global,
    finder: &mut WalkFinder,
    table: &mut LabelTable,
    graph: &Graph,
    part: &Part,
    asked: Asked,
) -> Result<Option<Evidence>, AllocError>
    requires finder { finder.old ≡ graph.now.nodes }
    requires table { table.old ≡ graph.now.nodes }
    requires part { IsPartOf part.now graph.now }
    requires from { asked.from < graph.now.nodes }
    requires to { asked.to < graph.now.nodes }
    requires limit { HasBound asked.limit }
    ensures finder { finder.new ≡ finder.old }
    ensures table { table.new ≡ table.old }
    ensures evidence { IfOk result (λ far. IfSome far (IsEvidence graph.now part.now (predicate_of asked.from asked.to asked.limit))) }
{
    let wide = widened_for(alloc, graph, part, asked.to, asked.limit)?;
    match finder.find_light(graph, &wide, asked.from, asked.to, asked.limit)? {
        PathOrLabels::Path(_) => Ok(None),
        PathOrLabels::Labels(others) => {
            let far = label_evidence(alloc, table, graph, &wide, asked.limit, others)?;
            Ok(Some(far))
        }
    }
}

/// The evidence that labels are by which each walk from `from` to `to` is beyond the limit: these, or those that are
/// counted from `to`, whichever rest on fewer edges.
fn least_labels(
    alloc: Global,
    finder: &mut WalkFinder,
    table: &mut LabelTable,
    graph: &Graph,
    part: &Part,
    asked: Asked,
    labels: Vec<Label>,
) -> Result<Evidence, AllocError>
    requires finder { finder.old ≡ graph.now.nodes }
    requires table { table.old ≡ graph.now.nodes }
    requires part { IsPartOf part.now graph.now }
    requires from { asked.from < graph.now.nodes }
    requires to { asked.to < graph.now.nodes }
    requires limit { HasBound asked.limit }
    requires labels { All (λ l. (l.node < graph.now.nodes) × (l.value ≤ MAX_WITNESS_VALUE)) labels.items }
    requires labelling { IsTrue (is_labelling graph.now part.now asked.from asked.to asked.limit labels.items) }
    ensures finder { finder.new ≡ finder.old }
    ensures table { table.new ≡ table.old }
    ensures evidence { IfOk result (IsEvidence graph.now part.now (predicate_of asked.from asked.to asked.limit)) }
{
    let near = label_evidence(alloc, table, graph, part, asked.limit, labels)?;
    if near.edges.as_slice().len() < 2 {
        return Ok(near);
    }
    let far = far_labels(alloc, finder, table, graph, part, asked)?;
    Ok(near.or_lighter(far))
}

/// The evidence that a walk near to these edges is, where one is found there.
fn walk_near(
    alloc: Global,
    mender: &mut WalkMender,
    graph: &Graph,
    part: &Part,
    asked: Asked,
    edges: &[u32],
) -> Result<Option<Evidence>, AllocError>
    requires mender { mender.old ≡ graph.now.nodes }
    requires part { IsPartOf part.now graph.now }
    requires from { asked.from < graph.now.nodes }
    requires to { asked.to < graph.now.nodes }
    requires edges { All (λ k. k < length graph.now.edges) edges.now }
    ensures mender { mender.new ≡ mender.old }
    ensures evidence { IfOk result (λ found. IfSome found (IsEvidence graph.now part.now (predicate_of asked.from asked.to asked.limit))) }
{
    graph.known();
    match mender.mend(alloc, graph, part, asked.from, asked.to, asked.limit, edges)? {
        Some(places) => Ok(Some(walk_evidence(alloc, graph, places)?)),
        None => Ok(None),
    }
}

impl Kind for Distance {
    ghost use Rattle.std.specs.Prelude.{true};
    ghost use Rattle.mono_distance.specs.Distances.{is_distance};

    ghost covers = { is_distance };

    ghost nodes = { λ d. d };

    const IS_THOROUGH: bool = true;

    ghost IS_THOROUGH = { true };

    const MOST_FOLLOWED: u32 = 100;

    const LEAST_FOLLOWED: u32 = 0;

    fn with_nodes(alloc: Global, count: u32) -> Result<Self, AllocError> {
        let finder = WalkFinder::new(alloc, count)?;
        let mender = WalkMender::new(alloc, count)?;
        let table = LabelTable::new(alloc, count)?;
        Ok(Distance {
            finder,
            mender,
            table,
        })
    }

    fn evidence(
        &mut self,
        alloc: Global,
        graph: &Graph,
        part: &Part,
        predicate: Predicate,
    ) -> Result<Evidence, AllocError> {
        graph.known();
        let asked = what_is_asked(predicate);
        match self
            .finder
            .find_light(graph, part, asked.from, asked.to, asked.limit)?
        {
            PathOrLabels::Path(places) => walk_evidence(alloc, graph, places),
            PathOrLabels::Labels(labels) => least_labels(
                alloc,
                &mut self.finder,
                &mut self.table,
                graph,
                part,
                asked,
                labels,
            ),
        }
    }

    fn mend(
        &mut self,
        alloc: Global,
        graph: &Graph,
        part: &Part,
        predicate: Predicate,
        kept: Option<&Evidence>,
    ) -> Result<Option<Evidence>, AllocError> {
        graph.known();
        let asked = what_is_asked(predicate);
        match kept_walk(kept) {
            Some(edges) => walk_near(alloc, &mut self.mender, graph, part, asked, edges),
            None => Ok(None),
        }
    }
}

impl AsksWalk for Distance {
    fn asked(predicate: Predicate) -> Asked {
        what_is_asked(predicate)
    }
}

/// Predicates on walks within a limit over one graph.
pub type DistanceTheory = GraphTheory<Distance, EitherSide<LeastRows>, EitherSide<PossibleRows>>;
