//! Predicates of reachability: a walk shows that one holds, a set of nodes that it fails.
//!
//! Both come from one search, breadth first from the predicate's first node. A walk rests on its edges. A set rests on the
//! absent edges that leave it. Of two sets, the one nearest to the first node and the one nearest to the last, it is the
//! one that rests on fewer.

ghost use Rattle.std.specs.Prelude.{◌≡◌, ◌<◌, All, IfOk, IfSome, IsTrue, length};
ghost use Rattle.mono_graph.specs.Digraph.{IsPartOf};
ghost use Rattle.mono_graph.specs.Walks.{is_cut};
ghost use Rattle.mono_theory.specs.Evidences.{IsEvidence};
ghost use Rattle.mono_reach.specs.Reaches.{cut_evidence as cut_evidence_of};

use crate::nearest::widened_for;
use crate::reached_rows::ReachedRows;
use mono_base::Row;
use mono_graph::{Graph, Limit, Part};
use mono_mend::WalkMender;
use mono_paths::{PathOrCut, WalkFinder};
use mono_problem::Predicate;
use mono_steps::Witness;
use mono_theory::walks::{kept_walk, walk_evidence};
use mono_theory::{
    Asked, AsksWalk, EitherSide, Evidence, GraphTheory, Kind, NodeMarks, PossibleRows,
};
use std::alloc::{AllocError, Global};
use std::marker::Model;

/// Predicates on walks of any cost, with room to search graphs with one number of nodes.
pub struct Reach {
    finder: WalkFinder,
    mender: WalkMender,
    marks: NodeMarks,
}

impl Drop for Reach {
    fn drop(self) {
        let Reach {
            finder: _,
            mender: _,
            marks: _,
        } = self;
    }
}

impl Model for Reach {
    ghost use Rattle.std.specs.Prelude.{ℕ, ◌≡◌};

    ghost Value = { ℕ };

    ghost view = { λ r. r.finder };

    ghost invariant = { λ r. (r.mender ≡ r.finder) × (r.marks ≡ r.finder) };
}

/// The evidence that a set of nodes is. It rests on each absent edge that leaves it.
fn cut_evidence(
    alloc: Global,
    marks: &mut NodeMarks,
    graph: &Graph,
    part: &Part,
    nodes: Vec<u32>,
) -> Result<Evidence, AllocError>
    requires size { marks.old ≡ graph.now.nodes }
    requires part { IsPartOf part.now graph.now }
    requires nodes { All (λ u. u < graph.now.nodes) nodes.items }
    ensures size { marks.new ≡ marks.old }
    ensures evidence { IfOk result (λ e. e ≡ cut_evidence_of graph.now part.now nodes.items) }
{
    let edges = marks.absent_leaving(alloc, graph, part, nodes.as_slice())?;
    Ok(Evidence {
        witness: Witness::Cut(Row::from_vec(nodes)),
        edges: Row::from_vec(edges),
    })
}

/// The evidence that a set is which is nearest to `to`, where a search finds one.
fn far_cut(
    alloc: Global,
    finder: &mut WalkFinder,
    marks: &mut NodeMarks,
    graph: &Graph,
    part: &Part,
    from: u32,
    to: u32,
) -> Result<Option<Evidence>, AllocError>
    requires finder { finder.old ≡ graph.now.nodes }
    requires marks { marks.old ≡ graph.now.nodes }
    requires part { IsPartOf part.now graph.now }
    requires from { from < graph.now.nodes }
    requires to { to < graph.now.nodes }
    ensures finder { finder.new ≡ finder.old }
    ensures marks { marks.new ≡ marks.old }
    ensures evidence { IfOk result (λ far. IfSome far (IsEvidence graph.now part.now (Predicate.Reach from to))) }
{
    let wide = widened_for(alloc, graph, part, to)?;
    match finder.find_path(graph, &wide, from, to)? {
        PathOrCut::Path(_) => Ok(None),
        PathOrCut::Cut(others) => {
            let far = cut_evidence(alloc, marks, graph, &wide, others)?;
            Ok(Some(far))
        }
    }
}

/// The evidence that a set is which has `from` and lacks `to`, and which no present edge leaves: this one, or the one
/// nearest to `to`, whichever rests on fewer edges.
fn least_cut(
    alloc: Global,
    finder: &mut WalkFinder,
    marks: &mut NodeMarks,
    graph: &Graph,
    part: &Part,
    from: u32,
    to: u32,
    nodes: Vec<u32>,
) -> Result<Evidence, AllocError>
    requires finder { finder.old ≡ graph.now.nodes }
    requires marks { marks.old ≡ graph.now.nodes }
    requires part { IsPartOf part.now graph.now }
    requires from { from < graph.now.nodes }
    requires to { to < graph.now.nodes }
    requires nodes { All (λ u. u < graph.now.nodes) nodes.items }
    requires cut { IsTrue (is_cut graph.now part.now from to nodes.items) }
    ensures finder { finder.new ≡ finder.old }
    ensures marks { marks.new ≡ marks.old }
    ensures evidence { IfOk result (IsEvidence graph.now part.now (Predicate.Reach from to)) }
{
    let near = cut_evidence(alloc, marks, graph, part, nodes)?;
    if near.edges.as_slice().len() < 2 {
        return Ok(near);
    }
    let far = far_cut(alloc, finder, marks, graph, part, from, to)?;
    Ok(near.or_lighter(far))
}

/// The evidence that a walk near to these edges is, where one is found there.
fn walk_near(
    alloc: Global,
    mender: &mut WalkMender,
    graph: &Graph,
    part: &Part,
    from: u32,
    to: u32,
    edges: &[u32],
) -> Result<Option<Evidence>, AllocError>
    requires mender { mender.old ≡ graph.now.nodes }
    requires part { IsPartOf part.now graph.now }
    requires from { from < graph.now.nodes }
    requires to { to < graph.now.nodes }
    requires edges { All (λ k. k < length graph.now.edges) edges.now }
    ensures mender { mender.new ≡ mender.old }
    ensures evidence { IfOk result (λ found. IfSome found (IsEvidence graph.now part.now (Predicate.Reach from to))) }
{
    graph.known();
    let limit = Limit::Free;
    match mender.mend(alloc, graph, part, from, to, limit, edges)? {
        Some(places) => Ok(Some(walk_evidence(alloc, graph, places)?)),
        None => Ok(None),
    }
}

impl Kind for Reach {
    ghost use Rattle.std.specs.Prelude.{true};
    ghost use Rattle.mono_reach.specs.Reaches.{is_reach};

    ghost covers = { is_reach };

    ghost nodes = { λ r. r };

    const IS_THOROUGH: bool = true;

    ghost IS_THOROUGH = { true };

    const MOST_FOLLOWED: u32 = u32::MAX;

    const LEAST_FOLLOWED: u32 = 0;

    fn with_nodes(alloc: Global, count: u32) -> Result<Self, AllocError> {
        let finder = WalkFinder::new(alloc, count)?;
        let mender = WalkMender::new(alloc, count)?;
        let marks = NodeMarks::new(alloc, count)?;
        Ok(Reach {
            finder,
            mender,
            marks,
        })
    }

    fn evidence(
        &mut self,
        alloc: Global,
        graph: &Graph,
        part: &Part,
        predicate: Predicate,
    ) -> Result<Evidence, AllocError> {
        graph.known();
        let Predicate::Reach { from, to } = predicate else {
            unreachable!()
        };
        match self.finder.find_path(graph, part, from, to)? {
            PathOrCut::Path(places) => walk_evidence(alloc, graph, places),
            PathOrCut::Cut(nodes) => least_cut(
                alloc,
                &mut self.finder,
                &mut self.marks,
                graph,
                part,
                from,
                to,
                nodes,
            ),
        }
    }

    fn mend(
        &mut self,
        alloc: Global,
        graph: &Graph,
        part: &Part,
        predicate: Predicate,
        kept: Option<&Evidence>,
    ) -> Result<Option<Evidence>, AllocError> {
        graph.known();
        let Predicate::Reach { from, to } = predicate else {
            unreachable!()
        };
        match kept_walk(kept) {
            Some(edges) => walk_near(alloc, &mut self.mender, graph, part, from, to, edges),
            None => Ok(None),
        }
    }
}

impl AsksWalk for Reach {
    fn asked(predicate: Predicate) -> Asked {
        match predicate {
            Predicate::Reach { from, to } => Asked {
                from,
                to,
                limit: Limit::Free,
            },
            _ => unreachable!(),
        }
    }
}

/// Predicates of reachability over one graph.
pub type ReachTheory = GraphTheory<Reach, EitherSide<ReachedRows>, EitherSide<PossibleRows>>;
