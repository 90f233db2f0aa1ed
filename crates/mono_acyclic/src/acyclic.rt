//! The predicate on cycles: a cycle shows that it fails, an order of the nodes that it holds.
//!
//! Both come from one search. A cycle rests on its edges. An order rests on the absent edges that don't rise in it.

ghost use Rattle.std.specs.Prelude.{◌≡◌, ◌<◌, ◌&&◌, ℕ, not, All, IfOk, IsTrue, length, slice_index};
ghost use Rattle.mono_graph.specs.Digraph.{IsPartOf, is_distinct, edge_at, present};
ghost use Rattle.mono_problem.specs.declared.atom.Predicate.TheVariants as kind;
ghost use Rattle.mono_graph.specs.Cycles.{rises};
ghost use Rattle.mono_theory.specs.Evidences.{IsEvidence};
ghost use Rattle.mono_acyclic.specs.Cyclic.{absent_falling as absent_falling_of, cycle_evidence as cycle_evidence_of, IsOrderEvidence};

use crate::ordered_edges::OrderedEdges;
use mono_base::Row;
use mono_cycles::{CycleFinder, CycleOrOrder, rank};
use mono_graph::{Graph, Part};
use mono_problem::Predicate;
use mono_steps::Witness;
use mono_theory::walks::edge_numbers;
use mono_theory::{EitherSide, Evidence, GraphTheory, Kind};
use std::alloc::{AllocError, Global};
use std::marker::Model;

/// The predicate on cycles, with room to search graphs with one number of nodes.
#[derive(Drop)]
pub struct Acyclic {
    finder: CycleFinder,
    /// By node: its place in the last order.
    ranks: Vec<usize>,
}

impl Model for Acyclic {
    ghost use Rattle.std.specs.Prelude.{ℕ, ◌≡◌, length};

    ghost Value = { ℕ };

    ghost view = { λ a. a.finder };

    ghost invariant = { λ a. length a.ranks.items ≡ a.finder };
}

/// The evidence that a cycle of these edges is. It rests on each of them.
pub(crate) fn cycle_evidence(
    alloc: Global,
    graph: &Graph,
    places: Vec<u32>,
) -> Result<Evidence, AllocError>
    requires { All (λ k. k < length graph.now.edges) places.items }
    ensures { IfOk result (λ e. e ≡ cycle_evidence_of graph.now places.items) }
{
    let numbers = edge_numbers(alloc, graph, places.as_slice())?;
    Ok(Evidence {
        witness: Witness::Cycle(Row::from_vec(numbers)),
        edges: Row::from_vec(places),
    })
}

/// Whether the edge is absent and doesn't lead to a greater rank.
fn is_absent_falling(graph: &Graph, part: &Part, place: u32, ranks: &[usize]) -> bool
    requires part { IsPartOf part.now graph.now }
    requires place { place < length graph.now.edges }
    requires ranks { length ranks.now ≡ graph.now.nodes }
    ensures { result ≡ (not (present part.now place) && not (rises (λ u. slice_index ranks.now u) (edge_at graph.now place))) }
{
    if part.has(place) {
        return false;
    }
    let edge = graph.edge(place);
    !(ranks[edge.from as usize] < ranks[edge.to as usize])
}

/// The absent edges that don't lead to a greater rank.
fn absent_falling(
    alloc: Global,
    graph: &Graph,
    part: &Part,
    ranks: &[usize],
) -> Result<Vec<u32>, AllocError>
    requires part { IsPartOf part.now graph.now }
    requires ranks { length ranks.now ≡ graph.now.nodes }
    ensures { IfOk result (λ edges. edges.items ≡ absent_falling_of graph.now part.now (λ u. slice_index ranks.now u)) }
{
    let mut edges = Vec::new(alloc);
    for place in 0..graph.edge_count() {
        if is_absent_falling(graph, part, place, ranks) {
            edges.push(place)?;
        }
    }
    Ok(edges)
}

/// The evidence that an order is. It rests on the absent edges that don't rise in it.
fn order_evidence(
    alloc: Global,
    ranks: &mut [usize],
    graph: &Graph,
    part: &Part,
    nodes: Vec<u32>,
) -> Result<Evidence, AllocError>
    requires ranks { length ranks.old ≡ graph.now.nodes }
    requires part { IsPartOf part.now graph.now }
    requires nodes { All (λ u. u < graph.now.nodes) nodes.items }
    requires once { IsTrue (is_distinct nodes.items) }
    ensures { IfOk result (IsOrderEvidence graph.now part.now nodes.items) }
{
    let _ = rank(ranks, nodes.as_slice());
    let edges = absent_falling(alloc, graph, part, ranks)?;
    Ok(Evidence {
        witness: Witness::Order(Row::from_vec(nodes)),
        edges: Row::from_vec(edges),
    })
}

/// What shows that a part has a cycle, or that it has none.
fn show(
    alloc: Global,
    finder: &mut CycleFinder,
    ranks: &mut [usize],
    graph: &Graph,
    part: &Part,
) -> Result<Evidence, AllocError>
    requires size { finder.old ≡ graph.now.nodes }
    requires ranks { length ranks.old ≡ graph.now.nodes }
    requires part { IsPartOf part.now graph.now }
    ensures size { finder.new ≡ finder.old }
    ensures evidence { IfOk result (IsEvidence graph.now part.now kind.Acyclic) }
{
    graph.known();
    match finder.find_cycle(graph, part)? {
        CycleOrOrder::Cycle(places) => cycle_evidence(alloc, graph, places),
        CycleOrOrder::Order(nodes) => order_evidence(alloc, ranks, graph, part, nodes),
    }
}

impl Kind for Acyclic {
    ghost use Rattle.std.specs.Prelude.{false};
    ghost use Rattle.mono_acyclic.specs.Cyclic.{is_cycle_predicate};

    ghost covers = { is_cycle_predicate };

    ghost nodes = { λ a. a };

    const IS_THOROUGH: bool = false;

    ghost IS_THOROUGH = { false };

    const MOST_FOLLOWED: u32 = 0;

    const LEAST_FOLLOWED: u32 = 0;

    fn with_nodes(alloc: Global, count: u32) -> Result<Self, AllocError> {
        let finder = CycleFinder::new(alloc, count)?;
        let ranks = vec![in alloc; 0; count as usize]?;
        Ok(Acyclic { finder, ranks })
    }

    fn evidence(
        &mut self,
        alloc: Global,
        graph: &Graph,
        part: &Part,
        predicate: Predicate,
    ) -> Result<Evidence, AllocError> {
        match predicate {
            Predicate::Acyclic => show(alloc, &mut self.finder, &mut self.ranks, graph, part),
            _ => unreachable!(),
        }
    }
}

/// Predicates on cycles over one graph.
pub type AcyclicTheory = GraphTheory<Acyclic, EitherSide<OrderedEdges>>;
