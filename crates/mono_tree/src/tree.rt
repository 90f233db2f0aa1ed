//! Predicates on spanning trees: a light tree shows that one holds, a split or a lightest tree that it fails.
//!
//! All come from one search. A tree within the bound rests on its edges. A split rests on the absent edges that join its
//! set with the rest. A lightest tree above the bound rests on the absent edges whose ends its edges no heavier than them
//! don't join: no other edge would make it lighter.

ghost use Rattle.std.specs.Prelude.{◌≡◌, ◌<◌, All, IfOk, length};
ghost use Rattle.mono_graph.specs.Digraph.{IsPartOf};
ghost use Rattle.mono_problem.specs.WellFormed.{IsOver};
ghost use Rattle.mono_theory.specs.Evidences.{IsEvidence};
ghost use Rattle.mono_tree.specs.Spanning.{tree_evidence as tree_evidence_of, split_evidence as split_evidence_of, IsLeastEvidence};

use mono_base::Row;
use mono_graph::{Graph, Part};
use mono_problem::Predicate;
use mono_steps::Witness;
use mono_theory::walks::edge_numbers;
use mono_theory::{Evidence, GraphTheory, Kind, NodeMarks};
use mono_trees::{TreeFinder, TreeFound};
use std::alloc::{AllocError, Global};
use std::marker::Model;

/// Predicates on spanning trees, with room to search graphs with one number of nodes.
#[derive(Drop)]
pub struct Tree {
    finder: TreeFinder,
    marks: NodeMarks,
}

impl Model for Tree {
    ghost use Rattle.std.specs.Prelude.{ℕ, ◌≡◌};

    ghost Value = { ℕ };

    ghost view = { λ t. t.finder };

    ghost invariant = { λ t. t.marks ≡ t.finder };
}

/// The evidence that a tree of these edges is. It rests on each of them.
fn tree_evidence(alloc: Global, graph: &Graph, places: Vec<u32>) -> Result<Evidence, AllocError>
    requires { All (λ k. k < length graph.now.edges) places.items }
    ensures { IfOk result (λ e. e ≡ tree_evidence_of graph.now places.items) }
{
    let numbers = edge_numbers(alloc, graph, places.as_slice())?;
    Ok(Evidence {
        witness: Witness::Tree(Row::from_vec(numbers)),
        edges: Row::from_vec(places),
    })
}

/// The evidence that a split is. It rests on each absent edge that joins its set with the rest.
fn split_evidence(
    alloc: Global,
    marks: &mut NodeMarks,
    graph: &Graph,
    part: &Part,
    nodes: Vec<u32>,
) -> Result<Evidence, AllocError>
    requires size { marks.old ≡ graph.now.nodes }
    requires part { IsPartOf part.now graph.now }
    requires nodes { All (λ u. u < graph.now.nodes) nodes.items }
    ensures size { marks.new ≡ marks.old }
    ensures evidence { IfOk result (λ e. e ≡ split_evidence_of graph.now part.now nodes.items) }
{
    let edges = marks.absent_crossing(alloc, graph, part, nodes.as_slice())?;
    Ok(Evidence {
        witness: Witness::Split(Row::from_vec(nodes)),
        edges: Row::from_vec(edges),
    })
}

/// The evidence that a lightest tree of these edges is, where it is above the bound.
fn least_evidence(
    alloc: Global,
    finder: &mut TreeFinder,
    graph: &Graph,
    part: &Part,
    places: &[u32],
) -> Result<Evidence, AllocError>
    requires size { finder.old ≡ graph.now.nodes }
    requires part { IsPartOf part.now graph.now }
    requires places { All (λ k. k < length graph.now.edges) places.now }
    ensures size { finder.new ≡ finder.old }
    ensures evidence { IfOk result (IsLeastEvidence graph.now part.now places.now) }
{
    let numbers = edge_numbers(alloc, graph, places)?;
    let edges = finder.unbridged_absent(graph, part, places)?;
    Ok(Evidence {
        witness: Witness::Least(Row::from_vec(numbers)),
        edges: Row::from_vec(edges),
    })
}

impl Tree {
    /// What shows that a spanning tree weighs at most so much, or that none does.
    fn show(
        &mut self,
        alloc: Global,
        graph: &Graph,
        part: &Part,
        most: i64,
    ) -> Result<Evidence, AllocError>
        requires size { self.old ≡ graph.now.nodes }
        requires part { IsPartOf part.now graph.now }
        requires over { IsOver graph.now (Predicate.Tree most) }
        ensures size { self.new ≡ self.old }
        ensures evidence { IfOk result (IsEvidence graph.now part.now (Predicate.Tree most)) }
    {
        graph.known();
        match self.finder.find_tree(graph, part, most)? {
            TreeFound::Tree(places) => tree_evidence(alloc, graph, places),
            TreeFound::Split(nodes) => split_evidence(alloc, &mut self.marks, graph, part, nodes),
            TreeFound::Least(places) => {
                least_evidence(alloc, &mut self.finder, graph, part, places.as_slice())
            }
        }
    }
}

impl Kind for Tree {
    ghost use Rattle.std.specs.Prelude.{false};
    ghost use Rattle.mono_tree.specs.Spanning.{is_tree_predicate};

    ghost covers = { is_tree_predicate };

    ghost nodes = { λ t. t };

    const IS_THOROUGH: bool = false;

    ghost IS_THOROUGH = { false };

    const MOST_FOLLOWED: u32 = 1;

    const LEAST_FOLLOWED: u32 = 5_000;

    fn with_nodes(alloc: Global, count: u32) -> Result<Self, AllocError> {
        let finder = TreeFinder::new(alloc, count)?;
        let marks = NodeMarks::new(alloc, count)?;
        Ok(Tree { finder, marks })
    }

    fn evidence(
        &mut self,
        alloc: Global,
        graph: &Graph,
        part: &Part,
        predicate: Predicate,
    ) -> Result<Evidence, AllocError> {
        match predicate {
            Predicate::Tree { most } => self.show(alloc, graph, part, most),
            _ => unreachable!(),
        }
    }
}

/// Predicates on spanning trees over one graph.
pub type TreeTheory = GraphTheory<Tree>;
