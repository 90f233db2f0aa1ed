//! Whether a witness passes over a part of its predicate's graph: each word by the test of its kind.

ghost use Rattle.std.specs.Prelude.{◌≡◌, IfOk};
ghost use Rattle.mono_graph.specs.Digraph.{IsPartOf};
ghost use Rattle.mono_problem.specs.declared.atom.Predicate.TheVariants as kind;
ghost use Rattle.mono_steps.specs.Checkers.{size_of};
ghost use Rattle.mono_steps.specs.Placing.{IsTestable, walk_predicate};
ghost use Rattle.mono_steps.specs.Witnesses.{passes};

use crate::Witness;
use crate::placing::PlacedEdges;
use mono_cycles::{OrderChecker, is_cycle};
use mono_flows::FlowChecker;
use mono_graph::{Graph, Limit, Part};
use mono_paths::{WalkChecker, is_path};
use mono_problem::Predicate;
use mono_trees::TreeChecker;
use std::alloc::{AllocError, Global};
use std::marker::Model;

/// Tests witnesses in graphs of one size, which is what contracts see of it.
pub(crate) struct WitnessChecker {
    walks: WalkChecker,
    flows: FlowChecker,
    trees: TreeChecker,
    orders: OrderChecker,
}

impl Drop for WitnessChecker {
    fn drop(self) {
        let WitnessChecker {
            walks: _,
            flows: _,
            trees: _,
            orders: _,
        } = self;
    }
}

impl Model for WitnessChecker {
    ghost use Rattle.std.specs.Prelude.{◌≡◌};
    ghost use Rattle.mono_steps.specs.Checkers.{GraphSize};

    ghost Value = { GraphSize };

    ghost view = { λ c. record { nodes = c.flows.nodes; edges = c.flows.edges } };

    ghost invariant = { λ c. (c.walks ≡ c.flows.nodes) × (c.trees ≡ c.flows.nodes) × (c.orders ≡ c.flows.nodes) };
}

impl WitnessChecker {
    /// A checker for graphs of this one's size.
    pub(crate) fn new(alloc: Global, graph: &Graph) -> Result<WitnessChecker, AllocError>
        ensures { IfOk result (λ checker. checker ≡ size_of graph.now) }
    {
        let nodes = graph.nodes();
        let orders = OrderChecker::new(alloc, nodes)?;
        let walks = WalkChecker::new(alloc, nodes)?;
        let trees = TreeChecker::new(alloc, nodes)?;
        let flows = FlowChecker::new(alloc, nodes, graph.edge_count())?;
        Ok(WitnessChecker {
            walks,
            flows,
            trees,
            orders,
        })
    }

    /// Whether the witness passes for the predicate on walks from `from` to `to` within the limit.
    fn walk_passes(
        &mut self,
        graph: &Graph,
        part: &Part,
        from: u32,
        to: u32,
        limit: Limit,
        witness: &Witness,
        placed: &PlacedEdges,
    ) -> bool
        requires size { self.old ≡ size_of graph.now }
        requires part { IsPartOf part.now graph.now }
        requires testable { IsTestable graph.now (walk_predicate from to limit) witness.now placed.now }
        ensures passes { result ≡ passes graph.now part.now (walk_predicate from to limit) witness.now }
        ensures kept { self.new ≡ self.old }
    {
        match witness {
            Witness::Path(_) => { is_path(graph, part, from, to, limit, placed.places.as_slice()) }
            Witness::Cut(nodes) => match limit {
                Limit::Free => self.walks.is_cut(graph, part, from, to, nodes.as_slice()),
                _ => false,
            },
            Witness::Label(labels) => match limit {
                Limit::Free => false,
                _ => self
                    .walks
                    .is_labelling(graph, part, from, to, limit, labels.as_slice()),
            },
            _ => false,
        }
    }

    /// Whether the witness passes for the predicate on a flow from `source` to `sink` of at least `least`.
    fn flow_passes(
        &mut self,
        graph: &Graph,
        part: &Part,
        source: u32,
        sink: u32,
        least: i64,
        witness: &Witness,
        placed: &PlacedEdges,
    ) -> bool
        requires size { self.old ≡ size_of graph.now }
        requires part { IsPartOf part.now graph.now }
        requires testable { IsTestable graph.now (kind.Flow source sink least) witness.now placed.now }
        ensures passes { result ≡ passes graph.now part.now (kind.Flow source sink least) witness.now }
        ensures kept { self.new ≡ self.old }
    {
        let amounts = placed.amounts.as_slice();
        match witness {
            Witness::Flow(_) => {
                self.flows
                    .is_flow(graph, part, source, sink, least, amounts)
            }
            Witness::FlowCut(nodes) => {
                self.flows
                    .is_flow_cut(graph, part, source, sink, least, nodes.as_slice())
            }
            _ => false,
        }
    }

    /// Whether the witness passes for the predicate on a spanning tree of at most `most`.
    fn tree_passes(
        &mut self,
        graph: &Graph,
        part: &Part,
        most: i64,
        witness: &Witness,
        placed: &PlacedEdges,
    ) -> Result<bool, AllocError>
        requires size { self.old ≡ size_of graph.now }
        requires part { IsPartOf part.now graph.now }
        requires testable { IsTestable graph.now (kind.Tree most) witness.now placed.now }
        ensures passes { IfOk result (λ b. b ≡ passes graph.now part.now (kind.Tree most) witness.now) }
        ensures kept { self.new ≡ self.old }
    {
        let edges = placed.places.as_slice();
        match witness {
            Witness::Tree(_) => self.trees.is_tree(graph, part, most, edges),
            Witness::Split(nodes) => Ok(self.trees.is_split(graph, part, nodes.as_slice())),
            Witness::Least(_) => self.trees.is_least(graph, part, most, edges),
            _ => Ok(false),
        }
    }

    /// Whether the witness passes for the predicate that there is no cycle.
    fn cycle_passes(
        &mut self,
        graph: &Graph,
        part: &Part,
        witness: &Witness,
        placed: &PlacedEdges,
    ) -> bool
        requires size { self.old ≡ size_of graph.now }
        requires part { IsPartOf part.now graph.now }
        requires testable { IsTestable graph.now kind.Acyclic witness.now placed.now }
        ensures passes { result ≡ passes graph.now part.now kind.Acyclic witness.now }
        ensures kept { self.new ≡ self.old }
    {
        match witness {
            Witness::Cycle(_) => is_cycle(graph, part, placed.places.as_slice()),
            Witness::Order(nodes) => self.orders.is_order(graph, part, nodes.as_slice()),
            _ => false,
        }
    }

    /// Whether the witness passes over the part. `placed` has its edges, by place.
    pub(crate) fn passes(
        &mut self,
        graph: &Graph,
        part: &Part,
        predicate: Predicate,
        witness: &Witness,
        placed: &PlacedEdges,
    ) -> Result<bool, AllocError>
        requires size { self.old ≡ size_of graph.now }
        requires part { IsPartOf part.now graph.now }
        requires testable { IsTestable graph.now predicate witness.now placed.now }
        ensures passes { IfOk result (λ b. b ≡ passes graph.now part.now predicate witness.now) }
        ensures kept { self.new ≡ self.old }
    {
        match predicate {
            Predicate::Reach { from, to } => {
                Ok(self.walk_passes(graph, part, from, to, Limit::Free, witness, placed))
            }
            Predicate::Steps { from, to, most } => {
                let limit = Limit::Steps(most);
                Ok(self.walk_passes(graph, part, from, to, limit, witness, placed))
            }
            Predicate::Distance { from, to, most } => {
                let limit = Limit::Weight(most);
                Ok(self.walk_passes(graph, part, from, to, limit, witness, placed))
            }
            Predicate::Flow {
                source,
                sink,
                least,
            } => Ok(self.flow_passes(graph, part, source, sink, least, witness, placed)),
            Predicate::Tree { most } => self.tree_passes(graph, part, most, witness, placed),
            Predicate::Acyclic => Ok(self.cycle_passes(graph, part, witness, placed)),
        }
    }
}
