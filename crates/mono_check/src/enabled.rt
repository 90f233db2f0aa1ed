//! The part of a graph that an assignment enables, and whether predicates hold in it.

ghost use Rattle.std.specs.Prelude.{◌≡◌, ◌<◌, ◌↔◌, All, IsTrue, IfOk, length};
ghost use Rattle.mono_base.specs.Literal.{value_in};
ghost use Rattle.mono_paths.specs.Asked.{AreAnswers, IsTarget};
ghost use Rattle.mono_problem.specs.declared.atom.Predicate.TheVariants as kind;
ghost use Rattle.mono_problem.specs.WellFormed.{IsOver};
ghost use Rattle.mono_problem.specs.Holds.{Holds};
ghost use Rattle.mono_check.specs.Enabled.{FitsGraph, IsPartAt};

use crate::predicates::{carries, is_acyclic, reaches, reaches_within, spans};
use mono_cycles::CycleFinder;
use mono_flows::FlowFinder;
use mono_graph::{Graph, Limit, Part, enabled_edges};
use mono_paths::{Measure, Target, WalkFinder};
use mono_problem::{Predicate, Problem};
use mono_trees::TreeFinder;
use std::alloc::{AllocError, Global};

/// The part of a problem's graph that an assignment enables, with room for searches.
pub(crate) struct EnabledPart {
    /// The place of the graph.
    pub graph: u32,
    part: Part,
    walks: WalkFinder,
    flows: FlowFinder,
    trees: TreeFinder,
    cycles: CycleFinder,
    /// Whether the part holds no cycle, once that was asked.
    acyclic: Option<bool>,
}

impl Drop for EnabledPart {
    fn drop(self) {
        let EnabledPart {
            graph: _,
            part: _,
            walks: _,
            flows: _,
            trees: _,
            cycles: _,
            acyclic: _,
        } = self;
    }
}

impl EnabledPart {
    /// The part of the graph at a place, where variable x has the value `model[x - 1]`.
    pub(crate) fn new(
        alloc: Global,
        problem: &Problem,
        model: &[bool],
        place: u32,
    ) -> Result<EnabledPart, AllocError>
        requires model { length model.now ≡ problem.now.vars }
        requires place { place < length problem.now.graphs }
        ensures { IfOk result (IsPartAt problem.now (value_in model.now) place) }
    {
        problem.known();
        let graph = problem.graph(place);
        let nodes = graph.nodes();
        // The greatest last, since each is dropped where a later one finds no memory.
        Ok(EnabledPart {
            graph: place,
            part: enabled_edges(alloc, graph, model)?,
            trees: TreeFinder::new(alloc, nodes)?,
            cycles: CycleFinder::new(alloc, nodes)?,
            walks: WalkFinder::new(alloc, nodes)?,
            flows: FlowFinder::new(alloc, nodes)?,
            acyclic: None,
        })
    }

    /// Whether no walk of one edge or more in the part leads from a node to itself. One search answers all predicates that ask
    /// this of the graph.
    fn has_no_cycle(&mut self, graph: &Graph) -> Result<bool, AllocError>
        requires { FitsGraph graph.now self.old }
        ensures holds { IfOk result (λ yes. IsTrue yes ↔ Holds graph.now self.old.part kind.Acyclic) }
        ensures graph { self.new.graph ≡ self.old.graph }
        ensures part { self.new.part ≡ self.old.part }
        ensures fits { FitsGraph graph.now self.new }
    {
        if let Some(known) = self.acyclic {
            return Ok(known);
        }
        let acyclic = is_acyclic(&mut self.cycles, graph, &self.part)?;
        self.acyclic = Some(acyclic);
        Ok(acyclic)
    }

    /// Whether a predicate over the graph holds in the part.
    pub(crate) fn holds(
        &mut self,
        alloc: Global,
        graph: &Graph,
        predicate: Predicate,
    ) -> Result<bool, AllocError>
        requires over { IsOver graph.now predicate }
        requires fits { FitsGraph graph.now self.old }
        ensures holds { IfOk result (λ yes. IsTrue yes ↔ Holds graph.now self.old.part predicate) }
        ensures graph { self.new.graph ≡ self.old.graph }
        ensures part { self.new.part ≡ self.old.part }
        ensures fits { FitsGraph graph.now self.new }
    {
        let part = &self.part;
        match predicate {
            Predicate::Reach { from, to } => reaches(&mut self.walks, graph, part, from, to),
            Predicate::Steps { from, to, most } => {
                reaches_within(&mut self.walks, graph, part, from, to, Limit::Steps(most))
            }
            Predicate::Distance { from, to, most } => {
                reaches_within(&mut self.walks, graph, part, from, to, Limit::Weight(most))
            }
            Predicate::Flow {
                source,
                sink,
                least,
            } => carries(alloc, &mut self.flows, graph, part, source, sink, least),
            Predicate::Tree { most } => spans(&mut self.trees, graph, part, most),
            Predicate::Acyclic => self.has_no_cycle(graph),
        }
    }

    /// Which of the targets a walk of the part from a node leads to, each within its own bound: one answer for each.
    pub(crate) fn which_are_reached(
        &mut self,
        graph: &Graph,
        from: u32,
        measure: Measure,
        targets: &[Target],
    ) -> Result<Vec<bool>, AllocError>
        requires from { from < graph.now.nodes }
        requires targets { All (IsTarget graph.now) targets.now }
        requires fits { FitsGraph graph.now self.old }
        ensures answers { IfOk result (λ answers. AreAnswers graph.now self.old.part measure from targets.now answers.items) }
        ensures graph { self.new.graph ≡ self.old.graph }
        ensures part { self.new.part ≡ self.old.part }
        ensures fits { FitsGraph graph.now self.new }
    {
        self.walks
            .which_are_reached(graph, &self.part, from, measure, targets)
    }
}
