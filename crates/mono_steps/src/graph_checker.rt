//! What is wrong with a lemma about one graph, once all that it names is known.
//!
//! Two parts are kept: one that has no edge, and one that has each. For a lemma one of them is changed at the edges of
//! the clause's variables, and changed back. So a lemma costs its own literals and lists and what they name.

ghost use Rattle.std.specs.Prelude.{◌≡◌, ◌<◌, ◌∷◌, [], ℕ, IfOk, not, length};
ghost use Rattle.mono_base.specs.Literal.{has_lit};
ghost use Rattle.mono_graph.specs.Digraph.{IsPartOf, present};
ghost use Rattle.mono_problem.specs.Instance.{graph_at};
ghost use Rattle.mono_steps.specs.declared.fault.StepFault.TheVariants as fault;
ghost use Rattle.mono_steps.specs.Faults.{first_failed};
ghost use Rattle.mono_steps.specs.Witnesses.{easiest_part, rests_on_present as rests_on_present_word, part_for, passes, predicate_literal, shows_clause};
ghost use Rattle.mono_steps.specs.Checkers.{size_of};
ghost use Rattle.mono_steps.specs.Placing.{IsTestable};

use crate::placing::PlacedEdges;
use crate::serving::rests_on_present;
use crate::switching::switch_edges;
use crate::witness_checker::WitnessChecker;
use crate::{StepFault, Witness};
use mono_base::Lit;
use mono_graph::{Graph, Part};
use mono_problem::{Atom, Predicate, Problem};
use std::alloc::{AllocError, Global};
use std::marker::Model;

/// Tests lemmas about one graph. Contracts see how many nodes and edges it has.
pub(crate) struct GraphChecker {
    /// Between two lemmas it has no edge.
    none: Part,
    /// Between two lemmas it has each edge.
    all: Part,
    tests: WitnessChecker,
}

impl Drop for GraphChecker {
    fn drop(self) {
        let GraphChecker {
            none: _,
            all: _,
            tests: _,
        } = self;
    }
}

impl Model for GraphChecker {
    ghost use Rattle.mono_steps.specs.Checkers.{GraphSize, AreReset};

    ghost Value = { GraphSize };

    ghost view = { λ c. c.tests };

    ghost invariant = { λ c. AreReset c.tests.edges c.none c.all };
}

/// Whether the witness passes over the part that the clause leaves it. The part is that without any edge where the word
/// rests on present edges, and else that with each edge; it is changed for the test, and changed back.
fn passes_over_clause(
    tests: &mut WitnessChecker,
    part: &mut Part,
    problem: &Problem,
    atom: Atom,
    lits: &[Lit],
    witness: &Witness,
    placed: &PlacedEdges,
    on_present: bool,
) -> Result<bool, AllocError>
    requires rests { on_present ≡ rests_on_present_word witness.now }
    requires graph { atom.graph < length problem.now.graphs }
    requires tests { tests.old ≡ size_of (graph_at problem.now atom.graph) }
    requires part { IsPartOf part.old (graph_at problem.now atom.graph) }
    requires reset { (k : ℕ) → k < length (graph_at problem.now atom.graph).edges → present part.old k ≡ not on_present }
    requires testable { IsTestable (graph_at problem.now atom.graph) atom.predicate witness.now placed.now }
    ensures passes { IfOk result (λ b. b ≡ passes (graph_at problem.now atom.graph)
        (part_for lits.now (graph_at problem.now atom.graph) witness.now) atom.predicate witness.now) }
    ensures tests { tests.new ≡ tests.old }
    ensures part { IsPartOf part.new (graph_at problem.now atom.graph) }
    ensures reset { (k : ℕ) → k < length (graph_at problem.now atom.graph).edges → present part.new k ≡ not on_present }
{
    switch_edges(part, problem, atom.graph, lits, !on_present, on_present);
    let graph = problem.graph(atom.graph);
    let passes = tests.passes(graph, part, atom.predicate, witness, placed);
    switch_edges(part, problem, atom.graph, lits, !on_present, !on_present);
    passes
}

impl GraphChecker {
    /// A checker for this graph.
    pub(crate) fn new(alloc: Global, graph: &Graph) -> Result<GraphChecker, AllocError>
        ensures { IfOk result (λ checker. checker ≡ size_of graph.now) }
    {
        let none = Part::none(alloc, graph.edge_count())?;
        let all = Part::all(alloc, graph.edge_count())?;
        let tests = WitnessChecker::new(alloc, graph)?;
        Ok(GraphChecker { none, all, tests })
    }

    /// Whether the witness passes over the part that the clause leaves it.
    fn passes_by_clause(
        &mut self,
        problem: &Problem,
        atom: Atom,
        lits: &[Lit],
        witness: &Witness,
        placed: &PlacedEdges,
    ) -> Result<bool, AllocError>
        requires graph { atom.graph < length problem.now.graphs }
        requires size { self.old ≡ size_of (graph_at problem.now atom.graph) }
        requires testable { IsTestable (graph_at problem.now atom.graph) atom.predicate witness.now placed.now }
        ensures passes { IfOk result (λ b. b
            ≡ passes (graph_at problem.now atom.graph) (part_for lits.now (graph_at problem.now atom.graph) witness.now) atom.predicate witness.now) }
        ensures kept { self.new ≡ self.old }
    {
        let tests = &mut self.tests;
        if rests_on_present(witness) {
            passes_over_clause(
                tests,
                &mut self.none,
                problem,
                atom,
                lits,
                witness,
                placed,
                true,
            )
        } else {
            passes_over_clause(
                tests,
                &mut self.all,
                problem,
                atom,
                lits,
                witness,
                placed,
                false,
            )
        }
    }

    /// Whether the witness passes over any part: with each edge where the word rests on present edges, else with none.
    fn can_pass(
        &mut self,
        graph: &Graph,
        predicate: Predicate,
        witness: &Witness,
        placed: &PlacedEdges,
    ) -> Result<bool, AllocError>
        requires size { self.old ≡ size_of graph.now }
        requires testable { IsTestable graph.now predicate witness.now placed.now }
        ensures passes { IfOk result (λ b. b ≡ passes graph.now (easiest_part graph.now witness.now) predicate witness.now) }
        ensures kept { self.new ≡ self.old }
    {
        if rests_on_present(witness) {
            self.tests
                .passes(graph, &self.all, predicate, witness, placed)
        } else {
            self.tests
                .passes(graph, &self.none, predicate, witness, placed)
        }
    }

    /// What is wrong with a lemma whose word serves its predicate, and that names nothing unknown. `has_own` says whether
    /// the clause has the literal of the predicate's variable that it needs.
    ///
    /// The part that the clause leaves comes first: where the witness passes over that, it can pass.
    pub(crate) fn fault(
        &mut self,
        problem: &Problem,
        atom: Atom,
        lits: &[Lit],
        has_own: bool,
        witness: &Witness,
        placed: &PlacedEdges,
    ) -> Result<Option<StepFault>, AllocError>
        requires graph { atom.graph < length problem.now.graphs }
        requires size { self.old ≡ size_of (graph_at problem.now atom.graph) }
        requires testable { IsTestable (graph_at problem.now atom.graph) atom.predicate witness.now placed.now }
        requires own { has_own ≡ has_lit lits.now (predicate_literal atom witness.now) }
        ensures fault { IfOk result (λ f. f ≡ first_failed
            ((
              not (passes (graph_at problem.now atom.graph)
                  (easiest_part (graph_at problem.now atom.graph) witness.now) atom.predicate witness.now),
              fault.WitnessFails,
            )
            ∷ (not (shows_clause (graph_at problem.now atom.graph) atom lits.now witness.now), fault.MissingLiteral) ∷ [])) }
        ensures kept { self.new ≡ self.old }
    {
        if self.passes_by_clause(problem, atom, lits, witness, placed)? {
            return if has_own {
                Ok(None)
            } else {
                Ok(Some(StepFault::MissingLiteral))
            };
        }
        let graph = problem.graph(atom.graph);
        if self.can_pass(graph, atom.predicate, witness, placed)? {
            Ok(Some(StepFault::MissingLiteral))
        } else {
            Ok(Some(StepFault::WitnessFails))
        }
    }
}
