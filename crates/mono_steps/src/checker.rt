//! Whether steps are justified.
//!
//! One checker serves all steps of an answer. What it keeps between two steps is room: a set of literals, two parts and
//! some marks for each graph, a list of places. Each step clears what the step before left, so a chain costs its own
//! literals and numbers and the literals of the clauses that it names, and a lemma its own literals and lists, what the
//! variables of its clause switch, and the edges at the nodes that it names.

ghost use Rattle.std.specs.Prelude.{◌≡◌, ◌<◌, ◌≤◌, ◌++◌, ◌∷◌, [], ℕ, All, IfOk, IsTrue, not, length, map};
ghost use Rattle.mono_base.specs.Literal.{IsLitWithin};
ghost use Rattle.mono_problem.specs.Instance.{graph_at};
ghost use Rattle.mono_steps.specs.declared.fault.StepFault.TheVariants as fault;
ghost use Rattle.mono_steps.specs.Chains.{chain_end};
ghost use Rattle.mono_steps.specs.ChainSteps.{chain_fault, clauses_named, names_clauses as are_clauses};
ghost use Rattle.mono_steps.specs.Checkers.{problem_size, size_of};
ghost use Rattle.mono_steps.specs.Current.{HasCome};
ghost use Rattle.mono_steps.specs.Faults.{first_failed};
ghost use Rattle.mono_steps.specs.Placing.{IsTestable};
ghost use Rattle.mono_steps.specs.Steps.{step_fault};
ghost use Rattle.mono_steps.specs.Switching.{literal_of};
ghost use Rattle.mono_steps.specs.Witnesses.{easiest_part, lemma_fault, passes, shows_clause};

use crate::graph_checker::GraphChecker;
use crate::numbered::{atom_at, clause_at, names_clauses, names_vars};
use crate::placing::PlacedEdges;
use crate::resolving::{fill, is_within, resolve};
use crate::serving::{is_positive, serves};
use crate::{Chain, Clause, Lemma, Step, StepFault, Witness};
use mono_base::limits::MAX_VARS;
use mono_base::{Lit, LitSet};
use mono_problem::{Atom, Problem};
use std::alloc::{AllocError, Global};
use std::marker::Model;

/// Checks steps over one problem, or another of the same size: as many variables, and graphs with as many nodes and edges.
/// Contracts see the size.
pub struct StepChecker {
    set: LitSet,
    graphs: Vec<GraphChecker>,
    placed: PlacedEdges,
}

impl Drop for StepChecker {
    fn drop(self) {
        let StepChecker {
            set: _,
            graphs: _,
            placed: _,
        } = self;
    }
}

impl Model for StepChecker {
    ghost use Rattle.mono_steps.specs.Checkers.{ProblemSize};

    ghost Value = { ProblemSize };

    ghost view = { λ c. record { vars = c.set.vars; graphs = c.graphs.items } };
}

/// A checker for each graph.
fn graph_checkers(alloc: Global, problem: &Problem) -> Result<Vec<GraphChecker>, AllocError>
    ensures { IfOk result (λ checkers. checkers.items ≡ map (λ g. size_of g.1) problem.now.graphs) }
{
    let mut checkers = Vec::new(alloc);
    for place in 0..problem.graph_count() {
        checkers.push(GraphChecker::new(alloc, problem.graph(place))?)?;
    }
    Ok(checkers)
}

/// Makes the set the end of the chain that names these clauses, and answers whether there is one.
fn come_to_end(set: &mut LitSet, problem: &Problem, earlier: &[Clause], used: &[u64]) -> bool
    requires vars { set.old.vars ≡ problem.now.vars }
    requires known { All (All (IsLitWithin problem.now.vars)) earlier.now }
    requires named { IsTrue (are_clauses (problem.now.clauses ++ earlier.now) used.now) }
    ensures vars { set.new.vars ≡ set.old.vars }
    ensures come { HasCome (chain_end (clauses_named (problem.now.clauses ++ earlier.now) used.now)) result set.new.members }
{
    set.clear();
    let mut has_come = false;
    for number in used {
        let next = clause_at(problem, earlier, *number);
        if !has_come {
            fill(set, next);
            has_come = true;
        } else if !resolve(set, next) {
            return false;
        }
    }
    has_come
}

/// What is wrong with a lemma whose word serves its predicate, and that names nothing unknown.
fn fault_in_graph(
    graphs: &mut Vec<GraphChecker>,
    problem: &Problem,
    atom: Atom,
    set: &LitSet,
    witness: &Witness,
    placed: &PlacedEdges,
) -> Result<Option<StepFault>, AllocError>
    requires sizes { graphs.old.items ≡ map (λ g. size_of g.1) problem.now.graphs }
    requires vars { set.now.vars ≡ problem.now.vars }
    requires graph { atom.graph < length problem.now.graphs }
    requires low { 0 < atom.var }
    requires high { atom.var ≤ problem.now.vars }
    requires testable { IsTestable (graph_at problem.now atom.graph) atom.predicate witness.now placed.now }
    ensures fault { IfOk result (λ f. f ≡ first_failed
        ((
          not (passes (graph_at problem.now atom.graph)
              (easiest_part (graph_at problem.now atom.graph) witness.now) atom.predicate witness.now),
          fault.WitnessFails,
        )
        ∷ (not (shows_clause (graph_at problem.now atom.graph) atom set.now.members witness.now), fault.MissingLiteral) ∷ [])) }
    ensures kept { graphs.new.items ≡ graphs.old.items }
{
    problem.known();
    let has_own = set.has(Lit::of(atom.var, is_positive(witness)));
    let lits = set.members();
    graphs[atom.graph as usize].fault(problem, atom, lits, has_own, witness, placed)
}

impl StepChecker {
    /// A checker for this problem.
    pub fn new(alloc: Global, problem: &Problem) -> Result<StepChecker, AllocError>
        ensures { IfOk result (λ checker. checker ≡ problem_size problem.now) }
    {
        let set = LitSet::new(alloc, problem.vars())?;
        let graphs = graph_checkers(alloc, problem)?;
        Ok(StepChecker {
            set,
            graphs,
            placed: PlacedEdges::new(alloc),
        })
    }

    /// The first fault of a chain after the problem's clauses and these: `None` exactly where the chain is justified.
    ///
    /// `UnknownNumber`: a literal's variable is beyond the problem's, or a number isn't that of a clause. `ChainStuck`:
    /// at some step not exactly one variable clashes, or no clause is named. `NotCovered`: the chain's clause doesn't
    /// contain its end. It takes no memory.
    pub fn chain_fault(
        &mut self,
        problem: &Problem,
        earlier: &[Clause],
        chain: &Chain,
    ) -> Option<StepFault>
        requires size { self.old ≡ problem_size problem.now }
        requires known { All (All (IsLitWithin problem.now.vars)) earlier.now }
        ensures fault { result ≡ chain_fault problem.now (problem.now.clauses ++ earlier.now) chain.now }
        ensures kept { self.new ≡ self.old }
    {
        let lits = chain.clause.lits();
        let used = chain.used.as_slice();
        if !names_vars(problem, lits) || !names_clauses(problem, earlier, used) {
            return Some(StepFault::UnknownNumber);
        }
        if !come_to_end(&mut self.set, problem, earlier, used) {
            return Some(StepFault::ChainStuck);
        }
        if !is_within(&mut self.set, lits) {
            return Some(StepFault::NotCovered);
        }
        None
    }

    /// The first fault of a lemma. Where its labels and amounts are at most 2^60, `None` exactly where it is justified.
    ///
    /// `UnknownAtom`: no predicate has its number. `WrongKind`: its witness is not one for that kind of predicate.
    /// `UnknownNumber`: a literal's variable is beyond the problem's, or the predicate's graph has no such node or edge.
    /// `WitnessFails`: the witness passes its test over no part of the graph. `MissingLiteral`: it passes, and the clause
    /// lacks a literal that it calls for.
    pub fn lemma_fault(
        &mut self,
        problem: &Problem,
        lemma: &Lemma,
    ) -> Result<Option<StepFault>, AllocError>
        requires size { self.old ≡ problem_size problem.now }
        ensures fault { IfOk result (λ f. f ≡ lemma_fault problem.now lemma.now) }
        ensures kept { self.new ≡ self.old }
    {
        let Some(atom) = atom_at(problem, lemma.atom) else {
            return Ok(Some(StepFault::UnknownAtom));
        };
        if !serves(&lemma.witness, atom.predicate) {
            return Ok(Some(StepFault::WrongKind));
        }
        let lits = lemma.clause.lits();
        let graph = problem.graph(atom.graph);
        if !names_vars(problem, lits) || !self.placed.place(graph, &lemma.witness)? {
            return Ok(Some(StepFault::UnknownNumber));
        }
        self.set.clear();
        fill(&mut self.set, lits);
        let witness = &lemma.witness;
        fault_in_graph(
            &mut self.graphs,
            problem,
            atom,
            &self.set,
            witness,
            &self.placed,
        )
    }

    /// The first fault of a step after the problem's clauses and these, whose literals are over the problem's variables.
    /// Where the step's labels and amounts are at most 2^60, `None` exactly where it is justified.
    pub fn fault(
        &mut self,
        problem: &Problem,
        earlier: &[Clause],
        step: &Step,
    ) -> Result<Option<StepFault>, AllocError>
        requires size { self.old ≡ problem_size problem.now }
        requires known { All (All (IsLitWithin problem.now.vars)) earlier.now }
        ensures fault { IfOk result (λ f. f ≡ step_fault problem.now (problem.now.clauses ++ earlier.now) step.now) }
        ensures kept { self.new ≡ self.old }
    {
        match step {
            Step::Lemma(lemma) => self.lemma_fault(problem, lemma),
            Step::Chain(chain) => Ok(self.chain_fault(problem, earlier, chain)),
        }
    }
}
