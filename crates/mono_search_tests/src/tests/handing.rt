//! A theory of one's own, which hands each call on to another, is searched over like any other.
//!
//! It gives no list of its variables and prefers no value: the search asks it of each variable.

ghost use Rattle.std.specs.Prelude.{◌≡◌, length, IsTrue};
ghost use Rattle.mono_problem.specs.Read.{atom_numbered};
ghost use Rattle.mono_flow.specs.Flowing.{is_flow_predicate};

use super::assert_same;
use mono_base::Lit;
use mono_flow::FlowTheory;
use mono_gnf::read_gnf;
use mono_problem::{Predicate, Problem};
use mono_search::{Outcome, Search};
use mono_steps::Lemma;
use mono_theory::{Finding, Force, Theory};
use std::alloc::{AllocError, Global};
use std::process::Abort;
use std::test::Fail;

/// Predicates on flows behind a type of one's own.
#[derive(Drop)]
struct Wrapped {
    theory: FlowTheory,
}

impl Theory for Wrapped {
    ghost graph = { λ w. w.theory.graph };

    ghost atoms = { λ w. w.theory.atoms };

    ghost seen = { λ w. w.theory.seen };

    fn concerns(&self, var: u32) -> bool {
        self.theory.concerns(var)
    }

    fn seen(&self) -> usize {
        self.theory.seen()
    }

    fn owns(&self, atom: u32) -> bool {
        self.theory.owns(atom)
    }

    fn assign(&mut self, lit: Lit) {
        self.theory.assign(lit)
    }

    fn undo_to(&mut self, kept: usize) {
        self.theory.undo_to(kept)
    }

    fn force(&mut self) -> Result<Force, AllocError> {
        self.theory.force()
    }

    fn explain(&mut self, atom: u32, lit: Lit, kept: usize) -> Result<Lemma, AllocError> {
        self.theory.explain(atom, lit, kept)
    }

    fn propagate(&mut self) -> Result<Finding, AllocError> {
        self.theory.propagate()
    }
}

/// Whether the problem has one predicate, on a flow over its first graph.
fn asks_for_one_flow(problem: &Problem) -> bool
    ensures one { IsTrue result → length problem.now.atoms ≡ 1 }
    ensures graph { IsTrue result → (atom_numbered problem.now 1).graph ≡ 0 }
    ensures flow { IsTrue result → IsTrue (is_flow_predicate (atom_numbered problem.now 1).predicate) }
{
    if problem.atom_count() != 1 {
        return false;
    }
    let atom = problem.atom(1);
    match atom.predicate {
        Predicate::Flow { .. } => atom.graph == 0,
        _ => false,
    }
}

/// Whether a search with a budget of a hundred clauses finds a model, or that there is none.
fn found_by(search: &mut Search<'_, Wrapped>) -> Result<Option<bool>, AllocError> {
    if !search.is_live() {
        return Ok(None);
    }
    match search.run(100)? {
        Outcome::Sat(_) => Ok(Some(true)),
        Outcome::Unsat => Ok(Some(false)),
        Outcome::Unknown => Ok(None),
    }
}

/// What a search over the problem with one wrapped theory finds.
fn found_over_one(alloc: Global, problem: &Problem) -> Result<Option<bool>, AllocError>
    requires one { length problem.now.atoms ≡ 1 }
    requires graph { (atom_numbered problem.now 1).graph ≡ 0 }
    requires flow { IsTrue (is_flow_predicate (atom_numbered problem.now 1).predicate) }
{
    problem.known();
    let theory = FlowTheory::new(alloc, problem, 0, &[1])?;
    let mut theories = Vec::new(alloc);
    theories.push(Wrapped { theory })?;
    let mut search = Search::new(alloc, problem, theories)?;
    found_by(&mut search)
}

/// Whether the problem has a model; nothing where its predicates aren't one on a flow over its first graph.
fn is_satisfiable(alloc: Global, problem: &Problem) -> Result<Option<bool>, AllocError> {
    if !asks_for_one_flow(problem) {
        return Ok(None);
    }
    found_over_one(alloc, problem)
}

/// The graph has two edges, of variables 1 and 2, one behind the other. Variable 3 says that 1 flows along them.
#[test]
fn a_wrapped_theory_is_searched(rt: HostRuntime) -> Result<(), Fail> {
    for (input, satisfiable) in [
        (
            "digraph int 3 2 0\nedge 0 0 1 1\nedge 0 1 2 2\nmaximum_flow_geq 0 0 2 3 1\n1 0\n2 0\n",
            true,
        ),
        (
            "digraph int 3 2 0\nedge 0 0 1 1\nedge 0 1 2 2\nmaximum_flow_geq 0 0 2 3 1\n3 0\n",
            true,
        ),
        (
            "digraph int 3 2 0\nedge 0 0 1 1\nedge 0 1 2 2\nmaximum_flow_geq 0 0 2 3 1\n1 0\n2 0\n-3 0\n",
            false,
        ),
        (
            "digraph int 3 2 0\nedge 0 0 1 1\nedge 0 1 2 2\nmaximum_flow_geq 0 0 2 3 1\n-1 0\n3 0\n",
            false,
        ),
    ] {
        let problem = read_gnf(rt.alloc(), input.as_bytes())?;
        let found = is_satisfiable(rt.alloc(), &problem)?;
        assert_same(&rt, found, Some(satisfiable));
    }
    Ok(())
}
