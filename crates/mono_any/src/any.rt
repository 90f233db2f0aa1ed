//! A theory of any kind, chosen at run time.

ghost use Rattle.std.specs.Prelude.{◌≡◌};
ghost use Rattle.mono_theory.specs.Owners.{fact_of};
ghost use Rattle.mono_any.specs.Kinds.{graph_of, atoms_of, seen_of};

use mono_acyclic::AcyclicTheory;
use mono_base::Lit;
use mono_distance::DistanceTheory;
use mono_flow::FlowTheory;
use mono_reach::ReachTheory;
use mono_steps::Lemma;
use mono_theory::{Finding, Force, Frame, Theory, UnitLemma};
use mono_tree::TreeTheory;
use std::alloc::AllocError;

/// A theory of any kind.
pub enum AnyTheory {
    /// Predicates of reachability.
    Reach(ReachTheory),
    /// Predicates on walks within a number of edges or a weight.
    Distance(DistanceTheory),
    /// Predicates on flows.
    Flow(FlowTheory),
    /// Predicates on spanning trees.
    Tree(TreeTheory),
    /// Predicates on cycles.
    Acyclic(AcyclicTheory),
}

impl Drop for AnyTheory {
    fn drop(self) {
        match self {
            AnyTheory::Reach(_) => {}
            AnyTheory::Distance(_) => {}
            AnyTheory::Flow(_) => {}
            AnyTheory::Tree(_) => {}
            AnyTheory::Acyclic(_) => {}
        }
    }
}

/// One call of the theory, whatever its kind.
macro_rules! each {
    ($any:expr, $theory:ident => $call:expr) => {
        match $any {
            AnyTheory::Reach($theory) => $call,
            AnyTheory::Distance($theory) => $call,
            AnyTheory::Flow($theory) => $call,
            AnyTheory::Tree($theory) => $call,
            AnyTheory::Acyclic($theory) => $call,
        }
    };
}

impl AnyTheory {
    /// The graph, the atoms and the literals seen.
    fn frame(&self) -> &Frame
        ensures { result.now ≡ fact_of graph_of atoms_of seen_of self.now }
    {
        each!(self, theory => theory.frame())
    }
}

impl Theory for AnyTheory {
    ghost use Rattle.mono_any.specs.Kinds.{graph_of, atoms_of, seen_of};

    ghost graph = { graph_of };

    ghost atoms = { atoms_of };

    ghost seen = { seen_of };

    fn concerns(&self, var: u32) -> bool {
        self.frame().concerns(var)
    }

    fn variables(&self) -> Option<&[u32]> {
        Some(self.frame().variables())
    }

    fn prefers(&self, var: u32) -> bool {
        each!(self, theory => theory.prefers(var))
    }

    fn wanted(&self) -> Option<u32> {
        each!(self, theory => theory.wanted())
    }

    fn seen(&self) -> usize {
        self.frame().seen()
    }

    fn owns(&self, atom: u32) -> bool {
        self.frame().owns(atom)
    }

    fn assign(&mut self, lit: Lit) {
        each!(self, theory => theory.assign(lit))
    }

    fn undo_to(&mut self, kept: usize) {
        each!(self, theory => theory.undo_to(kept))
    }

    fn force(&mut self) -> Result<Force, AllocError> {
        each!(self, theory => theory.force())
    }

    fn unit_lemma(&mut self) -> Result<Option<UnitLemma>, AllocError> {
        each!(self, theory => theory.unit_lemma())
    }

    fn explain(&mut self, atom: u32, lit: Lit, kept: usize) -> Result<Lemma, AllocError> {
        each!(self, theory => theory.explain(atom, lit, kept))
    }

    fn propagate(&mut self) -> Result<Finding, AllocError> {
        each!(self, theory => theory.propagate())
    }
}
