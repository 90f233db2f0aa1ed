//! Open edges that would break an atom.

ghost use Rattle.std.specs.Prelude.{IfOk, false};
ghost use Rattle.mono_theory.specs.Theories.{IsUnitLemma};
ghost use Rattle.mono_theory.specs.Threats.{IsThreat};

use crate::evidence::{lemma_of, literal};
use crate::{Evidence, Frame, UnitLemma};
use std::alloc::{AllocError, Global};

/// An open edge that would break an atom, whose variable has a value: once the edge is present, or absent, this evidence shows that
/// the atom's predicate is otherwise.
#[derive(Drop)]
pub struct Threat {
    /// The place of the atom.
    pub atom: u32,
    /// The place of the edge.
    pub edge: u32,
    pub evidence: Evidence,
}

/// The lemma of the evidence of an edge that would break an atom if it were present: so it is absent.
pub(crate) fn unit_lemma_of(
    alloc: Global,
    frame: &Frame,
    threat: Threat,
) -> Result<UnitLemma, AllocError>
    requires { IsThreat frame.now false threat }
    ensures { IfOk result (λ u. IsUnitLemma frame.now.graph frame.now.atoms frame.now.seen u.lit u.lemma) }
{
    let Threat {
        atom,
        edge,
        evidence,
    } = threat;
    let owner = frame.atom_at(atom as usize);
    let graph = frame.graph();
    let lit = literal(graph.edge(edge).var, false);
    let lemma = lemma_of(alloc, graph, owner, evidence)?;
    Ok(UnitLemma { lit, lemma })
}
