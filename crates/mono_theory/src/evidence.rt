//! What shows that a predicate holds or fails, and the lemma that it makes of an atom.
//!
//! A witness has a sign, what it shows of the predicate, and rests on edges of one value, present or absent. For most
//! predicates what rests on present edges shows that they hold; for those that fall as edges come it shows that they fail.

ghost use Rattle.std.specs.Prelude.{◌≡◌, ◌<◌, ◌∷◌, map, length, IfOk, All};
ghost use Rattle.mono_graph.specs.Digraph.{edge_at};
ghost use Rattle.mono_steps.specs.Switching.{literal_of};
ghost use Rattle.mono_steps.specs.Witnesses.{is_positive as is_positive_witness, rests_on_present as rests_on_present_witness};
ghost use Rattle.mono_theory.specs.Evidences.{lemma_by, lighter, shown_by as shown_by_of};
ghost use Rattle.mono_theory.specs.Frames.{IsVar};

use mono_base::{Lit, Row};
use mono_graph::Graph;
use mono_problem::{Atom, Predicate};
use mono_steps::{Clause, Lemma, Witness};
use std::alloc::{AllocError, Global};

/// A witness for or against a predicate, and the places of the edges on which it rests: they all have to be present, or they
/// all have to be absent, as its word says.
#[derive(Drop)]
pub struct Evidence {
    pub witness: Witness,
    pub edges: Row<u32>,
}

/// Whether the witness shows that its predicate holds.
pub(crate) fn is_positive(witness: &Witness) -> bool
    ensures { result ≡ is_positive_witness witness.now }
{
    matches!(
        witness,
        Witness::Path(_) | Witness::Flow(_) | Witness::Tree(_) | Witness::Order(_)
    )
}

/// Whether the witness rests on edges that are present.
pub(crate) fn rests_on_present(witness: &Witness) -> bool
    ensures { result ≡ rests_on_present_witness witness.now }
{
    matches!(
        witness,
        Witness::Path(_) | Witness::Flow(_) | Witness::Tree(_) | Witness::Cycle(_)
    )
}

/// Whether evidence that rests on present edges, where the value is true, or else on absent ones shows that the predicate
/// holds. Also the other way round: whether evidence that the predicate holds, or else that it fails, rests on present edges.
pub fn shown_by(predicate: Predicate, value: bool) -> bool
    ensures { result ≡ shown_by_of predicate value }
{
    match predicate {
        Predicate::Acyclic => !value,
        _ => value,
    }
}

impl Evidence {
    /// Equal evidence.
    pub(crate) fn copy(&self, alloc: Global) -> Result<Evidence, AllocError>
        ensures { IfOk result (λ copy. copy ≡ self.now) }
    {
        let witness = self.witness.copy(alloc)?;
        let edges = Vec::from_slice(alloc, self.edges.as_slice())?;
        Ok(Evidence {
            witness,
            edges: Row::from_vec(edges),
        })
    }

    /// This, or the other, where that is there and rests on fewer edges.
    pub fn or_lighter(self, other: Option<Evidence>) -> Evidence
        ensures { result ≡ lighter self other }
    {
        match other {
            None => self,
            Some(other) => if other.edges.as_slice().len() < self.edges.as_slice().len() {
                other
            } else {
                self
            },
        }
    }
}

/// The literal that says that the variable has the value.
pub fn literal(var: u32, value: bool) -> Lit
    requires { IsVar var }
    ensures { result ≡ literal_of value var }
{
    Lit::of(var, value)
}

/// The literal that says that the edge is present or absent.
fn edge_literal(graph: &Graph, place: u32, value: bool) -> Lit
    requires place { place < length graph.now.edges }
    ensures { result ≡ literal_of value (edge_at graph.now place).var }
{
    let edge = graph.edge(place);
    literal(edge.var, value)
}

/// The clause of a literal and of those of the edges.
fn clause_of(
    alloc: Global,
    graph: &Graph,
    head: Lit,
    places: &[u32],
    value: bool,
) -> Result<Clause, AllocError>
    requires places { All (λ k. k < length graph.now.edges) places.now }
    ensures { IfOk result (λ clause. clause ≡ head ∷ map (λ k. literal_of value (edge_at graph.now k).var) places.now) }
{
    let mut lits = vec![in alloc; head]?;
    for place in places {
        let lit = edge_literal(graph, *place, value);
        lits.push(lit)?;
    }
    Clause::from_lits(alloc, lits.as_slice())
}

/// The lemma that the evidence makes of the atom.
pub(crate) fn lemma_of(
    alloc: Global,
    graph: &Graph,
    atom: Atom,
    evidence: Evidence,
) -> Result<Lemma, AllocError>
    requires var { IsVar atom.var }
    requires places { All (λ k. k < length graph.now.edges) evidence.edges }
    ensures { IfOk result (λ m. m ≡ lemma_by graph.now atom evidence) }
{
    let head = literal(atom.var, is_positive(&evidence.witness));
    let value = rests_on_present(&evidence.witness);
    let clause = clause_of(alloc, graph, head, evidence.edges.as_slice(), !value)?;
    Ok(Lemma {
        atom: atom.number,
        clause,
        witness: evidence.witness,
    })
}
