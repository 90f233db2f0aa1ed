//! What a theory of flows keeps of an edge.

ghost use Rattle.std.specs.Prelude.{◌≡◌, MatchOption};
ghost use Rattle.mono_graph.specs.Flows.{amount_at};
ghost use Rattle.mono_flow.specs.KeptFlows.{amounts_in};

use crate::flow::Flow;
use mono_graph::Amount;
use mono_steps::Witness;
use mono_theory::GraphTheory;

/// What a theory keeps of an edge, for one of its atoms. Over all places each of the two is a flow from the atom's source to
/// its sink.
#[derive(Clone, Copy, Debug, PartialEq, Eq)]
pub struct Flows {
    /// What the edge carries in a flow along the surely present edges.
    pub under: u64,
    /// What it carries in a flow along the possibly present ones.
    pub over: u64,
}

/// A theory that keeps flows.
///
/// `assign` changes no `under`, and an `over` only where the kept flow gives something to an edge that the literal takes away.
/// `undo_to` changes no `over`, and `explain` changes neither. After a `force` or `propagate` that answered Quiet, an atom's
/// predicate holds with the surely (possibly) present edges exactly where the value of its flow along them is at least the
/// bound.
pub trait HasFlows {
    ghost use Rattle.std.specs.Prelude.{◌≡◌, ◌<◌, ℕ, length, IsSome, MatchOption};
    ghost use Rattle.mono_problem.specs.Quiet.{under, over};
    ghost use Rattle.mono_theory.specs.Theories.{Facts, atom_of};
    ghost use Rattle.mono_flow.specs.KeptFlows.{IsDecidedBy, IsFlowFor};
    ghost use Rattle.mono_flow.specs.declared.flows.Flows.{Flows};

    /// The graph, the atoms and the literals seen.
    ghost facts: { Self → Facts };
    /// What is kept of the edge at a place, for the atom of a number.
    ghost flows_of: { Self → ℕ → ℕ → Flows };
    /// What is kept decides each predicate.
    ghost is_decided: { Self → Type 0 };

    /// What is kept of the edge at the place, for the theory's atom of this number. It asks for no search.
    fn flows(&self, atom: u32, place: u32) -> Flows
        requires owned { IsSome (atom_of (facts self.now).atoms atom) }
        requires place { place < length (facts self.now).graph.edges }
        ensures value { result ≡ flows_of self.now atom place }
        ensures under { MatchOption (atom_of (facts self.now).atoms atom) ⊥
            (λ x. IsFlowFor (facts self.now).graph (under (facts self.now).graph (facts self.now).seen) x.predicate
            (λ k. (flows_of self.now atom k).under)) }
        ensures over { MatchOption (atom_of (facts self.now).atoms atom) ⊥
            (λ x. IsFlowFor (facts self.now).graph (over (facts self.now).graph (facts self.now).seen) x.predicate
            (λ k. (flows_of self.now atom k).over)) }
        ensures decided_under { is_decided self.now
            → MatchOption (atom_of (facts self.now).atoms atom) ⊥
            (λ x. IsDecidedBy (facts self.now).graph (under (facts self.now).graph (facts self.now).seen) x.predicate
            (λ k. (flows_of self.now atom k).under)) }
        ensures decided_over { is_decided self.now
            → MatchOption (atom_of (facts self.now).atoms atom) ⊥
            (λ x. IsDecidedBy (facts self.now).graph (over (facts self.now).graph (facts self.now).seen) x.predicate
            (λ k. (flows_of self.now atom k).over)) };
}

/// The amount of the edge with this number.
fn amount_of(amounts: &[Amount], number: u32) -> u64
    ensures { result ≡ amount_at amounts.now number }
{
    for amount in amounts {
        if amount.edge == number {
            return amount.amount;
        }
    }
    0
}

/// What a flow gives to the edge with this number, and another witness doesn't.
fn amount_in(witness: Option<&Witness>, number: u32) -> u64
    ensures { MatchOption witness.entry (result ≡ 0) (λ w. result ≡ amount_at (amounts_in w.now) number) }
{
    match witness {
        Some(Witness::Flow(amounts)) => amount_of(amounts.as_slice(), number),
        _ => 0,
    }
}

impl HasFlows for GraphTheory<Flow> {
    ghost use Rattle.mono_theory.specs.Supports.{facts_in};
    ghost use Rattle.mono_flow.specs.KeptFlows.{AreBothDecided, flows_in};

    ghost facts = { facts_in };

    ghost flows_of = { flows_in };

    ghost is_decided = { AreBothDecided };

    fn flows(&self, atom: u32, place: u32) -> Flows {
        let frame = self.frame();
        let at = frame.place_of(atom);
        let edge = frame.graph().edge(place);
        let shown = self.surely().shown_witness(at);
        let support = self.possibly().support_witness(at);
        Flows {
            under: amount_in(shown, edge.number),
            over: amount_in(support, edge.number),
        }
    }
}
