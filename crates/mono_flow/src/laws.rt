//! What follows for the flows that a theory keeps from what its calls say of the evidence of its atoms.

ghost use Rattle.std.specs.Prelude.{◌≡◌, ◌<◌, ◌≤◌, ◌⊎◌, ℕ, ℤ, true, false, length, take, IfOk, IsSome, IsTrue, MatchOption};
ghost use Rattle.mono_base.specs.Literal.{var_of};
ghost use Rattle.mono_base.specs.Partial.{is_open_in};
ghost use Rattle.mono_graph.specs.Digraph.{Digraph, IsGraph};
ghost use Rattle.mono_problem.specs.Quiet.{under, over};
ghost use Rattle.mono_theory.specs.Frames.{AreAtomsOf};
ghost use Rattle.mono_theory.specs.Stages.{NoneWaits};
ghost use Rattle.mono_theory.specs.Supports.{AreCovered, IsKeptBy, IsSide, IsSideFor, SideView, atom_at, facts_in, gone_back};
ghost use Rattle.mono_theory.specs.Theories.{Facts, FindingIs, ForceIs, ForcesBy, atom_of, concerns_of, cut_to, seeing};
ghost use Rattle.mono_flow.specs.Flowing.{is_flow_predicate};
ghost use Rattle.mono_flow.specs.KeptFlows.{GivesToLost, IsDecidedBy, LosesFlow, carried_at, over_flow, under_flow};

use crate::{FlowTheory, Flows, HasFlows};
use mono_base::Lit;
use mono_theory::{Finding, Force, Theory};
use std::alloc::AllocError;

/// Where no atom waits, as after a question that was answered by Quiet, each atom's predicate holds with the surely present
/// edges exactly where the value of its flow along them is at least the bound, and so with the possibly present ones.
pub fn kept_flows_decide()
    ensures under { (f : Facts) (s : SideView) → IsGraph f.graph → AreAtomsOf f.graph f.atoms → IsSideFor f false true s → NoneWaits s.stages
        → (a : ℕ) → a < length f.atoms → IsDecidedBy f.graph (under f.graph f.seen) (atom_at f.atoms a).predicate
        (carried_at f.graph (under_flow s a)) }
    ensures over { (f : Facts) (s : SideView) → IsGraph f.graph → AreAtomsOf f.graph f.atoms → IsSideFor f true true s → NoneWaits s.stages → (a : ℕ)
        → a < length f.atoms → IsDecidedBy f.graph (over f.graph f.seen) (atom_at f.atoms a).predicate (carried_at f.graph (over_flow s a)) }
{}

/// A literal that is seen changes no flow along the surely present edges, and one along the possibly present ones only where
/// that gives something to an edge that the literal takes away. Literals that go change no flow along the possibly present
/// edges.
pub fn kept_flows_stay()
    ensures assign_under { (g : Digraph) (l : ℤ) (s r : SideView) → IsKeptBy g false l s r → (a : ℕ) → under_flow r a ≡ under_flow s a }
    ensures assign_over { (f : Facts) (l : ℤ) (s r : SideView) → AreCovered is_flow_predicate f.atoms → IsSide f true s → IsKeptBy f.graph true l s r
        → (a : ℕ) → a < length f.atoms → (over_flow r a ≡ over_flow s a) ⊎ LosesFlow f.graph l s a }
    ensures undo_over { (kept : ℕ) (s : SideView) (a : ℕ) → over_flow (gone_back kept s) a ≡ over_flow s a }
{}

/// Asks what is forced. Where the answer is Quiet, what is kept decides each predicate, with the surely present edges and with
/// the possibly present ones.
pub fn quiet_decides(theory: &mut FlowTheory) -> Result<Force, AllocError>
    ensures same { facts_in theory.new ≡ facts_in theory.old }
    ensures answer { IfOk result (ForceIs theory.old.graph theory.old.atoms theory.old.seen) }
    ensures decided { IfOk result (λ answer. answer ≡ Force.Quiet → ⟦<FlowTheory as HasFlows>⟧.is_decided theory.new) }
{
    let answer = theory.force()?;
    Ok(answer)
}

/// Reads the flows of an edge for an atom, sees a literal, and reads them again. The flow along the surely present edges stays, and
/// so does the one along the possibly present ones, unless it gives something to an edge that the literal takes away.
pub fn assign_keeps_flows(
    theory: &mut FlowTheory,
    lit: Lit,
    atom: u32,
    place: u32,
) -> (Flows, Flows)
    requires concerned { IsTrue (concerns_of theory.old.graph theory.old.atoms (var_of lit)) }
    requires fresh { IsTrue (is_open_in theory.old.seen lit) }
    requires owned { IsSome (atom_of theory.old.atoms atom) }
    requires place { place < length theory.old.graph.edges }
    ensures seen { facts_in theory.new ≡ seeing (facts_in theory.old) lit }
    ensures read { result.0 ≡ ⟦<FlowTheory as HasFlows>⟧.flows_of theory.old atom place }
    ensures read_again { result.1 ≡ ⟦<FlowTheory as HasFlows>⟧.flows_of theory.new atom place }
    ensures under { result.1.under ≡ result.0.under }
    ensures over { (result.1.over ≡ result.0.over) ⊎ GivesToLost theory.old.graph lit (λ k. (⟦<FlowTheory as HasFlows>⟧.flows_of theory.old atom k).over) }
{
    let before = theory.flows(atom, place);
    let _ = theory.surely();
    let _ = theory.possibly();
    theory.assign(lit);
    let after = theory.flows(atom, place);
    (before, after)
}

/// Reads the flows of an edge for an atom, cuts the list to its first literals, and reads them again: the one along the possibly
/// present edges stays.
pub fn undo_keeps_flows(
    theory: &mut FlowTheory,
    kept: usize,
    atom: u32,
    place: u32,
) -> (Flows, Flows)
    requires kept { kept ≤ length theory.old.seen }
    requires owned { IsSome (atom_of theory.old.atoms atom) }
    requires place { place < length theory.old.graph.edges }
    ensures seen { facts_in theory.new ≡ cut_to kept (facts_in theory.old) }
    ensures read { result.0 ≡ ⟦<FlowTheory as HasFlows>⟧.flows_of theory.old atom place }
    ensures read_again { result.1 ≡ ⟦<FlowTheory as HasFlows>⟧.flows_of theory.new atom place }
    ensures over { result.1.over ≡ result.0.over }
{
    let before = theory.flows(atom, place);
    theory.undo_to(kept);
    let after = theory.flows(atom, place);
    (before, after)
}

/// Reads the flows of an edge for an atom, asks for the lemma of a literal that some atom forces, and reads them again: they are
/// the same.
pub fn explain_changes_no_flow(
    theory: &mut FlowTheory,
    forcing: u32,
    lit: Lit,
    kept: usize,
    atom: u32,
    place: u32,
) -> Result<(Flows, Flows), AllocError>
    requires within { kept ≤ length theory.old.seen }
    requires forces { ForcesBy theory.old.graph theory.old.atoms (take kept theory.old.seen) forcing lit }
    requires owned { IsSome (atom_of theory.old.atoms atom) }
    requires place { place < length theory.old.graph.edges }
    ensures same { facts_in theory.new ≡ facts_in theory.old }
    ensures read { IfOk result (λ flows. flows.0 ≡ ⟦<FlowTheory as HasFlows>⟧.flows_of theory.old atom place) }
    ensures read_again { IfOk result (λ flows. flows.1 ≡ ⟦<FlowTheory as HasFlows>⟧.flows_of theory.new atom place) }
    ensures stay { IfOk result (λ flows. flows.1 ≡ flows.0) }
{
    let before = theory.flows(atom, place);
    let _ = theory.explain(forcing, lit, kept)?;
    let after = theory.flows(atom, place);
    Ok((before, after))
}

/// Asks what is forced, and reads the flows of an edge for an atom. Where the answer is Quiet, the atom's predicate holds with the
/// surely present edges exactly where the value of its flow along them, as it is read edge by edge, is at least the bound, and so
/// with the possibly present ones.
pub fn force_decides_flows(
    theory: &mut FlowTheory,
    atom: u32,
    place: u32,
) -> Result<(Force, Flows), AllocError>
    requires owned { IsSome (atom_of theory.old.atoms atom) }
    requires place { place < length theory.old.graph.edges }
    ensures same { facts_in theory.new ≡ facts_in theory.old }
    ensures answer { IfOk result (λ read. ForceIs theory.old.graph theory.old.atoms theory.old.seen read.0) }
    ensures read { IfOk result (λ read. read.1 ≡ ⟦<FlowTheory as HasFlows>⟧.flows_of theory.new atom place) }
    ensures under { IfOk result (λ read. read.0 ≡ Force.Quiet → MatchOption (atom_of theory.old.atoms atom) ⊥
        (λ x. IsDecidedBy theory.old.graph (under theory.old.graph theory.old.seen) x.predicate
        (λ k. (⟦<FlowTheory as HasFlows>⟧.flows_of theory.new atom k).under))) }
    ensures over { IfOk result (λ read. read.0 ≡ Force.Quiet → MatchOption (atom_of theory.old.atoms atom) ⊥
        (λ x. IsDecidedBy theory.old.graph (over theory.old.graph theory.old.seen) x.predicate
        (λ k. (⟦<FlowTheory as HasFlows>⟧.flows_of theory.new atom k).over))) }
{
    let answer = theory.force()?;
    let flows = theory.flows(atom, place);
    Ok((answer, flows))
}

/// Asks for the lemma of a literal that is forced, and reads the flows of an edge for an atom. Where the answer is Quiet, the atom's
/// predicate holds with the surely present edges exactly where the value of its flow along them, as it is read edge by edge, is at
/// least the bound, and so with the possibly present ones.
pub fn propagate_decides_flows(
    theory: &mut FlowTheory,
    atom: u32,
    place: u32,
) -> Result<(Finding, Flows), AllocError>
    requires owned { IsSome (atom_of theory.old.atoms atom) }
    requires place { place < length theory.old.graph.edges }
    ensures same { facts_in theory.new ≡ facts_in theory.old }
    ensures finding { IfOk result (λ read. FindingIs theory.old.graph theory.old.atoms theory.old.seen read.0) }
    ensures read { IfOk result (λ read. read.1 ≡ ⟦<FlowTheory as HasFlows>⟧.flows_of theory.new atom place) }
    ensures under { IfOk result (λ read. read.0 ≡ Finding.Quiet → MatchOption (atom_of theory.old.atoms atom) ⊥
        (λ x. IsDecidedBy theory.old.graph (under theory.old.graph theory.old.seen) x.predicate
        (λ k. (⟦<FlowTheory as HasFlows>⟧.flows_of theory.new atom k).under))) }
    ensures over { IfOk result (λ read. read.0 ≡ Finding.Quiet → MatchOption (atom_of theory.old.atoms atom) ⊥
        (λ x. IsDecidedBy theory.old.graph (over theory.old.graph theory.old.seen) x.predicate
        (λ k. (⟦<FlowTheory as HasFlows>⟧.flows_of theory.new atom k).over))) }
{
    let finding = theory.propagate()?;
    let flows = theory.flows(atom, place);
    Ok((finding, flows))
}
