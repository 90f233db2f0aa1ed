//! What follows from definitions, and from calls, of what a theory of distances knows of nodes.

ghost use Rattle.std.specs.Prelude.{◌≡◌, ◌<◌, ◌≤◌, ℕ, ℤ, length, take, Some, IfOk, IsSome, IsTrue, MatchOption};
ghost use Rattle.std.specs.Option.{is_some};
ghost use Rattle.mono_base.specs.Literal.{var_of};
ghost use Rattle.mono_base.specs.Partial.{is_open_in};
ghost use Rattle.mono_graph.specs.Digraph.{IsGraph};
ghost use Rattle.mono_graph.specs.Walks.{admits};
ghost use Rattle.mono_problem.specs.Quiet.{under, over};
ghost use Rattle.mono_problem.specs.declared.atom.Atom.{Atom};
ghost use Rattle.mono_theory.specs.Evidences.{Decides};
ghost use Rattle.mono_theory.specs.Frames.{AreAtomsOf};
ghost use Rattle.mono_theory.specs.Supports.{AreCovered, facts_in};
ghost use Rattle.mono_theory.specs.Theories.{FindingIs, ForceIs, ForcesBy, atom_of, concerns_of, seeing};
ghost use Rattle.mono_theory.specs.EitherSides.{IsEitherKept};
ghost use Rattle.mono_distance.specs.Distances.{is_distance};
ghost use Rattle.mono_distance.specs.Readings.{AreBothDecided, DistanceView, labels_in, IsPossiblyRight, IsRightSide};
ghost use Rattle.mono_distance.specs.SureLabels.{last_node, limit_of};

use crate::{DistanceTheory, HasLabels, Labels};
use mono_base::Lit;
use mono_theory::{Finding, Force, Theory};
use std::alloc::AllocError;

/// Once what is kept decides, with the surely present edges and with the possibly present ones, the labels of an atom's last node
/// do: its predicate holds with the surely present edges exactly where `under` is there, and with the possibly present ones
/// exactly where `over` is within the bound.
pub fn labels_of_last_nodes_decide()
    ensures { (s : DistanceView) (n : ℕ) (x : Atom) → IsGraph s.graph → AreAtomsOf s.graph s.atoms → AreCovered is_distance s.atoms
        → IsRightSide (facts_in s) s.surely → IsPossiblyRight (facts_in s) s.possibly → AreBothDecided s → atom_of s.atoms n ≡ Some x
        → Decides s.graph (under s.graph s.seen) x.predicate (is_some (labels_in s n (last_node x.predicate)).under)
        × Decides s.graph (over s.graph s.seen) x.predicate (admits (limit_of x.predicate) (labels_in s n (last_node x.predicate)).over) }
{}

/// Labels stay while literals come: rows stay, and of what searches found an atom that stands may wait again.
pub fn labels_stay_while_literals_come()
    ensures { (s r : DistanceView) (lit : ℤ) (n v : ℕ) → r.atoms ≡ s.atoms → IsEitherKept (facts_in s) lit s.surely r.surely
        → IsEitherKept (facts_in s) lit s.possibly r.possibly → labels_in r n v ≡ labels_in s n v }
{}

/// Asks what is forced. Where the answer is Quiet, what is kept decides each predicate, with the surely present edges and with
/// the possibly present ones.
pub fn quiet_decides(theory: &mut DistanceTheory) -> Result<Force, AllocError>
    ensures same { facts_in theory.new ≡ facts_in theory.old }
    ensures answer { IfOk result (ForceIs theory.old.graph theory.old.atoms theory.old.seen) }
    ensures decided { IfOk result (λ answer. answer ≡ Force.Quiet → ⟦<DistanceTheory as HasLabels>⟧.is_decided theory.new) }
{
    let answer = theory.force()?;
    Ok(answer)
}

/// Reads the labels of a node for an atom, sees a literal, and reads them again: they are the same.
pub fn assign_changes_no_label(
    theory: &mut DistanceTheory,
    lit: Lit,
    atom: u32,
    node: u32,
) -> (Labels, Labels)
    requires concerned { IsTrue (concerns_of theory.old.graph theory.old.atoms (var_of lit)) }
    requires fresh { IsTrue (is_open_in theory.old.seen lit) }
    requires owned { IsSome (atom_of theory.old.atoms atom) }
    requires node { node < theory.old.graph.nodes }
    ensures seen { facts_in theory.new ≡ seeing (facts_in theory.old) lit }
    ensures read { result.0 ≡ ⟦<DistanceTheory as HasLabels>⟧.labels_of theory.old atom node }
    ensures read_again { result.1 ≡ ⟦<DistanceTheory as HasLabels>⟧.labels_of theory.new atom node }
    ensures stay { result.1 ≡ result.0 }
{
    let before = theory.labels(atom, node);
    theory.assign(lit);
    let after = theory.labels(atom, node);
    (before, after)
}

/// Reads the labels of a node for an atom, asks for the lemma of a literal that some atom forces, and reads them again: they are
/// the same.
pub fn explain_changes_no_label(
    theory: &mut DistanceTheory,
    forcing: u32,
    lit: Lit,
    kept: usize,
    atom: u32,
    node: u32,
) -> Result<(Labels, Labels), AllocError>
    requires within { kept ≤ length theory.old.seen }
    requires forces { ForcesBy theory.old.graph theory.old.atoms (take kept theory.old.seen) forcing lit }
    requires owned { IsSome (atom_of theory.old.atoms atom) }
    requires node { node < theory.old.graph.nodes }
    ensures same { facts_in theory.new ≡ facts_in theory.old }
    ensures read { IfOk result (λ labels. labels.0 ≡ ⟦<DistanceTheory as HasLabels>⟧.labels_of theory.old atom node) }
    ensures read_again { IfOk result (λ labels. labels.1 ≡ ⟦<DistanceTheory as HasLabels>⟧.labels_of theory.new atom node) }
    ensures stay { IfOk result (λ labels. labels.1 ≡ labels.0) }
{
    let before = theory.labels(atom, node);
    let _ = theory.explain(forcing, lit, kept)?;
    let after = theory.labels(atom, node);
    Ok((before, after))
}

/// Asks what is forced, and reads the labels of a node for an atom. Where the answer is Quiet and the node is the atom's last, its
/// predicate holds with the surely present edges exactly where `under` is there, and with the possibly present ones exactly
/// where `over` is within the bound.
pub fn force_decides_labels(
    theory: &mut DistanceTheory,
    atom: u32,
    node: u32,
) -> Result<(Force, Labels), AllocError>
    requires owned { IsSome (atom_of theory.old.atoms atom) }
    requires node { node < theory.old.graph.nodes }
    ensures same { facts_in theory.new ≡ facts_in theory.old }
    ensures answer { IfOk result (λ read. ForceIs theory.old.graph theory.old.atoms theory.old.seen read.0) }
    ensures read { IfOk result (λ read. read.1 ≡ ⟦<DistanceTheory as HasLabels>⟧.labels_of theory.new atom node) }
    ensures under { IfOk result (λ read. read.0 ≡ Force.Quiet → MatchOption (atom_of theory.old.atoms atom) ⊥ (λ x. node ≡ last_node x.predicate
        → Decides theory.old.graph (under theory.old.graph theory.old.seen) x.predicate (is_some read.1.under))) }
    ensures over { IfOk result (λ read. read.0 ≡ Force.Quiet → MatchOption (atom_of theory.old.atoms atom) ⊥ (λ x. node ≡ last_node x.predicate
        → Decides theory.old.graph (over theory.old.graph theory.old.seen) x.predicate (admits (limit_of x.predicate) read.1.over))) }
{
    let answer = theory.force()?;
    let labels = theory.labels(atom, node);
    Ok((answer, labels))
}

/// Asks for the lemma of a literal that is forced, and reads the labels of a node for an atom. Where the answer is Quiet and the
/// node is the atom's last, its predicate holds with the surely present edges exactly where `under` is there, and with the
/// possibly present ones exactly where `over` is within the bound.
pub fn propagate_decides_labels(
    theory: &mut DistanceTheory,
    atom: u32,
    node: u32,
) -> Result<(Finding, Labels), AllocError>
    requires owned { IsSome (atom_of theory.old.atoms atom) }
    requires node { node < theory.old.graph.nodes }
    ensures same { facts_in theory.new ≡ facts_in theory.old }
    ensures finding { IfOk result (λ read. FindingIs theory.old.graph theory.old.atoms theory.old.seen read.0) }
    ensures read { IfOk result (λ read. read.1 ≡ ⟦<DistanceTheory as HasLabels>⟧.labels_of theory.new atom node) }
    ensures under { IfOk result (λ read. read.0 ≡ Finding.Quiet → MatchOption (atom_of theory.old.atoms atom) ⊥ (λ x. node ≡ last_node x.predicate
        → Decides theory.old.graph (under theory.old.graph theory.old.seen) x.predicate (is_some read.1.under))) }
    ensures over { IfOk result (λ read. read.0 ≡ Finding.Quiet → MatchOption (atom_of theory.old.atoms atom) ⊥ (λ x. node ≡ last_node x.predicate
        → Decides theory.old.graph (over theory.old.graph theory.old.seen) x.predicate (admits (limit_of x.predicate) read.1.over))) }
{
    let finding = theory.propagate()?;
    let labels = theory.labels(atom, node);
    Ok((finding, labels))
}
