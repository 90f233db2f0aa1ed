//! What follows from definitions, and from calls, of what a theory knows of nodes.

ghost use Rattle.std.specs.Prelude.{◌≡◌, ◌<◌, ◌≤◌, ℕ, ℤ, length, take, IfOk, IsSome, IsTrue, MatchOption};
ghost use Rattle.mono_base.specs.Literal.{var_of};
ghost use Rattle.mono_base.specs.Partial.{is_open_in};
ghost use Rattle.mono_problem.specs.Quiet.{over, under};
ghost use Rattle.mono_theory.specs.EitherSides.{IsEitherKept};
ghost use Rattle.mono_theory.specs.Evidences.{Decides};
ghost use Rattle.mono_theory.specs.Supports.{atom_at, facts_in};
ghost use Rattle.mono_theory.specs.Theories.{FindingIs, ForceIs, ForcesBy, atom_of, concerns_of, seeing};
ghost use Rattle.mono_reach.specs.Marks.{last_node};
ghost use Rattle.mono_reach.specs.Readings.{ReachView, marks_at};

use crate::{HasMarks, Marks, ReachTheory};
use mono_base::Lit;
use mono_theory::{Finding, Force, Theory};
use std::alloc::AllocError;

/// One more literal changes no mark: rows stay as they are, with the surely present edges and with the possibly present ones.
/// Where searches are kept, an atom whose support goes had no walk found, and no node cut off.
pub fn literals_change_no_mark()
    ensures { (l : ℤ) (s r : ReachView) (a v : ℕ) → r.atoms ≡ s.atoms → IsEitherKept (facts_in s) l s.surely r.surely
        → IsEitherKept (facts_in s) l s.possibly r.possibly → marks_at r a v ≡ marks_at s a v }
{}

/// Asks what is forced. Where the answer is Quiet, what is kept decides each predicate, with the surely present edges and with
/// the possibly present ones.
pub fn quiet_decides(theory: &mut ReachTheory) -> Result<Force, AllocError>
    ensures same { facts_in theory.new ≡ facts_in theory.old }
    ensures answer { IfOk result (ForceIs theory.old.graph theory.old.atoms theory.old.seen) }
    ensures decided { IfOk result (λ answer. answer ≡ Force.Quiet → ⟦<ReachTheory as HasMarks>⟧.is_decided theory.new) }
{
    let answer = theory.force()?;
    Ok(answer)
}

/// Reads the marks of a node for an atom, sees a literal, and reads them again: they are the same.
pub fn assign_changes_no_mark(
    theory: &mut ReachTheory,
    lit: Lit,
    atom: u32,
    node: u32,
) -> (Marks, Marks)
    requires concerned { IsTrue (concerns_of theory.old.graph theory.old.atoms (var_of lit)) }
    requires fresh { IsTrue (is_open_in theory.old.seen lit) }
    requires owned { IsSome (atom_of theory.old.atoms atom) }
    requires node { node < theory.old.graph.nodes }
    ensures seen { facts_in theory.new ≡ seeing (facts_in theory.old) lit }
    ensures read { (place : ℕ) → place < length theory.old.atoms → (atom_at theory.old.atoms place).number ≡ atom
        → result.0 ≡ ⟦<ReachTheory as HasMarks>⟧.marks_of theory.old place node }
    ensures read_again { (place : ℕ) → place < length theory.new.atoms → (atom_at theory.new.atoms place).number ≡ atom
        → result.1 ≡ ⟦<ReachTheory as HasMarks>⟧.marks_of theory.new place node }
    ensures stay { result.1 ≡ result.0 }
{
    let before = theory.marks(atom, node);
    theory.assign(lit);
    let after = theory.marks(atom, node);
    (before, after)
}

/// Reads the marks of a node for an atom, asks for the lemma of a literal that some atom forces, and reads them again: they are
/// the same.
pub fn explain_changes_no_mark(
    theory: &mut ReachTheory,
    forcing: u32,
    lit: Lit,
    kept: usize,
    atom: u32,
    node: u32,
) -> Result<(Marks, Marks), AllocError>
    requires within { kept ≤ length theory.old.seen }
    requires forces { ForcesBy theory.old.graph theory.old.atoms (take kept theory.old.seen) forcing lit }
    requires owned { IsSome (atom_of theory.old.atoms atom) }
    requires node { node < theory.old.graph.nodes }
    ensures same { facts_in theory.new ≡ facts_in theory.old }
    ensures read { IfOk result (λ marks. (place : ℕ) → place < length theory.old.atoms → (atom_at theory.old.atoms place).number ≡ atom
        → marks.0 ≡ ⟦<ReachTheory as HasMarks>⟧.marks_of theory.old place node) }
    ensures read_again { IfOk result (λ marks. (place : ℕ) → place < length theory.new.atoms → (atom_at theory.new.atoms place).number ≡ atom
        → marks.1 ≡ ⟦<ReachTheory as HasMarks>⟧.marks_of theory.new place node) }
    ensures stay { IfOk result (λ marks. marks.1 ≡ marks.0) }
{
    let before = theory.marks(atom, node);
    let _ = theory.explain(forcing, lit, kept)?;
    let after = theory.marks(atom, node);
    Ok((before, after))
}

/// Asks what is forced, and reads the marks of a node for an atom. Where the answer is Quiet and the node is the atom's last, they
/// are whether its predicate holds with the surely present edges, and with the possibly present ones.
pub fn force_decides_marks(
    theory: &mut ReachTheory,
    atom: u32,
    node: u32,
) -> Result<(Force, Marks), AllocError>
    requires owned { IsSome (atom_of theory.old.atoms atom) }
    requires node { node < theory.old.graph.nodes }
    ensures same { facts_in theory.new ≡ facts_in theory.old }
    ensures answer { IfOk result (λ read. ForceIs theory.old.graph theory.old.atoms theory.old.seen read.0) }
    ensures read { IfOk result (λ read. (place : ℕ) → place < length theory.new.atoms → (atom_at theory.new.atoms place).number ≡ atom
        → read.1 ≡ ⟦<ReachTheory as HasMarks>⟧.marks_of theory.new place node) }
    ensures under { IfOk result (λ read. read.0 ≡ Force.Quiet → MatchOption (atom_of theory.old.atoms atom) ⊥ (λ x. node ≡ last_node x.predicate
        → Decides theory.old.graph (under theory.old.graph theory.old.seen) x.predicate read.1.under)) }
    ensures over { IfOk result (λ read. read.0 ≡ Force.Quiet → MatchOption (atom_of theory.old.atoms atom) ⊥ (λ x. node ≡ last_node x.predicate
        → Decides theory.old.graph (over theory.old.graph theory.old.seen) x.predicate read.1.over)) }
{
    let answer = theory.force()?;
    let marks = theory.marks(atom, node);
    Ok((answer, marks))
}

/// Asks for the lemma of a literal that is forced, and reads the marks of a node for an atom. Where the answer is Quiet and the
/// node is the atom's last, they are whether its predicate holds with the surely present edges, and with the possibly present ones.
pub fn propagate_decides_marks(
    theory: &mut ReachTheory,
    atom: u32,
    node: u32,
) -> Result<(Finding, Marks), AllocError>
    requires owned { IsSome (atom_of theory.old.atoms atom) }
    requires node { node < theory.old.graph.nodes }
    ensures same { facts_in theory.new ≡ facts_in theory.old }
    ensures finding { IfOk result (λ read. FindingIs theory.old.graph theory.old.atoms theory.old.seen read.0) }
    ensures read { IfOk result (λ read. (place : ℕ) → place < length theory.new.atoms → (atom_at theory.new.atoms place).number ≡ atom
        → read.1 ≡ ⟦<ReachTheory as HasMarks>⟧.marks_of theory.new place node) }
    ensures under { IfOk result (λ read. read.0 ≡ Finding.Quiet → MatchOption (atom_of theory.old.atoms atom) ⊥ (λ x. node ≡ last_node x.predicate
        → Decides theory.old.graph (under theory.old.graph theory.old.seen) x.predicate read.1.under)) }
    ensures over { IfOk result (λ read. read.0 ≡ Finding.Quiet → MatchOption (atom_of theory.old.atoms atom) ⊥ (λ x. node ≡ last_node x.predicate
        → Decides theory.old.graph (over theory.old.graph theory.old.seen) x.predicate read.1.over)) }
{
    let finding = theory.propagate()?;
    let marks = theory.marks(atom, node);
    Ok((finding, marks))
}
