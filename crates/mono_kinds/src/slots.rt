//! Atoms by graph and kind: those of one slot make one theory.

ghost use Rattle.std.specs.Prelude.{◌≡◌, ◌<◌, IfOk, length};
ghost use Rattle.mono_base.specs.declared.limits.TheConstants.{MAX_GRAPHS};
ghost use Rattle.mono_kinds.specs.Sharing.{kind_count, kind_index as index_of_kind};
ghost use Rattle.mono_kinds.specs.Slots.{AreSlots, slot_of as slot_by, slot_count as count_of_slots};

use mono_base::Buckets;
use mono_problem::{Atom, Predicate, Problem};
use std::alloc::{AllocError, Global};

/// How many kinds there are.
pub(crate) const KINDS: u32 = 5;

/// The number of a predicate's kind.
fn kind_index(predicate: Predicate) -> u32
    ensures kind { result ≡ index_of_kind predicate }
    ensures few { result < kind_count }
{
    match predicate {
        Predicate::Reach { .. } => 0,
        Predicate::Steps { .. } => 1,
        Predicate::Distance { .. } => 1,
        Predicate::Flow { .. } => 2,
        Predicate::Tree { .. } => 3,
        Predicate::Acyclic => 4,
    }
}

/// The slot of an atom.
fn slot_of(atom: Atom) -> u32
    requires { atom.graph < MAX_GRAPHS }
    ensures { result ≡ slot_by atom }
{
    KINDS * atom.graph + kind_index(atom.predicate)
}

/// How many slots there are.
pub(crate) fn slot_count(problem: &Problem) -> u32
    ensures { result ≡ count_of_slots problem.now }
{
    problem.known();
    KINDS * problem.graph_count()
}

/// The numbers of the atoms of each slot, in order.
pub(crate) fn slots_of(alloc: Global, problem: &Problem) -> Result<Buckets<u32>, AllocError>
    ensures { IfOk result (λ slots. AreSlots problem.now (length problem.now.atoms) slots) }
{
    problem.known();
    let mut slots = Buckets::new(alloc, slot_count(problem))?;
    for place in 0..problem.atom_count() {
        let atom = problem.atom(place + 1);
        slots.push(slot_of(atom), place + 1)?;
    }
    Ok(slots)
}
