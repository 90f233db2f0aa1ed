//! Which theory owns an atom, and the lemmas that it makes.
//!
//! The theory that forces an atom is known when it does so, and is asked for the lemma later. So a table names it, and no other
//! theory is asked.

ghost use Rattle.std.specs.Prelude.{◌≡◌, ◌+◌, ◌<◌, IfOk, IsSome, IsTrue, count_by, length, replicate, None};
ghost use Rattle.mono_theory.specs.Owners.{facts_of};
ghost use Rattle.mono_theory.specs.Theories.{owns_of};
ghost use Rattle.mono_search.specs.TheoryLists.{owner_of, AreOwners, IsOwnedAt, CanExplain, IsLemmaBy};

use mono_base::Lit;
use mono_steps::Lemma;
use mono_theory::Theory;
use std::alloc::{AllocError, Global};

/// A table in which no atom's theory is known.
pub(crate) fn no_owners(alloc: Global, atoms: u32) -> Result<Vec<Option<usize>>, AllocError>
    ensures { IfOk result (λ owners. owners.items ≡ replicate (atoms + 1) None) }
{
    vec![in alloc; None; atoms as usize + 1]
}

/// The place of the first theory that says that it owns the atom.
fn first_owner<T: Theory>(theories: &[T], atom: u32) -> usize
    requires { IsSome (owner_of (facts_of T.graph T.atoms T.seen theories.now) atom) }
    ensures { IsOwnedAt (facts_of T.graph T.atoms T.seen theories.now) atom result }
{
    for place in 0..theories.len() {
        if theories[place].owns(atom) {
            return place;
        }
    }
    unreachable!()
}

/// The place of the theory that owns the atom: as the table says, and where it doesn't, as the theories do.
fn place_of_owner<T: Theory>(theories: &[T], owners: &[Option<usize>], atom: u32) -> usize
    requires known { AreOwners (facts_of T.graph T.atoms T.seen theories.now) owners.now }
    requires within { atom < length owners.now }
    requires owned { IsSome (owner_of (facts_of T.graph T.atoms T.seen theories.now) atom) }
    ensures { IsOwnedAt (facts_of T.graph T.atoms T.seen theories.now) atom result }
{
    match owners[atom as usize] {
        Some(place) => place,
        None => first_owner(theories, atom),
    }
}

/// The lemma that the theory which owns the atom makes.
pub(crate) fn explain_by_owner<T: Theory>(
    theories: &mut Vec<T>,
    owners: &[Option<usize>],
    atom: u32,
    lit: Lit,
    kept: usize,
) -> Result<Lemma, AllocError>
    requires once { count_by (λ f. owns_of f.atoms atom) (facts_of T.graph T.atoms T.seen theories.old.items) ≡ 1 }
    requires known { AreOwners (facts_of T.graph T.atoms T.seen theories.old.items) owners.now }
    requires can { CanExplain (facts_of T.graph T.atoms T.seen theories.old.items) atom lit kept }
    ensures same { facts_of T.graph T.atoms T.seen theories.new.items ≡ facts_of T.graph T.atoms T.seen theories.old.items }
    ensures lemma { IfOk result (IsLemmaBy (facts_of T.graph T.atoms T.seen theories.old.items) atom lit kept) }
{
    let place = place_of_owner(theories.as_slice(), owners, atom);
    let theory = &mut theories[place];
    theory.explain(atom, lit, kept)
}
