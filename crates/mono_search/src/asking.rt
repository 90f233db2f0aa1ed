//! What one of a list of theories forces, and what theories prefer.

ghost use Rattle.std.specs.Prelude.{◌≡◌, ◌<◌, All, IfOk, IfSome, IsTrue, MatchOption, OnSome, length};
ghost use Rattle.mono_theory.specs.Owners.{fact_of, facts_of};
ghost use Rattle.mono_search.specs.TheoryLists.{IsQuietTheory, OthersAreQuiet, AreOwners, IsShort, IsAnswer, ForcesIt, GivesIt, AnyGives};

use crate::theories::Forced;
use mono_base::Worklist;
use mono_theory::{Force, Theory, UnitLemma};
use std::alloc::AllocError;

/// A literal that an atom of the theory forces, or none where it is quiet.
fn force_one<T: Theory>(theory: &mut T) -> Result<Option<Forced>, AllocError>
    requires { IsShort (fact_of T.graph T.atoms T.seen theory.old) }
    ensures same { fact_of T.graph T.atoms T.seen theory.new ≡ fact_of T.graph T.atoms T.seen theory.old }
    ensures answer { let f = fact_of T.graph T.atoms T.seen theory.old in IfOk result (λ r. MatchOption r (IsQuietTheory f) (λ r. ForcesIt r f)) }
{
    let kept = theory.seen();
    match theory.force()? {
        Force::Quiet => Ok(None),
        Force::Literal { atom, lit } => Ok(Some(Forced {
            atom,
            lit,
            kept: kept as u32,
        })),
    }
}

/// A literal that a theory forces, or none where all are quiet. Those on the list are asked, the one that joined last first,
/// and leave it where they are quiet. The theory of the atom that is forced is known as its owner from then on.
pub(crate) fn force_any<T: Theory>(
    theories: &mut Vec<T>,
    worklist: &mut Worklist,
    owners: &mut Vec<Option<usize>>,
) -> Result<Option<Forced>, AllocError>
    requires others { OthersAreQuiet (facts_of T.graph T.atoms T.seen theories.old.items) worklist.old.listed }
    requires known { AreOwners (facts_of T.graph T.atoms T.seen theories.old.items) owners.old.items }
    requires short { All IsShort (facts_of T.graph T.atoms T.seen theories.old.items) }
    ensures same { facts_of T.graph T.atoms T.seen theories.new.items ≡ facts_of T.graph T.atoms T.seen theories.old.items }
    ensures others { OthersAreQuiet (facts_of T.graph T.atoms T.seen theories.old.items) worklist.new.listed }
    ensures known { AreOwners (facts_of T.graph T.atoms T.seen theories.old.items) owners.new.items }
    ensures answer { IfOk result (IsAnswer (facts_of T.graph T.atoms T.seen theories.old.items)) }
{
    while let Some(place) = worklist.last() {
        let theory = &mut theories[place];
        if let Some(forced) = force_one(theory)? {
            owners[forced.atom as usize] = Some(place);
            return Ok(Some(forced));
        }
        worklist.remove_last();
    }
    Ok(None)
}

/// A lemma that a theory has at hand and that is unit.
fn unit_lemma_of<T: Theory>(theory: &mut T) -> Result<Option<UnitLemma>, AllocError>
    ensures same { fact_of T.graph T.atoms T.seen theory.new ≡ fact_of T.graph T.atoms T.seen theory.old }
    ensures lemma { let f = fact_of T.graph T.atoms T.seen theory.old in IfOk result (λ r. IfSome r (λ r. GivesIt r f)) }
{
    theory.unit_lemma()
}

/// A lemma that one of the theories has at hand and that is unit. The first theory is asked first.
pub(crate) fn any_unit_lemma<T: Theory>(
    theories: &mut Vec<T>,
) -> Result<Option<UnitLemma>, AllocError>
    ensures same { facts_of T.graph T.atoms T.seen theories.new.items ≡ facts_of T.graph T.atoms T.seen theories.old.items }
    ensures lemma { IfOk result (λ r. IfSome r (AnyGives (facts_of T.graph T.atoms T.seen theories.old.items))) }
{
    for place in 0..theories.len() {
        let theory = &mut theories[place];
        if let Some(unit) = unit_lemma_of(theory)? {
            return Ok(Some(unit));
        }
    }
    Ok(None)
}

/// The place that is at this one when so many places are counted from the last one, or from the first one.
fn counted_from(last: bool, at: usize, count: usize) -> usize
    requires { at < count }
    ensures { result < count }
{
    if last {
        return count - 1 - at;
    }
    at
}

/// The variable of an edge that one of the theories would have decided true next: the first theory that wants one, or the last
/// one.
pub(crate) fn any_wanted<T: Theory>(theories: &[T], last_first: bool) -> Option<u32>
    ensures { OnSome result (0 < length theories.now) }
{
    for at in 0..theories.len() {
        let place = counted_from(last_first, at, theories.len());
        if let Some(var) = theories[place].wanted() {
            return Some(var);
        }
    }
    None
}

/// Whether one of the theories at these places prefers the variable to be true.
pub(crate) fn any_prefers<T: Theory>(theories: &[T], places: &[usize], var: u32) -> bool
    requires { All (λ i. i < length theories.now) places.now }
    ensures { IsTrue result → 0 < length theories.now }
{
    for place in places {
        if theories[*place].prefers(var) {
            return true;
        }
    }
    false
}
