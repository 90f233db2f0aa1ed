//! A lemma that is asked for late rests on the literals seen before its own alone.

use super::trial::Trial;
use mono_base::Lit;
use mono_gnf::read_gnf;
use mono_kinds::{AnyTheory, all_theories};
use mono_steps::Lemma;
use mono_theory::{Force, Theory};
use std::alloc::{AllocError, Global};
use std::test::Fail;

/// Two edges in a row, and a predicate that says whether they lead on.
const ROUTE: &[u8] = b"digraph int 3 2 0\nedge 0 0 1 1\nedge 0 1 2 2\nreach 0 0 2 3\n";

/// The lemma of what is forced, once both edges were seen and then the literal that is forced.
fn late_lemma<T: Theory>(alloc: Global, theory: T) -> Result<Option<Lemma>, AllocError> {
    let mut trial = Trial::new(alloc, theory);
    trial.see_any(Lit::new(1))?;
    trial.see_any(Lit::new(2))?;
    match trial.force()? {
        Force::Quiet => Ok(None),
        Force::Literal { atom, lit } => {
            let lemma = trial.late_lemma(atom, lit, None)?;
            Ok(Some(lemma))
        }
    }
}

/// Whether the lemma is of atom 1, and its literals are these three.
fn is_of(lemma: &Lemma, numbers: [i32; 3]) -> bool {
    let lits = lemma.clause.lits();
    lemma.atom == 1
        && lits.len() == 3
        && numbers
            .iter()
            .all(|n| lits.iter().any(|l| l.number() == *n))
}

/// Whether the theory is one of reachability.
fn is_of_reachability(theory: &AnyTheory) -> bool {
    matches!(theory, AnyTheory::Reach(_))
}

/// Whether the theory of reachability explains literal 3, seen behind 1 and 2, by these two.
fn is_explained(alloc: Global, theory: AnyTheory) -> Result<bool, AllocError> {
    let reaches = is_of_reachability(&theory);
    match late_lemma(alloc, theory)? {
        Some(lemma) => Ok(reaches && is_of(&lemma, [-1, -2, 3])),
        None => Ok(false),
    }
}

/// Whether each of these theories explains literal 3 by the two before it.
fn are_explained(alloc: Global, theories: Vec<AnyTheory>) -> Result<bool, AllocError> {
    for theory in theories {
        if !is_explained(alloc, theory)? {
            return Ok(false);
        }
    }
    Ok(true)
}

/// Whether the one theory of that problem explains literal 3 by the two before it.
fn route_is_explained(alloc: Global) -> Result<bool, Fail> {
    let problem = read_gnf(alloc, ROUTE)?;
    let theories = all_theories(alloc, &problem)?;
    let one = theories.len() == 1;
    let explained = are_explained(alloc, theories)?;
    Ok(one && explained)
}

#[test]
fn literal_3_is_explained_by_1_and_2(rt: HostRuntime) -> Result<(), Fail> {
    let explained = route_is_explained(rt.alloc())?;
    assert!(rt; explained);
    Ok(())
}
