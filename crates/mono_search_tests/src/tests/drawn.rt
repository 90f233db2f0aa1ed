//! Drawn lists of calls of the theories. Each answer, and what is kept behind it, is compared with what the searches for one
//! predicate find in the parts that the literals seen leave, which are made anew for it.

use super::assert_same;
use mono_kinds::{AnyTheory, all_theories};
use mono_problem::Problem;
use rand_pcg::Lcg64Xsh32;
use std::alloc::{AllocError, Global};
use std::test::Fail;

mod anew;
mod answers;
mod input;
mod kept;
mod late;
mod lists;
mod trial;

use input::drawn_problem;
use lists::list_agrees;

/// So many seeds are drawn from, each for one problem and a list of calls for each of its theories.
const SEEDS: u64 = 300;

/// Whether a list of calls of each of these theories agrees with searches.
fn theories_agree(
    alloc: Global,
    problem: &Problem,
    theories: Vec<AnyTheory>,
    words: &mut Lcg64Xsh32,
) -> Result<bool, AllocError> {
    for theory in theories {
        if !list_agrees(alloc, problem, theory, words)? {
            return Ok(false);
        }
    }
    Ok(true)
}

/// Whether the problem has five theories, and they agree with searches.
fn problem_agrees(
    alloc: Global,
    problem: &Problem,
    words: &mut Lcg64Xsh32,
) -> Result<bool, AllocError> {
    let theories = all_theories(alloc, problem)?;
    let five = theories.len() == 5;
    let agree = theories_agree(alloc, problem, theories, words)?;
    Ok(five && agree)
}

/// Whether the theories of the problem that is drawn from the seed agree with searches.
fn lists_agree(alloc: Global, seed: u64, each: u32, share: bool) -> Result<bool, Fail> {
    let mut words = Lcg64Xsh32::new(seed, 0);
    let problem = drawn_problem(alloc, seed, &mut words, each, share)?;
    let agrees = problem_agrees(alloc, &problem, &mut words)?;
    Ok(agrees)
}

/// The first seed from which on something doesn't agree.
fn first_wrong(alloc: Global, each: u32, share: bool) -> Result<Option<u64>, Fail> {
    for seed in 1..=SEEDS {
        if !lists_agree(alloc, seed, each, share)? {
            return Ok(Some(seed));
        }
    }
    Ok(None)
}

#[test]
fn one_atom_of_each_kind(rt: HostRuntime) -> Result<(), Fail> {
    let wrong = first_wrong(rt.alloc(), 1, false)?;
    assert_same(&rt, wrong, None);
    Ok(())
}

#[test]
fn atoms_that_share_their_first_node(rt: HostRuntime) -> Result<(), Fail> {
    let wrong = first_wrong(rt.alloc(), 4, false)?;
    assert_same(&rt, wrong, None);
    Ok(())
}

#[test]
fn edges_and_atoms_that_share_variables(rt: HostRuntime) -> Result<(), Fail> {
    let wrong = first_wrong(rt.alloc(), 2, true)?;
    assert_same(&rt, wrong, None);
    Ok(())
}
