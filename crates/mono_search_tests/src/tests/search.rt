//! A search that is run again after its budget was spent goes on where it was.

use mono_gnf::read_gnf;
use mono_kinds::{AnyTheory, all_theories};
use mono_problem::Problem;
use mono_search::{Outcome, Search};
use std::alloc::{AllocError, Global};
use std::test::Fail;

/// All clauses over three variables: no assignment satisfies them, and three conflicts at least are met.
const EIGHT: &[u8] =
    b"1 2 3 0\n1 2 -3 0\n1 -2 3 0\n1 -2 -3 0\n-1 2 3 0\n-1 2 -3 0\n-1 -2 3 0\n-1 -2 -3 0\n";

/// How many runs, each with a budget of one clause more, come to no end before one does, and whether that one finds that
/// there is no model. Learned clauses count from the search's beginning. No more than nine runs are made.
fn runs_until_the_end(search: &mut Search<'_, AnyTheory>) -> Result<(u32, bool), AllocError> {
    for runs in 0..9u32 {
        if !search.is_live() {
            return Ok((runs, false));
        }
        match search.run(u64::from(runs) + 1)? {
            Outcome::Unknown => {}
            Outcome::Unsat => return Ok((runs, true)),
            Outcome::Sat(_) => return Ok((runs, false)),
        }
    }
    Ok((9, false))
}

/// How many runs a search over the problem takes, and whether it ends with a refutation.
fn runs_over(alloc: Global, problem: &Problem) -> Result<(u32, bool), AllocError> {
    let theories = all_theories(alloc, problem)?;
    let mut search = Search::new(alloc, problem, theories)?;
    runs_until_the_end(&mut search)
}

#[test]
fn a_search_goes_on_after_its_budget_was_spent(rt: HostRuntime) -> Result<(), Fail> {
    let problem = read_gnf(rt.alloc(), EIGHT)?;
    let (runs, is_refuted) = runs_over(rt.alloc(), &problem)?;
    // How many conflicts there are hangs on what is decided: a spent budget takes all decisions back.
    assert!(rt; runs >= 2);
    assert!(rt; is_refuted);
    Ok(())
}
