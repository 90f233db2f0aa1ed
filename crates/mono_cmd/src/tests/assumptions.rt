//! Cores of assumptions, each handed to `check-with`.

use super::{Outcome, USAGE, assert_begins, assert_outcome, assert_same, outcome_of};
use mono_forms::Status;
use std::alloc::{AllocError, Global};
use std::process::Abort;
use std::test::Fail;

/// Two edges in a row, and a predicate that says whether they lead on: it is false.
const NO_ROUTE: &[u8] = b"digraph int 3 2 0\nedge 0 0 1 1\nedge 0 1 2 2\nreach 0 0 2 3\n-3 0\n";

/// The words, with these literals behind them.
fn with_literals<'a>(
    alloc: Global,
    words: &[&'a str],
    literals: &[&'a str],
) -> Result<Vec<&'a str>, AllocError> {
    let mut line = Vec::from_slice(alloc, words)?;
    line.extend_from_slice(literals)?;
    Ok(line)
}

/// What `core f` writes of the input under these literals.
fn core_of(alloc: Global, literals: &[&str]) -> Result<Outcome, AllocError> {
    let line = with_literals(alloc, &["core", "f"], literals)?;
    outcome_of(alloc, line.as_slice(), NO_ROUTE, b"")
}

/// What `check-with f a` writes of an answer under these literals.
fn judged_with(alloc: Global, answer: &[u8], literals: &[&str]) -> Result<Outcome, AllocError> {
    let line = with_literals(alloc, &["check-with", "f", "a"], literals)?;
    outcome_of(alloc, line.as_slice(), NO_ROUTE, answer)
}

/// Each row has literals, how what `core` writes of them begins, the literals under which `check-with` judges it, and its verdict.
#[test]
fn cores_are_accepted_under_their_literals(rt: HostRuntime) -> Result<(), Fail> {
    let rows: &[(&[&str], &[u8], Status, &[&str], &[u8])] = &[
        (
            &["1", "2"],
            b"c core 1 2 0\nc needed 1 -1 2 -3 0\nc needed 2 1 -2 -3 0\ns UNSATISFIABLE\n",
            Status::Unsatisfiable,
            &["1", "2"],
            b"accepted refutation\n",
        ),
        (
            &["1", "3"],
            b"c core 3 0\nc needed 3 ",
            Status::Unsatisfiable,
            &["3"],
            b"accepted refutation\n",
        ),
        (
            &["2", "1", "1"],
            b"c core 2 1 0\n",
            Status::Unsatisfiable,
            &["2", "1"],
            b"accepted refutation\n",
        ),
        (
            &["7", "1", "-7"],
            b"c core 7 -7 0\nc needed 7 ",
            Status::Unsatisfiable,
            &["7", "-7"],
            b"accepted refutation\n",
        ),
        (
            &["1"],
            b"s SATISFIABLE\nv 1 -2 -3 0\n",
            Status::Satisfiable,
            &["1"],
            b"accepted model\n",
        ),
    ];
    for (literals, beginning, status, judged_under, verdict) in rows {
        let found = core_of(rt.alloc(), literals)?;
        assert_begins(&rt, &found, beginning, *status);
        let judged = judged_with(rt.alloc(), found.text.as_slice(), judged_under)?;
        assert_outcome(&rt, &judged, verdict, Status::Accepted);
    }
    Ok(())
}

/// There may be a thousand assumptions; more are no command.
#[test]
fn a_thousand_literals_are_assumed(rt: HostRuntime) -> Result<(), Fail> {
    let most = vec![in rt.alloc(); "1"; 1000]?;
    let found = core_of(rt.alloc(), most.as_slice())?;
    assert_outcome(
        &rt,
        &found,
        b"s SATISFIABLE\nv 1 -2 -3 0\n",
        Status::Satisfiable,
    );
    let more = vec![in rt.alloc(); "1"; 1001]?;
    let refused = core_of(rt.alloc(), more.as_slice())?;
    assert_outcome(&rt, &refused, USAGE, Status::Words);
    Ok(())
}

/// A refutation under assumptions is none of the input alone, nor under fewer of them.
#[test]
fn refutations_rest_on_their_assumptions(rt: HostRuntime) -> Result<(), Fail> {
    let found = core_of(rt.alloc(), &["1", "2"])?;
    let alone = outcome_of(
        rt.alloc(),
        &["check", "f", "a"],
        NO_ROUTE,
        found.text.as_slice(),
    )?;
    assert_same(&rt, alone.status, Status::Rejected);
    let fewer = judged_with(rt.alloc(), found.text.as_slice(), &["1"])?;
    assert_same(&rt, fewer.status, Status::Rejected);
    Ok(())
}
