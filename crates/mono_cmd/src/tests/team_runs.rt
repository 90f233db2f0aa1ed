//! Runs of `team`, each judged by `check`.

use super::{Outcome, accepts, assert_begins, outcome_of};
use mono_forms::Status;
use std::alloc::{AllocError, Global};
use std::process::Abort;
use std::test::Fail;

/// All clauses over three variables.
const EIGHT: &[u8] =
    b"1 2 3 0\n1 2 -3 0\n1 -2 3 0\n1 -2 -3 0\n-1 2 3 0\n-1 2 -3 0\n-1 -2 3 0\n-1 -2 -3 0\n";

/// Two edges in a row that lead on.
const ROUTE: &[u8] = b"digraph int 3 2 0\nedge 0 0 1 1\nedge 0 1 2 2\nreach 0 0 2 3\n1 0\n2 0\n";

/// Two edges in a row that are there and don't lead on.
const NO_ROUTE: &[u8] =
    b"digraph int 3 2 0\nedge 0 0 1 1\nedge 0 1 2 2\nreach 0 0 2 3\n1 0\n2 0\n-3 0\n";

fn played(alloc: Global, input: &[u8], workers: &str, rounds: &str) -> Result<Outcome, AllocError> {
    outcome_of(alloc, &["team", "f", workers, rounds], input, b"")
}

/// Each row has an input, how `team` ends, how its text begins, and what `check` says of it. One model has one text.
#[test]
fn answers_of_teams_are_accepted(rt: HostRuntime) -> Result<(), Fail> {
    let rows: &[(&[u8], &str, &str, Status, &[u8], &[u8])] = &[
        (
            EIGHT,
            "2",
            "1",
            Status::Unsatisfiable,
            b"s UNSATISFIABLE\n",
            b"accepted refutation\n",
        ),
        (
            EIGHT,
            "8",
            "100",
            Status::Unsatisfiable,
            b"s UNSATISFIABLE\n",
            b"accepted refutation\n",
        ),
        (
            ROUTE,
            "2",
            "1",
            Status::Satisfiable,
            b"s SATISFIABLE\nv 1 2 3 0\n",
            b"accepted model\n",
        ),
        (
            NO_ROUTE,
            "1",
            "1",
            Status::Unsatisfiable,
            b"s UNSATISFIABLE\n",
            b"accepted refutation\n",
        ),
        (
            b"",
            "3",
            "2",
            Status::Satisfiable,
            b"s SATISFIABLE\nv 0\n",
            b"accepted model\n",
        ),
    ];
    for (input, workers, rounds, status, beginning, verdict) in rows {
        let found = played(rt.alloc(), input, workers, rounds)?;
        assert_begins(&rt, &found, beginning, *status);
        accepts(&rt, input, found.text.as_slice(), verdict)?;
    }
    Ok(())
}
