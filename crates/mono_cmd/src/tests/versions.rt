//! Answers of version 2, whose chains count backwards, and answers migrated from one version to the other.

use super::{assert_outcome, judges, outcome_by};
use mono_forms::Status;
use std::test::Fail;

/// Two edges in a row that are there, and a predicate that denies that they lead on.
const INPUT: &str =
    "digraph int 3 2 0\nedge 0 0 1 1\nedge 0 1 2 2\nreach 0 0 2 3\n1 0\n2 0\n-3 0\n";

/// One refutation of it in both versions.
const ONE: &str = "s UNSATISFIABLE\npath 1 -1 -2 3 0 1 2\nchain 0 4 1 2 3\n";

const TWO: &str = "version 2\ns UNSATISFIABLE\npath 1 -1 -2 3 0 1 2\nchain 0 1 4 3 2\n";

#[test]
fn answers_of_version_two(rt: HostRuntime) -> Result<(), Fail> {
    judges(
        &rt,
        &[
            (INPUT, TWO, "accepted refutation\n"),
            (
                INPUT,
                "c x\n\n version\t2\r\nc\ns UNSATISFIABLE\npath 1 -1 -2 3 0 1 2\n\nchain 0 1 4 3 2",
                "accepted refutation\n",
            ),
            (
                INPUT,
                "version 2\ns UNSATISFIABLE\npath 1 -1 -2 3 0 1 2\nchain 0 5\n",
                "rejected 4 UnknownNumber\n",
            ),
            (
                INPUT,
                "version 2\ns UNSATISFIABLE\npath 1 -1 -2 3 0 1 2\nchain 0 0\n",
                "rejected 4 UnknownNumber\n",
            ),
            (
                INPUT,
                "version 2\ns UNSATISFIABLE\npath 1 -1 -2 3 0 1 2\nchain 0 18446744073709551615\n",
                "rejected 4 UnknownNumber\n",
            ),
            (
                INPUT,
                "version 2\ns UNSATISFIABLE\npath 1 -1 -2 3 0 1 2\nchain 0 18446744073709551616\n",
                "rejected 4 BadLine\n",
            ),
            (INPUT, "version 2\n", "rejected 1 NotAnswer\n"),
            (INPUT, "c\nversion 2", "rejected 2 NotAnswer\n"),
            (INPUT, "version 3\ns UNKNOWN\n", "rejected 1 NotAnswer\n"),
            (INPUT, "version 02\ns UNKNOWN\n", "rejected 1 NotAnswer\n"),
            (INPUT, "version 2 2\ns UNKNOWN\n", "rejected 1 NotAnswer\n"),
            (
                INPUT,
                "version 2\nversion 2\ns UNKNOWN\n",
                "rejected 2 NotAnswer\n",
            ),
            (INPUT, "s UNKNOWN\nversion 2\n", "rejected 2 BadLine\n"),
            (INPUT, "version 2\ns UNKNOWN\n", "accepted progress 0\n"),
            (
                "1 2 0\n-1 2 0\n",
                "version 2\ns UNKNOWN\nchain 2 0 1 2\nchain 2 0 1\n",
                "accepted progress 2\n",
            ),
            (
                "1 -2 0\n",
                "version 2\ns SATISFIABLE\nv 1 -2 0\n",
                "accepted model\n",
            ),
            (
                "1 -2 0\n",
                "version 2\ns SATISFIABLE\nv 1 0\n",
                "rejected 3 ModelVariables\n",
            ),
        ],
    )
}

#[test]
fn migrated_answers(rt: HostRuntime) -> Result<(), Fail> {
    let rows: &[(&str, &str, &str, &str, Status)] = &[
        (INPUT, ONE, "2", TWO, Status::Printed),
        (INPUT, TWO, "1", ONE, Status::Printed),
        (INPUT, ONE, "1", ONE, Status::Printed),
        (INPUT, TWO, "2", TWO, Status::Printed),
        (
            INPUT,
            "s UNSATISFIABLE\npath 1 -1 -2 3 0 1 2\n",
            "1",
            "rejected 2 NoEmptyClause\n",
            Status::Rejected,
        ),
        (
            INPUT,
            "c x\ns UNKNOWN\r\npath  01 3 -2 -1 3 0 1 2\nc\nchain 3 -2 3 0 4 1\n",
            "2",
            "version 2\ns UNKNOWN\npath 1 3 -2 -1 3 0 1 2\nchain 3 -2 3 0 1 4\n",
            Status::Printed,
        ),
        (
            "1 2 3 0\n",
            "s SATISFIABLE\nv 3 -2\nv\nv 1 0\nv\n",
            "2",
            "version 2\ns SATISFIABLE\nv 1 -2 3 0\n",
            Status::Printed,
        ),
        ("1 x 0\n", "", "2", "refused 1 NotNumber\n", Status::Refused),
    ];
    for (input, answer, version, text, status) in rows {
        let words = ["migrate", "f", "a", *version];
        let found = outcome_by(rt.alloc(), &words, input.as_bytes(), answer.as_bytes(), 7)?;
        assert_outcome(&rt, &found, text.as_bytes(), *status);
    }
    Ok(())
}
