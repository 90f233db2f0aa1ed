//! Refutations and progress, judged.

use super::judges;
use std::test::Fail;

const INPUT: &str = "1 0\n-1 0\n";

#[test]
fn chains_are_judged(rt: HostRuntime) -> Result<(), Fail> {
    judges(
        &rt,
        &[
            // The empty clause has to be the last one.
            (
                INPUT,
                "s UNSATISFIABLE\nchain 0 1 2\n",
                "accepted refutation\n",
            ),
            (INPUT, "s UNSATISFIABLE\n", "rejected 1 NoEmptyClause\n"),
            (
                INPUT,
                "s UNSATISFIABLE\nchain 1 0 1\nc end\n",
                "rejected 2 NoEmptyClause\n",
            ),
            (
                INPUT,
                "s UNSATISFIABLE\npath 1 1 0\n",
                "rejected 2 UnknownAtom\n",
            ),
            (
                INPUT,
                "s UNSATISFIABLE\nchain 0 1\n",
                "rejected 2 NotCovered\n",
            ),
            (
                INPUT,
                "s UNSATISFIABLE\nchain 0 3\n",
                "rejected 2 UnknownNumber\n",
            ),
            (
                INPUT,
                "s UNSATISFIABLE\nchain 0 0\n",
                "rejected 2 UnknownNumber\n",
            ),
            (INPUT, "s UNSATISFIABLE\nchain 0\n", "rejected 2 BadLine\n"),
            (INPUT, "s UNSATISFIABLE\nchain 1\n", "rejected 2 BadLine\n"),
            (INPUT, "s UNSATISFIABLE\nv 1 0\n", "rejected 2 BadLine\n"),
            (
                "0\n",
                "s UNSATISFIABLE\nchain 0 1\n",
                "accepted refutation\n",
            ),
            // A chain resolves on the one variable that clashes.
            (
                "1 2 0\n-1 -2 0\n",
                "s UNSATISFIABLE\nchain 0 1 2\n",
                "rejected 2 ChainStuck\n",
            ),
            (
                "1 0\n2 0\n",
                "s UNSATISFIABLE\nchain 0 1 2\n",
                "rejected 2 ChainStuck\n",
            ),
            (
                "1 2 0\n-1 2 0\n",
                "s UNKNOWN\nchain 2 0 1 2\n",
                "accepted progress 1\n",
            ),
            (
                "1 -1 0\n1 0\n",
                "s UNKNOWN\nchain 1 0 2 1\n",
                "accepted progress 1\n",
            ),
            (
                "1 -1 0\n1 -1 0\n",
                "s UNKNOWN\nchain 1 -1 0 1 2\nchain 1 0 1 2\n",
                "rejected 3 NotCovered\n",
            ),
            ("1 0\n", "s UNKNOWN\n", "accepted progress 0\n"),
            // Numbers of clauses go up to the last word.
            (
                INPUT,
                "s UNSATISFIABLE\nchain 0 18446744073709551615\n",
                "rejected 2 UnknownNumber\n",
            ),
            (
                INPUT,
                "s UNSATISFIABLE\nchain 0 18446744073709551616\n",
                "rejected 2 BadLine\n",
            ),
            (
                INPUT,
                "s UNSATISFIABLE\nchain 0 0000000000000000000000000000000000000001 2\n",
                "accepted refutation\n",
            ),
            (
                INPUT,
                "s UNSATISFIABLE\nchain 2 0 1 2\n",
                "rejected 2 UnknownNumber\n",
            ),
            (
                INPUT,
                "s UNSATISFIABLE\nchain 1 0 1\nchain 0 3 2\n",
                "accepted refutation\n",
            ),
            (
                INPUT,
                "s UNSATISFIABLE\nchain 0 3\n",
                "rejected 2 UnknownNumber\n",
            ),
            // Progress may have no steps.
            ("1 0\n-1 0\n", "s UNKNOWN\n", "accepted progress 0\n"),
            ("1 2 0\n-1 2 0\n", "s UNKNOWN\n", "accepted progress 0\n"),
            ("1 -1 0\n1 0\n", "s UNKNOWN\n", "accepted progress 0\n"),
        ],
    )
}
