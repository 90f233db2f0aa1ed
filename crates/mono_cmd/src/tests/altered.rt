//! One accepted refutation, and what becomes of it where it ends early or a line of it is another. Each reason of a rejection
//! stands here once.

use super::judges;
use std::test::Fail;

/// Two edges in a row that are there, and a predicate that denies that they lead on.
const INPUT: &str =
    "digraph int 3 2 0\nedge 0 0 1 1\nedge 0 1 2 2\nreach 0 0 2 3\n1 0\n2 0\n-3 0\n";

/// One edge, and a walk along it within weight 0.
const LABELLED: &str =
    "digraph int 2 1 0\nedge 0 0 1 1\nweighted_distance_leq 0 0 1 2 0\n1 0\n2 0\n";

#[test]
fn altered_refutations_are_judged(rt: HostRuntime) -> Result<(), Fail> {
    judges(
        &rt,
        &[
            // It ends early.
            (
                INPUT,
                "s UNSATISFIABLE\npath 1 -1 -2 3 0 1 2\nchain 0 4 1 2 3\n",
                "accepted refutation\n",
            ),
            (INPUT, "s UNSAT", "rejected 1 NotAnswer\n"),
            (INPUT, "s UNSATISFIABLE\n", "rejected 1 NoEmptyClause\n"),
            (INPUT, "s UNSATISFIABLE", "rejected 1 NoEmptyClause\n"),
            (
                INPUT,
                "s UNSATISFIABLE\npath 1 -1 -2 3",
                "rejected 2 BadLine\n",
            ),
            (
                INPUT,
                "s UNSATISFIABLE\npath 1 -1 -2 3 0 1",
                "rejected 2 WitnessFails\n",
            ),
            (
                INPUT,
                "s UNSATISFIABLE\npath 1 -1 -2 3 0 1 2\n",
                "rejected 2 NoEmptyClause\n",
            ),
            (
                INPUT,
                "s UNSATISFIABLE\npath 1 -1 -2 3 0 1 2\nchain 0 4 1 2 3",
                "accepted refutation\n",
            ),
            (
                INPUT,
                "s UNSATISFIABLE\r\npath 1 -1 -2 3 0 1 2\r\nchain 0 4 1 2 3\r\n",
                "accepted refutation\n",
            ),
            // Its last line is another.
            (
                INPUT,
                "s UNSATISFIABLE\npath 1 -1 -2 3 0 1 2\nchain\n",
                "rejected 3 BadLine\n",
            ),
            (
                INPUT,
                "s UNSATISFIABLE\npath 1 -1 -2 3 0 1 2\nchain 0\n",
                "rejected 3 BadLine\n",
            ),
            (
                INPUT,
                "s UNSATISFIABLE\npath 1 -1 -2 3 0 1 2\nchain 0 4 1 2\n",
                "rejected 3 NotCovered\n",
            ),
            (
                INPUT,
                "s UNSATISFIABLE\npath 1 -1 -2 3 0 1 2\nchain 0 4 1 2 4\n",
                "rejected 3 ChainStuck\n",
            ),
            (
                INPUT,
                "s UNSATISFIABLE\npath 1 -1 -2 3 0 1 2\nchain 0 5\n",
                "rejected 3 UnknownNumber\n",
            ),
            (
                INPUT,
                "s UNSATISFIABLE\npath 1 -1 -2 3 0 1 2\nchain 0 4 3 2 1\n",
                "accepted refutation\n",
            ),
            (
                INPUT,
                "s UNSATISFIABLE\npath 1 -1 -2 3 0 1 2\nchain 0 4 1 2 3\npath 1 -1 -2 3 0 1 2\n",
                "rejected 4 NoEmptyClause\n",
            ),
            // Each reason of a rejection.
            (
                INPUT,
                "s UNSATISFIABLE\npath 2 3 0\n",
                "rejected 2 UnknownAtom\n",
            ),
            (
                INPUT,
                "s UNSATISFIABLE\nflow 1 3 0\n",
                "rejected 2 WrongKind\n",
            ),
            (
                INPUT,
                "s UNSATISFIABLE\npath 1 -1 3 0 3\n",
                "rejected 2 UnknownNumber\n",
            ),
            (
                INPUT,
                "s UNSATISFIABLE\npath 1 4 3 0 1 2\n",
                "rejected 2 UnknownNumber\n",
            ),
            (
                INPUT,
                "s UNSATISFIABLE\nchain 0 4\n",
                "rejected 2 UnknownNumber\n",
            ),
            (
                INPUT,
                "s UNSATISFIABLE\ncut 1 -3 0 0\n",
                "rejected 2 MissingLiteral\n",
            ),
            (
                INPUT,
                "s UNSATISFIABLE\npath 1 -1 3 0 1\n",
                "rejected 2 WitnessFails\n",
            ),
            (
                INPUT,
                "s UNSATISFIABLE\nchain 0 1\n",
                "rejected 2 NotCovered\n",
            ),
        ],
    )
}

#[test]
fn altered_models_and_labels_are_judged(rt: HostRuntime) -> Result<(), Fail> {
    judges(
        &rt,
        &[
            // Each reason of a rejected model.
            (INPUT, "", "rejected 1 NotAnswer\n"),
            (INPUT, "c x\nv 1 0\n", "rejected 2 NotAnswer\n"),
            (INPUT, "s SATISFIABLE\nv 1 2 -3\n", "rejected 2 BadLine\n"),
            (
                INPUT,
                "s SATISFIABLE\nv 1 2 0\n",
                "rejected 2 ModelVariables\n",
            ),
            (
                INPUT,
                "s SATISFIABLE\nv 1 2\nv 2 0\n",
                "rejected 3 ModelVariables\n",
            ),
            (
                INPUT,
                "s SATISFIABLE\nv 1 2 3 0\n",
                "rejected 2 ClauseFalse 3\n",
            ),
            (
                INPUT,
                "s SATISFIABLE\nv 1 2 -3 0\n",
                "rejected 2 AtomWrong 1\n",
            ),
            // The greatest label is 2^60.
            (
                LABELLED,
                "s UNKNOWN\nlabel 1 1 -2 0 0 0 1 1152921504606846976\n",
                "accepted progress 0\n",
            ),
            (
                LABELLED,
                "s UNKNOWN\nlabel 1 -2 0 0 0 1 1152921504606846976\n",
                "rejected 2 MissingLiteral\n",
            ),
            (
                LABELLED,
                "s UNKNOWN\nlabel 1 1 -2 0 0 0 1 1152921504606846977\n",
                "rejected 2 BadLine\n",
            ),
        ],
    )
}
