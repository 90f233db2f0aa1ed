//! Models, judged.

use super::judges;
use std::test::Fail;

const INPUT: &str = "1 2 0\n-1 0\n";

/// An edge without a predicate is a free variable.
const FREE_EDGE: &str = "digraph int 2 1 0\nedge 0 0 1 2\n1 0\n";

/// One edge, and what says whether it leads on.
const ONE_EDGE: &str = "digraph int 2 1 0\nedge 0 0 1 1\nreach 0 0 1 2\n1 0\n";

/// A graph has all edges of the file, also those behind its predicates.
const EDGE_BEHIND: &str = "digraph int 2 1 0\nreach 0 0 1 2\nedge 0 0 1 1\n1 0\n";

/// Each clause has to be true, and a model may be laid out in any way.
#[test]
fn models_are_judged(rt: HostRuntime) -> Result<(), Fail> {
    judges(
        &rt,
        &[
            // Clauses.
            (INPUT, "s SATISFIABLE\nv -1 2 0\n", "accepted model\n"),
            (
                INPUT,
                "s SATISFIABLE\nv 1 2 0\n",
                "rejected 2 ClauseFalse 2\n",
            ),
            (
                INPUT,
                "s SATISFIABLE\nv -1 -2 0\n",
                "rejected 2 ClauseFalse 1\n",
            ),
            ("", "s SATISFIABLE\nv 0\n", "accepted model\n"),
            ("0\n", "s SATISFIABLE\nv 0\n", "rejected 2 ClauseFalse 1\n"),
            // Layouts.
            (
                INPUT,
                "c x\n\ns SATISFIABLE\nv 2\nc y\nv -1\nv 0\nv\n",
                "accepted model\n",
            ),
            (INPUT, "s\tSATISFIABLE\r\nv -01 002 -0", "accepted model\n"),
            (
                INPUT,
                "s SATISFIABLE\nv\nv 1 2\nv 0\nv\n",
                "rejected 4 ClauseFalse 2\n",
            ),
            // Edges and predicates.
            (FREE_EDGE, "s SATISFIABLE\nv 1 -2 0\n", "accepted model\n"),
            (FREE_EDGE, "s SATISFIABLE\nv 1 2 0\n", "accepted model\n"),
            (ONE_EDGE, "s SATISFIABLE\nv 1 2 0\n", "accepted model\n"),
            (
                ONE_EDGE,
                "s SATISFIABLE\nv 1 -2 0\n",
                "rejected 2 AtomWrong 1\n",
            ),
            (
                ONE_EDGE,
                "s SATISFIABLE\nv -1 2 0\n",
                "rejected 2 ClauseFalse 1\n",
            ),
            (EDGE_BEHIND, "s SATISFIABLE\nv 1 2 0\n", "accepted model\n"),
            (
                EDGE_BEHIND,
                "s SATISFIABLE\nv 1 -2 0\n",
                "rejected 2 AtomWrong 1\n",
            ),
        ],
    )
}

#[test]
fn a_faulty_model_is_rejected_by_its_first_fault(rt: HostRuntime) -> Result<(), Fail> {
    judges(
        &rt,
        &[
            (INPUT, "", "rejected 1 NotAnswer\n"),
            (INPUT, "c x\nv 1 0\n", "rejected 2 NotAnswer\n"),
            (INPUT, "s SATISFIABLE now\n", "rejected 1 NotAnswer\n"),
            (INPUT, "s SATISFIABLE\n", "rejected 1 BadLine\n"),
            (
                INPUT,
                "s SATISFIABLE\nv -1 2\nv\nc z\n",
                "rejected 3 BadLine\n",
            ),
            (INPUT, "s SATISFIABLE\nv -1 2 0 0\n", "rejected 2 BadLine\n"),
            (
                INPUT,
                "s SATISFIABLE\nv -1 -1 0 3\n",
                "rejected 2 BadLine\n",
            ),
            (
                INPUT,
                "s SATISFIABLE\nv -1 2 0\nv 1\n",
                "rejected 3 BadLine\n",
            ),
            (INPUT, "s SATISFIABLE\nv -1 +2 0\n", "rejected 2 BadLine\n"),
            (
                INPUT,
                "s SATISFIABLE\nv -1 1000001 0\n",
                "rejected 2 BadLine\n",
            ),
            (
                INPUT,
                "s SATISFIABLE\nv -1 1000000 0\n",
                "rejected 2 ModelVariables\n",
            ),
            (
                INPUT,
                "s SATISFIABLE\nv -1 0\n",
                "rejected 2 ModelVariables\n",
            ),
            (
                INPUT,
                "s SATISFIABLE\nv -1 2\nv 1 0\n",
                "rejected 3 ModelVariables\n",
            ),
            (
                INPUT,
                "s SATISFIABLE\nv -1 2 0\ns SATISFIABLE\n",
                "rejected 3 BadLine\n",
            ),
            (INPUT, "s SATISFIABLE\npath 1 0\n", "rejected 2 BadLine\n"),
        ],
    )
}
