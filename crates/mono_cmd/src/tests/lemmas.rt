//! Refutations with lemmas about graphs, judged.

use super::judges;
use std::test::Fail;

/// Two edges in a row, and a predicate that says whether they lead on.
const ROUTE: &str =
    "digraph int 3 2 0\nedge 0 0 1 1\nedge 0 1 2 2\nreach 0 0 2 3\n1 0\n2 0\n-3 0\n";

/// Two edges side by side that carry 7 together.
const PIPES: &str =
    "digraph int 2 2 0\nedge 0 0 1 1 3\nedge 0 0 1 2 4\nmaximum_flow_geq 0 0 1 3 7\n1 0\n2 0\n-3 0\n";

/// A triangle in which edges of weight 1 join all nodes, and a tree of weight 1 is asked for.
const TRIANGLE: &str =
    "digraph int 3 3 0\nedge 0 0 1 1\nedge 0 1 2 2\nedge 0 2 0 3 0\nmst_weight_leq 0 4 1\n4 0\n-3 0\n";

/// Two edges in a row that weigh 2^64 together, and a tree of weight 5 is asked for.
const HEAVY_ROUTE: &str =
    "digraph int 3 2 0\nedge 0 0 1 1 18446744073709551615\nedge 0 1 2 2 1\nmst_weight_leq 0 3 5\n1 0\n2 0\n3 0\n";

/// Two edges side by side that carry 2^64 together, and a flow of 5 is asked for.
const HEAVY_PIPES: &str =
    "digraph int 2 2 0\nedge 0 0 1 1 18446744073709551615\nedge 0 0 1 2 1\nmaximum_flow_geq 0 0 1 3 5\n3 0\n";

/// Two edges side by side that carry 7 together, both there, with flows of 7 and of 8; that of 7 is denied.
const DENIED_FLOW: &str =
    "digraph int 2 2 0\nedge 0 0 1 1 3\nedge 0 0 1 2 4\nmaximum_flow_geq 0 0 1 3 7\nmaximum_flow_geq 0 0 1 4 8\n1 0\n2 0\n-3 0\n";

#[test]
fn lemmas_are_judged(rt: HostRuntime) -> Result<(), Fail> {
    judges(
        &rt,
        &[
            // Walks.
            (
                ROUTE,
                "s UNSATISFIABLE\npath 1 -1 -2 3 0 1 2\nchain 0 4 1 2 3\n",
                "accepted refutation\n",
            ),
            (
                ROUTE,
                "s UNSATISFIABLE\npath 1 -1 3 0 1 2\n",
                "rejected 2 MissingLiteral\n",
            ),
            (
                ROUTE,
                "s UNSATISFIABLE\ncut 1 1 -3 0 1\n",
                "rejected 2 WitnessFails\n",
            ),
            (
                ROUTE,
                "s UNSATISFIABLE\nlabel 1 -3 0\n",
                "rejected 2 WrongKind\n",
            ),
            // The line feed at the end of a line that is cut short changes nothing.
            (ROUTE, "s UNSAT\n", "rejected 1 NotAnswer\n"),
            (
                ROUTE,
                "s UNSATISFIABLE\npath 1 -1 -2 3\n",
                "rejected 2 BadLine\n",
            ),
            (
                ROUTE,
                "s UNSATISFIABLE\npath 1 -1 -2 3 0 1\n",
                "rejected 2 WitnessFails\n",
            ),
            // Flows.
            (
                PIPES,
                "s UNSATISFIABLE\nflow 1 -1 -2 3 0 1 3 2 4\nchain 0 4 1 2 3\n",
                "accepted refutation\n",
            ),
            (
                PIPES,
                "s UNSATISFIABLE\nflow 1 -1 -2 3 0 1 3 2 5\nchain 0 4 1 2 3\n",
                "rejected 2 WitnessFails\n",
            ),
            (
                PIPES,
                "s UNKNOWN\nflowcut 1 1 -3 0 0\n",
                "accepted progress 0\n",
            ),
            // An amount may be the whole weight of its edge, and no more.
            (
                DENIED_FLOW,
                "s UNSATISFIABLE\nflow 1 -1 -2 3 0 1 3 2 4\nchain 0 4 1 2 3\n",
                "accepted refutation\n",
            ),
            (
                DENIED_FLOW,
                "s UNSATISFIABLE\nflow 1 -1 -2 3 0 1 3 2 5\nchain 0 4 1 2 3\n",
                "rejected 2 WitnessFails\n",
            ),
            // Trees.
            (
                TRIANGLE,
                "s UNSATISFIABLE\nleast 1 3 -4 0 1 2\nchain 0 3 2 1\n",
                "accepted refutation\n",
            ),
            (
                TRIANGLE,
                "s UNSATISFIABLE\nleast 1 -4 0 1 2\n",
                "rejected 2 MissingLiteral\n",
            ),
            (
                TRIANGLE,
                "s UNKNOWN\nsplit 1 1 3 -4 0 0\n",
                "accepted progress 0\n",
            ),
            // Great weights.
            (
                HEAVY_ROUTE,
                "s UNSATISFIABLE\nleast 1 -3 0 1 2\nchain 0 4 3\n",
                "accepted refutation\n",
            ),
            (
                HEAVY_ROUTE,
                "s UNKNOWN\ntree 1 -1 -2 3 0 1 2\n",
                "rejected 2 WitnessFails\n",
            ),
            (
                HEAVY_PIPES,
                "s UNSATISFIABLE\nflowcut 1 -3 0 0\n",
                "rejected 2 MissingLiteral\n",
            ),
            (
                HEAVY_PIPES,
                "s UNKNOWN\nflowcut 1 1 -3 0 0\n",
                "accepted progress 0\n",
            ),
        ],
    )
}
