//! Answers whose lemmas and models rest on each kind of witness, judged in pieces of every size.

use super::judges;
use std::test::Fail;

/// Two edges in a row, and a predicate that says whether they lead on.
const ROUTE: &str = "digraph int 3 2 0\nedge 0 0 1 1\nedge 0 1 2 2\nreach 0 0 2 3\n1 0\n2 0\n";

/// Nothing satisfies these: node 2 can't be reached without the first edge.
const NO_ROUTE: &str = "digraph int 3 2 0\nedge 0 0 1 1\nedge 0 1 2 2\nreach 0 0 2 3\n-1 0\n3 0\n";

/// A cycle of weight 0, and a walk along it within weight 0.
const LOOP: &str =
    "digraph int 2 2 0\nedge 0 0 1 1 0\nedge 0 1 0 2 0\nweighted_distance_leq 0 0 1 3 0\n1 0\n2 0\n";

const NO_LOOP: &str =
    "digraph int 2 2 0\nedge 0 0 1 1 0\nedge 0 1 0 2 0\nweighted_distance_leq 0 0 1 3 0\n1 0\n2 0\n-3 0\n";

/// A light edge to node 2 and a heavy way over node 1.
const TWO_WAYS: &str =
    "digraph int 3 3 0\nedge 0 0 1 1 5\nedge 0 1 2 2 5\nedge 0 0 2 3 3\nweighted_distance_leq 0 0 2 4 8\n-3 0\n4 0\n";

/// The variable of a predicate is that of its own edge: it holds and fails with it.
const SHARED: &str = "digraph int 2 1 0\nedge 0 0 1 1\nreach 0 0 1 1\n";

/// Two edges side by side that carry 7 together, flows of 7 and of 8, and the second is asked for.
const TOO_MUCH: &str =
    "digraph int 2 2 0\nedge 0 0 1 1 3\nedge 0 0 1 2 4\nmaximum_flow_geq 0 0 1 3 7\nmaximum_flow_geq 0 0 1 4 8\n4 0\n";

/// The first is asked for without one of its edges.
const TOO_LITTLE: &str =
    "digraph int 2 2 0\nedge 0 0 1 1 3\nedge 0 0 1 2 4\nmaximum_flow_geq 0 0 1 3 7\nmaximum_flow_geq 0 0 1 4 8\n-1 0\n3 0\n";

const ENOUGH: &str =
    "digraph int 2 2 0\nedge 0 0 1 1 3\nedge 0 0 1 2 4\nmaximum_flow_geq 0 0 1 3 7\nmaximum_flow_geq 0 0 1 4 8\n3 0\n";

/// A triangle whose spanning trees weigh 2, and a tree of weight 1.
const TRIANGLE: &str =
    "digraph int 3 3 0\nedge 0 0 1 1\nedge 0 1 2 2\nedge 0 2 0 3\nmst_weight_leq 0 4 1\n1 0 2 0 3 0\n";

const NO_TREE: &str =
    "digraph int 3 3 0\nedge 0 0 1 1\nedge 0 1 2 2\nedge 0 2 0 3\nmst_weight_leq 0 4 1\n1 0 2 0 3 0\n4 0\n";

/// The third edge weighs 0.
const LIGHT_EDGE: &str =
    "digraph int 3 3 0\nedge 0 0 1 1\nedge 0 1 2 2\nedge 0 2 0 3 0\nmst_weight_leq 0 4 1\n4 0\n-3 0\n";

#[test]
fn witnesses_and_models_are_judged(rt: HostRuntime) -> Result<(), Fail> {
    judges(
        &rt,
        &[
            // Walks, and what excludes them.
            (
                NO_ROUTE,
                "s UNSATISFIABLE\ncut 1 1 -3 0 0\nchain 0 3 1 2\n",
                "accepted refutation\n",
            ),
            (
                "digraph int 1 0 0\nreach 0 0 0 1\n-1 0\n",
                "s UNSATISFIABLE\npath 1 1 0\nchain 0 2 1\n",
                "accepted refutation\n",
            ),
            (
                "digraph int 1 0 0\ndistance_lt 0 0 0 1 0\n1 0\n",
                "s UNSATISFIABLE\nlabel 1 -1 0\nchain 0 2 1\n",
                "accepted refutation\n",
            ),
            (
                NO_LOOP,
                "s UNSATISFIABLE\npath 1 -1 3 0 1\nchain 0 4 1 3\n",
                "accepted refutation\n",
            ),
            (
                TWO_WAYS,
                "s UNSATISFIABLE\nlabel 1 3 -4 0 0 0 1 5\nchain 0 3 1 2\n",
                "accepted refutation\n",
            ),
            (LOOP, "s SATISFIABLE\nv 1 2 3 0\n", "accepted model\n"),
            (
                ROUTE,
                "s SATISFIABLE\nv 1 2 -3 0\n",
                "rejected 2 AtomWrong 1\n",
            ),
            (SHARED, "s SATISFIABLE\nv 1 0\n", "accepted model\n"),
            (SHARED, "s SATISFIABLE\nv -1 0\n", "accepted model\n"),
            // Flows, and what excludes them.
            (
                TOO_MUCH,
                "s UNSATISFIABLE\nflowcut 2 -4 0 0\nchain 0 2 1\n",
                "accepted refutation\n",
            ),
            (
                TOO_LITTLE,
                "s UNSATISFIABLE\nflowcut 1 1 -3 0 0\nchain 0 3 1 2\n",
                "accepted refutation\n",
            ),
            (
                TOO_LITTLE,
                "s UNSATISFIABLE\nflowcut 1 -3 0 0\n",
                "rejected 2 MissingLiteral\n",
            ),
            (
                "digraph int 2 0 0\nmaximum_flow_geq 0 0 1 1 0\n1 0\n",
                "s UNSATISFIABLE\nflowcut 1 -1 0 0\n",
                "rejected 2 WitnessFails\n",
            ),
            (
                "digraph int 2 0 0\nmaximum_flow_geq 0 0 1 1 0\n-1 0\n",
                "s UNSATISFIABLE\nflow 1 1 0\nchain 0 2 1\n",
                "accepted refutation\n",
            ),
            (ENOUGH, "s SATISFIABLE\nv 1 2 3 -4 0\n", "accepted model\n"),
            // Trees, and what excludes them.
            (
                "digraph int 1 0 0\nmst_weight_leq 0 1 0\n-1 0\n",
                "s UNSATISFIABLE\ntree 1 1 0\nchain 0 2 1\n",
                "accepted refutation\n",
            ),
            (
                NO_TREE,
                "s UNSATISFIABLE\nleast 1 -4 0 1 2\nchain 0 5 4\n",
                "accepted refutation\n",
            ),
            (
                "digraph int 2 1 0\nedge 0 0 1 1\nmst_weight_leq 0 2 5\n-1 0\n2 0\n",
                "s UNSATISFIABLE\nsplit 1 1 -2 0 0\nchain 0 3 1 2\n",
                "accepted refutation\n",
            ),
            (
                LIGHT_EDGE,
                "s UNSATISFIABLE\nleast 1 3 -4 0 1 1\n",
                "rejected 2 WitnessFails\n",
            ),
            (
                TRIANGLE,
                "s SATISFIABLE\nv 1 2 3 -4 0\n",
                "accepted model\n",
            ),
        ],
    )
}
