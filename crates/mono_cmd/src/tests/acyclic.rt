//! The predicate that there is no cycle: answers, judged.

use super::judges;
use std::test::Fail;

/// There and back between two nodes: variable 3 says that there is no cycle.
pub(super) const ROUND_TRIP: &str =
    "digraph int 2 2 0\nedge 0 0 1 1\nedge 0 1 0 2\nacyclic 0 3\n1 0\n2 0\n";

pub(super) const DENIED: &str =
    "digraph int 2 2 0\nedge 0 0 1 1\nedge 0 1 0 2\nacyclic 0 3\n1 0\n2 0\n3 0\n";

pub(super) const ONE_WAY: &str =
    "digraph int 2 2 0\nedge 0 0 1 1\nedge 0 1 0 2\nacyclic 0 3\n-1 0\n-3 0\n";

/// An edge from a node to itself.
pub(super) const OWN_LOOP: &str = "digraph int 1 1 0\nedge 0 0 0 1\nacyclic 0 2\n1 0\n2 0\n";

pub(super) const NO_EDGE: &str = "digraph int 1 0 0\nacyclic 0 1\n-1 0\n";

/// Two edges from one node to another, and there is no cycle.
pub(super) const PARALLEL: &str =
    "digraph int 2 2 0\nedge 0 0 1 1\nedge 0 0 1 2\nacyclic 0 3\n1 0\n2 0\n-3 0\n";

/// Two graphs over the same variables, of which one has a cycle.
pub(super) const TWO_GRAPHS: &str =
    "digraph int 2 1 0\ndigraph int 2 2 1\nedge 0 0 1 1\nedge 1 0 1 1\nedge 1 1 0 2\nacyclic 0 3\nacyclic 1 4\n1 0\n2 0\n";

/// The variable of the predicate is that of an edge: the cycle is there exactly where the edge is, which says that there is none.
pub(super) const OWN_EDGE: &str =
    "digraph int 2 2 0\nedge 0 0 1 1\nedge 0 1 0 2\nacyclic 0 2\n1 0\n";

/// Beside walks and trees on one graph.
pub(super) const BESIDE: &str =
    "digraph int 2 2 0\nedge 0 0 1 1\nedge 0 1 0 2\nacyclic 0 3\nreach 0 0 1 4\nmst_weight_leq 0 5 1\n3 0\n4 0\n5 0\n";

#[test]
fn answers_on_cycles_are_judged(rt: HostRuntime) -> Result<(), Fail> {
    judges(
        &rt,
        &[
            // Cycles and orders.
            (
                DENIED,
                "s UNSATISFIABLE\ncycle 1 -1 -2 -3 0 1 2\nchain 0 4 1 2 3\n",
                "accepted refutation\n",
            ),
            (
                ONE_WAY,
                "s UNSATISFIABLE\norder 1 1 3 0 1 0\nchain 0 3 1 2\n",
                "accepted refutation\n",
            ),
            (
                ONE_WAY,
                "s UNSATISFIABLE\norder 1 1 3 0 0 1\n",
                "rejected 2 MissingLiteral\n",
            ),
            (
                ONE_WAY,
                "s UNSATISFIABLE\norder 1 1 3 0 0\n",
                "rejected 2 WitnessFails\n",
            ),
            (
                OWN_LOOP,
                "s UNSATISFIABLE\ncycle 1 -1 -2 0 1\nchain 0 3 1 2\n",
                "accepted refutation\n",
            ),
            (
                NO_EDGE,
                "s UNSATISFIABLE\norder 1 1 0 0\nchain 0 2 1\n",
                "accepted refutation\n",
            ),
            // What is no cycle or order.
            (
                DENIED,
                "s UNKNOWN\ncycle 1 -1 -2 -3 0 2 1 2 1\n",
                "accepted progress 0\n",
            ),
            (
                DENIED,
                "s UNKNOWN\ncycle 1 -1 -3 0 1 2\n",
                "rejected 2 MissingLiteral\n",
            ),
            (
                DENIED,
                "s UNKNOWN\ncycle 1 -1 -2 -3 0 1\n",
                "rejected 2 WitnessFails\n",
            ),
            (
                DENIED,
                "s UNKNOWN\ncycle 1 -1 -2 -3 0\n",
                "rejected 2 WitnessFails\n",
            ),
            (
                DENIED,
                "s UNKNOWN\norder 1 1 3 0 1 0 1\n",
                "rejected 2 WitnessFails\n",
            ),
            (
                DENIED,
                "s UNKNOWN\norder 1 1 3 0 0 2\n",
                "rejected 2 UnknownNumber\n",
            ),
            (
                DENIED,
                "s UNKNOWN\npath 1 -1 -2 -3 0 1 2\n",
                "rejected 2 WrongKind\n",
            ),
            (
                PARALLEL,
                "s UNKNOWN\ncycle 1 -1 -2 -3 0 1 2\n",
                "rejected 2 WitnessFails\n",
            ),
            // Models.
            (
                ROUND_TRIP,
                "s SATISFIABLE\nv 1 2 -3 0\n",
                "accepted model\n",
            ),
            (
                ROUND_TRIP,
                "s SATISFIABLE\nv 1 2 3 0\n",
                "rejected 2 AtomWrong 1\n",
            ),
            (
                TWO_GRAPHS,
                "s SATISFIABLE\nv 1 2 3 -4 0\n",
                "accepted model\n",
            ),
            (
                TWO_GRAPHS,
                "s SATISFIABLE\nv 1 2 -3 -4 0\n",
                "rejected 2 AtomWrong 1\n",
            ),
            (
                TWO_GRAPHS,
                "s SATISFIABLE\nv 1 2 3 4 0\n",
                "rejected 2 AtomWrong 2\n",
            ),
        ],
    )
}
