//! Best bounds, each answer handed to `check` with what `ask` prints.

use super::{accepts, assert_begins, assert_outcome, assert_same, outcome_of};
use mono_forms::Status;
use std::process::Abort;
use std::test::Fail;

/// Two edges from node 0 to node 1, of the weights 3 and 4, and the flow over them.
const PARALLEL: &str =
    "digraph int 2 2 0\nedge 0 0 1 1 3\nedge 0 0 1 2 4\nmaximum_flow_geq 0 0 1 3 7\nmaximum_flow_geq 0 0 1 4 8\n";
/// The two edges and their flows, where the first edge is absent.
const ALONE: &str =
    "digraph int 2 2 0\nedge 0 0 1 1 3\nedge 0 0 1 2 4\nmaximum_flow_geq 0 0 1 3 7\nmaximum_flow_geq 0 0 1 4 8\n-1 0\n";
/// A detour of the weight 10, and a direct edge of the weight 3.
const TRIANGLE: &str =
    "digraph int 3 3 0\nedge 0 0 1 1 5\nedge 0 1 2 2 5\nedge 0 0 2 3 3\nweighted_distance_leq 0 0 2 4 8\n";
/// The detour without the direct edge.
const DETOUR: &str =
    "digraph int 3 3 0\nedge 0 0 1 1 5\nedge 0 1 2 2 5\nedge 0 0 2 3 3\nweighted_distance_leq 0 0 2 4 8\n-3 0\n";

const NO_WAY: &str =
    "digraph int 3 3 0\nedge 0 0 1 1 5\nedge 0 1 2 2 5\nedge 0 0 2 3 3\nweighted_distance_leq 0 0 2 4 8\n-3 0\n-1 0\n";
/// One edge of the greatest weight.
const WIDE: &str =
    "digraph int 2 1 0\nedge 0 0 1 1 18446744073709551615\nmaximum_flow_geq 0 0 1 2 7\n";
/// A walk of no edge, and a tree of one node.
const NOTHING: &str = "digraph int 1 0 0\ndistance_leq 0 0 0 1 5\nmst_weight_leq 0 2 5\n";
/// A sum of four amounts of 1, each added where one of the first four variables is true. Of each two one is.
const SUM: &str =
    "digraph int 5 8 0\nedge 0 0 1 9 1\nedge 0 0 1 5 0\nedge 0 1 2 9 1\nedge 0 1 2 6 0\nedge 0 2 3 9 1\nedge 0 2 3 7 0\nedge 0 3 4 9 1\nedge 0 3 4 8 0\nweighted_distance_leq 0 0 4 10 0\n9 0\n1 5 0 -1 -5 0 2 6 0 -2 -6 0 3 7 0 -3 -7 0 4 8 0 -4 -8 0\n1 2 0 3 4 0\n";

/// Each row has an input, the predicate, how what `best` writes begins, the bound that `ask` is asked for, and the verdict.
#[test]
fn best_bounds_are_accepted(rt: HostRuntime) -> Result<(), Fail> {
    let rows: &[(&str, &str, &[u8], Status, &str, &[u8])] = &[
        (
            PARALLEL,
            "1",
            b"c best 7\nc v 1 2 3 -4 5 0\ns UNSATISFIABLE\n",
            Status::Satisfiable,
            "8",
            b"accepted refutation\n",
        ),
        (
            ALONE,
            "1",
            b"c best 4\nc v -1 2 -3 -4 5 0\n",
            Status::Satisfiable,
            "5",
            b"accepted refutation\n",
        ),
        (
            TRIANGLE,
            "1",
            b"c best 3\n",
            Status::Satisfiable,
            "2",
            b"accepted refutation\n",
        ),
        (
            DETOUR,
            "1",
            b"c best 10\nc v 1 2 -3 -4 5 0\n",
            Status::Satisfiable,
            "9",
            b"accepted refutation\n",
        ),
        (
            NO_WAY,
            "1",
            b"c never\ns UNSATISFIABLE\n",
            Status::Unsatisfiable,
            "9007199254740992",
            b"accepted refutation\n",
        ),
        (
            WIDE,
            "1",
            b"c beyond\ns SATISFIABLE\n",
            Status::Satisfiable,
            "9007199254740993",
            b"accepted model\n",
        ),
        (
            SUM,
            "1",
            b"c best 2\n",
            Status::Satisfiable,
            "1",
            b"accepted refutation\n",
        ),
        (
            NOTHING,
            "1",
            b"c best 0\n",
            Status::Satisfiable,
            "-1",
            b"accepted refutation\n",
        ),
        (
            NOTHING,
            "2",
            b"c best 0\n",
            Status::Satisfiable,
            "-1",
            b"accepted refutation\n",
        ),
    ];
    for (input, atom, beginning, status, bound, verdict) in rows {
        let found = outcome_of(rt.alloc(), &["best", "f", atom], input.as_bytes(), b"")?;
        assert_begins(&rt, &found, beginning, *status);
        let asked = outcome_of(
            rt.alloc(),
            &["ask", "f", atom, bound],
            input.as_bytes(),
            b"",
        )?;
        assert_same(&rt, asked.status, Status::Printed);
        accepts(&rt, asked.text.as_slice(), found.text.as_slice(), verdict)?;
    }
    Ok(())
}

/// Walks, a cycle, a tree and a flow over one edge.
const REACHES: &str =
    "digraph int 2 1 0\nedge 0 0 1 1\nreach 0 0 1 2\nacyclic 0 3\nmst_weight_leq 0 4 5\nmaximum_flow_geq 0 0 1 5 1\n";

/// Each row has words, an input and what is written: the predicate of what is asked for once more, with a new variable that has to
/// be true, or why it is refused. The predicate comes before the bound.
#[test]
fn bounds_are_asked_for_or_refused(rt: HostRuntime) -> Result<(), Fail> {
    let rows: &[(&[&str], &str, &str, Status)] = &[
        (
            &["ask", "f", "1", "8"],
            PARALLEL,
            "p gnf 5 1\ndigraph int 2 2 0\nedge 0 0 1 1 3\nedge 0 0 1 2 4\nmaximum_flow_geq 0 0 1 3 7\nmaximum_flow_geq 0 0 1 4 8\nmaximum_flow_geq 0 0 1 5 8\n5 0\n",
            Status::Printed,
        ),
        (
            &["best", "f", "1"],
            REACHES,
            "refused 0 BadAtom\n",
            Status::Refused,
        ),
        (
            &["best", "f", "2"],
            REACHES,
            "refused 0 BadAtom\n",
            Status::Refused,
        ),
        (
            &["best", "f", "5"],
            REACHES,
            "refused 0 BadAtom\n",
            Status::Refused,
        ),
        (
            &["ask", "f", "1", "-7"],
            REACHES,
            "refused 0 BadAtom\n",
            Status::Refused,
        ),
        (
            &["ask", "f", "3", "-2"],
            REACHES,
            "refused 0 BadBound\n",
            Status::Refused,
        ),
        (
            &["ask", "f", "3", "9007199254740993"],
            REACHES,
            "refused 0 BadBound\n",
            Status::Refused,
        ),
        (
            &["ask", "f", "4", "-1"],
            REACHES,
            "refused 0 BadBound\n",
            Status::Refused,
        ),
        (
            &["best", "f", "1"],
            "digraph int 1 0 0\nmst_weight_leq 0 1000000 5\n",
            "refused 0 TooMany\n",
            Status::Refused,
        ),
    ];
    for (line, input, text, status) in rows {
        let found = outcome_of(rt.alloc(), line, input.as_bytes(), b"")?;
        assert_outcome(&rt, &found, text.as_bytes(), *status);
    }
    Ok(())
}
