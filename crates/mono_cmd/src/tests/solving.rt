//! Problems solved, and each answer handed to `check`.

use super::acyclic::{
    BESIDE, DENIED, NO_EDGE, ONE_WAY, OWN_EDGE, OWN_LOOP, PARALLEL, ROUND_TRIP, TWO_GRAPHS,
};
use super::{assert_outcome, assert_same, checks, outcome_of};
use mono_forms::Status;
use std::alloc::{AllocError, Global};
use std::process::Abort;
use std::test::Fail;

/// Two edges in a row, and a predicate that says whether they lead on.
const ROUTE: &str = "digraph int 3 2 0\nedge 0 0 1 1\nedge 0 1 2 2\nreach 0 0 2 3\n";

/// Two edges side by side that carry 7 together, and flows of 7 and of 8.
const PIPES: &str =
    "digraph int 2 2 0\nedge 0 0 1 1 3\nedge 0 0 1 2 4\nmaximum_flow_geq 0 0 1 3 7\nmaximum_flow_geq 0 0 1 4 8\n";

/// A triangle whose spanning trees weigh 2, and a tree of weight 1.
const TRIANGLE: &str =
    "digraph int 3 3 0\nedge 0 0 1 1\nedge 0 1 2 2\nedge 0 2 0 3\nmst_weight_leq 0 4 1\n";

/// Two graphs of one edge each, under one variable.
const GRAPHS: &str = "digraph int 2 1 0\ndigraph int 2 1 1\nedge 0 0 1 1\nedge 1 0 1 1\n";

/// A cycle of weight 0, and a walk along it within weight 0.
const LOOP: &str =
    "digraph int 2 2 0\nedge 0 0 1 1 0\nedge 0 1 0 2 0\nweighted_distance_leq 0 0 1 3 0\n";

/// Two edges that make a cycle, and a predicate that says whether there is none.
const CIRCLE: &str = "digraph int 2 2 0\nedge 0 0 1 1\nedge 0 1 0 2\nacyclic 0 3\n";

/// A cycle of three edges, the predicate on cycles, a walk and a spanning tree.
const ROUND: &str =
    "digraph int 3 3 0\nedge 0 0 1 1\nedge 0 1 2 2\nedge 0 2 0 3\nreach 0 0 2 4\nmst_weight_leq 0 5 2\nacyclic 0 6\n";

/// All clauses over three variables: no assignment satisfies them.
const EIGHT: &str = "1 2 3 0 1 2 -3 0 1 -2 3 0 1 -2 -3 0 -1 2 3 0 -1 2 -3 0 -1 -2 3 0 -1 -2 -3 0\n";

/// Five pigeons in four holes, each in one and no two in the same.
const PIGEONS: &str =
    "1 2 3 4 0 5 6 7 8 0 9 10 11 12 0 13 14 15 16 0 17 18 19 20 0\n-1 -5 0 -1 -9 0 -1 -13 0 -1 -17 0 -5 -9 0 -5 -13 0 -5 -17 0 -9 -13 0 -9 -17 0 -13 -17 0\n-2 -6 0 -2 -10 0 -2 -14 0 -2 -18 0 -6 -10 0 -6 -14 0 -6 -18 0 -10 -14 0 -10 -18 0 -14 -18 0\n-3 -7 0 -3 -11 0 -3 -15 0 -3 -19 0 -7 -11 0 -7 -15 0 -7 -19 0 -11 -15 0 -11 -19 0 -15 -19 0\n-4 -8 0 -4 -12 0 -4 -16 0 -4 -20 0 -8 -12 0 -8 -16 0 -8 -20 0 -12 -16 0 -12 -20 0 -16 -20 0\n";

/// The parts, one after the other.
fn joined(alloc: Global, parts: &[&str]) -> Result<String, AllocError> {
    let mut text = String::new(alloc);
    for part in parts {
        text.push_str(part)?;
    }
    Ok(text)
}

/// The run of these words ends so, and `check` says this of what it wrote.
fn answers(
    rt: &(impl Abort + AllocGlobal),
    line: &[&str],
    input: &[u8],
    status: Status,
    verdict: &[u8],
) -> Result<(), Fail> {
    let found = outcome_of(rt.alloc(), line, input, b"")?;
    assert_same(rt, found.status, status);
    checks(rt, input, found.text.as_slice(), verdict, Status::Accepted)
}

/// Each row is an input in two parts that nothing satisfies.
fn refutes_each(rt: &(impl Abort + AllocGlobal), rows: &[(&str, &str)]) -> Result<(), Fail> {
    for (start, rest) in rows {
        let input = joined(rt.alloc(), &[*start, *rest])?;
        let text = b"accepted refutation\n";
        answers(
            rt,
            &["solve", "f"],
            input.as_bytes(),
            Status::Unsatisfiable,
            text,
        )?;
    }
    Ok(())
}

/// The one model of the input is found.
fn finds(rt: &(impl Abort + AllocGlobal), input: &[u8], text: &[u8]) -> Result<(), Fail> {
    let found = outcome_of(rt.alloc(), &["solve", "f"], input, b"")?;
    assert_outcome(rt, &found, text, Status::Satisfiable);
    checks(rt, input, text, b"accepted model\n", Status::Accepted)
}

/// The one model of the input, which is in two parts, is found.
fn finds_model(
    rt: &(impl Abort + AllocGlobal),
    start: &str,
    rest: &str,
    model: &str,
) -> Result<(), Fail> {
    let input = joined(rt.alloc(), &[start, rest])?;
    let text = joined(rt.alloc(), &["s SATISFIABLE\nv ", model, " 0\n"])?;
    finds(rt, input.as_bytes(), text.as_bytes())
}

/// Each row is an input in two parts, and its one model.
fn finds_each(rt: &(impl Abort + AllocGlobal), rows: &[(&str, &str, &str)]) -> Result<(), Fail> {
    for (start, rest, model) in rows {
        finds_model(rt, start, rest, model)?;
    }
    Ok(())
}

/// Two edges side by side that carry 7 together, both there, with flows of 7 and of 8; that of 7 is denied.
const DENIED_FLOW: &str =
    "digraph int 2 2 0\nedge 0 0 1 1 3\nedge 0 0 1 2 4\nmaximum_flow_geq 0 0 1 3 7\nmaximum_flow_geq 0 0 1 4 8\n1 0\n2 0\n-3 0\n";

/// A light edge to node 2 that is missing, and a way over node 1 that weighs 10 where at most 8 is asked for.
const HEAVY_WAY: &str =
    "digraph int 3 3 0\nedge 0 0 1 1 5\nedge 0 1 2 2 5\nedge 0 0 2 3 3\nweighted_distance_leq 0 0 2 4 8\n-3 0\n4 0\n";

/// A triangle of which an edge of weight 0 is missing, and a spanning tree of weight 1 is asked for.
const HEAVY_TREE: &str =
    "digraph int 3 3 0\nedge 0 0 1 1\nedge 0 1 2 2\nedge 0 2 0 3 0\nmst_weight_leq 0 4 1\n4 0\n-3 0\n";

/// A triangle whose spanning trees weigh 2, and one of weight 1 is asked for. The clauses share a line.
const TIED_TREES: &str =
    "digraph int 3 3 0\nedge 0 0 1 1\nedge 0 1 2 2\nedge 0 2 0 3\nmst_weight_leq 0 4 1\n1 0 2 0 3 0\n4 0\n";

/// A triangle of free edges with a bound on its spanning trees, of which nothing is asked for.
const FREE_TREES: &str =
    "digraph int 3 3 0\nedge 0 0 1 1\nedge 0 1 2 2\nedge 0 2 0 3\nmst_weight_leq 0 4 1\n1 0 2 0 3 0\n";

#[test]
fn inputs_with_one_model_are_solved(rt: HostRuntime) -> Result<(), Fail> {
    finds(&rt, b"", b"s SATISFIABLE\nv 0\n")?;
    answers(
        &rt,
        &["solve", "f"],
        b"p cnf 4 0\n2 3 0\n",
        Status::Satisfiable,
        b"accepted model\n",
    )?;
    finds_each(
        &rt,
        &[
            ("-1 0\n1 2 2 0\n", "3 -3 0 3 0\n", "-1 2 3"),
            (ROUTE, "1 0\n2 0\n", "1 2 3"),
            (GRAPHS, "reach 0 0 1 2\nreach 1 0 1 3\n2 0\n", "1 2 3"),
            ("digraph int 2 1 0\nedge 0 0 1 1\n", "1 0\n", "1"),
            (LOOP, "1 0\n2 0\n", "1 2 3"),
            (PIPES, "3 0\n", "1 2 3 -4"),
            (TRIANGLE, "1 0\n2 0\n3 0\n", "1 2 3 -4"),
            (FREE_TREES, "", "1 2 3 -4"),
            // Cycles are those of the predicate's graph alone, parallel edges make none, and a predicate may be the variable of its edges.
            (CIRCLE, "1 0\n2 0\n", "1 2 -3"),
            (CIRCLE, "3 0\n2 0\n", "-1 2 3"),
            (
                "digraph int 2 2 0\nedge 0 0 1 1\nedge 0 0 1 2\n",
                "acyclic 0 3\n1 0\n2 0\n",
                "1 2 3",
            ),
            (
                "digraph int 2 2 0\nedge 0 0 1 1\nedge 0 1 0 2\n",
                "acyclic 0 1\n",
                "1 -2",
            ),
            (
                "digraph int 2 1 0\ndigraph int 2 1 1\nedge 0 0 1 1\nedge 1 1 0 1\n",
                "acyclic 0 2\nacyclic 1 3\n1 0\n",
                "1 2 3",
            ),
            (ROUND, "1 0\n2 0\n3 0\n", "1 2 3 4 5 -6"),
            (ROUND, "4 0\n6 0\n5 0\n", "1 2 -3 4 5 6"),
            (ROUND_TRIP, "", "1 2 -3"),
            (TWO_GRAPHS, "", "1 2 3 -4"),
            (BESIDE, "", "1 -2 3 4 5"),
        ],
    )
}

#[test]
fn inputs_without_a_model_are_refuted(rt: HostRuntime) -> Result<(), Fail> {
    refutes_each(
        &rt,
        &[
            ("0\n", ""),
            ("1 0\n", "-1 0\n"),
            (EIGHT, ""),
            (PIGEONS, ""),
            (ROUTE, "1 0\n2 0\n-3 0\n"),
            (ROUTE, "-1 0\n3 0\n"),
            ("digraph int 1 0 0\n", "reach 0 0 0 1\n-1 0\n"),
            ("digraph int 1 0 0\n", "distance_lt 0 0 0 1 0\n1 0\n"),
            (PIPES, "4 0\n"),
            (TRIANGLE, "1 0\n2 0\n3 0\n4 0\n"),
            ("digraph int 1 0 0\n", "mst_weight_leq 0 1 0\n-1 0\n"),
            (DENIED_FLOW, ""),
            (HEAVY_WAY, ""),
            (HEAVY_TREE, ""),
            (TIED_TREES, ""),
            (CIRCLE, "1 0\n2 0\n3 0\n"),
            (CIRCLE, "-1 0\n-3 0\n"),
            (CIRCLE, "reach 0 0 1 4\nreach 0 1 0 5\n3 0\n4 0\n5 0\n"),
            ("digraph int 1 0 0\n", "acyclic 0 1\n-1 0\n"),
            (
                "digraph int 1 1 0\nedge 0 0 0 1\n",
                "acyclic 0 2\n1 0\n2 0\n",
            ),
            ("digraph int 1 1 0\nedge 0 0 0 1\n", "acyclic 0 1\n"),
            (DENIED, ""),
            (ONE_WAY, ""),
            (OWN_LOOP, ""),
            (NO_EDGE, ""),
            (PARALLEL, ""),
            (OWN_EDGE, ""),
        ],
    )
}

/// One edge of the greatest weight.
const HEAVY: &str = "digraph int 2 1 0\nedge 0 0 1 1 18446744073709551615\n";

/// Two edges in a row that weigh 2^64 together.
const HEAVY_ROUTE: &str = "digraph int 3 2 0\nedge 0 0 1 1 18446744073709551615\nedge 0 1 2 2 1\n";

/// Two edges side by side that carry 2^64 together.
const HEAVY_PIPES: &str = "digraph int 2 2 0\nedge 0 0 1 1 18446744073709551615\nedge 0 0 1 2 1\n";

/// One edge of weight 2^53, and one of 2^53 + 1.
const EVEN: &str = "digraph int 2 1 0\nedge 0 0 1 1 9007199254740992\n";

const ODD: &str = "digraph int 2 1 0\nedge 0 0 1 1 9007199254740993\n";

#[test]
fn sums_of_great_weights_are_exact(rt: HostRuntime) -> Result<(), Fail> {
    finds_each(
        &rt,
        &[
            (
                HEAVY,
                "reach 0 0 1 2\ndistance_leq 0 0 1 3 1\nacyclic 0 4\n1 0\n",
                "1 2 3 4",
            ),
            (
                HEAVY,
                "weighted_distance_leq 0 0 1 2 9007199254740992\n1 0\n",
                "1 -2",
            ),
            (
                HEAVY,
                "maximum_flow_gt 0 0 1 2 9007199254740992\n1 0\n",
                "1 2",
            ),
            (HEAVY, "mst_weight_leq 0 2 9007199254740992\n1 0\n", "1 -2"),
            (
                HEAVY_ROUTE,
                "weighted_distance_leq 0 0 2 3 5\n1 0\n2 0\n",
                "1 2 -3",
            ),
            (
                HEAVY_ROUTE,
                "maximum_flow_gt 0 0 2 3 1\n1 0\n2 0\n",
                "1 2 -3",
            ),
            (HEAVY_ROUTE, "mst_weight_leq 0 3 5\n1 0\n2 0\n", "1 2 -3"),
            (
                HEAVY_PIPES,
                "maximum_flow_geq 0 0 1 3 5\n2 0\n3 0\n",
                "1 2 3",
            ),
            (
                HEAVY_PIPES,
                "weighted_distance_leq 0 0 1 3 1\n1 0\n3 0\n",
                "1 2 3",
            ),
            (
                EVEN,
                "weighted_distance_leq 0 0 1 2 9007199254740992\n1 0\n",
                "1 2",
            ),
            (
                EVEN,
                "maximum_flow_gt 0 0 1 2 9007199254740992\n1 0\n",
                "1 -2",
            ),
            (EVEN, "mst_weight_leq 0 2 9007199254740992\n1 0\n", "1 2"),
            (
                ODD,
                "weighted_distance_leq 0 0 1 2 9007199254740992\n1 0\n",
                "1 -2",
            ),
            (
                ODD,
                "maximum_flow_gt 0 0 1 2 9007199254740992\n1 0\n",
                "1 2",
            ),
            (ODD, "mst_weight_leq 0 2 9007199254740992\n1 0\n", "1 -2"),
        ],
    )?;
    refutes_each(
        &rt,
        &[
            (
                HEAVY,
                "weighted_distance_leq 0 0 1 2 9007199254740992\n2 0\n",
            ),
            (
                HEAVY,
                "maximum_flow_geq 0 0 1 2 9007199254740992\n1 0\n-2 0\n",
            ),
            (HEAVY_ROUTE, "weighted_distance_leq 0 0 2 3 5\n3 0\n"),
            (HEAVY_ROUTE, "mst_weight_leq 0 3 5\n1 0\n2 0\n3 0\n"),
            (HEAVY_PIPES, "maximum_flow_geq 0 0 1 3 5\n1 0\n-3 0\n"),
            (HEAVY_PIPES, "maximum_flow_geq 0 0 1 3 5\n-1 0\n3 0\n"),
            (ODD, "weighted_distance_leq 0 0 1 2 9007199254740992\n2 0\n"),
            (EVEN, "maximum_flow_gt 0 0 1 2 9007199254740992\n2 0\n"),
            (ODD, "mst_weight_leq 0 2 9007199254740992\n2 0\n"),
        ],
    )
}

/// The clauses are refuted within the budget, or it is spent.
fn spends(rt: &(impl Abort + AllocGlobal), budget: &str, enough: bool) -> Result<(), Fail> {
    let input = EIGHT.as_bytes();
    let line = ["solve", "f", "--conflicts", budget];
    if enough {
        let text = b"accepted refutation\n";
        return answers(rt, &line, input, Status::Unsatisfiable, text);
    }
    let verdict = joined(rt.alloc(), &["accepted progress ", budget, "\n"])?;
    answers(rt, &line, input, Status::Unknown, verdict.as_bytes())
}

/// Three conflicts above level 0 are met, whatever is decided.
#[test]
fn a_budget_is_spent_or_enough(rt: HostRuntime) -> Result<(), Fail> {
    for budget in "1 2".split(' ') {
        spends(&rt, budget, false)?;
    }
    let enough = "3 4 5 6 7 8 9 10 11 12 13 14 15 16 17 18 19 20 21 22 23 24 25 26 27";
    for budget in enough.split(' ') {
        spends(&rt, budget, true)?;
    }
    Ok(())
}

/// Two runs over the input write the same.
fn writes_the_same(
    rt: &(impl Abort + AllocGlobal),
    input: &[u8],
    status: Status,
) -> Result<(), Fail> {
    let first = outcome_of(rt.alloc(), &["solve", "f"], input, b"")?;
    let second = outcome_of(rt.alloc(), &["solve", "f"], input, b"")?;
    assert_same(rt, first.status, status);
    assert_outcome(rt, &second, first.text.as_slice(), status);
    Ok(())
}

#[test]
fn two_runs_write_the_same(rt: HostRuntime) -> Result<(), Fail> {
    let grid = outcome_of(rt.alloc(), &["gen", "grid", "10", "7"], b"", b"")?;
    writes_the_same(&rt, PIGEONS.as_bytes(), Status::Unsatisfiable)?;
    writes_the_same(&rt, grid.text.as_slice(), Status::Satisfiable)
}
