//! Inputs that are generated, solved and summed up, how large they are, and what one conflict teaches.

use super::{assert_begins, assert_outcome, assert_same, checks, outcome_of};
use mono_forms::Status;
use mono_gnf::read_gnf;
use mono_problem::Problem;
use mono_text::Lines;
use std::process::Abort;
use std::test::Fail;

/// The run of these words writes this, and ends so.
fn writes(
    rt: &(impl Abort + AllocGlobal),
    line: &[&str],
    text: &[u8],
    status: Status,
) -> Result<(), Fail> {
    let found = outcome_of(rt.alloc(), line, b"", b"")?;
    assert_outcome(rt, &found, text, status);
    Ok(())
}

/// The generated text begins so.
fn begins(rt: &(impl Abort + AllocGlobal), line: &[&str], start: &[u8]) -> Result<(), Fail> {
    let found = outcome_of(rt.alloc(), line, b"", b"")?;
    assert_begins(rt, &found, start, Status::Printed);
    Ok(())
}

/// The generated text is solved with this status, and `check` says this of the answer.
fn solves(
    rt: &(impl Abort + AllocGlobal),
    line: &[&str],
    status: Status,
    verdict: &[u8],
) -> Result<(), Fail> {
    let input = outcome_of(rt.alloc(), line, b"", b"")?;
    let found = outcome_of(rt.alloc(), &["solve", "f"], input.text.as_slice(), b"")?;
    assert_same(rt, found.status, status);
    checks(
        rt,
        input.text.as_slice(),
        found.text.as_slice(),
        verdict,
        Status::Accepted,
    )
}

#[test]
fn generated_inputs_are_printed_and_summed_up(rt: HostRuntime) -> Result<(), Fail> {
    let rows: &[(&[&str], &str, Status)] = &[
        (
            &["gen", "wall", "2", "7"],
            "p gnf 9 3\ndigraph int 4 8 0\nedge 0 0 1 1 1\nedge 0 0 2 2 2\nedge 0 1 3 3 9\nedge 0 1 0 4 3\nedge 0 2 3 5 5\nedge 0 2 0 6 2\nedge 0 3 2 7 6\nedge 0 3 1 8 3\nreach 0 0 3 9\n9 0\n-1 0\n-5 0\n",
            Status::Printed,
        ),
        (
            &["gen", "grid", "10", "7", "--solve"],
            "variables 363\nclauses 400\nedges 360\npredicates 3\nresult satisfiable\nverdict accepted model\n",
            Status::Satisfiable,
        ),
        (
            &["gen", "wall", "10", "7", "--solve"],
            "variables 361\nclauses 11\nedges 360\npredicates 1\nresult unsatisfiable\nverdict accepted refutation\n",
            Status::Unsatisfiable,
        ),
        (
            &["gen", "grid", "30", "7", "--solve"],
            "variables 3483\nclauses 3600\nedges 3480\npredicates 3\nresult satisfiable\nverdict accepted model\n",
            Status::Satisfiable,
        ),
    ];
    for (line, text, status) in rows {
        writes(&rt, line, text.as_bytes(), *status)?;
    }
    Ok(())
}

#[test]
fn sizes_are_announced(rt: HostRuntime) -> Result<(), Fail> {
    for (kind, size, start) in [
        ("grid", "2", "p gnf 11 16\ndigraph int 4 8 0\nedge 0 0 1 1 "),
        ("grid", "10", "p gnf 363 400\ndigraph int 100 360 0\n"),
        (
            "grid",
            "100",
            "p gnf 39603 40000\ndigraph int 10000 39600 0\n",
        ),
        ("wall", "2", "p gnf 9 3\ndigraph int 4 8 0\n"),
        ("wall", "10", "p gnf 361 11\ndigraph int 100 360 0\n"),
    ] {
        begins(&rt, &["gen", kind, size, "1"], start.as_bytes())?;
    }
    Ok(())
}

#[test]
fn generated_inputs_are_solved(rt: HostRuntime) -> Result<(), Fail> {
    solves(
        &rt,
        &["gen", "grid", "10", "7"],
        Status::Satisfiable,
        b"accepted model\n",
    )?;
    solves(
        &rt,
        &["gen", "wall", "10", "7"],
        Status::Unsatisfiable,
        b"accepted refutation\n",
    )
}

/// The problem has so many variables, clauses, edges and predicates.
fn assert_counts(
    rt: &impl Abort,
    problem: &Problem,
    variables: u32,
    clauses: u32,
    edges: u32,
    predicates: u32,
) {
    assert_same(rt, problem.vars(), variables);
    assert_same(rt, problem.clause_count(), clauses);
    assert_same(rt, problem.edge_count(), edges);
    assert_same(rt, problem.atom_count(), predicates);
}

#[test]
fn generated_inputs_have_their_sizes(rt: HostRuntime) -> Result<(), Fail> {
    for (kind, size, variables, clauses, edges, predicates) in [
        ("grid", "2", 11, 16, 8, 3),
        ("grid", "10", 363, 400, 360, 3),
        ("grid", "100", 39603, 40000, 39600, 3),
        ("wall", "2", 9, 3, 8, 1),
        ("wall", "10", 361, 11, 360, 1),
    ] {
        let found = outcome_of(rt.alloc(), &["gen", kind, size, "7"], b"", b"")?;
        let problem = read_gnf(rt.alloc(), found.text.as_slice())?;
        assert_counts(&rt, &problem, variables, clauses, edges, predicates);
    }
    Ok(())
}

/// All clauses over three variables: no assignment satisfies them.
const EIGHT: &[u8] =
    b"1 2 3 0\n1 2 -3 0\n1 -2 3 0\n1 -2 -3 0\n-1 2 3 0\n-1 2 -3 0\n-1 -2 3 0\n-1 -2 -3 0\n";

/// Whether the token stands there, and is this word.
fn is(token: Option<&[u8]>, word: &[u8]) -> bool {
    match token {
        Some(token) => token == word,
        None => false,
    }
}

/// Whether behind the first line there is one line alone, a chain with a clause of two literals.
fn has_one_chain_of_two(text: &[u8]) -> bool {
    let mut lines = Lines::new(text);
    let _ = lines.next();
    let Some(line) = lines.next() else {
        return false;
    };
    if lines.next().is_some() {
        return false;
    }
    let mut tokens = line.tokens();
    is(tokens.next(), b"chain")
        && !is(tokens.next(), b"0")
        && !is(tokens.next(), b"0")
        && is(tokens.next(), b"0")
}

#[test]
fn one_conflict_teaches_a_clause_of_two_literals(rt: HostRuntime) -> Result<(), Fail> {
    let line = ["solve", "f", "--conflicts", "1"];
    let found = outcome_of(rt.alloc(), &line, EIGHT, b"")?;
    assert_begins(&rt, &found, b"s UNKNOWN\n", Status::Unknown);
    assert!(rt; has_one_chain_of_two(found.text.as_slice()));
    Ok(())
}
