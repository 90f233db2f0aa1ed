//! Tables that were worked by hand. Clauses are written as DIMACS CNF does: a 0 ends one.

use super::{add_clause, assert_same_at};
use mono_base::{Lit, Row};
use mono_problem::{Draft, Problem};
use mono_steps::{Chain, Clause, Step, StepFault, examine};
use std::alloc::{AllocError, Global};
use std::process::Abort;
use std::test::Fail;

/// Three clauses that no assignment makes true.
const REFUTED: &str = "1 2 0 -1 2 0 -2 0";

/// The literals of these numbers.
fn literals(alloc: Global, text: &str) -> Result<Vec<Lit>, AllocError> {
    let mut lits = Vec::new(alloc);
    for word in text.split_whitespace() {
        if let Ok(number) = word.parse::<i32>() {
            if let Some(lit) = Lit::new(number) {
                lits.push(lit)?;
            }
        }
    }
    Ok(lits)
}

/// The numbers of clauses.
fn clause_numbers(alloc: Global, text: &str) -> Result<Vec<u64>, AllocError> {
    let mut numbers = Vec::new(alloc);
    for word in text.split_whitespace() {
        if let Ok(number) = word.parse::<u64>() {
            numbers.push(number)?;
        }
    }
    Ok(numbers)
}

/// Adds these clauses.
fn add_all(draft: &mut Draft, alloc: Global, text: &str) -> Result<(), AllocError> {
    let mut lits = Vec::new(alloc);
    for word in text.split_whitespace() {
        if let Ok(number) = word.parse::<i32>() {
            if let Some(lit) = Lit::new(number) {
                lits.push(lit)?;
            } else {
                add_clause(draft, lits.as_slice())?;
                lits.clear();
            }
        }
    }
    Ok(())
}

/// The problem of these clauses.
fn problem_of(alloc: Global, text: &str) -> Result<Problem, AllocError> {
    let mut draft = Draft::new(alloc);
    add_all(&mut draft, alloc, text)?;
    draft.finish()
}

/// A chain as a step: its clause, and the numbers that it names.
fn step_of(alloc: Global, clause: &str, used: &str) -> Result<Step, AllocError> {
    let lits = literals(alloc, clause)?;
    let used = clause_numbers(alloc, used)?;
    Ok(Step::Chain(Chain {
        clause: Clause::from_lits(alloc, lits.as_slice())?,
        used: Row::from_vec(used),
    }))
}

/// The fault of a copy of the step as the first one.
fn fault_of_copy(
    alloc: Global,
    problem: &Problem,
    step: &Step,
) -> Result<Option<StepFault>, AllocError> {
    let copy = step.copy()?;
    examine(alloc, problem, &[], &copy)
}

/// The fault of a chain that is the first step.
fn fault_in(
    alloc: Global,
    problem: &Problem,
    clause: &str,
    used: &str,
) -> Result<Option<StepFault>, AllocError> {
    let step = step_of(alloc, clause, used)?;
    fault_of_copy(alloc, problem, &step)
}

/// The fault of a chain that is the first step over these clauses.
fn fault_of(
    alloc: Global,
    clauses: &str,
    clause: &str,
    used: &str,
) -> Result<Option<StepFault>, AllocError> {
    let problem = problem_of(alloc, clauses)?;
    fault_in(alloc, &problem, clause, used)
}

/// Each row has clauses, a chain's clause and the numbers that it names, and the fault of that chain as the first step.
fn assert_faults(
    rt: &impl Abort,
    alloc: Global,
    rows: &[(&str, &str, &str, Option<StepFault>)],
) -> Result<(), Fail> {
    for (clauses, clause, used, fault) in rows {
        let found = fault_of(alloc, clauses, clause, used)?;
        assert_same_at(rt, &(*clauses, *used), found, *fault);
    }
    Ok(())
}

#[test]
fn chains_are_examined(rt: HostRuntime) -> Result<(), Fail> {
    let rows = [
        (REFUTED, "2", "1 2", None),
        (REFUTED, "", "1 2 3", None),
        (REFUTED, "", "1 2", Some(StepFault::NotCovered)),
        (REFUTED, "", "1 3 2", Some(StepFault::NotCovered)),
        (REFUTED, "", "1 1", Some(StepFault::ChainStuck)),
        (REFUTED, "", "", Some(StepFault::ChainStuck)),
        ("", "", "", Some(StepFault::ChainStuck)),
        // More numbers than there are clauses.
        (REFUTED, "", "3 1 2 3", None),
        // One clause alone.
        (REFUTED, "2 1", "1", None),
        (REFUTED, "1", "1", Some(StepFault::NotCovered)),
        // Numbers that no clause has, and a variable beyond the problem's.
        (REFUTED, "", "1 2 4", Some(StepFault::UnknownNumber)),
        (REFUTED, "2", "0 1 2", Some(StepFault::UnknownNumber)),
        (
            REFUTED,
            "2",
            "1 2 18446744073709551615",
            Some(StepFault::UnknownNumber),
        ),
        ("", "", "1", Some(StepFault::UnknownNumber)),
        (REFUTED, "3", "1 2", Some(StepFault::UnknownNumber)),
    ];
    assert_faults(&rt, rt.alloc(), &rows)
}

#[test]
fn clauses_are_sets(rt: HostRuntime) -> Result<(), Fail> {
    let rows = [
        // Repeated literals.
        ("1 1 0 -1 -1 0", "", "1 2", None),
        (REFUTED, "1 2 -2 2 1", "1", None),
        // A variable and its negation in one clause.
        ("1 -1 0 1 0", "1", "2 1", None),
        ("1 -1 0 1 0", "1", "1 2", None),
        ("1 -1 0 1 0", "-1", "2 1", Some(StepFault::NotCovered)),
        ("1 -1 0", "1 -1", "1 1", None),
        (
            "1 -1 2 -2 0",
            "1 -1 2 -2",
            "1 1",
            Some(StepFault::ChainStuck),
        ),
        // The empty clause.
        ("0 1 0", "", "1", None),
        ("0 1 0", "1", "1", None),
        ("0 1 0", "", "1 2", Some(StepFault::ChainStuck)),
        ("0 1 0", "1", "2 1", Some(StepFault::ChainStuck)),
        // Clauses of five literals.
        ("1 2 3 4 5 0 -5 0", "1 2 3 4", "1 2", None),
        (
            "1 2 3 4 5 0 -5 0",
            "1 2 3",
            "1 2",
            Some(StepFault::NotCovered),
        ),
        ("1 2 3 4 5 0", "5 4 3 2 1", "1", None),
        ("1 2 3 4 5 0", "1 2 3 4", "1", Some(StepFault::NotCovered)),
    ];
    assert_faults(&rt, rt.alloc(), &rows)
}

/// Four literals stand in a clause itself, and five in an allocation.
#[test]
fn clauses_keep_their_literals(rt: HostRuntime) -> Result<(), Fail> {
    let alloc = rt.alloc();
    for text in ["", "1", "1 -2 3 -4", "1 -2 3 -4 5", "1 1 -1 -1 1 -1000000"] {
        let lits = literals(alloc, text)?;
        let clause = Clause::from_lits(alloc, lits.as_slice())?;
        assert_same_at(&rt, &text, clause.lits(), lits.as_slice());
        let copy = clause.copy()?;
        assert_same_at(&rt, &text, copy.lits(), lits.as_slice());
    }
    Ok(())
}
