//! A lemma of each word, examined, a checker that is fed, and a text that is generated.

ghost use Rattle.std.specs.Prelude.{◌+◌, ◌≤◌, IsTrue, OnOk, length};

use super::{assert_same, assert_same_at};
use mono_answer::{Item, read_item};
use mono_check::{Checker, MOST_FED, Verdict};
use mono_gen::{GenKind, generate};
use mono_gnf::read_gnf;
use mono_problem::Problem;
use mono_steps::{StepFault, examine};
use mono_text::Line;
use std::alloc::{AllocError, Global};
use std::process::Abort;
use std::test::Fail;

/// The fault of the step that a line says, if it is no justified step.
fn fault_of(
    alloc: Global,
    problem: &Problem,
    text: &[u8],
) -> Result<Option<StepFault>, AllocError> {
    let line = Line { number: 1, text };
    match read_item(alloc, &line) {
        Ok(Some(Item::Step(step))) => examine(alloc, problem, &[], &step),
        _ => Err(AllocError),
    }
}

/// The fault of the step that a line says over a problem that was read.
fn found_over(alloc: Global, problem: &Problem, line: &str) -> Result<Option<StepFault>, Fail> {
    let found = fault_of(alloc, problem, line.as_bytes())?;
    Ok(found)
}

/// The fault of the step that a line says over the problem of a text.
fn found_in(alloc: Global, input: &str, line: &str) -> Result<Option<StepFault>, Fail> {
    let problem = read_gnf(alloc, input.as_bytes())?;
    found_over(alloc, &problem, line)
}

const ROUTE: &str = "digraph int 3 2 0\nedge 0 0 1 1\nedge 0 1 2 2\nreach 0 0 2 3\n";

const LABELLED: &str =
    "digraph int 3 3 0\nedge 0 0 1 1 5\nedge 0 1 2 2 5\nedge 0 0 2 3 3\nweighted_distance_leq 0 0 2 4 8\n";

const PIPES: &str =
    "digraph int 2 2 0\nedge 0 0 1 1 3\nedge 0 0 1 2 4\nmaximum_flow_geq 0 0 1 3 7\nmaximum_flow_geq 0 0 1 4 8\n";

const TRIANGLE: &str =
    "digraph int 3 3 0\nedge 0 0 1 1\nedge 0 1 2 2\nedge 0 2 0 3\nmst_weight_leq 0 4 1\nmst_weight_leq 0 5 2\n";

const ROUND_TRIP: &str = "digraph int 2 2 0\nedge 0 0 1 1\nedge 0 1 0 2\nacyclic 0 3\n";

#[test]
fn lemmas_of_each_word_are_examined(rt: HostRuntime) -> Result<(), Fail> {
    for (input, line, fault) in [
        (ROUTE, "path 1 -1 -2 3 0 1 2", None),
        (ROUTE, "path 1 -1 3 0 1 2", Some(StepFault::MissingLiteral)),
        (ROUTE, "cut 1 1 -3 0 0", None),
        (LABELLED, "label 1 3 -4 0 0 0 1 5", None),
        (PIPES, "flow 1 -1 -2 3 0 1 3 2 4", None),
        (PIPES, "flowcut 2 -4 0 0", None),
        (TRIANGLE, "tree 2 -1 -2 5 0 1 2", None),
        (TRIANGLE, "split 2 1 3 -5 0 0", None),
        (TRIANGLE, "least 1 -4 0 1 2", None),
        (ROUND_TRIP, "cycle 1 -1 -2 -3 0 1 2", None),
        (ROUND_TRIP, "order 1 1 3 0 1 0", None),
        (
            ROUND_TRIP,
            "order 1 1 3 0 0 1",
            Some(StepFault::MissingLiteral),
        ),
        (ROUND_TRIP, "path 1 3 0", Some(StepFault::WrongKind)),
    ] {
        assert_same_at(&rt, &line, found_in(rt.alloc(), input, line)?, fault);
    }
    Ok(())
}

/// The checker is fed both pieces.
fn feed_both(checker: &mut Checker<'_>, first: &[u8], second: &[u8]) -> Result<(), AllocError>
    requires live { IsTrue checker.old.is_live }
    requires few { checker.old.fed + length first.now + length second.now ≤ MOST_FED }
    ensures live { OnOk result (IsTrue checker.new.is_live) }
{
    checker.feed(first)?;
    checker.feed(second)?;
    Ok(())
}

/// Whether a checker is live that was fed both pieces, and its verdict. Pieces that are too long give none.
fn verdict_on(
    alloc: Global,
    problem: &Problem,
    first: &[u8],
    second: &[u8],
) -> Result<Option<(bool, Verdict)>, AllocError> {
    if first.len() as u64 > MOST_FED / 2 || second.len() as u64 > MOST_FED / 2 {
        return Ok(None);
    }
    let mut checker = Checker::new(alloc, problem)?;
    feed_both(&mut checker, first, second)?;
    let is_live = checker.is_live();
    let verdict = checker.finish()?;
    Ok(Some((is_live, verdict)))
}

/// The verdicts on answers that come in two pieces.
fn assert_verdicts(rt: &impl Abort, alloc: Global, problem: &Problem) -> Result<(), Fail> {
    for (first, second, verdict) in [
        ("", "s UNSATISFIABLE\nchain 0 1 2\n", Verdict::Refutation),
        ("s UNSATISFIABLE\nchain 0 1 2", "\n", Verdict::Refutation),
        ("s UNSAT", "ISFIABLE\nchain 0 1 2", Verdict::Refutation),
        ("s UNKNOWN\n", "", Verdict::Progress(0)),
    ] {
        let found = verdict_on(alloc, problem, first.as_bytes(), second.as_bytes())?;
        assert_same(rt, found, Some((true, verdict)));
    }
    Ok(())
}

#[test]
fn a_checker_is_fed_in_pieces(rt: HostRuntime) -> Result<(), Fail> {
    let problem = read_gnf(rt.alloc(), b"1 0\n-1 0\n")?;
    assert_verdicts(&rt, rt.alloc(), &problem)
}

#[test]
fn a_text_is_generated(rt: HostRuntime) -> Result<(), Fail> {
    let text = generate(rt.alloc(), GenKind::Wall, 2, 7)?;
    assert_same(
        &rt,
        text.as_slice(),
        b"p gnf 9 3\ndigraph int 4 8 0\nedge 0 0 1 1 1\nedge 0 0 2 2 2\nedge 0 1 3 3 9\nedge 0 1 0 4 3\nedge 0 2 3 5 5\nedge 0 2 0 6 2\nedge 0 3 2 7 6\nedge 0 3 1 8 3\nreach 0 0 3 9\n9 0\n-1 0\n-5 0\n".as_slice(),
    );
    Ok(())
}
