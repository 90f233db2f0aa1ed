//! Files and words at their limits, and files beyond.

ghost use Rattle.std.specs.Prelude.{◌≤◌};

use super::assert_same;
use super::faults::{INPUT, MODEL, ends_within, ends_without_answer};
use mono_check::{CheckRefusal, Reason, Verdict, verdict_from};
use mono_forms::Status;
use mono_gnf::read_gnf;
use mono_io::{GREATEST_LIMIT, MemoryShelf};
use mono_problem::Problem;
use std::alloc::Global;
use std::process::Abort;
use std::test::Fail;

/// A name of 300 bytes.
const LONG_NAME: &str =
    "a.a.a.a.a.a.a.a.a.a.a.a.a.a.a.a.a.a.a.a.a.a.a.a.a.a.a.a.a.a.a.a.a.a.a.a.a.a.a.a.a.a.a.a.a.a.a.a.a.a.\
     a.a.a.a.a.a.a.a.a.a.a.a.a.a.a.a.a.a.a.a.a.a.a.a.a.a.a.a.a.a.a.a.a.a.a.a.a.a.a.a.a.a.a.a.a.a.a.a.a.a.\
     a.a.a.a.a.a.a.a.a.a.a.a.a.a.a.a.a.a.a.a.a.a.a.a.a.a.a.a.a.a.a.a.a.a.a.a.a.a.a.a.a.a.a.a.a.a.a.a.a.a.";

/// Each row has words, and how their run over this input ends.
fn each_ends(
    rt: &(impl Abort + AllocGlobal),
    input: &[u8],
    rows: &[(&[&str], &str, Status)],
) -> Result<(), Fail> {
    for (line, text, status) in rows {
        ends_without_answer(rt, line, input, text.as_bytes(), *status)?;
    }
    Ok(())
}

/// An input may have 2^28 bytes.
#[test]
fn an_input_at_its_limit_is_read(rt: HostRuntime) -> Result<(), Fail> {
    let spaces = vec![in rt.alloc(); b' '; 1 << 28]?;
    each_ends(
        &rt,
        spaces.as_slice(),
        &[
            (&["print", "f"], "p gnf 0 0\n", Status::Printed),
            (&["solve", "f"], "s SATISFIABLE\nv 0\n", Status::Satisfiable),
        ],
    )
}

/// One that has more is told before a missing answer.
#[test]
fn an_input_beyond_its_limit_is_too_long(rt: HostRuntime) -> Result<(), Fail> {
    let spaces = vec![in rt.alloc(); b' '; (1 << 28) + 1]?;
    each_ends(
        &rt,
        spaces.as_slice(),
        &[
            (&["solve", "f"], "too long\n", Status::TooLong),
            (&["check", "f", "missing"], "too long\n", Status::TooLong),
        ],
    )
}

/// With as many clauses as there may be, there is no room for one more of each assumption, whether ANSWER is there or not.
#[test]
fn assumptions_find_no_room(rt: HostRuntime) -> Result<(), Fail> {
    let clause: &[u8] = b"0\n";
    let clauses = clause.repeat(rt.alloc(), 8_000_000)?;
    each_ends(
        &rt,
        clauses.as_slice(),
        &[
            (&["core", "f", "1"], "refused 0 TooMany\n", Status::Refused),
            (
                &["check-with", "f", "missing", "1"],
                "refused 0 TooMany\n",
                Status::Refused,
            ),
        ],
    )
}

/// The greatest budget, one name for FILE and ANSWER, and a path of more than 255 bytes.
#[test]
fn words_at_their_limits_are_taken(rt: HostRuntime) -> Result<(), Fail> {
    each_ends(
        &rt,
        INPUT.as_bytes(),
        &[
            (
                &["solve", "f", "--conflicts", "18446744073709551615"],
                MODEL,
                Status::Satisfiable,
            ),
            (
                &["check", "f", "f"],
                "rejected 1 NotAnswer\n",
                Status::Rejected,
            ),
        ],
    )?;
    let mut shelf = MemoryShelf::new(rt.alloc());
    shelf.put(LONG_NAME, INPUT.as_bytes())?;
    let text = b"p gnf 2 2\n1 2 0\n-1 0\n";
    ends_within(
        &rt,
        &["print", LONG_NAME],
        &mut shelf,
        100,
        text,
        Status::Printed,
    )
}

/// The verdict on a text for the problem, read up to a limit.
fn verdict_of(
    alloc: Global,
    problem: &Problem,
    text: &[u8],
    limit: u64,
) -> Result<Verdict, CheckRefusal>
    requires { limit ≤ GREATEST_LIMIT }
{
    let mut shelf = MemoryShelf::new(alloc);
    shelf.put("a", text)?;
    verdict_from(alloc, problem, &mut shelf, "a", limit)
}

/// The verdict on a text for the empty problem, read up to a limit.
fn verdict_within(alloc: Global, text: &[u8], limit: u64) -> Result<Verdict, CheckRefusal>
    requires { limit ≤ GREATEST_LIMIT }
{
    match read_gnf(alloc, b"") {
        Ok(problem) => verdict_of(alloc, &problem, text, limit),
        Err(_) => Err(CheckRefusal::Memory),
    }
}

#[test]
fn an_answer_beyond_its_limit_is_told_before_its_faults(rt: HostRuntime) -> Result<(), Fail> {
    let rejected = Ok(Verdict::Rejected {
        line: 1,
        reason: Reason::NotAnswer,
    });
    let line = b"x                    ";
    assert_same(&rt, verdict_within(rt.alloc(), b"", 0), rejected);
    assert_same(
        &rt,
        verdict_within(rt.alloc(), b" ", 0),
        Err(CheckRefusal::TooLong),
    );
    assert_same(
        &rt,
        verdict_within(rt.alloc(), line, 20),
        Err(CheckRefusal::TooLong),
    );
    assert_same(&rt, verdict_within(rt.alloc(), line, 21), rejected);
    Ok(())
}
