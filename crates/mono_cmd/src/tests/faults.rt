//! Files that can't be read, and outputs that can't be written.

use super::{assert_same, put_files, run_words, shelf_of};
use mono_forms::Status;
use mono_io::{MemoryShelf, MemorySink};
use std::alloc::{AllocError, Global};
use std::process::Abort;
use std::test::Fail;

pub(super) const INPUT: &str = "1 2 0\n-1 0\n";

pub(super) const MODEL: &str = "s SATISFIABLE\nv -1 2 0\n";

const OTHER: &str = "s SATISFIABLE\nv 1 2 0\n";

const BAD: &str = "bad\n\n\n\n\n\n\n\n";

/// Two edges in a row that are there, and a predicate that denies that they lead on.
const DENIED: &str =
    "digraph int 3 2 0\nedge 0 0 1 1\nedge 0 1 2 2\nreach 0 0 2 3\n1 0\n2 0\n-3 0\n";

const REFUTATION: &str = "s UNSATISFIABLE\npath 1 -1 -2 3 0 1 2\nchain 0 4 1 2 3\n";

/// The line of two edges and its predicate, of which nothing is denied.
const ROUTE: &str = "digraph int 3 2 0\nedge 0 0 1 1\nedge 0 1 2 2\nreach 0 0 2 3\n1 0\n2 0\n";

/// The run of these words writes this text into the output, and ends so.
fn ends_in(
    rt: &(impl Abort + AllocGlobal),
    line: &[&str],
    shelf: &mut MemoryShelf,
    out: &mut MemorySink,
    text: &[u8],
    status: Status,
) -> Result<(), Fail> {
    let found = run_words(rt.alloc(), line, shelf, out)?;
    assert_same(rt, out.bytes(), text);
    assert_same(rt, found, status);
    Ok(())
}

/// How a run ends whose output takes so many bytes.
pub(super) fn ends_within(
    rt: &(impl Abort + AllocGlobal),
    line: &[&str],
    shelf: &mut MemoryShelf,
    room: usize,
    text: &[u8],
    status: Status,
) -> Result<(), Fail> {
    let mut out = MemorySink::new(rt.alloc(), room)?;
    ends_in(rt, line, shelf, &mut out, text, status)
}

/// A shelf that holds the file `f` alone.
fn shelf_of_input(alloc: Global, input: &[u8]) -> Result<MemoryShelf, AllocError> {
    let mut shelf = MemoryShelf::new(alloc);
    shelf.put("f", input)?;
    Ok(shelf)
}

/// The run of these words over a shelf that holds the file `f` alone ends so.
pub(super) fn ends_without_answer(
    rt: &(impl Abort + AllocGlobal),
    line: &[&str],
    input: &[u8],
    text: &[u8],
    status: Status,
) -> Result<(), Fail> {
    let mut shelf = shelf_of_input(rt.alloc(), input)?;
    ends_within(rt, line, &mut shelf, 100, text, status)
}

/// Each row has words, the input and how the run ends: a fault of the input is told before a missing answer.
#[test]
fn a_missing_file_is_a_read_fault(rt: HostRuntime) -> Result<(), Fail> {
    let rows: &[(&[&str], &str, &str, Status)] = &[
        (
            &["check", "missing", "f"],
            INPUT,
            "read fault\n",
            Status::ReadFault,
        ),
        (
            &["check", "f", "missing"],
            INPUT,
            "read fault\n",
            Status::ReadFault,
        ),
        (
            &["check", "f", "missing"],
            "1 0\nbogus\n",
            "refused 2 UnknownWord\n",
            Status::Refused,
        ),
        (&["solve", "missing"], "", "read fault\n", Status::ReadFault),
        (&["print", "missing"], "", "read fault\n", Status::ReadFault),
        (
            &["core", "missing", "1"],
            INPUT,
            "read fault\n",
            Status::ReadFault,
        ),
        (
            &["check-with", "missing", "f", "1"],
            INPUT,
            "read fault\n",
            Status::ReadFault,
        ),
        (
            &["check-with", "f", "missing", "1"],
            INPUT,
            "read fault\n",
            Status::ReadFault,
        ),
        (
            &["best", "missing", "1"],
            INPUT,
            "read fault\n",
            Status::ReadFault,
        ),
        (
            &["ask", "missing", "1", "4"],
            INPUT,
            "read fault\n",
            Status::ReadFault,
        ),
        (
            &["team", "missing", "1", "1"],
            INPUT,
            "read fault\n",
            Status::ReadFault,
        ),
        (
            &["migrate", "f", "b", "2"],
            DENIED,
            "read fault\n",
            Status::ReadFault,
        ),
        (
            &["migrate", "f", "b", "2"],
            "1 x 0\n",
            "refused 1 NotNumber\n",
            Status::Refused,
        ),
    ];
    for (line, input, text, status) in rows {
        ends_without_answer(&rt, line, input.as_bytes(), text.as_bytes(), *status)?;
    }
    Ok(())
}

/// Puts the files on the shelf, and makes this call on it fail. A piece of 0 is one as large as any.
fn prepare(
    shelf: &mut MemoryShelf,
    input: &[u8],
    answer: &[u8],
    most: usize,
    call: u64,
) -> Result<(), AllocError> {
    put_files(shelf, input, answer)?;
    if most > 0 {
        shelf.pieces(most);
    }
    shelf.fail_at(call)?;
    Ok(())
}

/// A shelf of which this call fails.
fn failing_shelf(
    alloc: Global,
    input: &[u8],
    answer: &[u8],
    most: usize,
    call: u64,
) -> Result<MemoryShelf, AllocError> {
    let mut shelf = MemoryShelf::new(alloc);
    prepare(&mut shelf, input, answer, most, call)?;
    Ok(shelf)
}

/// Each call on the shelf fails in turn, until a run makes no further call: it writes this, and ends so.
fn each_read_fails(
    rt: &(impl Abort + AllocGlobal),
    line: &[&str],
    input: &str,
    answer: &str,
    most: usize,
    calls: u64,
    text: &str,
    status: Status,
) -> Result<(), Fail> {
    for call in 1..=calls {
        let (due, written) = if call < calls {
            (Status::ReadFault, "read fault\n")
        } else {
            (status, text)
        };
        let mut shelf = failing_shelf(rt.alloc(), input.as_bytes(), answer.as_bytes(), most, call)?;
        ends_within(rt, line, &mut shelf, 100, written.as_bytes(), due)?;
    }
    Ok(())
}

/// A file is begun once and read to its end: two calls, and one more for the end. It is read to its end behind a line at fault
/// too. 11 and 23 bytes in pieces of 7: begin, two or four pieces, the end.
#[test]
fn each_call_on_the_shelf_may_fail(rt: HostRuntime) -> Result<(), Fail> {
    let check: &[&str] = &["check", "f", "a"];
    let solve: &[&str] = &["solve", "f"];
    let rows: &[(&[&str], &str, &str, usize, u64, &str, Status)] = &[
        (
            check,
            INPUT,
            MODEL,
            0,
            7,
            "accepted model\n",
            Status::Accepted,
        ),
        (
            check,
            INPUT,
            OTHER,
            0,
            7,
            "rejected 2 ClauseFalse 2\n",
            Status::Rejected,
        ),
        (
            check,
            INPUT,
            BAD,
            7,
            9,
            "rejected 1 NotAnswer\n",
            Status::Rejected,
        ),
        (
            check,
            INPUT,
            MODEL,
            7,
            11,
            "accepted model\n",
            Status::Accepted,
        ),
        (solve, INPUT, "", 0, 4, MODEL, Status::Satisfiable),
        (
            check,
            DENIED,
            REFUTATION,
            0,
            7,
            "accepted refutation\n",
            Status::Accepted,
        ),
        (
            solve,
            ROUTE,
            "",
            0,
            4,
            "s SATISFIABLE\nv 1 2 3 0\n",
            Status::Satisfiable,
        ),
    ];
    for (line, input, answer, most, calls, text, status) in rows {
        each_read_fails(&rt, line, input, answer, *most, *calls, text, *status)?;
    }
    Ok(())
}

/// An output that takes three bytes at a time, and of which this write fails.
fn failing_sink(alloc: Global, call: u64) -> Result<MemorySink, AllocError> {
    let mut out = MemorySink::new(alloc, 100)?;
    out.pieces(3);
    out.fail_at(call)?;
    Ok(out)
}

/// This write fails: what was written before it stays.
fn write_fails(
    rt: &(impl Abort + AllocGlobal),
    line: &[&str],
    shelf: &mut MemoryShelf,
    text: &[u8],
    call: u64,
    status: Status,
) -> Result<(), Fail> {
    let mut out = failing_sink(rt.alloc(), call)?;
    let written = (call as usize).saturating_sub(1).saturating_mul(3);
    let start = &text[..written.min(text.len())];
    ends_in(rt, line, shelf, &mut out, start, status)
}

/// Each write of three bytes fails in turn: what was written before it stays. The last run has no further write.
fn each_write_fails(
    rt: &(impl Abort + AllocGlobal),
    line: &[&str],
    input: &str,
    answer: &str,
    text: &str,
    writes: u64,
    status: Status,
) -> Result<(), Fail> {
    for call in 1..=writes {
        let due = if call < writes {
            Status::WriteFault
        } else {
            status
        };
        let mut shelf = shelf_of(rt.alloc(), input.as_bytes(), answer.as_bytes())?;
        write_fails(rt, line, &mut shelf, text.as_bytes(), call, due)?;
    }
    Ok(())
}

#[test]
fn each_write_may_fail(rt: HostRuntime) -> Result<(), Fail> {
    let check: &[&str] = &["check", "f", "a"];
    let solve: &[&str] = &["solve", "f"];
    let rows: &[(&[&str], &str, &str, &str, u64, Status)] = &[
        (check, INPUT, MODEL, "accepted model\n", 6, Status::Accepted),
        (
            check,
            INPUT,
            OTHER,
            "rejected 2 ClauseFalse 2\n",
            10,
            Status::Rejected,
        ),
        (solve, INPUT, "", MODEL, 9, Status::Satisfiable),
        (
            solve,
            "",
            "",
            "s SATISFIABLE\nv 0\n",
            7,
            Status::Satisfiable,
        ),
    ];
    for (line, input, answer, text, writes, status) in rows {
        each_write_fails(&rt, line, input, answer, text, *writes, *status)?;
    }
    Ok(())
}

/// Each row has a form, the room of its output, and what its run over an empty file writes into it.
#[test]
fn a_full_output_keeps_a_prefix(rt: HostRuntime) -> Result<(), Fail> {
    for (form, room, text, status) in [
        ("print", 4, "p gn", Status::WriteFault),
        ("solve", 0, "", Status::WriteFault),
        ("solve", 10, "s SATISFIA", Status::WriteFault),
        ("solve", 17, "s SATISFIABLE\nv 0", Status::WriteFault),
        ("solve", 18, "s SATISFIABLE\nv 0\n", Status::Satisfiable),
    ] {
        let mut shelf = shelf_of_input(rt.alloc(), b"")?;
        ends_within(&rt, &[form, "f"], &mut shelf, room, text.as_bytes(), status)?;
    }
    Ok(())
}
