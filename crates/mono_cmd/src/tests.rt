//! Runs of the whole program over files and an output in memory. The expected texts are worked by hand.

use crate::run::run;
use mono_forms::Status;
use mono_io::{MemoryShelf, MemorySink};
use std::alloc::{AllocError, Global};
use std::fmt::Debug;
use std::process::Abort;
use std::test::Fail;

mod acyclic;
mod altered;
mod assumptions;
mod bounds;
mod faults;
mod generated;
mod input;
mod lemmas;
mod limits;
mod memory;
mod models;
mod process;
mod refutations;
mod solving;
mod team_runs;
mod versions;
mod witnesses;

/// What is written where the words are no command.
const USAGE: &[u8] =
    b"usage: solve FILE [--conflicts N] | check FILE ANSWER | print FILE | gen KIND SIZE SEED [--solve] | migrate FILE ANSWER VERSION | core FILE LIT.. | check-with FILE ANSWER LIT.. | best FILE ATOM | ask FILE ATOM B | team FILE K R\n";

/// What a run wrote, and how it ended.
#[derive(Drop)]
struct Outcome {
    status: Status,
    text: Vec<u8>,
}

fn words_of(alloc: Global, line: &[&str]) -> Result<Vec<String>, AllocError> {
    let mut words = Vec::new(alloc);
    for word in line {
        words.push(String::from_str(alloc, word)?)?;
    }
    Ok(words)
}

/// Runs these words.
fn run_words(
    alloc: Global,
    line: &[&str],
    shelf: &mut MemoryShelf,
    out: &mut MemorySink,
) -> Result<Status, AllocError> {
    let words = words_of(alloc, line)?;
    Ok(run(alloc, words.as_slice(), shelf, out))
}

/// Puts the files `f` and `a` on the shelf.
fn put_files(shelf: &mut MemoryShelf, input: &[u8], answer: &[u8]) -> Result<(), AllocError> {
    shelf.put("f", input)?;
    shelf.put("a", answer)?;
    Ok(())
}

/// A shelf that holds the files `f` and `a`.
fn shelf_of(alloc: Global, input: &[u8], answer: &[u8]) -> Result<MemoryShelf, AllocError> {
    let mut shelf = MemoryShelf::new(alloc);
    put_files(&mut shelf, input, answer)?;
    Ok(shelf)
}

/// What a run of these words over the shelf writes into this output, and how it ends.
fn outcome_in(
    alloc: Global,
    line: &[&str],
    shelf: &mut MemoryShelf,
    out: &mut MemorySink,
) -> Result<Outcome, AllocError> {
    let status = run_words(alloc, line, shelf, out)?;
    let text = out.bytes().to_vec(alloc)?;
    Ok(Outcome { status, text })
}

/// The status and the text of a run over a shelf, into an output of two million bytes.
fn outcome_over(
    alloc: Global,
    line: &[&str],
    shelf: &mut MemoryShelf,
) -> Result<Outcome, AllocError> {
    let mut out = MemorySink::new(alloc, 1 << 21)?;
    outcome_in(alloc, line, shelf, &mut out)
}

/// Runs these words over a shelf that holds the files `f` and `a`, and gives at most that many bytes at a time.
fn outcome_by(
    alloc: Global,
    line: &[&str],
    input: &[u8],
    answer: &[u8],
    most: usize,
) -> Result<Outcome, AllocError> {
    let mut shelf = shelf_of(alloc, input, answer)?;
    shelf.pieces(most.max(1));
    outcome_over(alloc, line, &mut shelf)
}

/// The status and the text of a run over files that are read in pieces as large as any.
fn outcome_of(
    alloc: Global,
    line: &[&str],
    input: &[u8],
    answer: &[u8],
) -> Result<Outcome, AllocError> {
    outcome_by(alloc, line, input, answer, 1 << 16)
}

/// Both values are equal. In a function of its own, the assertion is proved once.
fn assert_same<T: PartialEq + Debug + Drop>(rt: &impl Abort, got: T, want: T) {
    assert_eq!(rt; got, want);
}

/// The run wrote this text, and ended so.
fn assert_outcome(rt: &impl Abort, found: &Outcome, text: &[u8], status: Status) {
    assert_same(rt, found.text.as_slice(), text);
    assert_same(rt, found.status, status);
}

/// The run ended so, and what it wrote begins with this.
fn assert_begins(rt: &impl Abort, found: &Outcome, beginning: &[u8], status: Status) {
    assert_same(rt, found.status, status);
    assert!(rt; found.text.as_slice().starts_with(beginning));
}

/// `check` accepts the answer, and says this of it.
fn accepts(
    rt: &(impl Abort + AllocGlobal),
    input: &[u8],
    answer: &[u8],
    verdict: &[u8],
) -> Result<(), Fail> {
    let judged = outcome_of(rt.alloc(), &["check", "f", "a"], input, answer)?;
    assert_outcome(rt, &judged, verdict, Status::Accepted);
    Ok(())
}

/// The run of `check f a` ends so, however the shelf cuts the files.
fn checks(
    rt: &(impl Abort + AllocGlobal),
    input: &[u8],
    answer: &[u8],
    text: &[u8],
    status: Status,
) -> Result<(), Fail> {
    for most in [1, 7, 1 << 16] {
        let found = outcome_by(rt.alloc(), &["check", "f", "a"], input, answer, most)?;
        assert_outcome(rt, &found, text, status);
    }
    Ok(())
}

/// How a run ends that writes this text.
fn status_of(text: &str) -> Status {
    if text.starts_with("accepted") {
        return Status::Accepted;
    }
    if text.starts_with("rejected") {
        return Status::Rejected;
    }
    if text.starts_with("refused") {
        return Status::Refused;
    }
    Status::Printed
}

/// Each row has an input, an answer, and what `check` writes of it.
fn judges(rt: &(impl Abort + AllocGlobal), rows: &[(&str, &str, &str)]) -> Result<(), Fail> {
    for (input, answer, text) in rows {
        let status = status_of(text);
        checks(
            rt,
            input.as_bytes(),
            answer.as_bytes(),
            text.as_bytes(),
            status,
        )?;
    }
    Ok(())
}

/// The run of `print f` ends so.
fn prints(
    rt: &(impl Abort + AllocGlobal),
    input: &[u8],
    text: &[u8],
    status: Status,
) -> Result<(), Fail> {
    let found = outcome_of(rt.alloc(), &["print", "f"], input, b"")?;
    assert_outcome(rt, &found, text, status);
    Ok(())
}

/// Each row has an input, and what `print` writes of it.
fn prints_each(rt: &(impl Abort + AllocGlobal), rows: &[(&str, &str)]) -> Result<(), Fail> {
    for (input, text) in rows {
        prints(rt, input.as_bytes(), text.as_bytes(), status_of(text))?;
    }
    Ok(())
}

/// Each row has an input that is refused, and what `check` and `print` write of it.
fn refuses(rt: &(impl Abort + AllocGlobal), rows: &[(&str, &str)]) -> Result<(), Fail> {
    for (input, text) in rows {
        checks(rt, input.as_bytes(), b"", text.as_bytes(), Status::Refused)?;
    }
    prints_each(rt, rows)
}
