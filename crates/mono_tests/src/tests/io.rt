ghost use Rattle.std.specs.Prelude.{◌≤◌};

use super::{assert_same, assert_same_at};
use mono_io::{
    Failed, FileShelf, MemoryShelf, MemorySink, ReadRefusal, Shelf, Sink, StdSink, SystemFiles,
    read_whole, write_whole,
};
use std::alloc::{AllocError, Global};
use std::process::Abort;
use std::test::Fail;
use std::{fs, io};

const DIGITS: &[u8] = b"0123456789";

/// A text that two pieces of 65,536 bytes don't hold.
fn long_text(alloc: Global) -> Result<Vec<u8>, AllocError> {
    let mut text = Vec::new(alloc);
    for i in 0..200_000u32 {
        text.push((i % 251) as u8)?;
    }
    Ok(text)
}

/// A shelf with the ten digits under the name `digits`.
fn digits(alloc: Global) -> Result<MemoryShelf, AllocError> {
    let mut shelf = MemoryShelf::new(alloc);
    shelf.put("digits", DIGITS)?;
    Ok(shelf)
}

fn expect_read<S: Shelf>(
    rt: &impl Abort,
    alloc: Global,
    shelf: &mut S,
    name: &str,
    text: &[u8],
) -> Result<(), Fail> {
    let bytes = read_whole(alloc, shelf, name, 1 << 40)?;
    assert!(rt; bytes.as_slice() == text);
    Ok(())
}

fn read_in_pieces(rt: &impl Abort, alloc: Global, most: usize) -> Result<(), Fail>
    requires { 1 ≤ most }
{
    let text = long_text(alloc)?;
    let mut shelf = MemoryShelf::new(alloc);
    shelf.put("long", &text)?;
    shelf.pieces(most);
    expect_read(rt, alloc, &mut shelf, "long", &text)
}

#[test]
fn pieces_of_any_size_give_the_same_text(rt: HostRuntime) -> Result<(), Fail> {
    read_in_pieces(&rt, rt.alloc(), 1)?;
    read_in_pieces(&rt, rt.alloc(), 7)?;
    read_in_pieces(&rt, rt.alloc(), 65_536)
}

#[test]
fn a_text_is_put_and_replaced(rt: HostRuntime) -> Result<(), Fail> {
    let alloc = rt.alloc();
    let mut shelf = digits(alloc)?;
    shelf.put("empty", b"")?;
    shelf.put("replaced", DIGITS)?;
    shelf.put("replaced", b"none")?;
    for (name, text) in [
        ("empty", b"".as_slice()),
        ("digits", DIGITS),
        ("replaced", b"none"),
    ] {
        expect_read(&rt, alloc, &mut shelf, name, text)?;
    }
    Ok(())
}

#[test]
fn a_text_is_read_in_turn(rt: HostRuntime) -> Result<(), Fail> {
    let mut shelf = digits(rt.alloc())?;
    let mut buffer = [0u8; 4];
    assert_same(&rt, shelf.begin("digits"), Ok(()));
    for (count, bytes) in [(4, *b"0123"), (4, *b"4567"), (2, *b"8967"), (0, *b"8967")] {
        assert_same(&rt, shelf.read(&mut buffer), Ok(count));
        assert_same(&rt, buffer, bytes);
    }
    Ok(())
}

#[test]
fn only_a_text_that_was_begun_is_read(rt: HostRuntime) -> Result<(), Fail> {
    let mut shelf = digits(rt.alloc())?;
    let mut buffer = [0u8; 4];
    assert_same(&rt, shelf.begin("digits"), Ok(()));
    shelf.put("digits", b"none")?;
    assert_same(&rt, shelf.read(&mut buffer), Err(Failed));
    assert_same(&rt, shelf.begin("letters"), Err(Failed));
    assert_same(&rt, shelf.read(&mut buffer), Err(Failed));
    Ok(())
}

/// Whether all digits are read, and no more.
fn are_digits<S: Shelf>(alloc: Global, shelf: &mut S, limit: u8) -> Result<bool, ReadRefusal> {
    let bytes = read_whole(alloc, shelf, "digits", u64::from(limit))?;
    Ok(bytes.as_slice() == DIGITS)
}

#[test]
fn a_text_beyond_its_limit_is_too_long(rt: HostRuntime) -> Result<(), Fail> {
    let alloc = rt.alloc();
    for (limit, want) in [
        (0u8, Err(ReadRefusal::TooLong)),
        (9, Err(ReadRefusal::TooLong)),
        (10, Ok(true)),
        (11, Ok(true)),
    ] {
        let mut shelf = digits(alloc)?;
        assert_same_at(&rt, &limit, are_digits(alloc, &mut shelf, limit), want);
    }
    Ok(())
}

/// In pieces of four, the shelf fails at a call, if that is one of the first reading. After that the digits are read.
fn expect_failure(
    rt: &impl Abort,
    alloc: Global,
    shelf: &mut MemoryShelf,
    call: u64,
    fails: bool,
) -> Result<(), Fail> {
    shelf.pieces(4);
    shelf.fail_at(call)?;
    let found = are_digits(alloc, shelf, 100);
    if !fails {
        assert_same_at(rt, &call, found, Ok(true));
        return Ok(());
    }
    assert_same_at(rt, &call, found, Err(ReadRefusal::Fault));
    expect_read(rt, alloc, shelf, "digits", DIGITS)
}

/// In pieces of four, call 1 begins the text, calls 2 to 4 read it and call 5 finds its end.
#[test]
fn a_shelf_fails_at_each_call_in_turn(rt: HostRuntime) -> Result<(), Fail> {
    let alloc = rt.alloc();
    for (call, fails) in [
        (0u64, false),
        (1, true),
        (2, true),
        (3, true),
        (4, true),
        (5, true),
        (6, false),
    ] {
        let mut shelf = digits(alloc)?;
        expect_failure(&rt, alloc, &mut shelf, call, fails)?;
    }
    Ok(())
}

/// In pieces of four, writes 1 to 3 take ten bytes.
#[test]
fn a_sink_fails_at_each_write_in_turn(rt: HostRuntime) -> Result<(), Fail> {
    for (call, written) in [
        (1u64, b"".as_slice()),
        (2, b"0123"),
        (3, b"01234567"),
        (4, DIGITS),
    ] {
        let mut sink = MemorySink::new(rt.alloc(), 10)?;
        sink.pieces(4);
        sink.fail_at(call)?;
        assert_same(&rt, sink.write(b""), Ok(0));
        let result = write_whole(&mut sink, DIGITS);
        assert_same_at(&rt, &call, result.is_ok(), written.len() == 10);
        assert_same_at(&rt, &call, sink.bytes(), written);
    }
    Ok(())
}

#[test]
fn a_sink_fails_where_it_is_full(rt: HostRuntime) -> Result<(), Fail> {
    let mut sink = MemorySink::new(rt.alloc(), 9)?;
    assert_same(&rt, write_whole(&mut sink, DIGITS), Err(Failed));
    assert_same(&rt, sink.bytes(), b"012345678".as_slice());
    assert_same(&rt, sink.write(b""), Ok(0));
    assert_same(&rt, sink.write(b"9"), Err(Failed));
    Ok(())
}

/// Writes a long text, an empty one and a folder.
fn write_files(rt: &HostRuntime, text: &[u8]) -> Result<(), Fail> {
    fs::write(rt, "long", text)?;
    fs::write(rt, "empty", "")?;
    fs::create_dir_all(rt, "folder")?;
    Ok(())
}

fn remove_files(rt: &HostRuntime) -> Result<(), Fail> {
    fs::remove_file(rt, "long")?;
    fs::remove_file(rt, "empty")?;
    fs::remove_dir(rt, "folder")?;
    Ok(())
}

fn expect_refusal<S: Shelf>(
    rt: &impl Abort,
    alloc: Global,
    shelf: &mut S,
    name: &str,
    want: ReadRefusal,
) {
    match read_whole(alloc, shelf, name, 100) {
        Ok(_) => assert!(rt; false, "{name} was read"),
        Err(refusal) => assert_same_at(rt, &name, refusal, want),
    }
}

fn expect_refusals<S: Shelf>(rt: &impl Abort, alloc: Global, shelf: &mut S) {
    for (name, want) in [
        ("missing", ReadRefusal::Fault),
        ("folder", ReadRefusal::Fault),
        ("long", ReadRefusal::TooLong),
    ] {
        expect_refusal(rt, alloc, shelf, name, want);
    }
}

/// Nothing is read before a file is chosen, and a file is read again after others were refused.
fn expect_files<S: Shelf>(
    rt: &impl Abort,
    alloc: Global,
    shelf: &mut S,
    text: &[u8],
) -> Result<(), Fail> {
    let mut buffer = [0u8; 4];
    assert_same(rt, shelf.read(&mut buffer), Err(Failed));
    expect_read(rt, alloc, shelf, "long", text)?;
    expect_read(rt, alloc, shelf, "empty", b"")?;
    expect_refusals(rt, alloc, shelf);
    expect_read(rt, alloc, shelf, "long", text)
}

#[test]
fn files_are_read(rt: HostRuntime) -> Result<(), Fail> {
    let text = long_text(rt.alloc())?;
    write_files(&rt, &text)?;
    let mut shelf = FileShelf::new(SystemFiles::new(&rt));
    expect_files(&rt, rt.alloc(), &mut shelf, &text)?;
    remove_files(&rt)
}

#[test]
fn the_standard_output_is_written(rt: HostRuntime) {
    let mut sink = StdSink::new(io::writer(&rt));
    assert_same(&rt, sink.write(b""), Ok(0));
    assert_same(
        &rt,
        write_whole(&mut sink, b"ten digits: 0123456789\n"),
        Ok(()),
    );
}
