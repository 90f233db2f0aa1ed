use super::assert_same;
use mono_answer::{
    Answer, Item, ItemReader, ItemRefusal, is_version_line, print_answer, read_item,
};
use mono_base::Row;
use mono_steps::Step;
use mono_text::{Line, Lines};
use std::alloc::Global;
use std::test::Fail;

/// The steps of a text, with one reader for all lines.
fn steps_in(alloc: Global, text: &[u8]) -> Result<Vec<Step>, ItemRefusal> {
    let mut reader = ItemReader::new(alloc);
    let mut steps = Vec::new(alloc);
    for line in Lines::new(text) {
        if let Some(Item::Step(step)) = reader.read(&line)? {
            if steps.push(step).is_err() {
                return Err(ItemRefusal::Memory);
            }
        }
    }
    Ok(steps)
}

#[test]
fn every_word_is_read_and_printed(rt: HostRuntime) -> Result<(), Fail> {
    let text =
        b"c x\ns UNSATISFIABLE\n path 1 -1 03 0 1 2\r\ncut 1 1 -3 0 0\n\nlabel 2 3 -4 0 0 0 1 5\nflow 1 3 0 1 7\nflowcut 2 -4 0 0\ntree 1 1 0\nsplit 1 1 -2 0 0\nleast 1 -4 0 1 2\ncycle 1 -1 -2 -3 0 1 02\norder 1 1 3 0 1 0\nchain 0 4 1 2";
    let want =
        b"s UNSATISFIABLE\npath 1 -1 3 0 1 2\ncut 1 1 -3 0 0\nlabel 2 3 -4 0 0 0 1 5\nflow 1 3 0 1 7\nflowcut 2 -4 0 0\ntree 1 1 0\nsplit 1 1 -2 0 0\nleast 1 -4 0 1 2\ncycle 1 -1 -2 -3 0 1 2\norder 1 1 3 0 1 0\nchain 0 4 1 2\n";
    match steps_in(rt.alloc(), text.as_slice()) {
        Err(_) => assert!(rt; false),
        Ok(steps) => {
            let printed = print_answer(rt.alloc(), &Answer::Refutation(Row::from_vec(steps)))?;
            assert_same(&rt, printed.as_slice(), want.as_slice());
        }
    }
    Ok(())
}

#[test]
fn bad_lines(rt: HostRuntime) {
    let table: [&[u8]; 8] = [
        b"chain 0",
        b"v x",
        b"flow 1 0 1",
        b"paths",
        b"s",
        b"tree 4294967296 0",
        b"cycle 1 0 -1",
        b"order 1 3",
    ];
    for text in table {
        let line = Line { number: 1, text };
        let read = read_item(rt.alloc(), &line);
        assert!(rt; matches!(read, Err(ItemRefusal::BadLine)));
    }
}

#[test]
fn version_lines(rt: HostRuntime) {
    let table: [(&[u8], bool); 8] = [
        (b"version 2", true),
        (b"\tversion  2 \r", true),
        (b"version 02", false),
        (b"version 1", false),
        (b"version 2 2", false),
        (b"version", false),
        (b"2 version", false),
        (b"", false),
    ];
    for (text, found) in table {
        let line = Line { number: 1, text };
        assert_same(&rt, is_version_line(&line), found);
    }
}
