//! The process itself: its words, and what it exits with.

use super::assert_same;
use crate::exit::run_over;
use crate::given::{SystemWords, Words, WordsRefusal};
use mono_io::SystemFiles;
use std::alloc::Global;
use std::env::FillError;
use std::io;
use std::process::Abort;
use std::rt::Env;
use std::test::Fail;

/// The one word of a test's process is the name of the test, which is no command.
#[test]
fn words_that_are_no_command_exit_with_2(rt: HostRuntime) -> Result<(), Fail> {
    let words = SystemWords::new(&rt);
    let run = run_over(rt.alloc(), &words, SystemFiles::new(&rt), io::writer(&rt));
    assert_same(&rt, run.exit().code(), 2);
    Ok(())
}

/// A system of which the program's name and one word are these bytes.
#[derive(Drop)]
struct OneWord {
    byte: u8,
}

impl Env for OneWord {
    fn arg(&self, i: usize, buf: &mut [u8]) -> Result<usize, FillError> {
        if i > 1 || buf.is_empty() {
            return Err(FillError::NotPresent);
        }
        buf[0] = if i == 0 { b'p' } else { self.byte };
        Ok(1)
    }

    fn var(&self, _name: &str, _buf: &mut [u8]) -> Result<usize, FillError> {
        Err(FillError::NotPresent)
    }

    fn var_at(&self, _i: usize, _buf: &mut [u8]) -> Result<usize, FillError> {
        Err(FillError::NotPresent)
    }
}

/// How many words such a system gives behind the program's name, if the one is text.
fn words_of(alloc: Global, byte: u8) -> Option<usize> {
    let system = (OneWord { byte }, alloc);
    match SystemWords::new(&system).list(alloc) {
        Ok(words) => Some(words.len()),
        Err(WordsRefusal::NotText) => None,
        Err(WordsRefusal::Memory) => Some(usize::MAX),
    }
}

/// A byte that begins no character is no text.
#[test]
fn a_word_that_is_no_text_is_told(rt: HostRuntime) -> Result<(), Fail> {
    assert_same(&rt, words_of(rt.alloc(), b'x'), Some(1));
    assert_same(&rt, words_of(rt.alloc(), 0xff), None);
    Ok(())
}
