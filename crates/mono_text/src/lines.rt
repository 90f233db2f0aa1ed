//! The lines of a text.
//!
//! A line ends before a line feed or at the end of the text, and an empty rest is no line. So what is
//! left of a text is all that `Lines` keeps, beside how many lines were given.

ghost use Rattle.std.specs.Prelude.{◌≡◌};
ghost use Rattle.std.specs.List.{before_first, after_first, position_or_len};
ghost use Rattle.mono_text.specs.Text.{is_line_feed, lines_of, numbered_from};

use crate::Line;
use memchr::memchr;
use std::marker::Model;

/// The lines of a text that are left, in order, numbered from 1. It takes no memory, and each byte is
/// read once.
#[derive(Drop)]
pub struct Lines<'a> {
    rest: &'a [u8],
    read: u64,
}

impl<'a> Model for Lines<'a> {
    ghost use Rattle.std.specs.Prelude.{List, ℕ, ◌+◌, ◌<◌, ◌^◌, length};
    ghost use Rattle.mono_text.specs.Text.{lines_of, numbered_from};

    ghost Value = { List (ℕ × List ℕ) };

    ghost view = { λ l. numbered_from (l.read + 1) (lines_of l.rest.now) };

    ghost invariant = { λ l. l.read + length l.rest.now < 2 ^ 63 };
}

/// Where the first line ends: at its line feed, or at the end of the text.
fn line_end(text: &[u8]) -> usize
    ensures { result ≡ position_or_len is_line_feed text.now }
{
    match memchr(b'\n', text) {
        Some(end) => end,
        None => text.len(),
    }
}

/// What stands before the first line feed, and what follows it.
fn split_at_line_feed(text: &[u8]) -> (&[u8], &[u8])
    ensures before { result.0.now ≡ before_first is_line_feed text.now }
    ensures after { result.1.now ≡ after_first is_line_feed text.now }
{
    let end = line_end(text);
    if end < text.len() {
        (&text[..end], &text[end + 1..])
    } else {
        (text, &[])
    }
}

impl<'a> Lines<'a> {
    /// All lines of a text. The empty text has none.
    pub fn new(text: &'a [u8]) -> Lines<'a>
        ensures { result ≡ numbered_from 1 (lines_of text.now) }
    {
        Lines {
            rest: text,
            read: 0,
        }
    }
}

impl<'a> Iterator for Lines<'a> {
    ghost use Rattle.std.specs.Iterator.{YieldsFirstBy, item_count};

    type Item = Line<'a>;

    ghost next_gives = { YieldsFirstBy (λ line. (line.number, line.text.now)) (λ rest. rest) };

    ghost remaining = { item_count (λ rest. rest) };

    fn next(&mut self) -> Option<Line<'a>> {
        if self.rest.is_empty() {
            return None;
        }
        let (text, rest) = split_at_line_feed(self.rest);
        self.rest = rest;
        self.read += 1;
        Some(Line {
            number: self.read,
            text,
        })
    }
}
