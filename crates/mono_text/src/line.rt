//! A line with its number.

ghost use Rattle.std.specs.Prelude.{◌≡◌};
ghost use Rattle.mono_text.specs.Text.{tokens_of, is_comment, is_skipped};

use crate::Tokens;

/// Whether a line with this first token is a comment: the token is exactly `c`.
#[inline(always)]
pub fn is_comment(first: &[u8]) -> bool
    ensures { result ≡ is_comment first.now }
{
    first == b"c".as_slice()
}

/// A line of a text: its number, from 1, and its bytes without the line feed.
#[derive(Clone, Copy)]
pub struct Line<'a> {
    pub number: u64,
    pub text: &'a [u8],
}

impl<'a> Line<'a> {
    /// The tokens, in order: the longest runs of bytes other than space, tab and carriage return.
    pub fn tokens(&self) -> Tokens<'a>
        ensures { result ≡ tokens_of self.now.text.now }
    {
        Tokens::new(self.text)
    }

    /// Whether the line says nothing: it has no tokens, or its first token is exactly `c`, which
    /// makes it a comment.
    pub fn is_skipped(&self) -> bool
        ensures { result ≡ is_skipped (tokens_of self.now.text.now) }
    {
        match self.tokens().next() {
            Some(first) => is_comment(first),
            None => true,
        }
    }
}
