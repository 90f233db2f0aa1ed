//! The tokens of a line.
//!
//! A token is a longest run of bytes that are no blanks, and `Tokens` keeps what is left of the line.
//! To give one it passes the blanks, and cuts at the first blank after them.

ghost use Rattle.std.specs.Prelude.{◌≡◌, ◌≤◌, ◌^◌, position, not, drop, length, nat_abs, IfSome, IfOk};
ghost use Rattle.std.specs.List.{before_first, after_first, position_or_len};
ghost use Rattle.mono_text.specs.Text.{is_blank as is_blank_byte, tokens_of, first_byte};
ghost use Rattle.mono_text.specs.Numbers.{IsFirstNatural, IsFirstSigned};

use crate::NumberRefusal;
use crate::front::{natural_front, signed_front};
use std::marker::Model;

/// The tokens of a line that are left, in order. It takes no memory, and each byte is read once.
#[derive(Drop)]
pub struct Tokens<'a> {
    rest: &'a [u8],
}

impl<'a> Model for Tokens<'a> {
    ghost use Rattle.std.specs.Prelude.{List, ℕ};
    ghost use Rattle.mono_text.specs.Text.{tokens_of};

    ghost Value = { List (List ℕ) };

    ghost view = { λ t. tokens_of t.rest.now };
}

pub(crate) fn is_blank(byte: u8) -> bool
    ensures { result ≡ is_blank_byte byte }
{
    byte == b' ' || byte == b'\t' || byte == b'\r'
}

fn first_blank(text: &[u8]) -> Option<usize>
    ensures { result ≡ position is_blank_byte text.now }
{
    text.iter().position(|byte| is_blank(*byte))
}

fn first_of_token(text: &[u8]) -> Option<usize>
    ensures { result ≡ position (λ b. not (is_blank_byte b)) text.now }
{
    text.iter().position(|byte| !is_blank(*byte))
}

/// The text without the blanks that it begins with.
fn without_blanks(text: &[u8]) -> &[u8]
    ensures { result.now ≡ drop (position_or_len (λ b. not (is_blank_byte b)) text.now) text.now }
{
    match first_of_token(text) {
        Some(start) => &text[start..],
        None => &[],
    }
}

/// What stands before the first blank, and what follows it.
pub(crate) fn split_at_blank(text: &[u8]) -> (&[u8], &[u8])
    ensures before { result.0.now ≡ before_first is_blank_byte text.now }
    ensures after { result.1.now ≡ after_first is_blank_byte text.now }
{
    match first_blank(text) {
        Some(end) => (&text[..end], &text[end + 1..]),
        None => (text, &[]),
    }
}

impl<'a> Tokens<'a> {
    /// All tokens of a line's text.
    pub fn new(text: &'a [u8]) -> Tokens<'a>
        ensures { result ≡ tokens_of text.now }
    {
        Tokens { rest: text }
    }

    /// How many tokens are left. It gives none.
    pub fn left(&self) -> usize
        ensures { result ≡ length self.now }
    {
        Tokens::new(self.rest).count()
    }

    /// The byte that the next token begins with. It gives no token.
    #[inline(always)]
    pub fn first_byte(&mut self) -> Option<u8>
        ensures same { self.new ≡ self.old }
        ensures byte { result ≡ first_byte self.old }
    {
        self.rest = without_blanks(self.rest);
        if self.rest.is_empty() {
            return None;
        }
        Some(self.rest[0])
    }

    /// The next token as a natural up to the limit, by one pass over its bytes.
    #[inline(always)]
    pub fn next_natural(&mut self, limit: u64) -> Option<Result<u64, NumberRefusal>>
        ensures first { IsFirstNatural limit self.old result self.new }
        ensures within { IfSome result (λ number. IfOk number (λ n. n ≤ limit)) }
    {
        self.rest = without_blanks(self.rest);
        if self.rest.is_empty() {
            return None;
        }
        let (number, rest) = natural_front(self.rest, limit);
        self.rest = rest;
        Some(number)
    }

    /// The next token as a signed number of a magnitude up to the limit, by one pass over its bytes.
    #[inline(always)]
    pub fn next_signed(&mut self, limit: u64) -> Option<Result<i64, NumberRefusal>>
        requires { limit ≤ 2 ^ 62 }
        ensures first { IsFirstSigned limit self.old result self.new }
        ensures within { IfSome result (λ number. IfOk number (λ z. nat_abs z ≤ limit)) }
    {
        self.rest = without_blanks(self.rest);
        if self.rest.is_empty() {
            return None;
        }
        let (number, rest) = signed_front(self.rest, limit);
        self.rest = rest;
        Some(number)
    }
}

impl<'a> Iterator for Tokens<'a> {
    ghost use Rattle.std.specs.Iterator.{YieldsFirstBy, item_count};

    type Item = &'a [u8];

    ghost next_gives = { YieldsFirstBy (λ token. token.now) (λ rest. rest) };

    ghost remaining = { item_count (λ rest. rest) };

    fn next(&mut self) -> Option<&'a [u8]> {
        self.rest = without_blanks(self.rest);
        if self.rest.is_empty() {
            return None;
        }
        let (token, rest) = split_at_blank(self.rest);
        self.rest = rest;
        Some(token)
    }
}
