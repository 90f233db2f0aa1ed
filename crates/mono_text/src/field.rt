//! Numbers in a row, one for each limit.
//!
//! A form of lines is a row of limits, one for each field. The tokens are cut once. A refused number waits until all
//! tokens are cut, since a wrong count comes before every fault of a field.

ghost use Rattle.std.specs.Prelude.{◌≡◌, ◌<◌, ◌≤◌, nat_le, length, drop, IfOk, ℕ, slice_index};
ghost use Rattle.mono_text.specs.Fields.{refused, first_fields, fields_behind, fields_of};
ghost use Rattle.mono_text.specs.Text.{tokens_of};

use crate::{Line, NumberRefusal, Tokens};

/// Why tokens aren't these fields.
#[derive(Clone, Copy, PartialEq, Eq, Debug)]
pub enum FieldRefusal {
    /// There aren't as many tokens as fields.
    Count,
    /// The first field that fails, by its place from 0, isn't one or more digits.
    NotNumber(usize),
    /// The first field that fails, by its place from 0, is a number above its limit.
    TooLarge(usize),
}

fn refused(place: usize, refusal: NumberRefusal) -> FieldRefusal
    ensures { result ≡ refused place refusal }
{
    match refusal {
        NumberRefusal::NotNumber => FieldRefusal::NotNumber(place),
        NumberRefusal::TooLarge => FieldRefusal::TooLarge(place),
    }
}

/// Gives so many tokens, and whether there were as many.
fn pass(tokens: &mut Tokens<'_>, count: usize) -> bool
    ensures enough { result ≡ nat_le count (length tokens.old) }
    ensures rest { tokens.new ≡ drop count tokens.old }
{
    for _passed in 0..count {
        match tokens.next() {
            None => return false,
            Some(_) => {}
        }
    }
    true
}

/// The naturals that the next `N` tokens are, one for each limit and up to it.
///
/// `Count` exactly where fewer than `N` tokens are left. Otherwise the first field from the left that isn't a natural
/// up to its limit is named by its place, from 0. The `N` tokens are given, whatever they are.
#[inline(always)]
pub fn first_fields<const N: usize>(
    tokens: &mut Tokens<'_>,
    limits: &[u64; N],
) -> Result<[u64; N], FieldRefusal>
    ensures value { result ≡ first_fields limits.now tokens.old }
    ensures within { IfOk result (λ values.
        (k : ℕ) → k < N → slice_index values k ≤ slice_index limits.now k) }
    ensures rest { tokens.new ≡ drop N tokens.old }
{
    let mut values = [0u64; N];
    for place in 0..N {
        match tokens.next_natural(limits[place]) {
            Some(Ok(value)) => values[place] = value,
            Some(Err(refusal)) => {
                if pass(tokens, N - 1 - place) {
                    return Err(refused(place, refusal));
                }
                return Err(FieldRefusal::Count);
            }
            None => return Err(FieldRefusal::Count),
        }
    }
    Ok(values)
}

/// The naturals that the tokens left are, one for each limit and up to it.
///
/// `Count` exactly where there aren't `N` tokens. Otherwise the first field from the left that isn't a natural up to its
/// limit is named by its place, from 0.
#[inline(always)]
pub fn fields_left<const N: usize>(
    mut tokens: Tokens<'_>,
    limits: &[u64; N],
) -> Result<[u64; N], FieldRefusal>
    ensures value { result ≡ fields_of limits.now tokens.entry }
    ensures within { IfOk result (λ values.
        (k : ℕ) → k < N → slice_index values k ≤ slice_index limits.now k) }
{
    let read = first_fields(&mut tokens, limits);
    match tokens.next() {
        None => read,
        Some(_) => Err(FieldRefusal::Count),
    }
}

/// The naturals that the line's tokens behind the first `skip` are, one for each limit and up to it.
///
/// `Count` exactly where the line hasn't `skip + N` tokens. Otherwise the first field from the left that isn't a natural up
/// to its limit is named by its place, from 0.
#[inline(always)]
pub fn fields<const N: usize>(
    line: &Line<'_>,
    skip: usize,
    limits: &[u64; N],
) -> Result<[u64; N], FieldRefusal>
    ensures value { result ≡ fields_behind skip limits.now (tokens_of line.now.text.now) }
    ensures within { IfOk result (λ values.
        (k : ℕ) → k < N → slice_index values k ≤ slice_index limits.now k) }
{
    let mut tokens = line.tokens();
    if pass(&mut tokens, skip) {
        fields_left(tokens, limits)
    } else {
        Err(FieldRefusal::Count)
    }
}
