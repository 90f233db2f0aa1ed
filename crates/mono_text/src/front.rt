//! A number at the front of a line's rest, read and cut off in one pass.
//!
//! Digits are summed as they are passed. Where a blank or the end of the line follows them, they are the token. A token
//! of another kind, or of a number of 10^17 and more before its last digit, is cut first and read then.

ghost use Rattle.std.specs.Prelude.{◌≡◌, ◌<◌, ◌≤◌, ◌^◌, length, take, true, Some, IfOk, nat_abs};
ghost use Rattle.std.specs.List.{list_all, before_first, after_first};
ghost use Rattle.std.specs.Char.{is_ascii_digit};
ghost use Rattle.mono_text.specs.Text.{is_blank as is_blank_byte};
ghost use Rattle.mono_text.specs.Numbers.{digits_value, natural as natural_of, signed as signed_of, within, signed_within, as_positive, as_negative};

use crate::tokens::{is_blank, split_at_blank};
use crate::{NumberRefusal, natural};

/// One more digit fits a value below.
const LARGE: u64 = 100_000_000_000_000_000;

/// The value of the digits at the front of the text, as long as one more fits, and how many they are.
#[inline(always)]
fn digits_front(text: &[u8]) -> (u64, usize)
    ensures count { result.1 ≤ length text.now }
    ensures digits { list_all is_ascii_digit (take result.1 text.now) ≡ true }
    ensures value { result.0 ≡ digits_value (take result.1 text.now) }
{
    let mut value: u64 = 0;
    for count in 0..text.len() {
        let byte = text[count];
        if !byte.is_ascii_digit() || value >= LARGE {
            return (value, count);
        }
        value = 10 * value + u64::from(byte - b'0');
    }
    (value, text.len())
}

#[inline(always)]
fn up_to(value: u64, limit: u64) -> Result<u64, NumberRefusal>
    ensures value { result ≡ within limit (Some value) }
    ensures within { IfOk result (λ n. n ≤ limit) }
{
    if value > limit {
        Err(NumberRefusal::TooLarge)
    } else {
        Ok(value)
    }
}

/// The natural that the bytes before the first blank are, and what follows that blank.
#[inline(always)]
pub(crate) fn natural_front(text: &[u8], limit: u64) -> (Result<u64, NumberRefusal>, &[u8])
    ensures value { result.0 ≡ within limit (natural_of (before_first is_blank_byte text.now)) }
    ensures within { IfOk result.0 (λ n. n ≤ limit) }
    ensures rest { result.1.now ≡ after_first is_blank_byte text.now }
{
    let (value, count) = digits_front(text);
    if count > 0 {
        if count == text.len() {
            return (up_to(value, limit), &[]);
        }
        if is_blank(text[count]) {
            return (up_to(value, limit), &text[count + 1..]);
        }
    }
    let (token, rest) = split_at_blank(text);
    (natural(token, limit), rest)
}

#[inline(always)]
fn negative(magnitude: Result<u64, NumberRefusal>) -> Result<i64, NumberRefusal>
    requires { IfOk magnitude (λ n. n ≤ 2 ^ 62) }
    ensures { result ≡ as_negative magnitude }
{
    match magnitude {
        Ok(magnitude) => Ok(-(magnitude as i64)),
        Err(refusal) => Err(refusal),
    }
}

#[inline(always)]
fn positive(magnitude: Result<u64, NumberRefusal>) -> Result<i64, NumberRefusal>
    requires { IfOk magnitude (λ n. n ≤ 2 ^ 62) }
    ensures { result ≡ as_positive magnitude }
{
    match magnitude {
        Ok(magnitude) => Ok(magnitude as i64),
        Err(refusal) => Err(refusal),
    }
}

/// The signed number that the bytes before the first blank are, and what follows that blank.
#[inline(always)]
pub(crate) fn signed_front(text: &[u8], limit: u64) -> (Result<i64, NumberRefusal>, &[u8])
    requires { limit ≤ 2 ^ 62 }
    ensures value { result.0 ≡ signed_within limit (signed_of (before_first is_blank_byte text.now)) }
    ensures within { IfOk result.0 (λ z. nat_abs z ≤ limit) }
    ensures rest { result.1.now ≡ after_first is_blank_byte text.now }
{
    match text {
        [b'-', digits @ ..] => {
            let (magnitude, rest) = natural_front(digits, limit);
            (negative(magnitude), rest)
        }
        _ => {
            let (magnitude, rest) = natural_front(text, limit);
            (positive(magnitude), rest)
        }
    }
}
