//! Naturals and signed numbers, each within a limit.
//!
//! A token of any length is read in one pass. The value stops at 2^64, which is above every limit.

ghost use Rattle.std.specs.Prelude.{◌≡◌, ◌≤◌, ◌^◌, min, is_some, IfSome, IfOk};
ghost use Rattle.std.specs.List.{list_all};
ghost use Rattle.std.specs.Char.{is_ascii_digit};
ghost use Rattle.mono_text.specs.Numbers.{digits_value, natural, signed, within, signed_within};

/// Why a token is no number within a limit.
#[derive(Clone, Copy, PartialEq, Eq, Debug)]
pub enum NumberRefusal {
    /// The token isn't one or more digits, behind a `-` where a signed number is read.
    NotNumber,
    /// The token is a number, and it is above the limit.
    TooLarge,
}

/// The number that the digits stand for, or 2^64 where it is greater. None where a byte is no digit.
fn value_of(token: &[u8]) -> Option<u128>
    ensures digits { is_some result ≡ list_all is_ascii_digit token.now }
    ensures value { IfSome result (λ value. value ≡ min (digits_value token.now) (2 ^ 64)) }
{
    let mut value: u128 = 0;
    for byte in token {
        if !byte.is_ascii_digit() {
            return None;
        }
        value = (10 * value + u128::from(*byte - b'0')).min(1 << 64);
    }
    Some(value)
}

/// The natural that the token is: one or more digits, up to the limit. Leading zeros are allowed, a
/// sign isn't.
pub fn natural(token: &[u8], limit: u64) -> Result<u64, NumberRefusal>
    ensures value { result ≡ within limit (natural token.now) }
    ensures within { IfOk result (λ n. n ≤ limit) }
{
    if token.is_empty() {
        return Err(NumberRefusal::NotNumber);
    }
    match value_of(token) {
        None => Err(NumberRefusal::NotNumber),
        Some(value) if value > u128::from(limit) => Err(NumberRefusal::TooLarge),
        Some(value) => Ok(value as u64),
    }
}

/// The signed number that the token is: a natural, or `-` directly before one, its magnitude up to
/// the limit, which is at most 2^62. `-0` is 0.
pub fn signed(token: &[u8], limit: u64) -> Result<i64, NumberRefusal>
    requires { limit ≤ 2 ^ 62 }
    ensures { result ≡ signed_within limit (signed token.now) }
{
    match token {
        [b'-', digits @ ..] => {
            let magnitude = natural(digits, limit)?;
            Ok(-(magnitude as i64))
        }
        _ => {
            let magnitude = natural(token, limit)?;
            Ok(magnitude as i64)
        }
    }
}
