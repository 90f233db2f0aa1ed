//! Numbers appended to a text.

ghost use Rattle.std.specs.Prelude.{◌≡◌, ◌++◌, OnOk, OnErr, decimal};
ghost use Rattle.std.specs.Fmt.{signed_decimal};

use itoa::Buffer;
use std::alloc::AllocError;

/// Appends the number's decimal digits, without leading zeros. Where memory is wanting, `out`
/// is as before.
pub fn push_natural(out: &mut Vec<u8>, n: u64) -> Result<(), AllocError>
    ensures ok { OnOk result (out.new.items ≡ out.old.items ++ decimal n) }
    ensures err { OnErr result (out.new.items ≡ out.old.items) }
{
    let mut buffer = Buffer::new();
    let digits = buffer.format(n);
    out.extend_from_slice(digits.as_bytes())
}

/// Appends the number's decimal digits, behind a `-` where it is negative. Where memory is
/// wanting, `out` is as before.
pub fn push_signed(out: &mut Vec<u8>, n: i64) -> Result<(), AllocError>
    ensures ok { OnOk result (out.new.items ≡ out.old.items ++ signed_decimal n) }
    ensures err { OnErr result (out.new.items ≡ out.old.items) }
{
    let mut buffer = Buffer::new();
    let text = buffer.format(n);
    out.extend_from_slice(text.as_bytes())
}
