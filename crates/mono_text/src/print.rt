//! Lines appended to a text.

ghost use Rattle.std.specs.Prelude.{◌≡◌, ◌++◌, ◌∷◌, OnOk, OnErr, codes, decimal, flat_map, map};
ghost use Rattle.std.specs.Io.{StartsWith};
ghost use Rattle.mono_text.specs.Text.{spaced};

use crate::push_natural;
use std::alloc::AllocError;

/// A space and a number, for each of the numbers.
fn push_numbers(out: &mut Vec<u8>, numbers: &[u64]) -> Result<(), AllocError>
    ensures ok { OnOk result (out.new.items ≡ out.old.items ++ flat_map (λ n. codes " " ++ decimal n) numbers.now) }
    ensures err { OnErr result (StartsWith out.new.items out.old.items) }
{
    for number in numbers {
        out.push(b' ')?;
        push_natural(out, *number)?;
    }
    Ok(())
}

/// Appends the line of a word and numbers: the word, a space and each number, and a line feed. Where
/// memory is wanting, what was there stays, and more may stand behind it.
pub fn push_line(out: &mut Vec<u8>, word: &[u8], numbers: &[u64]) -> Result<(), AllocError>
    ensures ok { OnOk result (out.new.items ≡ out.old.items ++ spaced (word.now ∷ map decimal numbers.now)) }
    ensures err { OnErr result (StartsWith out.new.items out.old.items) }
{
    out.extend_from_slice(word)?;
    push_numbers(out, numbers)?;
    out.push(b'\n')?;
    Ok(())
}
