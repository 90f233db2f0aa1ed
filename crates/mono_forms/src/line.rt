//! Lines that take no memory: those of a refusal and of a verdict. Each is put together in a buffer of fixed size.
//!
//! A token behind a line's first words has at most 20 bytes: a number of 64 bits has no more digits, and each name is shorter.

ghost use Rattle.std.specs.Prelude.{◌≡◌, ◌+◌, ◌≤◌, ◌++◌, ◌∷◌, [], decimal, length};
ghost use Rattle.arrayvec.specs.ArrayString.{array_string_len};
ghost use Rattle.mono_answer.specs.Behind.{behind};
ghost use Rattle.mono_check.specs.declared.verdict.Verdict.TheVariants as verdict;
ghost use Rattle.mono_forms.specs.declared.ending.Ending.TheVariants as ending;
ghost use Rattle.mono_forms.specs.Endings.{reason_words, text_of, verdict_text};

use arrayvec::ArrayString;
use itoa::Buffer;
use mono_check::Reason;
use mono_gnf::GnfFault;

/// How many bytes a line has room for: more than any of these lines has.
pub const LINE_BYTES: usize = 80;

/// Appends a space and the token.
fn push_token<const N: usize>(out: &mut ArrayString<N>, token: &str)
    requires short { length token.now ≤ 20 }
    requires room { array_string_len out.old + 21 ≤ N }
    ensures bytes { out.new.bytes ≡ out.old.bytes ++ behind (token.now ∷ []) }
    ensures len { array_string_len out.new ≤ array_string_len out.old + 21 }
{
    out.push_str(" ");
    out.push_str(token);
}

/// Appends a space and the number.
fn push_number<const N: usize>(out: &mut ArrayString<N>, number: u64)
    requires { array_string_len out.old + 21 ≤ N }
    ensures bytes { out.new.bytes ≡ out.old.bytes ++ behind (decimal number ∷ []) }
    ensures len { array_string_len out.new ≤ array_string_len out.old + 21 }
{
    let mut digits = Buffer::new();
    push_token(out, digits.format(number));
}

/// Appends a space and the name of the reason, and a space and the number that it carries, if it carries one.
fn push_reason<const N: usize>(out: &mut ArrayString<N>, reason: Reason)
    requires { array_string_len out.old + 42 ≤ N }
    ensures bytes { out.new.bytes ≡ out.old.bytes ++ behind (reason_words reason) }
    ensures len { array_string_len out.new ≤ array_string_len out.old + 42 }
{
    push_token(out, reason.name());
    match reason {
        Reason::ClauseFalse(number) => push_number(out, u64::from(number)),
        Reason::AtomWrong(number) => push_number(out, u64::from(number)),
        _ => {}
    }
}

/// The line of the input's fault.
pub(crate) fn refused_line(line: u64, fault: GnfFault) -> ArrayString<LINE_BYTES>
    ensures { result.bytes ≡ text_of (ending.Refused line fault) }
{
    let mut out = ArrayString::new();
    out.push_str("refused");
    push_number(&mut out, line);
    push_token(&mut out, fault.name());
    out.push_str("\n");
    out
}

/// The line of accepted progress of so many learned clauses.
pub(crate) fn progress_line(count: u64) -> ArrayString<LINE_BYTES>
    ensures { result.bytes ≡ verdict_text (verdict.Progress count) }
{
    let mut out = ArrayString::new();
    out.push_str("accepted progress");
    push_number(&mut out, count);
    out.push_str("\n");
    out
}

/// The line of a rejection.
pub(crate) fn rejected_line(line: u64, reason: Reason) -> ArrayString<LINE_BYTES>
    ensures { result.bytes ≡ verdict_text (verdict.Rejected line reason) }
{
    let mut out = ArrayString::new();
    out.push_str("rejected");
    push_number(&mut out, line);
    push_reason(&mut out, reason);
    out.push_str("\n");
    out
}
