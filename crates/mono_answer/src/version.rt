//! Versions of the answer format.

ghost use Rattle.std.specs.Prelude.{◌≡◌};
ghost use Rattle.mono_text.specs.Text.{tokens_of};
ghost use Rattle.mono_answer.specs.Versions.{is_version_two};

use mono_text::Line;

/// How the chains of an answer name clauses.
#[derive(Clone, Copy, Debug, PartialEq, Eq)]
pub enum Version {
    /// By their numbers.
    One,
    /// By counting backwards from the number of the chain's own step, so that 1 is the clause before it. The line
    /// `version 2` comes before the status line.
    Two,
}

/// Whether the line is the version line of version 2: it has exactly the tokens `version` and `2`.
pub fn is_version_line(line: &Line<'_>) -> bool
    ensures { result ≡ is_version_two (tokens_of line.now.text.now) }
{
    let mut tokens = line.tokens();
    let Some(word) = tokens.next() else {
        return false;
    };
    let Some(number) = tokens.next() else {
        return false;
    };
    match tokens.next() {
        Some(_) => false,
        None => word == b"version".as_slice() && number == b"2".as_slice(),
    }
}
