//! Kinds of answers.

ghost use Rattle.std.specs.Prelude.{◌≡◌};
ghost use Rattle.mono_answer.specs.Items.{kind_of};
ghost use Rattle.mono_answer.specs.Printed.{kind_text};

/// The kinds of answers, as their status lines name them (the SAT competition's words).
#[derive(Clone, Copy, Debug, PartialEq, Eq)]
pub enum Kind {
    /// `SATISFIABLE`: the lines behind the status line are values of the variables.
    Model,
    /// `UNSATISFIABLE`: they are steps, the last of which is a chain with the empty clause.
    Refutation,
    /// `UNKNOWN`: they are steps.
    Progress,
}

/// The kind that a token of a status line names.
pub(crate) fn kind_named(token: &[u8]) -> Option<Kind>
    ensures { result ≡ kind_of token.now }
{
    if token == b"SATISFIABLE".as_slice() {
        Some(Kind::Model)
    } else if token == b"UNSATISFIABLE".as_slice() {
        Some(Kind::Refutation)
    } else if token == b"UNKNOWN".as_slice() {
        Some(Kind::Progress)
    } else {
        None
    }
}

impl Kind {
    pub(crate) fn text(self) -> &'static [u8]
        ensures { result.now ≡ kind_text self }
    {
        match self {
            Kind::Model => b"SATISFIABLE",
            Kind::Refutation => b"UNSATISFIABLE",
            Kind::Progress => b"UNKNOWN",
        }
    }
}
