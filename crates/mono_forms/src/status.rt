//! How a run ends.

ghost use Rattle.std.specs.Prelude.{◌≡◌};
ghost use Rattle.mono_forms.specs.Statuses.{code_of};

/// How a run ends. The process ends with the number of its status; `Unknown`, `Accepted` and `Printed` share 0.
#[derive(Clone, Copy, Debug, PartialEq, Eq)]
pub enum Status {
    /// A satisfying model was found.
    Satisfiable,
    /// A justified refutation was found.
    Unsatisfiable,
    /// The budget, or all rounds of a team, were spent on justified progress.
    Unknown,
    /// The answer is a satisfying model, a justified refutation or justified progress.
    Accepted,
    /// The input, one that asks for a bound, a generated one or a migrated answer was printed.
    Printed,
    /// The answer isn't accepted.
    Rejected,
    /// The words are no command.
    Words,
    /// The input has a first fault, or the assumptions or the bound can't be asked of it.
    Refused,
    /// A file could not be read.
    ReadFault,
    /// The text could not be written whole.
    WriteFault,
    /// No memory was found. Nothing was written.
    Memory,
    /// A file has more bytes than its limit.
    TooLong,
}

impl Status {
    /// The exit status of the process.
    pub fn code(self) -> u8
        ensures { result ≡ code_of self }
    {
        match self {
            Status::Satisfiable => 10,
            Status::Unsatisfiable => 20,
            Status::Unknown | Status::Accepted | Status::Printed => 0,
            Status::Rejected => 1,
            Status::Words => 2,
            Status::Refused => 3,
            Status::ReadFault => 4,
            Status::WriteFault => 5,
            Status::Memory => 6,
            Status::TooLong => 7,
        }
    }
}
