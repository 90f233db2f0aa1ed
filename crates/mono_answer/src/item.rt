//! What a line of an answer says.

use crate::Kind;
use mono_base::Row;
use mono_steps::Step;

/// What a line says that is neither blank nor a comment.
#[derive(Drop)]
pub enum Item {
    /// The status line.
    Status(Kind),
    /// The numbers of a `v` line: literals, and a 0 where the list ends.
    Values(Row<i32>),
    /// A step of a refutation or of progress.
    Step(Step),
}

/// Why a line was not read.
#[derive(Clone, Copy, Debug, PartialEq, Eq)]
pub enum ItemRefusal {
    /// Memory is missing.
    Memory,
    /// The line is no item of the grammar.
    BadLine,
}
