//! The value of a literal under a partial assignment.

/// Whether a literal is true, false, or has no value yet.
#[derive(Clone, Copy, Debug, PartialEq, Eq)]
pub enum Value {
    /// The literal is true.
    Yes,
    /// The literal is false.
    No,
    /// The literal is open: its variable has no value.
    Unset,
}
