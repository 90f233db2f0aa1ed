//! What a propagation found.

/// What a propagation found.
#[derive(Clone, Copy, Debug, PartialEq, Eq)]
pub enum Found {
    /// Nothing is left to do: each clause has a true literal or at least two different open ones.
    Quiet,
    /// The clause of this number is false.
    False(u64),
}
