//! Where the places of a key stand.

/// Where the places of a key stand in the order of an index.
#[derive(Clone, Copy)]
pub struct Span {
    /// The first of them.
    pub start: u32,
    /// The one behind the last.
    pub end: u32,
}
