//! What watches an edge.

/// An atom that watches an edge, and the place that the edge had in its support.
///
/// Supports change, and watches stay. Where the support has the edge at that place now, the atom rests on it; so one look tells.
#[derive(Clone, Copy)]
pub struct Watch {
    pub atom: u32,
    pub place: usize,
}
