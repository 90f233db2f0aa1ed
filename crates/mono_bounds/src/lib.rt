//! Bounds: the edges that are surely and possibly present under literals, and places by key.
#![tactic(auto)]

/// The edges that are surely and possibly present.
mod bounds;
/// Places in the order of their keys.
mod entries;
/// Places by key.
mod index;
/// The bounds of a list of literals.
mod seen_bounds;
/// Where the places of a key stand.
mod span;

pub use bounds::{Bounds, vars_of};
pub use index::{Index, set_all};
pub use seen_bounds::SeenBounds;
pub use span::Span;
