//! What is known of an atom on one side.

/// What is known of an atom on one side. The side would have its predicate decided by the other edges: as absent ones show it,
/// on the side of the surely present edges, or as present ones show it, on that of the possibly present ones. Else the atom
/// forces its literal.
#[derive(Clone, Copy)]
pub enum Stage {
    /// The atom has to be looked at.
    Waits,
    /// Its predicate is decided as the side would have it: its support is right.
    Stands,
    /// Its predicate is decided the other way, and its literal is true, both by so many first literals seen.
    Shows(usize),
}
