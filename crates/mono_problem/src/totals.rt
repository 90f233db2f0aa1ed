//! How much there is of each kind in a problem.

/// The size of a problem: its number of variables, and how many there are of each kind over all its graphs and clauses.
#[derive(Clone, Copy, Debug, PartialEq, Eq)]
pub struct Totals {
    pub vars: u32,
    pub graphs: u32,
    pub nodes: u32,
    pub edges: u32,
    pub atoms: u32,
    pub clauses: u32,
    pub literals: u32,
}
