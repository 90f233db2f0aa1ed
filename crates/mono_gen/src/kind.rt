//! Kinds of generated inputs.

/// What a generated input asks of its board.
#[derive(Clone, Copy, Debug, PartialEq, Eq)]
pub enum GenKind {
    /// Two walks, a flow of 2 and clauses drawn at random, which all edges together satisfy.
    Grid,
    /// A walk from corner to corner across a column that all edges to the right are barred from: no assignment satisfies it.
    Wall,
}
