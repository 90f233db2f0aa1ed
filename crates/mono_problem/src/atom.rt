//! Predicates over graphs, and the variables that stand for them (Bayless et al. 2015).

/// A predicate over the edges that are present in a graph. Nodes are numbered from 0.
///
/// In a problem `most` is from -1 to 2^53, and -1 is never met; `least` is from 0 to 2^53 + 1.
#[derive(Clone, Copy, Debug, PartialEq, Eq)]
pub enum Predicate {
    /// A walk leads from one node to the other.
    Reach { from: u32, to: u32 },
    /// A walk of at most so many edges leads from one node to the other.
    Steps { from: u32, to: u32, most: i64 },
    /// A walk of at most so much weight leads from one node to the other.
    Distance { from: u32, to: u32, most: i64 },
    /// A flow of at least so much leads from the source to the sink, which differ.
    Flow { source: u32, sink: u32, least: i64 },
    /// A spanning tree weighs at most so much, edges taken without direction.
    Tree { most: i64 },
    /// No walk of one edge or more leads from a node to itself.
    Acyclic,
}

/// A predicate with its variable: the variable is to be true exactly where the predicate holds.
#[derive(Clone, Copy, Debug, PartialEq, Eq)]
pub struct Atom {
    /// The predicate's number, from 1 in the order of the input.
    pub number: u32,
    /// The place of its graph, from 0 in the order of declaration.
    pub graph: u32,
    /// Its variable, from 1.
    pub var: u32,
    /// What the variable stands for, over the edges of that graph.
    pub predicate: Predicate,
}
