//! What is wrong with a step.

/// What is wrong with a step.
///
/// A lemma is checked for an unknown predicate, a wrong kind, an unknown number, a failing witness and a missing literal, in
/// this order, and a chain for an unknown number, for being stuck and for a literal that isn't covered.
#[derive(Clone, Copy, Debug, PartialEq, Eq)]
pub enum StepFault {
    /// No predicate has the lemma's number.
    UnknownAtom,
    /// The witness is not one for this kind of predicate.
    WrongKind,
    /// A literal's variable is beyond the problem's, or what is named is not there: a node or an edge of the
    /// predicate's graph, or an earlier clause.
    UnknownNumber,
    /// The clause of a lemma lacks a literal that the witness calls for.
    MissingLiteral,
    /// The witness shows nothing, whatever edges the clause lets it use.
    WitnessFails,
    /// At some step of a chain not exactly one variable clashes, or the chain names no clause.
    ChainStuck,
    /// The end of a chain has a literal that the chain's clause lacks.
    NotCovered,
}
