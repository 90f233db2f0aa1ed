//! How a literal came onto the trail.

/// How a literal came onto the trail.
#[derive(Clone, Copy, Debug, PartialEq, Eq)]
pub enum Reason {
    /// It was decided.
    Decided,
    /// The clause of this number implied it, or is its lemma, made since.
    Clause(u64),
    /// The atom forced it when its theory had seen `kept` literals, and its lemma isn't made yet.
    Late { atom: u32, kept: u32 },
}

/// The level and the reason of a literal on the trail.
#[derive(Clone, Copy, Debug, PartialEq, Eq)]
pub struct Mark {
    /// How many decisions stand on the trail up to the literal.
    pub level: u32,
    /// How it came there.
    pub reason: Reason,
}
