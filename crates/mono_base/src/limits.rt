//! The greatest sizes of an input and an answer. A reader refuses what is beyond them.
//!
//! Contracts, definitions and proofs cite a limit by its name, so that a change of a limit is a change of this file.

ghost use Rattle.std.specs.Prelude.{◌≡◌, ◌+◌, ◌^◌};

/// Variables are numbered from 1 to at most this.
pub const MAX_VARS: u32 = 1_000_000;

/// Graphs of an input.
pub const MAX_GRAPHS: u32 = 1_024;

/// Nodes of an input, over all its graphs.
pub const MAX_NODES: u32 = 1_000_000;

/// Edges of an input, over all its graphs.
pub const MAX_EDGES: u32 = 1_000_000;

/// Predicates of an input.
pub const MAX_ATOMS: u32 = 100_000;

/// Clauses of an input.
pub const MAX_CLAUSES: u32 = 8_000_000;

/// Literals in the clauses of an input, repeats counted.
pub const MAX_LITERALS: u32 = 16_000_000;

/// Bytes of an input: 2^28.
pub const MAX_INPUT_BYTES: u64 = 268_435_456;

/// Bytes of an answer that is checked: 2^40.
pub const MAX_ANSWER_BYTES: u64 = 1_099_511_627_776;

/// The weight of an edge: 2^64 - 1.
pub const MAX_WEIGHT: u64 = 18_446_744_073_709_551_615;

/// The bound of a predicate, as it is written: 2^53.
pub const MAX_BOUND: u64 = 9_007_199_254_740_992;

/// A label's value or an edge's amount in a witness: 2^60.
pub const MAX_WITNESS_VALUE: u64 = 1_152_921_504_606_846_976;

/// Each limit is pinned by its number here, and cited by its name everywhere else.
pub fn limits_are_these_numbers()
    ensures vars { MAX_VARS ≡ 1000000 }
    ensures graphs { MAX_GRAPHS ≡ 1024 }
    ensures nodes { MAX_NODES ≡ 1000000 }
    ensures edges { MAX_EDGES ≡ 1000000 }
    ensures atoms { MAX_ATOMS ≡ 100000 }
    ensures clauses { MAX_CLAUSES ≡ 8000000 }
    ensures literals { MAX_LITERALS ≡ 16000000 }
    ensures input_bytes { MAX_INPUT_BYTES ≡ 2 ^ 28 }
    ensures answer_bytes { MAX_ANSWER_BYTES ≡ 2 ^ 40 }
    ensures weight { MAX_WEIGHT + 1 ≡ 2 ^ 64 }
    ensures bound { MAX_BOUND ≡ 2 ^ 53 }
    ensures witness_value { MAX_WITNESS_VALUE ≡ 2 ^ 60 }
{}
