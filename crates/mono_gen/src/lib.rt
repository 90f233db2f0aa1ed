//! Generated inputs: boards of nodes whose edges, weights and clauses follow from a size and a seed.
//!
//! Each text is the printed form of an input, and the same on every machine: its words are those of a PCG generator
//! (O'Neill 2014) with 64 bits of state, begun at the seed.
#![tactic(auto)]

/// A board, its nodes and its edges.
mod board;
/// Draws, and the whole text.
mod input;
/// Kinds of generated inputs.
mod kind;
/// Laws of generated inputs.
pub mod laws;
/// Texts and counts that were worked by hand.
pub mod worked;

pub use input::generate;
pub use kind::GenKind;
