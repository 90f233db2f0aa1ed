//! The theories of a problem, of every kind that it has.
#![tactic(auto)]

/// The theories of a problem.
mod every;
/// Atoms by graph and kind.
mod slots;
/// Worked rows of the definitions.
pub mod worked;

pub use every::all_theories;
pub use mono_any::AnyTheory;
