//! One type over the theories of all kinds.
//!
//! It stands apart from `mono_kinds` since it takes minutes to prove, and no edit of that crate has it proved again.
#![tactic(auto)]

/// A theory of any kind.
mod any;

pub use any::AnyTheory;
