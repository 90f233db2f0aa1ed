//! The words that every other crate speaks: literals, the values of literals, sets of literals, lists and texts that
//! contracts compare, lists by key, orders that exchanges change, lists of places to work through, and the limits of the product.
//!
//! A clause is a list of literals, read as a set (DIMACS CNF); `specs/` say when it is true.
#![tactic(auto)]

/// Lists by key.
mod buckets;
/// What holds of the definitions alone.
pub mod laws;
/// The greatest sizes of an input and an answer.
pub mod limits;
mod lit;
mod lit_set;
mod name;
/// The numbers from 0 up.
mod numbers;
/// An order that exchanges change, and each item's place.
mod ranking;
mod row;
mod value;
/// What the definitions make of small literals, clauses and partial assignments.
pub mod worked;
/// A list of places, each at most once, from which they are taken one by one.
mod worklist;

pub use buckets::Buckets;
pub use lit::Lit;
pub use lit_set::LitSet;
pub use name::Name;
pub use numbers::numbers_below;
pub use ranking::Ranking;
pub use row::Row;
pub use value::Value;
pub use worklist::Worklist;
