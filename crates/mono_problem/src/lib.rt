//! Problems: clauses, and predicates over graphs whose edges are Boolean variables.
//!
//! A problem is built by a `Draft`, one graph, edge, predicate or clause at a time, and finished once. Contracts see
//! both as one record: the number of variables, the graphs with their identities, the predicates, the clauses.
#![tactic(auto)]

mod atom;
mod clause_list;
mod draft;
/// What holds of the definitions alone.
pub mod laws;
mod problem;
mod totals;
mod uses;
/// Worked rows of the definitions.
pub mod worked;

pub use atom::{Atom, Predicate};
pub use draft::Draft;
pub use problem::Problem;
pub use totals::Totals;
pub use uses::Use;
