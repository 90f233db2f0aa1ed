//! The search of a solver for SAT modulo monotonic graph theories: conflict-driven clause learning over clauses and
//! theories (Marques-Silva and Sakallah's GRASP, Een and Sorensson's MiniSat, Bayless et al. 2015).
//!
//! Clauses and theories say what follows from the literals of the trail. A conflict teaches a clause, and the search goes
//! back below it; where all is quiet a variable is decided. Whatever theories there are: a model satisfies the problem,
//! a refutation is justified step by step, and each learned clause is one that unit propagation didn't already give.
#![tactic(auto)]

/// What one of a list of theories forces, and its lemmas.
mod asking;
/// Going back to a lower level.
mod backjumping;
/// Which theories each variable concerns.
mod concerns;
/// Decisions, and the model when there is nothing left to decide.
mod deciding;
/// Which theory owns an atom, and its lemmas.
mod explaining;
/// Lemmas in good time.
mod foreseeing;
/// Handing literals to theories.
mod handing;
/// What a search begins with, beside its theories.
mod inputs;
/// What a conflict leads to.
mod learning;
/// What is remembered of signs, and how restarts turn them.
mod memory;
/// Signs that are preferred at decisions.
mod preferring;
/// What follows from the literals of the trail.
mod propagation;
/// When the search begins anew.
mod restarts;
/// Steps of the search until it ends.
mod running;
/// The search, as its callers see it.
mod search;
/// The signs of a model.
mod signs;
/// Problems solved by one search.
mod solving;
/// What a search works on.
mod state;
/// A problem and the theories that own its atoms.
mod theories;
/// Taking literals back from theories.
mod undoing;
/// Worked rows of the definitions.
pub mod worked;

pub use search::{Outcome, Search};
pub use signs::signs_of;
pub use solving::{Solved, solve, solve_preferring};
