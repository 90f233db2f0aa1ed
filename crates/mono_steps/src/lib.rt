//! Steps of a refutation, and what justifies them.
//!
//! A step gives a clause that follows: a lemma from what one predicate says of its graph, a chain from earlier clauses by
//! resolution. A refutation is a list of justified steps that ends in a chain with the empty clause; no assignment
//! satisfies its problem.
#![tactic(auto)]

/// Whether steps are justified, with room for all of them.
mod checker;
/// Clauses.
mod clause;
/// Whether a step is justified.
mod examining;
/// What is wrong with a step.
mod fault;
/// What is wrong with a lemma about one graph.
mod graph_checker;
/// The steps that a search made.
mod journal;
/// What justified steps show.
pub mod laws;
/// Lemmas and their witnesses.
mod lemma;
/// What lemmas show.
pub mod lemma_laws;
/// What new learned clauses are like.
pub mod new_laws;
/// Clauses by their numbers.
mod numbered;
/// What a witness names.
mod placing;
/// Steps with other numbers.
mod renumbering;
/// Resolution on a set of literals.
mod resolving;
/// Which witnesses serve which predicates.
mod serving;
/// Chains and steps.
mod step;
/// Edges that come into a part, or leave it, with the literals of a clause.
mod switching;
/// A refutation without the steps that it doesn't rest on.
mod trimming;
/// Whether a witness passes over a part.
mod witness_checker;
/// Rows that were worked by hand, as the definitions compute them.
pub mod worked;
/// Lemmas that were worked by hand, as the definitions compute them.
pub mod worked_lemmas;
/// Which learned clauses are new, worked by hand.
pub mod worked_new;
/// Which word serves which predicate, worked by hand.
pub mod worked_words;

pub use checker::StepChecker;
pub use clause::Clause;
pub use examining::examine;
pub use fault::StepFault;
pub use journal::Journal;
pub use lemma::{Lemma, Witness, WitnessList};
pub use mono_graph::{Amount, Label};
pub use renumbering::{named_by, new_numbers, renumber_steps};
pub use step::{Chain, Step};
pub use trimming::trimmed;
