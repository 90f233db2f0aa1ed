//! Searches that cooperate through a board of steps: a machine over a list of events, without threads.
//!
//! Each worker searches over the problem and the clauses that it took from the board, and gives what it learned to the
//! board, renumbered. The clauses of the board follow from the problem, so a model that one worker finds is one of the
//! problem, and a refutation that one makes is one on the board: whatever the order of searches, gifts and takings.
#![tactic(auto)]

/// The problem that was built last for a worker's search.
mod building;
/// What a team is asked, and what it answers.
mod event;
/// A problem with clauses of the board behind its own.
mod extending;
/// What holds of boards and plays by their definitions.
pub mod laws;
/// Steps over an extended problem, carried to the board.
mod moving;
/// The literals that a worker prefers.
mod preferring;
/// Workers that search and give in turn.
mod rounds;
/// A worker's search over its own problem.
mod searching;
/// Workers that share a board of steps.
mod team;
/// Whole plays.
mod whole_plays;
/// Boards, extended problems and refusals that were worked by hand.
pub mod worked;
/// Ends of rounds that were worked by hand.
pub mod worked_ends;
/// Plays that were worked by hand.
pub mod worked_plays;
/// Rounds that were worked by hand.
pub mod worked_rounds;
/// What a worker took, and what it made.
mod worker;

pub use event::{Event, Reply};
pub use rounds::{TeamOutcome, play_team};
pub use team::Team;
pub use whole_plays::{Played, play};
