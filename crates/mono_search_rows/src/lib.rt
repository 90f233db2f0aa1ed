//! Rows worked by hand of the definitions that contracts of theories, of searches, of cores, bounds and teams cite.
//!
//! They stand here since a row more then makes nothing else be proved again.
#![tactic(auto)]

/// Rows of what theories answer that were worked by hand.
pub mod worked_answers;
/// Rows of what atoms ask for that were worked by hand.
pub mod worked_asked;
/// Rows of evidence that were worked by hand.
pub mod worked_evidence;
/// Rows of what theories are over that were worked by hand.
pub mod worked_frames;
/// More rows of what theories keep and answer.
pub mod worked_keeping;
/// Rows of kinds of predicates that were worked by hand.
pub mod worked_kinds;
/// Rows of what stands behind the last place.
pub mod worked_last_places;
/// Rows of walks and costs just where what is said of them ends.
pub mod worked_last_steps;
/// Rows of edges with an order that were worked by hand.
pub mod worked_orders;
/// More rows of what teams answer, of cores and of bounds that are found.
pub mod worked_outcomes;
/// Rows of parts that change that were worked by hand.
pub mod worked_parts;
/// Rows of what theories tell of their atoms that were worked by hand.
pub mod worked_readers;
/// Rows of what searches decide, save and count that were worked by hand.
pub mod worked_searches;
/// Rows of what sides answer that were worked by hand.
pub mod worked_sides;
/// Rows of budgets and of flows that were worked by hand.
pub mod worked_spending;
/// Rows of what is kept on a side that were worked by hand.
pub mod worked_supports;
/// Rows of what teams play that were worked by hand.
pub mod worked_teams;
/// Rows of walks and costs that are kept that were worked by hand.
pub mod worked_ways;
