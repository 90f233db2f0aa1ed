//! Cycles in graphs: finding one, or an order of the nodes that shows that there is none, and testing either.
#![tactic(auto)]

/// Lists that are put in another order.
mod arrange;
/// The nodes from which walks lead to one node.
mod behind;
/// Walks from a node to itself.
mod cycle;
/// Searches that keep their room.
mod finder;
/// An order that is kept while edges come.
mod kept_order;
/// What follows from the definitions alone.
pub mod laws;
/// Lists of the nodes in which each present edge begins before it ends.
mod order;
/// A part with an order.
mod ordered_part;
/// A search along the edges backwards.
mod search;

pub use cycle::is_cycle;
pub use finder::{CycleFinder, CycleOrOrder, find_cycle};
pub use kept_order::KeptOrder;
pub use order::{OrderChecker, is_order, rank};
pub use ordered_part::OrderedPart;
