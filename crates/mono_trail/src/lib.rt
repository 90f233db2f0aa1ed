//! What a search decides by: the trail of literals that are true, the order in which variables are decided, and Luby's
//! sequence of restarts.
//!
//! No call after the constructors takes memory.
#![tactic(auto)]

mod heap;
/// What holds of the definitions alone.
pub mod laws;
mod luby_sequence;
mod order;
mod reason;
mod trail;

pub use luby_sequence::luby;
pub use order::Order;
pub use reason::{Mark, Reason};
pub use trail::Trail;
