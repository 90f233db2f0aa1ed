//! Texts read from a shelf and bytes written to a sink, in memory, or over any access to files and any writer.
//!
//! - `failed`: the answer of a call to the outside that failed
//! - `shelf`, `sink`: the traits, each with a count of faults to which its failures are tied
//! - `consumer`, `pieces`: a text handed on piece by piece to whoever takes it, up to a limit, over any shelf
//! - `reading`, `refusal`: a text read whole
//! - `writing`: all of a text written, over any sink
//! - `memory_shelf`, `text_table`: texts in memory
//! - `memory_sink`: bytes in memory
//! - `worked`: rows that were worked by hand
//! - `fault_plan`: which calls of the two in memory are to fail
//! - `file_shelf`, `file_access`, `std_sink`: files over any access to them, that of the system, and what any writer holds
#![tactic(auto)]

mod consumer;
mod failed;
mod fault_plan;
mod file_access;
mod file_shelf;
mod memory_shelf;
mod memory_sink;
mod pieces;
mod reading;
mod refusal;
mod shelf;
mod sink;
mod std_sink;
mod text_table;
/// Rows that were worked by hand, as the definitions compute them.
pub mod worked;
mod writing;

pub use consumer::Consumer;
pub use failed::Failed;
pub use file_access::{FileAccess, SystemFiles};
pub use file_shelf::{FileShelf, LAST_PLACE};
pub use memory_shelf::MemoryShelf;
pub use memory_sink::MemorySink;
pub use pieces::read_into;
pub use reading::{GREATEST_LIMIT, read_whole};
pub use refusal::ReadRefusal;
pub use shelf::Shelf;
pub use sink::Sink;
pub use std_sink::StdSink;
pub use writing::write_whole;
