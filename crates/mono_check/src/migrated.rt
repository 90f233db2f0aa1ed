//! What migrating an answer gives.

use crate::Reason;
use mono_base::Row;

/// What migrating an answer gives.
#[derive(Drop)]
pub enum Migrated {
    /// The printed text of the answer.
    Text(Row<u8>),
    /// The first line at fault of an answer that isn't accepted, from 1, and why.
    Rejected { line: u64, reason: Reason },
}
