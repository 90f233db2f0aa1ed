//! What the checker says of an answer.

use crate::Reason;

/// What the checker says of an answer.
#[derive(Clone, Copy, Debug, PartialEq, Eq)]
pub enum Verdict {
    /// The values satisfy the problem.
    Model,
    /// The steps are justified, and the last is a chain with the empty clause: no assignment satisfies the problem.
    Refutation,
    /// The steps are justified. So many of them are chains.
    Progress(u64),
    /// The first line at fault, from 1, and why.
    Rejected { line: u64, reason: Reason },
}
