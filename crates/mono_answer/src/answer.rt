//! Answers.

use mono_base::Row;
use mono_steps::Step;

/// What a solver answers of a problem.
#[derive(Drop)]
pub enum Answer {
    /// The values of the variables, from variable 1 on.
    Model(Row<bool>),
    /// Justified steps, the last of which is a chain with the empty clause.
    Refutation(Row<Step>),
    /// Justified steps.
    Progress(Row<Step>),
}
