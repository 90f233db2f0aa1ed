//! What is found of a predicate's bound.

use mono_base::Row;
use mono_steps::Step;

/// What is found of a predicate's bound.
#[derive(Drop)]
pub enum BestOutcome {
    /// Values that satisfy the problem and meet this bound, from 0 to 2^53, and a refutation of the bound that asks for one
    /// more. The values are those of the problem that asks for the bound, so the last is that of its new variable.
    Best {
        bound: i64,
        model: Row<bool>,
        steps: Row<Step>,
    },
    /// A refutation of the weakest bound: no values that satisfy the problem meet any bound.
    Never(Row<Step>),
    /// Values under which a flow has a value of 2^53 + 1, beyond every bound that a file can write.
    Beyond(Row<bool>),
    /// The budget was spent on the problem that asks for this bound: all steps. It is the weakest bound, or the next after one that
    /// some values meet.
    Unknown {
        bound: i64,
        steps: Row<Step>,
    },
}
