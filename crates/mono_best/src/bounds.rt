//! Bounds by their numbers: that of the weakest is 0, and each next one asks for one more.

ghost use Rattle.std.specs.Prelude.{◌≡◌, ◌≤◌, ◌+◌};
ghost use Rattle.mono_best.specs.Bounds.{has_bound as has_bound_of, is_flow as is_flow_of, with_bound as bounded, bound_at as bound_of};

use mono_base::limits::MAX_BOUND;
use mono_problem::Predicate;

/// The number of the bound that asks for most: a flow of 2^53 + 1, or a weight of -1.
pub(crate) const LAST: u64 = MAX_BOUND + 1;

/// Whether the predicate has a bound.
pub(crate) fn has_bound(predicate: Predicate) -> bool
    ensures { result ≡ has_bound_of predicate }
{
    !matches!(predicate, Predicate::Reach { .. } | Predicate::Acyclic)
}

/// Whether its bound is one that a value has to reach. Each other bound is one that a value must not pass.
pub(crate) fn is_flow(predicate: Predicate) -> bool
    ensures { result ≡ is_flow_of predicate }
{
    matches!(predicate, Predicate::Flow { .. })
}

/// The predicate with another bound.
pub(crate) fn with_bound(predicate: Predicate, bound: i64) -> Predicate
    ensures { result ≡ bounded predicate bound }
{
    match predicate {
        Predicate::Reach { from, to } => Predicate::Reach { from, to },
        Predicate::Steps { from, to, most: _ } => Predicate::Steps {
            from,
            to,
            most: bound,
        },
        Predicate::Distance { from, to, most: _ } => Predicate::Distance {
            from,
            to,
            most: bound,
        },
        Predicate::Flow {
            source,
            sink,
            least: _,
        } => Predicate::Flow {
            source,
            sink,
            least: bound,
        },
        Predicate::Tree { most: _ } => Predicate::Tree { most: bound },
        Predicate::Acyclic => Predicate::Acyclic,
    }
}

/// The bound of a number.
pub(crate) fn bound_at(predicate: Predicate, number: u64) -> i64
    requires { number ≤ MAX_BOUND + 1 }
    ensures { result ≡ bound_of predicate number }
{
    if is_flow(predicate) {
        number as i64
    } else {
        MAX_BOUND as i64 - number as i64
    }
}
