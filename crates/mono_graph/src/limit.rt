//! Limits of walks.

ghost use Rattle.std.specs.Prelude.{◌≡◌, ◌+◌, ◌≤◌, ◌+ℤ◌, ◌≤ℤ◌, pos, negsuc};
ghost use Rattle.mono_graph.specs.Walks.{admits as admits_by, bound_of, cost_of as cost_by, IsBounded};

use crate::Edge;
use mono_base::limits::MAX_BOUND;

/// What a walk may cost at most. A bound may be negative; then no walk is within it.
#[derive(Debug, Clone, Copy, PartialEq, Eq)]
pub enum Limit {
    /// No limit.
    Free,
    /// At most this many edges, each counted as often as the walk goes over it.
    Steps(i64),
    /// At most this sum of the weights of the edges, each counted as often as the walk goes over it.
    Weight(i64),
}

/// One more than a bound from -1 on.
fn above(most: i64) -> u64
    requires least { negsuc 0 ≤ℤ most }
    requires greatest { most ≤ℤ pos MAX_BOUND }
    ensures value { pos result ≡ most +ℤ pos 1 }
    ensures small { result ≤ MAX_BOUND + 1 }
{
    (most + 1) as u64
}

impl Limit {
    /// What an edge counts towards the limit: nothing, 1, or its weight.
    pub fn cost_of(self, edge: Edge) -> u64
        ensures { result ≡ cost_by self edge }
    {
        match self {
            Limit::Free => 0,
            Limit::Steps(_) => 1,
            Limit::Weight(_) => edge.weight,
        }
    }

    /// The bound. Where nothing counts it is 0.
    fn bound(self) -> i64
        ensures { result ≡ bound_of self }
    {
        match self {
            Limit::Free => 0,
            Limit::Steps(most) => most,
            Limit::Weight(most) => most,
        }
    }

    /// Whether a walk that costs so much, as the limit counts, is within it. Where nothing counts, each walk costs 0.
    pub fn admits(self, cost: u128) -> bool
        ensures { result ≡ admits_by self cost }
    {
        let most = self.bound();
        most >= 0 && cost <= most as u128
    }

    /// One more than the bound: each walk within the limit costs less. A bound is from -1 to [`MAX_BOUND`].
    pub fn cap(self) -> u64
        requires { IsBounded self }
        ensures value { pos result ≡ bound_of self +ℤ pos 1 }
        ensures small { result ≤ MAX_BOUND + 1 }
    {
        match self {
            Limit::Free => 1,
            Limit::Steps(most) => above(most),
            Limit::Weight(most) => above(most),
        }
    }
}
