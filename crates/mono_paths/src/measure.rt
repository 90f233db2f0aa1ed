//! What of a walk is bounded.

ghost use Rattle.std.specs.Prelude.{◌≡◌};
ghost use Rattle.mono_paths.specs.Asked.{limit_by};

use mono_graph::Limit;

/// What of a walk is bounded, whatever the bound is.
#[derive(Debug, Clone, Copy, PartialEq, Eq, PartialOrd, Ord)]
pub enum Measure {
    /// Nothing: each walk will do.
    Free,
    /// How many edges it has.
    Steps,
    /// How much they weigh.
    Weight,
}

impl Measure {
    /// The limit of this much.
    pub fn limit(self, most: i64) -> Limit
        ensures { result ≡ limit_by self most }
    {
        match self {
            Measure::Free => Limit::Free,
            Measure::Steps => Limit::Steps(most),
            Measure::Weight => Limit::Weight(most),
        }
    }
}
