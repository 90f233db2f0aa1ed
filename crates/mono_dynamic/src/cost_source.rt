//! From where walks are measured, and how.

ghost use Rattle.std.specs.Prelude.{◌≡◌, ◌*◌, ◌<◌, ◌≤◌, ℕ};
ghost use Rattle.mono_dynamic.specs.LeastRows.{measure_of as measure_by};

use mono_graph::Limit;

/// A node from which walks are measured, what they cost, and the least cost that no longer matters.
#[derive(Debug, Clone, Copy, PartialEq, Eq)]
pub struct CostSource {
    /// The node, from 0.
    pub node: u32,
    /// What a walk costs; the bound of the limit doesn't matter.
    pub limit: Limit,
    /// The label of the nodes to which no walk costs less.
    pub cap: u64,
}

/// The number of what a limit measures, from 0 to 2.
pub(crate) fn measure_of(limit: Limit) -> usize
    ensures measure { result ≡ measure_by limit }
    ensures small { result < 3 }
{
    match limit {
        Limit::Free => 0,
        Limit::Steps(_) => 1,
        Limit::Weight(_) => 2,
    }
}

impl CostSource {
    ghost use Rattle.mono_dynamic.specs.LeastRows.{cost_slot, IsCostSource};

    /// How many slots there are in a graph with so many nodes.
    pub(crate) fn slots(nodes: u32) -> usize
        ensures { result ≡ nodes * 3 }
    {
        nodes as usize * 3
    }

    /// The slot of the source, one of so many nodes: sources of the same slot share a row.
    pub(crate) fn slot(self, nodes: u32) -> usize
        requires { IsCostSource nodes self }
        ensures slot { result ≡ cost_slot self }
        ensures within { result < nodes * 3 }
    {
        let _ = nodes;
        self.node as usize * 3 + measure_of(self.limit)
    }

    /// The source of a row that goes as far as either asks for.
    pub(crate) fn joined(self, other: CostSource) -> CostSource
        requires { cost_slot other ≡ cost_slot self }
        ensures slot { cost_slot result ≡ cost_slot self }
        ensures own { self.cap ≤ result.cap }
        ensures others { other.cap ≤ result.cap }
        ensures known { (n : ℕ) → IsCostSource n self → IsCostSource n other → IsCostSource n result }
    {
        if other.cap <= self.cap {
            return self;
        }
        CostSource {
            node: self.node,
            limit: self.limit,
            cap: other.cap,
        }
    }
}
