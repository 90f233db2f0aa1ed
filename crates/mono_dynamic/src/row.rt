//! What is kept for one source.

ghost use Rattle.std.specs.Prelude.{◌≡◌, ◌+◌, ◌<◌, ◌≤◌, ◌^◌, All, IfOk, OnErr, OnOk, length};

use crate::at_node::AtNode;
use crate::cost_source::CostSource;
use mono_base::limits::MAX_NODES;
use mono_graph::{Graph, Part};
use std::alloc::{AllocError, Global};

/// What was found from one source, after each number of steps by which a part of a graph grew.
pub trait SourceRow: Drop {
    ghost use Rattle.std.specs.Prelude.{ℕ, Bool, List};
    ghost use Rattle.mono_graph.specs.Digraph.{Digraph, IsPartOf};
    ghost use Rattle.mono_dynamic.specs.declared.cost_source.CostSource.{CostSource};
    ghost use Rattle.mono_dynamic.specs.BySource.{IsBack};
    ghost use Rattle.mono_dynamic.specs.LeastRows.{IsCostSource};

    /// What a step changes in a row, each time at a node.
    type Change: AtNode;

    /// The row from this source, of a graph with so many nodes, in a part with no edge.
    ghost at_first: { ℕ → CostSource → Self };

    /// The row is of a graph with so many nodes, and nothing in it is of a later step than so many.
    ghost fits: { ℕ → ℕ → Self → Type 0 };

    /// How a row has grown by edges, given by their places, that came into a part with the step after so many.
    ghost grown: { Digraph → List Bool → List ℕ → ℕ → Self → Self → Type 0 };

    /// How a row has gone back to so many steps.
    ghost undone: { ℕ → Self → Self → Type 0 };

    /// What has changed in a row in the steps after so many, in order.
    ghost changed_after: { ℕ → Self → List Self.Change };

    /// The row from a source, in a part with no edge.
    fn new(alloc: Global, nodes: u32, source: CostSource) -> Result<Self, AllocError>
        requires few { nodes ≤ MAX_NODES }
        requires source { IsCostSource nodes source }
        ensures { IfOk result (λ row. row ≡ at_first nodes source) };

    /// Edges have come into the part, with the step after the first `looked`, and no others since the last call. Where memory
    /// is missing, all is as before.
    fn grow(
        &mut self,
        graph: &Graph,
        part: &Part,
        places: &[u32],
        looked: u32,
    ) -> Result<(), AllocError>
        requires fits { fits graph.now.nodes looked self.old }
        requires part { IsPartOf part.now graph.now }
        requires places { All (λ k. k < length graph.now.edges) places.now }
        requires few { looked + 1 < 2 ^ 32 }
        ensures grown { OnOk result (grown graph.now part.now places.now looked self.old self.new) }
        ensures unchanged { OnErr result (self.new ≡ self.old) };

    /// Goes back to what was found after so many steps: a row that grew by the step after them is what it was. It takes no
    /// memory.
    fn undo_to(&mut self, kept: u32)
        ensures { IsBack fits grown undone kept self.old self.new };

    /// What has changed in the steps after the first `kept`, in order. It costs their number.
    fn changes_after(&self, kept: u32) -> &[Self::Change]
        ensures { result.now ≡ changed_after kept self.now };
}
