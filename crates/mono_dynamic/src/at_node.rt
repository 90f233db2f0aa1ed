//! What is at a node of a graph.

ghost use Rattle.std.specs.Prelude.{◌≡◌};

use crate::arrival::Arrival;
use crate::change::Change;

/// Something that is at a node of a graph, as a change of a row is.
pub trait AtNode: Copy {
    ghost use Rattle.std.specs.Prelude.{ℕ};

    /// The node.
    ghost node: { Self → ℕ };

    /// The node, from 0.
    fn node(&self) -> u32
        ensures { result ≡ node self.now };
}

impl AtNode for Arrival {
    ghost node = { λ a. a.node };

    fn node(&self) -> u32 {
        self.node
    }
}

impl AtNode for Change {
    ghost node = { λ c. c.node };

    fn node(&self) -> u32 {
        self.node
    }
}
