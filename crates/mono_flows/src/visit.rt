//! Visits of a search.

ghost use Rattle.std.specs.Prelude.{◌≡◌};
ghost use Rattle.mono_flows.specs.Visits.{first_visit};

use crate::network::ResidualEdge;

/// A node that a search reached.
///
/// `edge` is the residual edge by which it was reached, from the node of the visit `before`, a place in the list of
/// visits. `residual` is how much more can be carried from the source to this node. The first visit is at the source,
/// and its `edge` and `before` say nothing.
#[derive(Clone, Copy)]
pub(crate) struct Visit {
    pub node: u32,
    pub edge: ResidualEdge,
    pub before: usize,
    pub residual: u64,
}

impl Visit {
    /// The first visit of a search from the node.
    pub fn first(node: u32, residual: u64) -> Self
        ensures { result ≡ first_visit node residual }
    {
        let edge = ResidualEdge {
            place: 0,
            back: false,
        };
        Visit {
            node,
            edge,
            before: 0,
            residual,
        }
    }
}
