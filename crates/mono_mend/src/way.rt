//! How two searches that grow towards each other reach nodes.

ghost use Rattle.std.specs.Prelude.{◌<◌, IfSome, length};
ghost use Rattle.mono_graph.specs.Digraph.{Digraph};
ghost use Rattle.mono_mend.specs.Growing.{IsWayIn};

/// How a node was reached. Edges are named by their places.
#[derive(Clone, Copy)]
pub(crate) enum Way {
    /// It wasn't.
    Unreached,
    /// The search from the front began with it.
    First,
    /// The search from behind began with it.
    Last,
    /// This edge of the walk leads to it, from a node before the gap.
    Before(u32),
    /// This edge of the walk leads on from it, to a node behind the gap.
    Behind(u32),
    /// This edge leads to it, from a node that was reached from the front.
    Forward(u32),
    /// This edge leads on from it, to a node that was reached from behind.
    Backward(u32),
}

/// How a node was reached, and at what cost: from the first node, or to the last one.
#[derive(Clone, Copy)]
pub(crate) struct Mark {
    pub way: Way,
    pub cost: u64,
}

impl Way {
    /// That of a node to which a search comes by this edge: the one from the front, or the one from behind.
    pub(crate) fn by(place: u32, onward: bool) -> Way
        ensures { (g : Digraph) → place < length g.edges → IsWayIn g result }
    {
        if onward {
            Way::Forward(place)
        } else {
            Way::Backward(place)
        }
    }

    /// Whether the node was reached.
    pub(crate) fn is_reached(self) -> bool {
        match self {
            Way::Unreached => false,
            _ => true,
        }
    }

    /// The edge by which the node was reached.
    pub(crate) fn place(self) -> Option<u32>
        ensures { (g : Digraph) → IsWayIn g self → IfSome result (λ k. k < length g.edges) }
    {
        match self {
            Way::Unreached => None,
            Way::First => None,
            Way::Last => None,
            Way::Before(place) => Some(place),
            Way::Behind(place) => Some(place),
            Way::Forward(place) => Some(place),
            Way::Backward(place) => Some(place),
        }
    }
}
