//! Nodes from which a search may go on, and which of them is next.

ghost use Rattle.std.specs.Prelude.{◌<◌, ℕ, IfSome};
ghost use Rattle.mono_mend.specs.Guiding.{AreWithin};

use std::alloc::{AllocError, Global};
use std::collections::BinaryHeap;

/// A node from which a search may go on: the greatest of a heap is the one from which it does.
#[derive(Clone, Copy, PartialEq, Eq, PartialOrd, Ord)]
pub(crate) struct Open {
    /// The greatest number less what a walk through the node seems to cost.
    pub promise: u64,
    /// What the walk to the node costs. Of two nodes the one farther on comes first.
    pub cost: u64,
    /// The node, from 0.
    pub node: u32,
}

/// The nodes from which a search may go on.
#[derive(Drop)]
pub(crate) struct Frontier {
    pub waiting: BinaryHeap<Open>,
}

impl Frontier {
    /// None.
    pub(crate) fn new(alloc: Global) -> Self
        ensures { (n : ℕ) → AreWithin n result }
    {
        Frontier {
            waiting: BinaryHeap::new(alloc),
        }
    }

    /// Takes all of them away.
    pub(crate) fn clear(&mut self)
        ensures { (n : ℕ) → AreWithin n self.new }
    {
        self.waiting.clear();
    }

    /// A search may go on from a node to which a walk costs so much, and a whole walk through it seems to cost so much.
    pub(crate) fn push(&mut self, node: u32, cost: u64, whole: u64) -> Result<(), AllocError>
        ensures { (n : ℕ) → node < n → AreWithin n self.old → AreWithin n self.new }
    {
        let promise = u64::MAX - whole;
        self.waiting.push(Open {
            promise,
            cost,
            node,
        })?;
        Ok(())
    }

    /// The node from which the search goes on: that by which a whole walk seems to cost least.
    pub(crate) fn pop(&mut self) -> Option<Open>
        ensures node { (n : ℕ) → AreWithin n self.old → IfSome result (λ next. next.node < n) }
        ensures others { (n : ℕ) → AreWithin n self.old → AreWithin n self.new }
    {
        let Some(next) = self.waiting.pop() else {
            return None;
        };
        Some(next)
    }
}
