//! Which visit is taken next.
//!
//! Visits are taken as they were made where each edge counts the same (breadth first), and by cost where edges have
//! weights (Dijkstra's method, with std's heap). What is found doesn't depend on the order, only the time does.

ghost use Rattle.std.specs.Prelude.{◌≡◌, ◌<◌, ◌≤◌, ◌-◌, false, IfOk, length, vec_len};
ghost use Rattle.std.specs.BinaryHeap.{heap_items};
ghost use Rattle.mono_paths.specs.Queues.{IsWithin, IsTaken, Adds};

use crate::queue::{Pending, enqueue};
use crate::visit::Visit;
use std::alloc::{AllocError, Global};
use std::collections::BinaryHeap;

/// The visits that wait.
#[derive(Drop)]
pub struct Waiting {
    /// Whether the cheapest visit is taken next, and not the one that was made first.
    pub by_cost: bool,
    /// Where visits are taken as they were made: the first that waits. All later ones do.
    pub next: usize,
    /// Where they are taken by cost: those that wait.
    pub queue: BinaryHeap<Pending>,
}

impl Waiting {
    /// No visit waits.
    pub fn new(alloc: Global) -> Self {
        Waiting {
            by_cost: false,
            next: 0,
            queue: BinaryHeap::new(alloc),
        }
    }

    /// Lets no visit wait, and chooses the order.
    pub fn clear(&mut self, by_cost: bool)
        ensures { IsWithin self.new 0 }
    {
        self.by_cost = by_cost;
        self.next = 0;
        self.queue.clear();
    }

    /// Takes the next of so many visits: `None` exactly where none waits.
    pub fn take(&mut self, visits: usize) -> Option<usize>
        requires { IsWithin self.old visits }
        ensures { IsTaken self.old self.new visits result }
    {
        if self.by_cost {
            match self.queue.pop() {
                Some(pending) => Some(pending.visit),
                None => None,
            }
        } else if self.next < visits {
            let taken = self.next;
            self.next += 1;
            Some(taken)
        } else {
            None
        }
    }

    /// Lets the visits from some place on wait too.
    pub fn add(&mut self, visits: &[Visit], first: usize) -> Result<(), AllocError>
        requires first { first ≤ length visits.now }
        requires within { IsWithin self.old first }
        ensures { IfOk result (λ _. Adds self.old self.new first (length visits.now)) }
    {
        if self.by_cost {
            enqueue(&mut self.queue, visits, first)?;
        }
        Ok(())
    }
}
