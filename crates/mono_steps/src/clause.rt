//! Clauses that a program holds one by one.

ghost use Rattle.std.specs.Prelude.{◌≡◌, ◌≤◌, length, IfOk, IsOk};

use mono_base::Lit;
use smallvec::SmallVec;
use std::alloc::{AllocError, Global};
use std::marker::Model;

/// So many literals stand in a clause itself, with no allocation.
const INLINE: usize = 4;

/// A list of literals, read as a set (DIMACS CNF). Contracts see the list.
pub struct Clause {
    items: SmallVec<Lit, INLINE>,
}

impl Drop for Clause {
    fn drop(self) {
        let Clause { items: _ } = self;
    }
}

impl Model for Clause {
    ghost use Rattle.std.specs.Prelude.{List, ℤ};

    ghost Value = { List ℤ };

    ghost view = { λ c. c.items.items };
}

impl Clause {
    /// The clause of these literals. It takes memory only for more than four.
    pub fn from_lits(alloc: Global, lits: &[Lit]) -> Result<Clause, AllocError>
        ensures value { IfOk result (λ clause. clause ≡ lits.now) }
        ensures succeeds { length lits.now ≤ 4 → IsOk result }
    {
        Ok(Clause {
            items: SmallVec::from_slice(alloc, lits)?,
        })
    }

    /// The literals, in the order in which they were given.
    pub fn lits(&self) -> &[Lit]
        ensures { result.now ≡ self.now }
    {
        self.items.as_slice()
    }

    /// Another clause of the same literals, from the same allocator. It takes memory only for more than four.
    pub fn copy(&self) -> Result<Clause, AllocError>
        ensures value { IfOk result (λ clause. clause ≡ self.now) }
        ensures succeeds { length self.now ≤ 4 → IsOk result }
    {
        Clause::from_lits(self.allocator(), self.lits())
    }

    /// What the clause takes its memory from.
    pub(crate) fn allocator(&self) -> Global {
        *self.items.allocator()
    }
}
