//! When the search begins anew: restart r comes when 100 times the r-th term of Luby's sequence clauses were learned since
//! the restart before (Luby, Sinclair and Zuckerman, 1993).

ghost use Rattle.std.specs.Prelude.{◌≡◌};
ghost use Rattle.mono_search.specs.Restarts.{Counts};

use mono_trail::luby;
use std::marker::Model;

/// So many clauses are learned before the first restart.
const UNIT: u64 = 100;

/// Counts learned clauses, and restarts.
#[derive(Drop)]
pub struct Restarts {
    /// How many clauses were learned since the last restart.
    learned: u64,
    /// How many restarts there were.
    count: u64,
}

impl Model for Restarts {
    ghost use Rattle.mono_search.specs.Restarts.{Counted};

    ghost Value = { Counted };

    ghost view = { λ r. record { learned = r.learned; restarts = r.count } };
}

impl Restarts {
    /// No clause was learned.
    pub fn new() -> Restarts
        ensures { result ≡ record { learned = 0; restarts = 0 } }
    {
        Restarts {
            learned: 0,
            count: 0,
        }
    }

    /// One more clause is learned. The answer is whether a restart comes with it.
    ///
    /// The contract says so while both counts stay below 2^64 - 2: at the end of their range they stand still.
    pub fn count_clause(&mut self) -> bool
        ensures { Counts self.old self.new result }
    {
        self.learned = self.learned.saturating_add(1);
        let next = self.count.saturating_add(1);
        if self.learned < luby(next).saturating_mul(UNIT) {
            return false;
        }
        self.learned = 0;
        self.count = next;
        true
    }

    /// Luby's term for the clauses that are learned up to the next restart.
    pub(crate) fn term(&self) -> u64 {
        luby(self.count.saturating_add(1))
    }
}
