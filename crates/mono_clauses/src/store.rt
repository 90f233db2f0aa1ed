//! The clause store.

ghost use Rattle.std.specs.Prelude.{◌≡◌, ◌≤◌, ◌<◌, ◌+◌, length, All, IfOk, OnOk, OnErr};
ghost use Rattle.mono_base.specs.declared.limits.TheConstants.{MAX_VARS};
ghost use Rattle.mono_base.specs.Literal.{IsLitWithin};

use crate::clauses::Clauses;
use crate::due::{try_watch, visit_due};
use crate::found::Found;
use crate::propagate::follow;
use crate::watches::Watches;
use mono_base::Lit;
use mono_trail::Trail;
use std::alloc::{AllocError, Global};
use std::marker::Model;

/// Clauses with their numbers, for unit propagation.
///
/// Contracts see the number of variables, the clauses in the order in which they were added, and which literals are
/// watched: what else the store must know about a trail is the relation `Follows`.
pub struct ClauseStore {
    clauses: Clauses,
    watches: Watches,
    /// The places of the clauses that are looked at by the next propagation.
    due: Vec<usize>,
}

impl Drop for ClauseStore {
    fn drop(self) {
        let ClauseStore {
            clauses: _,
            watches: _,
            due: _,
        } = self;
    }
}

impl Model for ClauseStore {
    ghost use Rattle.mono_clauses.specs.Store.{StoreView};
    ghost use Rattle.mono_clauses.specs.Visits.{IsStore};

    ghost Value = { StoreView };

    ghost view = { λ s. record { vars = s.clauses.vars; clauses = s.clauses.list; watched = s.watches.watched } };

    ghost invariant = { λ s. IsStore s.clauses s.watches s.due.items };
}

impl ClauseStore {
    ghost use Rattle.mono_clauses.specs.Store.{no_clauses, AddsClause, Follows};
    ghost use Rattle.mono_clauses.specs.Propagation.{Grows, FoundIs};

    /// The store of clauses over the variables from 1 to `vars` that holds none. There are at most 1,000,000 variables.
    pub fn new(alloc: Global, vars: u32) -> Result<ClauseStore, AllocError>
        requires { vars ≤ MAX_VARS }
        ensures { IfOk result (λ s. s ≡ no_clauses vars) }
    {
        let watches = Watches::new(alloc, vars)?;
        Ok(ClauseStore {
            clauses: Clauses::new(alloc, vars),
            watches,
            due: Vec::new(alloc),
        })
    }

    /// How many clauses are held.
    pub fn len(&self) -> usize
        ensures { result ≡ length self.now.clauses }
    {
        self.clauses.len()
    }

    /// The clause of these literals, read as a set, joins under a number greater than those held. The trail may be at any
    /// level, and the clause may be unit or false there, or empty: the next propagation looks at it.
    ///
    /// On want of memory the store is as it was.
    pub fn add(&mut self, number: u64, lits: &[Lit], trail: &Trail) -> Result<(), AllocError>
        requires within { All (IsLitWithin self.old.vars) lits.now }
        requires rising { All (λ c. c.number < number) self.old.clauses }
        requires follows { Follows self.old trail.now }
        ensures ok { OnOk result (AddsClause self.old self.new number lits.now) }
        ensures err { OnErr result (self.new ≡ self.old) }
        ensures follows { Follows self.new trail.now }
    {
        self.due.reserve(1)?;
        let place = self.clauses.len();
        self.clauses.add(number, lits)?;
        if let Err(error) = self.watches.grow() {
            self.clauses.undo();
            return Err(error);
        }
        if try_watch(&self.clauses, &mut self.watches, trail, place) {
            return Ok(());
        }
        self.due.push_reserved(place);
        Ok(())
    }

    /// Implies the open literals of unit clauses, each with the number of its clause as the reason, until each clause has
    /// a true literal or at least two different open ones, or a clause is false.
    ///
    /// The trail grows by these literals alone, and gives its literals. Where no clause is false it has given them all.
    /// The call takes no memory.
    pub fn propagate(&mut self, trail: &mut Trail) -> Found
        requires { Follows self.old trail.old }
        ensures vars { self.new.vars ≡ self.old.vars }
        ensures clauses { self.new.clauses ≡ self.old.clauses }
        ensures grows { Grows self.old.clauses trail.old trail.new }
        ensures found { FoundIs self.new trail.new result }
    {
        if let Some(number) = visit_due(&self.clauses, &mut self.watches, trail, &mut self.due) {
            return Found::False(number);
        }
        if let Some(number) = follow(&mut self.clauses, &mut self.watches, trail) {
            return Found::False(number);
        }
        trail.known();
        Found::Quiet
    }
}
