//! The analysis of one conflict.

ghost use Rattle.std.specs.Prelude.{◌≡◌, ◌-◌, ◌<◌, ◌≤◌, [], length, OnOk, IfOk};
ghost use Rattle.mono_trail.specs.TrailView.{IsSoundTrail, count_to};
ghost use Rattle.mono_steps.specs.Steps.{clauses_after};
ghost use Rattle.mono_learn.specs.FirstPoint.{HasResolved};
ghost use Rattle.mono_learn.specs.Reasons.{IsFalseClause, IsConflict};
ghost use Rattle.mono_learn.specs.Resolving.{IsFresh, HasCome};

use crate::places;
use crate::resolvent::Resolvent;
use mono_problem::Problem;
use mono_steps::Journal;
use mono_trail::Trail;
use std::alloc::{AllocError, Global};

/// The analysis of one conflict: a chain, and the clause that it has come to.
#[derive(Drop)]
pub(crate) struct Analysis {
    /// Where the present level begins on the trail.
    pub(crate) start: usize,
    /// The clause that the chain has come to.
    pub(crate) resolvent: Resolvent,
    /// The numbers of the chain's clauses, in order.
    pub(crate) used: Vec<u64>,
}

impl Analysis {
    /// The chain has no clause yet.
    pub(crate) fn new(
        alloc: Global,
        trail: &mut Trail,
        start: usize,
    ) -> Result<Analysis, AllocError>
        requires sound { IsSoundTrail trail.old }
        ensures same { trail.new ≡ trail.old }
        ensures start { IfOk result (λ a. a.start ≡ start) }
        ensures fresh { IfOk result (λ a. IsFresh (length trail.old.lits) a.resolvent) }
        ensures unused { IfOk result (λ a. a.used.items ≡ []) }
    {
        let resolvent = Resolvent::new(alloc, trail)?;
        Ok(Analysis {
            start,
            resolvent,
            used: Vec::new(alloc),
        })
    }

    /// The chain begins with a false clause.
    pub(crate) fn begin(
        &mut self,
        problem: &Problem,
        trail: &Trail,
        journal: &Journal,
        conflict: u64,
    ) -> Result<(), AllocError>
        requires sound { IsSoundTrail trail.now }
        requires start { self.old.start < length trail.now.lits }
        requires conflict { IsFalseClause (clauses_after problem.now journal.now) trail.now.lits conflict }
        requires fresh { IsFresh (length trail.now.lits) self.old.resolvent }
        requires unused { self.old.used.items ≡ [] }
        ensures start { self.new.start ≡ self.old.start }
        ensures come { OnOk result (HasCome (clauses_after problem.now journal.now) trail.now.lits self.new.start
            (length trail.now.lits) self.new.resolvent self.new.used.items) }
        ensures some { OnOk result (IsConflict (clauses_after problem.now journal.now) trail.now conflict → 1 ≤ trail.now.level
            → self.new.start ≡ count_to (trail.now.level - 1) trail.now.marks → 1 ≤ self.new.resolvent.count) }
        ensures leads { OnOk result (HasResolved (clauses_after problem.now journal.now) trail.now conflict self.new.used.items) }
    {
        // A true literal, which the false clause doesn't have: nothing is left out.
        let lit = places::literal(trail, self.start);
        self.used.push(conflict)?;
        self.resolvent
            .join_all(trail, self.start, journal.clause(problem, conflict), lit)?;
        Ok(())
    }
}
