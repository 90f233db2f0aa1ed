//! Literals that the rest of a clause implies are dropped.
//!
//! A literal is redundant where its reason's other literals are all in the clause (local minimization, Sorensson and Biere
//! 2009). It goes from the highest place down. The reason of a literal has its other literals at lower places, so nothing
//! that was dropped before counts for it, and one pass drops all literals that are redundant in the whole clause, and no
//! others. Late reasons aren't asked for here.

ghost use Rattle.std.specs.Prelude.{◌≡◌, ◌≢◌, ℕ, ◌+◌, ◌<◌, ◌≤◌, List, ℤ, length, true, false, slice_index_or, IsTrue, OnOk, IfOk, Contains};
ghost use Rattle.mono_base.specs.Literal.{without};
ghost use Rattle.mono_trail.specs.TrailView.{IsSoundTrail};
ghost use Rattle.mono_steps.specs.Steps.{clauses_after};
ghost use Rattle.mono_learn.specs.Resolvents.{FalseBy, AllFalse, MarkedBy};
ghost use Rattle.mono_learn.specs.Resolving.{IsAtLast, HasMinimized};
ghost use Rattle.mono_trail.specs.Seen.{is_marked};
ghost use Rattle.mono_learn.specs.Minimizing.{AreReasons, IsCovered, IsUncovered, IsUnmarkedBy, IsKeptFor, IsDropped, AreDropped, AreKept, AreLeft};

use crate::analysis::Analysis;
use crate::places;
use crate::places::place_of_false;
use crate::resolvent::is_other;
use mono_base::Lit;
use mono_problem::Problem;
use mono_steps::Journal;
use mono_trail::{Reason, Trail};
use std::alloc::{AllocError, Global};

/// Whether the false literal is in the clause that the marks stand for.
fn is_seen(trail: &Trail, seen: &[bool], lit: Lit) -> bool
    requires sound { IsSoundTrail trail.now }
    requires slots { length trail.now.lits ≤ length seen.now }
    requires is_false { FalseBy trail.now.lits (length trail.now.lits) lit }
    ensures on { IsTrue result → MarkedBy trail.now.lits seen.now (length trail.now.lits) lit }
    ensures off { result ≡ false → IsUnmarkedBy trail.now.lits seen.now lit }
{
    seen[place_of_false(trail, lit) as usize]
}

/// Whether each other literal of the clause is.
fn is_covered(trail: &Trail, seen: &[bool], clause: &[Lit], skip: Lit) -> bool
    requires sound { IsSoundTrail trail.now }
    requires slots { length trail.now.lits ≤ length seen.now }
    requires are_false { AllFalse trail.now.lits (length trail.now.lits) (without clause.now skip) }
    ensures covered { IsTrue result → IsCovered trail.now.lits seen.now (without clause.now skip) }
    ensures uncovered { result ≡ false → IsUncovered trail.now.lits seen.now (without clause.now skip) }
{
    for lit in clause {
        if is_other(*lit, skip) {
            if !is_seen(trail, seen, *lit) {
                return false;
            }
        }
    }
    true
}

impl Analysis {
    /// Drops the literal at a place, where the others of its reason are in the clause, and leaves all others.
    fn try_drop(
        &mut self,
        problem: &Problem,
        trail: &Trail,
        journal: &Journal,
        place: usize,
    ) -> Result<(), AllocError>
        requires sound { IsSoundTrail trail.now }
        requires reasons { AreReasons (clauses_after problem.now journal.now) trail.now }
        requires place { place < length trail.now.lits }
        requires slots { length trail.now.lits ≤ length self.old.resolvent.seen.items }
        ensures slots { length self.new.resolvent.seen.items ≡ length self.old.resolvent.seen.items }
        ensures kept { self.new.resolvent.kept.items ≡ self.old.resolvent.kept.items }
        ensures minimized_to { OnOk result ((start last : ℕ) → place < start
            → HasMinimized (clauses_after problem.now journal.now) trail.now.lits start last
            self.old.resolvent.seen.items self.old.resolvent.kept.items self.old.used.items
            → HasMinimized (clauses_after problem.now journal.now) trail.now.lits start last
            self.new.resolvent.seen.items self.old.resolvent.kept.items self.new.used.items) }
        ensures fewer { (k : ℕ) → is_marked self.new.resolvent.seen.items k ≡ true → is_marked self.old.resolvent.seen.items k ≡ true }
        ensures needed { OnOk result (IsKeptFor (clauses_after problem.now journal.now) trail.now self.new.resolvent.seen.items place) }
        ensures others { (k : ℕ) → k ≢ place → is_marked self.new.resolvent.seen.items k ≡ is_marked self.old.resolvent.seen.items k }
        ensures exact { OnOk result (IsDropped
            (clauses_after problem.now journal.now) trail.now self.old.resolvent.seen.items self.new.resolvent.seen.items place) }
    {
        let Reason::Clause(number) = places::reason(trail, place) else {
            return Ok(());
        };
        if !self.resolvent.seen[place] {
            return Ok(());
        }
        let lit = places::literal(trail, place);
        if !is_covered(
            trail,
            self.resolvent.seen.as_slice(),
            journal.clause(problem, number),
            lit,
        ) {
            return Ok(());
        }
        self.used.push(number)?;
        self.resolvent.seen[place] = false;
        Ok(())
    }

    /// Drops the literals below the present level that are redundant.
    pub(crate) fn minimize(
        &mut self,
        problem: &Problem,
        trail: &Trail,
        journal: &Journal,
    ) -> Result<(), AllocError>
        requires sound { IsSoundTrail trail.now }
        requires reasons { AreReasons (clauses_after problem.now journal.now) trail.now }
        requires slots { length trail.now.lits ≤ length self.old.resolvent.seen.items }
        requires low { (k : ℕ) → Contains self.old.resolvent.kept.items k → k < length trail.now.lits }
        ensures slots { length self.new.resolvent.seen.items ≡ length self.old.resolvent.seen.items }
        ensures minimized_to { OnOk result ((start last : ℕ)
            → IsAtLast (clauses_after problem.now journal.now) trail.now.lits start last self.old.resolvent self.old.used.items
            → HasMinimized (clauses_after problem.now journal.now) trail.now.lits start last
            self.new.resolvent.seen.items self.new.resolvent.kept.items self.new.used.items) }
        ensures needed { OnOk result ((j : ℕ) → j < length self.new.resolvent.kept.items
            → IsKeptFor (clauses_after problem.now journal.now) trail.now self.new.resolvent.seen.items
            (slice_index_or self.new.resolvent.kept.items j 0)) }
        ensures exact { OnOk result (AreDropped
            (clauses_after problem.now journal.now) trail.now self.old.resolvent.seen.items self.new.resolvent.seen.items self.new.resolvent.kept.items 0) }
    {
        self.resolvent.kept.sort_unstable();
        let mut rest = self.resolvent.kept.len();
        while rest > 0 {
            rest -= 1;
            let place = self.resolvent.kept[rest] as usize;
            self.try_drop(problem, trail, journal, place)?;
        }
        Ok(())
    }
}

/// The literals at the kept places that are marked.
pub fn kept_lits(
    alloc: Global,
    trail: &Trail,
    seen: &[bool],
    kept: &[u32],
) -> Result<Vec<Lit>, AllocError>
    requires slots { length trail.now.lits ≤ length seen.now }
    requires low { (k : ℕ) → Contains kept.now k → k < length trail.now.lits }
    ensures { IfOk result (λ lits. (start : ℕ) → ((k : ℕ) → Contains kept.now k → k < start)
        → AreKept trail.now.lits start seen.now kept.now (length kept.now) lits.items) }
{
    let mut lits = Vec::new(alloc);
    for place in kept {
        if seen[*place as usize] {
            lits.push(places::literal(trail, *place as usize).negated())?;
        }
    }
    Ok(lits)
}

/// Takes the marks away.
pub fn unmark(seen: &mut Vec<bool>, kept: &[u32], last: usize)
    requires last { last < length seen.old.items }
    requires low { (k : ℕ) → Contains kept.now k → k < length seen.old.items }
    ensures { AreLeft seen.old.items seen.new.items kept.now last (length kept.now) }
{
    seen[last] = false;
    for place in kept {
        seen[*place as usize] = false;
    }
}
