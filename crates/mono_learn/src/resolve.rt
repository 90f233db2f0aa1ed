//! Resolution back along a trail.

ghost use Rattle.std.specs.Prelude.{◌≡◌, ◌≢◌, ℕ, ◌+◌, ◌-◌, ◌<◌, ◌≤◌, ◌∷◌, ◌++◌, [], List, ℤ, length, true, OnOk, IfOk};
ghost use Rattle.mono_trail.specs.declared.reason.Reason.TheVariants.{Decided};
ghost use Rattle.mono_trail.specs.TrailView.{IsSoundTrail, count_to};
ghost use Rattle.mono_trail.specs.Places.{reason_at};
ghost use Rattle.mono_trail.specs.Seen.{is_marked};
ghost use Rattle.mono_steps.specs.Steps.{clauses_after};
ghost use Rattle.mono_learn.specs.Reasons.{HasReasons, WasUnit};
ghost use Rattle.mono_learn.specs.Asked.{AsksFor};
ghost use Rattle.mono_learn.specs.FirstPoint.{HasResolved, GoesOnWith};
ghost use Rattle.mono_learn.specs.Resolving.{HasCome, AllImplied, IsAtLast};

use crate::analysis::Analysis;
use crate::ask::reason_of;
use crate::{Explainer, places};
use mono_problem::Problem;
use mono_steps::Journal;
use mono_trail::Trail;
use std::alloc::AllocError;

impl Analysis {
    /// The clause is resolved with the reason of the literal at its last marked place.
    fn resolve(
        &mut self,
        problem: &Problem,
        trail: &Trail,
        journal: &Journal,
        place: usize,
        number: u64,
    ) -> Result<(), AllocError>
        requires sound { IsSoundTrail trail.now }
        requires reason { WasUnit (clauses_after problem.now journal.now) trail.now.lits place number }
        requires place { place < length trail.now.lits }
        requires high { self.old.start ≤ place }
        requires marked { is_marked self.old.resolvent.seen.items place ≡ true }
        requires come { HasCome (clauses_after problem.now journal.now) trail.now.lits self.old.start (place + 1) self.old.resolvent self.old.used.items }
        ensures start { self.new.start ≡ self.old.start }
        ensures come { OnOk result (HasCome (clauses_after problem.now journal.now) trail.now.lits self.new.start place
            self.new.resolvent self.new.used.items) }
        ensures grows { OnOk result (self.old.resolvent.count ≤ self.new.resolvent.count + 1) }
        ensures pushed { OnOk result (self.new.used.items ≡ self.old.used.items ++ number ∷ []) }
    {
        let lit = places::literal(trail, place);
        self.used.push(number)?;
        self.resolvent.seen[place] = false;
        self.resolvent.count -= 1;
        self.resolvent
            .join_all(trail, self.start, journal.clause(problem, number), lit)?;
        Ok(())
    }

    /// The clause is resolved with the reason of the literal at its last marked place, which may be late.
    pub(crate) fn resolve_next<E: Explainer>(
        &mut self,
        problem: &Problem,
        trail: &mut Trail,
        journal: &mut Journal,
        by: &mut E,
        place: usize,
    ) -> Result<(), AllocError>
        requires sound { IsSoundTrail trail.old }
        requires problem { E.problem by.old ≡ problem.now }
        requires reasons { HasReasons problem.now (clauses_after problem.now journal.old) (E.shown by.old) trail.old }
        requires place { place < length trail.old.lits }
        requires high { self.old.start ≤ place }
        requires implied { reason_at trail.old.marks place ≢ Decided }
        requires marked { is_marked self.old.resolvent.seen.items place ≡ true }
        requires come { HasCome (clauses_after problem.now journal.old) trail.old.lits self.old.start (place + 1) self.old.resolvent self.old.used.items }
        ensures start { self.new.start ≡ self.old.start }
        ensures by { by.new ≡ by.old }
        ensures asks { AsksFor problem.now trail.old journal.old trail.new journal.new }
        ensures sound { IsSoundTrail trail.new }
        ensures reasons { HasReasons problem.now (clauses_after problem.now journal.new) (E.shown by.old) trail.new }
        ensures come { OnOk result (HasCome (clauses_after problem.now journal.new) trail.new.lits self.new.start place
            self.new.resolvent self.new.used.items) }
        ensures grows { OnOk result (self.old.resolvent.count ≤ self.new.resolvent.count + 1) }
        ensures goes_on { OnOk result (GoesOnWith (clauses_after problem.now journal.new) trail.new place self.old.used.items self.new.used.items) }
    {
        let number = reason_of(problem, trail, journal, by, place)?;
        self.resolve(problem, trail, journal, place, number)
    }

    /// Resolves until one literal of the present level is left, and gives its place.
    pub(crate) fn resolve_until_one<E: Explainer>(
        &mut self,
        problem: &Problem,
        trail: &mut Trail,
        journal: &mut Journal,
        by: &mut E,
    ) -> Result<usize, AllocError>
        requires sound { IsSoundTrail trail.old }
        requires problem { E.problem by.old ≡ problem.now }
        requires reasons { HasReasons problem.now (clauses_after problem.now journal.old) (E.shown by.old) trail.old }
        requires level { 1 ≤ trail.old.level }
        requires start { self.old.start ≡ count_to (trail.old.level - 1) trail.old.marks }
        requires implied { AllImplied trail.old self.old.start }
        requires some { 1 ≤ self.old.resolvent.count }
        requires come { HasCome (clauses_after problem.now journal.old) trail.old.lits self.old.start
            (length trail.old.lits) self.old.resolvent self.old.used.items }
        ensures start { self.new.start ≡ self.old.start }
        ensures by { by.new ≡ by.old }
        ensures asks { AsksFor problem.now trail.old journal.old trail.new journal.new }
        ensures sound { IsSoundTrail trail.new }
        ensures reasons { HasReasons problem.now (clauses_after problem.now journal.new) (E.shown by.old) trail.new }
        ensures last { IfOk result (λ place. IsAtLast
            (clauses_after problem.now journal.new) trail.new.lits self.new.start place self.new.resolvent self.new.used.items) }
        ensures leads { OnOk result ((conflict : ℕ) → HasResolved (clauses_after problem.now journal.old) trail.old conflict self.old.used.items
            → HasResolved (clauses_after problem.now journal.new) trail.new conflict self.new.used.items) }
    {
        let mut place = trail.lits().len();
        loop {
            place -= 1;
            if self.resolvent.seen[place] {
                if self.resolvent.count == 1 {
                    return Ok(place);
                }
                self.resolve_next(problem, trail, journal, by, place)?;
            }
        }
    }

    /// Resolves until no literal is left, at level 0.
    pub(crate) fn resolve_all<E: Explainer>(
        &mut self,
        problem: &Problem,
        trail: &mut Trail,
        journal: &mut Journal,
        by: &mut E,
    ) -> Result<(), AllocError>
        requires sound { IsSoundTrail trail.old }
        requires level { trail.old.level ≡ 0 }
        requires start { self.old.start ≡ 0 }
        requires problem { E.problem by.old ≡ problem.now }
        requires reasons { HasReasons problem.now (clauses_after problem.now journal.old) (E.shown by.old) trail.old }
        requires come { HasCome (clauses_after problem.now journal.old) trail.old.lits self.old.start
            (length trail.old.lits) self.old.resolvent self.old.used.items }
        ensures start { self.new.start ≡ self.old.start }
        ensures by { by.new ≡ by.old }
        ensures asks { AsksFor problem.now trail.old journal.old trail.new journal.new }
        ensures sound { IsSoundTrail trail.new }
        ensures reasons { HasReasons problem.now (clauses_after problem.now journal.new) (E.shown by.old) trail.new }
        ensures come { OnOk result (HasCome (clauses_after problem.now journal.new) trail.new.lits self.new.start 0 self.new.resolvent self.new.used.items) }
    {
        let mut place = trail.lits().len();
        while place > 0 {
            place -= 1;
            if self.resolvent.seen[place] {
                self.resolve_next(problem, trail, journal, by, place)?;
            }
        }
        Ok(())
    }
}
