//! What conflicts teach.

ghost use Rattle.std.specs.Prelude.{◌≡◌, ℕ, ◌+◌, ◌-◌, ◌<◌, ◌≤◌, ◌∷◌, [], List, ℤ, length, OnOk, OnErr, IfOk, IsTrue};
ghost use Rattle.mono_trail.specs.TrailView.{IsSoundTrail, count_to};
ghost use Rattle.mono_steps.specs.Steps.{clauses_after, are_justified};
ghost use Rattle.mono_steps.specs.Journals.{AddsLemmas};
ghost use Rattle.mono_learn.specs.Reasons.{HasReasons, IsFalseClause, IsConflict};
ghost use Rattle.mono_learn.specs.Settled.{Settles, AreAskedFor};
ghost use Rattle.mono_learn.specs.Learned.{Learns, IsLearnt, IsMinimal};
ghost use Rattle.mono_learn.specs.FirstPoint.{HasResolved, IsTaught};
ghost use Rattle.mono_learn.specs.Asked.{AsksFor, AddsChains, PushesChain, IsDerived};
ghost use Rattle.mono_learn.specs.Resolving.{IsFresh, HasCome, IsAtLast};
ghost use Rattle.mono_learn.specs.Minimizing.{AreReasons};

use crate::analysis::Analysis;
use crate::levels::highest;
use crate::minimize::{kept_lits, unmark};
use crate::pushing::push_end;
use crate::resolvent::Resolvent;
use crate::{Explainer, places};
use mono_base::Lit;
use mono_problem::Problem;
use mono_steps::{Clause, Journal};
use mono_trail::Trail;
use std::alloc::{AllocError, Global};

/// What a conflict taught.
#[derive(Drop)]
pub struct Learnt {
    /// The learned clause. It is false now, and one of its literals is of the present level.
    pub clause: Clause,
    /// The greatest level of its other literals, or 0. After going back there the clause is unit.
    pub back_to: u32,
    /// Its number in the journal.
    pub number: u64,
}

/// A clause, the chain that it is the end of, and the level to go back to.
#[derive(Drop)]
struct Derived {
    lits: Vec<Lit>,
    used: Vec<u64>,
    back_to: u32,
}

impl Analysis {
    /// The clause at the first unique implication point, without its redundant literals.
    fn finish(
        mut self,
        alloc: Global,
        problem: &Problem,
        trail: &mut Trail,
        journal: &Journal,
        last: usize,
    ) -> Result<Derived, AllocError>
        requires sound { IsSoundTrail trail.old }
        requires level { 1 ≤ trail.old.level }
        requires reasons { AreReasons (clauses_after problem.now journal.now) trail.old }
        requires last { IsAtLast (clauses_after problem.now journal.now) trail.old.lits
            (count_to (trail.old.level - 1) trail.old.marks) last self.resolvent self.used.items }
        ensures same { trail.new ≡ trail.old }
        ensures derived { IfOk result (λ d. IsDerived (clauses_after problem.now journal.now) trail.old d.lits.items d.used.items d.back_to) }
        ensures taught { IfOk result (λ d. (conflict : ℕ) → HasResolved (clauses_after problem.now journal.now) trail.old conflict self.used.items
            → IsTaught (clauses_after problem.now journal.now) trail.old conflict d.lits.items) }
    {
        self.minimize(problem, trail, journal)?;
        let Analysis {
            resolvent,
            used,
            ..
        } = self;
        let Resolvent { mut seen, kept, .. } = resolvent;
        let mut lits = kept_lits(alloc, trail, seen.as_slice(), kept.as_slice())?;
        let back_to = highest(trail, lits.as_slice());
        lits.push(places::literal(trail, last).negated())?;
        unmark(&mut seen, kept.as_slice(), last);
        trail.give_back(seen);
        Ok(Derived {
            lits,
            used,
            back_to,
        })
    }
}

/// The clause that a conflict teaches.
fn derive<E: Explainer>(
    alloc: Global,
    problem: &Problem,
    trail: &mut Trail,
    journal: &mut Journal,
    by: &mut E,
    conflict: u64,
) -> Result<Derived, AllocError>
    requires sound { IsSoundTrail trail.old }
    requires level { 1 ≤ trail.old.level }
    requires problem { E.problem by.old ≡ problem.now }
    requires reasons { HasReasons problem.now (clauses_after problem.now journal.old) (E.shown by.old) trail.old }
    requires conflict { IsConflict (clauses_after problem.now journal.old) trail.old conflict }
    ensures by { by.new ≡ by.old }
    ensures asks { AsksFor problem.now trail.old journal.old trail.new journal.new }
    ensures sound { IsSoundTrail trail.new }
    ensures reasons { HasReasons problem.now (clauses_after problem.now journal.new) (E.shown by.old) trail.new }
    ensures derived { IfOk result (λ d. IsDerived (clauses_after problem.now journal.new) trail.new d.lits.items d.used.items d.back_to) }
    ensures taught { IfOk result (λ d. IsTaught (clauses_after problem.now journal.new) trail.new conflict d.lits.items) }
{
    let start = trail.count_to(trail.level() - 1);
    let mut analysis = Analysis::new(alloc, trail, start)?;
    analysis.begin(problem, trail, journal, conflict)?;
    let last = analysis.resolve_until_one(problem, trail, journal, by)?;
    analysis.finish(alloc, problem, trail, journal, last)
}

/// The chain joins the journal.
fn push(
    alloc: Global,
    problem: &Problem,
    trail: &Trail,
    journal: &mut Journal,
    derived: Derived,
) -> Result<Learnt, AllocError>
    requires sound { IsSoundTrail trail.now }
    requires vars { trail.now.vars ≡ problem.now.vars }
    requires derived { IsDerived (clauses_after problem.now journal.old) trail.now derived.lits.items derived.used.items derived.back_to }
    ensures same { IfOk result (λ r. r.clause ≡ derived.lits.items) }
    ensures pushes { IfOk result (λ r. PushesChain problem.now journal.old journal.new r.clause r.number) }
    ensures learnt { IfOk result (λ r. IsLearnt trail.now r.clause r.back_to) }
    ensures minimal { IfOk result (λ r. IsMinimal (clauses_after problem.now journal.old) trail.now r.clause) }
    ensures keeps { IsTrue (are_justified problem.now journal.old) → IsTrue (are_justified problem.now journal.new) }
    ensures grows { AddsChains journal.old journal.new }
    ensures err { OnErr result (journal.new ≡ journal.old) }
{
    let Derived {
        lits,
        used,
        back_to,
    } = derived;
    let clause = Clause::from_lits(alloc, lits.as_slice())?;
    let copy = clause.copy()?;
    let number = push_end(problem, journal, copy, used)?;
    Ok(Learnt {
        clause,
        back_to,
        number,
    })
}

/// The clause that a conflict above level 0 teaches, with its chain in the journal.
///
/// The clause of number `conflict` is resolved with the reasons of its literals, the last one on the trail first, until
/// one literal of the present level is left (the first unique implication point, Een and Sorensson's MiniSat), and then
/// with each reason that takes a literal of a lower level away and brings none (local minimization, Sorensson and Biere
/// 2009). So the clause is that of the first unique implication point without its redundant literals, and nothing else.
///
/// Lemmas that are asked for join the journal first, and their literals' reasons are settled. After want of memory the
/// journal's steps are justified, and the trail differs in settled reasons alone.
pub fn analyse<E: Explainer>(
    alloc: Global,
    problem: &Problem,
    trail: &mut Trail,
    journal: &mut Journal,
    by: &mut E,
    conflict: u64,
) -> Result<Learnt, AllocError>
    requires vars { trail.old.vars ≡ problem.now.vars }
    requires problem { E.problem by.old ≡ problem.now }
    requires level { 1 ≤ trail.old.level }
    requires reasons { HasReasons problem.now (clauses_after problem.now journal.old) (E.shown by.old) trail.old }
    requires conflict { IsConflict (clauses_after problem.now journal.old) trail.old conflict }
    ensures learns { IfOk result (Learns problem.now trail.old journal.old journal.new) }
    ensures minimal { IfOk result (λ r. IsMinimal (clauses_after problem.now journal.new) trail.new r.clause) }
    ensures taught { IfOk result (λ r. IsTaught (clauses_after problem.now journal.new) trail.new conflict r.clause) }
    ensures err { OnErr result (AddsLemmas journal.old journal.new) }
    ensures keeps { IsTrue (are_justified problem.now journal.old) → IsTrue (are_justified problem.now journal.new) }
    ensures settles { Settles (clauses_after problem.now journal.new) trail.old trail.new }
    ensures asked { AreAskedFor problem.now trail.old trail.new journal.old journal.new }
    ensures reasons { HasReasons problem.now (clauses_after problem.now journal.new) (E.shown by.old) trail.new }
    ensures by { by.new ≡ by.old }
{
    trail.known();
    let derived = derive(alloc, problem, trail, journal, by, conflict)?;
    push(alloc, problem, trail, journal, derived)
}
