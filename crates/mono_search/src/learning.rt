//! What a conflict leads to: the end, or one clause more.

ghost use Rattle.std.specs.Prelude.{◌≡◌, ◌≤◌, ◌+◌, max, length, All, IfOk, IfNone, OnOk, OnErr, IsTrue, if◌then◌else◌};
ghost use Rattle.mono_base.specs.Literal.{IsLitWithin};
ghost use Rattle.mono_steps.specs.Steps.{are_justified, clauses_after, is_refutation};
ghost use Rattle.mono_steps.specs.Journals.{chain_count};
ghost use Rattle.mono_search.specs.State.{IsJournal, IsConsistent, IsReady, IsInConflict};
ghost use Rattle.mono_search.specs.Outcomes.{HasMoreSteps, may_go_on};
ghost use Rattle.mono_search.specs.Restarts.{KeepsCount};
ghost use Rattle.mono_search.specs.Runs.{ResolvedAs, GoesBack, TurnsSigns, CountsAndGoesBack};

use crate::backjumping::backjump;
use crate::restarts::Restarts;
use crate::search::Outcome;
use crate::state::State;
use mono_base::Lit;
use mono_learn::{analyse, refute};
use mono_problem::Problem;
use mono_steps::{Journal, Step};
use mono_theory::Theory;
use mono_trail::Order;
use std::alloc::{AllocError, Global};

impl<'p, T: Theory> State<'p, T> {
    /// A conflict at level 0 is the end. Above, a clause is learned, or the budget is spent.
    pub(crate) fn resolve(
        &mut self,
        alloc: Global,
        restarts: &mut Restarts,
        budget: u64,
        conflict: u64,
    ) -> Result<Option<Outcome>, AllocError>
        requires { IsInConflict self.old conflict }
        ensures problem { self.new.theories.problem ≡ self.old.theories.problem }
        ensures journal { IsJournal self.new.theories.problem self.new.steps }
        ensures keeps { HasMoreSteps self.old.steps self.new.steps }
        ensures ends { IfOk result (ResolvedAs budget self.old self.new) }
        ensures err { OnErr result (chain_count self.new.steps ≤ max budget (chain_count self.old.steps)) }
        ensures back { IfOk result (λ end. IfNone end (CountsAndGoesBack restarts.old restarts.new self.old self.new)) }
        ensures counted { IfOk result (λ end. IsTrue (may_go_on end)
            → KeepsCount (chain_count self.old.steps) (chain_count self.new.steps) restarts.old restarts.new) }
    {
        if self.trail.level() == 0 {
            self.refute(alloc, conflict)?;
            return Ok(Some(Outcome::Unsat));
        }
        if self.learned() >= budget {
            self.restart();
            return Ok(Some(Outcome::Unknown));
        }
        let anew = restarts.count_clause();
        self.learn(alloc, conflict, anew)?;
        self.turn(anew, restarts.term());
        Ok(None)
    }

    /// Where the search begins anew, the signs for the stretch up to the next restart are saved. All else stays.
    fn turn(&mut self, anew: bool, term: u64)
        requires { IsReady self.old }
        ensures problem { self.new.theories.problem ≡ self.old.theories.problem }
        ensures steps { self.new.steps ≡ self.old.steps }
        ensures trail { self.new.trail ≡ self.old.trail }
        ensures ready { IsReady self.new }
        ensures turned { TurnsSigns anew self.old self.new }
    {
        self.memory.turn(&mut self.order, &self.trail, anew, term);
    }

    /// How many clauses were learned.
    fn learned(&self) -> u64
        requires { IsConsistent self.now }
        ensures { result ≡ chain_count self.now.steps }
    {
        let joined = self.store.len() as u64 - u64::from(self.theories.problem().clause_count());
        joined - self.theories.given() as u64
    }

    /// The clause that a conflict above level 0 teaches joins, and the search goes back to where it is unit, or to the
    /// beginning where a restart comes.
    fn learn(&mut self, alloc: Global, conflict: u64, restarts: bool) -> Result<(), AllocError>
        requires conflict { IsInConflict self.old conflict }
        requires level { 1 ≤ self.old.trail.level }
        ensures problem { self.new.theories.problem ≡ self.old.theories.problem }
        ensures journal { IsJournal self.new.theories.problem self.new.steps }
        ensures keeps { HasMoreSteps self.old.steps self.new.steps }
        ensures ready { OnOk result (IsReady self.new) }
        ensures chains { OnOk result (chain_count self.new.steps ≡ chain_count self.old.steps + 1) }
        ensures within { chain_count self.new.steps ≤ chain_count self.old.steps + 1 }
        ensures back { OnOk result (GoesBack self.old self.new restarts) }
    {
        self.memory.remember(&self.trail);
        let problem = self.theories.problem();
        let learnt = analyse(
            alloc,
            problem,
            &mut self.trail,
            &mut self.journal,
            &mut self.theories,
            conflict,
        )?;
        self.trail.known();
        bump_resolved(&mut self.order, problem, &self.journal);
        let level = level_after(restarts, learnt.back_to);
        backjump(&mut self.theories, &mut self.trail, &mut self.order, level);
        self.store
            .add(learnt.number, learnt.clause.lits(), &self.trail)
    }

    /// The empty clause follows from a conflict at level 0.
    fn refute(&mut self, alloc: Global, conflict: u64) -> Result<(), AllocError>
        requires conflict { IsInConflict self.old conflict }
        requires level { self.old.trail.level ≡ 0 }
        ensures problem { self.new.theories.problem ≡ self.old.theories.problem }
        ensures journal { IsJournal self.new.theories.problem self.new.steps }
        ensures keeps { HasMoreSteps self.old.steps self.new.steps }
        ensures refuted { OnOk result (IsTrue (is_refutation self.new.theories.problem self.new.steps)) }
        ensures chains { OnOk result (chain_count self.new.steps ≡ chain_count self.old.steps + 1) }
        ensures err { OnErr result (chain_count self.new.steps ≡ chain_count self.old.steps) }
    {
        let problem = self.theories.problem();
        refute(
            alloc,
            problem,
            &mut self.trail,
            &mut self.journal,
            &mut self.theories,
            conflict,
        )?;
        Ok(())
    }
}

/// The variables of the clauses that the last chain resolved come earlier, by a bump for each place where they stand
/// (Goldberg and Novikov's BerkMin), and earlier bumps count for less.
fn bump_resolved(order: &mut Order, problem: &Problem, journal: &Journal)
    requires vars { length order.old.waits ≡ problem.now.vars }
    requires justified { IsTrue (are_justified problem.now journal.now) }
    ensures { order.new ≡ order.old }
{
    problem.known();
    if let Some(Step::Chain(chain)) = journal.steps().last() {
        bump_clauses(order, problem, journal, chain.used.as_slice());
    }
    order.decay();
}

/// The variables of the clauses of these numbers come earlier.
fn bump_clauses(order: &mut Order, problem: &Problem, journal: &Journal, numbers: &[u64])
    requires within { All (All (IsLitWithin (length order.old.waits))) (clauses_after problem.now journal.now) }
    requires held { All (λ n. (1 ≤ n) × (n ≤ length (clauses_after problem.now journal.now))) numbers.now }
    ensures { order.new ≡ order.old }
{
    for number in numbers {
        bump(order, journal.clause(problem, *number));
    }
}

/// The variables of the literals come earlier.
fn bump(order: &mut Order, lits: &[Lit])
    requires { All (IsLitWithin (length order.old.waits)) lits.now }
    ensures { order.new ≡ order.old }
{
    for lit in lits {
        order.bump(lit.var());
    }
}

/// The level to go back to: the lowest where a restart comes.
fn level_after(restarts: bool, back_to: u32) -> u32
    ensures level { result ≡ (if restarts then 0 else back_to) }
    ensures within { result ≤ back_to }
{
    if restarts { 0 } else { back_to }
}
