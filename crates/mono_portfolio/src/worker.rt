//! A worker: what it took, and what it made.
//!
//! Whether a number was taken, and whether there is room for one more clause, is told without a look at what was taken
//! before.

ghost use Rattle.std.specs.Prelude.{◌≡◌, ◌≤◌, ◌==◌, nat_lt, ◌||◌, false, [], ◌∷◌, ◌++◌, ℕ, List, IfOk, OnOk, OnErr, IsTrue};
ghost use Rattle.std.specs.List.{list_any};
ghost use Rattle.mono_problem.specs.Instance.{Instance, literals_total};
ghost use Rattle.mono_steps.specs.declared.step.Step.{Step};
ghost use Rattle.mono_theory.specs.Owners.{facts_of};
ghost use Rattle.mono_portfolio.specs.Extended.{extended as extended_by, has_chain, passes_limits};
ghost use Rattle.mono_search.specs.Solving.{MakesTheories};
ghost use Rattle.mono_portfolio.specs.Searched.{Tells};
ghost use Rattle.mono_portfolio.specs.Workers.{IsKeptWorker, SearchesOver, shown};

use crate::event::Reply;
use crate::extending::clause_of;
use crate::searching::search_over;
use indexmap::IndexSet;
use mono_base::limits::{MAX_CLAUSES, MAX_LITERALS};
use mono_problem::Problem;
use mono_steps::Step;
use mono_theory::Theory;
use std::alloc::{AllocError, Global};
use std::marker::Model;

/// The numbers of the steps that it took, in order; the steps that it made over the problem that these extend; and how many
/// literals that problem has.
#[derive(Drop)]
pub(crate) struct Worker {
    taken: IndexSet<u64>,
    made: Vec<Step>,
    literals: u64,
}

impl Model for Worker {
    ghost use Rattle.mono_portfolio.specs.Workers.{WorkerState};

    ghost Value = { WorkerState };

    ghost view = { λ w. record { taken = w.taken.keys; made = w.made.items; literals = w.literals } };
}

impl Worker {
    /// It took nothing and made nothing.
    pub(crate) fn new(alloc: Global, problem: &Problem) -> Worker
        ensures { result ≡ record { taken = []; made = []; literals = literals_total problem.now } }
    {
        Worker {
            taken: IndexSet::new(alloc),
            made: Vec::new(alloc),
            literals: u64::from(problem.literal_count()),
        }
    }

    /// The numbers of the steps that it took.
    pub(crate) fn taken(&self) -> &[u64]
        ensures { result.now ≡ self.now.taken }
    {
        self.taken.as_slice()
    }

    /// The steps that it made.
    pub(crate) fn made(&self) -> &[Step]
        ensures { result.now ≡ self.now.made }
    {
        self.made.as_slice()
    }

    /// Drops what it made.
    pub(crate) fn clear_made(&mut self)
        ensures { self.new ≡ record self.old { made = [] } }
    {
        self.made.clear();
    }

    /// Whether it took the step.
    pub(crate) fn has_taken(&self, step: u64) -> bool
        ensures { result ≡ list_any (λ n. step == n) self.now.taken }
    {
        self.taken.contains(&step)
    }

    /// Whether its problem would pass the limits of an input with the clause of one more chain.
    pub(crate) fn is_full(&self, problem: &Problem, board: &[Step], step: u64) -> bool
        requires kept { IsKeptWorker problem.now board.now self.now }
        requires held { IsTrue (has_chain problem.now board.now step) }
        ensures { result ≡ passes_limits (extended_by problem.now board.now (self.now.taken ++ step ∷ [])) }
    {
        let clauses = u64::from(problem.clause_count()) + self.taken.len() as u64 + 1;
        let literals = self.literals + clause_of(problem, board, step).len() as u64;
        passes(clauses, literals)
    }

    /// It takes the step. What it made so far is gone.
    pub(crate) fn take(
        &mut self,
        problem: &Problem,
        board: &[Step],
        step: u64,
    ) -> Result<(), AllocError>
        requires kept { IsKeptWorker problem.now board.now self.old }
        requires held { IsTrue (has_chain problem.now board.now step) }
        requires new { list_any (λ n. step == n) self.old.taken ≡ false }
        requires fits { passes_limits (extended_by problem.now board.now (self.old.taken ++ step ∷ [])) ≡ false }
        ensures kept { IsKeptWorker problem.now board.now self.new }
        ensures ok { OnOk result (shown self.new ≡ record { taken = self.old.taken ++ step ∷ []; made = [] }) }
        ensures err { OnErr result (self.new ≡ self.old) }
    {
        let literals = clause_of(problem, board, step).len() as u64;
        add_number(&mut self.taken, step)?;
        self.literals += literals;
        self.clear_made();
        Ok(())
    }

    /// Searches over its problem from the beginning, until so many clauses are learned. It makes what the search did.
    pub(crate) fn run<T: Theory, F: Fn(&Problem) -> Result<Vec<T>, AllocError>>(
        &mut self,
        alloc: Global,
        over: &Problem,
        make: &F,
        number: u32,
        slice: u64,
    ) -> Result<Reply, AllocError>
        requires callable { F.IsAlwaysCallable make.now }
        requires makes { MakesTheories (F.post make.now) (λ ts. facts_of T.graph T.atoms T.seen ts.items) }
        requires slice { 1 ≤ slice }
        ensures kept { (p : Instance) (board : List Step) → SearchesOver p board self.old over.now → IsKeptWorker p board self.new }
        ensures taken { self.new.taken ≡ self.old.taken }
        ensures ok { (p : Instance) (board : List Step) → SearchesOver p board self.old over.now
            → IfOk result (λ r. Tells p over.now slice r self.new.made) }
        ensures err { OnErr result (self.new ≡ self.old) }
    {
        let told = search_over::<T, F>(alloc, over, make, number, slice)?;
        self.made = told.made.into_vec();
        Ok(told.reply)
    }
}

/// Whether a problem with so many clauses and literals passes the limits of an input.
fn passes(clauses: u64, literals: u64) -> bool
    ensures { result ≡ (nat_lt MAX_CLAUSES clauses || nat_lt MAX_LITERALS literals) }
{
    clauses > u64::from(MAX_CLAUSES) || literals > u64::from(MAX_LITERALS)
}

/// Adds a number that isn't there yet.
fn add_number(taken: &mut IndexSet<u64>, step: u64) -> Result<(), AllocError>
    requires { list_any (λ n. step == n) taken.old.keys ≡ false }
    ensures ok { OnOk result (taken.new.keys ≡ taken.old.keys ++ step ∷ []) }
    ensures err { OnErr result (taken.new.keys ≡ taken.old.keys) }
{
    taken.insert(step)?;
    Ok(())
}
