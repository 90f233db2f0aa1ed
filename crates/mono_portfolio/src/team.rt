//! Workers that share a board of steps.

ghost use Rattle.std.specs.Prelude.{◌≡◌, ◌≤◌, [], ◌∷◌, ◌++◌, List, length, IfOk, OnErr, IsTrue, replicate};
ghost use Rattle.mono_problem.specs.WellFormed.{IsInstance};
ghost use Rattle.mono_steps.specs.Steps.{are_justified};
ghost use Rattle.mono_portfolio.specs.declared.event.Event.TheVariants as event_of;
ghost use Rattle.mono_portfolio.specs.TeamView.{start, IsTeam};
ghost use Rattle.mono_portfolio.specs.Workers.{idle_over};
ghost use Rattle.mono_problem.specs.Instance.{Instance};
ghost use Rattle.mono_theory.specs.Owners.{facts_of};
ghost use Rattle.mono_portfolio.specs.declared.event.Event.{Event};
ghost use Rattle.mono_portfolio.specs.declared.event.Reply.{Reply};
ghost use Rattle.mono_portfolio.specs.Plays.{Answers, Plays};
ghost use Rattle.mono_portfolio.specs.Soundness.{IsSoundPlay};
ghost use Rattle.mono_search.specs.Solving.{MakesTheories};

use crate::building::{Built, build_for, drop_built_of, problem_of};
use crate::event::{Event, Reply};
use crate::extending::has_chain;
use crate::moving::moved_steps;
use crate::worker::Worker;
use mono_problem::Problem;
use mono_steps::Step;
use mono_theory::Theory;
use std::alloc::{AllocError, Global};
use std::marker::Model;

/// Workers that each search over a problem and the clauses that they took from the board.
pub struct Team<'p> {
    alloc: Global,
    problem: &'p Problem,
    board: Vec<Step>,
    workers: Vec<Worker>,
    /// At most one problem that was built is kept, however many workers there are.
    built: Option<Built>,
}

impl<'p> Drop for Team<'p> {
    fn drop(self) {
        let Team {
            alloc: _,
            problem: _,
            board: _,
            workers: _,
            built: _,
        } = self;
    }
}

impl<'p> Model for Team<'p> {
    ghost use Rattle.mono_portfolio.specs.TeamView.{TeamView};
    ghost use Rattle.mono_portfolio.specs.Workers.{IsKeptTeam, shown_team};

    ghost Value = { TeamView };

    ghost view = { λ t. shown_team t.problem.now t.board.items t.workers.items };

    ghost invariant = { λ t. IsKeptTeam t.problem.now t.board.items t.workers.items t.built };
}

/// So many workers that took nothing and made nothing.
fn idle_workers(alloc: Global, problem: &Problem, count: u32) -> Result<Vec<Worker>, AllocError>
    ensures { IfOk result (λ workers. workers.items ≡ replicate count (idle_over problem.now)) }
{
    let mut workers = Vec::new(alloc);
    for _ in 0..count {
        workers.push(Worker::new(alloc, problem))?;
    }
    Ok(workers)
}

impl<'p> Team<'p> {
    /// So many workers that took nothing and made nothing, and an empty board.
    pub fn new(alloc: Global, problem: &'p Problem, workers: u32) -> Result<Team<'p>, AllocError>
        requires low { 1 ≤ workers }
        requires high { workers ≤ 8 }
        ensures { IfOk result (λ team. team ≡ start problem.now workers) }
    {
        problem.known();
        let idle = idle_workers(alloc, problem, workers)?;
        let board = Vec::new(alloc);
        Ok(Team {
            alloc,
            problem,
            board,
            workers: idle,
            built: None,
        })
    }

    /// What holds of every team. Nothing is computed: it is there for the clause.
    pub(crate) fn known(&self)
        ensures team { IsTeam self.now }
    {
        let _ = &self.board;
    }

    /// The steps of the board, in order.
    pub fn board(&self) -> &[Step]
        ensures board { result.now ≡ self.now.board }
        ensures team { IsTeam self.now }
    {
        self.board.as_slice()
    }

    /// How many clauses the problem has.
    pub(crate) fn clause_count(&self) -> u64
        ensures { result ≡ length self.now.problem.clauses }
    {
        u64::from(self.problem.clause_count())
    }

    /// The steps of the board.
    pub(crate) fn into_board(self) -> Vec<Step>
        ensures { result.items ≡ self.entry.board }
    {
        let Team {
            alloc: _,
            problem: _,
            board,
            workers: _,
            built: _,
        } = self;
        board
    }

    /// One event. After want of memory the state is as before.
    pub fn step<T: Theory, F: Fn(&Problem) -> Result<Vec<T>, AllocError>>(
        &mut self,
        make: &F,
        event: Event,
    ) -> Result<Reply, AllocError>
        requires callable { F.IsAlwaysCallable make.now }
        requires makes { MakesTheories (F.post make.now) (λ ts. facts_of T.graph T.atoms T.seen ts.items) }
        ensures ok { IfOk result (λ r. Answers self.old event r self.new) }
        ensures err { OnErr result (self.new ≡ self.old) }
        ensures sound { IfOk result (λ r. (events : List Event) (replies : List Reply)
            → Plays (start self.old.problem (length self.old.workers)) events replies self.old
            → IsSoundPlay self.old.problem (events ++ event ∷ []) (replies ++ r ∷ []) self.new.board) }
    {
        self.problem.known();
        match event {
            Event::Run { worker, slice } => self.run::<T, F>(make, worker, slice),
            Event::Give { worker } => self.give(worker),
            Event::Take { worker, step } => self.take(worker, step),
        }
    }

    /// A worker searches from the beginning.
    fn run<T: Theory, F: Fn(&Problem) -> Result<Vec<T>, AllocError>>(
        &mut self,
        make: &F,
        worker: u32,
        slice: u64,
    ) -> Result<Reply, AllocError>
        requires callable { F.IsAlwaysCallable make.now }
        requires makes { MakesTheories (F.post make.now) (λ ts. facts_of T.graph T.atoms T.seen ts.items) }
        ensures ok { IfOk result (λ r. Answers self.old (event_of.Run worker slice) r self.new) }
        ensures err { OnErr result (self.new ≡ self.old) }
    {
        let place = worker as usize;
        if place >= self.workers.len() {
            return Ok(Reply::NoWorker);
        }
        if slice == 0 {
            return Ok(Reply::ZeroSlice);
        }
        let workers = self.workers.as_slice();
        build_for(
            self.problem,
            self.board.as_slice(),
            workers,
            place,
            &mut self.built,
        )?;
        let over = problem_of(self.problem, &self.built, place);
        self.workers[place].run::<T, F>(self.alloc, over, make, worker, slice)
    }

    /// What a worker made joins the board.
    fn give(&mut self, worker: u32) -> Result<Reply, AllocError>
        ensures ok { IfOk result (λ r. Answers self.old (event_of.Give worker) r self.new) }
        ensures err { OnErr result (self.new ≡ self.old) }
    {
        let place = worker as usize;
        if place >= self.workers.len() {
            return Ok(Reply::NoWorker);
        }
        let giver = &self.workers[place];
        if giver.made().is_empty() {
            return Ok(Reply::NothingMade);
        }
        let count = u64::from(self.problem.clause_count());
        let before = self.board.len() as u64;
        let mut steps = moved_steps(self.alloc, count, giver.taken(), before, giver.made())?;
        let given = steps.len() as u64;
        self.board.append(&mut steps)?;
        self.workers[place].clear_made();
        Ok(Reply::Given(given))
    }

    /// A worker takes the clause of a chain of the board.
    pub(crate) fn take(&mut self, worker: u32, step: u64) -> Result<Reply, AllocError>
        ensures ok { IfOk result (λ r. Answers self.old (event_of.Take worker step) r self.new) }
        ensures err { OnErr result (self.new ≡ self.old) }
    {
        let place = worker as usize;
        if place >= self.workers.len() {
            return Ok(Reply::NoWorker);
        }
        let board = self.board.as_slice();
        if !has_chain(self.problem, board, step) {
            return Ok(Reply::NoStep);
        }
        let taker = &self.workers[place];
        if taker.has_taken(step) {
            return Ok(Reply::AlreadyTaken);
        }
        if taker.is_full(self.problem, board, step) {
            return Ok(Reply::Full);
        }
        self.workers[place].take(self.problem, board, step)?;
        drop_built_of(place, &mut self.built);
        Ok(Reply::Taken)
    }
}
