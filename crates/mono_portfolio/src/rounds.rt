//! Workers that search and give in turn.

ghost use Rattle.std.specs.Prelude.{◌≡◌, ◌≤◌, ◌<◌, ◌+◌, ℕ, List, [], All, drop, length, IfOk, OnOk};
ghost use Rattle.mono_problem.specs.Instance.{Instance};
ghost use Rattle.mono_theory.specs.Owners.{facts_of};
ghost use Rattle.mono_search.specs.Solving.{MakesTheories};
ghost use Rattle.mono_portfolio.specs.Outcomes.{IsTeamOutcome};
ghost use Rattle.mono_portfolio.specs.Rounds.{is_short as is_short_step, short_chains, taking};
ghost use Rattle.mono_portfolio.specs.TeamView.{worker_at, start};
ghost use Rattle.mono_portfolio.specs.Turns.{TurnsTo, RoundsTo, having, even, taken_after, IsEven, EndsBy};

use crate::event::{Event, Reply};
use crate::team::Team;
use mono_base::Row;
use mono_problem::Problem;
use mono_steps::Step;
use mono_theory::Theory;
use std::alloc::{AllocError, Global};

/// Each turn of a worker learns so many clauses.
const SLICE: u64 = 1_000;

/// What a worker's turn comes to.
#[derive(Drop)]
pub(crate) enum Turn {
    /// These values satisfy the problem.
    Model(Row<bool>),
    /// The board is a refutation.
    Refuted,
    /// The worker gave what it learned.
    Gave,
}

/// A worker searches, and gives what it made, unless it found a model.
fn take_turn<'p, T: Theory, F: Fn(&Problem) -> Result<Vec<T>, AllocError>>(
    team: &mut Team<'p>,
    make: &F,
    worker: u32,
) -> Result<Turn, AllocError>
    requires callable { F.IsAlwaysCallable make.now }
    requires makes { MakesTheories (F.post make.now) (λ ts. facts_of T.graph T.atoms T.seen ts.items) }
    requires worker { worker < length team.old.workers }
    ensures { IfOk result (TurnsTo team.old worker team.new) }
{
    let run = Event::Run {
        worker,
        slice: SLICE,
    };
    match team.step::<T, F>(make, run)? {
        Reply::Model(model) => Ok(Turn::Model(model)),
        Reply::Unsat => {
            team.known();
            team.step::<T, F>(make, Event::Give { worker })?;
            Ok(Turn::Refuted)
        }
        _ => {
            team.step::<T, F>(make, Event::Give { worker })?;
            Ok(Turn::Gave)
        }
    }
}

/// A turn of each of the first workers, until one finds an answer.
fn take_turns<'p, T: Theory, F: Fn(&Problem) -> Result<Vec<T>, AllocError>>(
    team: &mut Team<'p>,
    make: &F,
    workers: u32,
) -> Result<Turn, AllocError>
    requires callable { F.IsAlwaysCallable make.now }
    requires makes { MakesTheories (F.post make.now) (λ ts. facts_of T.graph T.atoms T.seen ts.items) }
    requires workers { workers ≤ length team.old.workers }
    ensures { IfOk result (RoundsTo team.old workers team.new) }
{
    for worker in 0..workers {
        match take_turn::<T, F>(team, make, worker)? {
            Turn::Gave => {}
            end => return Ok(end),
        }
    }
    Ok(Turn::Gave)
}

/// Whether the step is a chain with at most 8 literals.
fn is_short(step: &Step) -> bool
    ensures { result ≡ is_short_step step.now }
{
    match step {
        Step::Lemma(_) => false,
        Step::Chain(chain) => chain.clause.lits().len() <= 8,
    }
}

/// A worker that made nothing takes each short chain of the board, from a place on, but for those that find no room.
fn take_short<'p>(team: &mut Team<'p>, worker: u32, from: usize) -> Result<(), AllocError>
    requires worker { worker < length team.old.workers }
    requires idle { (worker_at team.old worker).made ≡ [] }
    requires low { All (λ n. n ≤ length team.old.problem.clauses + from) (worker_at team.old worker).taken }
    requires within { from ≤ length team.old.board }
    ensures { OnOk result (team.new ≡ having team.old worker
        (taking team.old.problem team.old.board (worker_at team.old worker).taken
        (short_chains (length team.old.problem.clauses + from + 1) (drop from team.old.board)))) }
{
    let count = team.clause_count();
    for place in from..team.board().len() {
        if is_short(&team.board()[place]) {
            team.take(worker, count + place as u64 + 1)?;
        }
    }
    Ok(())
}

/// Each worker takes each short chain of the board, from a place on, but for those that find no room.
fn take_short_by_all<'p>(team: &mut Team<'p>, workers: u32, from: usize) -> Result<(), AllocError>
    requires workers { workers ≡ length team.old.workers }
    requires even { IsEven team.old from }
    requires within { from ≤ length team.old.board }
    ensures { OnOk result ((taken : List ℕ) → team.old ≡ even team.old.problem workers taken team.old.board
        → team.new ≡ even team.old.problem workers (taken_after team.old.problem team.old.board from taken) team.old.board) }
{
    for worker in 0..workers {
        take_short(team, worker, from)?;
    }
    Ok(())
}

/// Rounds, one after another, until a worker finds an answer.
fn play_rounds<'p, T: Theory, F: Fn(&Problem) -> Result<Vec<T>, AllocError>>(
    team: &mut Team<'p>,
    make: &F,
    workers: u32,
    rounds: u32,
) -> Result<Turn, AllocError>
    requires callable { F.IsAlwaysCallable make.now }
    requires makes { MakesTheories (F.post make.now) (λ ts. facts_of T.graph T.atoms T.seen ts.items) }
    requires new { team.old ≡ start team.old.problem workers }
    ensures { IfOk result (EndsBy team.old.problem workers rounds team.new.board) }
{
    for _ in 0..rounds {
        let from = team.board().len();
        match take_turns::<T, F>(team, make, workers)? {
            Turn::Gave => {}
            end => return Ok(end),
        }
        take_short_by_all(team, workers, from)?;
    }
    team.known();
    Ok(Turn::Gave)
}

/// How a team's rounds end.
#[derive(Drop)]
pub enum TeamOutcome {
    /// A turn found values that satisfy the problem. The board has what was given in the turns before it.
    Model { values: Row<bool>, board: Row<Step> },
    /// A turn refuted, and so does the board, of which what was given in that turn is the end.
    Refutation(Row<Step>),
    /// All rounds were played, and this is the board.
    Board(Row<Step>),
}

/// So many workers play so many rounds, or fewer where one of them finds an answer.
pub fn play_team<T: Theory, F: Fn(&Problem) -> Result<Vec<T>, AllocError>>(
    alloc: Global,
    problem: &Problem,
    make: &F,
    workers: u32,
    rounds: u32,
) -> Result<TeamOutcome, AllocError>
    requires callable { F.IsAlwaysCallable make.now }
    requires makes { MakesTheories (F.post make.now) (λ ts. facts_of T.graph T.atoms T.seen ts.items) }
    requires low { 1 ≤ workers }
    requires high { workers ≤ 8 }
    requires rounds { 1 ≤ rounds }
    ensures { IfOk result (IsTeamOutcome problem.now workers rounds) }
{
    let mut team = Team::new(alloc, problem, workers)?;
    let end = play_rounds::<T, F>(&mut team, make, workers, rounds)?;
    let board = Row::from_vec(team.into_board());
    match end {
        Turn::Model(values) => Ok(TeamOutcome::Model { values, board }),
        Turn::Refuted => Ok(TeamOutcome::Refutation(board)),
        Turn::Gave => Ok(TeamOutcome::Board(board)),
    }
}
