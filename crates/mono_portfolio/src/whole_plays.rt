//! Whole plays.

ghost use Rattle.std.specs.Prelude.{◌≤◌, IfOk};
ghost use Rattle.mono_problem.specs.Instance.{Instance};
ghost use Rattle.mono_theory.specs.Owners.{facts_of};
ghost use Rattle.mono_search.specs.Solving.{MakesTheories};
ghost use Rattle.mono_portfolio.specs.Soundness.{IsPlay, IsSoundPlay};

use crate::event::{Event, Reply};
use crate::team::Team;
use mono_base::Row;
use mono_problem::Problem;
use mono_steps::Step;
use mono_theory::Theory;
use std::alloc::{AllocError, Global};

/// What a play leaves: the last board, and a reply to each event.
#[derive(Drop)]
pub struct Played {
    pub board: Row<Step>,
    pub replies: Row<Reply>,
}

/// Plays these events, one after another.
pub fn play<T: Theory, F: Fn(&Problem) -> Result<Vec<T>, AllocError>>(
    alloc: Global,
    problem: &Problem,
    make: &F,
    workers: u32,
    events: &[Event],
) -> Result<Played, AllocError>
    requires callable { F.IsAlwaysCallable make.now }
    requires makes { MakesTheories (F.post make.now) (λ ts. facts_of T.graph T.atoms T.seen ts.items) }
    requires low { 1 ≤ workers }
    requires high { workers ≤ 8 }
    ensures plays { IfOk result (λ played. IsPlay problem.now workers events.now played.replies played.board) }
    ensures sound { IfOk result (λ played. IsSoundPlay problem.now events.now played.replies played.board) }
{
    problem.known();
    let mut team = Team::new(alloc, problem, workers)?;
    let mut replies = Vec::with_capacity(alloc, events.len())?;
    for event in events {
        replies.push(team.step::<T, F>(make, *event)?)?;
    }
    Ok(Played {
        board: Row::from_vec(team.into_board()),
        replies: Row::from_vec(replies),
    })
}
