//! Teams of workers: lists of events that meet each reply, and drawn ones beside a plain model of the state.

use super::assert_same;
use mono_gnf::read_gnf;
use mono_kinds::all_theories;
use mono_portfolio::{Event, Reply, Team, play};
use mono_problem::Problem;
use mono_steps::Step;
use rand_core::utils::NextWord;
use rand_pcg::Lcg64Xsh32;
use std::alloc::{AllocError, Global};
use std::process::Abort;
use std::test::Fail;

mod input;
mod plain;

use input::{drawn_clauses, full_input};
use plain::{Plain, name};

/// All clauses over three variables: no assignment satisfies them, and three conflicts at least are met.
const EIGHT: &[u8] =
    b"1 2 3 0\n1 2 -3 0\n1 -2 3 0\n1 -2 -3 0\n-1 2 3 0\n-1 2 -3 0\n-1 -2 3 0\n-1 -2 -3 0\n";

/// So many seeds are drawn from, each for a problem and a list of events.
const SEEDS: u64 = 300;

/// So many events make a list.
const EVENTS: usize = 24;

fn run_of(worker: u32, slice: u64) -> Event {
    Event::Run { worker, slice }
}

fn give_of(worker: u32) -> Event {
    Event::Give { worker }
}

fn take_of(worker: u32, step: u64) -> Event {
    Event::Take { worker, step }
}

/// The names of the replies to these events, by two workers over the input.
fn replies_to(alloc: Global, input: &[u8], events: &[Event]) -> Result<Vec<&'static str>, Fail> {
    let problem = read_gnf(alloc, input)?;
    let make = |p: &Problem| all_theories(alloc, p);
    let played = play(alloc, &problem, &make, 2, events)?;
    let names = played.replies.as_slice().iter().map(name).collect(alloc)?;
    Ok(names)
}

/// The names of the replies begin with these, and there is one for each event.
fn assert_replies(
    rt: &impl Abort,
    alloc: Global,
    input: &[u8],
    events: &[Event],
    expected: &[&'static str],
) -> Result<(), Fail> {
    let mut replies = replies_to(alloc, input, events)?;
    assert_same(rt, replies.len(), events.len());
    replies.truncate(expected.len());
    assert_same(rt, replies.as_slice(), expected);
    Ok(())
}

/// A problem with as many literals as an input may have takes no further one.
fn assert_full(rt: &impl Abort, alloc: Global) -> Result<(), Fail> {
    let input = full_input(alloc)?;
    assert_replies(
        rt,
        alloc,
        input.as_slice(),
        &[run_of(0, 1), give_of(0), take_of(1, 10), take_of(0, 10)],
        &["Slice", "Given 1", "Full", "Full"],
    )
}

/// What was made before a model is found is gone.
fn assert_model(rt: &impl Abort, alloc: Global) -> Result<(), Fail> {
    assert_replies(
        rt,
        alloc,
        b"1 2 0\n-1 2 0\n",
        &[run_of(1, 1), give_of(1), run_of(0, 7)],
        &["Model", "NothingMade", "Model"],
    )
}

/// Each reply of a team of two.
#[test]
fn each_reply_is_met(rt: HostRuntime) -> Result<(), Fail> {
    let events = [
        run_of(0, 1),
        give_of(0),
        take_of(1, 9),
        run_of(1, 1),
        give_of(1),
        take_of(1, 9),
        run_of(5, 1),
        run_of(0, 0),
        give_of(0),
        take_of(0, 1),
        run_of(0, 100),
        give_of(0),
    ];
    let expected = [
        "Slice",
        "Given 1",
        "Taken",
        "Slice",
        "Given 1",
        "AlreadyTaken",
        "NoWorker",
        "ZeroSlice",
        "NothingMade",
        "NoStep",
        "Unsat",
    ];
    assert_replies(&rt, rt.alloc(), EIGHT, &events, &expected)?;
    assert_full(&rt, rt.alloc())?;
    assert_model(&rt, rt.alloc())
}

/// An event for one of five workers, of which three are there.
fn drawn_event(words: &mut Lcg64Xsh32, numbers: u64) -> Event {
    let worker = words.next_word() % 5;
    let kind = words.next_word() % 5;
    if kind < 2 {
        let slice = u64::from(words.next_word() % 4);
        return Event::Run { worker, slice };
    }
    if kind == 2 {
        return Event::Give { worker };
    }
    let step = u64::from(words.next_word()) % numbers.max(1);
    Event::Take { worker, step }
}

/// Whether a drawn list of events of a team over the problem agrees with the plain model.
fn list_agrees(
    alloc: Global,
    problem: &Problem,
    words: &mut Lcg64Xsh32,
) -> Result<bool, AllocError> {
    let make = |p: &Problem| all_theories(alloc, p);
    let mut team = Team::new(alloc, problem, 3)?;
    let mut plain = Plain::new(alloc, u64::from(problem.clause_count()))?;
    for _ in 0..EVENTS {
        let numbers = plain.numbers();
        let event = drawn_event(words, numbers);
        let reply = team.step(&make, event)?;
        if !plain.agrees(event, &reply, team.board())? {
            return Ok(false);
        }
    }
    Ok(true)
}

/// The first seed whose list doesn't agree.
fn first_wrong(alloc: Global) -> Result<Option<u64>, Fail> {
    for seed in 1..=SEEDS {
        let mut words = Lcg64Xsh32::new(seed, 0);
        let input = drawn_clauses(alloc, &mut words)?;
        let problem = read_gnf(alloc, input.as_slice())?;
        if !list_agrees(alloc, &problem, &mut words)? {
            return Ok(Some(seed));
        }
    }
    Ok(None)
}

#[test]
fn drawn_lists_agree_with_a_plain_model(rt: HostRuntime) -> Result<(), Fail> {
    let wrong = first_wrong(rt.alloc())?;
    assert_same(&rt, wrong, None);
    Ok(())
}
