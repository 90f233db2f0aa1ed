//! A plain model of a team's state: enough of it to tell each refusal, and what an event may change.

use mono_portfolio::{Event, Reply};
use mono_steps::Step;
use std::alloc::{AllocError, Global};

/// The name of a reply, and whether it was one step that was given.
pub fn name(reply: &Reply) -> &'static str {
    match reply {
        Reply::Model(_) => "Model",
        Reply::Unsat => "Unsat",
        Reply::Slice => "Slice",
        Reply::Given(1) => "Given 1",
        Reply::Given(_) => "Given",
        Reply::Taken => "Taken",
        Reply::NoWorker => "NoWorker",
        Reply::ZeroSlice => "ZeroSlice",
        Reply::NothingMade => "NothingMade",
        Reply::NoStep => "NoStep",
        Reply::AlreadyTaken => "AlreadyTaken",
        Reply::Full => "Full",
    }
}

/// What a worker made.
#[derive(Clone, Copy, PartialEq, Eq)]
enum Made {
    Nothing,
    /// So many learned clauses.
    Slice(u64),
    Refutation,
}

/// What is known of a worker.
#[derive(Drop)]
struct PlainWorker {
    taken: Vec<u64>,
    made: Made,
}

/// Three workers, and of each step of the board whether it is a chain.
#[derive(Drop)]
pub struct Plain {
    clauses: u64,
    chains: Vec<bool>,
    workers: Vec<PlainWorker>,
}

fn is_chain(step: &Step) -> bool {
    match step {
        Step::Chain(_) => true,
        Step::Lemma(_) => false,
    }
}

/// How many of the steps are chains that aren't empty.
fn learned(steps: &[Step]) -> u64 {
    let learned = |step: &&Step| is_chain(*step) && !step.clause().lits().is_empty();
    steps.iter().filter(learned).count() as u64
}

/// Whether the last step has no literal.
fn ends_empty(steps: &[Step]) -> bool {
    match steps.last() {
        Some(step) => step.clause().lits().is_empty(),
        None => false,
    }
}

/// Whether the steps are those that such a worker gives.
fn is_gift(made: Made, steps: &[Step]) -> bool {
    match made {
        Made::Nothing => false,
        Made::Slice(count) => learned(steps) == count,
        Made::Refutation => ends_empty(steps),
    }
}

impl Plain {
    /// Three workers that took and made nothing, over a problem of so many clauses.
    pub fn new(alloc: Global, clauses: u64) -> Result<Plain, AllocError> {
        let mut workers = Vec::new(alloc);
        for _ in 0..3 {
            workers.push(PlainWorker {
                taken: Vec::new(alloc),
                made: Made::Nothing,
            })?;
        }
        Ok(Plain {
            clauses,
            chains: Vec::new(alloc),
            workers,
        })
    }

    /// One more than the number behind the last step's.
    pub fn numbers(&self) -> u64 {
        self.clauses
            .saturating_add(self.chains.len() as u64)
            .saturating_add(3)
    }

    fn has_chain(&self, number: u64) -> bool {
        if number <= self.clauses {
            return false;
        }
        match self.chains.get((number - self.clauses - 1) as usize) {
            Some(chain) => *chain,
            None => false,
        }
    }

    /// The name of the reply that refuses the event.
    fn refusal(&self, event: Event) -> Option<&'static str> {
        let number = match event {
            Event::Run { worker, slice: _ } => worker,
            Event::Give { worker } => worker,
            Event::Take { worker, step: _ } => worker,
        };
        let Some(worker) = self.workers.get(number as usize) else {
            return Some("NoWorker");
        };
        match event {
            Event::Run { worker: _, slice } => if slice == 0 { Some("ZeroSlice") } else { None },
            Event::Give { worker: _ } => if worker.made == Made::Nothing {
                Some("NothingMade")
            } else {
                None
            },
            Event::Take { worker: _, step } => self.refused_taking(worker, step),
        }
    }

    fn refused_taking(&self, worker: &PlainWorker, step: u64) -> Option<&'static str> {
        if !self.has_chain(step) {
            return Some("NoStep");
        }
        if worker.taken.contains(&step) {
            return Some("AlreadyTaken");
        }
        None
    }

    /// Takes what a worker made away from it, where it made something.
    fn made(&mut self, number: u32, made: Made) -> Made {
        match self.workers.get_mut(number as usize) {
            Some(worker) => {
                let before = worker.made;
                worker.made = made;
                before
            }
            None => Made::Nothing,
        }
    }

    /// Whether the worker's gift is what was added to the board. The steps are those of the plain board then.
    fn receives(&mut self, worker: u32, given: u64, board: &[Step]) -> Result<bool, AllocError> {
        let before = self.chains.len();
        if board.len() < before {
            return Ok(false);
        }
        let steps = &board[before..];
        let made = self.made(worker, Made::Nothing);
        for step in steps {
            self.chains.push(is_chain(step))?;
        }
        Ok(is_gift(made, steps) && steps.len() as u64 == given)
    }

    fn takes(&mut self, number: u32, step: u64) -> Result<bool, AllocError> {
        match self.workers.get_mut(number as usize) {
            Some(worker) => {
                worker.taken.push(step)?;
                worker.made = Made::Nothing;
                Ok(true)
            }
            None => Ok(false),
        }
    }

    /// Whether an event that isn't refused may have the reply. The state is changed by it.
    fn serves(&mut self, event: Event, reply: &Reply, board: &[Step]) -> Result<bool, AllocError> {
        match (event, reply) {
            (Event::Run { worker, slice: _ }, Reply::Model(_)) => {
                self.made(worker, Made::Nothing);
                Ok(true)
            }
            (Event::Run { worker, slice: _ }, Reply::Unsat) => {
                self.made(worker, Made::Refutation);
                Ok(true)
            }
            (Event::Run { worker, slice }, Reply::Slice) => {
                self.made(worker, Made::Slice(slice));
                Ok(true)
            }
            (Event::Give { worker }, Reply::Given(count)) => self.receives(worker, *count, board),
            (Event::Take { worker, step }, Reply::Taken) => self.takes(worker, step),
            _ => Ok(false),
        }
    }

    /// Whether the reply to the event, and the board behind it, are such as the plain rules say.
    pub fn agrees(
        &mut self,
        event: Event,
        reply: &Reply,
        board: &[Step],
    ) -> Result<bool, AllocError> {
        let right = match self.refusal(event) {
            Some(refused) => name(reply) == refused,
            None => self.serves(event, reply, board)?,
        };
        Ok(right && board.len() == self.chains.len())
    }
}
