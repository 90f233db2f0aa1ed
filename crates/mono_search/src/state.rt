//! What a search works on.
//!
//! `specs/State.antt` says what holds between steps. Its heart: the literals before each decision leave the clauses and
//! the theories nothing to do. A conflict above level 0 therefore has a literal of the present level, and the clause that
//! it teaches is new. The clauses in the store are those of the problem and of the journal's chains.

ghost use Rattle.std.specs.Prelude.{◌≡◌, [], All, IfOk};
ghost use Rattle.mono_theory.specs.Owners.{facts_of, OwnsEach};
ghost use Rattle.mono_search.specs.Runs.{BeginsWith};

use crate::inputs::Inputs;
use crate::memory::Memory;
use crate::theories::Theories;
use mono_clauses::ClauseStore;
use mono_problem::Problem;
use mono_steps::Journal;
use mono_theory::Theory;
use mono_trail::{Order, Trail};
use std::alloc::{AllocError, Global};
use std::marker::Model;

/// A problem with its theories, and what was found out about it.
pub struct State<'p, T: Theory> {
    pub(crate) theories: Theories<'p, T>,
    pub(crate) trail: Trail,
    pub(crate) store: ClauseStore,
    pub(crate) journal: Journal,
    pub(crate) order: Order,
    /// What signs are saved at restarts: nothing of it is seen in contracts.
    pub(crate) memory: Memory,
}

impl<'p, T: Theory> Drop for State<'p, T> {
    fn drop(self) {
        let State {
            theories: _,
            trail: _,
            store: _,
            journal: _,
            order: _,
            memory: _,
        } = self;
    }
}

impl<'p, T: Theory> Model for State<'p, T> {
    ghost use Rattle.mono_search.specs.State.{StateView};

    ghost Value = { StateView };

    ghost view = { λ s. record { theories = s.theories; trail = s.trail; store = s.store; steps = s.journal; order = s.order } };
}

impl<'p, T: Theory> State<'p, T> {
    /// Nothing was found out.
    pub fn new(
        alloc: Global,
        problem: &'p Problem,
        theories: Vec<T>,
    ) -> Result<State<'p, T>, AllocError>
        requires owns { OwnsEach problem.now (facts_of T.graph T.atoms T.seen theories.items) }
        requires unseen { All (λ f. f.seen ≡ []) (facts_of T.graph T.atoms T.seen theories.items) }
        ensures { IfOk result (BeginsWith problem.now) }
    {
        let theories = Theories::new(alloc, problem, theories)?;
        let memory = Memory::new(alloc, problem)?;
        let inputs = Inputs::new(alloc, problem)?;
        Ok(State {
            theories,
            trail: inputs.trail,
            store: inputs.store,
            journal: Journal::new(alloc),
            order: inputs.order,
            memory,
        })
    }

    /// The steps made so far.
    pub fn journal(&self) -> &Journal
        ensures { result.now ≡ self.now.steps }
    {
        &self.journal
    }

    /// The steps made, without a copy of them.
    pub(crate) fn into_journal(self) -> Journal
        ensures { result ≡ self.entry.steps }
    {
        let State {
            theories: _,
            trail: _,
            store: _,
            journal,
            order: _,
            memory: _,
        } = self;
        journal
    }
}
