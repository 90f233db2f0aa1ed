//! Steps of the search until it ends: propagate, and then learn from a conflict, or imply by a lemma in good time, or decide.

ghost use Rattle.std.specs.Prelude.{◌≡◌, ◌≤◌, max, IfOk, OnErr, IsTrue};
ghost use Rattle.mono_steps.specs.Journals.{chain_count};
ghost use Rattle.mono_search.specs.Outcomes.{HasMoreSteps, is_unknown, may_go_on};
ghost use Rattle.mono_search.specs.Restarts.{KeepsCount};
ghost use Rattle.mono_search.specs.State.{IsJournal, IsReady};
ghost use Rattle.mono_search.specs.Runs.{SteppedAs, IsEnd};

use crate::propagation::Propagated;
use crate::restarts::Restarts;
use crate::search::Outcome;
use crate::state::State;
use mono_theory::Theory;
use std::alloc::{AllocError, Global};

impl<'p, T: Theory> State<'p, T> {
    /// Steps until the end. It comes, since with each step clauses are learned, or variables get values.
    pub(crate) fn run(
        &mut self,
        alloc: Global,
        restarts: &mut Restarts,
        budget: u64,
    ) -> Result<Outcome, AllocError>
        requires { IsReady self.old }
        ensures problem { self.new.theories.problem ≡ self.old.theories.problem }
        ensures journal { IsJournal self.new.theories.problem self.new.steps }
        ensures keeps { HasMoreSteps self.old.steps self.new.steps }
        ensures ends { IfOk result (IsEnd budget self.old self.new) }
        ensures err { OnErr result (chain_count self.new.steps ≤ max budget (chain_count self.old.steps)) }
        ensures counted { IfOk result (λ o. IsTrue (is_unknown o)
            → KeepsCount (chain_count self.old.steps) (chain_count self.new.steps) restarts.old restarts.new) }
    {
        loop {
            if let Some(outcome) = self.step(alloc, restarts, budget)? {
                return Ok(outcome);
            }
        }
    }

    /// Propagation, and what it leads to.
    fn step(
        &mut self,
        alloc: Global,
        restarts: &mut Restarts,
        budget: u64,
    ) -> Result<Option<Outcome>, AllocError>
        requires { IsReady self.old }
        ensures problem { self.new.theories.problem ≡ self.old.theories.problem }
        ensures journal { IsJournal self.new.theories.problem self.new.steps }
        ensures keeps { HasMoreSteps self.old.steps self.new.steps }
        ensures ends { IfOk result (SteppedAs budget self.old self.new) }
        ensures err { OnErr result (chain_count self.new.steps ≤ max budget (chain_count self.old.steps)) }
        ensures counted { IfOk result (λ end. IsTrue (may_go_on end)
            → KeepsCount (chain_count self.old.steps) (chain_count self.new.steps) restarts.old restarts.new) }
    {
        match self.propagate()? {
            Propagated::Implied => Ok(None),
            Propagated::Conflict(number) => self.resolve(alloc, restarts, budget, number),
            Propagated::Quiet => {
                if self.foresee()? {
                    return Ok(None);
                }
                if self.decide() {
                    return Ok(None);
                }
                Ok(Some(Outcome::Sat(self.model(alloc)?)))
            }
        }
    }
}
