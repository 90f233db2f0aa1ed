//! What follows from the literals of the trail.
//!
//! First the clauses imply what they can. Where they are quiet the theories are handed the literals that came since, and
//! asked for one literal that they force. It joins the trail without a lemma; where it is false its lemma is the conflict.

ghost use Rattle.std.specs.Prelude.{◌≡◌, length, IfOk, IsTrue, MatchOption};
ghost use Rattle.mono_base.specs.Partial.{is_false_in};
ghost use Rattle.mono_steps.specs.Journals.{chain_count};
ghost use Rattle.mono_search.specs.Theories.{AtomsQuiet, having_seen};
ghost use Rattle.mono_search.specs.State.{IsJournal, IsReady, IsInConflict};
ghost use Rattle.mono_search.specs.Outcomes.{HasMoreSteps};
ghost use Rattle.mono_search.specs.Runs.{ClausesPropagatedAs, PropagatedAs, CanImply};

use crate::state::State;
use crate::theories::Forced;
use mono_base::Value;
use mono_clauses::Found;
use mono_learn::Explainer;
use mono_theory::Theory;
use mono_trail::Reason;
use std::alloc::AllocError;

/// What propagation came to.
#[derive(Clone, Copy, Debug, PartialEq, Eq)]
pub enum Propagated {
    /// Clauses and theories have nothing to do.
    Quiet,
    /// A theory forced a literal, which joined the trail.
    Implied,
    /// The clause of this number is false.
    Conflict(u64),
}

impl<'p, T: Theory> State<'p, T> {
    /// Clauses and theories say what follows, up to one literal of a theory.
    pub(crate) fn propagate(&mut self) -> Result<Propagated, AllocError>
        requires { IsReady self.old }
        ensures problem { self.new.theories.problem ≡ self.old.theories.problem }
        ensures journal { IsJournal self.new.theories.problem self.new.steps }
        ensures keeps { HasMoreSteps self.old.steps self.new.steps }
        ensures answer { IfOk result (PropagatedAs self.old self.new) }
        ensures chains { chain_count self.new.steps ≡ chain_count self.old.steps }
    {
        if let Found::False(number) = self.propagate_clauses() {
            return Ok(Propagated::Conflict(number));
        }
        self.hand_on();
        let Some(forced) = self.force()? else {
            return Ok(Propagated::Quiet);
        };
        self.imply_forced(forced)
    }

    /// The clauses imply what they can.
    fn propagate_clauses(&mut self) -> Found
        requires { IsReady self.old }
        ensures { ClausesPropagatedAs self.old self.new result }
    {
        let found = self.store.propagate(&mut self.trail);
        self.trail.known();
        found
    }

    /// The theories are handed the literals that came since.
    pub(crate) fn hand_on(&mut self)
        requires { IsReady self.old }
        ensures handed { self.new ≡ record self.old { theories = having_seen self.old.theories self.old.trail.lits (length self.old.trail.lits) } }
        ensures ready { IsReady self.new }
    {
        self.trail.known();
        self.theories.hand_on(self.trail.lits());
    }

    /// A literal that an atom forces and that isn't true, if there is one.
    fn force(&mut self) -> Result<Option<Forced>, AllocError>
        requires ready { IsReady self.old }
        requires handed { self.old.theories.handed ≡ length self.old.trail.lits }
        ensures same { self.new ≡ self.old }
        ensures answer { IfOk result (λ r. MatchOption r (AtomsQuiet self.old.theories.problem self.old.trail.lits) (CanImply self.old)) }
    {
        self.trail.known();
        let problem = self.theories.problem();
        problem.known();
        self.theories.force()
    }

    /// A forced literal joins the trail. Where it is false it is explained instead.
    fn imply_forced(&mut self, forced: Forced) -> Result<Propagated, AllocError>
        requires ready { IsReady self.old }
        requires forced { CanImply self.old forced }
        ensures problem { self.new.theories.problem ≡ self.old.theories.problem }
        ensures journal { IsJournal self.new.theories.problem self.new.steps }
        ensures keeps { HasMoreSteps self.old.steps self.new.steps }
        ensures answer { IfOk result (PropagatedAs self.old self.new) }
        ensures chains { chain_count self.new.steps ≡ chain_count self.old.steps }
    {
        match self.trail.value(forced.lit) {
            Value::Yes => unreachable!(),
            Value::No => Ok(Propagated::Conflict(self.explain_conflict(forced)?)),
            Value::Unset => {
                let Forced { atom, lit, kept } = forced;
                self.trail.imply(lit, Reason::Late { atom, kept });
                self.trail.known();
                Ok(Propagated::Implied)
            }
        }
    }

    /// The lemma of a forced literal that is false joins the journal, and its number is that of the conflict.
    fn explain_conflict(&mut self, forced: Forced) -> Result<u64, AllocError>
        requires ready { IsReady self.old }
        requires forced { CanImply self.old forced }
        requires wrong { IsTrue (is_false_in self.old.trail.lits forced.lit) }
        ensures problem { self.new.theories.problem ≡ self.old.theories.problem }
        ensures journal { IsJournal self.new.theories.problem self.new.steps }
        ensures keeps { HasMoreSteps self.old.steps self.new.steps }
        ensures conflict { IfOk result (IsInConflict self.new) }
        ensures chains { chain_count self.new.steps ≡ chain_count self.old.steps }
    {
        let problem = self.theories.problem();
        problem.known();
        let lemma = self.theories.explain(forced.atom, forced.lit, forced.kept)?;
        self.journal.push_lemma(problem, lemma)
    }
}
