//! Lemmas in good time.
//!
//! Where clauses and theories have nothing to do, a theory may have a lemma at hand that is unit: it says that an open edge has
//! to be absent before an atom fails by it. The lemma joins the journal, and the clauses, which imply its literal from then on.

ghost use Rattle.std.specs.Prelude.{◌≡◌, false, length, IfOk, IfSome, IsTrue, OnOk};
ghost use Rattle.mono_steps.specs.Journals.{chain_count};
ghost use Rattle.mono_search.specs.State.{IsJournal, IsReady};
ghost use Rattle.mono_search.specs.Outcomes.{HasMoreSteps};
ghost use Rattle.mono_search.specs.Runs.{HasAdvanced, IsQuietAfter, IsQuietState, IsUnitNow};

use crate::state::State;
use mono_theory::{Theory, UnitLemma};
use mono_trail::Reason;
use std::alloc::AllocError;

impl<'p, T: Theory> State<'p, T> {
    /// The literal of a lemma that a theory has at hand and that is unit joins the trail, and the lemma the clauses. Whether there
    /// was one.
    pub(crate) fn foresee(&mut self) -> Result<bool, AllocError>
        requires { IsQuietState self.old }
        ensures problem { self.new.theories.problem ≡ self.old.theories.problem }
        ensures journal { IsJournal self.new.theories.problem self.new.steps }
        ensures keeps { HasMoreSteps self.old.steps self.new.steps }
        ensures chains { chain_count self.new.steps ≡ chain_count self.old.steps }
        ensures implied { IfOk result (λ some. IsTrue some → HasAdvanced self.old self.new) }
        ensures none { IfOk result (λ some. some ≡ false → IsQuietAfter self.old self.new) }
    {
        self.hand_on();
        let Some(unit) = self.unit_lemma()? else {
            return Ok(false);
        };
        self.join_lemma(unit)?;
        Ok(true)
    }

    /// A lemma that is unit under the literals of the trail, if a theory has one at hand.
    fn unit_lemma(&mut self) -> Result<Option<UnitLemma>, AllocError>
        requires ready { IsReady self.old }
        requires handed { self.old.theories.handed ≡ length self.old.trail.lits }
        ensures same { self.new ≡ self.old }
        ensures lemma { IfOk result (λ found. IfSome found (IsUnitNow self.old)) }
    {
        self.trail.known();
        let problem = self.theories.problem();
        problem.known();
        self.theories.unit_lemma()
    }

    /// A lemma that is unit joins the journal and the clauses, and its literal the trail.
    fn join_lemma(&mut self, unit: UnitLemma) -> Result<(), AllocError>
        requires ready { IsReady self.old }
        requires unit { IsUnitNow self.old unit }
        ensures problem { self.new.theories.problem ≡ self.old.theories.problem }
        ensures journal { IsJournal self.new.theories.problem self.new.steps }
        ensures keeps { HasMoreSteps self.old.steps self.new.steps }
        ensures chains { chain_count self.new.steps ≡ chain_count self.old.steps }
        ensures implied { OnOk result (HasAdvanced self.old self.new) }
    {
        let UnitLemma { lit, lemma } = unit;
        let problem = self.theories.problem();
        problem.known();
        let number = self.journal.push_lemma(problem, lemma)?;
        let lits = self.journal.clause(problem, number);
        self.store.add(number, lits, &self.trail)?;
        let clauses = self.store.len();
        self.theories.count_given(clauses);
        self.trail.imply(lit, Reason::Clause(number));
        self.trail.known();
        Ok(())
    }
}
