//! The steps that a search made.

ghost use Rattle.std.specs.Prelude.{◌≡◌, ◌+◌, ◌<◌, ◌≤◌, ◌++◌, ◌∷◌, [], length, count_by, Some, IfOk, OnOk, OnErr, IsTrue};
ghost use Rattle.mono_steps.specs.Steps.{clauses_after, is_justified_step, are_justified, is_refutation, is_full_chain};
ghost use Rattle.mono_steps.specs.declared.step.Step.TheVariants as step;
ghost use Rattle.mono_problem.specs.Instance.{numbered};

use crate::trimming::trimmed;
use crate::{Chain, Lemma, Step};
use mono_base::Lit;
use mono_problem::Problem;
use std::alloc::{AllocError, Global};
use std::marker::Model;

/// The steps made so far, each justified by the clauses of its problem and the steps before it.
#[derive(Drop)]
pub struct Journal {
    steps: Vec<Step>,
    chains: u64,
}

impl Model for Journal {
    ghost use Rattle.std.specs.Prelude.{List, count_by, ◌≡◌};
    ghost use Rattle.mono_steps.specs.Steps.{is_full_chain};
    ghost use Rattle.mono_steps.specs.declared.step.Step.{Step};

    ghost Value = { List Step };

    ghost view = { λ j. j.steps.items };

    ghost invariant = { λ j. j.chains ≡ count_by is_full_chain j.steps.items };
}

impl Journal {
    ghost use Rattle.mono_steps.specs.Trimmed.{IsTrimmed};

    /// No steps.
    pub fn new(alloc: Global) -> Journal
        ensures { result ≡ [] }
    {
        Journal {
            steps: Vec::new(alloc),
            chains: 0,
        }
    }

    /// The steps, in order.
    pub fn steps(&self) -> &[Step]
        ensures { result.now ≡ self.now }
    {
        self.steps.as_slice()
    }

    /// The steps, in order, without a copy of them.
    pub fn into_steps(self) -> Vec<Step>
        ensures { result.items ≡ self }
    {
        self.steps
    }

    /// How many chains there are whose clause isn't empty.
    pub fn chains(&self) -> u64
        ensures { result ≡ count_by is_full_chain self.now }
    {
        self.chains
    }

    /// The clause of a number: a clause of the problem, or that of a step.
    pub fn clause<'a>(&'a self, problem: &'a Problem, number: u64) -> &'a [Lit]
        requires low { 1 ≤ number }
        requires high { number ≤ length (clauses_after problem.now self.now) }
        ensures { numbered (clauses_after problem.now self.now) number ≡ Some result.now }
    {
        let count = u64::from(problem.clause_count());
        if number <= count {
            problem.clause(number as u32)
        } else {
            self.steps[(number - count - 1) as usize].clause().lits()
        }
    }

    /// A lemma joins, and this is its number.
    pub fn push_lemma(&mut self, problem: &Problem, lemma: Lemma) -> Result<u64, AllocError>
        requires { IsTrue (is_justified_step problem.now (clauses_after problem.now self.old) (step.Lemma lemma)) }
        ensures number { IfOk result (λ n. n ≡ length (clauses_after problem.now self.new)) }
        ensures ok { OnOk result (self.new ≡ self.old ++ step.Lemma lemma ∷ []) }
        ensures keeps { OnOk result (IsTrue (are_justified problem.now self.old) → IsTrue (are_justified problem.now self.new)) }
        ensures err { OnErr result (self.new ≡ self.old) }
    {
        self.push(problem, Step::Lemma(lemma))
    }

    /// A chain joins, and this is its number.
    pub fn push_chain(&mut self, problem: &Problem, chain: Chain) -> Result<u64, AllocError>
        requires { IsTrue (is_justified_step problem.now (clauses_after problem.now self.old) (step.Chain chain)) }
        ensures number { IfOk result (λ n. n ≡ length (clauses_after problem.now self.new)) }
        ensures ok { OnOk result (self.new ≡ self.old ++ step.Chain chain ∷ []) }
        ensures keeps { OnOk result (IsTrue (are_justified problem.now self.old) → IsTrue (are_justified problem.now self.new)) }
        ensures err { OnErr result (self.new ≡ self.old) }
    {
        self.push(problem, Step::Chain(chain))
    }

    /// The steps that the last one rests on, in order, renumbered. Each is justified, and each but the last is named by a
    /// later one.
    pub fn trim(&self, problem: &Problem) -> Result<Vec<Step>, AllocError>
        requires { IsTrue (is_refutation problem.now self.now) }
        ensures { IfOk result (λ steps. IsTrimmed problem.now self.now steps.items) }
    {
        trimmed(*self.steps.allocator(), problem, self.steps.as_slice())
    }

    fn push(&mut self, problem: &Problem, step: Step) -> Result<u64, AllocError>
        requires { IsTrue (is_justified_step problem.now (clauses_after problem.now self.old) step) }
        ensures number { IfOk result (λ n. n ≡ length (clauses_after problem.now self.new)) }
        ensures ok { OnOk result (self.new ≡ self.old ++ step ∷ []) }
        ensures keeps { OnOk result (IsTrue (are_justified problem.now self.old) → IsTrue (are_justified problem.now self.new)) }
        ensures err { OnErr result (self.new ≡ self.old) }
    {
        let full = u64::from(step.is_full_chain());
        self.steps.push(step)?;
        self.chains += full;
        Ok(u64::from(problem.clause_count()) + self.steps.len() as u64)
    }
}
