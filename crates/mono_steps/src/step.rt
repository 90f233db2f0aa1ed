//! Chains and steps.

ghost use Rattle.std.specs.Prelude.{◌≡◌, IfOk};
ghost use Rattle.mono_steps.specs.Steps.{clause_of, is_full_chain};

use crate::{Clause, Lemma};
use mono_base::Row;
use std::alloc::AllocError;

/// A clause that follows from earlier ones by resolution.
#[derive(Drop)]
pub struct Chain {
    /// The clause that follows.
    pub clause: Clause,
    /// The numbers of the clauses that are resolved one after the other: those of the problem are numbered from 1, and
    /// the steps go on from there.
    pub used: Row<u64>,
}

impl Chain {
    /// An equal chain.
    pub fn copy(&self) -> Result<Chain, AllocError>
        ensures { IfOk result (λ chain. chain ≡ self.now) }
    {
        let clause = self.clause.copy()?;
        let used = Vec::from_slice(clause.allocator(), self.used.as_slice())?;
        Ok(Chain {
            clause,
            used: Row::from_vec(used),
        })
    }
}

/// A step of a refutation.
#[derive(Drop)]
pub enum Step {
    /// The clause follows from what a predicate says of its graph.
    Lemma(Lemma),
    /// The clause follows from earlier ones by resolution.
    Chain(Chain),
}

impl Step {
    /// The step's clause.
    pub fn clause(&self) -> &Clause
        ensures { result.now ≡ clause_of self.now }
    {
        match self {
            Step::Lemma(lemma) => &lemma.clause,
            Step::Chain(chain) => &chain.clause,
        }
    }

    /// An equal step.
    pub fn copy(&self) -> Result<Step, AllocError>
        ensures { IfOk result (λ step. step ≡ self.now) }
    {
        match self {
            Step::Lemma(lemma) => Ok(Step::Lemma(lemma.copy()?)),
            Step::Chain(chain) => Ok(Step::Chain(chain.copy()?)),
        }
    }

    /// Whether it is a chain whose clause isn't empty.
    pub(crate) fn is_full_chain(&self) -> bool
        ensures { result ≡ is_full_chain self.now }
    {
        match self {
            Step::Lemma(_) => false,
            Step::Chain(chain) => !chain.clause.lits().is_empty(),
        }
    }
}
