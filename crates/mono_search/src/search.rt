//! The search, as its callers see it.

ghost use Rattle.std.specs.Prelude.{◌≡◌, ◌≤◌, ◌+◌, max, true, false, [], replicate, All, IfOk, IsTrue};
ghost use Rattle.mono_base.specs.Literal.{IsLitWithin};
ghost use Rattle.mono_steps.specs.Steps.{are_justified};
ghost use Rattle.mono_steps.specs.Journals.{chain_count};
ghost use Rattle.mono_steps.specs.New.{HasNewChains};
ghost use Rattle.mono_theory.specs.Owners.{facts_of, OwnsEach};
ghost use Rattle.mono_search.specs.Outcomes.{EndsAs, HasMoreSteps, beyond_budget, is_unknown as is_unknown_outcome, stays_live};
ghost use Rattle.mono_search.specs.Runs.{saved};

use crate::restarts::Restarts;
use crate::state::State;
use mono_base::{Lit, Row};
use mono_problem::Problem;
use mono_steps::Journal;
use mono_theory::Theory;
use std::alloc::{AllocError, Global};
use std::marker::Model;

/// How a run ends.
#[derive(Drop)]
pub enum Outcome {
    /// These values of the variables, variable 1 first, satisfy the problem.
    Sat(Row<bool>),
    /// No values do: the journal is a refutation.
    Unsat,
    /// The budget was spent.
    Unknown,
}

/// A search for values of a problem's variables, over the theories that own its atoms.
///
/// Contracts see the problem, the steps of the journal, whether the search may be run, and the signs of decisions. No learned
/// clause is forgotten.
#[derive(Drop)]
pub struct Search<'p, T: Theory> {
    alloc: Global,
    state: State<'p, T>,
    restarts: Restarts,
    live: bool,
}

impl<'p, T: Theory> Model for Search<'p, T> {
    ghost use Rattle.mono_search.specs.Search.{SearchView, IsSearch};

    ghost Value = { SearchView };

    ghost view = { λ s. record { problem = s.state.theories.problem; steps = s.state.steps; live = s.live; signs = s.state.order.phases } };

    ghost invariant = { λ s. IsSearch s.state s.restarts s.live };
}

impl<'p, T: Theory> Search<'p, T> {
    /// A search that is live, and whose journal is empty.
    ///
    /// The theories own each atom exactly once, their graphs are the problem's, and they have seen nothing. On want of
    /// memory they are dropped.
    pub fn new(
        alloc: Global,
        problem: &'p Problem,
        theories: Vec<T>,
    ) -> Result<Search<'p, T>, AllocError>
        requires owns { OwnsEach problem.now (facts_of T.graph T.atoms T.seen theories.items) }
        requires unseen { All (λ f. f.seen ≡ []) (facts_of T.graph T.atoms T.seen theories.items) }
        ensures { IfOk result (λ s. s ≡ record { problem = problem.now; steps = []; live = true; signs = replicate problem.now.vars false }) }
    {
        let state = State::new(alloc, problem, theories)?;
        Ok(Search {
            alloc,
            state,
            restarts: Restarts::new(),
            live: true,
        })
    }

    /// Whether the search may be run: false exactly after Sat, after Unsat and after want of memory in `run`.
    pub fn is_live(&self) -> bool
        ensures { result ≡ self.now.live }
    {
        self.live
    }

    /// Searches until there is an answer, or a conflict comes when as many clauses were learned as the budget says.
    ///
    /// Learned clauses count from the search's beginning. After `Unknown` it may be run again, with any budget of at least
    /// 1. The steps made before stay. The steps of the journal stay justified, and its chains new, also after want of memory.
    /// Whatever the answer, there are then no more learned clauses than the budget says, or than before where these were more;
    /// after `Unsat` the empty clause comes beside them.
    pub fn run(&mut self, budget: u64) -> Result<Outcome, AllocError>
        requires live { IsTrue self.old.live }
        requires budget { 1 ≤ budget }
        ensures problem { self.new.problem ≡ self.old.problem }
        ensures ends { IfOk result (EndsAs budget (chain_count self.old.steps) self.new.problem self.new.steps) }
        ensures keeps { HasMoreSteps self.old.steps self.new.steps }
        ensures within { chain_count self.new.steps ≤ max budget (chain_count self.old.steps) + beyond_budget result }
        ensures live { self.new.live ≡ stays_live result }
        ensures justified { IsTrue (are_justified self.new.problem self.new.steps) }
        ensures fresh { HasNewChains self.new.problem self.new.steps }
    {
        self.live = false;
        let outcome = self.state.run(self.alloc, &mut self.restarts, budget)?;
        self.live = is_unknown(&outcome);
        Ok(outcome)
    }

    /// The steps made so far.
    pub fn journal(&self) -> &Journal
        ensures steps { result.now ≡ self.now.steps }
        ensures justified { IsTrue (are_justified self.now.problem self.now.steps) }
        ensures fresh { HasNewChains self.now.problem self.now.steps }
    {
        self.state.journal()
    }

    /// The literals' signs are saved, of two signs of one variable the later one; all else stays. A decision takes the sign that
    /// is saved for its variable, unless a theory prefers true, until the variable gets a value or the search begins anew: that
    /// is how it searches, and no promise.
    pub fn prefer(&mut self, lits: &[Lit])
        requires live { IsTrue self.old.live }
        requires within { All (IsLitWithin self.old.problem.vars) lits.now }
        ensures { self.new ≡ record self.old { signs = saved self.old.signs lits.now } }
    {
        self.state.prefer(lits);
    }

    /// The steps made, without a copy of them.
    pub fn into_journal(self) -> Journal
        ensures steps { result ≡ self.entry.steps }
        ensures justified { IsTrue (are_justified self.entry.problem self.entry.steps) }
        ensures fresh { HasNewChains self.entry.problem self.entry.steps }
    {
        self.state.into_journal()
    }
}

fn is_unknown(outcome: &Outcome) -> bool
    ensures { result ≡ is_unknown_outcome outcome.now }
{
    match outcome {
        Outcome::Sat(_) => false,
        Outcome::Unsat => false,
        Outcome::Unknown => true,
    }
}
