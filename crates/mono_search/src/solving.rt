//! A problem solved by one search, over theories that a maker makes.

ghost use Rattle.std.specs.Prelude.{◌≡◌, ◌<◌, ◌≤◌, ◌^◌, ℕ, [], IfOk, IsTrue, All, length};
ghost use Rattle.mono_base.specs.Literal.{IsLitWithin};
ghost use Rattle.mono_steps.specs.Steps.{is_refutation};
ghost use Rattle.mono_theory.specs.Owners.{facts_of};
ghost use Rattle.mono_search.specs.Solving.{MakesTheories, IsSolved};

use crate::search::{Outcome, Search};
use mono_base::{Lit, Row};
use mono_problem::Problem;
use mono_steps::{Journal, Step};
use mono_theory::Theory;
use std::alloc::{AllocError, Global};

/// What a search comes to.
#[derive(Drop)]
pub enum Solved {
    /// These values of the variables, variable 1 first, satisfy the problem.
    Model(Row<bool>),
    /// No values do. The refutation has the steps that its last one rests on.
    Refutation(Row<Step>),
    /// The budget was spent: all steps.
    Progress(Row<Step>),
}

/// Solves the problem by a search that may learn so many clauses, over the theories that the maker makes for it.
pub fn solve<T: Theory, F: Fn(&Problem) -> Result<Vec<T>, AllocError>>(
    alloc: Global,
    problem: &Problem,
    make: &F,
    budget: u64,
) -> Result<Solved, AllocError>
    requires callable { F.IsAlwaysCallable make.now }
    requires makes { MakesTheories (F.post make.now) (λ ts. facts_of T.graph T.atoms T.seen ts.items) }
    requires budget { 1 ≤ budget }
    ensures { IfOk result (IsSolved problem.now budget) }
{
    let solved = solve_preferring(alloc, problem, make, &[], budget)?;
    Ok(solved)
}

/// Solves the problem so, by a search that prefers the literals' signs at first. No answer rests on them, and no clause says what
/// comes of them.
pub fn solve_preferring<T: Theory, F: Fn(&Problem) -> Result<Vec<T>, AllocError>>(
    alloc: Global,
    problem: &Problem,
    make: &F,
    signs: &[Lit],
    budget: u64,
) -> Result<Solved, AllocError>
    requires callable { F.IsAlwaysCallable make.now }
    requires makes { MakesTheories (F.post make.now) (λ ts. facts_of T.graph T.atoms T.seen ts.items) }
    requires signs { All (IsLitWithin problem.now.vars) signs.now }
    requires budget { 1 ≤ budget }
    ensures { IfOk result (IsSolved problem.now budget) }
{
    let theories = make(problem)?;
    let mut search = Search::new(alloc, problem, theories)?;
    search.prefer(signs);
    solved_by(problem, search, budget)
}

/// What a new search comes to. It gives its journal away, so progress is no copy of the steps.
fn solved_by<T: Theory>(
    problem: &Problem,
    mut search: Search<'_, T>,
    budget: u64,
) -> Result<Solved, AllocError>
    requires budget { 1 ≤ budget }
    requires live { IsTrue search.live }
    requires problem { search.problem ≡ problem.now }
    requires steps { search.steps ≡ [] }
    ensures { IfOk result (IsSolved problem.now budget) }
{
    let outcome = search.run(budget)?;
    let journal = search.into_journal();
    match outcome {
        Outcome::Sat(values) => Ok(Solved::Model(values)),
        Outcome::Unsat => refutation(problem, &journal),
        Outcome::Unknown => Ok(Solved::Progress(few_steps(journal))),
    }
}

/// The steps of a journal, without a copy of them. They are no more than a list in memory has.
fn few_steps(journal: Journal) -> Row<Step>
    ensures same { result ≡ journal }
    ensures short { length result < 2 ^ 63 }
{
    Row::from_vec(journal.into_steps())
}

/// The steps of a refutation, without those that its last one doesn't rest on.
fn refutation(problem: &Problem, journal: &Journal) -> Result<Solved, AllocError>
    requires { IsTrue (is_refutation problem.now journal.now) }
    ensures { (budget : ℕ) → IfOk result (IsSolved problem.now budget) }
{
    let steps = journal.trim(problem)?;
    Ok(Solved::Refutation(Row::from_vec(steps)))
}
