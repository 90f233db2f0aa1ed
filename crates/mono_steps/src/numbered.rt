//! Clauses by their numbers, first those of a problem, from 1, and then those of the steps before; predicates by theirs.

ghost use Rattle.std.specs.Prelude.{◌≡◌, ◌<◌, ◌≤◌, ◌++◌, ◌+◌, All, IfSome, IsTrue, Some, length};
ghost use Rattle.mono_problem.specs.Instance.{graph_at, numbered};
ghost use Rattle.mono_base.specs.Literal.{IsLitWithin};
ghost use Rattle.mono_problem.specs.WellFormed.{IsOver};
ghost use Rattle.mono_steps.specs.ChainSteps.{names_vars as are_vars, names_clauses as are_clauses};

use crate::Clause;
use mono_base::Lit;
use mono_problem::{Atom, Problem};

/// The literals of the clause of a number.
pub(crate) fn clause_at<'a>(problem: &'a Problem, earlier: &'a [Clause], number: u64) -> &'a [Lit]
    requires known { All (All (IsLitWithin problem.now.vars)) earlier.now }
    requires low { 1 ≤ number }
    requires high { number ≤ length (problem.now.clauses ++ earlier.now) }
    ensures clause { numbered (problem.now.clauses ++ earlier.now) number ≡ Some result.now }
    ensures within { All (IsLitWithin problem.now.vars) result.now }
{
    let count = u64::from(problem.clause_count());
    if number <= count {
        problem.clause(number as u32)
    } else {
        earlier[(number - count - 1) as usize].lits()
    }
}

/// Whether each literal is over the problem's variables.
pub(crate) fn names_vars(problem: &Problem, lits: &[Lit]) -> bool
    ensures { result ≡ are_vars problem.now lits.now }
{
    let vars = problem.vars();
    lits.iter().all(|lit| 1 <= lit.var() && lit.var() <= vars)
}

fn clause_count(problem: &Problem, earlier: &[Clause]) -> u64
    ensures { result ≡ length (problem.now.clauses ++ earlier.now) }
{
    u64::from(problem.clause_count()) + earlier.len() as u64
}

/// Whether each number is that of a clause.
pub(crate) fn names_clauses(problem: &Problem, earlier: &[Clause], used: &[u64]) -> bool
    ensures { result ≡ are_clauses (problem.now.clauses ++ earlier.now) used.now }
{
    let count = clause_count(problem, earlier);
    used.iter().all(|number| 1 <= *number && *number <= count)
}

/// The predicate of a number: `None` exactly where no predicate has it.
pub(crate) fn atom_at(problem: &Problem, number: u32) -> Option<Atom>
    ensures atom { result ≡ numbered problem.now.atoms number }
    ensures graph { IfSome result (λ x. x.graph < length problem.now.graphs) }
    ensures over { IfSome result (λ x. IsOver (graph_at problem.now x.graph) x.predicate) }
    ensures low { IfSome result (λ x. 0 < x.var) }
    ensures high { IfSome result (λ x. x.var ≤ problem.now.vars) }
{
    problem.known();
    if number == 0 || number > problem.atom_count() {
        None
    } else {
        Some(problem.atom(number))
    }
}
