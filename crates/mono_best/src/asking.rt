//! Problems that ask for a bound.

ghost use Rattle.std.specs.Prelude.{◌≡◌, ◌↔◌, IfOk, IsTrue};
ghost use Rattle.mono_best.specs.Asking.{asking, predicate_of, HasBoundedAtom, HasRoomToAsk};
ghost use Rattle.mono_best.specs.Bounds.{IsBoundOf};

use crate::bounds::{has_bound, is_flow, with_bound};
use mono_base::Lit;
use mono_base::limits::{MAX_ATOMS, MAX_BOUND, MAX_CLAUSES, MAX_LITERALS, MAX_VARS};
use mono_problem::{Draft, Problem};
use std::alloc::AllocError;

/// Whether the problem has a predicate of this number, on steps, a distance, a flow or a tree.
pub fn has_bounded_atom(problem: &Problem, atom: u32) -> bool
    ensures { IsTrue result ↔ HasBoundedAtom problem.now atom }
{
    if atom == 0 || problem.atom_count() < atom {
        return false;
    }
    has_bound(problem.atom(atom).predicate)
}

/// Whether the predicate may be asked with this bound: from 0 to 2^53 + 1 of a flow, else from -1 to 2^53.
pub fn is_bound_of(problem: &Problem, atom: u32, bound: i64) -> bool
    requires atom { HasBoundedAtom problem.now atom }
    ensures { IsTrue result ↔ IsBoundOf (predicate_of problem.now atom) bound }
{
    let most = MAX_BOUND as i64;
    if is_flow(problem.atom(atom).predicate) {
        0 <= bound && bound <= most + 1
    } else {
        -1 <= bound && bound <= most
    }
}

/// Whether the limits leave room for one more variable, predicate and clause of one literal.
pub fn has_room_to_ask(problem: &Problem) -> bool
    ensures { IsTrue result ↔ HasRoomToAsk problem.now }
{
    problem.vars() < MAX_VARS
        && problem.atom_count() < MAX_ATOMS
        && problem.clause_count() < MAX_CLAUSES
        && problem.literal_count() < MAX_LITERALS
}

/// The problem that asks for this bound of the predicate of this number: it has the predicate once more, with the bound and
/// a new variable, and one more clause, by which that variable is true.
pub fn ask(problem: &Problem, atom: u32, bound: i64) -> Result<Problem, AllocError>
    requires atom { HasBoundedAtom problem.now atom }
    requires bound { IsBoundOf (predicate_of problem.now atom) bound }
    requires room { HasRoomToAsk problem.now }
    ensures { IfOk result (λ asked. asked ≡ asking problem.now atom bound) }
{
    let var = problem.vars() + 1;
    let asked = problem.atom(atom);
    let mut draft = Draft::of_problem(problem)?;
    draft.add_atom(asked.graph, var, with_bound(asked.predicate, bound))?;
    let lit = Lit::of(var, true);
    draft.add_clause(&[lit])?;
    draft.finish()
}
