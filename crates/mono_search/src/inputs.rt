//! What a search begins with, beside its theories.

ghost use Rattle.std.specs.Prelude.{◌≡◌, IfOk, All, length};
ghost use Rattle.mono_base.specs.Literal.{IsLitWithin};
ghost use Rattle.mono_trail.specs.Order.{all_wait};
ghost use Rattle.mono_trail.specs.TrailView.{no_literals};
ghost use Rattle.mono_search.specs.Runs.{HoldsInputs};
ghost use Rattle.mono_search.specs.Beginnings.{AreInputsOf};

use mono_base::Lit;
use mono_clauses::ClauseStore;
use mono_problem::{Problem, Use};
use mono_trail::{Order, Trail};
use std::alloc::{AllocError, Global};

/// A trail without literals, a store of the problem's clauses, and an order in which every variable waits.
#[derive(Drop)]
pub(crate) struct Inputs {
    pub(crate) trail: Trail,
    pub(crate) store: ClauseStore,
    pub(crate) order: Order,
}

impl Inputs {
    /// Those of the problem.
    pub(crate) fn new(alloc: Global, problem: &Problem) -> Result<Inputs, AllocError>
        ensures { IfOk result (AreInputsOf problem.now) }
    {
        let vars = problem.vars();
        let order = first_order(alloc, problem)?;
        let trail = Trail::new(alloc, vars)?;
        trail.known();
        let store = input_store(alloc, problem, &trail)?;
        Ok(Inputs {
            trail,
            store,
            order,
        })
    }
}

/// An order in which every variable waits. A predicate's variable that no clause names and no edge has comes last: it
/// changes nothing but what the predicate's own theory says.
fn first_order(alloc: Global, problem: &Problem) -> Result<Order, AllocError>
    ensures { IfOk result (λ o. o ≡ all_wait problem.now.vars) }
{
    let named = named_by_clauses(alloc, problem)?;
    let mut order = Order::new(alloc, problem.vars())?;
    hold_back_idle(&mut order, problem, named.as_slice());
    Ok(order)
}

/// Whether a clause names the variable, variable 1 first.
fn named_by_clauses(alloc: Global, problem: &Problem) -> Result<Vec<bool>, AllocError>
    ensures { IfOk result (λ named. length named.items ≡ problem.now.vars) }
{
    let mut named = vec![in alloc; false; problem.vars() as usize]?;
    for place in 0..problem.clause_count() {
        mark(&mut named, problem.clause(place + 1));
    }
    Ok(named)
}

/// The variables of the literals are marked.
fn mark(marks: &mut Vec<bool>, lits: &[Lit])
    requires { All (IsLitWithin (length marks.old.items)) lits.now }
    ensures { length marks.new.items ≡ length marks.old.items }
{
    for lit in lits {
        marks[lit.var() as usize - 1] = true;
    }
}

/// The variables of predicates that no clause names and no edge has are held back.
fn hold_back_idle(order: &mut Order, problem: &Problem, named: &[bool])
    requires vars { length order.old.waits ≡ problem.now.vars }
    requires named { length named.now ≡ problem.now.vars }
    ensures { order.new ≡ order.old }
{
    problem.known();
    for place in 0..problem.atom_count() {
        let var = problem.atom(place + 1).var;
        if !named[var as usize - 1] && !has_edge(problem.uses(var)) {
            order.hold_back(var);
        }
    }
}

/// Whether an edge is among the uses.
fn has_edge(uses: &[Use]) -> bool {
    matches!(uses.first(), Some(Use::Edge { .. }))
}

/// A store of the problem's clauses.
fn input_store(alloc: Global, problem: &Problem, trail: &Trail) -> Result<ClauseStore, AllocError>
    requires { trail.now ≡ no_literals problem.now.vars }
    ensures { IfOk result (HoldsInputs problem.now trail.now) }
{
    let mut store = ClauseStore::new(alloc, problem.vars())?;
    for place in 0..problem.clause_count() {
        store.add(u64::from(place) + 1, problem.clause(place + 1), trail)?;
    }
    Ok(store)
}
