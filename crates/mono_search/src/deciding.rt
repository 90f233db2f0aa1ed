//! Decisions, and the model when there is nothing left to decide.

ghost use Rattle.std.specs.Prelude.{◌≡◌, ◌↔◌, ◌<◌, ℕ, pos, length, false, IfOk, IfSome, OnSome, IsTrue};
ghost use Rattle.mono_base.specs.Literal.{value_in};
ghost use Rattle.mono_base.specs.Partial.{is_open_in, is_true_in};
ghost use Rattle.mono_trail.specs.Moves.{IsVar};
ghost use Rattle.mono_search.specs.Outcomes.{HasModel};
ghost use Rattle.mono_search.specs.Runs.{IsQuietState, HasAdvanced, DecidesBySign, IsComplete};

use crate::state::State;
use mono_base::{Lit, Row, Value};
use mono_theory::Theory;
use mono_trail::Trail;
use std::alloc::{AllocError, Global};

/// For so many steps a search follows what theories prefer, then for as many it doesn't, and so on, but for its probes.
const STEPS_IN_TURN: usize = 512;

/// Whether a search that has made so many steps follows what theories prefer, outside its probes. Some problems are solved within few steps by
/// that alone, and others only without it, so neither is kept up for long.
fn follows_theories(steps: usize) -> bool {
    steps / STEPS_IN_TURN % 2 == 0
}

/// The variable, if there is one of that number and it has no value.
fn open_var(trail: &Trail, var: u32) -> Option<u32>
    ensures { IfSome result (λ v. IsVar trail.now.vars v × IsTrue (is_open_in trail.now.lits (pos v))) }
{
    if var == 0 || var > trail.vars() {
        return None;
    }
    match trail.place_of(var) {
        Some(_) => None,
        None => Some(var),
    }
}

impl<'p, T: Theory> State<'p, T> {
    /// An open variable is decided: true where a theory wants that and the search follows it first, where the sign saved for it
    /// is, or where a theory prefers that and the search follows it. False exactly where no variable is open.
    pub(crate) fn decide(&mut self) -> bool
        requires { IsQuietState self.old }
        ensures problem { self.new.theories.problem ≡ self.old.theories.problem }
        ensures steps { self.new.steps ≡ self.old.steps }
        ensures decided { IsTrue result → HasAdvanced self.old self.new }
        ensures signed { IsTrue result → DecidesBySign self.old self.new }
        ensures complete { result ≡ false → IsComplete self.new }
    {
        match self.wanted() {
            Some(var) => {
                self.decide_wanted(var);
                true
            }
            None => self.decide_next(),
        }
    }

    /// An open variable that a theory would have decided true next, where the search follows that first.
    fn wanted(&self) -> Option<u32>
        ensures open { IfSome result (λ v. IsVar self.now.trail.vars v × IsTrue (is_open_in self.now.trail.lits (pos v))) }
        ensures theories { OnSome result (0 < length self.now.theories.facts) }
    {
        let last_first = self.memory.leads()?;
        let var = self.theories.wanted(last_first)?;
        open_var(&self.trail, var)
    }

    /// An open variable is decided true.
    fn decide_wanted(&mut self, var: u32)
        requires quiet { IsQuietState self.old }
        requires var { IsVar self.old.trail.vars var }
        requires open { IsTrue (is_open_in self.old.trail.lits (pos var)) }
        requires theories { 0 < length self.old.theories.facts }
        ensures problem { self.new.theories.problem ≡ self.old.theories.problem }
        ensures steps { self.new.steps ≡ self.old.steps }
        ensures decided { HasAdvanced self.old self.new }
        ensures signed { DecidesBySign self.old self.new }
    {
        self.trail.known();
        let lit = Lit::of(var, true);
        self.trail.decide(lit);
        self.trail.known();
    }

    /// The open variable that comes first in the order is decided by its sign. False exactly where no variable is open.
    fn decide_next(&mut self) -> bool
        requires { IsQuietState self.old }
        ensures problem { self.new.theories.problem ≡ self.old.theories.problem }
        ensures steps { self.new.steps ≡ self.old.steps }
        ensures decided { IsTrue result → HasAdvanced self.old self.new }
        ensures signed { IsTrue result → DecidesBySign self.old self.new }
        ensures complete { result ≡ false → IsComplete self.new }
    {
        self.trail.known();
        let Some(var) = self.order.pick(&self.trail) else {
            return false;
        };
        let lit = Lit::of(var, self.sign_of(var));
        self.trail.decide(lit);
        self.trail.known();
        true
    }

    /// The sign by which the variable is decided: true where the sign saved for it is, or where a theory prefers that and the
    /// search follows it.
    fn sign_of(&self, var: u32) -> bool
        requires ordered { IsVar (length self.now.order.waits) var }
        requires known { IsVar self.now.theories.problem.vars var }
        ensures saved { IsTrue (value_in self.now.order.phases var) → IsTrue result }
        ensures by_theory { IsTrue result → value_in self.now.order.phases var ≡ false → 0 < length self.now.theories.facts }
    {
        self.order.phase(var) || self.is_preferred(var)
    }

    /// Whether a theory prefers the variable to be true, and the search follows that now.
    fn is_preferred(&self, var: u32) -> bool
        requires { IsVar self.now.theories.problem.vars var }
        ensures { IsTrue result → 0 < length self.now.theories.facts }
    {
        let main = follows_theories(self.journal.steps().len());
        self.memory.follows(main) && self.theories.prefers(var)
    }

    /// The values of the variables, where each has one and nothing is left to do.
    pub(crate) fn model(&self, alloc: Global) -> Result<Row<bool>, AllocError>
        requires { IsComplete self.now }
        ensures { IfOk result (HasModel self.now.theories.problem) }
    {
        let problem = self.theories.problem();
        problem.known();
        values_of(alloc, &self.trail)
    }
}

/// Whether each variable is true, variable 1 first.
fn values_of(alloc: Global, trail: &Trail) -> Result<Row<bool>, AllocError>
    ensures len { IfOk result (λ values. length values ≡ trail.now.vars) }
    ensures values { IfOk result (λ values. (v : ℕ) → IsVar trail.now.vars v → value_in values v ≡ is_true_in trail.now.lits (pos v)) }
{
    trail.known();
    let mut values = Vec::new(alloc);
    for place in 0..trail.vars() {
        let value = trail.value(Lit::of(place + 1, true));
        values.push(is_yes(value))?;
    }
    Ok(Row::from_vec(values))
}

fn is_yes(value: Value) -> bool
    ensures { IsTrue result ↔ (value ≡ Value.Yes) }
{
    match value {
        Value::Yes => true,
        Value::No => false,
        Value::Unset => false,
    }
}
