//! The literals of a clause that are not false.

ghost use Rattle.std.specs.Prelude.{◌≡◌, ◌≢◌, ◌≤◌, ◌<◌, ◌↔◌, length, IsTrue, IfSome, IfNone, ℤ};
ghost use Rattle.mono_base.specs.Literal.{IsLitWithin};
ghost use Rattle.mono_base.specs.Partial.{value_by};
ghost use Rattle.mono_clauses.specs.ClauseValues.{AllVars, AllFalse, FalseBut, IsUnfalse, IsAnotherUnfalse};
ghost use Rattle.mono_base.specs.declared.value.Value.TheVariants.{No};
ghost use Rattle.mono_clauses.specs.Lists.{Stands};
ghost use Rattle.mono_clauses.specs.Store.{clause_at};

use crate::clauses::Clauses;
use mono_base::{Lit, Value};
use mono_trail::Trail;

/// The first literal of the clause that is not false.
pub fn first_unfalse(clause: &[Lit], trail: &Trail) -> Option<Lit>
    requires { AllVars trail.now.vars clause.now }
    ensures none { IfNone result (AllFalse trail.now.lits clause.now) }
    ensures some { IfSome result (IsUnfalse trail.now.lits clause.now) }
{
    for lit in clause {
        if !is_false(trail, *lit) {
            return Some(*lit);
        }
    }
    None
}

/// The first literal of the clause that is not false and is another one.
pub fn another_unfalse(clause: &[Lit], trail: &Trail, skip: Lit) -> Option<Lit>
    requires { AllVars trail.now.vars clause.now }
    ensures none { IfNone result (FalseBut trail.now.lits clause.now skip) }
    ensures some { IfSome result (IsAnotherUnfalse trail.now.lits clause.now skip) }
{
    for lit in clause {
        if lit.number() != skip.number() && !is_false(trail, *lit) {
            return Some(*lit);
        }
    }
    None
}

/// Whether a literal is false.
fn is_false(trail: &Trail, lit: Lit) -> bool
    requires { IsLitWithin trail.now.vars lit }
    ensures { IsTrue result ↔ (value_by trail.now.lits lit ≡ No) }
{
    matches!(trail.value(lit), Value::No)
}

/// A literal of the clause at a place that is not false and is another than `mate`, where `lit` is one that is false.
pub fn next_watch(
    clauses: &Clauses,
    trail: &Trail,
    place: usize,
    mate: Lit,
    lit: Lit,
) -> Option<Lit>
    requires vars { clauses.now.vars ≡ trail.now.vars }
    requires in_range { place < length clauses.now.list }
    requires has_mate { Stands (clause_at clauses.now.list place).lits mate }
    requires has_lit { Stands (clause_at clauses.now.list place).lits lit }
    requires differ { lit ≢ mate }
    requires falsified { value_by trail.now.lits lit ≡ No }
    ensures none { IfNone result (FalseBut trail.now.lits (clause_at clauses.now.list place).lits mate) }
    ensures some { IfSome result (IsAnotherUnfalse trail.now.lits (clause_at clauses.now.list place).lits mate) }
{
    clauses.known();
    let head = clauses.head(place);
    if head.len == 2 {
        return None;
    }
    if head.cached.number() != mate.number() {
        if !is_false(trail, head.cached) {
            return Some(head.cached);
        }
        if head.len == 3 && head.cached.number() != lit.number() {
            return None;
        }
    }
    another_unfalse(clauses.literals(place), trail, mate)
}
