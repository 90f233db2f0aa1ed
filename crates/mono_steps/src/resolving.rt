//! Resolution on a set of literals.
//!
//! The set is the clause that a chain has come to. A step looks at the literals of the next clause alone, so a chain
//! costs what the clauses that it names have in literals, however large the set has grown.

ghost use Rattle.std.specs.Prelude.{◌≡◌, ◌≤◌, ◌++◌, ◌||◌, ◌==◌, ℤ, pos, neg_ℤ, nat_abs, not, find, option_map, [], All, IfSome};
ghost use Rattle.std.specs.List.{list_all};
ghost use Rattle.mono_base.specs.Literal.{has_lit, var_of, without, within, IsLitWithin};
ghost use Rattle.mono_steps.specs.Chains.{clashing, only_var, resolvent};
ghost use Rattle.mono_steps.specs.Current.{HasCome, IsSetOf};

use mono_base::{Lit, LitSet};

fn has_opposite(set: &LitSet, lit: Lit) -> bool
    requires { var_of lit ≤ set.now.vars }
    ensures { result ≡ has_lit set.now.members (neg_ℤ lit) }
{
    set.has(lit.negated())
}

fn positive(lit: Lit) -> Lit
    ensures { result ≡ pos (nat_abs lit) }
{
    if lit.is_positive() {
        lit
    } else {
        lit.negated()
    }
}

fn first_clash(set: &LitSet, next: &[Lit]) -> Option<Lit>
    requires { All (IsLitWithin set.now.vars) next.now }
    ensures value { result ≡ find (λ l. has_lit set.now.members (neg_ℤ l)) next.now }
    ensures within { IfSome result (λ l. var_of l ≤ set.now.vars) }
{
    next.iter().copied().find(|lit| has_opposite(set, *lit))
}

fn contains(clause: &[Lit], lit: Lit) -> bool
    ensures { result ≡ has_lit clause.now lit }
{
    clause.iter().any(|other| lit == *other)
}

fn clashes_only_in(set: &LitSet, next: &[Lit], var: u32) -> bool
    requires { All (IsLitWithin set.now.vars) next.now }
    ensures { result ≡ list_all (λ l. not (has_lit set.now.members (neg_ℤ l)) || var_of l == var) next.now }
{
    next.iter()
        .all(|lit| !has_opposite(set, *lit) || lit.var() == var)
}

/// The positive literal of the variable that clashes, where exactly one does.
fn clash(set: &LitSet, next: &[Lit]) -> Option<Lit>
    requires { All (IsLitWithin set.now.vars) next.now }
    ensures value { result ≡ option_map pos (only_var (clashing set.now.members next.now)) }
    ensures within { IfSome result (λ l. var_of l ≤ set.now.vars) }
{
    match first_clash(set, next) {
        None => None,
        Some(lit) => {
            if clashes_only_in(set, next, lit.var()) {
                Some(positive(lit))
            } else {
                None
            }
        }
    }
}

/// Takes one literal out of the set, and puts all literals of a clause but one into it.
fn join(set: &mut LitSet, next: &[Lit], out: Lit, other: Lit)
    requires within { All (IsLitWithin set.old.vars) next.now }
    requires out { var_of out ≤ set.old.vars }
    ensures vars { set.new.vars ≡ set.old.vars }
    ensures has { IsSetOf set.new.members (without set.old.members out ++ without next.now other) }
{
    set.remove(out);
    for lit in next {
        if *lit != other {
            set.insert(*lit);
        }
    }
}

/// Puts the resolvent of the set and the next clause into the set's place, where exactly one variable clashes.
pub(crate) fn resolve(set: &mut LitSet, next: &[Lit]) -> bool
    requires { All (IsLitWithin set.old.vars) next.now }
    ensures vars { set.new.vars ≡ set.old.vars }
    ensures come { HasCome (resolvent set.old.members next.now) result set.new.members }
{
    match clash(set, next) {
        None => false,
        Some(var) => {
            if set.has(var) && contains(next, var.negated()) {
                join(set, next, var, var.negated());
            } else {
                join(set, next, var.negated(), var);
            }
            true
        }
    }
}

/// Puts the literals of a clause into an empty set.
pub(crate) fn fill(set: &mut LitSet, clause: &[Lit])
    requires within { All (IsLitWithin set.old.vars) clause.now }
    requires empty { set.old.members ≡ [] }
    ensures vars { set.new.vars ≡ set.old.vars }
    ensures has { IsSetOf set.new.members clause.now }
{
    for lit in clause {
        set.insert(*lit);
    }
}

/// Whether each member of the set is in the clause. What is left of the set are the members that aren't.
pub(crate) fn is_within(set: &mut LitSet, clause: &[Lit]) -> bool
    requires { All (IsLitWithin set.old.vars) clause.now }
    ensures vars { set.new.vars ≡ set.old.vars }
    ensures within { result ≡ within set.old.members clause.now }
{
    for lit in clause {
        set.remove(*lit);
    }
    set.members().is_empty()
}
