//! Literals (DIMACS CNF): `x` says that variable x is true, `-x` that it is false.

ghost use Rattle.std.specs.Prelude.{◌≡◌, ◌<◌, ◌≤◌, ◌↔◌, if◌then◌else◌, ℤ, pos, neg_ℤ, nat_abs, int_lt, IsSome, IfSome};
ghost use Rattle.mono_base.specs.Literal.{slot};

use crate::limits::MAX_VARS;
use std::marker::Model;

/// A literal: the number of its variable, from 1 to 1,000,000, or that number's negative.
///
/// Contracts see it as that whole number.
#[derive(Clone, Copy, Debug, PartialEq, Eq)]
pub struct Lit {
    number: i32,
}

impl Model for Lit {
    ghost use Rattle.std.specs.Prelude.{◌<◌, ◌≤◌, ℤ, nat_abs};
    ghost use Rattle.mono_base.specs.declared.limits.TheConstants.{MAX_VARS};

    ghost Value = { ℤ };

    ghost view = { λ l. l.number };

    ghost invariant = { λ l. (0 < nat_abs l.number) × (nat_abs l.number ≤ MAX_VARS) };

    ghost inverse = { λ z. record { number = z } };
}

impl Lit {
    /// The literal of a number: `None` exactly for 0 and for a magnitude above 1,000,000.
    pub fn new(n: i32) -> Option<Lit>
        ensures value { IfSome result (λ l. l ≡ n) }
        ensures within { IsSome result ↔ ((0 < nat_abs n) × (nat_abs n ≤ MAX_VARS)) }
    {
        if n != 0 && n.unsigned_abs() <= MAX_VARS {
            Some(Lit { number: n })
        } else {
            None
        }
    }

    /// The literal that says that the variable, from 1 to 1,000,000, is true, or that it is false.
    pub fn of(var: u32, sign: bool) -> Lit
        requires low { 0 < var }
        requires high { var ≤ MAX_VARS }
        ensures value { result ≡ (if sign then pos var else neg_ℤ (pos var)) }
        ensures var { nat_abs result ≡ var }
    {
        let number = var as i32;
        Lit {
            number: if sign { number } else { -number },
        }
    }

    /// The literal as a signed number, never 0.
    pub fn number(self) -> i32
        ensures { result ≡ self }
    {
        self.number
    }

    /// The literal's variable, from 1 to 1,000,000.
    pub fn var(self) -> u32
        ensures value { result ≡ nat_abs self }
        ensures low { 0 < result }
        ensures high { result ≤ MAX_VARS }
    {
        self.number.unsigned_abs()
    }

    /// Whether the literal says that its variable is true.
    pub fn is_positive(self) -> bool
        ensures { result ≡ int_lt (pos 0) self }
    {
        self.number > 0
    }

    /// The literal's place in a table by literals: 2x for variable x, 2x + 1 for its negation.
    pub fn slot(self) -> usize
        ensures value { result ≡ slot self }
        ensures literal { 0 < nat_abs self }
    {
        2 * self.var() as usize + if self.is_positive() { 0 } else { 1 }
    }

    /// The opposite literal of the same variable.
    pub fn negated(self) -> Lit
        ensures { result ≡ neg_ℤ self }
    {
        Lit {
            number: -self.number,
        }
    }
}

impl Default for Lit {
    ghost is_default = { λ l. l ≡ pos 1 };

    /// Variable 1, true: what stands in the unused places of a small vector.
    fn default() -> Lit {
        Lit { number: 1 }
    }
}
