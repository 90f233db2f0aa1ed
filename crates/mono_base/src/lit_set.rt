//! Sets of literals over the variables of an input.
//!
//! A set is sparse (Briggs and Torczon, 1993): its members stand in a list, and a table says of each literal where in
//! that list it stands. The two agree at every literal. So a literal is put in, taken out and looked up in constant
//! time, and a set is emptied in proportion to its members, however many variables there are.

ghost use Rattle.std.specs.Prelude.{◌≡◌, ◌≢◌, ◌+◌, ◌<◌, ◌≤◌, ◌++◌, ◌||◌, ◌&&◌, ℕ, ℤ, pos, [], ◌∷◌, not, length, nat_abs, slice_index_or, vec_len, vec_capacity, All, IfOk};
ghost use Rattle.std.specs.List.{IsDistinct};
ghost use Rattle.std.specs.Ordering.{int_eq};
ghost use Rattle.mono_base.specs.Literal.{has_lit, var_of, slot, IsLitWithin};
ghost use Rattle.mono_base.specs.LitSet.{empty_set};

use crate::Lit;
use crate::limits::MAX_VARS;
use std::alloc::{AllocError, Global};
use std::marker::Model;

/// A set of literals over the variables from 1 to a number that is fixed when the set is made.
///
/// Contracts see that number and the members, each once, in an order that no contract tells. No call but `new` takes
/// memory.
#[derive(Drop)]
pub struct LitSet {
    vars: u32,
    /// By slot: 0 for a literal that is not in the set, else its place among the members plus 1.
    places: Vec<u32>,
    members: Vec<Lit>,
}

impl Model for LitSet {
    ghost use Rattle.std.specs.Prelude.{vec_capacity};
    ghost use Rattle.mono_base.specs.LitSet.{LiteralSet, IsSparse};

    ghost Value = { LiteralSet };

    ghost view = { λ s. record { vars = s.vars; members = s.members.items } };

    ghost invariant = { λ s. IsSparse s.vars s.places.items s.members.items (vec_capacity s.members) };
}

impl LitSet {
    /// The empty set of literals over the variables from 1 to `vars`, of which there are at most 1,000,000.
    pub fn new(alloc: Global, vars: u32) -> Result<LitSet, AllocError>
        requires { vars ≤ MAX_VARS }
        ensures { IfOk result (λ s. s ≡ empty_set vars) }
    {
        let slots = 2 * vars as usize + 2;
        Ok(LitSet {
            vars,
            places: vec![in alloc; 0; slots]?,
            members: Vec::with_capacity(alloc, slots)?,
        })
    }

    /// Puts the literal into the set. Where it is a member already, nothing changes.
    pub fn insert(&mut self, lit: Lit)
        requires { var_of lit ≤ self.old.vars }
        ensures vars { self.new.vars ≡ self.old.vars }
        ensures has { (m : ℤ) → has_lit self.new.members m ≡ (has_lit self.old.members m || int_eq m lit) }
    {
        let slot = lit.slot();
        if self.places[slot] != 0 {
            return;
        }
        self.places[slot] = self.members.len() as u32 + 1;
        push_within(&mut self.members, lit);
    }

    /// Takes the literal out of the set. Where it isn't a member, nothing changes.
    pub fn remove(&mut self, lit: Lit)
        requires { var_of lit ≤ self.old.vars }
        ensures vars { self.new.vars ≡ self.old.vars }
        ensures has { (m : ℤ) → has_lit self.new.members m ≡ (has_lit self.old.members m && not (int_eq m lit)) }
    {
        let slot = lit.slot();
        let place = self.places[slot];
        if place == 0 {
            return;
        }
        let last = self.members[self.members.len() - 1];
        self.places[last.slot()] = place;
        self.places[slot] = 0;
        self.members.swap_remove(place as usize - 1);
    }

    /// Whether the literal is in the set.
    pub fn has(&self, lit: Lit) -> bool
        requires { var_of lit ≤ self.now.vars }
        ensures { result ≡ has_lit self.now.members lit }
    {
        self.places[lit.slot()] != 0
    }

    /// The members, each once, in any order.
    pub fn members(&self) -> &[Lit]
        ensures value { result.now ≡ self.now.members }
        ensures distinct { IsDistinct int_eq self.now.members }
        ensures within { All (IsLitWithin self.now.vars) self.now.members }
    {
        self.members.as_slice()
    }

    /// Takes every member out, in time in proportion to how many there are.
    pub fn clear(&mut self)
        ensures { self.new ≡ empty_set self.old.vars }
    {
        erase(&mut self.places, &self.members);
        self.members.clear();
    }
}

/// Appends a literal where there is room for it.
fn push_within(lits: &mut Vec<Lit>, lit: Lit)
    requires { vec_len lits.old < vec_capacity lits.old }
    ensures items { lits.new.items ≡ lits.old.items ++ lit ∷ [] }
    ensures room { vec_capacity lits.old ≤ vec_capacity lits.new }
{
    lits.push_reserved(lit);
}

/// Writes 0 at the slot of each of the literals.
fn erase(places: &mut Vec<u32>, lits: &[Lit])
    requires { (k : ℕ) → k < length lits.now → slot (slice_index_or lits.now k (pos 0)) < length places.old.items }
    ensures slots { length places.new.items ≡ length places.old.items }
    ensures stays { (i : ℕ) → slice_index_or places.old.items i 0 ≡ 0 → slice_index_or places.new.items i 0 ≡ 0 }
    ensures erased { (k : ℕ) → k < length lits.now → slice_index_or places.new.items (slot (slice_index_or lits.now k (pos 0))) 0 ≡ 0 }
{
    for lit in lits {
        places[lit.slot()] = 0;
    }
}
