//! Clauses in one flat list of literals.
//!
//! At the head of each clause stands one of its literals beside its length, so that a clause of two or three is looked at
//! without its part of the list: its two watched literals and the cached one are all that it has.

ghost use Rattle.std.specs.Prelude.{◌≡◌, ℕ, ◌<◌, ◌≤◌, ◌+◌, length, OnOk, OnErr};
ghost use Rattle.mono_clauses.specs.ClauseValues.{AllVars};
ghost use Rattle.mono_clauses.specs.Lists.{Stands};
ghost use Rattle.mono_clauses.specs.Store.{clause_at};

use mono_base::Lit;
use std::alloc::{AllocError, Global};
use std::marker::Model;

/// A clause's number, its part of the flat list, and one of its literals.
#[derive(Clone, Copy)]
pub struct Entry {
    number: u64,
    start: usize,
    end: usize,
    cached: Lit,
}

/// What stands at the head of a clause: its number, how many literals it has, and one of them.
#[derive(Clone, Copy)]
pub struct Head {
    pub number: u64,
    pub len: usize,
    pub cached: Lit,
}

/// Clauses with their numbers, in the order in which they were added.
#[derive(Drop)]
pub struct Clauses {
    vars: u32,
    lits: Vec<Lit>,
    held: Vec<Entry>,
}

impl Model for Clauses {
    ghost use Rattle.std.specs.Prelude.{map};
    ghost use Rattle.mono_clauses.specs.FlatList.{ClausesView, IsFlat, clause_of};

    ghost Value = { ClausesView };

    ghost view = { λ s. record { vars = s.vars; list = map (clause_of s.lits.items) s.held.items } };

    ghost invariant = { λ s. IsFlat s.vars s.lits.items s.held.items };
}

impl Clauses {
    ghost use Rattle.mono_clauses.specs.ClauseList.{empty_list, with_clause, Undone};

    /// No clause is held.
    pub fn new(alloc: Global, vars: u32) -> Clauses
        ensures { result ≡ empty_list vars }
    {
        Clauses {
            vars,
            lits: Vec::new(alloc),
            held: Vec::new(alloc),
        }
    }

    /// What holds of all clauses that are held. Nothing is computed: it is there for the clause.
    pub fn known(&self)
        ensures ranged { (k : ℕ) → k < length self.now.list → AllVars self.now.vars (clause_at self.now.list k).lits }
    {
        let _ = &self.vars;
    }

    /// How many clauses are held.
    pub fn len(&self) -> usize
        ensures { result ≡ length self.now.list }
    {
        self.held.len()
    }

    /// The number of the clause at a place.
    pub fn number(&self, place: usize) -> u64
        requires { place < length self.now.list }
        ensures { result ≡ (clause_at self.now.list place).number }
    {
        self.held[place].number
    }

    /// The literals of the clause at a place.
    pub fn literals(&self, place: usize) -> &[Lit]
        requires { place < length self.now.list }
        ensures value { result.now ≡ (clause_at self.now.list place).lits }
        ensures ranged { AllVars self.now.vars result.now }
    {
        let held = &self.held[place];
        &self.lits[held.start..held.end]
    }

    /// The head of the clause at a place.
    pub fn head(&self, place: usize) -> Head
        requires { place < length self.now.list }
        ensures number { result.number ≡ (clause_at self.now.list place).number }
        ensures len { result.len ≡ length (clause_at self.now.list place).lits }
        ensures cached { 0 < length (clause_at self.now.list place).lits → Stands (clause_at self.now.list place).lits result.cached }
    {
        let held = &self.held[place];
        Head {
            number: held.number,
            len: held.end - held.start,
            cached: held.cached,
        }
    }

    /// Another literal of the clause stands at its head from now on. Contracts do not see it.
    pub fn set_cached(&mut self, place: usize, lit: Lit)
        requires in_range { place < length self.old.list }
        requires has { Stands (clause_at self.old.list place).lits lit }
        ensures { self.new ≡ self.old }
    {
        let held = self.held[place];
        self.held[place] = Entry {
            number: held.number,
            start: held.start,
            end: held.end,
            cached: lit,
        };
    }

    /// A clause joins.
    pub fn add(&mut self, number: u64, lits: &[Lit]) -> Result<(), AllocError>
        requires { AllVars self.old.vars lits.now }
        ensures ok { OnOk result (self.new ≡ with_clause self.old number lits.now) }
        ensures err { OnErr result (self.new ≡ self.old) }
    {
        self.held.reserve(1)?;
        let start = self.lits.len();
        self.lits.extend_from_slice(lits)?;
        let end = self.lits.len();
        let cached = last_or_first(lits);
        self.held.push_reserved(Entry {
            number,
            start,
            end,
            cached,
        });
        Ok(())
    }

    /// The last clause is given up.
    pub fn undo(&mut self)
        requires { 0 < length self.old.list }
        ensures { Undone self.old self.new }
    {
        let _ = self.held.pop();
    }
}

/// The last literal, if there is one.
fn last_or_first(lits: &[Lit]) -> Lit
    ensures { 0 < length lits.now → Stands lits.now result }
{
    if lits.len() == 0 {
        return Lit::default();
    }
    lits[lits.len() - 1]
}
