//! The trail: the literals that are true, in order, each with its level and its reason.
//!
//! A level begins with each decision. Beside the list stand the value of each literal, in one table by literal, the
//! place of each variable that has a value, and the place where each level begins. So every question costs constant
//! time, and going back costs what is dropped. A place in the table counts only where the variable has a value, and so
//! nothing clears it.

ghost use Rattle.std.specs.Prelude.{◌≡◌, ◌≢◌, ◌^◌, ◌+◌, ◌*◌, ◌<◌, ◌≤◌, [], ◌∷◌, ◌++◌, length, replicate, All, IfOk, IfSome, IfNone, IsTrue, option_map, vec_capacity, vec_len, neg_ℤ};
ghost use Rattle.mono_base.specs.declared.value.Value.TheVariants.{Unset};
ghost use Rattle.mono_base.specs.Literal.{IsLitWithin, lit_at, slot};
ghost use Rattle.mono_base.specs.Partial.{is_open_in, value_by};
ghost use Rattle.mono_trail.specs.declared.reason.Reason.TheVariants.{Decided};
ghost use Rattle.mono_trail.specs.Kept.{starts_after, unvalued};
ghost use Rattle.mono_trail.specs.Moves.{IsVar};
ghost use Rattle.mono_trail.specs.Places.{place_in, level_at, mark_at, reason_at};
ghost use Rattle.mono_trail.specs.Seen.{IsUnseen};
ghost use Rattle.mono_trail.specs.TrailView.{count_to, next_level};

use crate::reason::{Mark, Reason};
use mono_base::limits::MAX_VARS;
use mono_base::{Lit, Value};
use std::alloc::{AllocError, Global};
use std::marker::Model;
use std::mem;

/// The literals that are true, in order, each with its level and its reason.
///
/// Contracts see the number of variables, the literals, their marks, the present level, and how many literals were
/// given. No call but `new` takes memory.
pub struct Trail {
    vars: u32,
    lits: Vec<Lit>,
    marks: Vec<Mark>,
    /// By slot of a literal.
    values: Vec<Value>,
    /// By variable; what stands there counts only where the variable has a value.
    places: Vec<u32>,
    /// The places of the decisions.
    starts: Vec<u32>,
    level: u32,
    given: usize,
    /// For a conflict analysis: by place, none marked between analyses.
    seen: Vec<bool>,
}

impl Drop for Trail {
    fn drop(self) {
        let Trail {
            vars: _,
            lits: _,
            marks: _,
            values: _,
            places: _,
            starts: _,
            level: _,
            given: _,
            seen: _,
        } = self;
    }
}

impl Model for Trail {
    ghost use Rattle.std.specs.Prelude.{vec_capacity};
    ghost use Rattle.mono_trail.specs.Kept.{HoldTrail};
    ghost use Rattle.mono_trail.specs.Seen.{IsUnseen};
    ghost use Rattle.mono_trail.specs.TrailView.{TrailView};

    ghost Value = { TrailView };

    ghost view = { λ s. record { vars = s.vars; lits = s.lits.items; marks = s.marks.items; level = s.level; given = s.given } };

    ghost invariant = { λ s. HoldTrail (record {
      vars = s.vars;
      lits = s.lits.items;
      marks = s.marks.items;
      level = s.level;
      given = s.given;
    }) s.values.items s.places.items s.starts.items (vec_capacity s.lits) (vec_capacity s.marks) (vec_capacity s.starts)
        × IsUnseen s.seen.items };
}

impl Trail {
    ghost use Rattle.mono_trail.specs.Moves.{joined, lowered, gave, settled, HasLate};
    ghost use Rattle.mono_trail.specs.TrailView.{IsSoundTrail, no_literals};

    /// The trail of the variables from 1 to `vars` on which nothing stands. There are at most 1,000,000 of them.
    pub fn new(alloc: Global, vars: u32) -> Result<Trail, AllocError>
        requires { vars ≤ MAX_VARS }
        ensures { IfOk result (λ t. t ≡ no_literals vars) }
    {
        let count = vars as usize;
        let lits = Vec::with_capacity(alloc, count)?;
        let marks = Vec::with_capacity(alloc, count)?;
        let (values, places) = tables(alloc, count)?;
        let starts = Vec::with_capacity(alloc, count)?;
        let seen = unmarked(alloc, count)?;
        Ok(Trail {
            vars,
            lits,
            marks,
            values,
            places,
            starts,
            level: 0,
            given: 0,
            seen,
        })
    }

    /// The number of variables.
    pub fn vars(&self) -> u32
        ensures { result ≡ self.now.vars }
    {
        self.vars
    }

    /// The value of a literal.
    pub fn value(&self, lit: Lit) -> Value
        requires { IsLitWithin self.now.vars lit }
        ensures { result ≡ value_by self.now.lits lit }
    {
        self.values[lit.slot()]
    }

    /// The present level: how many decisions stand on the trail.
    pub fn level(&self) -> u32
        ensures value { result ≡ self.now.level }
        ensures sound { IsSoundTrail self.now }
    {
        self.level
    }

    /// What holds of every trail. Nothing is computed: it is there for the clause.
    pub fn known(&self)
        ensures sound { IsSoundTrail self.now }
    {
        let _ = &self.level;
    }

    /// The literals, in the order in which they came.
    pub fn lits(&self) -> &[Lit]
        ensures { result.now ≡ self.now.lits }
    {
        self.lits.as_slice()
    }

    /// How many literals are of levels up to this one: where the next level begins.
    pub fn count_to(&self, level: u32) -> usize
        ensures count { result ≡ count_to level self.now.marks }
        ensures within { result ≤ length self.now.lits }
    {
        if level < self.level {
            self.starts[level as usize] as usize
        } else {
            self.lits.len()
        }
    }

    /// The place of a variable's literal, from 0: `None` exactly where the variable is open.
    pub fn place_of(&self, var: u32) -> Option<u32>
        requires { IsVar self.now.vars var }
        ensures { result ≡ place_in self.now.lits var }
    {
        match self.values[2 * var as usize] {
            Value::Unset => None,
            _ => Some(self.places[var as usize]),
        }
    }

    /// The level and the reason of a variable: `None` exactly where the variable is open.
    fn mark_of(&self, var: u32) -> Option<Mark>
        requires { IsVar self.now.vars var }
        ensures { result ≡ option_map (mark_at self.now.marks) (place_in self.now.lits var) }
    {
        let place = self.place_of(var)?;
        Some(self.marks[place as usize])
    }

    /// The level of a variable: `None` exactly where the variable is open.
    pub fn level_of(&self, var: u32) -> Option<u32>
        requires { IsVar self.now.vars var }
        ensures { result ≡ option_map (level_at self.now.marks) (place_in self.now.lits var) }
    {
        match self.mark_of(var) {
            Some(mark) => Some(mark.level),
            None => None,
        }
    }

    /// How the literal of a variable came onto the trail: `None` exactly where the variable is open.
    pub fn reason(&self, var: u32) -> Option<Reason>
        requires { IsVar self.now.vars var }
        ensures { result ≡ option_map (reason_at self.now.marks) (place_in self.now.lits var) }
    {
        match self.mark_of(var) {
            Some(mark) => Some(mark.reason),
            None => None,
        }
    }

    /// A new level begins with the literal, which is open.
    pub fn decide(&mut self, lit: Lit)
        requires in_range { IsLitWithin self.old.vars lit }
        requires is_open { IsTrue (is_open_in self.old.lits lit) }
        ensures { self.new ≡ joined self.old lit Decided }
    {
        self.join(lit, Reason::Decided);
    }

    /// The literal, which is open, joins the present level. The reason isn't that it was decided.
    pub fn imply(&mut self, lit: Lit, reason: Reason)
        requires in_range { IsLitWithin self.old.vars lit }
        requires is_open { IsTrue (is_open_in self.old.lits lit) }
        requires implied { reason ≢ Decided }
        ensures { self.new ≡ joined self.old lit reason }
    {
        self.join(lit, reason);
    }

    /// The lemma of a late reason was made: the variable's reason is the clause of that number from now on, and all else
    /// stays.
    pub fn settle(&mut self, var: u32, number: u64)
        requires in_range { IsVar self.old.vars var }
        requires late { HasLate self.old var }
        ensures { self.new ≡ settled self.old var number }
    {
        let place = self.places[var as usize] as usize;
        self.marks[place] = Mark {
            level: self.marks[place].level,
            reason: Reason::Clause(number),
        };
    }

    /// The first literal that it has not given yet: `None` exactly where all were given.
    pub fn next_due(&mut self) -> Option<Lit>
        ensures none { IfNone result ((self.new ≡ self.old) × (self.old.given ≡ length self.old.lits)) }
        ensures some { IfSome result (λ l. (self.new ≡ gave self.old) × (self.old.given < length self.old.lits) × (lit_at self.old.lits self.old.given ≡ l)) }
    {
        if self.given == self.lits.len() {
            return None;
        }
        let lit = self.lits[self.given];
        self.given += 1;
        Some(lit)
    }

    /// Literals above the level are dropped, and dropped ones count as not given.
    pub fn backjump(&mut self, level: u32)
        requires { level ≤ self.old.level }
        ensures { self.new ≡ lowered level self.old }
    {
        let kept = self.count_to(level);
        unset(&mut self.values, &self.lits[kept..]);
        self.lits.truncate(kept);
        self.marks.truncate(kept);
        self.starts.truncate(level as usize);
        self.level = level;
        self.given = self.given.min(kept);
    }

    /// Hands out a table by place on which nothing is marked, for a conflict analysis, which gives it back so that the
    /// next one finds it. It may be shorter than the trail: so it is where an earlier one was never given back.
    pub fn take_seen(&mut self, alloc: Global) -> Vec<bool>
        ensures table { IsUnseen result.items }
        ensures same { self.new ≡ self.old }
    {
        mem::replace(&mut self.seen, Vec::new(alloc))
    }

    /// Takes a table back on which nothing is marked any more.
    pub fn give_back(&mut self, seen: Vec<bool>)
        requires { IsUnseen seen.items }
        ensures { self.new ≡ self.old }
    {
        self.seen = seen;
    }

    fn join(&mut self, lit: Lit, reason: Reason)
        requires in_range { IsLitWithin self.old.vars lit }
        requires is_open { IsTrue (is_open_in self.old.lits lit) }
        ensures { self.new ≡ joined self.old lit reason }
    {
        let place = self.lits.len() as u32;
        let level = begin(&mut self.starts, place, reason, self.level);
        self.level = level;
        self.values[lit.slot()] = Value::Yes;
        self.values[lit.negated().slot()] = Value::No;
        self.places[lit.var() as usize] = place;
        put(&mut self.lits, lit);
        put(&mut self.marks, Mark { level, reason });
    }
}

/// The values and places of variables that are all open.
fn tables(alloc: Global, vars: usize) -> Result<(Vec<Value>, Vec<u32>), AllocError>
    requires { vars ≤ MAX_VARS }
    ensures { IfOk result (λ tables. (tables.0.items ≡ replicate (2 * vars + 2) Unset) × (tables.1.items ≡ replicate (vars + 1) 0)) }
{
    let values = vec![in alloc; Value::Unset; 2 * vars + 2]?;
    let places = vec![in alloc; 0; vars + 1]?;
    Ok((values, places))
}

/// So many places of which none is marked.
fn unmarked(alloc: Global, count: usize) -> Result<Vec<bool>, AllocError>
    ensures { IfOk result (λ seen. IsUnseen seen.items) }
{
    vec![in alloc; false; count]
}

/// The level after a literal that comes to a place. A decision begins a new one there.
fn begin(starts: &mut Vec<u32>, place: u32, reason: Reason, level: u32) -> u32
    requires fits { level + 1 < 2 ^ 32 }
    requires room { vec_len starts.old < vec_capacity starts.old }
    ensures level { result ≡ next_level reason level }
    ensures starts { starts.new.items ≡ starts_after reason starts.old.items place }
    ensures room { vec_capacity starts.old ≤ vec_capacity starts.new }
{
    match reason {
        Reason::Decided => {
            put(starts, place);
            level + 1
        }
        Reason::Clause(_) | Reason::Late { .. } => level,
    }
}

/// Pushes an item where there is room.
fn put<T: Drop>(items: &mut Vec<T>, item: T)
    requires { vec_len items.old < vec_capacity items.old }
    ensures items { items.new.items ≡ items.old.items ++ item ∷ [] }
    ensures room { vec_capacity items.old ≤ vec_capacity items.new }
{
    items.push_reserved(item);
}

/// The literals and their negations are open again.
fn unset(values: &mut Vec<Value>, lits: &[Lit])
    requires { All (λ l. (slot l < length values.old.items) × (slot (neg_ℤ l) < length values.old.items)) lits.now }
    ensures { values.new.items ≡ unvalued lits.now values.old.items }
{
    for lit in lits {
        values[lit.slot()] = Value::Unset;
        values[lit.negated().slot()] = Value::Unset;
    }
}
