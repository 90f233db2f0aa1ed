//! The clause that a chain has come to.
//!
//! All its literals are false, so it is a set of places of the trail, those of their negations. The places are marked in
//! the trail's table; those below the present level are listed too, and those of the present level counted.

ghost use Rattle.std.specs.Prelude.{◌≡◌, ◌≢◌, ℕ, ◌+◌, ◌<◌, ◌≤◌, ◌∷◌, [], List, ℤ, length, OnOk, IfOk, IsTrue, ◌↔◌};
ghost use Rattle.mono_trail.specs.TrailView.{IsSoundTrail};
ghost use Rattle.mono_trail.specs.Seen.{IsUnseen};
ghost use Rattle.mono_learn.specs.Resolvents.{FalseBy, AllFalse, marked_from};

use crate::places::place_of_false;
use mono_base::Lit;
use mono_trail::Trail;
use std::alloc::{AllocError, Global};

/// The clause that a chain has come to. Its literals are the negations of those at the marked places.
#[derive(Drop)]
pub struct Resolvent {
    /// By place.
    pub seen: Vec<bool>,
    /// The marked places below the present level.
    pub kept: Vec<u32>,
    /// How many marked places there are of the present level.
    pub count: usize,
}

impl Resolvent {
    ghost use Rattle.mono_learn.specs.Resolving.{IsFresh};

    /// No literals, in the trail's table. A new table is made only where an earlier conflict ran out of memory and never
    /// gave the table back.
    pub fn new(alloc: Global, trail: &mut Trail) -> Result<Resolvent, AllocError>
        requires sound { IsSoundTrail trail.old }
        ensures same { trail.new ≡ trail.old }
        ensures fresh { IfOk result (λ r. IsFresh (length trail.old.lits) r) }
    {
        let seen = trail.take_seen(alloc);
        if seen.len() >= trail.lits().len() {
            return Ok(Resolvent::over(alloc, seen));
        }
        let seen = unmarked(alloc, trail.vars() as usize)?;
        Ok(Resolvent::over(alloc, seen))
    }

    /// No literals, in this table.
    fn over(alloc: Global, seen: Vec<bool>) -> Resolvent
        requires { IsUnseen seen.items }
        ensures { (n : ℕ) → n ≤ length seen.items → IsFresh n result }
    {
        Resolvent {
            seen,
            kept: Vec::new(alloc),
            count: 0,
        }
    }
}

/// So many places of which none is marked.
fn unmarked(alloc: Global, count: usize) -> Result<Vec<bool>, AllocError>
    ensures table { IfOk result (λ seen. IsUnseen seen.items) }
    ensures slots { IfOk result (λ seen. length seen.items ≡ count) }
{
    vec![in alloc; false; count]
}

impl Resolvent {
    ghost use Rattle.mono_base.specs.Literal.{without};
    ghost use Rattle.mono_learn.specs.Joins.{Joins};

    /// A false literal joins the clause.
    fn join(&mut self, trail: &Trail, start: usize, lit: Lit) -> Result<(), AllocError>
        requires sound { IsSoundTrail trail.now }
        requires slots { length trail.now.lits ≤ length self.old.seen.items }
        requires counted { self.old.count ≡ marked_from start self.old.seen.items }
        requires is_false { FalseBy trail.now.lits (length trail.now.lits) lit }
        ensures { OnOk result (Joins trail.now.lits start self.old self.new (lit ∷ [])) }
    {
        let place = place_of_false(trail, lit);
        if self.seen[place as usize] {
            return Ok(());
        }
        if (place as usize) < start {
            self.kept.push(place)?;
            self.seen[place as usize] = true;
            return Ok(());
        }
        self.count += 1;
        self.seen[place as usize] = true;
        Ok(())
    }

    /// The literals of a clause join, but for one. They are false.
    pub fn join_all(
        &mut self,
        trail: &Trail,
        start: usize,
        clause: &[Lit],
        skip: Lit,
    ) -> Result<(), AllocError>
        requires sound { IsSoundTrail trail.now }
        requires slots { length trail.now.lits ≤ length self.old.seen.items }
        requires counted { self.old.count ≡ marked_from start self.old.seen.items }
        requires are_false { AllFalse trail.now.lits (length trail.now.lits) (without clause.now skip) }
        ensures { OnOk result (Joins trail.now.lits start self.old self.new (without clause.now skip)) }
    {
        for lit in clause {
            if is_other(*lit, skip) {
                self.join(trail, start, *lit)?;
            }
        }
        Ok(())
    }
}

/// Whether the literals are two.
pub fn is_other(lit: Lit, skip: Lit) -> bool
    ensures { IsTrue result ↔ (lit ≢ skip) }
{
    lit.number() != skip.number()
}
