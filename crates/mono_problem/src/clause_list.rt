//! Clauses in one flat list: the literals one clause after the other, and where each clause ends. So a clause costs no
//! allocation of its own, and a problem's clauses take little more memory than their literals.

ghost use Rattle.std.specs.Prelude.{◌≡◌, ◌<◌, ◌≤◌, ◌^◌, ◌+◌, ◌++◌, ◌∷◌, [], length, sum_by, IfOk, OnOk, OnErr, slice_index, slice_index_or};
ghost use Rattle.mono_problem.specs.Flat.{start_at, lists_from, AreEnds};

use mono_base::Lit;
use std::alloc::{AllocError, Global};
use std::marker::Model;

/// A list of clauses, seen as the list of their lists of literals.
#[derive(Drop)]
pub(crate) struct ClauseList {
    lits: Vec<Lit>,
    ends: Vec<u32>,
}

impl Model for ClauseList {
    ghost use Rattle.std.specs.Prelude.{List, ℤ, length};
    ghost use Rattle.mono_problem.specs.Flat.{lists_from, AreEnds};

    ghost Value = { List (List ℤ) };

    ghost view = { λ c. lists_from 0 c.lits.items c.ends.items };

    ghost invariant = { λ c. AreEnds 0 c.ends.items (length c.lits.items) };
}

/// Where the list at a place begins, which is where the one before it ends, and where it ends.
fn bounds_of(ends: &[u32], place: usize, len: usize) -> (usize, usize)
    requires ends { AreEnds 0 ends.now len }
    requires place { place < length ends.now }
    ensures start { result.0 ≡ start_at 0 ends.now place }
    ensures end { result.1 ≡ slice_index ends.now place }
    ensures rises { result.0 ≤ result.1 }
    ensures within { result.1 ≤ len }
{
    let end = ends[place] as usize;
    if place == 0 {
        (0, end)
    } else {
        (ends[place - 1] as usize, end)
    }
}

fn clause_at<'a>(lits: &'a [Lit], ends: &[u32], place: usize) -> &'a [Lit]
    requires ends { AreEnds 0 ends.now (length lits.now) }
    requires place { place < length ends.now }
    ensures { result.now ≡ slice_index_or (lists_from 0 lits.now ends.now) place [] }
{
    let (start, end) = bounds_of(ends, place, lits.len());
    &lits[start..end]
}

impl ClauseList {
    /// No clauses.
    pub(crate) fn new(alloc: Global) -> ClauseList
        ensures { result ≡ [] }
    {
        ClauseList {
            lits: Vec::new(alloc),
            ends: Vec::new(alloc),
        }
    }

    /// How many clauses there are.
    pub(crate) fn len(&self) -> usize
        ensures { result ≡ length self.now }
    {
        self.ends.as_slice().len()
    }

    /// How many literals the clauses have.
    pub(crate) fn literal_count(&self) -> usize
        ensures { result ≡ sum_by (λ c. length c) self.now }
    {
        self.lits.as_slice().len()
    }

    /// The clause at a place, from 0.
    pub(crate) fn get(&self, place: usize) -> &[Lit]
        requires { place < length self.now }
        ensures { result.now ≡ slice_index_or self.now place [] }
    {
        clause_at(self.lits.as_slice(), self.ends.as_slice(), place)
    }

    /// An equal list.
    pub(crate) fn copy(&self) -> Result<ClauseList, AllocError>
        ensures { IfOk result (λ copy. copy ≡ self.now) }
    {
        let lits = self.lits.clone()?;
        let ends = self.ends.clone()?;
        Ok(ClauseList { lits, ends })
    }

    /// Adds a clause at the end. After want of memory the list is as before.
    pub(crate) fn push(&mut self, clause: &[Lit]) -> Result<(), AllocError>
        requires { sum_by (λ c. length c) self.old + length clause.now < 2 ^ 32 }
        ensures ok { OnOk result (self.new ≡ self.old ++ clause.now ∷ []) }
        ensures err { OnErr result (self.new ≡ self.old) }
    {
        let before = self.lits.as_slice().len();
        self.lits.extend_from_slice(clause)?;
        match self.ends.push(self.lits.as_slice().len() as u32) {
            Ok(()) => Ok(()),
            Err(_) => {
                self.lits.truncate(before);
                Err(AllocError)
            }
        }
    }
}
