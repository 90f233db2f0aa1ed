//! A list of places, each at most once, from which they are taken one by one.
//!
//! A mark by place says which are in the list. The list has room for all places, so joining and leaving take no memory, and
//! each change costs the places that it names.

ghost use Rattle.std.specs.Prelude.{◌≡◌, ◌<◌, ◌++◌, ◌||◌, ℕ, [], ◌∷◌, true, false, if◌then◌else◌, length, replicate, slice_set, All, IfOk, MatchOption};
ghost use Rattle.mono_base.specs.Numbers.{has};
ghost use Rattle.mono_base.specs.Worklist.{all_listed, is_listed, last_of, none_listed, IsEmpty, IsLast, IsTaken};

use std::alloc::{AllocError, Global};
use std::marker::Model;

/// Places below a number, each at most once, in the order in which they joined.
///
/// Contracts see the mark of each place, and the places that are listed. No call but `empty` and `full` takes memory.
#[derive(Drop)]
pub struct Worklist {
    /// By place, whether it is listed.
    listed: Vec<bool>,
    /// The places that are listed. The last is the next to be taken.
    places: Vec<usize>,
}

impl Model for Worklist {
    ghost use Rattle.std.specs.Prelude.{vec_capacity};
    ghost use Rattle.mono_base.specs.Worklist.{WorklistView, IsWorklist};

    ghost Value = { WorklistView };

    ghost view = { λ w. record { listed = w.listed.items; places = w.places.items } };

    ghost invariant = { λ w. IsWorklist w.listed.items w.places.items (vec_capacity w.places) };
}

/// So many marks, all of them off.
fn marks_off(alloc: Global, count: usize) -> Result<Vec<bool>, AllocError>
    ensures { IfOk result (λ marks. marks.items ≡ replicate count false) }
{
    vec![in alloc; false; count]
}

impl Worklist {
    /// No place below `count` is listed.
    pub fn empty(alloc: Global, count: usize) -> Result<Worklist, AllocError>
        ensures { IfOk result (λ w. w ≡ none_listed count) }
    {
        Ok(Worklist {
            listed: marks_off(alloc, count)?,
            places: Vec::with_capacity(alloc, count)?,
        })
    }

    /// Each place below `count` is listed, in their own order: the last is the next to be taken.
    pub fn full(alloc: Global, count: usize) -> Result<Worklist, AllocError>
        ensures { IfOk result (λ w. w ≡ all_listed count) }
    {
        let mut list = Worklist::empty(alloc, count)?;
        for place in 0..count {
            list.insert(place);
        }
        Ok(list)
    }

    /// The place joins, behind the others, where it isn't listed yet.
    pub fn insert(&mut self, place: usize)
        requires { place < length self.old.listed }
        ensures listed { self.new.listed ≡ slice_set self.old.listed place true }
        ensures places { self.new.places ≡ (if is_listed self.old.listed place then self.old.places else self.old.places ++ place ∷ []) }
    {
        if self.listed[place] {
            return;
        }
        self.listed[place] = true;
        self.places.push_reserved(place);
    }

    /// Each of these places joins, one after the other, where it isn't listed yet.
    pub fn insert_all(&mut self, places: &[u32])
        requires { All (λ p. p < length self.old.listed) places.now }
        ensures as_many { length self.new.listed ≡ length self.old.listed }
        ensures each { (p : ℕ) → is_listed self.new.listed p ≡ (is_listed self.old.listed p || has places.now p) }
    {
        for place in places {
            self.insert(*place as usize);
        }
    }

    /// Each place that isn't listed yet joins.
    pub fn fill(&mut self)
        ensures { self.new.listed ≡ replicate (length self.old.listed) true }
    {
        // The last of them joins first, so that the first is the next to be taken.
        let mut left = self.listed.len();
        'places: while left > 0 {
            left -= 1;
            self.insert(left);
        }
    }

    /// The places that are listed.
    pub fn places(&self) -> &[usize]
        ensures places { result.now ≡ self.now.places }
        ensures within { All (λ p. p < length self.now.listed) self.now.places }
        ensures exact { (p : ℕ) → has self.now.places p ≡ is_listed self.now.listed p }
    {
        self.places.as_slice()
    }

    /// The place that joined last: `None` exactly where none is listed.
    pub fn last(&self) -> Option<usize>
        ensures last { MatchOption result (IsEmpty self.now) (IsLast self.now) }
        ensures exact { (p : ℕ) → has self.now.places p ≡ is_listed self.now.listed p }
    {
        self.places.last().copied()
    }

    /// The place that joined last leaves.
    pub fn remove_last(&mut self)
        requires { 0 < length self.old.places }
        ensures { IsTaken self.old self.new (last_of self.old.places) }
    {
        let _ = self.take_next();
    }

    /// The place that joined last leaves: `None` exactly where none is listed.
    pub fn take_next(&mut self) -> Option<usize>
        ensures { MatchOption result ((self.new ≡ self.old) × IsEmpty self.old) (IsTaken self.old self.new) }
    {
        let Some(place) = self.places.pop() else {
            return None;
        };
        self.listed[place] = false;
        Some(place)
    }
}
