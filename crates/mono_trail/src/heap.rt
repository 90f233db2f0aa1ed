//! The variables that wait, the most active first.
//!
//! All variables stand in one ranking, and those that wait come first and are a binary heap there. So a variable joins or
//! leaves by an exchange with the one beside the border, and nothing ever grows.

ghost use Rattle.std.specs.Prelude.{◌≡◌, ◌≤◌, ◌+◌, ◌-◌, ◌<◌, ◌^◌, ℕ, nat_lt, length, replicate, true, false, All, IfOk, IfSome, IfNone, IsTrue, slice_set, slice_index_or};
ghost use Rattle.mono_base.specs.Literal.{value_in};
ghost use Rattle.mono_base.specs.Ranking.{AreInverse};
ghost use Rattle.mono_trail.specs.Heap.{waits_of};
ghost use Rattle.mono_trail.specs.Moves.{IsVar};

use mono_base::Ranking;
use mono_base::limits::MAX_VARS;
use std::alloc::{AllocError, Global};
use std::marker::Model;

/// What the first bumps add to an activity. With it a decay always makes the increment greater.
const FIRST_INCREMENT: u64 = 64;

/// The activity of a variable that was never bumped.
const FIRST_ACTIVITY: u64 = 1;

/// The activity of a variable that is held back, and of no other.
const HELD_BACK: u64 = 0;

/// By how many binary digits the activities and the increment are scaled down.
const SCALE: u32 = 40;

/// Which variables wait, and how active each one is.
///
/// Contracts see of each variable, variable 1 first, whether it waits.
pub struct Heap {
    /// All variables, counted from 0; those that wait come first.
    ranking: Ranking,
    /// How many variables wait.
    count: usize,
    /// By variable, counted from 0.
    activities: Vec<u64>,
    /// What a bump adds.
    increment: u64,
}

impl Drop for Heap {
    fn drop(self) {
        let Heap {
            ranking: _,
            count: _,
            activities: _,
            increment: _,
        } = self;
    }
}

impl Model for Heap {
    ghost use Rattle.std.specs.Prelude.{List, Bool, length};
    ghost use Rattle.mono_trail.specs.Heap.{IsHeap, waits_of};

    ghost Value = { List Bool };

    ghost view = { λ h. waits_of h.count h.ranking.places };

    ghost invariant = { λ h. IsHeap h.ranking h.count (length h.activities.items) };
}

impl Heap {
    /// Every variable from 1 to `vars` waits, and none is more active than another.
    pub fn new(alloc: Global, vars: u32) -> Result<Heap, AllocError>
        requires { vars ≤ MAX_VARS }
        ensures { IfOk result (λ h. h ≡ replicate vars true) }
    {
        let ranking = Ranking::new(alloc, vars)?;
        let activities = first_activities(alloc, vars as usize)?;
        Ok(Heap {
            ranking,
            count: vars as usize,
            activities,
            increment: FIRST_INCREMENT,
        })
    }

    /// The most active variable that waits, which waits no more: `None` exactly where none waits.
    pub fn pop(&mut self) -> Option<u32>
        ensures none { IfNone result ((self.new ≡ self.old) × (self.old ≡ replicate (length self.old) false)) }
        ensures some { IfSome result (λ v. IsVar (length self.old) v × IsTrue (value_in self.old v) × (self.new ≡ slice_set self.old (v - 1) false)) }
    {
        if self.count == 0 {
            return None;
        }
        let last = self.count - 1;
        exchange(&mut self.ranking, 0, last);
        let index = self.ranking.item(last);
        self.count = last;
        sift_down(&mut self.ranking, &self.activities, 0, last);
        Some(index + 1)
    }

    /// The variable waits, whether it did before or not.
    pub fn insert(&mut self, var: u32)
        requires { IsVar (length self.old) var }
        ensures { self.new ≡ slice_set self.old (var - 1) true }
    {
        let place = self.ranking.place(var - 1);
        if place < self.count {
            return;
        }
        let last = self.count;
        exchange(&mut self.ranking, place, last);
        self.count = last + 1;
        sift_up(&mut self.ranking, &self.activities, last, self.count);
    }

    /// The variable becomes more active, unless it is held back.
    pub fn bump(&mut self, var: u32)
        requires { IsVar (length self.old) var }
        ensures { self.new ≡ self.old }
    {
        let index = var as usize - 1;
        if self.activities[index] == HELD_BACK {
            return;
        }
        make_room(&mut self.activities, &mut self.increment, index);
        self.activities[index] += self.increment;
        let place = self.ranking.place(var - 1);
        if place < self.count {
            sift_up(&mut self.ranking, &self.activities, place, self.count);
        }
    }

    /// The variable is less active than all that aren't held back, and stays so.
    pub fn hold_back(&mut self, var: u32)
        requires { IsVar (length self.old) var }
        ensures { self.new ≡ self.old }
    {
        self.activities[var as usize - 1] = HELD_BACK;
        let place = self.ranking.place(var - 1);
        if place < self.count {
            sift_down(&mut self.ranking, &self.activities, place, self.count);
        }
    }

    /// Bumps add a sixteenth more from now on.
    pub fn decay(&mut self)
        ensures { self.new ≡ self.old }
    {
        halve_range(&mut self.activities, &mut self.increment);
        self.increment += self.increment / 16;
    }
}

/// The activities of so many variables that were never bumped.
fn first_activities(alloc: Global, count: usize) -> Result<Vec<u64>, AllocError>
    ensures { IfOk result (λ all. length all.items ≡ count) }
{
    vec![in alloc; FIRST_ACTIVITY; count]
}

/// A bump of the variable fits afterwards.
fn make_room(activities: &mut [u64], increment: &mut u64, index: usize)
    requires { index < length activities.old }
    ensures as_many { length activities.new ≡ length activities.old }
    ensures fits { slice_index_or activities.new index 0 + increment.new < 2 ^ 64 }
{
    if activities[index] > u64::MAX - *increment {
        scale_down(activities, increment);
    }
}

/// The increment may double afterwards.
fn halve_range(activities: &mut [u64], increment: &mut u64)
    ensures as_many { length activities.new ≡ length activities.old }
    ensures fits { increment.new < 2 ^ 63 }
{
    if *increment >= 1 << 63 {
        scale_down(activities, increment);
    }
}

/// The activities and the increment lose their last binary digits. The order by activity stays, and who is held back.
fn scale_down(activities: &mut [u64], increment: &mut u64)
    ensures as_many { length activities.new ≡ length activities.old }
    ensures small { All (λ a. a < 2 ^ 24) activities.new }
    ensures increment { increment.new < 2 ^ 24 }
{
    for activity in activities {
        *activity = scaled(*activity);
    }
    *increment = (*increment >> SCALE).max(FIRST_INCREMENT);
}

/// The activity without its last binary digits.
fn scaled(activity: u64) -> u64
    ensures { result < 2 ^ 24 }
{
    if activity == HELD_BACK {
        return HELD_BACK;
    }
    (activity >> SCALE).max(FIRST_ACTIVITY)
}

/// The variables at two places change places.
fn exchange(ranking: &mut Ranking, first: usize, second: usize)
    requires inverse { AreInverse ranking.old.items ranking.old.places }
    requires first { first < length ranking.old.items }
    requires second { second < length ranking.old.items }
    ensures inverse { AreInverse ranking.new.items ranking.new.places }
    ensures as_many { length ranking.new.items ≡ length ranking.old.items }
    ensures moved { slice_index_or ranking.new.items second 0 ≡ slice_index_or ranking.old.items first 0 }
    ensures waits { (n : ℕ) → nat_lt first n ≡ nat_lt second n → waits_of n ranking.new.places ≡ waits_of n ranking.old.places }
{
    ranking.exchange(first, second);
}

/// The variable at a place of the heap goes up until none above it is less active.
fn sift_up(ranking: &mut Ranking, activities: &[u64], start: usize, count: usize)
    requires inverse { AreInverse ranking.old.items ranking.old.places }
    requires few { length ranking.old.items ≤ MAX_VARS }
    requires scored { length activities.now ≡ length ranking.old.items }
    requires start { start < count }
    requires count { count ≤ length ranking.old.items }
    ensures inverse { AreInverse ranking.new.items ranking.new.places }
    ensures as_many { length ranking.new.items ≡ length ranking.old.items }
    ensures waits { waits_of count ranking.new.places ≡ waits_of count ranking.old.places }
{
    let mut place = start;
    while place > 0 {
        let parent = (place - 1) / 2;
        if !is_before(ranking, activities, place, parent) {
            return;
        }
        exchange(ranking, place, parent);
        place = parent;
    }
}

/// The variable at a place of the heap goes down until none below it is more active.
fn sift_down(ranking: &mut Ranking, activities: &[u64], start: usize, count: usize)
    requires inverse { AreInverse ranking.old.items ranking.old.places }
    requires few { length ranking.old.items ≤ MAX_VARS }
    requires scored { length activities.now ≡ length ranking.old.items }
    requires start { start ≤ count }
    requires count { count ≤ length ranking.old.items }
    ensures inverse { AreInverse ranking.new.items ranking.new.places }
    ensures as_many { length ranking.new.items ≡ length ranking.old.items }
    ensures waits { waits_of count ranking.new.places ≡ waits_of count ranking.old.places }
{
    let mut place = start;
    while let Some(child) = child_of(ranking, activities, place, count) {
        if !is_before(ranking, activities, child, place) {
            return;
        }
        exchange(ranking, place, child);
        place = child;
    }
}

/// The more active of the variables right below a place: `None` where there is none.
fn child_of(ranking: &Ranking, activities: &[u64], place: usize, count: usize) -> Option<usize>
    requires scored { length activities.now ≡ length ranking.now.items }
    requires few { length ranking.now.items ≤ MAX_VARS }
    requires count { count ≤ length ranking.now.items }
    requires place { place ≤ count }
    ensures { IfSome result (λ child. (place < child) × (child < count)) }
{
    let left = 2 * place + 1;
    if left >= count {
        return None;
    }
    let right = left + 1;
    if right < count && is_before(ranking, activities, right, left) {
        return Some(right);
    }
    Some(left)
}

/// Whether the variable at the first place is more active than the one at the second.
fn is_before(ranking: &Ranking, activities: &[u64], first: usize, second: usize) -> bool
    requires scored { length activities.now ≡ length ranking.now.items }
    requires first { first < length ranking.now.items }
    requires second { second < length ranking.now.items }
{
    activities[ranking.item(first) as usize] > activities[ranking.item(second) as usize]
}
