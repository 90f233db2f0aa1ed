//! An order that exchanges change, and each item's place.
//!
//! The numbers from 0 up stand in one array, in some order, and a second array says where each of them stands. The two
//! are inverse to one another. So an item is found at once, and two items change places in constant time. Whoever keeps
//! borders between places parts the items so, and moves one to another part by an exchange with the one at a border.

ghost use Rattle.std.specs.Prelude.{◌≡◌, ◌<◌, ◌^◌, length, IfOk, slice_set, slice_index_or};
ghost use Rattle.mono_base.specs.Ranking.{AreInverse, exchanged, in_order, with_exchange};

use crate::numbers::numbers_below;
use std::alloc::{AllocError, Global};
use std::marker::Model;

/// The numbers from 0 up to so many, in some order.
///
/// Contracts see the items by place, and the places by item. No call but `new` takes memory.
#[derive(Drop)]
pub struct Ranking {
    items: Vec<u32>,
    /// By item.
    places: Vec<u32>,
}

impl Model for Ranking {
    ghost use Rattle.mono_base.specs.Ranking.{RankingView, IsRanking};

    ghost Value = { RankingView };

    ghost view = { λ r. record { items = r.items.items; places = r.places.items } };

    ghost invariant = { λ r. IsRanking r.items.items r.places.items };
}

impl Ranking {
    /// The numbers from 0 up to so many, in their own order.
    pub fn new(alloc: Global, count: u32) -> Result<Ranking, AllocError>
        ensures { IfOk result (λ r. r ≡ in_order count) }
    {
        let items = numbers_below(alloc, count)?;
        let places = numbers_below(alloc, count)?;
        Ok(Ranking { items, places })
    }

    /// The items, by place: each of the numbers once.
    pub fn items(&self) -> &[u32]
        ensures value { result.now ≡ self.now.items }
        ensures inverse { AreInverse self.now.items self.now.places }
        ensures few { length self.now.items < 2 ^ 32 }
    {
        self.items.as_slice()
    }

    /// The item at a place.
    pub fn item(&self, place: usize) -> u32
        requires { place < length self.now.items }
        ensures value { result ≡ slice_index_or self.now.items place 0 }
        ensures within { result < length self.now.items }
    {
        self.items[place]
    }

    /// The place of an item.
    pub fn place(&self, item: u32) -> usize
        requires { item < length self.now.items }
        ensures value { result ≡ slice_index_or self.now.places item 0 }
        ensures within { result < length self.now.items }
    {
        self.places[item as usize] as usize
    }

    /// The items at two places change places.
    pub fn exchange(&mut self, first: usize, second: usize)
        requires first { first < length self.old.items }
        requires second { second < length self.old.items }
        ensures value { self.new ≡ with_exchange self.old first second }
        ensures inverse { AreInverse self.new.items self.new.places }
    {
        exchange(&mut self.items, &mut self.places, first, second);
    }
}

/// The items at two places change places.
fn exchange(items: &mut Vec<u32>, places: &mut Vec<u32>, first: usize, second: usize)
    requires inverse { AreInverse items.old.items places.old.items }
    requires few { length items.old.items < 2 ^ 32 }
    requires first { first < length items.old.items }
    requires second { second < length items.old.items }
    ensures inverse { AreInverse items.new.items places.new.items }
    ensures as_many { length items.new.items ≡ length items.old.items }
    ensures items { items.new.items ≡ exchanged items.old.items first second }
    ensures places { places.new.items ≡ slice_set (slice_set places.old.items (slice_index_or items.old.items second 0) first)
        (slice_index_or items.old.items first 0) second }
{
    let at_first = items[first];
    let at_second = items[second];
    items[first] = at_second;
    items[second] = at_first;
    places[at_second as usize] = first as u32;
    places[at_first as usize] = second as u32;
}
