//! Places by key. The places stand in a list in the order of their keys, where those of one key stand side by side.
//!
//! Where they stand (`Span`) may be kept, so whoever looks a key up once needs no other look-up.

ghost use Rattle.std.specs.Prelude.{[], ◌∷◌, ◌≡◌, ◌≢◌, ◌<◌, ◌≤◌, ◌-◌, ◌^◌, ℕ, length, map, take, drop, All, IfOk, MatchOption, slice_index, false};
ghost use Rattle.mono_graph.specs.Digraph.{present, has};
ghost use Rattle.mono_bounds.specs.DueNodes.{PutsNodes};
ghost use Rattle.mono_bounds.specs.Entries.{entry_at, IsRange};
ghost use Rattle.mono_bounds.specs.Index.{within, IsIndex, IsPlaceOf, IsSpanOf, ArePlacesOf, switched};

use crate::entries::{Entries, Entry};
use crate::span::Span;
use mono_base::Worklist;
use mono_graph::Part;
use std::alloc::{AllocError, Global};
use std::marker::Model;

/// The keys of some places, and the places of each key. Contracts see the key of each place, and the places in the order of
/// their keys.
pub struct Index {
    keys: Vec<u32>,
    entries: Entries,
    /// The places of the entries, in their order.
    places: Vec<u32>,
}

impl Drop for Index {
    fn drop(self) {
        let Index {
            keys: _,
            entries: _,
            places: _,
        } = self;
    }
}

impl Model for Index {
    ghost use Rattle.mono_bounds.specs.Index.{IndexView, IsIndexed};

    ghost Value = { IndexView };

    ghost view = { λ i. record { keys = i.keys.items; places = i.places.items } };

    ghost invariant = { λ i. IsIndexed i.keys.items i.entries i.places.items };
}

/// Puts the place into the part, or takes it out.
fn set(part: &mut Part, place: u32, on: bool)
    requires { place < length part.old }
    ensures size { length part.new ≡ length part.old }
    ensures here { present part.new place ≡ on }
    ensures others { (k : ℕ) → k ≢ place → present part.new k ≡ present part.old k }
{
    part.set(place, on);
}

/// Puts some places into the part, or takes them out.
pub fn set_all(places: &[u32], part: &mut Part, on: bool)
    requires { All (λ k. k < length part.old) places.now }
    ensures size { length part.new ≡ length part.old }
    ensures done { (i : ℕ) → i < length places.now → present part.new (slice_index places.now i) ≡ on }
    ensures others { (k : ℕ) → ((i : ℕ) → i < length places.now → slice_index places.now i ≢ k) → present part.new k ≡ present part.old k }
{
    for i in 0..places.len() {
        let place = places[i];
        set(part, place, on);
    }
}

/// The places with their keys.
fn entries_of(alloc: Global, keys: &[u32]) -> Result<Vec<Entry>, AllocError>
    requires { length keys.now < 2 ^ 32 }
    ensures len { IfOk result (λ v. length v.items ≡ length keys.now) }
    ensures each { IfOk result (λ v. (k : ℕ) → k < length keys.now → entry_at v.items k ≡ record { key = slice_index keys.now k; place = k }) }
{
    let mut entries = Vec::new(alloc);
    for place in 0..keys.len() {
        let key = keys[place];
        entries.push(Entry {
            key,
            place: place as u32,
        })?;
    }
    Ok(entries)
}

/// The places in the order of their keys.
fn sorted_entries(alloc: Global, keys: &[u32]) -> Result<Entries, AllocError>
    requires { length keys.now < 2 ^ 32 }
    ensures { IfOk result (λ entries. IsIndex keys.now entries) }
{
    let list = entries_of(alloc, keys)?;
    let entries = Entries::new(alloc, list)?;
    Ok(entries)
}

/// The places of the entries.
fn places_in_order(alloc: Global, entries: &[Entry]) -> Result<Vec<u32>, AllocError>
    ensures { IfOk result (λ places. places.items ≡ map (λ e. e.place) entries.now) }
{
    entries.iter().map(|e| e.place).collect(alloc)
}

/// The items from one place to another.
fn items_between(items: &[u32], start: usize, end: usize) -> &[u32]
    requires { end ≤ length items.now }
    ensures { result.now ≡ take (end - start) (drop start items.now) }
{
    if end <= start {
        return &items[..0];
    }
    &items[start..end]
}

/// Where the entries of a key stand.
fn span_in(entries: &Entries, key: u32) -> Span
    requires { length entries.now < 2 ^ 32 }
    ensures { IsRange entries.now key result.start result.end }
{
    let (start, end) = entries.range_of(key);
    Span {
        start: start as u32,
        end: end as u32,
    }
}

impl Index {
    /// The index of a list of keys.
    pub fn new(alloc: Global, keys: Vec<u32>) -> Result<Index, AllocError>
        requires { length keys.items < 2 ^ 32 }
        ensures { IfOk result (λ index. index.keys ≡ keys.items) }
    {
        let entries = sorted_entries(alloc, keys.as_slice())?;
        let places = places_in_order(alloc, entries.as_slice())?;
        Ok(Index {
            keys,
            entries,
            places,
        })
    }

    /// The key of a place.
    pub fn key(&self, place: usize) -> u32
        requires { place < length self.now.keys }
        ensures { result ≡ slice_index self.now.keys place }
    {
        self.keys[place]
    }

    /// Where the places of a key stand.
    pub fn find(&self, key: u32) -> Span
        ensures { IsSpanOf self.now.keys self.now.places key result }
    {
        span_in(&self.entries, key)
    }

    /// The places that stand there.
    pub fn places_at(&self, span: Span) -> &[u32]
        requires { span.end ≤ length self.now.places }
        ensures places { result.now ≡ within self.now.places span }
        ensures held { All (λ k. k < length self.now.keys) result.now }
    {
        items_between(
            self.places.as_slice(),
            span.start as usize,
            span.end as usize,
        )
    }

    /// The places of a key, each at least once.
    pub fn places_of(&self, key: u32) -> &[u32]
        ensures { ArePlacesOf self.now.keys key result.now }
    {
        self.places_at(self.find(key))
    }

    /// A place that has the key.
    pub fn place(&self, key: u32) -> Option<u32>
        ensures { MatchOption result (has self.now.keys key ≡ false) (IsPlaceOf self.now.keys key) }
    {
        let places = self.places_of(key);
        if places.is_empty() {
            return None;
        }
        Some(places[0])
    }

    /// Whether a place has the key.
    pub fn has(&self, key: u32) -> bool
        ensures { result ≡ has self.now.keys key }
    {
        self.place(key).is_some()
    }

    /// Puts the places of a key in `due`. It costs their number.
    pub fn insert_places(&self, key: u32, due: &mut Worklist)
        requires { length due.old.listed ≡ length self.now.keys }
        ensures { PutsNodes self.now.keys (key ∷ []) due.old.listed due.new.listed }
    {
        due.insert_all(self.places_of(key));
    }

    /// Puts the places that stand there into a part with as many places, or takes them out.
    pub fn switch(&self, part: &mut Part, span: Span, on: bool)
        requires size { length part.old ≡ length self.now.keys }
        requires fits { span.end ≤ length self.now.places }
        ensures size { length part.new ≡ length part.old }
        ensures part { (key : ℕ) → ArePlacesOf self.now.keys key (within self.now.places span)
            → part.new ≡ switched self.now.keys key on part.old }
    {
        set_all(self.places_at(span), part, on);
    }
}
