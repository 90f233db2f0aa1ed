//! Lists by key: each key below a fixed number has a list of its own, which grows and shrinks at its end.
//!
//! All items stand in one table, where each list has a stretch. A list whose stretch is full moves behind all others, to a
//! stretch of twice the length. So no list asks for memory of its own, short ones take little more than their items, and a
//! copy has its lists side by side.

ghost use Rattle.std.specs.Prelude.{◌≡◌, ◌<◌, ◌≤◌, ◌+◌, ◌-◌, ◌++◌, ◌∷◌, [], IfOk, OnOk, OnErr, length, replicate, slice_set, slice_index_or, take};
ghost use Rattle.mono_base.specs.Buckets.{AreApart, IsBehind, has_room, listed_in, lists_in, no_stretch, stretch_at};

use std::alloc::{AllocError, Global};
use std::marker::Model;

/// Where a list stands in the table: from which place on, how many items it has, and for how many there is room.
#[derive(Clone, Copy)]
pub(crate) struct Stretch {
    pub(crate) start: u32,
    pub(crate) len: u32,
    pub(crate) room: u32,
}

/// The stretch of a list that has had no item.
const NOWHERE: Stretch = Stretch {
    start: 0,
    len: 0,
    room: 0,
};

/// A list of items for each key, as the edges at each node of a graph.
#[derive(Drop)]
pub struct Buckets<T> {
    /// By key.
    stretches: Vec<Stretch>,
    items: Vec<T>,
}

impl<T> Model for Buckets<T> {
    ghost use Rattle.std.specs.Prelude.{List, length};

    ghost Value = { List (List T) };

    ghost use Rattle.mono_base.specs.Buckets.{AreApart, lists_in};

    ghost view = { λ b. lists_in b.items.items b.stretches.items };

    ghost invariant = { λ b. AreApart (length b.items.items) b.stretches.items };
}

/// So many stretches of lists that have had no item.
fn empty_stretches(alloc: Global, keys: u32) -> Result<Vec<Stretch>, AllocError>
    ensures { IfOk result (λ stretches. stretches.items ≡ replicate keys no_stretch) }
{
    vec![in alloc; NOWHERE; keys as usize]
}

/// The items of a stretch.
fn listed<T>(items: &[T], at: Stretch) -> &[T]
    requires { at.start + at.len ≤ length items.now }
    ensures { result.now ≡ listed_in items.now at }
{
    let start = at.start as usize;
    let end = start + at.len as usize;
    &items[start..end]
}

/// Copies the items of a stretch behind all others, to a stretch of twice the length.
fn copy_behind<T: Copy>(items: &mut Vec<T>, at: Stretch, filler: T) -> Result<Stretch, AllocError>
    requires { at.start + at.len ≤ length items.old.items }
    ensures kept { take (length items.old.items) items.new.items ≡ items.old.items }
    ensures behind { IfOk result (IsBehind items.old.items items.new.items at) }
{
    let start = items.len();
    let room = (2 * at.len as usize).max(1);
    let most = u32::MAX as usize;
    if start > most || room > most - start {
        return Err(AllocError);
    }
    let first = at.start as usize;
    let end = first + at.len as usize;
    items.extend_from_within(first..end)?;
    items.resize(start + room, filler)?;
    Ok(Stretch {
        start: start as u32,
        len: at.len,
        room: room as u32,
    })
}

/// Makes room for one more item in the list at a key. Where memory is missing, the lists are as before.
fn make_room<T: Copy>(
    stretches: &mut Vec<Stretch>,
    items: &mut Vec<T>,
    key: u32,
    filler: T,
) -> Result<(), AllocError>
    requires apart { AreApart (length items.old.items) stretches.old.items }
    requires key { key < length stretches.old.items }
    ensures apart { AreApart (length items.new.items) stretches.new.items }
    ensures same { lists_in items.new.items stretches.new.items ≡ lists_in items.old.items stretches.old.items }
    ensures room { OnOk result (has_room (stretch_at stretches.new.items key)) }
{
    let at = stretches[key as usize];
    if at.len < at.room {
        return Ok(());
    }
    let behind = copy_behind(items, at, filler)?;
    stretches[key as usize] = behind;
    Ok(())
}

/// Adds an item to the list at a key, where there is room for it.
fn put<T: Copy>(stretches: &mut Vec<Stretch>, items: &mut Vec<T>, key: u32, item: T)
    requires apart { AreApart (length items.old.items) stretches.old.items }
    requires key { key < length stretches.old.items }
    requires room { has_room (stretch_at stretches.old.items key) }
    ensures apart { AreApart (length items.new.items) stretches.new.items }
    ensures added { lists_in items.new.items stretches.new.items
        ≡ slice_set (lists_in items.old.items stretches.old.items) key
        (slice_index_or (lists_in items.old.items stretches.old.items) key [] ++ item ∷ []) }
{
    let at = stretches[key as usize];
    items[at.start as usize + at.len as usize] = item;
    stretches[key as usize] = Stretch {
        start: at.start,
        len: at.len + 1,
        room: at.room,
    };
}

/// Adds a list behind those of the keys so far. Where memory is missing, the lists are as before.
fn push_list<T: Copy>(
    stretches: &mut Vec<Stretch>,
    items: &mut Vec<T>,
    list: &[T],
) -> Result<(), AllocError>
    requires apart { AreApart (length items.old.items) stretches.old.items }
    ensures apart { AreApart (length items.new.items) stretches.new.items }
    ensures added { OnOk result (lists_in items.new.items stretches.new.items ≡ lists_in items.old.items stretches.old.items ++ list.now ∷ []) }
{
    let start = items.len();
    let most = u32::MAX as usize;
    if start > most || list.len() > most {
        return Err(AllocError);
    }
    items.extend_from_slice(list)?;
    let len = list.len() as u32;
    stretches.push(Stretch {
        start: start as u32,
        len,
        room: len,
    })?;
    Ok(())
}

/// The same lists, side by side.
fn copy_lists<T: Copy>(
    alloc: Global,
    stretches: &[Stretch],
    items: &[T],
) -> Result<(Vec<Stretch>, Vec<T>), AllocError>
    requires { AreApart (length items.now) stretches.now }
    ensures apart { IfOk result (λ copy. AreApart (length copy.1.items) copy.0.items) }
    ensures same { IfOk result (λ copy. lists_in copy.1.items copy.0.items ≡ lists_in items.now stretches.now) }
{
    let mut copied = Vec::with_capacity(alloc, stretches.len())?;
    let mut all = Vec::with_capacity(alloc, items.len())?;
    for at in stretches {
        push_list(&mut copied, &mut all, listed(items, *at))?;
    }
    Ok((copied, all))
}

impl<T: Copy> Buckets<T> {
    /// An empty list for each key below `keys`.
    pub fn new(alloc: Global, keys: u32) -> Result<Self, AllocError>
        ensures { IfOk result (λ buckets. buckets ≡ replicate keys []) }
    {
        let stretches = empty_stretches(alloc, keys)?;
        Ok(Buckets {
            stretches,
            items: Vec::new(alloc),
        })
    }

    /// The items at the key, in the order in which they were added.
    pub fn list(&self, key: u32) -> &[T]
        requires { key < length self.now }
        ensures { result.now ≡ slice_index_or self.now key [] }
    {
        listed(self.items.as_slice(), self.stretches[key as usize])
    }

    /// Adds the item behind those at the key.
    pub fn push(&mut self, key: u32, item: T) -> Result<(), AllocError>
        requires { key < length self.old }
        ensures ok { OnOk result (self.new ≡ slice_set self.old key (slice_index_or self.old key [] ++ item ∷ [])) }
        ensures err { OnErr result (self.new ≡ self.old) }
    {
        make_room(&mut self.stretches, &mut self.items, key, item)?;
        put(&mut self.stretches, &mut self.items, key, item);
        Ok(())
    }

    /// Takes away the last item at the key, if there is one.
    pub fn pop(&mut self, key: u32)
        requires { key < length self.old }
        ensures { let list = slice_index_or self.old key [] in self.new ≡ slice_set self.old key (take (length list - 1) list) }
    {
        let at = self.stretches[key as usize];
        self.stretches[key as usize] = Stretch {
            start: at.start,
            len: at.len.saturating_sub(1),
            room: at.room,
        };
    }

    /// An equal value on the same allocator.
    pub fn copy(&self) -> Result<Self, AllocError>
        ensures { IfOk result (λ buckets. buckets ≡ self.now) }
    {
        let alloc = *self.items.allocator();
        let (stretches, items) = copy_lists(alloc, &self.stretches, &self.items)?;
        Ok(Buckets { stretches, items })
    }
}
