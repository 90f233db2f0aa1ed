//! Chunks of eight cells, of which the watch lists are made: each list is a stack of them, and all lie in one pool.
//!
//! A place is the index of a cell. From the first cell of a chunk the chunk's link leads to the top place of the chunk
//! below, and from another cell the way leads to the cell before it. All chunks of a stack but the top one are full. The
//! greatest link ends a stack; like the top place of a full chunk it is 7 modulo 8, so one test says that a push needs a
//! chunk.

ghost use Rattle.std.specs.Prelude.{◌≡◌, ◌≢◌, ℕ, ℤ, ◌+◌, ◌*◌, ◌%◌, ◌<◌, ◌≤◌, List, ◌++◌, ◌∷◌, [], length, slice_index_or, replicate, Option, OnOk, vec_len, vec_capacity};
ghost use Rattle.mono_clauses.specs.Lists.{times};
ghost use Rattle.mono_clauses.specs.Stacks.{below, Climbed, HasRoom, IsChunked, Put, Removed};

use std::alloc::AllocError;

/// The end of every stack.
pub const END: u32 = 0xffff_ffff;

/// The pool of the chunks.
pub struct Chunks {
    /// Watchers, eight cells a chunk.
    pub cells: Vec<u32>,
    /// By chunk: the top place of the chunk below it.
    pub links: Vec<u32>,
    /// The first places of the chunks in no stack.
    pub free: Vec<u32>,
}

impl Drop for Chunks {
    fn drop(self) {
        let Chunks {
            cells: _,
            links: _,
            free: _,
        } = self;
    }
}

/// The place below one of a stack.
pub fn place_below(links: &Vec<u32>, place: u32) -> u32
    requires { place < 8 * length links.now.items }
    ensures { result ≡ below links.now.items place }
{
    if place % 8 == 0 {
        links[place as usize / 8]
    } else {
        place - 1
    }
}

/// A place on top of a stack: the next cell of its top chunk, or the first one of a free chunk.
fn climb(links: &mut Vec<u32>, free_chunks: &mut Vec<u32>, top: u32) -> u32
    requires some { top % 8 ≡ 7 → 0 < length free_chunks.old.items }
    requires free_chunks { (x : ℕ) → 1 ≤ times x free_chunks.old.items → (x % 8 ≡ 0) × (x < 8 * length links.old.items) }
    ensures is { Climbed links.old.items free_chunks.old.items top links.new.items free_chunks.new.items result }
    ensures capacity { vec_capacity free_chunks.new ≡ vec_capacity free_chunks.old }
{
    if top % 8 != 7 {
        return top + 1;
    }
    match free_chunks.pop() {
        Some(place) => {
            links[place as usize / 8] = top;
            place
        }
        None => unreachable!(),
    }
}

/// The watcher at a place of a stack leaves it: the top one takes its place.
pub fn remove(
    cells: &mut Vec<u32>,
    links: &Vec<u32>,
    free_chunks: &mut Vec<u32>,
    heads: &mut Vec<u32>,
    slot: usize,
    place: u32,
)
    requires in_range { slot < length heads.old.items }
    requires size { length cells.old.items ≡ 8 * length links.now.items }
    requires place { place < 8 * length links.now.items }
    requires top { slice_index_or heads.old.items slot 4294967295 < 8 * length links.now.items }
    requires room { slice_index_or heads.old.items slot 4294967295 % 8 ≡ 0 → vec_len free_chunks.old < vec_capacity free_chunks.old }
    ensures is { Removed cells.old.items links.now.items free_chunks.old.items heads.old.items slot place
        cells.new.items free_chunks.new.items heads.new.items }
    ensures capacity { vec_capacity free_chunks.old ≤ vec_capacity free_chunks.new }
{
    let top = heads[slot];
    cells[place as usize] = cells[top as usize];
    heads[slot] = place_below(links, top);
    if top % 8 == 0 {
        free_chunks.push_reserved(top);
    }
}

impl Chunks {
    /// A watcher comes onto a stack.
    pub fn put(&mut self, heads: &mut Vec<u32>, slot: usize, watcher: u32)
        requires in_range { slot < length heads.old.items }
        requires size { length self.old.cells.items ≡ 8 * length self.old.links.items }
        requires top { slice_index_or heads.old.items slot 4294967295 % 8 ≢ 7
            → slice_index_or heads.old.items slot 4294967295 < 8 * length self.old.links.items }
        requires some { slice_index_or heads.old.items slot 4294967295 % 8 ≡ 7 → 0 < length self.old.free.items }
        requires free_chunks { (x : ℕ) → 1 ≤ times x self.old.free.items → (x % 8 ≡ 0) × (x < 8 * length self.old.links.items) }
        ensures is { Put self.old.cells.items self.old.links.items self.old.free.items heads.old.items slot watcher
            self.new.cells.items self.new.links.items self.new.free.items heads.new.items }
        ensures capacity { vec_capacity self.new.free ≡ vec_capacity self.old.free }
    {
        let top = heads[slot];
        let place = climb(&mut self.links, &mut self.free, top);
        self.cells[place as usize] = watcher;
        heads[slot] = place;
    }

    /// Room for two chunks more.
    pub fn reserve(&mut self) -> Result<(), AllocError>
        requires { length self.old.free.items ≤ length self.old.links.items }
        ensures cells { self.new.cells.items ≡ self.old.cells.items }
        ensures links { self.new.links.items ≡ self.old.links.items }
        ensures free_chunks { self.new.free.items ≡ self.old.free.items }
        ensures room { OnOk result ((vec_len self.new.cells + 16 ≤ vec_capacity self.new.cells) × (vec_len self.new.links + 2 ≤ vec_capacity self.new.links)
            × (vec_len self.new.links + 2 ≤ vec_capacity self.new.free)) }
        ensures capacity { vec_capacity self.old.free ≤ vec_capacity self.new.free }
    {
        self.cells.reserve(16)?;
        self.links.reserve(2)?;
        self.free.reserve(self.links.len() - self.free.len() + 2)?;
        Ok(())
    }

    /// One chunk more, which is free.
    fn add(&mut self)
        requires cells { vec_len self.old.cells + 8 ≤ vec_capacity self.old.cells }
        requires links { vec_len self.old.links < vec_capacity self.old.links }
        requires free_chunks { vec_len self.old.free < vec_capacity self.old.free }
        requires few { length self.old.links.items ≤ 536870896 }
        ensures cells { self.new.cells.items ≡ self.old.cells.items ++ replicate 8 0 }
        ensures links { self.new.links.items ≡ self.old.links.items ++ 4294967295 ∷ [] }
        ensures free_chunks { self.new.free.items ≡ self.old.free.items ++ (8 * length self.old.links.items) ∷ [] }
        ensures capacity { (vec_capacity self.old.cells ≤ vec_capacity self.new.cells) × (vec_capacity self.old.links ≤ vec_capacity self.new.links)
            × (vec_capacity self.old.free ≤ vec_capacity self.new.free) }
    {
        let place = 8 * self.links.len() as u32;
        match self.cells.extend_from_slice(&[0; 8]) {
            Ok(()) => {}
            Err(_) => unreachable!(),
        }
        self.links.push_reserved(END);
        self.free.push_reserved(place);
    }

    /// Room for two watchers more where there was room for all: two free chunks, unless there are `most` chunks, or `least` cells, already.
    pub fn widen(&mut self, most: usize, least: usize)
        requires size { length self.old.cells.items ≡ 8 * length self.old.links.items }
        requires cells { vec_len self.old.cells + 16 ≤ vec_capacity self.old.cells }
        requires links { vec_len self.old.links + 2 ≤ vec_capacity self.old.links }
        requires free_chunks { vec_len self.old.free + 2 ≤ vec_capacity self.old.free }
        requires few { length self.old.links.items < 536870896 }
        ensures chunked { (vars list : ℕ) (heads ahead : List ℕ) (watched : List (Option ℤ))
            → IsChunked vars self.old.links.items self.old.cells.items self.old.free.items heads watched list ahead
            → IsChunked vars self.new.links.items self.new.cells.items self.new.free.items heads watched list ahead }
        ensures room { (watchers slots : ℕ) → most ≡ watchers + 2 → least ≡ most + 7 * slots
            → HasRoom watchers slots (length self.old.links.items) → HasRoom (watchers + 2) slots (length self.new.links.items) }
        ensures two { length self.new.links.items ≤ length self.old.links.items + 2 }
        ensures few { 8 * length self.old.links.items ≤ least + 16 → 8 * length self.new.links.items ≤ least + 16 }
        ensures capacity { vec_capacity self.old.free ≤ vec_capacity self.new.free }
    {
        if self.links.len() >= most {
            return;
        }
        if self.cells.len() >= least {
            return;
        }
        self.add();
        self.add();
    }
}
