//! The watch lists.
//!
//! A clause has two watchers. A watcher that is busy watches a literal, and stands in the list of that literal, and
//! nowhere else. While the watchers of one list are visited from its top down, the watchers still to come are those ahead; those passed stay
//! in it. One that leaves is replaced by the top one, which is itself or was passed, so no watcher ahead moves.
//!
//! The room that the lists can need is made with the watchers: a chunk for each watcher, or where that is less, a cell for each
//! watcher and seven for each list, whose top chunk may lack as many. So no visit takes memory.

ghost use Rattle.std.specs.Prelude.{◌≡◌, ◌≢◌, ℕ, ◌+◌, ◌*◌, ◌^◌, ◌<◌, ◌≤◌, ◌++◌, ◌∷◌, [], length, slice_index_or, replicate, Some, None, IfOk, OnOk, OnErr, vec_len, vec_capacity, pos, false};
ghost use Rattle.mono_base.specs.declared.limits.TheConstants.{MAX_VARS};
ghost use Rattle.mono_base.specs.Literal.{IsLitWithin};
ghost use Rattle.mono_clauses.specs.Stacks.{Rest, Rest-prop};

use crate::chunks::{Chunks, END, place_below, remove};
use mono_base::Lit;
use std::alloc::{AllocError, Global};
use std::marker::Model;

/// What each watcher watches, and the watch lists.
#[derive(Drop)]
pub struct Watches {
    vars: u32,
    /// By watcher: whether it watches anything.
    busy: Vec<bool>,
    /// By watcher: what it watches.
    lits: Vec<Lit>,
    /// What the lists are made of.
    chunks: Chunks,
    /// By literal: the top place of its list.
    heads: Vec<u32>,
    /// Whose list is visited, and the place in it to look at.
    list: usize,
    here: u32,
    ghost rest: { Rest chunks.links.items here } by { Rest-prop chunks.links.items here },
}

impl Model for Watches {
    ghost use Rattle.std.specs.Prelude.{◌≡◌, ◌+◌, ◌*◌, ◌≤◌, length, vec_capacity};
    ghost use Rattle.mono_clauses.specs.Watching.{watched_of, WatchesView};
    ghost use Rattle.mono_clauses.specs.Stacks.{IsChunked, watchers_at};

    ghost Value = { WatchesView };

    ghost view = { λ s. record { vars = s.vars; watched = watched_of s.busy.items s.lits.items; ahead = watchers_at s.chunks.cells.items s.rest.places } };

    ghost invariant = { λ s. IsChunked s.vars s.chunks.links.items s.chunks.cells.items s.chunks.free.items s.heads.items
        (watched_of s.busy.items s.lits.items) s.list s.rest.places × (length s.chunks.links.items ≤ vec_capacity s.chunks.free)
        × (length s.busy.items ≡ length s.lits.items) × (8 * length s.chunks.links.items ≤ length s.lits.items + 7 * (2 * s.vars + 2) + 16) };
}

impl Watches {
    ghost use Rattle.mono_clauses.specs.Watching.{no_watches, more_watches, attached, emptied, Placed, Kept, StartsVisits};
    ghost use Rattle.mono_clauses.specs.Lists.{first_of};

    /// No watchers.
    pub fn new(alloc: Global, vars: u32) -> Result<Watches, AllocError>
        requires { vars ≤ MAX_VARS }
        ensures { IfOk result (λ w. w ≡ no_watches vars) }
    {
        let count = 2 * vars as usize + 2;
        let heads = ends(alloc, count)?;
        let cells = Vec::new(alloc);
        let links = Vec::new(alloc);
        let free = Vec::new(alloc);
        let chunks = Chunks { cells, links, free };
        Ok(Watches {
            vars,
            busy: Vec::new(alloc),
            lits: Vec::new(alloc),
            chunks,
            heads,
            list: 0,
            here: END,
        })
    }

    /// Two watchers more, which watch nothing.
    pub fn grow(&mut self) -> Result<(), AllocError>
        requires empty { self.old.ahead ≡ [] }
        ensures ok { OnOk result (self.new ≡ more_watches self.old) }
        ensures err { OnErr result (self.new ≡ self.old) }
    {
        // A place has to be less than the end of stacks.
        if self.chunks.links.len() >= 0x1fff_fff0 {
            return Err(AllocError);
        }
        reserve_watchers(&mut self.busy, &mut self.lits, &mut self.chunks)?;
        self.here = END;
        let count = 2 * self.vars as usize + 2;
        let watchers = self.lits.len() + 2;
        self.chunks.widen(watchers, watchers + 7 * count);
        add_idle(&mut self.busy, &mut self.lits);
        add_idle(&mut self.busy, &mut self.lits);
        Ok(())
    }

    /// How many watchers there are.
    pub fn len(&self) -> usize
        ensures { result ≡ length self.now.watched }
    {
        self.lits.len()
    }

    /// What holds of every such table. Nothing is computed: it is there for the clause.
    pub fn known(&self)
        ensures few { length self.now.watched < 2 ^ 64 }
    {
        let _ = self.len();
    }

    /// What a watcher watches.
    pub fn watch_of(&self, watcher: usize) -> Option<Lit>
        requires { watcher < length self.now.watched }
        ensures { result ≡ slice_index_or self.now.watched watcher None }
    {
        if self.busy[watcher] {
            Some(self.lits[watcher])
        } else {
            None
        }
    }

    /// What a watcher watches that watches something.
    pub fn watch(&self, watcher: usize) -> Lit
        requires in_range { watcher < length self.now.watched }
        requires busy { slice_index_or self.now.watched watcher None ≢ None }
        ensures { slice_index_or self.now.watched watcher None ≡ Some result }
    {
        self.lits[watcher]
    }

    /// The two watchers of the clause at a place watch nothing, and watch these literals from now on.
    pub fn attach_both(&mut self, place: usize, first: Lit, second: Lit)
        requires is_watcher { 2 * place + 1 < length self.old.watched }
        requires first { IsLitWithin self.old.vars first }
        requires second { IsLitWithin self.old.vars second }
        requires idle { slice_index_or self.old.watched (2 * place) None ≡ None }
        requires both { slice_index_or self.old.watched (2 * place + 1) None ≡ None }
        requires empty { self.old.ahead ≡ [] }
        ensures { self.new ≡ attached (attached self.old (2 * place) first) (2 * place + 1) second }
    {
        self.known();
        self.attach(2 * place, first);
        self.attach(2 * place + 1, second);
    }

    /// A watcher that watches nothing watches the literal.
    fn attach(&mut self, watcher: usize, lit: Lit)
        requires is_watcher { watcher < length self.old.watched }
        requires in_range { IsLitWithin self.old.vars lit }
        requires idle { slice_index_or self.old.watched watcher None ≡ None }
        requires empty { self.old.ahead ≡ [] }
        ensures { self.new ≡ attached self.old watcher lit }
    {
        let slot = lit.slot();
        self.here = END;
        self.chunks.put(&mut self.heads, slot, watcher as u32);
        self.busy[watcher] = true;
        self.lits[watcher] = lit;
    }

    /// The list of the literal is visited from now on: its watchers are ahead.
    pub fn start_visits(&mut self, lit: Lit)
        requires in_range { IsLitWithin self.old.vars lit }
        ensures { StartsVisits self.old self.new lit }
    {
        self.list = lit.slot();
        self.here = self.heads[self.list];
    }

    /// The first watcher ahead.
    pub fn first(&self) -> Option<usize>
        ensures { result ≡ first_of self.now.ahead }
    {
        if self.here == END {
            None
        } else {
            Some(self.chunks.cells[self.here as usize] as usize)
        }
    }

    /// The first watcher ahead is passed, and stays.
    pub fn keep(&mut self)
        requires { 0 < length self.old.ahead }
        ensures { Kept self.old self.new }
    {
        self.here = place_below(&self.chunks.links, self.here);
    }

    /// The first watcher ahead leaves the list, and watches another literal.
    pub fn shift(&mut self, lit: Lit)
        requires in_range { IsLitWithin self.old.vars lit }
        requires some { 0 < length self.old.ahead }
        requires another { (w : ℕ) → first_of self.old.ahead ≡ Some w → slice_index_or self.old.watched w None ≢ Some lit }
        ensures { Placed self.old self.new lit }
    {
        let here = self.here;
        let watcher = self.chunks.cells[here as usize];
        let after = place_below(&self.chunks.links, here);
        remove(
            &mut self.chunks.cells,
            &self.chunks.links,
            &mut self.chunks.free,
            &mut self.heads,
            self.list,
            here,
        );
        let slot = lit.slot();
        self.here = after;
        self.chunks.put(&mut self.heads, slot, watcher);
        self.lits[watcher as usize] = lit;
    }

    /// The visits end: the watchers ahead stay where they are.
    pub fn close(&mut self)
        ensures { self.new ≡ emptied self.old }
    {
        self.here = END;
    }
}

/// Room for two watchers more.
fn reserve_watchers(
    busy: &mut Vec<bool>,
    lits: &mut Vec<Lit>,
    chunks: &mut Chunks,
) -> Result<(), AllocError>
    requires { length chunks.old.free.items ≤ length chunks.old.links.items }
    ensures busy { busy.new.items ≡ busy.old.items }
    ensures lits { lits.new.items ≡ lits.old.items }
    ensures cells { chunks.new.cells.items ≡ chunks.old.cells.items }
    ensures links { chunks.new.links.items ≡ chunks.old.links.items }
    ensures free_chunks { chunks.new.free.items ≡ chunks.old.free.items }
    ensures room { OnOk result ((vec_len busy.new + 2 ≤ vec_capacity busy.new) × (vec_len lits.new + 2 ≤ vec_capacity lits.new)
        × (vec_len chunks.new.cells + 16 ≤ vec_capacity chunks.new.cells) × (vec_len chunks.new.links + 2 ≤ vec_capacity chunks.new.links)
        × (vec_len chunks.new.links + 2 ≤ vec_capacity chunks.new.free)) }
    ensures capacity { vec_capacity chunks.old.free ≤ vec_capacity chunks.new.free }
{
    busy.reserve(2)?;
    lits.reserve(2)?;
    chunks.reserve()
}

/// Pushes a watcher that watches nothing where there is room.
fn add_idle(busy: &mut Vec<bool>, lits: &mut Vec<Lit>)
    requires busy { vec_len busy.old < vec_capacity busy.old }
    requires lits { vec_len lits.old < vec_capacity lits.old }
    ensures busy { busy.new.items ≡ busy.old.items ++ false ∷ [] }
    ensures lits { lits.new.items ≡ lits.old.items ++ pos 1 ∷ [] }
    ensures room { (vec_capacity busy.old ≤ vec_capacity busy.new) × (vec_capacity lits.old ≤ vec_capacity lits.new) }
{
    busy.push_reserved(false);
    lits.push_reserved(Lit::default());
}

/// So many stacks with no watcher.
fn ends(alloc: Global, count: usize) -> Result<Vec<u32>, AllocError>
    ensures { IfOk result (λ v. v.items ≡ replicate count 4294967295) }
{
    vec![in alloc; END; count]
}
