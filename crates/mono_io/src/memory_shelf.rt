//! A shelf in memory, whose calls can be made to fail.
ghost use Rattle.std.specs.Prelude.{◌≡◌, ◌≤◌, ◌+◌, ◌-◌, ◌^◌, ◌↔◌, [], ◌∷◌, ◌++◌, Some, None, IsSome, IsOk, IsTrue, IsFalse, IfOk, OnOk, OnErr, length, take, drop, min, refl};
ghost use Rattle.mono_io.specs.Faults.{counted};
ghost use Rattle.mono_io.specs.FaultPlan.{next_is_listed, succeeded, failed, is_over};
ghost use Rattle.mono_io.specs.Shelf.{text_named, told_text, Lacks, moved, advanced, ReadsNext};
ghost use Rattle.mono_io.specs.Texts.{Puts};
ghost use Rattle.mono_io.specs.MemoryShelf.{left_to_read};

use crate::fault_plan::FaultPlan;
use crate::text_table::TextTable;
use crate::{Failed, Shelf};
use std::alloc::{AllocError, Global};
use std::marker::Model;

#[derive(Clone, Copy)]
struct Chosen {
    at: usize,
    place: usize,
}

/// Texts by name in memory. It tells its texts, and is steady where no call still to come is listed to fail.
///
/// Contracts see its texts, the chosen name and the place in it, the most bytes that a read gives, how often
/// a name was begun, and the plan of its faults: the calls so far, the numbers of those that are to fail, and
/// how many have failed.
pub struct MemoryShelf {
    texts: TextTable,
    chosen: Option<Chosen>,
    most: usize,
    begun: u64,
    plan: FaultPlan,
}

impl Drop for MemoryShelf {
    fn drop(self) {
        let MemoryShelf {
            texts: _,
            chosen: _,
            most: _,
            begun: _,
            plan: _,
        } = self;
    }
}

impl Model for MemoryShelf {
    ghost use Rattle.std.specs.Prelude.{◌≤◌, option_map, IfSome};
    ghost use Rattle.mono_io.specs.MemoryShelf.{ShelfState};
    ghost use Rattle.mono_io.specs.Texts.{name_at, IsReading};

    ghost Value = { ShelfState };

    ghost view = { λ shelf. record {
      texts = shelf.texts;
      chosen = name_at shelf.texts (option_map (λ c. c.at) shelf.chosen);
      place = option_map (λ c. c.place) shelf.chosen;
      most = shelf.most;
      begun = shelf.begun;
      plan = shelf.plan;
    } };

    ghost invariant = { λ shelf. (1 ≤ shelf.most) × IfSome shelf.chosen (λ c. IsReading shelf.texts c.at c.place) };
}

impl MemoryShelf {
    /// A shelf without texts, on which no call is to fail.
    pub fn new(alloc: Global) -> Self
        ensures { result ≡ record {
          texts = [];
          chosen = [];
          place = None;
          most = 2 ^ 64 - 1;
          begun = 0;
          plan = record { calls = 0; listed = []; faults = 0 };
        } }
    {
        MemoryShelf {
            texts: TextTable::new(alloc),
            chosen: None,
            most: usize::MAX,
            begun: 0,
            plan: FaultPlan::new(alloc),
        }
    }

    /// Adds a text, or replaces that of the same name. Nothing is chosen afterwards.
    pub fn put(&mut self, name: &str, text: &[u8]) -> Result<(), AllocError>
        ensures puts { OnOk result (Puts self.old.texts self.new.texts name.now text.now) }
        ensures rest { OnOk result (self.new ≡ record self.old { texts = self.new.texts; chosen = []; place = None }) }
        ensures err { OnErr result (self.new ≡ self.old) }
    {
        self.texts.put(name, text)?;
        self.chosen = None;
        Ok(())
    }

    /// Makes the call of that number fail. Calls of `begin` and `read` are counted together, from 1.
    pub fn fail_at(&mut self, call: u64) -> Result<(), AllocError>
        ensures ok { OnOk result (self.new ≡ record self.old { plan = record self.old.plan { listed = self.old.plan.listed ++ call ∷ [] } }) }
        ensures err { OnErr result (self.new ≡ self.old) }
    {
        self.plan.fail_at(call)
    }

    /// Makes each read give at most that many bytes.
    pub fn pieces(&mut self, most: usize)
        requires { 1 ≤ most }
        ensures { self.new ≡ record self.old { most = most } }
    {
        self.most = most;
    }
}

impl Shelf for MemoryShelf {
    ghost seen = { λ shelf. record {
      texts = Some shelf.texts;
      chosen = shelf.chosen;
      place = shelf.place;
      begun = shelf.begun;
      faults = shelf.plan.faults;
      steady = is_over shelf.plan;
    } };

    ghost steady_tells = { λ shelf steady. refl };

    /// It fails exactly where the call is listed, or no text has the name.
    fn begin(&mut self, name: &str) -> Result<(), Failed>
        ensures answer { IsOk result ↔ (IsFalse (next_is_listed self.old.plan) × IsSome (text_named name.now self.old.texts)) }
        ensures ok { OnOk result (self.new ≡ record self.old {
          chosen = name.now;
          place = Some 0;
          begun = counted self.old.begun;
          plan = succeeded self.old.plan;
        }) }
        ensures err { OnErr result (self.new ≡ record self.old { chosen = []; place = None; begun = counted self.old.begun; plan = failed self.old.plan }) }
        ensures steady { IsTrue (is_over self.old.plan) → IsTrue (is_over self.new.plan) }
        ensures sure { OnErr result (IsTrue (is_over self.old.plan) → Lacks (Some self.old.texts) name.now) }
    {
        self.begun = self.begun.saturating_add(1);
        self.chosen = None;
        let is_listed = self.plan.count_call();
        match self.texts.find(name) {
            Some(at) if !is_listed => {
                self.chosen = Some(Chosen { at, place: 0 });
                Ok(())
            }
            _ => Err(self.plan.fault()),
        }
    }

    /// It fails exactly where the call is listed, or nothing is chosen. It gives as many of the bytes that are
    /// left as fit in the buffer and in a piece.
    fn read(&mut self, buf: &mut [u8]) -> Result<usize, Failed>
        ensures answer { IsOk result ↔ (IsFalse (next_is_listed self.old.plan) × IsSome self.old.place) }
        ensures count { IfOk result (λ count. count ≡ min (length buf.old) (min self.old.most (length (left_to_read self.old)))) }
        ensures copied { buf.new ≡ take (moved result) (left_to_read self.old) ++ drop (moved result) buf.old }
        ensures ok { OnOk result (self.new ≡ record self.old { place = advanced (moved result) self.old.place; plan = succeeded self.old.plan }) }
        ensures err { OnErr result (self.new ≡ record self.old { plan = failed self.old.plan }) }
        ensures bytes { ReadsNext (told_text (Some self.old.texts) self.old.chosen) self.old.place buf.new result }
        ensures steady { IsTrue (is_over self.old.plan) → IsTrue (is_over self.new.plan) }
        ensures sure { OnErr result (IsTrue (is_over self.old.plan) → self.old.place ≡ None) }
    {
        let is_listed = self.plan.count_call();
        match self.chosen {
            Some(chosen) if !is_listed => {
                let left = &self.texts.text(chosen.at)[chosen.place..];
                let count = copy_front(buf, left, self.most);
                self.chosen = Some(Chosen {
                    at: chosen.at,
                    place: chosen.place + count,
                });
                Ok(count)
            }
            _ => Err(self.plan.fault()),
        }
    }
}

/// Copies the front of the source to the front of the buffer, at most `most` bytes, and says how many.
fn copy_front(buffer: &mut [u8], source: &[u8], most: usize) -> usize
    ensures count { result ≡ min (length buffer.old) (min most (length source.now)) }
    ensures copied { buffer.new ≡ take result source.now ++ drop result buffer.old }
{
    let count = buffer.len().min(most.min(source.len()));
    buffer[..count].copy_from_slice(&source[..count]);
    count
}
