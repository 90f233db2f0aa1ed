//! A shelf over files. What a real file holds, no contract can say.
ghost use Rattle.std.proofs.Common.{rules};
ghost use Rattle.std.specs.Prelude.{◌≡◌, ◌≤◌, ◌+◌, ◌↔◌, Some, None, IsTrue, IsSomeAnd, IsErr, IfSome, IfOk, OnOk, OnErr, length};
ghost use Rattle.std.specs.Io.KnownBytes.{ReadConsumes};
ghost use Rattle.mono_io.specs.FileShelf.{IsReadOn, shown_by};
ghost use Rattle.mono_io.specs.Faults.{HasCause, counted};
ghost use Rattle.mono_io.specs.Shelf.{Lacks, told_text, advanced, moved, ReadsNext};

use crate::{Failed, FileAccess, Shelf};
use std::marker::Model;

/// The farthest place that a read may reach: 2^63.
pub const LAST_PLACE: u64 = 1 << 63;

const _: () = prove!(LAST_PLACE == 9_223_372_036_854_775_808);

/// Files by their paths, of which one at a time is open. As a shelf it tells its texts where the access tells what the files
/// give. Whatever the system refuses is a fault, and so is a read that could carry the place past `LAST_PLACE`.
///
/// Contracts see the place, how often a name was begun and the count of faults, and what the access to the files tells:
/// what a file gives, which one is open, what it will still give, how often a file was opened and how often a call was refused.
#[derive(Drop)]
pub struct FileShelf<A: FileAccess> {
    access: A,
    place: Option<u64>,
    faults: u64,
}

impl<A: FileAccess> Model for FileShelf<A> {
    ghost use Rattle.mono_io.specs.Shelf.{told_text};
    ghost use Rattle.mono_io.specs.FileShelf.{FileState, IsReadOn};

    ghost Value = { FileState };

    ghost view = { λ shelf. record {
      place = shelf.place;
      begun = A.opens shelf.access;
      faults = shelf.faults;
      contents = A.contents shelf.access;
      opened = A.opened shelf.access;
      rest = A.rest shelf.access;
      refusals = A.refusals shelf.access;
    } };

    ghost invariant = { λ shelf. IsReadOn (told_text (A.contents shelf.access) (A.opened shelf.access)) shelf.place (A.rest shelf.access) };
}

impl<A: FileAccess> FileShelf<A> {
    /// A shelf over these files, of which none is chosen.
    pub fn new(access: A) -> Self
        ensures { result ≡ record {
          place = None;
          begun = A.opens access;
          faults = 0;
          contents = A.contents access;
          opened = A.opened access;
          rest = A.rest access;
          refusals = A.refusals access;
        } }
    {
        FileShelf {
            access,
            place: None,
            faults: 0,
        }
    }

    /// The files, as they stand.
    pub fn into_access(self) -> A
        ensures opens { A.opens result ≡ self.begun }
        ensures contents { A.contents result ≡ self.contents }
        ensures opened { A.opened result ≡ self.opened }
        ensures rest { A.rest result ≡ self.rest }
        ensures refusals { A.refusals result ≡ self.refusals }
    {
        self.access
    }

    /// Opens the file, and counts no failure.
    fn open(&mut self, name: &str) -> Result<(), Failed>
        ensures place { OnOk result (self.new.place ≡ Some 0) }
        ensures nothing { OnErr result (self.new.place ≡ None) }
        ensures opened { OnOk result (IfSome self.old.contents (λ _. self.new.opened ≡ name.now)) }
        ensures rest { OnOk result (IfSome (told_text self.old.contents name.now) (λ bytes. self.new.rest ≡ Some bytes)) }
        ensures lacking { Lacks self.old.contents name.now → IsErr result }
        ensures contents { self.new.contents ≡ self.old.contents }
        ensures begun { self.new.begun ≡ counted self.old.begun }
        ensures faults { self.new.faults ≡ self.old.faults }
        ensures refusals { HasCause self.old.refusals self.new.refusals result }
    {
        self.place = None;
        self.access.open(name)?;
        self.place = Some(0);
        Ok(())
    }

    /// Reads on in the open file, and counts no failure.
    fn read_on(&mut self, buf: &mut [u8]) -> Result<usize, Failed>
        ensures bound { IfOk result (λ count. count ≤ length buf.new) }
        ensures place { self.new.place ≡ advanced (moved result) self.old.place }
        ensures bytes { ReadsNext (told_text self.old.contents self.old.opened) self.old.place buf.new result }
        ensures nothing { self.old.place ≡ None → IsErr result }
        ensures stays { self.new ≡ record self.new { begun = self.old.begun; faults = self.old.faults; contents = self.old.contents; opened = self.old.opened } }
        ensures rest { ReadConsumes self.old.rest self.new.rest result buf.new }
        ensures reached { IsSomeAnd self.old.place (λ at. at + length buf.old ≤ LAST_PLACE) → HasCause self.old.refusals self.new.refusals result }
        ensures beyond { ¬ IsSomeAnd self.old.place (λ at. at + length buf.old ≤ LAST_PLACE) → IsErr result × (self.new ≡ self.old) }
    {
        let place = self.place.ok_or(Failed)?;
        if !is_within_reach(place, buf.len()) {
            return Err(Failed);
        }
        let count = self.access.read(buf)?;
        self.place = Some(place + count as u64);
        Ok(count)
    }
}

/// Whether so many bytes more stay within the farthest place.
fn is_within_reach(place: u64, count: usize) -> bool
    ensures { IsTrue result ↔ (place + count ≤ LAST_PLACE) }
{
    place <= LAST_PLACE && count as u64 <= LAST_PLACE - place
}

impl<A: FileAccess> Shelf for FileShelf<A> {
    ghost seen = { λ shelf. shown_by shelf };

    ghost steady_tells = { λ shelf steady. absurd (Prim.search rules) };

    /// One file is opened, and one call was refused exactly where this one failed. Where the access tells it, what the file
    /// gives from then on is the content of that name.
    fn begin(&mut self, name: &str) -> Result<(), Failed>
        ensures rest { OnOk result (IfSome (told_text self.old.contents name.now) (λ bytes. self.new.rest ≡ Some bytes)) }
        ensures refusals { HasCause self.old.refusals self.new.refusals result }

        // What the trait asks, in this shelf's terms.
        ensures place { OnOk result (self.new.place ≡ Some 0) }
        ensures chosen { OnOk result (IfSome self.old.contents (λ _. self.new.opened ≡ name.now)) }
        ensures nothing { OnErr result (self.new.place ≡ None) }
        ensures lacking { Lacks self.old.contents name.now → IsErr result }
        ensures texts { self.new.contents ≡ self.old.contents }
        ensures begun { self.new.begun ≡ counted self.old.begun }
        ensures cause { HasCause self.old.faults self.new.faults result }
    {
        let result = self.open(name);
        if result.is_err() {
            self.faults = self.faults.saturating_add(1);
        }
        result
    }

    /// Where the access tells it, the bytes are the next ones of the file, and a read that fails loses none. One call was
    /// refused exactly where this one failed. A read with nothing chosen, and one that could pass the farthest place,
    /// fails and changes nothing else.
    fn read(&mut self, buf: &mut [u8]) -> Result<usize, Failed>
        ensures rest { ReadConsumes self.old.rest self.new.rest result buf.new }
        ensures reached { IsSomeAnd self.old.place (λ at. at + length buf.old ≤ LAST_PLACE) → HasCause self.old.refusals self.new.refusals result }
        ensures beyond { ¬ IsSomeAnd self.old.place (λ at. at + length buf.old ≤ LAST_PLACE)
            → IsErr result × (self.new ≡ record self.old { faults = counted self.old.faults }) }

        // What the trait asks, in this shelf's terms.
        ensures bound { IfOk result (λ count. count ≤ length buf.new) }
        ensures place { self.new.place ≡ advanced (moved result) self.old.place }
        ensures bytes { ReadsNext (told_text self.old.contents self.old.opened) self.old.place buf.new result }
        ensures nothing { self.old.place ≡ None → IsErr result }
        ensures chosen { self.new.opened ≡ self.old.opened }
        ensures begun { self.new.begun ≡ self.old.begun }
        ensures texts { self.new.contents ≡ self.old.contents }
        ensures cause { HasCause self.old.faults self.new.faults result }
    {
        let result = self.read_on(buf);
        if result.is_err() {
            self.faults = self.faults.saturating_add(1);
        }
        result
    }
}
