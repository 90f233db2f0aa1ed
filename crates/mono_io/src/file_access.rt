//! Files by name, as a system gives them: one is open at a time.
//!
//! `FileShelf` is proved over every `FileAccess`, so also over one that tells all. `SystemFiles` is the real one. It tells
//! nothing of what lies on a disk. How often it was asked, it counts.
ghost use Rattle.std.specs.Prelude.{◌≡◌, ◌≤◌, ℕ, Bool, List, Option, Some, None, is_some, is_ok, IsFalse, IfSome, IfOk, IsErr, OnOk, [], option_and_then, length};
ghost use Rattle.std.specs.Io.KnownBytes.{ReadConsumes};
ghost use Rattle.mono_io.specs.Faults.{HasCause, counted};
ghost use Rattle.mono_io.specs.Shelf.{Texts, Lacks, told_text};

use crate::Failed;
use std::fs::File;
use std::io::Read;
use std::rt::Files;

/// Opens files by name, one at a time, and reads the open one.
pub trait FileAccess: Drop {
    /// What the files give, by their names, where that is told.
    ghost contents: { Self → Option Texts };

    /// Whether a file is open.
    ghost is_open: { Self → Bool };

    /// The name of the open file; it means something only where the contents are told.
    ghost opened: { Self → List ℕ };

    /// What the open file will still give, where that is told.
    ghost rest: { Self → Option (List ℕ) };

    /// How often a file was to be opened.
    ghost opens: { Self → ℕ };

    /// How often a call was refused.
    ghost refusals: { Self → ℕ };

    /// Opens the file of that name at its beginning, in place of the one that was open.
    ///
    /// `Failed` comes for a name that the contents lack, where they are told, and where it was refused, for whatever reason.
    /// No file is open then.
    fn open(&mut self, name: &str) -> Result<(), Failed>
        ensures is_open { is_open self.new ≡ is_ok result }
        ensures opened { OnOk result (IfSome (contents self.old) (λ _. opened self.new ≡ name.now)) }
        ensures rest { OnOk result (IfSome (told_text (contents self.old) name.now) (λ bytes. rest self.new ≡ Some bytes)) }
        ensures lacking { Lacks (contents self.old) name.now → IsErr result }
        ensures contents { contents self.new ≡ contents self.old }
        ensures opens { opens self.new ≡ counted (opens self.old) }
        ensures refusals { HasCause (refusals self.old) (refusals self.new) result };

    /// Reads the next bytes of the open file into the front of the buffer, and says how many.
    ///
    /// None for a buffer that isn't empty means the end of the file. `Failed` comes where no file is open, and where it was
    /// refused, for whatever reason; no byte is lost then.
    fn read(&mut self, buf: &mut [u8]) -> Result<usize, Failed>
        ensures closed { IsFalse (is_open self.old) → IsErr result }
        ensures bound { IfOk result (λ count. count ≤ length buf.new) }
        ensures rest { ReadConsumes (rest self.old) (rest self.new) result buf.new }
        ensures is_open { is_open self.new ≡ is_open self.old }
        ensures opened { opened self.new ≡ opened self.old }
        ensures contents { contents self.new ≡ contents self.old }
        ensures opens { opens self.new ≡ opens self.old }
        ensures refusals { HasCause (refusals self.old) (refusals self.new) result };
}

/// The files of the system. Whatever the system refuses is `Failed`, for want of memory too.
#[derive(Drop)]
pub struct SystemFiles<'a, R: Files> {
    files: &'a R,
    open_file: Option<R::File>,
    opens: u64,
    refusals: u64,
}

impl<'a, R: Files> SystemFiles<'a, R> {
    /// These files, of which none is open. None was to be opened so far, and no call was refused.
    pub fn new(files: &'a R) -> Self
        ensures closed { IsFalse (⟦<SystemFiles<'a, R> as FileAccess>⟧.is_open result) }
        ensures opens { ⟦<SystemFiles<'a, R> as FileAccess>⟧.opens result ≡ 0 }
        ensures refusals { ⟦<SystemFiles<'a, R> as FileAccess>⟧.refusals result ≡ 0 }
    {
        SystemFiles {
            files,
            open_file: None,
            opens: 0,
            refusals: 0,
        }
    }

    /// Reads on in the open file, if there is one, and counts nothing.
    fn read_on(&mut self, buf: &mut [u8]) -> Result<usize, Failed>
        ensures closed { IsFalse (is_some self.old.open_file) → IsErr result }
        ensures bound { IfOk result (λ count. count ≤ length buf.new) }
        ensures rest { ReadConsumes (option_and_then (λ file. R.File.remaining file) self.old.open_file)
            (option_and_then (λ file. R.File.remaining file) self.new.open_file) result buf.new }
        ensures is_open { is_some self.new.open_file ≡ is_some self.old.open_file }
        ensures opens { self.new.opens ≡ self.old.opens }
        ensures refusals { self.new.refusals ≡ self.old.refusals }
    {
        match &mut self.open_file {
            Some(file) => file.read(buf).map_err(|_| Failed),
            None => Err(Failed),
        }
    }
}

impl<'a, R: Files> FileAccess for SystemFiles<'a, R> {
    ghost contents = { λ _. None };

    ghost is_open = { λ system. is_some system.open_file };

    ghost opened = { λ _. [] };

    ghost rest = { λ system. option_and_then (λ file. R.File.remaining file) system.open_file };

    ghost opens = { λ system. system.opens };

    ghost refusals = { λ system. system.refusals };

    fn open(&mut self, name: &str) -> Result<(), Failed> {
        self.opens = self.opens.saturating_add(1);
        self.open_file = File::open(self.files, name).ok();
        if self.open_file.is_none() {
            self.refusals = self.refusals.saturating_add(1);
            return Err(Failed);
        }
        Ok(())
    }

    fn read(&mut self, buf: &mut [u8]) -> Result<usize, Failed> {
        let result = self.read_on(buf);
        if result.is_err() {
            self.refusals = self.refusals.saturating_add(1);
        }
        result
    }
}
