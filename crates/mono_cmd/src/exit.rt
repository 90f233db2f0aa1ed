//! The whole process: the words, the files and the output of a machine in, the number to exit with out.

ghost use Rattle.std.specs.Prelude.{◌≡◌, IfOk, IfSome, IsSome, OnErr, map, option_and_then, string_bytes};
ghost use Rattle.std.specs.Process.{exit_status};
ghost use Rattle.mono_io.specs.FileShelf.{shown_by};
ghost use Rattle.mono_words.specs.Commands.{command_of};
ghost use Rattle.mono_cmd.specs.Machines.{Machine, HasExited, untouched};

use crate::given::{Words, WordsRefusal};
use crate::run::run;
use mono_forms::Status;
use mono_io::{FileAccess, FileShelf, Shelf, Sink, StdSink};
use std::alloc::{AllocError, Global};
use std::io::{Eprint, Write};
use std::marker::Model;
use std::process::{ExitCode, Termination};

/// The run of a machine's words over its files and its output, at its end: the number to exit with, and how the files and the
/// output stand. Only `run_over` makes one.
#[derive(Drop)]
pub struct MachineRun<A: FileAccess, O: Write + Drop> {
    code: u8,
    shelf: FileShelf<A>,
    out: StdSink<O>,
}

impl<A: FileAccess, O: Write + Drop> Model for MachineRun<A, O> {
    ghost use Rattle.mono_cmd.specs.Machines.{MachineEnd};

    ghost Value = { MachineEnd };

    ghost view = { λ run. record { code = run.code; shelf = run.shelf; out = run.out } };
}

/// Runs the program over what a machine gives. Words that aren't text are no command, and neither are none.
///
/// The number is that of the status to which the run of exactly these words comes, or that of want of memory where none was found
/// for the words, which are text where they are told; nothing was opened or written. What `run` promises over files and an output
/// that are told, this call promises of what the files and the output tell.
pub fn run_over<W: Words, A: FileAccess, O: Write + Drop>(
    alloc: Global,
    words: &W,
    files: A,
    out: O,
) -> MachineRun<A, O>
    ensures { let new : Machine = record { shelf = shown_by result.shelf; written = result.out.contents; faults = result.out.faults } in
        HasExited (W.told words.now) (untouched (A.contents files) (A.opened files) (A.opens files) (O.contents out)) new result.code }
{
    let mut shelf = FileShelf::new(files);
    let mut out = StdSink::new(out);
    let code = code_of(alloc, words, &mut shelf, &mut out);
    MachineRun { code, shelf, out }
}

/// The number of the status to which the run of the words over this shelf and this output comes.
fn code_of<W: Words, S: Shelf, K: Sink>(alloc: Global, words: &W, shelf: &mut S, out: &mut K) -> u8
    ensures { let old : Machine = record { shelf = S.seen shelf.old; written = K.written out.old; faults = K.faults out.old } in
        let new : Machine = record { shelf = S.seen shelf.new; written = K.written out.new; faults = K.faults out.new } in
        HasExited (W.told words.now) old new result }
{
    match list_of(alloc, words) {
        Ok(list) => run(alloc, list.as_slice(), shelf, out).code(),
        Err(AllocError) => Status::Memory.code(),
    }
}

/// The words, or none where one of them isn't text: either is the same command. Where they are told, only words that are text may
/// find no memory.
fn list_of<W: Words>(alloc: Global, words: &W) -> Result<Vec<String>, AllocError>
    ensures ok { IfOk result (λ list. IfSome (W.told words.now) (λ given. command_of (map string_bytes list.items) ≡ option_and_then command_of given)) }
    ensures err { OnErr result (IfSome (W.told words.now) (λ given. IsSome given)) }
{
    match words.list(alloc) {
        Ok(list) => Ok(list),
        Err(WordsRefusal::NotText) => Ok(Vec::new(alloc)),
        Err(WordsRefusal::Memory) => Err(AllocError),
    }
}

/// What the process exits with. Only the end of a run over a machine makes one, so no number without a run is one.
#[derive(Drop)]
pub struct Exit {
    code: u8,
}

impl Model for Exit {
    ghost use Rattle.std.specs.Prelude.{ℕ};

    ghost Value = { ℕ };

    ghost view = { λ exit. exit.code };
}

impl<A: FileAccess, O: Write + Drop> MachineRun<A, O> {
    /// The exit of the process whose run this is.
    pub fn exit(self) -> Exit
        ensures { result ≡ self.code }
    {
        Exit { code: self.code }
    }
}

impl Exit {
    /// The number.
    pub fn code(&self) -> u8
        ensures { result ≡ self.now }
    {
        self.code
    }
}

impl Termination for Exit {
    fn report<R: Eprint>(self, _rt: &R) -> ExitCode
        ensures { exit_status result ≡ self }
    {
        ExitCode::from(self.code)
    }
}
