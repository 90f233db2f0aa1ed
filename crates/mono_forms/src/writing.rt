//! The last step of a run: its text is written.

ghost use Rattle.std.specs.Prelude.{◌≡◌, ◌≢◌};
ghost use Rattle.mono_io.specs.Faults.{counted};
ghost use Rattle.mono_forms.specs.Runs.{Writes};

use crate::ending::Ending;
use crate::status::Status;
use mono_io::{Sink, write_whole};
use std::alloc::{AllocError, Global};

/// Writes the text of the ending, whole. All of it is made before the first write, so with want of memory nothing was written.
/// Where a write fails, a prefix of the text was written, and not all of it.
pub fn write_ending<K: Sink>(alloc: Global, ending: Ending, out: &mut K) -> Status
    ensures writes { Writes ending result (K.written out.old) (K.written out.new) }
    ensures write_fault { result ≡ Status.WriteFault → K.faults out.new ≡ counted (K.faults out.old) }
    ensures no_write_fault { result ≢ Status.WriteFault → K.faults out.new ≡ K.faults out.old }
{
    let status = ending.status();
    let text = match ending.into_text(alloc) {
        Ok(text) => text,
        Err(AllocError) => return Status::Memory,
    };
    match write_whole(out, text.as_slice()) {
        Ok(()) => status,
        Err(_) => Status::WriteFault,
    }
}
