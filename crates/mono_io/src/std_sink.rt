//! A sink over a writer, as the standard output is one. What reaches a real output, no contract can say.
ghost use Rattle.std.specs.Prelude.{◌≡◌, ◌<◌, ◌≤◌, Ok, IfOk, length};
ghost use Rattle.std.specs.Io.KnownBytes.{WriteAppends};
ghost use Rattle.mono_io.specs.Faults.{HasCause};

use crate::{Failed, Sink};
use std::io::Write;
use std::marker::Model;

/// A writer, as `std::io::writer` makes one of the standard output. As a sink it tells what was written where the writer
/// tells what it holds. Whatever the writer refuses is a fault, and so is a write that takes nothing.
///
/// Contracts see what the writer holds, where it tells that, and the count of faults.
#[derive(Drop)]
pub struct StdSink<W: Write + Drop> {
    out: W,
    faults: u64,
}

impl<W: Write + Drop> Model for StdSink<W> {
    ghost use Rattle.mono_io.specs.StdSink.{WriterState};

    ghost Value = { WriterState };

    ghost view = { λ sink. record { contents = W.contents sink.out; faults = sink.faults } };
}

impl<W: Write + Drop> StdSink<W> {
    /// A sink over this writer.
    pub fn new(out: W) -> Self
        ensures { result ≡ record { contents = W.contents out; faults = 0 } }
    {
        StdSink { out, faults: 0 }
    }

    /// The writer, as it stands.
    pub fn into_writer(self) -> W
        ensures { W.contents result ≡ self.contents }
    {
        self.out
    }
}

impl<W: Write + Drop> Sink for StdSink<W> {
    ghost written = { λ sink. sink.contents };

    ghost faults = { λ sink. sink.faults };

    /// Where the writer tells what it holds, exactly the bytes that were taken are appended, and none by a write that
    /// fails.
    fn write(&mut self, bytes: &[u8]) -> Result<usize, Failed>
        // What the trait asks, in this sink's terms.
        ensures written { WriteAppends self.old.contents self.new.contents result bytes.now }
        ensures bound { IfOk result (λ count. count ≤ length bytes.now) }
        ensures progress { IfOk result (λ count. 0 < length bytes.now → 0 < count) }
        ensures empty { length bytes.now ≡ 0 → result ≡ Ok 0 }
        ensures cause { HasCause self.old.faults self.new.faults result }
    {
        if bytes.is_empty() {
            return Ok(0);
        }
        match self.out.write(bytes) {
            Ok(count) if count > 0 => Ok(count),
            _ => {
                self.faults = self.faults.saturating_add(1);
                Err(Failed)
            }
        }
    }
}
