//! A sink that takes bytes piece by piece.
ghost use Rattle.std.specs.Prelude.{◌≡◌, ◌<◌, ◌≤◌, ℕ, List, Option, Ok, IfOk, length};
ghost use Rattle.std.specs.Io.KnownBytes.{WriteAppends};
ghost use Rattle.mono_io.specs.Faults.{HasCause};

use crate::Failed;

/// A place to which bytes are written, each behind those before it.
pub trait Sink {
    /// The bytes written so far, where the sink tells them.
    ghost written: { Self → Option (List ℕ) };

    /// How often a call failed.
    ghost faults: { Self → ℕ };

    /// Appends the first bytes of the piece to what was written, where that is told, and says how many: at least one of a
    /// piece that isn't empty.
    ///
    /// `Failed` comes for a fault of the outside, and then nothing was appended.
    fn write(&mut self, bytes: &[u8]) -> Result<usize, Failed>
        ensures bound { IfOk result (λ count. count ≤ length bytes.now) }
        ensures progress { IfOk result (λ count. 0 < length bytes.now → 0 < count) }
        ensures empty { length bytes.now ≡ 0 → result ≡ Ok 0 }
        ensures written { WriteAppends (written self.old) (written self.new) result bytes.now }
        ensures cause { HasCause (faults self.old) (faults self.new) result };
}
