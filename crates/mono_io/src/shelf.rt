//! A shelf of named texts, read piece by piece.
//!
//! Code above it is generic over `Shelf`. It can't raise the count of faults by itself, so a clause that
//! ties an answer to that count refuses a body that gives up.
ghost use Rattle.std.specs.Prelude.{◌≡◌, ◌≤◌, Option, Some, None, IsSome, IsTrue, IsOk, IsErr, IfOk, IfSome, OnOk, OnErr, length};
ghost use Rattle.mono_io.specs.Faults.{HasCause, counted};
ghost use Rattle.mono_io.specs.Shelf.{ShelfView, Lacks, chosen_text, moved, advanced, ReadsNext};

use crate::Failed;

/// Named texts, of which one at a time is chosen and read from its beginning.
pub trait Shelf {
    /// What contracts see of it: its texts where it tells them, the chosen name and the place in it, how often a name
    /// was begun, how often a call failed, and whether it is steady.
    ghost seen: { Self → ShelfView };

    /// Chooses a text, at its beginning.
    ///
    /// `Failed` comes for a name that the texts lack, where they are told, and for a fault of the outside.
    /// Nothing is chosen after it. Over a steady shelf it comes only for a name that the texts lack.
    fn begin(&mut self, name: &str) -> Result<(), Failed>
        ensures place { OnOk result ((seen self.new).place ≡ Some 0) }
        ensures chosen { OnOk result (IfSome (seen self.old).texts (λ _. (seen self.new).chosen ≡ name.now)) }
        ensures nothing { OnErr result ((seen self.new).place ≡ None) }

        ensures lacking { Lacks (seen self.old).texts name.now → IsErr result }
        ensures sure { OnErr result (IsTrue (seen self.old).steady → Lacks (seen self.old).texts name.now) }
        ensures cause { HasCause (seen self.old).faults (seen self.new).faults result }

        ensures begun { (seen self.new).begun ≡ counted (seen self.old).begun }
        ensures texts { (seen self.new).texts ≡ (seen self.old).texts }
        ensures steady { IsTrue (seen self.old).steady → IsTrue (seen self.new).steady };

    /// Reads the next bytes of the chosen text into the front of the buffer, and says how many.
    ///
    /// None for a buffer that isn't empty means the end of the text. `Failed` comes where nothing is chosen,
    /// and for a fault of the outside. The chosen name and the place stay then, and the buffer may be spoiled. Over a
    /// steady shelf it comes only where nothing is chosen.
    fn read(&mut self, buf: &mut [u8]) -> Result<usize, Failed>
        ensures bound { IfOk result (λ count. count ≤ length buf.new) }
        ensures place { (seen self.new).place ≡ advanced (moved result) (seen self.old).place }
        ensures bytes { ReadsNext (chosen_text (seen self.old)) (seen self.old).place buf.new result }

        ensures nothing { (seen self.old).place ≡ None → IsErr result }
        ensures sure { OnErr result (IsTrue (seen self.old).steady → (seen self.old).place ≡ None) }
        ensures cause { HasCause (seen self.old).faults (seen self.new).faults result }

        ensures chosen { (seen self.new).chosen ≡ (seen self.old).chosen }
        ensures begun { (seen self.new).begun ≡ (seen self.old).begun }
        ensures texts { (seen self.new).texts ≡ (seen self.old).texts }
        ensures steady { IsTrue (seen self.old).steady → IsTrue (seen self.new).steady };

    ghost steady_tells: { (shelf : Self) → IsTrue (seen shelf).steady → IsSome (seen shelf).texts };
}
