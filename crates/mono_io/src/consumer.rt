//! Whoever takes the bytes of a text, piece by piece.

ghost use Rattle.std.specs.Prelude.{◌≤◌, ◌+◌, ◌++◌, [], OnOk, length};
ghost use Rattle.mono_io.specs.declared.reading.TheConstants.{GREATEST_LIMIT};

use std::alloc::AllocError;

/// Takes the bytes of a text from its beginning on, piece by piece.
pub trait Consumer {
    ghost use Rattle.std.specs.Prelude.{ℕ, List};

    /// No byte was taken, and a text may follow.
    ghost is_new: { Self → Type 0 };

    /// These bytes lead from the one state to the other.
    ghost takes: { Self → List ℕ → Self → Type 0 };

    /// Takes the next bytes. The trait doesn't say what becomes of it where no memory is found.
    fn consume(&mut self, piece: &[u8]) -> Result<(), AllocError>
        requires { (start : Self) × (taken : List ℕ) × is_new start × takes start taken self.old × (length taken + length piece.now ≤ GREATEST_LIMIT) }
        ensures { OnOk result ((start : Self) (taken : List ℕ) → takes start taken self.old → takes start (taken ++ piece.now) self.new) };

    ghost takes_nothing: { (start : Self) → takes start [] start };
}

impl Consumer for Vec<u8> {
    ghost use Rattle.std.specs.Prelude.{◌≡◌};
    ghost use Rattle.std.proofs.Common.{append-nil, sym};

    ghost is_new = { λ bytes. bytes.items ≡ [] };

    ghost takes = { λ before bytes after. after.items ≡ before.items ++ bytes };

    fn consume(&mut self, piece: &[u8]) -> Result<(), AllocError> {
        self.extend_from_slice(piece)?;
        Ok(())
    }

    ghost takes_nothing = { λ start. sym (append-nil start.items) };
}
