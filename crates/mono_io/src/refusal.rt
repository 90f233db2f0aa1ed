ghost use Rattle.std.specs.Prelude.{◌≡◌};
ghost use Rattle.mono_io.specs.declared.refusal.ReadRefusal.TheVariants.{Memory, Fault};

use crate::Failed;
use std::alloc::AllocError;

/// Why a text was not read whole.
#[derive(Clone, Copy, Debug, PartialEq, Eq)]
pub enum ReadRefusal {
    /// No memory was found for its bytes.
    Memory,
    /// A call of the shelf failed.
    Fault,
    /// It has more bytes than the limit.
    TooLong,
}

impl From<AllocError> for ReadRefusal {
    ghost from_gives = { λ _ refusal. refusal ≡ Memory };

    fn from(_: AllocError) -> Self {
        ReadRefusal::Memory
    }
}

impl From<Failed> for ReadRefusal {
    ghost from_gives = { λ _ refusal. refusal ≡ Fault };

    fn from(_: Failed) -> Self {
        ReadRefusal::Fault
    }
}
