ghost use Rattle.std.specs.Prelude.{◌≡◌};
ghost use Rattle.mono_check.specs.FromShelf.{refusal_of};
ghost use Rattle.mono_check.specs.declared.refusal.CheckRefusal.TheVariants.{Memory};

use mono_io::ReadRefusal;
use std::alloc::AllocError;

/// Why an answer on a shelf got no verdict.
#[derive(Clone, Copy, Debug, PartialEq, Eq)]
pub enum CheckRefusal {
    /// No memory was found.
    Memory,
    /// A call of the shelf failed.
    Fault,
    /// The answer has more bytes than the limit.
    TooLong,
}

impl From<AllocError> for CheckRefusal {
    ghost from_gives = { λ _ refusal. refusal ≡ Memory };

    fn from(_: AllocError) -> Self {
        CheckRefusal::Memory
    }
}

impl From<ReadRefusal> for CheckRefusal {
    ghost from_gives = { λ given refusal. refusal ≡ refusal_of given };

    fn from(refusal: ReadRefusal) -> Self {
        match refusal {
            ReadRefusal::Memory => CheckRefusal::Memory,
            ReadRefusal::Fault => CheckRefusal::Fault,
            ReadRefusal::TooLong => CheckRefusal::TooLong,
        }
    }
}
