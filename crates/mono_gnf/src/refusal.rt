//! Why an input is not read.

use crate::GnfFault;
use std::alloc::AllocError;

/// Why an input is not read.
#[derive(Clone, Copy, PartialEq, Eq, Debug)]
pub enum GnfRefusal {
    /// Want of memory.
    Memory,
    /// The first line at fault, from 1, and its fault.
    At { line: u64, fault: GnfFault },
}

/// Why a line is not read.
#[derive(Clone, Copy)]
pub(crate) enum Stop {
    /// Want of memory.
    Memory,
    /// The line's fault.
    Fault(GnfFault),
}

impl From<AllocError> for Stop {
    ghost use Rattle.mono_gnf.specs.declared.refusal.Stop.TheVariants.{Memory};
    ghost use Rattle.std.specs.Prelude.{◌≡◌};

    ghost from_gives = { λ _ stop. stop ≡ Memory };

    fn from(_error: AllocError) -> Stop {
        Stop::Memory
    }
}
