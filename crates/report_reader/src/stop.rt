//! Why reading stopped.

ghost use Rattle.std.specs.Prelude.{◌≡◌};
ghost use Rattle.report_reader.specs.declared.stop.Stop.TheVariants.{Memory};

use sp_ids::OutOfMemory;
use std::alloc::{AllocError, AllocFailed};

/// Why a report was not read.
#[derive(Drop)]
pub(crate) enum Stop {
    /// There was not enough memory.
    Memory,
    /// The bytes are not a report.
    Other,
}

impl From<AllocError> for Stop {
    ghost from_gives = { λ _ e. e ≡ Memory };

    fn from(_refused: AllocError) -> Stop {
        Stop::Memory
    }
}

impl<T: Drop> From<AllocFailed<T>> for Stop {
    ghost from_gives = { λ _ e. e ≡ Memory };

    fn from(_refused: AllocFailed<T>) -> Stop {
        Stop::Memory
    }
}

impl From<OutOfMemory> for Stop {
    ghost from_gives = { λ _ e. e ≡ Memory };

    fn from(_refused: OutOfMemory) -> Stop {
        Stop::Memory
    }
}
