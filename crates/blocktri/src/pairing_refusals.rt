//! Why a call on given pairs has no answer.

ghost use Rattle.std.specs.Prelude.{◌≡◌};
ghost use Rattle.blocktri.specs.declared.pairing_refusals.PairingRefusal.TheVariants.{Lists};
ghost use Rattle.blocktri.specs.declared.refusals.Refusal.TheVariants.{Columns};
ghost use Rattle.sp_pattern.specs.declared.columns.ColumnsError.TheVariants.{OutOfMemory as NoMemory};

use crate::refusals::Refusal;
use sp_ids::OutOfMemory;
use sp_pattern::ColumnsError;

/// Why there is no answer by given pairs. Nothing was written then. They are looked for in this
/// order, but that memory may run out first.
#[derive(Clone, Copy, Debug, PartialEq, Eq)]
pub enum PairingRefusal {
    /// A list has not the right length, or the lists are no compressed columns or rows, or there was
    /// not enough memory.
    Lists(Refusal),
    /// The number at this place is the first that is not that of a row, or that stands at an earlier
    /// place already.
    BadPair(usize),
}

impl From<ColumnsError> for PairingRefusal {
    ghost from_gives = { λ error refusal. refusal ≡ Lists (Columns error) };

    /// Where the lists are no compressed columns.
    fn from(error: ColumnsError) -> PairingRefusal {
        PairingRefusal::Lists(Refusal::Columns(error))
    }
}

impl From<OutOfMemory> for PairingRefusal {
    ghost from_gives = { λ _ refusal. refusal ≡ Lists (Columns NoMemory) };

    fn from(_refused: OutOfMemory) -> PairingRefusal {
        PairingRefusal::Lists(Refusal::Columns(ColumnsError::OutOfMemory))
    }
}
