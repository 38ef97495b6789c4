//! Why a call has no answer.

ghost use Rattle.std.specs.Prelude.{◌≡◌};
ghost use Rattle.blocktri.specs.declared.refusals.Refusal.TheVariants.{Columns};
ghost use Rattle.sp_pattern.specs.declared.columns.ColumnsError.TheVariants.{OutOfMemory as NoMemory};

use sp_ids::OutOfMemory;
use sp_pattern::ColumnsError;

/// Why there is no answer. Nothing was written then.
#[derive(Clone, Copy, Debug, PartialEq, Eq)]
pub enum Refusal {
    /// A list to be written has not the right length. This is looked at first.
    Lengths,
    /// The lists are no compressed columns, or there was not enough memory.
    Columns(ColumnsError),
}

impl From<ColumnsError> for Refusal {
    ghost from_gives = { λ error refusal. refusal ≡ Columns error };

    /// Where the lists are no compressed columns.
    fn from(error: ColumnsError) -> Refusal {
        Refusal::Columns(error)
    }
}

impl From<OutOfMemory> for Refusal {
    ghost from_gives = { λ _ refusal. refusal ≡ Columns NoMemory };

    fn from(_refused: OutOfMemory) -> Refusal {
        Refusal::Columns(ColumnsError::OutOfMemory)
    }
}
