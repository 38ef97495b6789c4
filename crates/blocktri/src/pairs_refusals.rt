//! Why a call that begins at given pairs has no answer.

ghost use Rattle.std.specs.Prelude.{◌≡◌};
ghost use Rattle.blocktri.specs.declared.pairs_refusals.PairsRefusal.TheVariants.{Columns};
ghost use Rattle.sp_pattern.specs.declared.columns.ColumnsError.TheVariants.{OutOfMemory as NoMemory};

use sp_ids::OutOfMemory;
use sp_pattern::ColumnsError;

/// Why there is no answer. Nothing was written then. They are looked for in this order, but that
/// memory may run out first.
#[derive(Clone, Copy, Debug, PartialEq, Eq)]
pub enum PairsRefusal {
    /// A list has not the right length.
    Lengths,
    /// The lists are no compressed columns or rows, or there was not enough memory.
    Columns(ColumnsError),
    /// The first column whose row is no entry of it, or the row of a column before it.
    BadPair(usize),
}

impl From<ColumnsError> for PairsRefusal {
    ghost from_gives = { λ error refusal. refusal ≡ Columns error };

    /// Where the lists are no compressed columns.
    fn from(error: ColumnsError) -> PairsRefusal {
        PairsRefusal::Columns(error)
    }
}

impl From<OutOfMemory> for PairsRefusal {
    ghost from_gives = { λ _ refusal. refusal ≡ Columns NoMemory };

    fn from(_refused: OutOfMemory) -> PairsRefusal {
        PairsRefusal::Columns(ColumnsError::OutOfMemory)
    }
}
