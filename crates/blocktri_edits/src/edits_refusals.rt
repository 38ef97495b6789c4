//! Why a call on edits has no answer.

ghost use Rattle.std.specs.Prelude.{◌≡◌};
ghost use Rattle.blocktri_edits.specs.declared.edits_refusals.EditsRefusal.TheVariants.{Columns};
ghost use Rattle.sp_pattern.specs.declared.columns.ColumnsError.TheVariants.{OutOfMemory as NoMemory};

use blocktri::ColumnsError;
use sp_ids::OutOfMemory;

/// Why there is no answer. Nothing was written then. They are looked for in this order, but that
/// memory may also run out last.
#[derive(Clone, Copy, Debug, PartialEq, Eq)]
pub enum EditsRefusal {
    /// The three lists of the edits and the list of ranks have not one length.
    Lengths,
    /// The lists are no compressed columns, or there was not enough memory.
    Columns(ColumnsError),
    /// The edit at this place is the first whose row or column is not in the matrix.
    BadEdit(usize),
}

impl From<ColumnsError> for EditsRefusal {
    ghost from_gives = { λ error refusal. refusal ≡ Columns error };

    /// Where the lists are no compressed columns.
    fn from(error: ColumnsError) -> EditsRefusal {
        EditsRefusal::Columns(error)
    }
}

impl From<OutOfMemory> for EditsRefusal {
    ghost from_gives = { λ _ refusal. refusal ≡ Columns NoMemory };

    fn from(_refused: OutOfMemory) -> EditsRefusal {
        EditsRefusal::Columns(ColumnsError::OutOfMemory)
    }
}
