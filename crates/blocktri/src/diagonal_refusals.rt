//! Why a call on a matrix with values has no answer.

use crate::refusals::Refusal;
use sp_pattern::ColumnsError;

/// Why there is no answer of a matrix with values. Nothing was written then. They are looked for in
/// this order, but that memory may run out first.
#[derive(Clone, Copy, Debug, PartialEq, Eq)]
pub enum DiagonalRefusal {
    /// A list has not the right length, or the lists are no compressed columns or rows, or there was
    /// not enough memory.
    Lists(Refusal),
    /// The sum of a place's values passes 9,223,372,036,854,775,807 in magnitude. Of all such
    /// places this is the one of least column, and in it of least row, told by where its first id
    /// stands among the ids.
    SumLimit(usize),
    /// The matrix has not as many rows as columns.
    NotSquare,
    /// The matrix is square, and has no perfect matching: its rank is less than its size.
    Singular,
    /// Prices are wanted, and there are no fair prices of the heaviest diagonal that all fit 64
    /// bits.
    PriceLimit,
}

/// The answer where there was not enough memory.
pub const NO_MEMORY: DiagonalRefusal = DiagonalRefusal::Lists(Refusal::Columns(
    ColumnsError::OutOfMemory,
));
