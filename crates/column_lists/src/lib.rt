//! The columns of a matrix, each as a list of its rows in any order.
#![tactic(auto)]

mod given;
mod of_pattern;

ghost use Rattle.std.specs.Prelude.{◌≡◌, ◌<◌, ℕ, List};
ghost use Rattle.bip_defs.specs.Matrix.{Matrix, cols};
ghost use Rattle.column_lists.specs.Listed.{AreListed};

pub use given::{GivenColumns, Stretch};
pub use of_pattern::{IdSlice, PatternColumns, PatternRows};
use sp_ids::Col;
use sp_pattern::NumberList;

/// A matrix by its columns alone, each as a list of its rows, which is read in place. Rows may
/// stand in any order within a column, and there several times.
pub trait ColumnLists: Copy {
    /// The list of a column's rows.
    type Rows: NumberList;

    /// The matrix.
    ghost matrix: { Self → Matrix };

    /// The rows of each column as they stand in its list.
    ghost listed: { Self → ℕ → List ℕ };

    /// The number of rows.
    fn rows(self) -> u32
        ensures { result ≡ Matrix.rows (matrix self) };

    /// The number of columns.
    fn cols(self) -> u32
        ensures { result ≡ cols (matrix self) };

    /// The rows of a column.
    fn rows_of(self, col: Col) -> Self::Rows
        requires { col < cols (matrix self) }
        ensures { Self.Rows.numbers result ≡ listed self col };

    /// A column lists the rows of its entries and no others: a fact for proofs, at no cost.
    fn are_listed(self)
        ensures { AreListed (matrix self) (listed self) };
}
