//! The places of an array file's values, and how many values it has.

ghost use Rattle.std.specs.Prelude.{◌≡◌, ◌<◌, ◌≤◌};
ghost use Rattle.sp_ids.specs.Limits.{max_cols, max_rows};
ghost use Rattle.mm_defs.specs.Arrays.{first_row, following, value_count};
ghost use Rattle.mm_reader.specs.ArrayPlaces.{array_place, place_of};

use mm_defs::Symmetry;

/// The place of the value that a line gives which comes next, counted from 0.
#[derive(Clone, Copy, Debug, PartialEq, Eq)]
pub struct ArrayPlace {
    pub row: u32,
    pub col: u32,
}

/// The first row of a column that has a value.
fn first_row(symmetry: Symmetry, col: u32) -> u32
    requires { col ≤ max_cols }
    ensures { result ≡ first_row symmetry col }
{
    match symmetry {
        Symmetry::General => 0,
        Symmetry::Symmetric | Symmetry::Hermitian => col,
        Symmetry::SkewSymmetric => col + 1,
    }
}

/// The place of the first value.
pub fn first_place(symmetry: Symmetry) -> ArrayPlace
    ensures { result ≡ array_place (first_row symmetry 0, 0) }
{
    ArrayPlace {
        row: first_row(symmetry, 0),
        col: 0,
    }
}

/// The place of the value behind that of this place: the one below it, or the first of the next
/// column.
#[inline(always)]
pub fn following(symmetry: Symmetry, rows: u32, place: ArrayPlace) -> ArrayPlace
    requires row { place.row < rows }
    requires col { place.col < max_cols }
    ensures { result ≡ array_place (following symmetry rows (place_of place)) }
{
    let row = place.row + 1;
    if row < rows {
        return ArrayPlace {
            row,
            col: place.col,
        };
    }
    let col = place.col + 1;
    ArrayPlace {
        row: first_row(symmetry, col),
        col,
    }
}

/// How many values an array file of this size has.
pub fn value_count(symmetry: Symmetry, rows: u32, cols: u32) -> u64
    requires rows { rows ≤ max_rows }
    requires cols { cols ≤ max_cols }
    ensures { result ≡ value_count symmetry rows cols }
{
    let rows = u64::from(rows);
    match symmetry {
        Symmetry::General => rows * u64::from(cols),
        Symmetry::Symmetric | Symmetry::Hermitian => rows * (rows + 1) / 2,
        Symmetry::SkewSymmetric => rows * rows.saturating_sub(1) / 2,
    }
}
