//! The square part of a matrix, and a maximum matching of it.

ghost use Rattle.std.specs.Prelude.{◌≡◌, ℕ, ◌<◌, ◌^◌, List, length, slice_index};
ghost use Rattle.bip_defs.specs.Lists.{Among};
ghost use Rattle.bip_defs.specs.Matching.{cols_of, rows_of};
ghost use Rattle.bip_defs.specs.Matrix.{IsEntry, Matrix, Place, cols, upto};
ghost use Rattle.bip_graph.specs.Decompositions.{HasParts};
ghost use Rattle.bip_graph.specs.Matching.{IsMaximumOf};
ghost use Rattle.square_components.specs.Part.{IsSquarePart, diagonal};

use bip_graph::{Matching, Parts};
use sp_ids::{Col, Row};

/// The square part of a matrix as a search for strong components reads it: its rows and its columns
/// in rising order, as many of each, and their mates in a maximum matching. Rows, columns and
/// places count from 0.
pub trait SquarePart: Copy {
    /// The rows of the square part.
    ghost rows: { Self → List ℕ };

    /// The columns of the square part.
    ghost cols: { Self → List ℕ };

    /// The pairs of a maximum matching.
    ghost pairs: { Self → List Place };

    /// The number of rows, and of columns.
    fn len(self) -> u32
        requires { length (rows self) < 2 ^ 32 }
        ensures { result ≡ length (rows self) };

    /// The row at a place of the list.
    fn row_at(self, place: u32) -> Row
        requires { place < length (rows self) }
        ensures { result ≡ slice_index (rows self) place };

    /// The column at a place of the list.
    fn col_at(self, place: u32) -> Col
        requires { place < length (cols self) }
        ensures { result ≡ slice_index (cols self) place };

    /// The mate of a matched column.
    fn row_of(self, col: Col) -> Row
        requires { Among col (cols_of (pairs self)) }
        ensures { Among (result, col) (pairs self) };

    /// The mate of a matched row.
    fn col_of(self, row: Row) -> Col
        requires { Among row (rows_of (pairs self)) }
        ensures { Among (row, result) (pairs self) };
}

/// The square part as it is listed among the parts of a matrix.
#[derive(Clone, Copy)]
pub struct OfParts<'m> {
    pub matching: &'m Matching,
    pub parts: &'m Parts,
}

/// The square part of a square matrix with a perfect matching: all rows and all columns.
#[derive(Clone, Copy)]
pub struct OfPerfect<'m> {
    pub matching: &'m Matching,
}

/// The square part of a square matrix of this size that has an entry at each place of the diagonal:
/// all rows and all columns, where a row is the mate of the column of its number.
#[derive(Clone, Copy)]
pub struct OfDiagonal {
    pub size: u32,
}

impl<'m> OfParts<'m> {
    /// It is the square part where the matching is maximum and these are the parts: a fact for
    /// proofs, at no cost.
    pub fn is_square_part(self)
        ensures { (a : Matrix) → IsMaximumOf a self.entry.matching.now
            → HasParts a self.entry.parts.now
            → IsSquarePart a self.entry.parts.now.sr.items self.entry.parts.now.sc.items
            self.entry.matching.now.pairs }
    {
        let _rows = self.matching.rows();
    }
}

impl<'m> OfPerfect<'m> {
    /// It is the square part where the matching has a pair for each row and each column: a fact for
    /// proofs, at no cost.
    pub fn is_square_part(self)
        ensures { (a : Matrix) → IsMaximumOf a self.entry.matching.now
            → self.entry.matching.now.rows ≡ self.entry.matching.now.cols
            → self.entry.matching.now.rows ≡ length self.entry.matching.now.pairs
            → IsSquarePart a (upto self.entry.matching.now.rows)
            (upto self.entry.matching.now.cols) self.entry.matching.now.pairs }
    {
        let _rows = self.matching.rows();
    }
}

impl OfDiagonal {
    /// It is the square part where the matrix has this size and an entry at each place of the
    /// diagonal: a fact for proofs, at no cost.
    pub fn is_square_part(self)
        ensures { (a : Matrix) → Matrix.rows a ≡ self.size → cols a ≡ self.size
            → ((k : ℕ) → k < self.size → IsEntry a k k)
            → IsSquarePart a (upto self.size) (upto self.size) (diagonal self.size) }
    {}
}

impl SquarePart for OfParts<'_> {
    ghost rows = { λ s. s.parts.now.sr.items };

    ghost cols = { λ s. s.parts.now.sc.items };

    ghost pairs = { λ s. s.matching.now.pairs };

    fn len(self) -> u32 {
        self.parts.sr.len() as u32
    }

    fn row_at(self, place: u32) -> Row {
        self.parts.sr[place as usize]
    }

    fn col_at(self, place: u32) -> Col {
        self.parts.sc[place as usize]
    }

    fn row_of(self, col: Col) -> Row {
        self.matching.mate(col)
    }

    fn col_of(self, row: Row) -> Col {
        mate_of(self.matching, row)
    }
}

impl SquarePart for OfPerfect<'_> {
    ghost rows = { λ s. upto s.matching.now.rows };

    ghost cols = { λ s. upto s.matching.now.cols };

    ghost pairs = { λ s. s.matching.now.pairs };

    fn len(self) -> u32 {
        self.matching.rows()
    }

    fn row_at(self, place: u32) -> Row {
        Row(place)
    }

    fn col_at(self, place: u32) -> Col {
        Col(place)
    }

    fn row_of(self, col: Col) -> Row {
        self.matching.mate(col)
    }

    fn col_of(self, row: Row) -> Col {
        mate_of(self.matching, row)
    }
}

impl SquarePart for OfDiagonal {
    ghost rows = { λ s. upto s.size };

    ghost cols = { λ s. upto s.size };

    ghost pairs = { λ s. diagonal s.size };

    fn len(self) -> u32 {
        self.size
    }

    fn row_at(self, place: u32) -> Row {
        Row(place)
    }

    fn col_at(self, place: u32) -> Col {
        Col(place)
    }

    fn row_of(self, col: Col) -> Row {
        Row(col.0)
    }

    fn col_of(self, row: Row) -> Col {
        Col(row.0)
    }
}

// The mate of a matched row.
#[inline(always)]
fn mate_of(matching: &Matching, row: Row) -> Col
    requires { Among row (rows_of matching.now.pairs) }
    ensures { Among (row, result) matching.now.pairs }
{
    matching.is_matching();
    match matching.col_of(row) {
        Some(col) => col,
        None => Col(0),
    }
}
