//! A matrix, seen from its columns or from its rows.

ghost use Rattle.std.specs.Prelude.{◌≡◌, ◌<◌, map};
ghost use Rattle.bip_defs.specs.Lists.{Lists};
ghost use Rattle.bip_defs.specs.Matrix.{IsEntry, Matrix, cols, column, transpose};

use crate::Weights;
use crate::pattern::Pattern;
use sp_ids::{Col, Id, Row};

/// A matrix, seen from one side. What begins at the columns of the matrix that is seen serves both
/// sides.
///
/// A pattern itself is seen from its columns, as the matrix that it is; [`FromRows`] sees its
/// transpose. In all methods rows and columns are those of the matrix that is seen. `Far` is what
/// the lists of a column's rows hold: `Row` from the columns, `Col` from the rows.
pub trait Side<Far: Id> {
    /// The matrix that is seen.
    ghost matrix: { Self → Matrix };

    /// The number of rows.
    fn rows(&self) -> u32
        ensures { result ≡ Matrix.rows (matrix self.now) };

    /// The number of columns.
    fn cols(&self) -> u32
        ensures { result ≡ cols (matrix self.now) };

    /// The rows of a column's entries, rising, lent without copying.
    fn rows_of(&self, col: Col) -> &[Far]
        requires { col < cols (matrix self.now) }
        ensures rows { Lists (λ r. IsEntry (matrix self.now) r col) (map Far.number result.now) }
        ensures column { map Far.number result.now ≡ column (matrix self.now) col };
}

/// A set of places within a number of rows and columns, which lends the rows of each column: all
/// that a search from the columns asks of a matrix. A pattern is one, and so are the weights of a
/// pattern's entries; whatever is one is seen as a [`Side`] from its columns.
pub trait Neighbours {
    /// The matrix whose entries are the places.
    ghost matrix: { Self → Matrix };

    /// The number of rows.
    fn rows(&self) -> u32
        ensures { result ≡ Matrix.rows (matrix self.now) };

    /// The number of columns.
    fn cols(&self) -> u32
        ensures { result ≡ cols (matrix self.now) };

    /// The rows of a column's places, rising, each once, lent without copying.
    fn rows_of(&self, col: Col) -> &[Row]
        requires { col < cols (matrix self.now) }
        ensures rows { Lists (λ r. IsEntry (matrix self.now) r col) result.now }
        ensures column { result.now ≡ column (matrix self.now) col };
}

impl Neighbours for Pattern {
    ghost matrix = { λ a. a };

    fn rows(&self) -> u32 {
        Pattern::rows(self)
    }

    fn cols(&self) -> u32 {
        Pattern::cols(self)
    }

    fn rows_of(&self, col: Col) -> &[Row] {
        Pattern::rows_of(self, col)
    }
}

impl<'p> Neighbours for Weights<'p> {
    ghost matrix = { λ w. w.matrix };

    fn rows(&self) -> u32 {
        self.pattern().rows()
    }

    fn cols(&self) -> u32 {
        self.pattern().cols()
    }

    fn rows_of(&self, col: Col) -> &[Row] {
        self.pattern().rows_of(col)
    }
}

impl<N: Neighbours> Side<Row> for N {
    ghost matrix = { λ a. N.matrix a };

    fn rows(&self) -> u32 {
        Neighbours::rows(self)
    }

    fn cols(&self) -> u32 {
        Neighbours::cols(self)
    }

    fn rows_of(&self, col: Col) -> &[Row] {
        Neighbours::rows_of(self, col)
    }
}

/// A pattern seen from its rows: its rows are the columns of the transpose, which is not made.
#[derive(Clone, Copy)]
pub struct FromRows<'p> {
    pub pattern: &'p Pattern,
}

impl Side<Col> for FromRows<'_> {
    ghost matrix = { λ s. transpose s.pattern.now };

    fn rows(&self) -> u32 {
        self.pattern.cols()
    }

    fn cols(&self) -> u32 {
        self.pattern.rows()
    }

    fn rows_of(&self, col: Col) -> &[Col] {
        self.pattern.cols_of(Row(col.0))
    }
}
