//! What the banner line and the size line say.

use sp_ids::Field;

/// How a file gives its matrix.
#[derive(Clone, Copy, Debug, PartialEq, Eq)]
pub enum Format {
    /// By entry lines: a row, a column and the field's value words.
    Coordinate,
    /// By value lines: a value for each place of a dense matrix, or of its lower triangle, column
    /// by column.
    Array,
}

/// Which places a file leaves out because others tell them.
#[derive(Clone, Copy, Debug, PartialEq, Eq)]
pub enum Symmetry {
    /// Every place has a line of its own.
    General,
    /// An entry off the diagonal stands for its mirror too.
    Symmetric,
    /// The same with the negated value; the diagonal is empty.
    SkewSymmetric,
    /// The same with the conjugate value.
    Hermitian,
}

/// What the banner line says of the lines, of the values and of the places.
#[derive(Clone, Copy, Debug, PartialEq, Eq)]
pub struct Header {
    pub format: Format,
    pub field: Field,
    pub symmetry: Symmetry,
}

/// What the size line says: the numbers of rows and of columns, and how many entry lines follow, or
/// how many value lines in an array file. Definitions that cite it set no bound.
#[derive(Clone, Copy, Debug, PartialEq, Eq)]
pub struct Size {
    pub rows: u32,
    pub cols: u32,
    pub count: u32,
}
