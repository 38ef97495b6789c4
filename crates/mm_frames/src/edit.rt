//! Edits of a matrix.

use sp_ids::{Col, Row};

/// What an edit line says.
#[derive(Clone, Copy, Debug, PartialEq, Eq)]
pub enum Edit {
    /// The place gets an entry, where there is none.
    Set(Row, Col),
    /// The place's entry goes, where there is one.
    Clear(Row, Col),
    /// The report of the matrix is asked for.
    Report,
}
