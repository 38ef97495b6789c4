//! What a claim and a win answer.

use sp_ids::{Col, Row};

/// What became of the claim of a row for a column.
#[derive(Clone, Copy, Debug, PartialEq, Eq)]
pub enum Claimed {
    /// The row was unclaimed, and the column holds it from now on.
    Mine,
    /// This column holds the row, and held it before.
    Held(Col),
}

/// What became of the win of a root for a leaf.
#[derive(Clone, Copy, Debug, PartialEq, Eq)]
pub enum Won {
    /// The root had no leaf, and has this one from now on.
    Mine,
    /// The root has this leaf, and had it before.
    Held(Row),
}
