//! A row that a worker may claim.

use sp_ids::{Col, Row};

/// A row that a worker may claim for a column, whose root this is; and whether the row has no base
/// mate.
#[derive(Clone, Copy, Debug)]
pub struct Candidate {
    pub row: Row,
    pub col: Col,
    pub root: Col,
    pub free: bool,
}

impl Default for Candidate {
    fn default() -> Candidate {
        Candidate {
            row: Row(0),
            col: Col(0),
            root: Col(0),
            free: false,
        }
    }
}
