//! What a search for an augmenting path answers.

use sp_ids::{Col, Row};

/// What a search from the unmatched columns finds.
#[derive(Drop)]
pub enum Reach {
    /// The matching is maximum: the columns that some maximum matching misses, rising. They are a
    /// Hall set.
    Witness(Vec<Col>),
    /// It is not: an augmenting path of entries, in order from its unmatched column to its
    /// unmatched row.
    Path(Vec<(Row, Col)>),
}
