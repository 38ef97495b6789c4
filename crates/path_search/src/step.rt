//! Steps of a search.

use sp_ids::Col;

/// Where a search stands: at a place of a column's list.
#[derive(Clone, Copy)]
pub struct ColumnPlace {
    pub col: Col,
    pub place: u32,
}

/// What a step came to.
#[derive(Clone, Copy)]
pub enum Step {
    /// An augmenting path.
    Found,
    /// Nothing that is left to try.
    Stuck,
    /// The place from where the search goes on.
    On(ColumnPlace),
}
