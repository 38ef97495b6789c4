//! The steps of the search for augmenting paths by many workers.

use crate::{Col, Row};

/// One step in a forest of alternating trees that grow from the unmatched columns.
#[derive(Clone, Copy, Debug, PartialEq, Eq)]
pub enum Event {
    /// A column of the forest claims a row.
    Claim { row: Row, col: Col },
    /// The tree of a root takes a claimed, unmatched row as the end of its augmenting path.
    Win { root: Col, leaf: Row },
    /// The path of a root is exchanged.
    Flip { root: Col },
    /// The exchanged matching becomes the base, and the trees without a leaf stay.
    Graft,
    /// The exchanged matching becomes the base, and no tree stays.
    Rebuild,
    /// Nothing is left to be claimed.
    Done,
}
