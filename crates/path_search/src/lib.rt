//! Searches for augmenting paths: depth-first from one column, breadth-first from all unmatched
//! columns, and for shortest ones alone, from all unmatched columns by layers.
//!
//! They see a pattern from its columns, or from its rows as its transpose.
#![tactic(auto)]

mod batches;
mod columns;
mod forest;
mod laws;
mod layers;
mod reached;
mod search;
mod shortest;
mod step;
mod unmatched;

pub use forest::SearchForest;
pub use laws::marked_rows_are_horizontal;
pub use layers::Layers;
pub use search::Search;
pub use unmatched::{count_roots, roots};
