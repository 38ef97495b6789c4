//! Searches for augmenting paths from the unmatched columns, and the witness that none is left.
#![tactic(auto)]

mod answer;
mod engine;
mod laws;
mod marks;
mod paths;
mod roots;
mod search;
mod steps;
mod trail;
mod witness;

pub use answer::Reach;
pub use engine::plain;
pub use laws::{
    columns_are_scanned, rows_are_looked_at, searches_begin, searches_end, searches_tell,
    steps_are_counted, steps_are_few,
};
pub use marks::ColumnMarks;
pub use paths::exchange;
pub use roots::{listed_roots, other_roots, root};
pub use search::{reached, reached_if_maximum, search_from};
pub use steps::{Counter, Steps, Uncounted};
pub use trail::Trail;
pub use witness::{hall_set, reach, reach_in};
