//! Levels of the search for augmenting paths by many workers: boards are opened from a forest, and
//! what the workers claim and win is made on the forest.
//!
//! The search is that of Azad, Buluç and Pothen, Computing maximum cardinality matchings in
//! parallel on bipartite graphs via tree-grafting, 2017.
#![tactic(auto)]

mod boards;
mod events;
mod levels;
mod search;

pub use boards::open;
pub use events::absorb;
pub use levels::{top_down, top_down_under};
