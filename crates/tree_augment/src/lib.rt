//! The paths of all roots with a leaf are exchanged at once, by many workers on a board of shared
//! words.
//!
//! Each worker goes once round the roots with a leaf and exchanges the path of each whose tree
//! nobody took before. The augmentation by many workers is that of Azad, Buluç and Pothen,
//! Computing maximum cardinality matchings in parallel on bipartite graphs via tree-grafting, 2017.
#![tactic(auto)]

mod laws;
mod opening;
mod rounds;
mod walk;
mod workers;

pub use laws::closed_mates_are_exchanged;
pub use opening::open;
pub use workers::{augment, augment_under};
