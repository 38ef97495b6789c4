//! A level of the search for augmenting paths that goes up from free rows: a column of the forest
//! is looked for to claim each.
//!
//! The search by many workers is that of Azad, Buluç and Pothen, Computing maximum cardinality
//! matchings in parallel on bipartite graphs via tree-grafting, 2017. It took the change of
//! direction from Beamer, Asanović and Patterson, Direction-optimizing breadth-first search, 2012.
#![tactic(auto)]

mod level;
mod search;

pub use level::{attach, attach_under};
