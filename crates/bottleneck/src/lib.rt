//! A perfect matching of a square matrix whose least weight is greatest, with columns that show
//! that no other has a greater one.
//!
//! The bottleneck assignment problem by thresholds (Garfinkel 1971): maximum matchings of the
//! entries above a weight, each of which begins with pairs of one before. The first threshold is
//! the least of the greatest weights of the rows and columns, which no least weight passes and many
//! matrices reach; where it is not reached, the weights below it are tried by halves.
#![tactic(auto)]

mod answer;
mod bound;
mod heavier;
mod pairs;
mod thresholds;

pub use answer::best;
