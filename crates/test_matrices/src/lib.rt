//! Small matrices and matchings for tests, and a table of matrices that were worked out by hand.
//! Places count rows and columns from 1, as files do. There is nothing here for programs.
#![tactic(auto)]

mod matrices;
mod small;
mod worked;

pub use small::{are, integers_of, matching_of, pattern_of};
pub use worked::{Lists, Worked, lists_in, pairs_in, pattern_from, seen, worked_matrices};
