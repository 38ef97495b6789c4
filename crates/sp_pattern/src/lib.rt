//! Sparse patterns: which places of a matrix have entries, kept by columns and by rows.
#![tactic(auto)]

mod columns;
mod compress;
mod ends;
mod filter;
mod halves;
mod laws;
mod load;
mod mirror;
mod pairs;
mod pattern;
mod pieces;
mod restrict;
mod side;
mod sort;
mod split;
mod sums;
mod transpose;
mod valued_columns;
mod weights;

pub use columns::{ColumnsError, Narrow, NumberList, Wide, check_columns};
pub use filter::Filter;
pub use laws::columns_give_their_places;
pub use load::load_matrix;
pub use pattern::Pattern;
pub use pieces::part;
pub use side::{FromRows, Neighbours, Side};
pub use valued_columns::ValuesError;
pub use weights::{WeightError, Weights};
