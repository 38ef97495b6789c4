//! A square matrix filled with the pairs of its diagonal.
#![tactic(auto)]

mod complete;
mod fill;
mod laws;
mod parts;

pub use complete::completed;
pub use fill::{FilledColumns, OneMore};
pub use laws::{filled_entries, filled_matrix_is_full, filled_with_entries};
pub use parts::full_parts;
