//! Matrix Market files, coordinate files and integer array files: what a good file is and what it
//! says, the kinds of faults and the one that is told, and what the answers of a reader say of the
//! bytes that it was given.
//!
//! The definitions are in `specs/`. A law is a function with an empty body: its contract is the
//! theorem.
#![tactic(auto)]

mod answers;
mod header;
mod kinds;
mod laws;
mod worked;

pub use answers::{End, ReadError};
pub use header::{Format, Header, Size, Symmetry};
pub use kinds::Kind;
pub use laws::{
    array_places_follow, array_values_are_counted, bad_file_is_refused, bad_line_is_reported,
    bad_line_stays, good_file_is_read, good_matrix_is_read, prefix_of_good_file,
    too_long_is_reported,
};
pub use worked::{worked_files, worked_prefixes, worked_refusals, worked_rests};
