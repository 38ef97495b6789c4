//! A reader of Matrix Market files, coordinate files and integer array files, from any source of
//! bytes, through one buffer.
#![tactic(auto)]

mod array;
mod bad;
mod bytes;
mod input;
mod judge;
mod lanes;
mod machine;
mod places;
mod plain;
mod reader;
mod rest;
mod window;

pub use bad::BadLine;
pub use input::{Input, next_byte, read_matrix, read_rest};
pub use judge::place_within;
pub use mm_defs::{End, Kind, ReadError};
pub use mm_lines::LineSoFar;
