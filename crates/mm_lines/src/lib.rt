//! A line that comes byte by byte, kept by what the rules ask of its words. It takes no memory.
#![tactic(auto)]

mod line;
mod number;
mod text;

pub use line::{LineSoFar, is_blank};
pub use number::Integer;
