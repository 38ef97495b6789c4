//! Matchings of the rows and columns of a sparse matrix, and what the analysis of a matrix answers.
#![tactic(auto)]

mod answers;
mod blocks;
mod examples;
mod laws;
mod matching;
mod mates;
mod opposite;
mod orders;
mod outer_marks;
mod surplus;
mod trace;

pub use answers::{Bottleneck, Components, Decomposition, Heaviest, Parts};
pub use blocks::Blocks;
pub use examples::lower_triangle_in_two_orders;
pub use laws::{
    matchings_of_the_transpose, one_rank_text, one_report, one_report_with_least_pairs,
    pairs_before_the_end,
};
pub use matching::Matching;
pub use mates::Mates;
pub use opposite::Opposite;
pub use orders::{orders_are_block_upper_triangular, square_size_counts_the_square_part};
pub use outer_marks::OuterMarks;
pub use surplus::surplus_is_unmatched;
pub use trace::{Parents, Queue, trace_back};
