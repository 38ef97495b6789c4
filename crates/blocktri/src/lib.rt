//! The structural analysis of matrices that a caller has in memory as compressed columns or rows:
//! for each column where its row numbers begin in one flat list, or for each row where its column
//! numbers begin. Numbers are counted from 0, stand in any order within their column or row, and may
//! stand there several times. Nothing of the lists is trusted.
//!
//! No call starts a thread. What the calls answer of a matrix is what the program `btf` answers of
//! a file with the same places: [`answers_are_those_of_a_file`], [`answers_are_those_of_a_report`].
#![tactic(auto)]

mod block_form;
mod bottleneck_matching;
mod completed_orders;
mod component_numbers;
mod compressed;
mod diagonal_order;
mod diagonal_refusals;
mod dm_permutations;
mod find_sizes;
mod first_look;
mod flat_look;
mod forms;
mod found;
mod full_diagonal;
mod given_orders;
mod given_pairs;
mod heaviest_diagonal;
mod laws;
mod matched;
mod matchings;
mod mates;
mod maximum;
mod narrow_prices;
mod orders;
mod paired_blocks;
mod pairing_refusals;
mod pairs_refusals;
mod permuted;
mod refusals;
mod rising_columns;
mod row_prices;
mod sizes;
mod square_form;
mod structural_rank;
mod wanted_lists;
mod warm_start;
mod weighted;
mod write;
mod write_diagonal;

pub use block_form::decomposition;
pub use bottleneck_matching::{LeastWeight, bottleneck};
pub use completed_orders::{PairedOrder, completed_order};
pub use compressed::{Compressed, is_room};
pub use diagonal_order::{SquareOrder, block_order};
pub use diagonal_refusals::DiagonalRefusal;
pub use dm_permutations::dmperm;
pub use given_orders::{OrderBy, order_by};
pub use heaviest_diagonal::{Sum, heaviest};
pub use laws::{
    answers_are_those_of_a_file, answers_are_those_of_a_report,
    block_orders_are_block_upper_triangular, no_perfect_matching_is_below_full_rank,
    paired_orders_are_block_upper_triangular,
};
pub use matchings::matching;
pub use pairing_refusals::PairingRefusal;
pub use pairs_refusals::PairsRefusal;
pub use refusals::Refusal;
pub use sizes::{ComponentCounts, Sizes, Wants};
pub use sp_pattern::{ColumnsError, Narrow, NumberList, Wide};
pub use structural_rank::rank;
pub use warm_start::matching_from;
pub use weighted::Weighted;
