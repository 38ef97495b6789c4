//! The heaviest diagonal of a square matrix, with prices that show that none is heavier.
//!
//! Shortest augmenting paths over reduced costs, with prices that stay feasible throughout (Kuhn
//! 1955; Munkres 1957), by searches in order of distance that end at the nearest unmatched row
//! (Duff and Koster 2001, for sparse matrices). Where these get long, phases go from all unmatched
//! columns or rows at once and match all that they can (Gabow and Tarjan 1989), and past the first
//! unmatched one: whether prices are still feasible is looked at on every entry.
//!
//! Before that a maximum matching of the pattern tells whether there is a diagonal, and what its
//! blocks are. Prices begin so that blocks stand apart: a search that begins in one goes on to the
//! next only where all that is left in its own costs more (Duff and Reid 1978, for the blocks).
#![tactic(auto)]

mod amount;
mod answer;
mod assignment;
mod blocks;
mod distances;
mod fairness;
mod frontier;
mod laws;
mod path;
mod phases;
mod search;
mod searches;
mod side;
mod start;
mod tight;
mod weighted_pattern;
mod width;

pub use answer::heaviest;
pub use laws::{fair_prices_show_heaviest, full_matching_shows_rank};
