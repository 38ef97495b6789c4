//! Tests of the library over compressed columns and rows, on matrices that were worked out by hand.
//! There is nothing here for other crates.
#![tactic(auto)]

#[cfg(test)]
mod block_forms;
#[cfg(test)]
mod block_orders;
#[cfg(test)]
mod diagonals;
#[cfg(test)]
mod edits;
#[cfg(test)]
mod lengths;
#[cfg(test)]
mod lists;
#[cfg(test)]
mod matrices;
#[cfg(test)]
mod paired_orders;
#[cfg(test)]
mod permutations;
#[cfg(test)]
mod refusals;
#[cfg(test)]
mod small;
#[cfg(test)]
mod warm_starts;
#[cfg(test)]
mod weighted_columns;
#[cfg(test)]
mod weighted_refusals;
