//! The calls of `blocktri` for C, under names that `library/calls.c` calls and no library shows. A
//! list is passed as a pointer and the number of its elements, and no pointer may be null. A list to
//! be written has the length that its call asks for, or length 0 where it is not wanted. No call
//! starts a thread or takes a lock, so calls on different lists may run at once.
//!
//! Every call gives a status. At 0 there is an answer, and `fault` is as it was; at any other there
//! is none, and nothing was written but `fault` at 4, 20, 21, 27 and 28, where it gets the place of
//! the fault, and at 1 the rank by `proved_block_order`. At 1 the matrix is singular, at 2 it is not
//! square.
#![tactic(auto)]

mod block_form;
mod bottleneck_matching;
mod compressed_lists;
mod diagonal_order;
mod diagonal_statuses;
mod dm_permutations;
mod edit_statuses;
mod edits;
mod form_sizes;
mod heaviest_diagonal;
mod matching;
mod paired_orders;
mod rank;
mod statuses;
mod warm_start;
