//! A board of shared words, one for each row and one for each root, on which threads claim rows and
//! win roots at once.
//!
//! Each word goes to one seat, once. A claim is one compare-exchange and a look is one load; no
//! call waits or tries again. The board serves the search for augmenting paths by many workers of
//! Azad, Buluç and Pothen, Computing maximum cardinality matchings in parallel on bipartite graphs
//! via tree-grafting, 2017.
#![tactic(auto)]

mod answers;
mod board;
mod closed;
mod gather;
mod laws;
mod plays;
mod seat;
mod views;
mod worker;
mod worker_laws;

pub use answers::{Claimed, Won};
pub use board::ClaimBoard;
pub use closed::Closed;
pub use laws::{
    known_values_stand, listed_words_stand, new_seats_are_all, seats_in_order_are_all,
    times_add_up, words_are_listed,
};
pub use seat::ClaimSeat;
pub use worker::{Worker, workers_are_few};
pub use worker_laws::{
    fresh_lists_add_up, fresh_lists_are_listed, fresh_lists_join, seats_stay, workers_grow,
};
