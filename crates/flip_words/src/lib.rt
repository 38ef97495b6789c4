//! A board of shared words on which the augmenting paths of many alternating trees are exchanged at
//! once.
//!
//! Threads take trees, and only the taker of a tree sets the mates of its vertices. A take is one
//! compare-exchange, a set is one store and a look is one load; no call waits or tries again. The
//! board serves the augmentation by many workers of Azad, Buluç and Pothen, Computing maximum
//! cardinality matchings in parallel on bipartite graphs via tree-grafting, 2017.
#![tactic(auto)]

mod board;
mod closing;
mod laws;
mod opening;
mod plays;
mod seat;
mod seats;
mod taken;
mod views;
mod words;

pub use bip_graph::Mates;
pub use board::FlipBoard;
pub use laws::{
    each_tree_has_one_taker, mates_are_those_set, new_seats_are_all, seats_in_order_are_all,
    seats_stay_all,
};
pub use seat::FlipSeat;
pub use seats::seats_are_few;
pub use taken::Taken;
