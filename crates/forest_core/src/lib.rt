//! The forest of alternating trees in which many workers search for augmenting paths at once, as a
//! machine of events: each event is one step of one worker.
//!
//! The trees are those of Azad, Buluç and Pothen, Computing maximum cardinality matchings in
//! parallel on bipartite graphs via tree-grafting, 2017.
#![tactic(auto)]

mod adopted;
mod claim_table;
mod forest;
mod laws;
mod lists;
mod paths;
mod renew;
mod runs;
mod table;

pub use forest::Forest;
pub use laws::{
    claims_and_wins_grow, current_is_a_matching, done_is_maximum, events_keep_covered,
    events_keep_sound, events_keep_the_matrix, forests_are_rested, new_pairs_run,
    pairs_stand_in_their_lists, runs_join, settled_without_wins, sound_forests_have_trees,
};
pub use runs::every_run;
