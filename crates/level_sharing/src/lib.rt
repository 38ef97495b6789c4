//! What all levels of the search by many workers share: the work of many at once, by joins over
//! halves; each worker's share of a list; when a board of words and its workers agree with the
//! claims and the leaves of a forest; what a worker lists and knows, step by step; and what a level
//! does to the forest.
//!
//! Levels of such a search are those of Azad, Buluç and Pothen, Computing maximum cardinality
//! matchings in parallel on bipartite graphs via tree-grafting, 2017.
#![tactic(auto)]

mod candidate;
mod candidates;
mod claims;
mod laws;
mod levels;
mod looks;
mod shares;
mod work;

pub use candidate::Candidate;
pub use candidates::claim_all;
pub use claims::claim_row;
pub use laws::{
    fresh_lists_are_added, fresh_lists_are_new, new_workers_agree, settled_workers_agree,
    shares_cover_a_list,
};
pub use levels::share_level;
pub use looks::{finds_holder, finds_leaf};
pub use shares::{share, share_start};
pub use work::{
    Sharing, WORTH_THREADS, Work, are_worth_threads, processors, share_work, work_at_once,
};
