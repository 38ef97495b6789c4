//! Edits of a matrix that a caller has in memory as compressed columns or rows: its entries are set
//! and cleared one by one, and each edit is answered by the rank of the matrix then.
#![tactic(auto)]

mod edit_places;
mod edited_ranks;
mod edits_refusals;

pub use edit_places::EditPlaces;
pub use edited_ranks::edits;
pub use edits_refusals::EditsRefusal;
