//! The seats at a board of shared words: numbers, splits and joins, in whatever a board was opened
//! with and whatever a seat lists, as definitions in `specs/`.
//!
//! The lemmas in `proofs/` are for the crates of the two boards, `claim_words` and `flip_words`, and
//! for no other crate.
#![tactic(auto)]
