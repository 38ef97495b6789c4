//! A session of edits of a matrix, whose maximum matching is kept up to date.
#![tactic(auto)]

mod arena;
mod columns;
mod patterns;
mod session;

pub use session::Session;
