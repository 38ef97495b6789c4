//! A batch of matrix files, answered by many workers at once.
//!
//! The files are the rows of a board of claims, and a worker answers a file that it has claimed.
//! Each file's answer comes once and in order, whatever workers run.
#![tactic(auto)]

mod answers;
mod laws;
mod reading;
mod refusals;
mod run;
mod share;
mod texts;
mod workers;

pub use answers::{Answers, Put};
pub use laws::one_batch_text;
pub use refusals::{BatchRefusal, refuse};
pub use run::run_batch;
pub use share::Share;
pub use workers::answer_all;
