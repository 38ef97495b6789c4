//! The whole program over devices that are handed in.
#![tactic(auto)]

mod analyse_job;
mod answers;
mod bottleneck_job;
mod check_job;
mod command;
mod decompose;
mod diagonal_job;
mod edit_job;
mod engines;
mod file_answer;
mod laws;
mod load_job;
mod matrix;
mod rank_job;
mod reading;
mod refusals;
mod replies;
mod writing;

pub use answers::Answer;
pub use btf_words::Engine;
pub use command::run;
pub use engines::solve;
pub use file_answer::{FileAnswer, answer_bytes};
pub use laws::{one_summary, unused_input_tells};
pub use refusals::{Refusal, refuse, want_of_words, write_line};
