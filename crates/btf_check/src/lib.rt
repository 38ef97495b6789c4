//! The judge of reports: whether bytes are the report of a matrix, and if not, why.
#![tactic(auto)]

mod compare;
mod laws;
mod pairs;
mod reasons;
mod report;
mod verdict;

pub use laws::{no_reason_applies, one_verdict};
pub use report::judge;
pub use verdict::Verdict;
