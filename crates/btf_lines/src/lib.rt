//! The lines that tell a verdict or a refusal, put together without memory.
#![tactic(auto)]

mod line;

pub use line::{
    Line, batch_limit_line, batch_malformed_line, invalid_line, limit_line, malformed_line,
    sum_limit_line,
};
