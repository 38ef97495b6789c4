//! The command lines of `btf` and `btf_batch`: which words are taken, and what they name.
//!
//! Each command line is a command of `clap`, with no text of clap's own: words that ask for help or
//! for the version are refused as any wrong words are. `specs/Table.antt` has the commands and
//! options of `btf`, `specs/Words.antt` the job that words name; `specs/BatchWords.antt` has what
//! the words of `btf_batch` are.
#![tactic(auto)]

mod batch;
mod commands;
mod jobs;
mod options;
mod reading;
mod usage;
mod workers;

pub use batch::{batch_usage_line, read_batch_words};
pub use jobs::{Engine, EngineChoice, Job, ListedPairs, ReportOptions, Version, WordsError};
pub use reading::{names_lie_anywhere, read_words, taken_words_name_a_job};
pub use usage::usage_line;
pub use workers::Workers;
