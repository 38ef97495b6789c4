//! The texts of the answers, byte for byte, through one buffer.
#![tactic(auto)]

mod batch;
mod bottleneck;
mod buffer;
mod diagonal;
mod hall;
mod laws;
mod load;
mod pairs;
mod rank;
mod replies;
mod report;
mod text;

pub use batch::{write_file_fault, write_file_report, write_files_end};
pub use bottleneck::write_bottleneck;
pub use buffer::TextBuf;
pub use diagonal::write_diagonal;
pub use laws::surplus_of_a_report_is_unmatched;
pub use load::write_load;
pub use pairs::write_pairs;
pub use rank::write_rank;
pub use replies::{Reply, write_replies};
pub use report::write_report;
pub use report_reader::{
    ComponentList, ListedComponents, Report, one_spelling, read_report, reports_can_be_read,
};
