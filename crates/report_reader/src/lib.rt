//! Reading of reports: what a text that `btf` wrote says, or that it is not one.
#![tactic(auto)]

mod laws;
mod listed_components;
mod numerals;
mod reader;
mod sections;
mod stop;

pub use laws::{one_spelling, reports_can_be_read};
pub use listed_components::{ComponentList, ListedComponents};
pub use numerals::rises;
pub use reader::{Report, read_report};
