//! The real devices of a process, over its standard input, standard output and standard error, and
//! the words that it is called with.
//!
//! Each counts its failures. What bytes the system really gave or took is told by none of them.
//! Where a reader's or a writer's bytes are known, each call does with them what it answers.
#![tactic(auto)]

mod arguments;
mod failures;
mod incoming;
mod outgoing;

pub use arguments::words;
pub use incoming::{Incoming, StdinSource};
pub use outgoing::{Outgoing, StderrSink, StdoutSink};
