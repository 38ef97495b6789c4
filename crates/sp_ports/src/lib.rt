//! Where the bytes of a run come from and where they go: the traits of the outside, and devices in
//! memory for tests.
#![tactic(auto)]

mod calls;
mod gates;
mod lent;
mod ports;
mod sinks;
mod sources;

pub use gates::{Gate, MeetGate, NoGate};
pub use lent::LentSource;
pub use ports::{Failed, Sink, Source, taken_in_turn, write_all};
pub use sinks::{MemSink, SteadySink};
pub use sources::{MemSource, SteadySource};
