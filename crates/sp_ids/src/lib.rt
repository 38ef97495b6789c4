//! The words that all crates of the analysis share: rows and columns, limits, the entries of a
//! file, events of the search for augmenting paths, and statuses.
#![tactic(auto)]

mod events;
mod ids;
mod limits;
mod memory;
mod outcomes;
mod triples;

pub use events::Event;
pub use ids::{Col, Id, Row};
pub use limits::{
    MAX_BATCH_FILE_BYTES, MAX_BATCH_FILES, MAX_COLS, MAX_EDITS, MAX_ENTRY_LINES, MAX_INPUT_BYTES,
    MAX_LOAD_SEED, MAX_LOAD_SIZE, MAX_ROWS, MAX_VALUE, MAX_WORKERS,
};
pub use memory::OutOfMemory;
pub use outcomes::Status;
pub use triples::{Field, Triples};
