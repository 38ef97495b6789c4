//! Readers over the bytes of an input: of the edit lines behind a matrix file, and of a batch of
//! files.
#![tactic(auto)]

mod batch;
mod edit;
mod files;
mod header;
mod judge;
mod laws;
mod reader;

pub use batch::BatchError;
pub use edit::Edit;
pub use files::read_files;
pub use laws::{
    bad_frame_is_reported, bad_frame_stays, batch_has_no_bad_frame, batch_has_one_list_of_files,
    good_batch_is_read,
};
pub use reader::read_edits;
