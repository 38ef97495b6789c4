//! How a batch of files is refused.

use mm_defs::Kind;

/// Why the files of a batch were not read. Files count from 1.
#[derive(Clone, Copy, Debug, PartialEq, Eq)]
pub enum BatchError {
    /// The first bad frame is malformed.
    Malformed { file: u32, kind: Kind },
    /// The first bad frame passes a limit.
    Limit { file: u32, kind: Kind },
    /// No frame is bad, and the input has more bytes than may be used.
    TooLong,
    /// A read failed, and no frame that had ended is bad.
    ReadFault,
    /// There was not enough memory.
    OutOfMemory,
}
