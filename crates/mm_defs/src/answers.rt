//! How a reading ends.

use crate::Kind;

/// Where a matrix ends.
#[derive(Clone, Copy, Debug, PartialEq, Eq)]
pub enum End {
    /// At the end of the input: nothing but skipped lines may follow the last entry line or value
    /// line.
    File,
    /// Behind the line end of the last entry line or value line, or of the size line where there
    /// are none. What follows is left.
    LastEntry,
}

/// Why nothing was read.
#[derive(Clone, Copy, Debug, PartialEq, Eq)]
pub enum ReadError {
    /// The first bad line is not of the file's form.
    Malformed { line: u64, kind: Kind },
    /// The first bad line passes a limit.
    Limit { line: u64, kind: Kind },
    /// No line is bad, and the input has more bytes than may be used.
    TooLong,
    /// A read failed, and no line that had ended is bad.
    ReadFault,
    /// There was not enough memory.
    OutOfMemory,
}
