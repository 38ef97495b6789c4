//! How large an input may be.

/// The most rows that a matrix may have.
pub const MAX_ROWS: u32 = 134_217_728;

/// The most columns that a matrix may have.
pub const MAX_COLS: u32 = 134_217_728;

/// The most entry lines that a file may have, or values of an array file.
pub const MAX_ENTRY_LINES: u32 = 134_217_728;

/// The greatest magnitude of an integer value, and of the sum of a place's values.
pub const MAX_VALUE: u64 = 9_223_372_036_854_775_807;

/// The most bytes that an input may have.
pub const MAX_INPUT_BYTES: u64 = 68_719_476_736;

/// The most workers that may search at once.
pub const MAX_WORKERS: u32 = 64;

/// The most rows and columns of a matrix that is made from a number.
pub const MAX_LOAD_SIZE: u32 = 16_777_216;

/// The greatest number from which a matrix is made.
pub const MAX_LOAD_SEED: u64 = 18_446_744_073_709_551_615;

/// The most edit lines behind a matrix.
pub const MAX_EDITS: u32 = 16_777_216;

/// The most files of a batch.
pub const MAX_BATCH_FILES: u32 = 65_536;

/// The most bytes of a file of a batch.
pub const MAX_BATCH_FILE_BYTES: u64 = 1_073_741_824;
