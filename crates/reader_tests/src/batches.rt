//! Batches of files, which are read from a source in memory.

use crate::files::source_of;
use mm_defs::Kind;
use mm_frames::{BatchError, read_files};
use mm_reader::Input;
use sp_ids::OutOfMemory;
use sp_ports::MemSource;
use std::alloc::Global;

/// The files of a source, where the input may use so many bytes.
fn read_from(
    alloc: Global,
    source: &mut MemSource,
    limit: u64,
) -> Result<Vec<Vec<u8>>, BatchError> {
    match Input::new(alloc, limit) {
        Err(_) => Err(BatchError::OutOfMemory),
        Ok(mut input) => read_files(alloc, &mut input, source),
    }
}

/// The files of a batch in pieces of so many bytes.
fn files(
    alloc: Global,
    bytes: &[u8],
    piece: usize,
    limit: u64,
) -> Result<Vec<Vec<u8>>, BatchError> {
    match source_of(alloc, bytes, piece, &[]) {
        Err(_) => Err(BatchError::OutOfMemory),
        Ok(mut source) => read_from(alloc, &mut source, limit),
    }
}

/// Batches and their files. The last may use the bytes of its batch alone.
#[rattlefmt::skip]
static GOOD: [(&[u8], u64, &[&[u8]]); 4] = [
    (b"", 1000, &[]),
    (b"file 3\nabcfile 0\n", 1000, &[b"abc", b""]),
    (b" file\t+0011 \r\nfile 1\n\n\0\xff\nfile 1\nb", 1000, &[b"file 1\n\n\0\xff\n", b"b"]),
    (b"file 4\nabcd", 11, &[b"abcd"]),
];

/// Whether these are the files.
fn are_files(found: &[Vec<u8>], wanted: &[&[u8]]) -> bool {
    for (at, file) in wanted.iter().enumerate() {
        match found.get(at) {
            Some(read) => {
                if read.as_slice() != *file {
                    return false;
                }
            }
            None => return false,
        }
    }
    found.len() == wanted.len()
}

/// Whether a batch has these files, whatever the pieces in which it comes.
fn has_files(alloc: Global, bytes: &[u8], limit: u64, wanted: &[&[u8]]) -> bool {
    for piece in [1, 7, 4096] {
        match files(alloc, bytes, piece, limit) {
            Err(_) => return false,
            Ok(found) => {
                if !are_files(found.as_slice(), wanted) {
                    return false;
                }
            }
        }
    }
    true
}

/// Whether each of these batches has its files.
fn have_files(alloc: Global, batches: &[(&[u8], u64, &[&[u8]])]) -> bool {
    for (bytes, limit, wanted) in batches {
        if !has_files(alloc, bytes, *limit, wanted) {
            return false;
        }
    }
    true
}

#[test]
fn files_are_read(rt: HostRuntime) {
    assert!(rt; have_files(rt.alloc(), &GOOD));
}

/// Batches that are refused, the bytes that the input may use, and why.
#[rattlefmt::skip]
static BAD: [(&[u8], u64, BatchError); 24] = [
    (b"\n", 1000, BatchError::Malformed { file: 1, kind: Kind::BatchHeader }),
    (b" ", 1000, BatchError::Malformed { file: 1, kind: Kind::BatchHeader }),
    (b"% c\nfile 0\n", 1000, BatchError::Malformed { file: 1, kind: Kind::BatchHeader }),
    (b"File 0\n", 1000, BatchError::Malformed { file: 1, kind: Kind::BatchHeader }),
    (b"files 0\n", 1000, BatchError::Malformed { file: 1, kind: Kind::BatchHeader }),
    (b"file\n", 1000, BatchError::Malformed { file: 1, kind: Kind::BatchHeader }),
    (b"file 0 0\n", 1000, BatchError::Malformed { file: 1, kind: Kind::BatchHeader }),
    (b"file -0\n", 1000, BatchError::Malformed { file: 1, kind: Kind::BatchHeader }),
    (b"file x\n", 1000, BatchError::Malformed { file: 1, kind: Kind::BatchHeader }),
    (b"file 3\nabc\nfile 0\n", 1000, BatchError::Malformed { file: 2, kind: Kind::BatchHeader }),
    (b"file 0\nnone", 1000, BatchError::Malformed { file: 2, kind: Kind::BatchHeader }),
    (b"file 1", 1000, BatchError::Malformed { file: 1, kind: Kind::ShortFile }),
    (b"file 1\n", 1000, BatchError::Malformed { file: 1, kind: Kind::ShortFile }),
    (b"file 4\nabc", 1000, BatchError::Malformed { file: 1, kind: Kind::ShortFile }),
    (b"file 0\nfile 2\n\n", 1000, BatchError::Malformed { file: 2, kind: Kind::ShortFile }),
    (b"file 1073741824\n", 1000, BatchError::Malformed { file: 1, kind: Kind::ShortFile }),
    (b"file 0\nfile 1073741825\n", 1000, BatchError::Limit { file: 2, kind: Kind::FileBytes }),
    (b"file 0\nfile 18446744073709551616",
        1000, BatchError::Limit { file: 2, kind: Kind::FileBytes }),
    (b"file 4\nabcd", 0, BatchError::TooLong),
    (b"file 4\nabcd", 3, BatchError::TooLong),
    (b"file 4\nabcd", 7, BatchError::TooLong),
    (b"file 4\nabcd", 10, BatchError::TooLong),
    (b"none\nfile 0\n", 4, BatchError::TooLong),
    (b"none\nfile 0\n", 5, BatchError::Malformed { file: 1, kind: Kind::BatchHeader }),
];

/// Whether a batch is refused for this.
fn is_refused(answer: Result<Vec<Vec<u8>>, BatchError>, error: BatchError) -> bool {
    match answer {
        Err(found) => found == error,
        Ok(_) => false,
    }
}

/// Whether it is, whatever the pieces in which it comes.
fn is_bad_in_pieces(alloc: Global, bytes: &[u8], limit: u64, error: BatchError) -> bool {
    for piece in [1, 7, 4096] {
        if !is_refused(files(alloc, bytes, piece, limit), error) {
            return false;
        }
    }
    true
}

/// Whether each of these batches is.
fn are_bad(alloc: Global, batches: &[(&[u8], u64, BatchError)]) -> bool {
    for (bytes, limit, error) in batches {
        if !is_bad_in_pieces(alloc, bytes, *limit, *error) {
            return false;
        }
    }
    true
}

#[test]
fn bad_frames_are_known(rt: HostRuntime) {
    assert!(rt; are_bad(rt.alloc(), &BAD));
}

/// The frames of as many empty files as a batch may have, and what follows them.
fn most_frames(alloc: Global, last: &[u8]) -> Result<Vec<u8>, OutOfMemory> {
    let mut bytes = Vec::new(alloc);
    for _ in 0..65536 {
        bytes.extend_from_slice(b"file 0\n")?;
    }
    bytes.extend_from_slice(last)?;
    Ok(bytes)
}

/// Whether as many files are read as a batch may have.
fn most_are_read(alloc: Global) -> bool {
    match most_frames(alloc, b"") {
        Err(_) => false,
        Ok(bytes) => match files(alloc, bytes.as_slice(), 4096, 500000) {
            Err(_) => false,
            Ok(found) => found.len() == 65536,
        },
    }
}

/// What is reported of a batch with one file too many.
const ONE_MORE: BatchError = BatchError::Limit {
    file: 65537,
    kind: Kind::Files,
};

/// Whether a file too many is reported before its bytes are too many.
fn one_more_is_told(alloc: Global) -> bool {
    match most_frames(alloc, b"file 1073741825\n") {
        Err(_) => false,
        Ok(bytes) => is_refused(files(alloc, bytes.as_slice(), 4096, 500000), ONE_MORE),
    }
}

#[test]
fn files_are_limited_in_number(rt: HostRuntime) {
    assert!(rt; most_are_read(rt.alloc()));
    assert!(rt; one_more_is_told(rt.alloc()));
}

/// Batches that come in pieces of seven bytes, the call that fails, and what is reported: a bad
/// frame where it had ended before that call.
#[rattlefmt::skip]
static FAILED: [(&[u8], u64, BatchError); 7] = [
    (b"file 1\nx", 0, BatchError::ReadFault),
    (b"file 1\nx", 1, BatchError::ReadFault),
    (b"file 1\nx", 2, BatchError::ReadFault),
    (b"file 4\nabc", 2, BatchError::ReadFault),
    (b"none", 1, BatchError::ReadFault),
    (b"file 9", 1, BatchError::ReadFault),
    (b"none\n\n\nfile 0\n", 1, BatchError::Malformed { file: 1, kind: Kind::BatchHeader }),
];

/// Whether a batch in pieces of seven bytes is refused for this where the call fails.
fn is_told(alloc: Global, bytes: &[u8], call: u64, error: BatchError) -> bool {
    match source_of(alloc, bytes, 7, &[call]) {
        Err(_) => false,
        Ok(mut source) => is_refused(read_from(alloc, &mut source, 1000), error),
    }
}

/// Whether each of these batches is.
fn are_told(alloc: Global, batches: &[(&[u8], u64, BatchError)]) -> bool {
    for (bytes, call, error) in batches {
        if !is_told(alloc, bytes, *call, *error) {
            return false;
        }
    }
    true
}

#[test]
fn failed_reads_are_told(rt: HostRuntime) {
    assert!(rt; are_told(rt.alloc(), &FAILED));
}
