//! Edit lines behind a matrix, which are read from a source in memory.

ghost use Rattle.std.specs.Prelude.{None};

use crate::files::source_of;
use mm_defs::{End, Kind, ReadError};
use mm_frames::{Edit, read_edits};
use mm_reader::{Input, read_matrix};
use sp_ids::{Col, MAX_INPUT_BYTES, OutOfMemory, Row};
use sp_ports::{Failed, MemSource, Source};
use std::alloc::Global;

/// A matrix of two rows and three columns with one entry, and these lines behind it.
fn session_of(alloc: Global, lines: &[u8]) -> Result<Vec<u8>, OutOfMemory> {
    let file = b"%%MatrixMarket matrix coordinate pattern general\n2 3 1\n1 1\n";
    let mut bytes = file.to_vec(alloc)?;
    bytes.extend_from_slice(lines)?;
    Ok(bytes)
}

/// The edits behind the matrix of a source.
fn edits_from(alloc: Global, source: &mut MemSource, limit: u64) -> Result<Vec<Edit>, ReadError> {
    let Ok(mut input) = Input::new(alloc, limit) else {
        return Err(ReadError::OutOfMemory);
    };
    match read_matrix(alloc, &mut input, source, End::LastEntry) {
        Err(error) => Err(error),
        Ok(_) => read_edits(alloc, &mut input, source, 2, 3),
    }
}

/// The edits behind that matrix, in pieces of so many bytes.
fn edits(alloc: Global, session: &[u8], piece: usize, limit: u64) -> Result<Vec<Edit>, ReadError> {
    match source_of(alloc, session, piece, &[]) {
        Err(_) => Err(ReadError::OutOfMemory),
        Ok(mut source) => edits_from(alloc, &mut source, limit),
    }
}

/// Whether a session has these edits, whatever the pieces in which it comes.
fn has_edits(alloc: Global, session: &[u8], wanted: &[Edit]) -> bool {
    for piece in [1, 7, 4096] {
        match edits(alloc, session, piece, 1000) {
            Err(_) => return false,
            Ok(found) => {
                if found.as_slice() != wanted {
                    return false;
                }
            }
        }
    }
    true
}

/// Whether the lines are read as these edits.
fn are_read(alloc: Global, lines: &[u8], wanted: &[Edit]) -> bool {
    match session_of(alloc, lines) {
        Err(_) => false,
        Ok(session) => has_edits(alloc, session.as_slice(), wanted),
    }
}

#[test]
fn edit_lines_are_read(rt: HostRuntime) {
    let lines = b"set 2 3\n\n% c\n clear\t+1 001 \r\nreport\nset 1 1";
    let wanted = [
        Edit::Set(Row(1), Col(2)),
        Edit::Clear(Row(0), Col(0)),
        Edit::Report,
        Edit::Set(Row(0), Col(0)),
    ];
    assert!(rt; are_read(rt.alloc(), lines, &wanted));
}

/// Edit lines that are refused, the bytes that the input may use, and why. The matrix has 59 bytes.
#[rattlefmt::skip]
static BAD: [(&[u8], u64, ReadError); 14] = [
    (b"set 0 x\n", 1000, ReadError::Malformed { line: 4, kind: Kind::ColumnNumber }),
    (b"set 0 0\n", 1000, ReadError::Malformed { line: 4, kind: Kind::RowRange }),
    (b"clear 2 4\n", 1000, ReadError::Malformed { line: 4, kind: Kind::ColumnRange }),
    (b"clear 1 0\n", 1000, ReadError::Malformed { line: 4, kind: Kind::ColumnRange }),
    (b"set x 4\n", 1000, ReadError::Malformed { line: 4, kind: Kind::RowNumber }),
    (b"set -1 4\n", 1000, ReadError::Malformed { line: 4, kind: Kind::RowNumber }),
    (b"set 1\n", 1000, ReadError::Malformed { line: 4, kind: Kind::EditWords }),
    (b"set 1 1 1\n", 1000, ReadError::Malformed { line: 4, kind: Kind::EditWords }),
    (b"report 1\n", 1000, ReadError::Malformed { line: 4, kind: Kind::EditWords }),
    (b"reports\n", 1000, ReadError::Malformed { line: 4, kind: Kind::EditWord }),
    (b"report\n% c\nnone 1 1", 1000, ReadError::Malformed { line: 6, kind: Kind::EditWord }),
    (b"report\n\nset 1 9\nset 9 1\n",
        1000, ReadError::Malformed { line: 6, kind: Kind::ColumnRange }),
    (b"report\nset 9 9\n", 73, ReadError::TooLong),
    (b"report\nset 9 9\n", 74, ReadError::Malformed { line: 5, kind: Kind::RowRange }),
];

/// Whether edits are refused for this.
fn is_refused(answer: Result<Vec<Edit>, ReadError>, error: ReadError) -> bool {
    match answer {
        Err(found) => found == error,
        Ok(_) => false,
    }
}

/// Whether a session is, whatever the pieces in which it comes.
fn is_bad_in_pieces(alloc: Global, session: &[u8], limit: u64, error: ReadError) -> bool {
    for piece in [1, 7, 4096] {
        if !is_refused(edits(alloc, session, piece, limit), error) {
            return false;
        }
    }
    true
}

/// Whether these lines are.
fn are_bad(alloc: Global, lines: &[u8], limit: u64, error: ReadError) -> bool {
    match session_of(alloc, lines) {
        Err(_) => false,
        Ok(session) => is_bad_in_pieces(alloc, session.as_slice(), limit, error),
    }
}

/// Whether all of these are.
fn all_are_bad(alloc: Global, list: &[(&[u8], u64, ReadError)]) -> bool {
    for (lines, limit, error) in list {
        if !are_bad(alloc, lines, *limit, *error) {
            return false;
        }
    }
    true
}

#[test]
fn bad_edit_lines_are_known(rt: HostRuntime) {
    assert!(rt; all_are_bad(rt.alloc(), &BAD));
}

/// A source that has no end and gives one edit line after another. It does not tell its bytes.
#[derive(Drop)]
struct Reports {
    given: u32,
}

impl Source for Reports {
    ghost left = { λ _. None };

    ghost faults = { λ _. 0 };

    fn read(&mut self, buf: &mut [u8]) -> Result<usize, Failed> {
        for byte in buf.iter_mut() {
            *byte = b"report\n"[(self.given % 7) as usize];
            self.given = self.given.wrapping_add(1);
        }
        Ok(buf.len())
    }
}

/// What is reported of one edit line too many.
const ONE_MORE: ReadError = ReadError::Limit {
    line: 16_777_217,
    kind: Kind::Edits,
};

/// Whether 16,777,216 edit lines are taken, and not one more.
fn are_limited(alloc: Global) -> bool {
    let mut source = Reports { given: 0 };
    match Input::new(alloc, MAX_INPUT_BYTES) {
        Err(_) => false,
        Ok(mut input) => { is_refused(read_edits(alloc, &mut input, &mut source, 2, 3), ONE_MORE) }
    }
}

#[test]
fn edit_lines_are_limited_in_number(rt: HostRuntime) {
    assert!(rt; are_limited(rt.alloc()));
}
