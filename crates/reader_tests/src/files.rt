//! Files of matrices, which are read from a source in memory.

use mm_defs::{End, Kind, ReadError};
use mm_reader::{Input, next_byte, read_matrix, read_rest};
use sp_ids::{Col, Field, OutOfMemory, Row, Triples};
use sp_ports::{Failed, MemSource, Source};
use std::alloc::Global;

/// One entry, in 59 bytes.
const SMALLEST: &[u8] = b"%%MatrixMarket matrix coordinate pattern general\n1 1 1\n1 1\n";

/// A file, and what is read of it: its field, its sizes, its places counted from 0, and its values
/// where they are integers.
#[derive(Clone, Copy)]
struct Example {
    file: &'static [u8],
    field: Field,
    sizes: (u32, u32),
    places: &'static [(u32, u32)],
    values: &'static [i64],
}

/// Coordinate files, then array files, whose values stand column by column.
#[rattlefmt::skip]
static GOOD: [Example; 15] = [
    Example {
        file: b"%%MatrixMarket matrix coordinate pattern general\n1 1 1\n1 1\n",
        field: Field::Pattern,
        sizes: (1, 1),
        places: &[(0, 0)],
        values: &[],
    },
    Example {
        file: b"%%MatrixMarket matrix coordinate integer general\r\n1 1 2\r\n1 1 5\r\n1 1 -5",
        field: Field::Integer,
        sizes: (1, 1),
        places: &[(0, 0), (0, 0)],
        values: &[5, -5],
    },
    Example {
        file: b"%%MatrixMarket matrix coordinate integer general\n1 1 1\n1 1 -9223372036854775807\n",
        field: Field::Integer,
        sizes: (1, 1),
        places: &[(0, 0)],
        values: &[-9223372036854775807],
    },
    Example {
        file: b"%%MatrixMarket matrix coordinate integer skew-symmetric\n2 2 1\n2 1 -4\n",
        field: Field::Integer,
        sizes: (2, 2),
        places: &[(1, 0), (0, 1)],
        values: &[-4, 4],
    },
    Example {
        file: b"%%MatrixMarket matrix coordinate integer skew-symmetric\n6 6 6\n2 1 +6\n5 1 007 \n6 1 -000000000000000000008\r\n4 2 1234567890123456789\n6 2 00000000000000000009\n+6 03 -0",
        field: Field::Integer,
        sizes: (6, 6),
        places: &[(1, 0), (0, 1), (4, 0), (0, 4), (5, 0), (0, 5), (3, 1), (1, 3), (5, 1), (1, 5), (5, 2), (2, 5)],
        values: &[6, -6, 7, -7, -8, 8, 1234567890123456789, -1234567890123456789, 9, -9, 0, 0],
    },
    Example {
        file: b"%%MatrixMarket matrix coordinate real general\n9 7 8\n1 2 0.5\n3 4 -1.25e-10\n+5 6 1\n0008 01 +4\n9 7 1 \t\n2\t3  NaN\r\n0000000000000000004 5 1\n% 2 2 2\n\n 8 6 x",
        field: Field::Real,
        sizes: (9, 7),
        places: &[(0, 1), (2, 3), (4, 5), (7, 0), (8, 6), (1, 2), (3, 4), (7, 5)],
        values: &[],
    },
    Example {
        file: b"%%MatrixMarket matrix coordinate real symmetric\n3 3 3\n1 1 2.0\n2 1 -1\n3 02 -1.5 \r\n",
        field: Field::Real,
        sizes: (3, 3),
        places: &[(0, 0), (1, 0), (0, 1), (2, 1), (1, 2)],
        values: &[],
    },
    Example {
        file: b"%%MatrixMarket matrix coordinate complex hermitian\n3 3 3\n1 1 4 0\n2 1 0.5 -1e3\n+3 2  -1\t+2 ",
        field: Field::Complex,
        sizes: (3, 3),
        places: &[(0, 0), (1, 0), (0, 1), (2, 1), (1, 2)],
        values: &[],
    },
    Example {
        file: b"%%MatrixMarket matrix array integer general\n2 2\n0\n4\n5\n0\n",
        field: Field::Integer,
        sizes: (2, 2),
        places: &[(1, 0), (0, 1)],
        values: &[4, 5],
    },
    Example {
        file: b"%%MatrixMarket matrix array integer general\n2 3\n1\n+2\n\n 03 \r\n-0\n% c\n\t-5\n6",
        field: Field::Integer,
        sizes: (2, 3),
        places: &[(0, 0), (1, 0), (0, 1), (0, 2), (1, 2)],
        values: &[1, 2, 3, -5, 6],
    },
    Example {
        file: b"%%MatrixMarket matrix array integer symmetric\n3 3\n1\n2\n3\n4\n5\n6\n",
        field: Field::Integer,
        sizes: (3, 3),
        places: &[(0, 0), (1, 0), (0, 1), (2, 0), (0, 2), (1, 1), (2, 1), (1, 2), (2, 2)],
        values: &[1, 2, 2, 3, 3, 4, 5, 5, 6],
    },
    Example {
        file: b"%%MatrixMarket matrix array integer skew-symmetric\n3 3\n1\n0\n3\n",
        field: Field::Integer,
        sizes: (3, 3),
        places: &[(1, 0), (0, 1), (2, 1), (1, 2)],
        values: &[1, -1, 3, -3],
    },
    Example {
        file: b"%%MatrixMarket matrix array integer general\n0 3\n",
        field: Field::Integer,
        sizes: (0, 3),
        places: &[],
        values: &[],
    },
    Example {
        file: b"%%MatrixMarket matrix array integer symmetric\n0 0\n",
        field: Field::Integer,
        sizes: (0, 0),
        places: &[],
        values: &[],
    },
    Example {
        file: b"%%MatrixMarket matrix array integer skew-symmetric\n1 1\n",
        field: Field::Integer,
        sizes: (1, 1),
        places: &[],
        values: &[],
    },
];

/// Files that are refused, first by a line of a coordinate file, then by one of an array file.
#[rattlefmt::skip]
static BAD: [(&[u8], ReadError); 56] = [
    (b"%%MatrixMarket matrix coordinate real general\n9 9 9\n9 9 .5\n2 2\n",
        ReadError::Malformed { line: 4, kind: Kind::EntryWords }),
    (b"%%MatrixMarket matrix coordinate real general\n9 9 9\n9 9 .5\n2 2 1 1\n",
        ReadError::Malformed { line: 4, kind: Kind::EntryWords }),
    (b"%%MatrixMarket matrix coordinate real general\n9 9 9\n9 9 .5\n-2 2 1\n",
        ReadError::Malformed { line: 4, kind: Kind::RowNumber }),
    (b"%%MatrixMarket matrix coordinate real general\n9 9 9\n9 9 .5\n2 2x 1\n",
        ReadError::Malformed { line: 4, kind: Kind::ColumnNumber }),
    (b"%%MatrixMarket matrix coordinate real general\n9 9 9\n9 9 .5\n10 0 1\n",
        ReadError::Malformed { line: 4, kind: Kind::RowRange }),
    (b"%%MatrixMarket matrix coordinate real general\n9 9 9\n9 9 .5\n9 0 1\n",
        ReadError::Malformed { line: 4, kind: Kind::ColumnRange }),
    (b"%%MatrixMarket matrix coordinate complex general\n9 9 9\n9 9 1 0\n2 2 1\n",
        ReadError::Malformed { line: 4, kind: Kind::EntryWords }),
    (b"%%MatrixMarket matrix coordinate complex general\n9 9 9\n9 9 1 0\n2 2 1 1 1\n",
        ReadError::Malformed { line: 4, kind: Kind::EntryWords }),
    (b"%%MatrixMarket matrix coordinate integer skew-symmetric\n9 9 9\n9 8 7\n2 1\n",
        ReadError::Malformed { line: 4, kind: Kind::EntryWords }),
    (b"%%MatrixMarket matrix coordinate integer skew-symmetric\n9 9 9\n9 8 7\n2 1 1 1\n",
        ReadError::Malformed { line: 4, kind: Kind::EntryWords }),
    (b"%%MatrixMarket matrix coordinate integer skew-symmetric\n9 9 9\n9 8 7\n2 1 1.5\n",
        ReadError::Malformed { line: 4, kind: Kind::ValueNumber }),
    (b"%%MatrixMarket matrix coordinate integer skew-symmetric\n9 9 9\n9 8 7\n2 1 --5\n",
        ReadError::Malformed { line: 4, kind: Kind::ValueNumber }),
    (b"%%MatrixMarket matrix coordinate integer skew-symmetric\n9 9 9\n9 8 7\n2 1 -\n",
        ReadError::Malformed { line: 4, kind: Kind::ValueNumber }),
    (b"%%MatrixMarket matrix coordinate integer skew-symmetric\n9 9 9\n9 8 7\n2 1 5x\n",
        ReadError::Malformed { line: 4, kind: Kind::ValueNumber }),
    (b"%%MatrixMarket matrix coordinate integer skew-symmetric\n9 9 9\n9 8 7\n1 2 -5\n",
        ReadError::Malformed { line: 4, kind: Kind::UpperEntry }),
    (b"%%MatrixMarket matrix coordinate integer skew-symmetric\n9 9 9\n9 8 7\n2 2 0\n",
        ReadError::Malformed { line: 4, kind: Kind::DiagonalEntry }),
    (b"%%MatrixMarket matrix coordinate integer skew-symmetric\n9 9 9\n9 8 7\n2 1 -9223372036854775808\n",
        ReadError::Limit { line: 4, kind: Kind::Value }),
    (b"%%MatrixMarket matrix coordinate integer general\n1 1 1\n1 1 -9223372036854775808\n",
        ReadError::Limit { line: 3, kind: Kind::Value }),
    (b"%%MatrixMarket matrix coordinate pattern general\n1 1 1\n1 1\n% c\n1 1\n1 x\n",
        ReadError::Malformed { line: 5, kind: Kind::Trailing }),
    (b"%%MatrixMarket matrix coordinate pattern general\n1 1 1\n1\01\n",
        ReadError::Malformed { line: 3, kind: Kind::EntryWords }),
    (b"%%MatrixMarket matrix coordinate pattern general\n1 1 1\n\xff 1\n",
        ReadError::Malformed { line: 3, kind: Kind::RowNumber }),
    (b"%%MatrixMarket matrix coordinate pattern general\n1 1 134217728\n1 1\n",
        ReadError::Malformed { line: 3, kind: Kind::MissingEntries }),
    (b"%%MatrixMarket matrix coordinate pattern general\n1 1 1\n99999999999999999999999999 1\n",
        ReadError::Malformed { line: 3, kind: Kind::RowRange }),
    (b"%%MatrixMarket matrix array real general\n",
        ReadError::Malformed { line: 1, kind: Kind::ArrayField }),
    (b"%%MatrixMarket matrix array pattern hermitian\n",
        ReadError::Malformed { line: 1, kind: Kind::ArrayField }),
    (b"%%MatrixMarket matrix array complex general\n",
        ReadError::Malformed { line: 1, kind: Kind::ArrayField }),
    (b"%%MatrixMarket matrix array integer hermitian\n",
        ReadError::Malformed { line: 1, kind: Kind::Combination }),
    (b"%%MatrixMarket matrix array real triangular\n",
        ReadError::Malformed { line: 1, kind: Kind::Symmetry }),
    (b"%%MatrixMarket matrix array integer general\n",
        ReadError::Malformed { line: 1, kind: Kind::NoSize }),
    (b"%%MatrixMarket matrix array integer general\n20000 20000\n",
        ReadError::Limit { line: 2, kind: Kind::Entries }),
    (b"%%MatrixMarket matrix array integer general\n16777216 9\n",
        ReadError::Limit { line: 2, kind: Kind::Entries }),
    (b"%%MatrixMarket matrix array integer general\n134217729 0\n",
        ReadError::Limit { line: 2, kind: Kind::Rows }),
    (b"%%MatrixMarket matrix array integer general\n99999999999999999999 99999999999999999999\n",
        ReadError::Limit { line: 2, kind: Kind::Rows }),
    (b"%%MatrixMarket matrix array integer general\n0 134217729\n",
        ReadError::Limit { line: 2, kind: Kind::Columns }),
    (b"%%MatrixMarket matrix array integer symmetric\n16384 0\n",
        ReadError::Limit { line: 2, kind: Kind::Entries }),
    (b"%%MatrixMarket matrix array integer skew-symmetric\n16385 1\n",
        ReadError::Limit { line: 2, kind: Kind::Entries }),
    (b"%%MatrixMarket matrix array integer general\n16777216 8\n",
        ReadError::Malformed { line: 2, kind: Kind::MissingEntries }),
    (b"%%MatrixMarket matrix array integer general\n2 2 4\n",
        ReadError::Malformed { line: 2, kind: Kind::SizeWords }),
    (b"%%MatrixMarket matrix array integer general\nx 134217729\n",
        ReadError::Malformed { line: 2, kind: Kind::SizeNumber }),
    (b"%%MatrixMarket matrix array integer symmetric\n16383 16384\n",
        ReadError::Malformed { line: 2, kind: Kind::NotSquare }),
    (b"%%MatrixMarket matrix array integer skew-symmetric\n16384 16385\n",
        ReadError::Malformed { line: 2, kind: Kind::NotSquare }),
    (b"%%MatrixMarket matrix array integer skew-symmetric\n16384 16384\n",
        ReadError::Malformed { line: 2, kind: Kind::MissingEntries }),
    (b"%%MatrixMarket matrix array integer general\n9 9\n-0\n1 1 7\n",
        ReadError::Malformed { line: 4, kind: Kind::EntryWords }),
    (b"%%MatrixMarket matrix array integer general\n9 9\n-0\n7.0\n",
        ReadError::Malformed { line: 4, kind: Kind::ValueNumber }),
    (b"%%MatrixMarket matrix array integer general\n9 9\n-0\n--7\n",
        ReadError::Malformed { line: 4, kind: Kind::ValueNumber }),
    (b"%%MatrixMarket matrix array integer general\n9 9\n-0\n+\n",
        ReadError::Malformed { line: 4, kind: Kind::ValueNumber }),
    (b"%%MatrixMarket matrix array integer general\n9 9\n-0\nnan\n",
        ReadError::Malformed { line: 4, kind: Kind::ValueNumber }),
    (b"%%MatrixMarket matrix array integer general\n9 9\n9223372036854775807\n-9223372036854775808\n",
        ReadError::Limit { line: 4, kind: Kind::Value }),
    (b"%%MatrixMarket matrix array integer symmetric\n9 9\n7\n99999999999999999999999999\n",
        ReadError::Limit { line: 4, kind: Kind::Value }),
    (b"%%MatrixMarket matrix array integer symmetric\n2 2\n7\n7\n",
        ReadError::Malformed { line: 4, kind: Kind::MissingEntries }),
    (b"%%MatrixMarket matrix array integer symmetric\n2 2\n7\n7\n-",
        ReadError::Malformed { line: 5, kind: Kind::ValueNumber }),
    (b"%%MatrixMarket matrix array integer symmetric\n2 2\n7\n7\n-7\n0\n",
        ReadError::Malformed { line: 6, kind: Kind::Trailing }),
    (b"%%MatrixMarket matrix array integer skew-symmetric\n3 3\n7\n7\n",
        ReadError::Malformed { line: 4, kind: Kind::MissingEntries }),
    (b"%%MatrixMarket matrix array integer skew-symmetric\n3 3\n7\n7\n7\n0\n",
        ReadError::Malformed { line: 6, kind: Kind::Trailing }),
    (b"%%MatrixMarket matrix array integer skew-symmetric\n1 1\n0\n",
        ReadError::Malformed { line: 3, kind: Kind::Trailing }),
    (b"%%MatrixMarket matrix array integer general\n0 3\n0\n",
        ReadError::Malformed { line: 3, kind: Kind::Trailing }),
];

/// A source of these bytes that comes in pieces of so many, one at least, and some of whose calls
/// fail.
pub(crate) fn source_of(
    alloc: Global,
    bytes: &[u8],
    piece: usize,
    failing: &[u64],
) -> Result<MemSource, OutOfMemory> {
    let failing = failing.to_vec(alloc)?;
    let bytes = bytes.to_vec(alloc)?;
    Ok(MemSource::new(bytes, piece.max(1), failing))
}

/// Reads the matrix of a source.
fn read_from(
    alloc: Global,
    source: &mut MemSource,
    limit: u64,
    end: End,
) -> Result<Triples, ReadError> {
    match Input::new(alloc, limit) {
        Err(_) => Err(ReadError::OutOfMemory),
        Ok(mut input) => read_matrix(alloc, &mut input, source, end),
    }
}

/// Reads a whole file that comes in pieces of so many bytes.
fn read(alloc: Global, bytes: &[u8], piece: usize, limit: u64) -> Result<Triples, ReadError> {
    match source_of(alloc, bytes, piece, &[]) {
        Err(_) => Err(ReadError::OutOfMemory),
        Ok(mut source) => read_from(alloc, &mut source, limit, End::File),
    }
}

/// Whether the places are those of these rows and columns.
fn are_places(found: &[(Row, Col)], places: &[(u32, u32)]) -> bool {
    for (at, place) in places.iter().enumerate() {
        if found.get(at).copied() != Some((Row(place.0), Col(place.1))) {
            return false;
        }
    }
    found.len() == places.len()
}

/// The values of a file of the field integer.
fn values(triples: &Triples) -> &[i64] {
    if triples.field() == Field::Integer {
        return triples.values();
    }
    &[]
}

/// Whether this is what is to be read of an example's file.
fn is_example(example: &Example, triples: &Triples) -> bool {
    triples.field() == example.field
        && (triples.rows(), triples.cols()) == example.sizes
        && are_places(triples.places(), example.places)
        && values(triples) == example.values
}

/// Whether it is read where the file comes in pieces of so many bytes.
fn is_read(alloc: Global, example: &Example, piece: usize) -> bool {
    match read(alloc, example.file, piece, 1000) {
        Err(_) => false,
        Ok(triples) => is_example(example, &triples),
    }
}

/// Whether it is, whatever the pieces.
fn is_read_in_pieces(alloc: Global, example: &Example) -> bool {
    for piece in [1, 2, 3, 7, 59, 4096] {
        if !is_read(alloc, example, piece) {
            return false;
        }
    }
    true
}

/// Whether that holds of each of these examples.
fn are_read(alloc: Global, examples: &[Example]) -> bool {
    for example in examples {
        if !is_read_in_pieces(alloc, example) {
            return false;
        }
    }
    true
}

#[test]
fn pieces_change_nothing(rt: HostRuntime) {
    assert!(rt; are_read(rt.alloc(), &GOOD));
}

/// Whether a matrix was refused for this.
fn is_refused(answer: Result<Triples, ReadError>, error: ReadError) -> bool {
    match answer {
        Err(found) => found == error,
        Ok(_) => false,
    }
}

/// Whether a file is, whatever the pieces in which it comes.
fn is_bad_in_pieces(alloc: Global, file: &[u8], error: ReadError) -> bool {
    for piece in [1, 2, 3, 7, 4096] {
        if !is_refused(read(alloc, file, piece, 1000), error) {
            return false;
        }
    }
    true
}

/// Whether each of these files is.
fn are_bad(alloc: Global, files: &[(&[u8], ReadError)]) -> bool {
    for (file, error) in files {
        if !is_bad_in_pieces(alloc, file, *error) {
            return false;
        }
    }
    true
}

#[test]
fn the_first_bad_line_is_reported(rt: HostRuntime) {
    assert!(rt; are_bad(rt.alloc(), &BAD));
}

/// A source, where its matrix is to end and the bytes that the input may use; why the matrix is
/// refused, or that it is the one of one entry; and the lines and the bytes ahead that the input
/// then tells.
struct Reading {
    bytes: &'static [u8],
    piece: usize,
    failing: &'static [u64],
    end: End,
    limit: u64,
    refused: Option<ReadError>,
    told: (u64, usize),
}

/// Whether the matrix is the one of one entry, or it was refused for this.
fn is_wanted(answer: Result<Triples, ReadError>, refused: Option<ReadError>) -> bool {
    match answer {
        Err(found) => refused == Some(found),
        Ok(triples) => refused.is_none() && are_places(triples.places(), &[(0, 0)]),
    }
}

/// Whether a matrix is read of the source as it is to be, and the input may be used again where it
/// was not refused.
fn goes_over(alloc: Global, reading: &Reading, source: &mut MemSource) -> bool {
    let Ok(mut input) = Input::new(alloc, reading.limit) else {
        return false;
    };
    let answer = read_matrix(alloc, &mut input, source, reading.end);
    is_wanted(answer, reading.refused)
        && (input.lines(), input.ahead()) == reading.told
        && input.is_good() == reading.refused.is_none()
}

/// Whether it is read so of a source that is made for it.
fn goes(alloc: Global, reading: &Reading) -> bool {
    match source_of(alloc, reading.bytes, reading.piece, reading.failing) {
        Err(_) => false,
        Ok(mut source) => goes_over(alloc, reading, &mut source),
    }
}

/// The matrix of one entry, of whose 59 bytes 58 may be used. One more is taken.
#[rattlefmt::skip]
static PAST_THE_LIMIT: [Reading; 3] = [
    Reading {
        bytes: SMALLEST, piece: 1, failing: &[], end: End::File, limit: 58,
        refused: Some(ReadError::TooLong), told: (2, 1),
    },
    Reading {
        bytes: SMALLEST, piece: 10, failing: &[], end: End::File, limit: 58,
        refused: Some(ReadError::TooLong), told: (2, 1),
    },
    Reading {
        bytes: SMALLEST, piece: 59, failing: &[], end: End::File, limit: 58,
        refused: Some(ReadError::TooLong), told: (2, 1),
    },
];

/// Whether a whole file that may use so many bytes has one entry.
fn has_one_entry(alloc: Global, bytes: &[u8], limit: u64) -> bool {
    match read(alloc, bytes, 10, limit) {
        Err(_) => false,
        Ok(triples) => triples.len() == 1,
    }
}

/// Whether one more byte is past the limit, and all bytes are not.
fn is_limited(alloc: Global) -> bool {
    for reading in &PAST_THE_LIMIT {
        if !goes(alloc, reading) {
            return false;
        }
    }
    has_one_entry(alloc, SMALLEST, 59)
}

#[test]
fn the_limit_counts_bytes(rt: HostRuntime) {
    assert!(rt; is_limited(rt.alloc()));
}

/// Whether of the 59 bytes in one piece 53 are taken where 52 may be used.
fn is_one_more(alloc: Global, source: &mut MemSource) -> bool {
    let answer = read_from(alloc, source, 52, End::File);
    is_refused(answer, ReadError::TooLong) && source.read(&mut [0; 16]) == Ok(6)
}

/// Whether they are of a source that is made for it.
fn one_more_is_taken(alloc: Global) -> bool {
    match source_of(alloc, SMALLEST, 59, &[]) {
        Err(_) => false,
        Ok(mut source) => is_one_more(alloc, &mut source),
    }
}

#[test]
fn one_byte_past_the_limit_is_taken(rt: HostRuntime) {
    assert!(rt; one_more_is_taken(rt.alloc()));
}

/// A pattern file of one row and one column whose entry line these pieces make.
fn with_entry(alloc: Global, pieces: &[&[u8]]) -> Result<Vec<u8>, OutOfMemory> {
    let mut bytes = b"%%MatrixMarket matrix coordinate pattern general\n1 1 1\n".to_vec(alloc)?;
    for piece in pieces {
        bytes.extend_from_slice(piece)?;
    }
    Ok(bytes)
}

/// Whether the file whose entry line these pieces make has one entry.
fn is_entry(alloc: Global, pieces: &[&[u8]]) -> bool {
    match with_entry(alloc, pieces) {
        Err(_) => false,
        Ok(bytes) => has_only_place(alloc, bytes.as_slice()),
    }
}

/// Whether a file of up to a million bytes has the first place alone.
fn has_only_place(alloc: Global, bytes: &[u8]) -> bool {
    is_wanted(read(alloc, bytes, 4096, 1_000_000), None)
}

/// So many times the same byte.
fn filled(alloc: Global, byte: u8, count: usize) -> Result<Vec<u8>, OutOfMemory> {
    Ok(Vec::from_elem(alloc, byte, count)?)
}

/// Whether so many blanks may stand between two numbers.
fn blanks_may_be_many(alloc: Global) -> bool {
    match filled(alloc, b' ', 70_000) {
        Err(_) => false,
        Ok(blanks) => is_entry(alloc, &[b"1", blanks.as_slice(), b"1", b"\n"]),
    }
}

/// Whether so many zeros may stand before each.
fn zeros_may_be_many(alloc: Global) -> bool {
    match filled(alloc, b'0', 70_000) {
        Err(_) => false,
        Ok(zeros) => is_entry(alloc, &[zeros.as_slice(), b"1 ", zeros.as_slice(), b"1\n"]),
    }
}

#[test]
fn lines_may_be_longer_than_the_buffer(rt: HostRuntime) {
    assert!(rt; blanks_may_be_many(rt.alloc()) && zeros_may_be_many(rt.alloc()));
}

#[rattlefmt::skip]
static FOLLOWED_ENTRY: Reading = Reading {
    bytes: b"%%MatrixMarket matrix coordinate pattern general\n1 1 1\n1 1\n% c\nbtf 1\n",
    piece: 61, failing: &[], end: End::LastEntry, limit: 1000,
    refused: None, told: (3, 2),
};

#[test]
fn what_follows_the_last_entry_is_left(rt: HostRuntime) {
    assert!(rt; goes(rt.alloc(), &FOLLOWED_ENTRY));
}

/// Files with ten more bytes behind their last entry or value line, or behind a size line that asks
/// for none.
#[rattlefmt::skip]
static FOLLOWED: [&[u8]; 3] = [
    b"%%MatrixMarket matrix coordinate pattern general\n1 1 1\n1 1\n% c\nbtf 1\n",
    b"%%MatrixMarket matrix array integer general\n1 2\n0\n7\n% c\nbtf 1\n",
    b"%%MatrixMarket matrix array integer skew-symmetric\n1 1\n% c\nbtf 1\n",
];

/// Whether these bytes are what follows the matrix of a source.
fn is_followed_by(alloc: Global, source: &mut MemSource, end: End, rest: &[u8]) -> bool {
    let Ok(mut input) = Input::new(alloc, 100) else {
        return false;
    };
    match read_matrix(alloc, &mut input, source, end) {
        Err(_) => false,
        Ok(_) => match read_rest(alloc, &mut input, source) {
            Err(_) => false,
            Ok(found) => found.as_slice() == rest,
        },
    }
}

/// Whether they are what follows the last line of a file, whatever the pieces.
fn has_rest(alloc: Global, file: &[u8], rest: &[u8]) -> bool {
    for piece in [1, 61, 100] {
        let Ok(mut source) = source_of(alloc, file, piece, &[]) else {
            return false;
        };
        if !is_followed_by(alloc, &mut source, End::LastEntry, rest) {
            return false;
        }
    }
    true
}

/// Whether they are what follows each of these files.
fn have_rest(alloc: Global, files: &[&[u8]], rest: &[u8]) -> bool {
    for file in files {
        if !has_rest(alloc, file, rest) {
            return false;
        }
    }
    true
}

#[test]
fn the_rest_is_all_that_follows(rt: HostRuntime) {
    assert!(rt; have_rest(rt.alloc(), &FOLLOWED, b"% c\nbtf 1\n"));
}

/// The first 50 bytes have one LF, and the second call fails.
static FAILED_READ: Reading = Reading {
    bytes: SMALLEST,
    piece: 50,
    failing: &[1],
    end: End::File,
    limit: 1000,
    refused: Some(ReadError::ReadFault),
    told: (1, 0),
};

#[test]
fn lines_are_counted_at_a_failed_read(rt: HostRuntime) {
    assert!(rt; goes(rt.alloc(), &FAILED_READ));
}

/// Files whose last line has an LF or none.
#[rattlefmt::skip]
static ENDED: [(End, &[u8]); 3] = [
    (End::File, SMALLEST),
    (End::File, b"%%MatrixMarket matrix coordinate pattern general\n1 1 1\n1 1"),
    (End::LastEntry, b"%%MatrixMarket matrix coordinate pattern general\n1 1 1\n1 1"),
];

/// Whether nothing follows, and the call of the source that fails was not made before it is made
/// here.
fn is_not_asked(alloc: Global, source: &mut MemSource, end: End) -> bool {
    is_followed_by(alloc, source, end, b"")
        && source.failed_calls() == 0
        && source.read(&mut [0; 1]) == Err(Failed)
}

/// Whether that holds of a file whose second call gives no bytes and whose third would fail.
fn has_ended(alloc: Global, end: End, file: &[u8]) -> bool {
    match source_of(alloc, file, 100, &[2]) {
        Err(_) => false,
        Ok(mut source) => is_not_asked(alloc, &mut source, end),
    }
}

/// Whether it does of each of these files.
fn have_ended(alloc: Global, files: &[(End, &[u8])]) -> bool {
    for (end, file) in files {
        if !has_ended(alloc, *end, file) {
            return false;
        }
    }
    true
}

#[test]
fn nothing_is_asked_behind_the_end(rt: HostRuntime) {
    assert!(rt; have_ended(rt.alloc(), &ENDED));
}

/// Whether a source has more than four bytes, and its next call fails.
fn is_past_four(alloc: Global, source: &mut MemSource) -> bool {
    let Ok(mut input) = Input::new(alloc, 4) else {
        return false;
    };
    match read_rest(alloc, &mut input, source) {
        Err(error) => error == ReadError::TooLong && source.read(&mut [0; 1]) == Err(Failed),
        Ok(_) => false,
    }
}

/// Whether that holds of a source whose second call gives the byte past the limit, and whose third
/// would fail.
fn stops_past_four(alloc: Global) -> bool {
    match source_of(alloc, b"btf 1\n", 100, &[2]) {
        Err(_) => false,
        Ok(mut source) => is_past_four(alloc, &mut source),
    }
}

#[test]
fn the_rest_asks_no_more_past_the_limit(rt: HostRuntime) {
    assert!(rt; stops_past_four(rt.alloc()));
}

/// Whether a line end comes and then nothing, by calls that do not fail.
fn is_one_byte(alloc: Global, source: &mut MemSource) -> bool {
    let Ok(mut input) = Input::new(alloc, 1) else {
        return false;
    };
    let Ok(first) = next_byte(&mut input, source) else {
        return false;
    };
    let Ok(end) = next_byte(&mut input, source) else {
        return false;
    };
    let Ok(again) = next_byte(&mut input, source) else {
        return false;
    };
    (first, end, again) == (Some(b'\n'), None, None)
        && (input.lines(), input.is_good()) == (1, true)
        && source.failed_calls() == 0
}

/// Whether they do from a source whose second call gives no bytes, and whose third would fail.
fn one_byte_comes(alloc: Global) -> bool {
    match source_of(alloc, b"\n", 2, &[2]) {
        Err(_) => false,
        Ok(mut source) => is_one_byte(alloc, &mut source),
    }
}

#[test]
fn bytes_come_one_by_one(rt: HostRuntime) {
    assert!(rt; one_byte_comes(rt.alloc()));
}

/// A source of `ab` in pieces of so many bytes, with a call that fails; the bytes that the input
/// may use; and why the second byte is refused.
struct Second {
    piece: usize,
    failing: [u64; 1],
    limit: u64,
    error: ReadError,
}

/// The second byte is past the limit, whether the source would give it with the first or alone, or
/// its call fails.
#[rattlefmt::skip]
static SECONDS: [Second; 3] = [
    Second { piece: 1, failing: [9], limit: 1, error: ReadError::TooLong },
    Second { piece: 2, failing: [9], limit: 1, error: ReadError::TooLong },
    Second { piece: 1, failing: [1], limit: 9, error: ReadError::ReadFault },
];

/// Whether an `a` comes, and the byte behind it is refused. It is not ahead before.
fn is_second_refused(alloc: Global, source: &mut MemSource, second: &Second) -> bool {
    let Ok(mut input) = Input::new(alloc, second.limit) else {
        return false;
    };
    let Ok(first) = next_byte(&mut input, source) else {
        return false;
    };
    first == Some(b'a')
        && input.ahead() == 0
        && next_byte(&mut input, source) == Err(second.error)
        && !input.is_good()
}

/// Whether it is refused over the source that is made for it.
fn has_one_byte(alloc: Global, second: &Second) -> bool {
    match source_of(alloc, b"ab", second.piece, &second.failing) {
        Err(_) => false,
        Ok(mut source) => is_second_refused(alloc, &mut source, second),
    }
}

/// Whether it is in each of these cases.
fn have_one_byte(alloc: Global, seconds: &[Second]) -> bool {
    for second in seconds {
        if !has_one_byte(alloc, second) {
            return false;
        }
    }
    true
}

#[test]
fn a_next_byte_is_refused(rt: HostRuntime) {
    assert!(rt; have_one_byte(rt.alloc(), &SECONDS));
}
