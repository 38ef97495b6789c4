//! A line in a buffer of its own.

ghost use Rattle.std.specs.Prelude.{◌≡◌, ◌+◌, ◌≤◌, ◌++◌, ℕ, List, [], length, take};
ghost use Rattle.btf_lines.specs.Lines.{batch_limit_line as batch_limit, batch_malformed_line as batch_malformed, fault_line as line_of_fault, invalid_line as invalid, malformed_line as malformed, limit_line as limit, sum_limit_line as sum_limit};

use itoa::Buffer;
use mm_defs::Kind;
use sp_ids::{Col, Row};
use std::marker::Model;

/// How many bytes a line may have.
const ROOM: usize = 80;

/// A line of at most 80 bytes.
#[derive(Drop)]
pub struct Line {
    bytes: [u8; 80],
    len: usize,
}

impl Model for Line {
    ghost use Rattle.std.specs.Prelude.{ℕ, List, take, ◌≤◌};

    ghost Value = { List ℕ };

    ghost view = { λ l. take l.len l.bytes };

    ghost invariant = { λ l. l.len ≤ 80 };
}

impl Line {
    /// No bytes.
    fn new() -> Line
        ensures { result ≡ [] }
    {
        Line {
            bytes: [0; ROOM],
            len: 0,
        }
    }

    /// Goes on with these bytes, for which there is room.
    fn push(&mut self, piece: &[u8])
        requires { length self.old + length piece.now ≤ 80 }
        ensures { self.new ≡ self.old ++ piece.now }
    {
        self.len = write_at(&mut self.bytes, self.len, piece);
    }

    /// The bytes of the line, its line end among them.
    pub fn as_bytes(&self) -> &[u8]
        ensures { result.now ≡ self.now }
    {
        &self.bytes[..self.len]
    }
}

/// Writes a piece at a place of a buffer, and gives the place behind it.
fn write_at(buffer: &mut [u8], at: usize, piece: &[u8]) -> usize
    requires { at + length piece.now ≤ length buffer.old }
    ensures end { result ≡ at + length piece.now }
    ensures bytes { take result buffer.new ≡ take at buffer.old ++ piece.now }
    ensures len { length buffer.new ≡ length buffer.old }
{
    let end = at + piece.len();
    buffer[at..end].copy_from_slice(piece);
    end
}

/// The line of a fault: what stands before, the number of the line or the file, and the kind.
fn fault_line(before: &[u8], number: u64, kind: Kind) -> Line
    requires { length before.now ≤ 26 }
    ensures { result ≡ line_of_fault before.now number kind }
{
    let mut digits = Buffer::new();
    let mut text = Line::new();
    text.push(before);
    text.push(digits.format(number).as_bytes());
    text.push(b": ");
    text.push(kind.name().as_bytes());
    text.push(b"\n");
    text
}

/// `btf: malformed line <line>: <kind>`, with a line end.
pub fn malformed_line(line: u64, kind: Kind) -> Line
    ensures { result ≡ malformed line kind }
{
    fault_line(b"btf: malformed line ", line, kind)
}

/// `btf: limit line <line>: <kind>`, with a line end.
pub fn limit_line(line: u64, kind: Kind) -> Line
    ensures { result ≡ limit line kind }
{
    fault_line(b"btf: limit line ", line, kind)
}

/// `btf_batch: malformed file <file>: <kind>`, with a line end. Files count from 1.
pub fn batch_malformed_line(file: u32, kind: Kind) -> Line
    ensures { result ≡ batch_malformed file kind }
{
    fault_line(b"btf_batch: malformed file ", u64::from(file), kind)
}

/// `btf_batch: limit file <file>: <kind>`, with a line end. Files count from 1.
pub fn batch_limit_line(file: u32, kind: Kind) -> Line
    ensures { result ≡ batch_limit file kind }
{
    fault_line(b"btf_batch: limit file ", u64::from(file), kind)
}

/// `invalid <reason>`, with a line end.
pub fn invalid_line(reason: u32) -> Line
    ensures { result ≡ invalid reason }
{
    let mut digits = Buffer::new();
    let mut text = Line::new();
    text.push(b"invalid ");
    text.push(digits.format(reason).as_bytes());
    text.push(b"\n");
    text
}

/// `btf: limit: sum at <row> <column>`, counted from 1, with a line end.
pub fn sum_limit_line(row: Row, col: Col) -> Line
    ensures { result ≡ sum_limit row col }
{
    let mut digits = Buffer::new();
    let mut text = Line::new();
    text.push(b"btf: limit: sum at ");
    text.push(digits.format(u64::from(row.0) + 1).as_bytes());
    text.push(b" ");
    text.push(digits.format(u64::from(col.0) + 1).as_bytes());
    text.push(b"\n");
    text
}
