//! Runs of digits and of blanks, and the two numbers of an entry line.

ghost use Rattle.std.specs.Prelude.{◌≤◌, length, IfSome};
ghost use Rattle.mm_defs.specs.Words.{is_blank};
ghost use Rattle.mm_reader.specs.Plain.{IsRun, IsDigits};
ghost use Rattle.mm_reader.specs.Places.{IsPlace};

use crate::lanes::{later_non_digits, non_digits, short_number};
use mm_lines::is_blank;

/// Numbers of the usual form have no more digits: they fit, whatever the digits are.
const MOST_DIGITS: usize = 18;

/// With so many bytes ahead, two short numbers and the bytes that are read with them lie within.
const AHEAD: usize = 32;

/// Two numbers without signs.
#[derive(Clone, Copy, Debug, PartialEq, Eq)]
pub struct Place {
    pub row: u64,
    pub col: u64,
    /// Where the second one ends.
    pub end: usize,
}

/// Where the run of blanks ends that begins here.
#[inline(always)]
pub fn blanks(bytes: &[u8], from: usize) -> usize
    requires { from ≤ length bytes.now }
    ensures { IsRun is_blank bytes.now from result }
{
    let mut at = from;
    while at < bytes.len() {
        if !is_blank(bytes[at]) {
            return at;
        }
        at += 1;
    }
    at
}

/// The number of the digits here, as many as may be, and where they end.
#[inline(always)]
pub fn digits(bytes: &[u8], from: usize) -> (u64, usize)
    requires { from ≤ length bytes.now }
    ensures { IsDigits bytes.now from result.1 result.0 }
{
    let end = bytes.len().min(from + MOST_DIGITS);
    let mut value = 0;
    let mut at = from;
    while at < end {
        let byte = bytes[at];
        if !byte.is_ascii_digit() {
            return (value, at);
        }
        value = value * 10 + u64::from(byte - b'0');
        at += 1;
    }
    (value, at)
}

/// The two numbers that begin here, with blanks between them.
#[inline(always)]
pub fn place_at(bytes: &[u8], from: usize) -> Option<Place>
    requires { from ≤ length bytes.now }
    ensures { IfSome result (λ p. IsPlace bytes.now from p.row p.col p.end) }
{
    match short_place_at(bytes, from) {
        Some(place) => Some(place),
        None => any_place_at(bytes, from),
    }
}

/// The same where both have at most eight digits, one space is between them, and enough bytes are
/// ahead.
#[inline(always)]
fn short_place_at(bytes: &[u8], from: usize) -> Option<Place>
    requires { from ≤ length bytes.now }
    ensures { IfSome result (λ p. IsPlace bytes.now from p.row p.col p.end) }
{
    if bytes.len() - from < AHEAD {
        return None;
    }
    let mask = non_digits(bytes, from);
    let (row, row_digits) = match short_number(bytes, from, mask) {
        None => return None,
        Some(number) => number,
    };
    if bytes[from + row_digits] != b' ' {
        return None;
    }
    let places = row_digits + 1;
    let col_start = from + places;
    let (col, col_digits) = match short_number(
        bytes,
        col_start,
        later_non_digits(bytes, from, mask, places),
    ) {
        None => return None,
        Some(number) => number,
    };
    Some(Place {
        row,
        col,
        end: col_start + col_digits,
    })
}

/// The same in any case.
#[inline(always)]
fn any_place_at(bytes: &[u8], from: usize) -> Option<Place>
    requires { from ≤ length bytes.now }
    ensures { IfSome result (λ p. IsPlace bytes.now from p.row p.col p.end) }
{
    let (row, row_end) = digits(bytes, from);
    if row_end == from {
        return None;
    }
    let col_start = blanks(bytes, row_end);
    if col_start == row_end {
        return None;
    }
    let (col, end) = digits(bytes, col_start);
    if end == col_start {
        return None;
    }
    Some(Place { row, col, end })
}
