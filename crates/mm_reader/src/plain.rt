//! Lines of the usual form, taken in one go from the buffer: entry lines of two numbers without
//! signs and the value words, and value lines of one integer.

ghost use Rattle.std.specs.Prelude.{◌≡◌, ◌≤◌, length, IfSome};
ghost use Rattle.mm_reader.specs.Plain.{is_visible, IsRun, IsSign, IsNextWord, IsIntegerHere, IsNextInteger, IsNextLine, HasValues, IsUsual, SaysEntry, SaysValue};

use crate::places::{Place, blanks, digits, place_at};
use mm_lines::{Integer, is_blank};
use sp_ids::Field;

/// Stands for the values that are not integers.
const ZERO: Integer = Integer {
    minus: false,
    magnitude: 0,
};

/// An entry line of the usual form.
#[derive(Clone, Copy, Debug, PartialEq, Eq)]
pub struct PlainLine {
    pub row: u64,
    pub col: u64,
    /// The value; 0 if the field is not integer.
    pub value: Integer,
    /// Where the next line begins.
    pub next: usize,
}

/// A value line of the usual form.
#[derive(Clone, Copy, Debug, PartialEq, Eq)]
pub struct PlainValue {
    pub value: Integer,
    /// Where the next line begins.
    pub next: usize,
}

/// Neither a blank nor an LF.
fn is_visible(byte: u8) -> bool
    ensures { result ≡ is_visible byte }
{
    // Nearly all bytes of words stand behind the space.
    byte > b' ' || !(byte == b'\n' || is_blank(byte))
}

/// Where the run of visible bytes ends that begins here.
fn word_end(bytes: &[u8], from: usize) -> usize
    requires { from ≤ length bytes.now }
    ensures { IsRun is_visible bytes.now from result }
{
    let mut at = from;
    while at < bytes.len() {
        if !is_visible(bytes[at]) {
            return at;
        }
        at += 1;
    }
    at
}

/// Where the word ends that stands here behind blanks, if one does.
fn next_word(bytes: &[u8], from: usize) -> Option<usize>
    requires { from ≤ length bytes.now }
    ensures { IfSome result (λ end. IsNextWord bytes.now from end) }
{
    let start = blanks(bytes, from);
    if start == from {
        return None;
    }
    let end = word_end(bytes, start);
    if end == start {
        return None;
    }
    Some(end)
}

/// Whether a minus sign stands here, and where the digits begin that may follow it or a plus sign.
fn sign(bytes: &[u8], from: usize) -> (bool, usize)
    requires { from ≤ length bytes.now }
    ensures { IsSign bytes.now from result.1 result.0 }
{
    if from == bytes.len() {
        return (false, from);
    }
    let byte = bytes[from];
    if byte == b'-' {
        return (true, from + 1);
    }
    if byte == b'+' {
        return (false, from + 1);
    }
    (false, from)
}

/// The integer that stands right here, if one does, and where it ends.
#[inline(always)]
fn integer_at(bytes: &[u8], from: usize) -> Option<(Integer, usize)>
    requires { from ≤ length bytes.now }
    ensures { IfSome result (λ x. IsIntegerHere bytes.now from x.1 x.0) }
{
    let (minus, first) = sign(bytes, from);
    let (magnitude, end) = digits(bytes, first);
    if end == first {
        return None;
    }
    Some((Integer { minus, magnitude }, end))
}

/// The integer that stands here behind blanks, if one does, and where it ends.
fn next_integer(bytes: &[u8], from: usize) -> Option<(Integer, usize)>
    requires { from ≤ length bytes.now }
    ensures { IfSome result (λ x. IsNextInteger bytes.now from x.1 x.0) }
{
    let start = blanks(bytes, from);
    if start == from {
        return None;
    }
    integer_at(bytes, start)
}

/// The value words that stand here, if all do: the value, which is 0 if the field is not integer,
/// and where they end.
fn values(bytes: &[u8], from: usize, field: Field) -> Option<(Integer, usize)>
    requires { from ≤ length bytes.now }
    ensures { IfSome result (λ x. HasValues field bytes.now from x.1 x.0) }
{
    match field {
        Field::Pattern => Some((ZERO, from)),
        Field::Integer => next_integer(bytes, from),
        Field::Real | Field::Complex => {
            let end = next_word(bytes, from)?;
            if let Field::Complex = field {
                let second_end = next_word(bytes, end)?;
                return Some((ZERO, second_end));
            }
            Some((ZERO, end))
        }
    }
}

/// Where the next line begins, if nothing but blanks stands before the end of this one.
fn next_line(bytes: &[u8], from: usize) -> Option<usize>
    requires { from ≤ length bytes.now }
    ensures { IfSome result (λ next. IsNextLine bytes.now from next) }
{
    // Mostly the LF stands right here.
    if from < bytes.len() {
        if bytes[from] == b'\n' {
            return Some(from + 1);
        }
    }
    let end = blanks(bytes, from);
    if end == bytes.len() {
        return None;
    }
    if bytes[end] != b'\n' {
        return None;
    }
    Some(end + 1)
}

/// The entry line of the usual form that begins here, if it lies whole in these bytes: two numbers
/// without signs, and the value words of the field.
pub fn plain_line(bytes: &[u8], from: usize, field: Field) -> Option<PlainLine>
    requires { from ≤ length bytes.now }
    ensures { IfSome result (λ p. IsUsual (SaysEntry field p) bytes.now from p.next) }
{
    let Place { row, col, end } = match place_at(bytes, from) {
        None => return None,
        Some(place) => place,
    };
    let (value, value_end) = values(bytes, end, field)?;
    let next = next_line(bytes, value_end)?;
    Some(PlainLine {
        row,
        col,
        value,
        next,
    })
}

/// The value line of the usual form that begins here, if it lies whole in these bytes: one integer.
pub fn plain_value(bytes: &[u8], from: usize) -> Option<PlainValue>
    requires { from ≤ length bytes.now }
    ensures { IfSome result (λ p. IsUsual (SaysValue p) bytes.now from p.next) }
{
    let start = blanks(bytes, from);
    let (value, end) = integer_at(bytes, start)?;
    let next = next_line(bytes, end)?;
    Some(PlainValue { value, next })
}
