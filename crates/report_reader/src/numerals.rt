//! Words, numbers and lines of a report that is read.

ghost use Rattle.std.specs.Prelude.{◌≡◌, ◌↔◌, IsTrue, suc, length, map};
ghost use Rattle.bip_defs.specs.Lists.{IsRising};
ghost use Rattle.report_reader.specs.ReportGrammar.{ReadsAs, digits_on, field_at, id_of, ids_at, line_end, list_at, number_at, one_at, rises, three_at, two_at, word_at};

use crate::stop::Stop;
use sp_ids::Id;
use std::alloc::Global;

/// What is behind a word.
#[tactic(auto, unfolding(crate::specs::ReportGrammar::word_at))]
pub(crate) fn word_at<'a>(bytes: &'a [u8], word: &[u8]) -> Result<&'a [u8], Stop>
    ensures { ReadsAs (λ x. x.now) result (word_at word.now bytes.now) }
{
    if !bytes.starts_with(word) {
        return Err(Stop::Other);
    }
    Ok(&bytes[word.len()..])
}

/// What is behind the end of a line.
#[tactic(auto, unfolding(crate::specs::ReportGrammar::line_end))]
pub(crate) fn line_end(bytes: &[u8]) -> Result<&[u8], Stop>
    ensures { ReadsAs (λ x. x.now) result (line_end bytes.now) }
{
    word_at(bytes, b"\n")
}

/// A number goes on with the digits that stand there.
fn digits_on(first: u32, bytes: &[u8]) -> Result<(u32, &[u8]), Stop>
    ensures { ReadsAs (λ x. (x.0, x.1.now)) result (digits_on first bytes.now) }
{
    let mut value = first;
    for at in 0..bytes.len() {
        let byte = bytes[at];
        if !byte.is_ascii_digit() {
            return Ok((value, &bytes[at..]));
        }
        let longer = u64::from(value) * 10 + u64::from(byte - b'0');
        if longer > u64::from(u32::MAX) {
            return Err(Stop::Other);
        }
        value = longer as u32;
    }
    Ok((value, &bytes[bytes.len()..]))
}

/// A number below 2^32, and what is behind it. Behind a leading zero no digit is read.
#[tactic(auto, unfolding(crate::specs::ReportGrammar::number_at))]
pub(crate) fn number_at(bytes: &[u8]) -> Result<(u32, &[u8]), Stop>
    ensures { ReadsAs (λ x. (x.0, x.1.now)) result (number_at bytes.now) }
{
    let [digit, rest @ ..] = bytes else {
        return Err(Stop::Other);
    };
    if *digit == b'0' {
        return Ok((0, rest));
    }
    if !digit.is_ascii_digit() {
        return Err(Stop::Other);
    }
    digits_on(u32::from(*digit - b'0'), rest)
}

/// A space and a number.
#[tactic(auto, unfolding(crate::specs::ReportGrammar::field_at))]
pub(crate) fn field_at(bytes: &[u8]) -> Result<(u32, &[u8]), Stop>
    ensures { ReadsAs (λ x. (x.0, x.1.now)) result (field_at bytes.now) }
{
    let rest = word_at(bytes, b" ")?;
    number_at(rest)
}

/// The place from 0 of a row or column that counts from 1.
#[tactic(auto, unfolding(crate::specs::ReportGrammar::id_of))]
pub(crate) fn id_of(number: u32, rest: &[u8]) -> Result<(u32, &[u8]), Stop>
    ensures { ReadsAs (λ x. (x.0, x.1.now)) result (id_of (number, rest.now)) }
{
    if number == 0 {
        return Err(Stop::Other);
    }
    Ok((number - 1, rest))
}

/// A line of a word and one number.
#[tactic(auto, unfolding(crate::specs::ReportGrammar::one_at))]
pub(crate) fn one_at<'a>(bytes: &'a [u8], word: &[u8]) -> Result<(u32, &'a [u8]), Stop>
    ensures { ReadsAs (λ x. (x.0, x.1.now)) result (one_at word.now bytes.now) }
{
    let rest = word_at(bytes, word)?;
    let (a, rest) = field_at(rest)?;
    let rest = line_end(rest)?;
    Ok((a, rest))
}

/// A line of a word and two numbers.
#[tactic(auto, unfolding(crate::specs::ReportGrammar::two_at))]
pub(crate) fn two_at<'a>(bytes: &'a [u8], word: &[u8]) -> Result<((u32, u32), &'a [u8]), Stop>
    ensures { ReadsAs (λ x. (x.0, x.1.now)) result (two_at word.now bytes.now) }
{
    let rest = word_at(bytes, word)?;
    let (a, rest) = field_at(rest)?;
    let (b, rest) = field_at(rest)?;
    let rest = line_end(rest)?;
    Ok(((a, b), rest))
}

/// A line of a word and three numbers.
#[tactic(auto, unfolding(crate::specs::ReportGrammar::three_at))]
pub(crate) fn three_at<'a>(
    bytes: &'a [u8],
    word: &[u8],
) -> Result<((u32, u32, u32), &'a [u8]), Stop>
    ensures { ReadsAs (λ x. (x.0, x.1.now)) result (three_at word.now bytes.now) }
{
    let rest = word_at(bytes, word)?;
    let (a, rest) = field_at(rest)?;
    let (b, rest) = field_at(rest)?;
    let (c, rest) = field_at(rest)?;
    let rest = line_end(rest)?;
    Ok(((a, b, c), rest))
}

/// The rows or columns of a line, up to its end.
fn ids_at<N: Id>(alloc: Global, bytes: &[u8]) -> Result<(Vec<N>, &[u8]), Stop>
    ensures { ReadsAs (λ x. (map N.number x.0.items, x.1.now)) result
        (ids_at (suc (length bytes.now)) bytes.now) }
{
    let mut ids = Vec::new(alloc);
    let mut rest = bytes;
    while rest.starts_with(b" ") {
        let (number, after) = field_at(rest)?;
        let (id, after) = id_of(number, after)?;
        ids.push(N::of(id))?;
        rest = after;
    }
    let rest = line_end(rest)?;
    Ok((ids, rest))
}

/// A line of a word and rows or columns, as many as there are.
#[tactic(auto, unfolding(crate::specs::ReportGrammar::list_at))]
pub(crate) fn list_at<'a, N: Id>(
    alloc: Global,
    bytes: &'a [u8],
    word: &[u8],
) -> Result<(Vec<N>, &'a [u8]), Stop>
    ensures { ReadsAs (λ x. (map N.number x.0.items, x.1.now)) result (list_at word.now bytes.now) }
{
    let rest = word_at(bytes, word)?;
    ids_at(alloc, rest)
}

/// Whether each row or column is below all later ones. Work: one look at each, up to the first
/// that is not above the one before it.
pub fn rises<N: Id>(list: &[N]) -> bool
    ensures told { result ≡ rises (map N.number list.now) }
    ensures rising { IsTrue result ↔ IsRising (map N.number list.now) }
{
    let mut least = 0;
    for id in list {
        let number = u64::from(id.number());
        if number < least {
            return false;
        }
        least = number + 1;
    }
    true
}
