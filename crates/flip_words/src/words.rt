//! How the words of a board are coded.

ghost use Rattle.std.specs.Prelude.{◌≡◌, ◌+◌, ◌<◌, ◌≤◌, IfSome};
ghost use Rattle.bip_defs.specs.WordValues.{value_of};
ghost use Rattle.flip_words.specs.WordCodes.{half, mate_of};

use sp_ids::{Col, Row};

// One more than the largest number of half a word.
pub(crate) const HALF: u64 = 1 << 32;

// What a tree's word holds.
pub(crate) fn taker(word: u64) -> Option<u32>
    requires { word ≤ half }
    ensures { result ≡ value_of word }
{
    if word == 0 {
        None
    } else {
        Some((word - 1) as u32)
    }
}

// The mate in a vertex's word.
pub(crate) fn mate(word: u64) -> Option<u32>
    ensures mate { result ≡ mate_of word }
    ensures fits { IfSome result (λ mate. mate + 1 < half) }
{
    let low = word % HALF;
    if low == 0 {
        None
    } else {
        Some((low - 1) as u32)
    }
}

// A mate as a column and as a row.

pub(crate) fn as_col(mate: Option<u32>) -> Option<Col>
    ensures { result ≡ mate }
{
    match mate {
        Some(col) => Some(Col(col)),
        None => None,
    }
}

pub(crate) fn as_row(mate: Option<u32>) -> Option<Row>
    ensures { result ≡ mate }
{
    match mate {
        Some(row) => Some(Row(row)),
        None => None,
    }
}
