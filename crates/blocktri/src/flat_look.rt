//! One flat look at compressed columns: whether there is a fault, but not where.

ghost use Rattle.std.specs.Prelude.{◌↔◌, ℕ, ◌+◌, ◌<◌, IsTrue, length};
ghost use Rattle.bip_defs.specs.Pieces.{AreStarts};
ghost use Rattle.sp_pattern.specs.Columns.{AreColumns, IsNotFalling};
ghost use Rattle.sp_pattern.specs.Pairs.{AreBelow};

use sp_pattern::NumberList;

// One more than the most starts, and than the greatest numbers of rows and of ids.
const LIMIT: usize = 4294967296;

/// Whether lists are compressed columns, as `sp_pattern::check_columns` says.
///
/// Takes no memory. Work: one look at each number. Both loops over the numbers go to the end, so
/// that a compiler can make them compare several numbers at once.
pub fn are_columns<N: NumberList>(rows: u64, starts: N, ids: N) -> bool
    ensures { IsTrue result ↔ AreColumns rows (N.numbers starts) (N.numbers ids) }
{
    rows < LIMIT as u64
        && starts.len() <= LIMIT
        && ids.len() < LIMIT
        && are_starts(starts, ids)
        && are_below(rows, ids)
}

// Whether the starts begin with 0, never fall, and end with the number of the ids.
fn are_starts<N: NumberList>(starts: N, ids: N) -> bool
    ensures { IsTrue result ↔ AreStarts (N.numbers starts) (N.numbers ids) }
{
    let len = starts.len();
    len != 0 && starts.at(0) == 0 && starts.at(len - 1) == ids.len() as u64 && never_fall(starts)
}

// Whether no number is less than the one before it.
fn never_fall<N: NumberList>(starts: N) -> bool
    ensures { IsTrue result ↔ IsNotFalling (N.numbers starts) 0 (length (N.numbers starts)) }
{
    let mut falls = false;
    for k in 1..starts.len() {
        if starts.at(k) < starts.at(k - 1) {
            falls = true;
        }
    }
    !falls
}

// Whether each number is below a limit.
fn are_below<N: NumberList>(limit: u64, ids: N) -> bool
    ensures { IsTrue result ↔ AreBelow limit (length (N.numbers ids)) (N.numbers ids) }
{
    ids.len() == 0 || greatest(ids) < limit
}

// The greatest of the numbers, or 0 where there are none.
fn greatest<N: NumberList>(ids: N) -> u64
    ensures all { AreBelow (result + 1) (length (N.numbers ids)) (N.numbers ids) }
    ensures least { (limit : ℕ) → 0 < limit
        → AreBelow limit (length (N.numbers ids)) (N.numbers ids) → result < limit }
{
    let mut greatest = 0;
    for k in 0..ids.len() {
        let id = ids.at(k);
        if id > greatest {
            greatest = id;
        }
    }
    greatest
}
