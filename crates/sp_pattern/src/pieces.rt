//! Flat lists that are cut into parts.

ghost use Rattle.std.specs.Prelude.{◌≡◌, ◌+◌, ◌<◌, IfOk, length};
ghost use Rattle.std.specs.List.Sorted.{IsBinarySearchResult};
ghost use Rattle.std.specs.Ordering.{nat_cmp};
ghost use Rattle.bip_defs.specs.Pieces.{AreStarts, piece};

use sp_ids::Row;

/// The part of a flat list from one start to the next, lent without copying.
pub fn part<'a, T>(starts: &[u32], flat: &'a [T], at: usize) -> &'a [T]
    requires at { at + 1 < length starts.now }
    requires starts { AreStarts starts.now flat.now }
    ensures { result.now ≡ piece starts.now flat.now at }
{
    &flat[starts[at] as usize..starts[at + 1] as usize]
}

/// Where a row stands among rising ones: it is looked for at one place, where it is likely to stand,
/// and then by halves.
pub fn search_near(rows: &[Row], row: Row, likely: usize) -> Result<usize, usize>
    ensures position { IsBinarySearchResult (λ r. nat_cmp r row) rows.now result }
    ensures within { IfOk result (λ k. k < length rows.now) }
{
    if likely < rows.len() {
        let there = rows[likely];
        if there.0 == row.0 {
            return Ok(likely);
        }
    }
    rows.binary_search(&row)
}
