//! One column's list.

ghost use Rattle.std.specs.Prelude.{◌≡◌, ℕ, ◌<◌, ◌≤◌, ◌^◌, length, map, slice_index, IfSome};
ghost use Rattle.bip_defs.specs.Lists.{Among, IsMarked};
ghost use Rattle.bip_defs.specs.Matching.{rows_of};
ghost use Rattle.path_search.specs.Search.{Unmarks};
ghost use Rattle.path_search.specs.Trails.{HasPassed, read_place};

use bip_graph::{Matching, Opposite};
use sp_ids::{Id, Row};

// The place at which a list is read as its k-th, from its start or from its end.
fn place_of(reversed: bool, len: usize, k: usize) -> usize
    requires { k < len }
    ensures place { result ≡ read_place reversed len k }
    ensures in_range { result < len }
{
    if reversed { len - 1 - k } else { k }
}

/// The row that is read as the list's k-th, from its start or from its end.
pub fn row_at<F: Id>(rows: &[F], k: usize, reversed: bool) -> Row
    requires { k < length rows.now }
    ensures among { Among result (map F.number rows.now) }
    ensures at { result ≡ slice_index (map F.number rows.now)
        (read_place reversed (length (map F.number rows.now)) k) }
{
    Row(rows[place_of(reversed, rows.len(), k)].number())
}

/// The first place, from `place` on, of an unmarked row, or one past the end.
pub fn next_unmarked<F: Id>(rows: &[F], marks: &[bool], place: usize, reversed: bool) -> usize
    requires in_range { (r : ℕ) → Among r (map F.number rows.now) → r < length marks.now }
    requires passed { HasPassed reversed marks.now (map F.number rows.now) place }
    ensures passed { HasPassed reversed marks.now (map F.number rows.now) result }
    ensures unmarked { result < length rows.now
        → ¬ IsMarked marks.now
        (slice_index (map F.number rows.now)
        (read_place reversed (length (map F.number rows.now)) result)) }
{
    let mut at = place;
    while at < rows.len() {
        let row = row_at(rows, at, reversed);
        if !marks[row.0 as usize] {
            return at;
        }
        at += 1;
    }
    at
}

/// An unmatched row of the list that is not marked, from `look` on, which moves past all that were
/// looked at: matched rows stay matched, and marked ones are left to others.
pub fn unmatched_row<F: Opposite>(
    rows: &[F],
    matching: &Matching,
    marks: &[bool],
    look: &mut u32,
) -> Option<Row>
    requires in_range { (r : ℕ) → Among r (map F.number rows.now) → r < (F.seen matching.now).rows }
    requires marks { length marks.now ≡ (F.seen matching.now).rows }
    requires few { length rows.now < 2 ^ 32 }
    ensures found { IfSome result
        (λ r. Among r (map F.number rows.now) × (¬ Among r (rows_of (F.seen matching.now).pairs))) }
    ensures unmarked { IfSome result (λ r. ¬ IsMarked marks.now r) }
{
    let mut at = *look as usize;
    while at < rows.len() {
        let row = row_at(rows, at, false);
        at += 1;
        match F::col_of(matching, row) {
            Some(_) => {}
            None => {
                if !marks[row.0 as usize] {
                    *look = at as u32;
                    return Some(row);
                }
            }
        }
    }
    *look = at as u32;
    None
}

/// Takes the marks of these rows away.
pub fn unmark(marks: &mut [bool], rows: &[Row])
    requires { (r : ℕ) → Among r rows.now → r < length marks.old }
    ensures { Unmarks rows.now marks.old marks.new }
{
    for row in rows {
        marks[row.0 as usize] = false;
    }
}

/// Takes all marks away.
pub fn unmark_all(marks: &mut [bool])
    ensures { (r : ℕ) → ¬ IsMarked marks.new r }
{
    for mark in marks.iter_mut() {
        *mark = false;
    }
}
