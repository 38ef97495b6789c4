//! Which of a list's rows or columns are unmatched, as the matching says.

ghost use Rattle.std.specs.Prelude.{◌≡◌, ◌<◌, ◌≤◌, ℕ, map, IfSome, IfNone};
ghost use Rattle.bip_defs.specs.Lists.{Among, IsRising};
ghost use Rattle.bip_defs.specs.Matching.{rows_of};
ghost use Rattle.bip_defs.specs.Matrix.{cols};
ghost use Rattle.bip_defs.specs.Start.{IsFree, IsLeast, IsOnly};

use bip_graph::{Matching, Opposite};
use sp_ids::{Col, Row};
use sp_pattern::Pattern;

/// The first of these rows or columns that is unmatched.
#[inline(always)]
pub fn first_unmatched<I: Opposite>(matching: &Matching, ids: &[I]) -> Option<I>
    requires rising { IsRising (map I.number ids.now) }
    requires in_range { (x : ℕ) → Among x (map I.number ids.now)
        → x < (I.seen matching.now).rows }
    ensures least { IfSome result (λ id. IsLeast (λ x. Among x (map I.number ids.now)
        × (¬ Among x (rows_of (I.seen matching.now).pairs))) (I.number id)) }
    ensures none { IfNone result ((x : ℕ) → Among x (map I.number ids.now)
        → Among x (rows_of (I.seen matching.now).pairs)) }
{
    for id in ids {
        if I::col_of(matching, Row(id.number())).is_none() {
            return Some(*id);
        }
    }
    None
}

/// The number of the only one of these rows or columns that is unmatched, if exactly one is.
pub fn only_unmatched<I: Opposite>(matching: &Matching, ids: &[I]) -> Option<u32>
    requires rising { IsRising (map I.number ids.now) }
    requires in_range { (x : ℕ) → Among x (map I.number ids.now)
        → x < (I.seen matching.now).rows }
    ensures only { IfSome result (IsOnly (λ x. Among x (map I.number ids.now)
        × (¬ Among x (rows_of (I.seen matching.now).pairs)))) }
    ensures none { IfNone result ((x : ℕ) → ¬ IsOnly (λ y. Among y (map I.number ids.now)
        × (¬ Among y (rows_of (I.seen matching.now).pairs))) x) }
{
    let mut found = None;
    for id in ids {
        let number = id.number();
        if I::col_of(matching, Row(number)).is_none() {
            if found.is_some() {
                return None;
            }
            found = Some(number);
        }
    }
    found
}

/// The first unmatched column from `from` on that has an unmatched neighbour, with the first such
/// row.
///
/// Work: one look at each of these columns, and at the rows of the unmatched ones.
pub fn next_free(pattern: &Pattern, matching: &Matching, from: u32) -> Option<(Row, Col)>
    requires rows { matching.now.rows ≡ pattern.now.rows }
    requires cols { matching.now.cols ≡ cols pattern.now }
    ensures from { IfSome result (λ p. from ≤ p.1) }
    ensures none_before { IfSome result (λ p. (r c : ℕ) → from ≤ c → c < p.1
        → ¬ IsFree pattern.now matching.now.pairs r c) }
    ensures row { IfSome result
        (λ p. IsLeast (λ r. IsFree pattern.now matching.now.pairs r p.1) p.0) }
    ensures none { IfNone result ((r c : ℕ) → from ≤ c
        → ¬ IsFree pattern.now matching.now.pairs r c) }
{
    for at in from..pattern.cols() {
        let col = Col(at);
        if matching.row_of(col).is_none() {
            if let Some(row) = first_unmatched(matching, pattern.rows_of(col)) {
                return Some((row, col));
            }
        }
    }
    None
}
