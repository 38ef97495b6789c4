//! What is left unmatched, and the next pair of it.

ghost use Rattle.std.specs.Prelude.{◌≡◌, ◌⊎◌, ◌↔◌, ℕ, suc, ◌<◌, ◌≤◌, [], true, false, length, map, IfOk, IfSome, IfNone};
ghost use Rattle.bip_defs.specs.Lists.{Among};
ghost use Rattle.bip_defs.specs.Matrix.{Place, cols, column};
ghost use Rattle.bip_defs.specs.Start.{IsFree, IsChoice};
ghost use Rattle.karp_sipser.specs.Rest.{HasOnes, HasOnesBut, IsUnmatchedRest};

use crate::neighbour_sums::NeighbourSums;
use crate::unmatched::next_free;
use bip_graph::Matching;
use sp_ids::{Col, Id, OutOfMemory, Row};
use sp_pattern::{FromRows, Side};
use std::alloc::Global;

/// The matching so far, and the sums over the rows and columns that it leaves: `cols` has for each
/// column that of its rows, and `rows` for each row that of its columns.
#[derive(Drop)]
pub struct Rest {
    pub matching: Matching,
    pub cols: NeighbourSums,
    pub rows: NeighbourSums,
    pub next_col: u32,
}

impl Rest {
    /// Nothing is matched.
    pub fn new(alloc: Global, sides: &FromRows<'_>) -> Result<Rest, OutOfMemory>
        ensures rest { IfOk result (IsUnmatchedRest sides.now.pattern.now) }
        ensures ones { IfOk result (HasOnes sides.now.pattern.now) }
        ensures empty { IfOk result (λ rest. rest.matching.pairs ≡ []) }
    {
        let pattern = sides.pattern;
        pattern.is_pattern();
        let matching = Matching::empty(alloc, pattern.rows(), pattern.cols())?;
        let unit = pattern.rows().max(pattern.cols()).max(1);
        let cols = NeighbourSums::new(alloc, pattern, unit)?;
        let rows = NeighbourSums::new(alloc, sides, unit)?;
        Ok(Rest {
            matching,
            cols,
            rows,
            next_col: 0,
        })
    }

    /// The pair that is taken next, or none where no entry has both its row and its column
    /// unmatched.
    pub fn choose(&mut self, sides: &FromRows<'_>) -> Option<(Row, Col)>
        requires rest { IsUnmatchedRest sides.now.pattern.now self.old }
        requires ones { HasOnes sides.now.pattern.now self.old }
        ensures none { IfNone result
            ((r c : ℕ) → ¬ IsFree sides.now.pattern.now self.old.matching.pairs r c) }
        ensures choice { IfSome result (IsChoice sides.now.pattern.now self.old.matching.pairs) }
        ensures rest { IsUnmatchedRest sides.now.pattern.now self.new }
        ensures ones { IfSome result (λ p. HasOnesBut p sides.now.pattern.now self.new) }
        ensures forward { self.old.next_col ≤ self.new.next_col }
        ensures matching { self.new.matching ≡ self.old.matching }
    {
        let pattern = sides.pattern;
        if let Some((col, row)) = self.cols.take_of_one(pattern, &self.matching) {
            return Some((Row(row), Col(col)));
        }
        if let Some((row, col)) = self.rows.take_of_one(sides, &self.matching) {
            return Some((Row(row), Col(col)));
        }
        let (row, col) = next_free(pattern, &self.matching, self.next_col)?;
        self.next_col = col.0;
        Some((row, col))
    }

    /// Takes a pair. Both lists are looked up before any sum is lowered, so that the memory answers
    /// both at once.
    pub fn take(&mut self, sides: &FromRows<'_>, row: Row, col: Col)
        requires rest { IsUnmatchedRest sides.now.pattern.now self.old }
        requires ones { HasOnesBut (row, col) sides.now.pattern.now self.old }
        requires free { IsFree sides.now.pattern.now self.old.matching.pairs row col }
        ensures rest { IsUnmatchedRest sides.now.pattern.now self.new }
        ensures ones { HasOnes sides.now.pattern.now self.new }
        ensures pairs { (p : Place) → Among p self.new.matching.pairs
            ↔ ((p ≡ (row, col)) ⊎ Among p self.old.matching.pairs) }
        ensures size { length self.new.matching.pairs ≡ suc (length self.old.matching.pairs) }
        ensures next { self.new.next_col ≡ self.old.next_col }
    {
        let pattern = sides.pattern;
        pattern.is_pattern();
        self.matching.pair(row, col);
        let more_rows = !self.cols.has_only(pattern, col.0, row.0);
        let more_cols = !self.rows.has_only(sides, row.0, col.0);
        let other_row: Option<Row> = self.cols.only_beside(pattern, col.0, row.0);
        let other_col: Option<Col> = self.rows.only_beside(sides, row.0, col.0);
        let one_row = other_row.as_slice();
        let one_col = other_col.as_slice();
        let beside_col = list_of(pattern, col.0, more_rows, one_row);
        let beside_row = list_of(sides, row.0, more_cols, one_col);
        self.rows.leave_out(row.0, col.0, beside_col);
        self.cols.leave_out(col.0, row.0, beside_row);
    }
}

/// The list of this row or column, or the other one that is known to be alone in place of the list.
/// None of its entries where it is not wanted. Where it is not wanted or one is alone, nothing is
/// looked up.
#[inline(always)]
fn list_of<'p, I: Id, S: Side<I>>(side: &'p S, mate: u32, wanted: bool, alone: &'p [I]) -> &'p [I]
    requires in_range { mate < cols (S.matrix side.now) }
    ensures list { wanted ≡ true → length alone.now ≡ 0
        → map I.number result.now ≡ column (S.matrix side.now) mate }
    ensures alone { wanted ≡ true → 0 < length alone.now
        → map I.number result.now ≡ map I.number alone.now }
    ensures unwanted { wanted ≡ false → map I.number result.now ≡ [] }
{
    if !wanted {
        return &[];
    }
    if alone.len() > 0 {
        return alone;
    }
    side.rows_of(Col(mate))
}
