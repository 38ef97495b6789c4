//! Exchanges along alternating paths.

ghost use Rattle.std.specs.Prelude.{◌≡◌, ◌≢◌, ◌↔◌, ℕ, suc, ◌<◌, length};
ghost use Rattle.bip_defs.specs.Lists.{Among};
ghost use Rattle.bip_defs.specs.Matching.{cols_of, rows_of};
ghost use Rattle.bip_defs.specs.Matrix.{Place};
ghost use Rattle.bip_defs.specs.Queues.{at};
ghost use Rattle.bip_graph.specs.Matching.{IsPairing};
ghost use Rattle.least_match.specs.Exchanges.{AgreeBeside, HaveSameSizes, IsMatchedTree, KeepsEntriesBack, KeepsEntriesBy, Swaps};

use crate::tree::Tree;
use bip_graph::Matching;
use sp_ids::{Col, Row};

/// Where a search has found a path.
#[derive(Clone, Copy)]
pub enum Meeting {
    /// The column at the place `from` of the forward tree has an entry in the row of the one at
    /// `to` of the backward tree.
    Trees { from: u32, to: u32 },
    /// The column at the place `from` of the forward tree has an entry in an unmatched row.
    FreeRow { from: u32, row: Row },
    /// An unmatched column has an entry in the row of the column at the place `to` of the backward
    /// tree.
    FreeCol { col: Col, to: u32 },
}

/// Leaves a matched column and its row without mates; gives the row.
pub fn unpair_col(matching: &mut Matching, col: Col) -> Row
    requires { Among col (cols_of matching.old.pairs) }
    ensures row { Among (result, col) matching.old.pairs }
    ensures in_range { (result < matching.old.rows) × (col < matching.old.cols) }
    ensures pairs { (p : Place) → Among p matching.new.pairs
        ↔ (Among p matching.old.pairs × (p.0 ≢ result)) }
    ensures size { length matching.old.pairs ≡ suc (length matching.new.pairs) }
    ensures sizes { HaveSameSizes matching.old matching.new }
    ensures pairings { IsPairing matching.old × IsPairing matching.new }
{
    let row = matching.mate(col);
    matching.unpair(row, col);
    row
}

/// Gives an unmatched row to a matched column, and the column's own row back.
pub fn swap(matching: &mut Matching, row: Row, col: Col) -> Row
    requires col { Among col (cols_of matching.old.pairs) }
    requires row { ¬ Among row (rows_of matching.old.pairs) }
    requires in_range { row < matching.old.rows }
    ensures row { Among (result, col) matching.old.pairs }
    ensures in_range { result < matching.old.rows }
    ensures pairs { Swaps (row, col) result matching.old.pairs matching.new.pairs }
    ensures size { length matching.new.pairs ≡ length matching.old.pairs }
    ensures sizes { HaveSameSizes matching.old matching.new }
    ensures pairings { IsPairing matching.old × IsPairing matching.new }
{
    let own = unpair_col(matching, col);
    matching.pair(row, col);
    own
}

/// Gives the row of a matched column to an unmatched one.
pub fn pass(matching: &mut Matching, from: Col, to: Col)
    requires from { Among from (cols_of matching.old.pairs) }
    requires to { ¬ Among to (cols_of matching.old.pairs) }
    requires in_range { to < matching.old.cols }
    ensures pairs { (r : ℕ) × Among (r, from) matching.old.pairs
        × Swaps (r, to) r matching.old.pairs matching.new.pairs }
    ensures size { length matching.new.pairs ≡ length matching.old.pairs }
    ensures sizes { HaveSameSizes matching.old matching.new }
    ensures pairings { IsPairing matching.old × IsPairing matching.new }
{
    let row = unpair_col(matching, from);
    matching.pair(row, to);
}

/// Leaves the first column of a tree without a mate, and the row of the column at a place too: that
/// column takes the row of its parent, the parent takes the row of its own, and so on. Gives the
/// row.
pub fn vacate(matching: &mut Matching, tree: &Tree, place: u32) -> Row
    requires place { place < length tree.now.queue }
    requires tree { IsMatchedTree matching.old.pairs tree.now.queue }
    ensures row { Among (result, (at tree.now.queue place).0) matching.old.pairs }
    ensures in_range { result < matching.old.rows }
    ensures row_free { ¬ Among result (rows_of matching.new.pairs) }
    ensures col_free { ¬ Among (at tree.now.queue 0).0 (cols_of matching.new.pairs) }
    ensures beside { AgreeBeside tree.now.queue matching.old.pairs matching.new.pairs }
    ensures size { length matching.old.pairs ≡ suc (length matching.new.pairs) }
    ensures sizes { HaveSameSizes matching.old matching.new }

    // Where each column leads to its parent, a matching of entries stays one.
    ensures matching { KeepsEntriesBack tree.now.queue matching.old matching.new }
{
    let (first, _) = tree.at(place);
    let free = unpair_col(matching, first);
    let mut at = place;
    while at > 0 {
        let (col, parent) = tree.at(at);
        let (next, _) = tree.at(parent);
        pass(matching, next, col);
        at = parent;
    }
    free
}

/// Gives an unmatched row to the column at a place of a tree, that column's row to its parent, and
/// so on up to the first column, whose row is left without a mate.
pub fn shift(matching: &mut Matching, tree: &Tree, place: u32, free: Row)
    requires place { place < length tree.now.queue }
    requires tree { IsMatchedTree matching.old.pairs tree.now.queue }
    requires free { ¬ Among free (rows_of matching.old.pairs) }
    requires in_range { free < matching.old.rows }
    ensures row_free { (r : ℕ) × Among (r, (at tree.now.queue 0).0) matching.old.pairs
        × (¬ Among r (rows_of matching.new.pairs)) }
    ensures beside { AgreeBeside tree.now.queue matching.old.pairs matching.new.pairs }
    ensures size { length matching.new.pairs ≡ length matching.old.pairs }
    ensures sizes { HaveSameSizes matching.old matching.new }

    // Where each column is led to by its parent, a matching of entries stays one.
    ensures matching { KeepsEntriesBy free place tree.now.queue matching.old matching.new }
{
    let mut row = free;
    let mut at = place;
    while at > 0 {
        let (col, parent) = tree.at(at);
        row = swap(matching, row, col);
        at = parent;
    }
    let (first, _) = tree.at(0);
    swap(matching, row, first);
}
