//! Matchings of square matrices, completed with pairs of what they leave out.

ghost use Rattle.std.specs.Prelude.{◌≡◌, ◌≤◌, IfNone, IfSome};
ghost use Rattle.bip_defs.specs.Matrix.{Matrix, cols};
ghost use Rattle.bip_graph.specs.Matching.{IsMaximumOf, Pairing};
ghost use Rattle.filled_columns.specs.Completed.{AreTaken, Completes, IsFirstFree};
ghost use Rattle.filled_columns.specs.Filled.{IsFullPairing};

use bip_graph::Matching;
use sp_ids::{Col, Row};

/// A matching of a square matrix, and with it the pairs of its unmatched rows and columns: the
/// first unmatched row with the first unmatched column, the second with the second, and so on. All
/// pairs that were there stay. Where the matching is maximum, no new pair is an entry.
///
/// Rows and columns count from 0. It takes no memory. Work: each row and each column is looked at
/// once. Davis and Palamadai Natarajan (2010) order the blocks of singular matrices by such pairs
/// in KLU.
pub fn completed(matching: Matching) -> Matching
    requires square { matching.rows ≡ matching.cols }
    ensures sizes { (result.rows ≡ matching.rows) × (result.cols ≡ matching.cols) }

    // Each row and each column is in one pair.
    ensures full { (a : Matrix) → matching.rows ≡ Matrix.rows a → matching.cols ≡ cols a
        → IsFullPairing a result }

    // The pairs of what a maximum matching leaves out, in step.
    ensures completes { (a : Matrix) → IsMaximumOf a matching
        → Completes a matching.pairs result.pairs }
{
    let mut full = matching;
    full.is_matching();
    let mut from = 0;
    for col in 0..full.cols() {
        if full.row_of(Col(col)).is_none() {
            if let Some(row) = first_free(&full, from) {
                full.pair(row, Col(col));
                from = row.0 + 1;
            }
        }
    }
    full
}

// The first unmatched row from one on.
fn first_free(matching: &Matching, from: u32) -> Option<Row>
    ensures found { IfSome result (IsFirstFree matching.now from) }
    ensures none { IfNone result (AreTaken matching.now from matching.now.rows) }
{
    for row in from..matching.rows() {
        if matching.col_of(Row(row)).is_none() {
            return Some(Row(row));
        }
    }
    None
}
