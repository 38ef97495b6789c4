//! A matching, seen from the columns or from the rows.

ghost use Rattle.std.specs.Prelude.{◌≡◌, ◌<◌, ℕ, suc, length, reverse, IfSome, IfNone};
ghost use Rattle.bip_defs.specs.Lists.{Among};
ghost use Rattle.bip_defs.specs.Matching.{Covers, cols_of, rows_of, transposed_places};
ghost use Rattle.bip_defs.specs.Matrix.{AreEntries, Matrix};
ghost use Rattle.bip_defs.specs.Paths.{Exchanges, IsAugmenting};
ghost use Rattle.bip_graph.specs.Matching.{IsMatchingOf, Pairing, transposed};

use crate::matching::Matching;
use sp_ids::{Col, Id, Row};

/// The kind of the vertices opposite those where a search begins: `Row` where it begins at the
/// columns, `Col` where it begins at the rows.
///
/// In all functions rows, columns and pairs are those of the matrix that the search sees: of the
/// matrix itself from the columns, of its transpose from the rows.
pub trait Opposite: Id {
    /// A matching of the matrix, as one of the matrix that is seen.
    ghost seen: { Pairing → Pairing };

    /// The mate of a column, if it has one.
    fn row_of(matching: &Matching, col: Col) -> Option<Row>
        requires { col < (seen matching.now).cols }
        ensures found { IfSome result (λ row. Among (row, col) (seen matching.now).pairs) }
        ensures none { IfNone result (¬ Among col (cols_of (seen matching.now).pairs)) };

    /// The mate of a row, if it has one.
    fn col_of(matching: &Matching, row: Row) -> Option<Col>
        requires { row < (seen matching.now).rows }
        ensures found { IfSome result (λ col. Among (row, col) (seen matching.now).pairs) }
        ensures none { IfNone result (¬ Among row (rows_of (seen matching.now).pairs)) };

    /// The number of pairs.
    fn size(matching: &Matching) -> u32
        ensures { result ≡ length (seen matching.now).pairs };

    /// Exchanges an augmenting path, given in order from its unmatched column to its unmatched row.
    /// What stands in `path` afterwards is of no use.
    ///
    /// Takes no memory. Work: two reads and five writes at most for each pair of the path.
    fn exchange(matching: &mut Matching, path: &mut [(Row, Col)])
        requires in_range { (r c : ℕ) → Among (r, c) path.old
            → (r < (seen matching.old).rows) × (c < (seen matching.old).cols) }
        requires path { IsAugmenting (seen matching.old).pairs path.old }
        ensures pairs { Exchanges path.old (seen matching.old).pairs (seen matching.new).pairs }
        ensures size { length (seen matching.new).pairs ≡ suc (length (seen matching.old).pairs) }

        // A matching of a matrix stays one, where the path is of entries.
        ensures matching { (a : Matrix) → IsMatchingOf a (seen matching.old) → AreEntries a path.old
            → IsMatchingOf a (seen matching.new) }
        ensures covered { Covers (seen matching.old).pairs (seen matching.new).pairs };
}

impl Opposite for Row {
    ghost seen = { λ m. m };

    fn row_of(matching: &Matching, col: Col) -> Option<Row> {
        matching.row_of(col)
    }

    fn col_of(matching: &Matching, row: Row) -> Option<Col> {
        matching.col_of(row)
    }

    fn size(matching: &Matching) -> u32 {
        matching.size()
    }

    fn exchange(matching: &mut Matching, path: &mut [(Row, Col)]) {
        matching.flip(path);
    }
}

impl Opposite for Col {
    ghost seen = { transposed };

    fn row_of(matching: &Matching, col: Col) -> Option<Row> {
        match matching.col_of(Row(col.0)) {
            Some(mate) => Some(Row(mate.0)),
            None => None,
        }
    }

    fn col_of(matching: &Matching, row: Row) -> Option<Col> {
        match matching.row_of(Col(row.0)) {
            Some(mate) => Some(Col(mate.0)),
            None => None,
        }
    }

    fn size(matching: &Matching) -> u32 {
        matching.size()
    }

    // Read backwards, with rows for columns, it is an augmenting path of the matrix.
    fn exchange(matching: &mut Matching, path: &mut [(Row, Col)]) {
        matching.is_matching();
        transpose_path(path);
        matching.flip(path);
    }
}

// Reverses a path, and puts rows for columns.
fn transpose_path(path: &mut [(Row, Col)])
    ensures { path.new ≡ transposed_places (reverse path.old) }
{
    path.reverse();
    for at in 0..path.len() {
        let (row, col) = path[at];
        path[at] = (Row(col.0), Col(row.0));
    }
}
