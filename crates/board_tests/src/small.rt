//! A small matrix, and its mates once a path is exchanged.

ghost use Rattle.std.specs.Prelude.{◌≡◌, length, IfOk};
ghost use Rattle.bip_defs.specs.Matrix.{cols};

use bip_graph::Mates;
use sp_ids::{Col, Row};
use sp_pattern::Pattern;
use std::process::Abort;
use std::test::Fail;
use std::thread::Threads;
use test_matrices::pattern_of;

/// Column 0 has an entry in row 0, column 1 in rows 0 and 2, column 2 in rows 0 and 1. Counted from
/// 1, as `test_matrices` does, the one pair of the tests is row 1 with column 3.
pub(crate) fn pattern_of_three<R: Abort + AllocGlobal + Threads + Sync>(
    rt: &R,
) -> Result<Pattern, Fail>
    ensures { IfOk result (λ a. (a.rows ≡ 3) × (cols a ≡ 3)) }
{
    let pattern = pattern_of(rt, 3, 3, &[(1, 1), (1, 2), (3, 2), (1, 3), (2, 3)])?;
    assert!(rt; pattern.rows() == 3 && pattern.cols() == 3);
    Ok(pattern)
}

/// The pair of row 0 and column 2, counted from 1.
pub(crate) const ONE_PAIR: [(u32, u32); 1] = [(1, 3)];

/// Row 0 is matched with column 1 and row 1 with column 2, and nothing else.
pub(crate) fn has_the_path<R: Abort>(rt: &R, mates: &Mates)
    requires { (length mates.now.rows ≡ 3) × (length mates.now.cols ≡ 3) }
{
    for (row, mate) in [(0, Some(Col(1))), (1, Some(Col(2))), (2, None)] {
        assert!(rt; row < 3 && mates.col_of(Row(row)) == mate);
    }
    for (col, mate) in [(0, None), (1, Some(Row(0))), (2, Some(Row(1)))] {
        assert!(rt; col < 3 && mates.row_of(Col(col)) == mate);
    }
}
