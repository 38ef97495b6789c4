//! Compares pairs of rows and columns with numbers that count from 1.

use bip_graph::Matching;
use sp_ids::{Col, Row};

/// Whether pairs are those of these numbers, which count from 1, in their order.
pub(crate) fn are_pairs(pairs: &[(Row, Col)], numbers: &[(u32, u32)]) -> bool {
    if pairs.len() != numbers.len() {
        return false;
    }
    for at in 0..pairs.len() {
        let ((row, col), wanted) = (pairs[at], numbers[at]);
        if row.0.checked_add(1) != Some(wanted.0) || col.0.checked_add(1) != Some(wanted.1) {
            return false;
        }
    }
    true
}

/// Whether rows and columns that count from 1 are pairs of a matching.
pub(crate) fn has_pairs(matching: &Matching, pairs: &[(u32, u32)]) -> bool {
    for (row, col) in pairs {
        if *row == 0 || *col == 0 || *col > matching.cols() {
            return false;
        }
        if matching.row_of(Col(*col - 1)) != Some(Row(*row - 1)) {
            return false;
        }
    }
    true
}

/// Whether marks, one for each of so many rows or columns, are those of these numbers, which count
/// from 1.
pub(crate) fn are_marks(marks: &[bool], count: u32, numbers: &[u32]) -> bool {
    let mut number: u32 = 0;
    for marked in marks {
        number = number.wrapping_add(1);
        if *marked != numbers.contains(&number) {
            return false;
        }
    }
    marks.len() == count as usize
}
