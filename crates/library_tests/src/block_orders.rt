//! Orders with entries all along the diagonal.

use crate::lists::OrderLists;
use crate::matrices::{CYCLE, EMPTY, MATRICES, TRIANGLE, Worked};
use crate::small::{CHOICES, Given, Wanted};
use blocktri::SquareOrder;
use std::alloc::Global;

/// Whether the answer and the lists are those of the table, with one of the matchings. Of a matrix
/// that is not square or not of full rank nothing is written.
fn has_order(
    alloc: Global,
    worked: &Worked<'_>,
    by_rows: bool,
    wants_blocks: bool,
    wanted: Wanted,
) -> bool {
    let mut lists = OrderLists::of(worked, wanted);
    let found = lists.write(alloc, &Given::of(worked, by_rows).narrow(), wants_blocks);
    found == Ok(answer_of(worked, wants_blocks)) && has_lists(worked, &lists, wants_blocks)
}

fn answer_of(worked: &Worked<'_>, wants_blocks: bool) -> SquareOrder {
    match worked.order {
        SquareOrder::Full(_) if !wants_blocks => SquareOrder::Full(None),
        order => order,
    }
}

fn has_lists(worked: &Worked<'_>, lists: &OrderLists, wants_blocks: bool) -> bool {
    match worked.order {
        SquareOrder::Full(_) => {
            for pairs in worked.matchings {
                if lists.have(pairs, worked.block_starts, wants_blocks) {
                    return true;
                }
            }
            false
        }
        _ => lists.are_left(),
    }
}

/// The same of all lists, of each alone, and of none, with and without blocks.
fn has_each_wanted(alloc: Global, worked: &Worked<'_>, by_rows: bool) -> bool {
    for wanted in &CHOICES {
        if !has_order(alloc, worked, by_rows, true, *wanted)
            || !has_order(alloc, worked, by_rows, false, *wanted)
        {
            return false;
        }
    }
    true
}

/// The same as compressed columns and as compressed rows.
fn has_answers(alloc: Global, worked: &Worked<'_>) -> bool {
    has_each_wanted(alloc, worked, false) && has_each_wanted(alloc, worked, true)
}

// The diagonal is the one perfect matching.
#[test]
fn triangle(rt: HostRuntime) {
    assert!(rt; TRIANGLE.order == SquareOrder::Full(Some(3)));
    assert!(rt; has_answers(rt.alloc(), &TRIANGLE));
}

// The empty matching is perfect.
#[test]
fn no_rows_and_no_columns(rt: HostRuntime) {
    assert!(rt; EMPTY.order == SquareOrder::Full(Some(0)));
    assert!(rt; has_answers(rt.alloc(), &EMPTY));
}

// There are two perfect matchings: the diagonal, which is kept, and the entries beside it.
#[test]
fn cycle(rt: HostRuntime) {
    assert!(rt; CYCLE.order == SquareOrder::Full(Some(1)));
    assert!(rt; has_answers(rt.alloc(), &CYCLE));
}

// Whether there is no order.
fn has_none(worked: &Worked<'_>) -> bool {
    match worked.order {
        SquareOrder::Full(_) => false,
        SquareOrder::Singular(rank) => worked.rows == worked.columns && rank < worked.rows,
        SquareOrder::NotSquare => worked.rows != worked.columns,
    }
}

// The other matrices of the table are not square, or their rank is less than their size.
#[test]
fn no_perfect_matching(rt: HostRuntime) {
    for worked in &MATRICES {
        if worked.sizes.square != worked.rows || worked.sizes.square != worked.columns {
            assert!(rt; has_none(worked), "{}", worked.name);
        }
        assert!(rt; has_answers(rt.alloc(), worked), "{}", worked.name);
    }
}
