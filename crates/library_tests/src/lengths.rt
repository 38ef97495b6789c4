//! Lists of wrong lengths, which the calls refuse before they look at the matrix.

use crate::block_forms::WANTS;
use crate::lists::{DmpermLists, FormLists, MateLists, OrderLists};
use crate::small::Given;
use blocktri::Refusal;
use std::alloc::Global;

/// Two rows and one column with two entries, as columns and as rows, and with a start that is not
/// right.
#[rattlefmt::skip]
static TALL: [Given<'static>; 3] = [
    Given { others: 2, starts: &[0, 2], ids: &[0, 1], by_rows: false },
    Given { others: 1, starts: &[0, 1, 2], ids: &[0, 0], by_rows: true },
    Given { others: 2, starts: &[1, 2], ids: &[0, 1], by_rows: false },
];

/// One row and two columns, in the same way.
#[rattlefmt::skip]
static WIDE: [Given<'static>; 3] = [
    Given { others: 1, starts: &[0, 1, 2], ids: &[0, 0], by_rows: false },
    Given { others: 2, starts: &[0, 2], ids: &[0, 1], by_rows: true },
    Given { others: 2, starts: &[1, 2], ids: &[0, 1], by_rows: true },
];

/// Lengths that are not those of a form of two rows and one column, which are 2, 1, 2, 2 and 1.
#[rattlefmt::skip]
static FORMS: [[usize; 5]; 13] = [
    [1, 1, 2, 2, 1],
    [2, 2, 2, 2, 1],
    [2, 1, 1, 2, 1],
    [2, 1, 2, 3, 1],
    [2, 1, 2, 2, 2],
    [3, 1, 2, 2, 1],
    [2, 1, 3, 2, 1],
    [2, 1, 2, 1, 1],
    [1, 0, 0, 0, 0],
    [0, 2, 0, 0, 0],
    [0, 0, 1, 0, 0],
    [0, 0, 0, 3, 0],
    [0, 0, 0, 0, 2],
];

/// The same of an order with entries along the diagonal: those are 2, 1, 2 and 1.
#[rattlefmt::skip]
static ORDERS: [[usize; 4]; 10] = [
    [1, 1, 2, 1],
    [2, 2, 2, 1],
    [2, 1, 1, 1],
    [2, 1, 2, 2],
    [3, 1, 2, 1],
    [2, 1, 3, 1],
    [1, 0, 0, 0],
    [0, 2, 0, 0],
    [0, 0, 3, 0],
    [0, 0, 0, 2],
];

/// The same of the permutations: those are 2, 1, 3, 3, 1, 2 and 1.
#[rattlefmt::skip]
static TALL_PERMUTATIONS: [[usize; 7]; 18] = [
    [1, 1, 3, 3, 1, 2, 1],
    [3, 1, 3, 3, 1, 2, 1],
    [2, 2, 3, 3, 1, 2, 1],
    [2, 1, 2, 3, 1, 2, 1],
    [2, 1, 4, 3, 1, 2, 1],
    [2, 1, 3, 2, 1, 2, 1],
    [2, 1, 3, 4, 1, 2, 1],
    [2, 1, 3, 3, 2, 2, 1],
    [2, 1, 3, 3, 1, 1, 1],
    [2, 1, 3, 3, 1, 3, 1],
    [2, 1, 3, 3, 1, 2, 2],
    [1, 0, 0, 0, 0, 0, 0],
    [0, 2, 0, 0, 0, 0, 0],
    [0, 0, 1, 0, 0, 0, 0],
    [0, 0, 0, 1, 0, 0, 0],
    [0, 0, 0, 0, 2, 0, 0],
    [0, 0, 0, 0, 0, 1, 0],
    [0, 0, 0, 0, 0, 0, 2],
];

/// The same of one row and two columns: those are 1, 2, 3, 3, 2, 1 and 2.
#[rattlefmt::skip]
static WIDE_PERMUTATIONS: [[usize; 7]; 9] = [
    [2, 2, 3, 3, 2, 1, 2],
    [1, 1, 3, 3, 2, 1, 2],
    [1, 2, 2, 3, 2, 1, 2],
    [1, 2, 4, 3, 2, 1, 2],
    [1, 2, 3, 2, 2, 1, 2],
    [1, 2, 3, 4, 2, 1, 2],
    [1, 2, 3, 3, 1, 1, 2],
    [1, 2, 3, 3, 2, 2, 2],
    [1, 2, 3, 3, 2, 1, 1],
];

/// The same of a matching of two rows and one column: those are 1 and 2.
#[rattlefmt::skip]
static MATCHINGS: [[usize; 2]; 6] = [
    [2, 2],
    [1, 1],
    [1, 3],
    [2, 0],
    [0, 1],
    [0, 3],
];

fn form_is_refused(alloc: Global, given: Given<'_>, lengths: [usize; 5]) -> bool {
    for wants in &WANTS {
        let mut lists = FormLists::new(lengths);
        let form = lists.write(alloc, &given.narrow(), *wants);
        if form != Err(Refusal::Lengths) || !lists.are_left() {
            return false;
        }
    }
    true
}

fn order_is_refused(
    alloc: Global,
    given: Given<'_>,
    lengths: [usize; 4],
    wants_blocks: bool,
) -> bool {
    let mut lists = OrderLists::new(lengths);
    let order = lists.write(alloc, &given.narrow(), wants_blocks);
    order == Err(Refusal::Lengths) && lists.are_left()
}

fn permutations_are_refused(alloc: Global, given: Given<'_>, lengths: [usize; 7]) -> bool {
    for wants in &WANTS {
        let mut lists = DmpermLists::new(lengths);
        let form = lists.write(alloc, &given.narrow(), *wants);
        if form != Err(Refusal::Lengths) || !lists.are_left() {
            return false;
        }
    }
    true
}

fn matching_is_refused(
    alloc: Global,
    given: Given<'_>,
    lengths: [usize; 2],
    is_least: bool,
) -> bool {
    let mut lists = MateLists::new(lengths);
    let found = lists.write(alloc, &given.narrow(), is_least);
    found == Err(Refusal::Lengths) && lists.are_left()
}

#[test]
fn lengths_of_forms(rt: HostRuntime) {
    for given in &TALL {
        for lengths in &FORMS {
            assert!(rt; form_is_refused(rt.alloc(), *given, *lengths));
        }
    }
}

#[test]
fn lengths_of_orders(rt: HostRuntime) {
    for given in &TALL {
        for lengths in &ORDERS {
            assert!(rt; order_is_refused(rt.alloc(), *given, *lengths, true));
            assert!(rt; order_is_refused(rt.alloc(), *given, *lengths, false));
        }
    }
}

#[test]
fn lengths_of_permutations(rt: HostRuntime) {
    for given in &TALL {
        for lengths in &TALL_PERMUTATIONS {
            assert!(rt; permutations_are_refused(rt.alloc(), *given, *lengths));
        }
    }
    for given in &WIDE {
        for lengths in &WIDE_PERMUTATIONS {
            assert!(rt; permutations_are_refused(rt.alloc(), *given, *lengths));
        }
    }
}

#[test]
fn lengths_of_matchings(rt: HostRuntime) {
    for given in &TALL {
        for lengths in &MATCHINGS {
            assert!(rt; matching_is_refused(rt.alloc(), *given, *lengths, false));
            assert!(rt; matching_is_refused(rt.alloc(), *given, *lengths, true));
        }
    }
}

/// Two rows, and lists without a start; by rows two columns.
#[rattlefmt::skip]
static NO_START: [Given<'static>; 2] = [
    Given { others: 2, starts: &[], ids: &[0, 1], by_rows: false },
    Given { others: 2, starts: &[], ids: &[0, 1], by_rows: true },
];

// The length is looked at before the lists, which have no start.
#[test]
fn length_of_a_matching(rt: HostRuntime) {
    for given in &NO_START {
        assert!(rt; matching_is_refused(rt.alloc(), *given, [1, 1], false));
        assert!(rt; matching_is_refused(rt.alloc(), *given, [1, 1], true));
    }
    assert!(rt; matching_is_refused(rt.alloc(), NO_START[0], [1, 0], false));
    assert!(rt; matching_is_refused(rt.alloc(), NO_START[0], [1, 0], true));
}
