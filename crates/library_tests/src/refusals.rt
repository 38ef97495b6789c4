//! Lists that the calls on patterns refuse, as compressed columns and as compressed rows. Nothing
//! is written then.

use crate::block_forms::WANTS;
use crate::lists::{DmpermLists, FormLists, MateLists, OrderLists};
use crate::small::Given;
use blocktri::{ColumnsError, Compressed, Narrow, NumberList, Refusal, Wide, rank};
use std::alloc::Global;

/// How long the lists that are to be written are: those with a place for each row and each column,
/// the block starts, and the cuts.
#[derive(Clone, Copy)]
struct Room {
    rows: usize,
    columns: usize,
    starts: usize,
    cuts: usize,
}

/// Room for so many rows and columns.
fn room_for(rows: usize, columns: usize) -> Room {
    Room {
        rows,
        columns,
        starts: columns.saturating_add(1),
        cuts: rows.min(columns).saturating_add(2),
    }
}

/// Room for what so many lists of so many others are.
fn room_of(others: usize, starts: usize, by_rows: bool) -> Room {
    let lists = starts.saturating_sub(1);
    if by_rows {
        room_for(lists, others)
    } else {
        room_for(others, lists)
    }
}

fn matching_is_refused<N: NumberList>(
    alloc: Global,
    matrix: &Compressed<N>,
    room: Room,
    is_least: bool,
    refusal: Refusal,
) -> bool {
    let mut lists = MateLists::new([room.columns, room.rows]);
    let found = lists.write(alloc, matrix, is_least);
    found == Err(refusal) && lists.are_left()
}

fn form_is_refused<N: NumberList>(
    alloc: Global,
    matrix: &Compressed<N>,
    room: Room,
    refusal: Refusal,
) -> bool {
    let (rows, columns) = (room.rows, room.columns);
    for wants in &WANTS {
        let mut lists = FormLists::new([rows, columns, room.starts, rows, columns]);
        let form = lists.write(alloc, matrix, *wants);
        if form != Err(refusal) || !lists.are_left() {
            return false;
        }
    }
    true
}

fn permutations_are_refused<N: NumberList>(
    alloc: Global,
    matrix: &Compressed<N>,
    room: Room,
    refusal: Refusal,
) -> bool {
    let (rows, columns, cuts) = (room.rows, room.columns, room.cuts);
    for wants in &WANTS {
        let mut lists = DmpermLists::new([rows, columns, cuts, cuts, columns, rows, columns]);
        let form = lists.write(alloc, matrix, *wants);
        if form != Err(refusal) || !lists.are_left() {
            return false;
        }
    }
    true
}

fn order_is_refused<N: NumberList>(
    alloc: Global,
    matrix: &Compressed<N>,
    room: Room,
    wants_blocks: bool,
    refusal: Refusal,
) -> bool {
    let mut lists = OrderLists::new([room.rows, room.columns, room.starts, room.columns]);
    let order = lists.write(alloc, matrix, wants_blocks);
    order == Err(refusal) && lists.are_left()
}

// Whether each call refuses these lists for this reason.
fn are_refused<N: NumberList>(
    alloc: Global,
    matrix: &Compressed<N>,
    room: Room,
    error: ColumnsError,
) -> bool {
    let refusal = Refusal::Columns(error);
    rank(alloc, matrix) == Err(error)
        && matching_is_refused(alloc, matrix, room, false, refusal)
        && matching_is_refused(alloc, matrix, room, true, refusal)
        && form_is_refused(alloc, matrix, room, refusal)
        && permutations_are_refused(alloc, matrix, room, refusal)
        && order_is_refused(alloc, matrix, room, true, refusal)
        && order_is_refused(alloc, matrix, room, false, refusal)
}

/// Lists that are no compressed columns and no compressed rows, for a reason, which names a place
/// of the lists as they are given.
#[derive(Clone, Copy)]
struct Wrong {
    others: u32,
    starts: &'static [u32],
    ids: &'static [u32],
    error: ColumnsError,
}

fn narrow_are_refused(alloc: Global, wrong: &Wrong, by_rows: bool) -> bool {
    let given = Given {
        others: wrong.others as u64,
        starts: wrong.starts,
        ids: wrong.ids,
        by_rows,
    };
    let room = room_of(wrong.others as usize, wrong.starts.len(), by_rows);
    are_refused(alloc, &given.narrow(), room, wrong.error)
}

fn all_are_refused(alloc: Global, list: &[Wrong]) -> bool {
    for wrong in list {
        if !narrow_are_refused(alloc, wrong, false) || !narrow_are_refused(alloc, wrong, true) {
            return false;
        }
    }
    true
}

/// There is none, the first is not 0, the third is less than the second, and the last is less than
/// the number of ids, or more.
#[rattlefmt::skip]
static STARTS: [Wrong; 5] = [
    Wrong { others: 2, starts: &[], ids: &[], error: ColumnsError::BadStart(0) },
    Wrong { others: 2, starts: &[1, 1], ids: &[0], error: ColumnsError::BadStart(0) },
    Wrong { others: 2, starts: &[0, 2, 1], ids: &[0], error: ColumnsError::BadStart(2) },
    Wrong { others: 2, starts: &[0, 1], ids: &[0, 1], error: ColumnsError::BadStart(1) },
    Wrong { others: 2, starts: &[0, 1], ids: &[], error: ColumnsError::BadStart(1) },
];

#[test]
fn start_that_is_not_right(rt: HostRuntime) {
    assert!(rt; all_are_refused(rt.alloc(), &STARTS));
}

/// 5 and 7 are none of 3, and of none there is none; of the fourth list of two, 2 is none. Below,
/// 2^32 is none of one.
#[rattlefmt::skip]
static IDS: [Wrong; 3] = [
    Wrong { others: 3, starts: &[0, 1, 3], ids: &[2, 5, 7], error: ColumnsError::BadRow(1) },
    Wrong { others: 0, starts: &[0, 1], ids: &[0], error: ColumnsError::BadRow(0) },
    Wrong { others: 2, starts: &[0, 1, 1, 2, 4], ids: &[1, 0, 1, 2], error: ColumnsError::BadRow(3) },
];

// Whether 2^32 is refused where it stands behind 0.
fn wide_id_is_refused(alloc: Global, by_rows: bool) -> bool {
    let matrix = Compressed {
        others: 1,
        starts: Wide { list: &[0, 2] },
        ids: Wide {
            list: &[0, 4294967296],
        },
        by_rows,
    };
    are_refused(alloc, &matrix, room_for(1, 1), ColumnsError::BadRow(1))
}

#[test]
fn id_that_is_no_row(rt: HostRuntime) {
    assert!(rt; all_are_refused(rt.alloc(), &IDS));
    assert!(rt; wide_id_is_refused(rt.alloc(), false));
    assert!(rt; wide_id_is_refused(rt.alloc(), true));
}

// Whether a start of 2^32 + 2 is refused beside two ids.
fn wide_start_is_refused(alloc: Global, by_rows: bool) -> bool {
    let matrix = Compressed {
        others: 1,
        starts: Wide {
            list: &[0, 4294967298],
        },
        ids: Wide { list: &[0, 0] },
        by_rows,
    };
    are_refused(alloc, &matrix, room_for(1, 1), ColumnsError::BadStart(1))
}

#[test]
fn start_of_64_bits(rt: HostRuntime) {
    assert!(rt; wide_start_is_refused(rt.alloc(), false));
    assert!(rt; wide_start_is_refused(rt.alloc(), true));
}

// Whether 2^32 rows, or by rows so many columns, are refused. The lists with a place for each of
// them are not wanted.
fn too_many_are_refused(alloc: Global, by_rows: bool, room: Room) -> bool {
    let matrix = Compressed {
        others: 4294967296,
        starts: Narrow { list: &[0, 1] },
        ids: Narrow { list: &[0] },
        by_rows,
    };
    are_refused(alloc, &matrix, room, ColumnsError::TooManyRows)
}

#[test]
fn too_many_rows(rt: HostRuntime) {
    let (rows, columns, starts, cuts) = (0, 1, 2, 3);
    let room = Room {
        rows,
        columns,
        starts,
        cuts,
    };
    assert!(rt; too_many_are_refused(rt.alloc(), false, room));
}

#[test]
fn too_many_columns(rt: HostRuntime) {
    let (rows, columns, starts, cuts) = (1, 0, 0, 3);
    let room = Room {
        rows,
        columns,
        starts,
        cuts,
    };
    assert!(rt; too_many_are_refused(rt.alloc(), true, room));
}
