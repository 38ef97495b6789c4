//! Rows and columns, the entries of a file that are added one by one, and the statuses of a run.

use sp_ids::{Col, Field, Id, Row, Status, Triples};
use std::alloc::Global;

fn made_again<I: Id>(id: I) -> I {
    I::of(id.number())
}

#[test]
fn rows_and_columns_are_made_of_their_numbers(rt: HostRuntime) {
    assert_eq!(rt; made_again(Row(4)), Row(4));
    assert_eq!(rt; made_again(Col(7)), Col(7));
}

/// The number with which a run ends for each status.
#[rattlefmt::skip]
static CODES: [(Status, u8); 9] = [
    (Status::Ok, 0),
    (Status::Negative, 1),
    (Status::Usage, 2),
    (Status::Malformed, 3),
    (Status::Limit, 4),
    (Status::ReadFault, 5),
    (Status::WriteFault, 6),
    (Status::OutOfMemory, 7),
    (Status::NeedsInteger, 8),
];

/// Whether the statuses have these codes.
fn are_codes(codes: &[(Status, u8)]) -> bool {
    for (status, code) in codes {
        if status.code() != *code {
            return false;
        }
    }
    true
}

#[test]
fn codes_of_the_statuses(rt: HostRuntime) {
    assert!(rt; are_codes(&CODES));
}

/// Entries that are added, row, column and value, to those of a file with this field and so many
/// rows and columns.
struct Additions {
    field: Field,
    sizes: (u32, u32),
    items: &'static [(u32, u32, i64)],
}

static ADDITIONS: [Additions; 2] = [
    Additions {
        field: Field::Integer,
        sizes: (2, 3),
        items: &[(1, 2, -5), (0, 2, 7), (1, 2, 5)],
    },
    Additions {
        field: Field::Pattern,
        sizes: (2, 3),
        items: &[(0, 1, 0), (1, 0, 0)],
    },
];

/// Whether an entry was added. It is not where it may not be.
fn is_added(triples: &mut Triples, item: (u32, u32, i64)) -> bool {
    let (row, col, value) = item;
    if row >= triples.rows() || col >= triples.cols() || triples.len() == u32::MAX {
        return false;
    }
    if triples.field() != Field::Integer && value != 0 {
        return false;
    }
    triples.push(Row(row), Col(col), value).is_ok()
}

/// Whether all of them were.
fn are_added(triples: &mut Triples, items: &[(u32, u32, i64)]) -> bool {
    for item in items {
        if !is_added(triples, *item) {
            return false;
        }
    }
    true
}

/// Whether the entry of this number is this one, also in the lists of all places and values.
fn is_item(triples: &Triples, at: usize, item: (u32, u32, i64)) -> bool {
    if at >= triples.len() as usize {
        return false;
    }
    let place = (Row(item.0), Col(item.1));
    triples.place(at as u32) == place
        && triples.places().get(at).copied() == Some(place)
        && is_value(triples, at, item.2)
}

/// Whether its value is this one, where the field is integer.
fn is_value(triples: &Triples, at: usize, value: i64) -> bool {
    if at >= triples.len() as usize || triples.field() != Field::Integer {
        return true;
    }
    triples.value(at as u32) == value && triples.values().get(at).copied() == Some(value)
}

/// Whether these are all of the entries.
fn are_items(triples: &Triples, items: &[(u32, u32, i64)]) -> bool {
    for (at, item) in items.iter().enumerate() {
        if !is_item(triples, at, *item) {
            return false;
        }
    }
    triples.len() as usize == items.len()
}

/// Whether the entries are added to none, and are given again.
fn are_kept(alloc: Global, additions: &Additions) -> bool {
    let (rows, cols) = additions.sizes;
    let Ok(mut triples) = Triples::new(alloc, rows, cols, additions.field) else {
        return false;
    };
    triples.is_empty()
        && are_added(&mut triples, additions.items)
        && !triples.is_empty()
        && (triples.rows(), triples.cols()) == additions.sizes
        && triples.field() == additions.field
        && are_items(&triples, additions.items)
}

/// Whether that holds of each of these.
fn all_are_kept(alloc: Global, list: &[Additions]) -> bool {
    for additions in list {
        if !are_kept(alloc, additions) {
            return false;
        }
    }
    true
}

#[test]
fn entries_are_told_as_they_were_added(rt: HostRuntime) {
    assert!(rt; all_are_kept(rt.alloc(), &ADDITIONS));
}
