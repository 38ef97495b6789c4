//! Runs of events on the forest of alternating trees, worked out by hand.

use crate::pairs::{are_pairs, has_pairs};
use forest_core::{Forest, every_run};
use sp_ids::{Col, Event, Id, OutOfMemory, Row};
use sp_pattern::Pattern;
use std::alloc::Global;
use std::test::Fail;
use test_matrices::{matching_of, pattern_of};

/// Pairs of a row and a column, which count from 1.
type Pairs = &'static [(u32, u32)];

/// An event whose rows and columns count from 1.
#[derive(Clone, Copy)]
enum Step {
    Claim(u32, u32),
    Win(u32, u32),
    Flip(u32),
    Graft,
    Rebuild,
    Done,
}

use Step::{Claim, Done, Flip, Graft, Rebuild, Win};

/// The event of a step. Number 0 becomes the greatest one, which is no row and no column.
fn event_of(step: Step) -> Event {
    match step {
        Claim(row, col) => Event::Claim {
            row: Row(row.wrapping_sub(1)),
            col: Col(col.wrapping_sub(1)),
        },
        Win(root, leaf) => Event::Win {
            root: Col(root.wrapping_sub(1)),
            leaf: Row(leaf.wrapping_sub(1)),
        },
        Flip(root) => Event::Flip {
            root: Col(root.wrapping_sub(1)),
        },
        Graft => Event::Graft,
        Rebuild => Event::Rebuild,
        Done => Event::Done,
    }
}

fn events_of(alloc: Global, steps: &[Step]) -> Result<Vec<Event>, OutOfMemory> {
    let mut events = Vec::new(alloc);
    for step in steps {
        events.push(event_of(*step))?;
    }
    Ok(events)
}

/// The forest after these events from a matching of these pairs, up to the first that is not legal,
/// and how many were made.
fn after<'p>(
    alloc: Global,
    pattern: &'p Pattern,
    pairs: &[(u32, u32)],
    steps: &[Step],
) -> Result<(Forest<'p>, usize), Fail> {
    let events = events_of(alloc, steps)?;
    let matching = matching_of(alloc, pattern, pairs)?;
    Ok(every_run(alloc, pattern, matching, events.as_slice())?)
}

/// A run of events, how many of them are legal, and what they leave: so many claims, whether it is
/// done, and the current matching.
#[derive(Clone, Copy)]
struct Run {
    name: &'static str,
    rows: u32,
    cols: u32,
    places: Pairs,
    pairs: Pairs,
    steps: &'static [Step],
    made: usize,
    claims: usize,
    done: bool,
    after: Pairs,
}

#[rattlefmt::skip]
static RUNS: [Run; 7] = [
    // Column 1 is in the forest after the graft, and the row of its entry is free again.
    Run {
        name: "a column whose row is free again",
        rows: 3, cols: 3, places: &[(1, 1), (1, 2), (3, 2), (1, 3), (2, 3)],
        pairs: &[(1, 3)],
        steps: &[Claim(1, 2), Claim(2, 3), Win(2, 2), Flip(2), Graft, Done],
        made: 5, claims: 0, done: false, after: &[(1, 2), (2, 3)],
    },
    // Two trees, one after the other.
    Run {
        name: "two trees, one after the other",
        rows: 3, cols: 3, places: &[(1, 1), (1, 2), (3, 2), (1, 3), (2, 3)],
        pairs: &[(1, 3)],
        steps: &[
            Claim(1, 2), Claim(2, 3), Win(2, 2), Flip(2), Graft,
            Claim(1, 1), Claim(3, 2), Win(1, 3), Flip(1), Rebuild, Done,
        ],
        made: 11, claims: 0, done: true, after: &[(1, 1), (3, 2), (2, 3)],
    },
    // A root wins one leaf.
    Run {
        name: "a second leaf",
        rows: 2, cols: 1, places: &[(1, 1), (2, 1)], pairs: &[],
        steps: &[Claim(1, 1), Claim(2, 1), Win(1, 1), Win(1, 2)],
        made: 3, claims: 2, done: false, after: &[],
    },
    // Its path is exchanged once.
    Run {
        name: "a path exchanged twice",
        rows: 2, cols: 1, places: &[(1, 1), (2, 1)], pairs: &[],
        steps: &[Claim(1, 1), Claim(2, 1), Win(1, 1), Flip(1), Flip(1)],
        made: 4, claims: 2, done: false, after: &[(1, 1)],
    },
    // A rebuild frees the claimed rows.
    Run {
        name: "a rebuild",
        rows: 1, cols: 2, places: &[(1, 1), (1, 2)], pairs: &[],
        steps: &[Claim(1, 1), Rebuild, Done],
        made: 2, claims: 0, done: false, after: &[],
    },
    // After one path the row leads from the one column to the other, and nothing is left.
    Run {
        name: "two phases",
        rows: 1, cols: 2, places: &[(1, 1), (1, 2)], pairs: &[],
        steps: &[Claim(1, 1), Win(1, 1), Flip(1), Rebuild, Claim(1, 2), Done],
        made: 6, claims: 1, done: true, after: &[(1, 1)],
    },
    // Without columns there is nothing to claim.
    Run {
        name: "no columns",
        rows: 2, cols: 0, places: &[], pairs: &[],
        steps: &[Done, Graft, Rebuild, Claim(1, 1)],
        made: 3, claims: 0, done: true, after: &[],
    },
];

/// Whether the run makes so many events, and leaves what it is to leave.
fn is_run(alloc: Global, pattern: &Pattern, run: &Run) -> Result<bool, Fail> {
    let (forest, made) = after(alloc, pattern, run.pairs, run.steps)?;
    let is_left = made == run.made
        && forest.claims().len() == run.claims
        && forest.done() == run.done;
    let matching = forest.into_matching();
    Ok(is_left && matching.size() as usize == run.after.len() && has_pairs(&matching, run.after))
}

#[test]
fn runs_of_events(rt: HostRuntime) -> Result<(), Fail> {
    for run in &RUNS {
        let pattern = pattern_of(&rt, run.rows, run.cols, run.places)?;
        assert!(rt; is_run(rt.alloc(), &pattern, run)?, "{}", run.name);
    }
    Ok(())
}

/// What a forest of two trees tells after these events. The claims are pairs; the other lists have a
/// number for each row or column, and 0 where there is none. A flipped root has number 1.
#[derive(Clone, Copy)]
struct State {
    name: &'static str,
    steps: &'static [Step],
    claims: Pairs,
    holders: &'static [u32],
    roots: &'static [u32],
    leaves: &'static [u32],
    flipped: &'static [u32],
    base_rows: &'static [u32],
    base_cols: &'static [u32],
}

const TWO_TREES_PLACES: Pairs = &[(1, 1), (3, 2), (3, 3), (4, 3), (4, 4)];

const TWO_TREES_PAIRS: Pairs = &[(3, 3), (4, 4)];

/// The tree of column 1 wins row 1; that of column 2 has rows 3 and 4 and no leaf.
static GROWN: [Step; 4] = [Claim(3, 2), Claim(1, 1), Claim(4, 3), Win(1, 1)];

/// The same forest, its path exchanged, and then a graft, which keeps the tree without a leaf.
#[rattlefmt::skip]
static STATES: [State; 3] = [
    State {
        name: "two trees",
        steps: &[Claim(3, 2), Claim(1, 1), Claim(4, 3), Win(1, 1)],
        claims: &[(3, 2), (1, 1), (4, 3)],
        holders: &[1, 0, 2, 3], roots: &[1, 2, 2, 2],
        leaves: &[1, 0, 0, 0], flipped: &[0, 0, 0, 0],
        base_rows: &[0, 0, 3, 4], base_cols: &[0, 0, 3, 4],
    },
    State {
        name: "two trees, a path exchanged",
        steps: &[Claim(3, 2), Claim(1, 1), Claim(4, 3), Win(1, 1), Flip(1)],
        claims: &[(3, 2), (1, 1), (4, 3)],
        holders: &[1, 0, 2, 3], roots: &[1, 2, 2, 2],
        leaves: &[1, 0, 0, 0], flipped: &[1, 0, 0, 0],
        base_rows: &[0, 0, 3, 4], base_cols: &[0, 0, 3, 4],
    },
    State {
        name: "two trees, a path exchanged, then a graft",
        steps: &[Claim(3, 2), Claim(1, 1), Claim(4, 3), Win(1, 1), Flip(1), Graft],
        claims: &[(3, 2), (4, 3)],
        holders: &[0, 0, 2, 3], roots: &[0, 2, 2, 2],
        leaves: &[0, 0, 0, 0], flipped: &[0, 0, 0, 0],
        base_rows: &[1, 0, 3, 4], base_cols: &[1, 0, 3, 4],
    },
];

/// The number of a row or column, which counts from 1, and 0 for none.
fn number_of<I: Id>(found: Option<I>) -> u32 {
    match found {
        Some(id) => id.number().saturating_add(1),
        None => 0,
    }
}

/// The number that a list has at a place, from 0 on, and 0 past its end.
fn at(list: &[u32], place: u32) -> u32 {
    match list.get(place as usize) {
        Some(number) => *number,
        None => 0,
    }
}

fn tells_rows(forest: &Forest<'_>, state: &State) -> bool {
    for row in 0..forest.pattern().rows() {
        let holder = number_of(forest.holder(Row(row)));
        let base_col = number_of(forest.base_col(Row(row)));
        if holder != at(state.holders, row) || base_col != at(state.base_cols, row) {
            return false;
        }
    }
    true
}

fn tells_cols(forest: &Forest<'_>, state: &State) -> bool {
    for col in 0..forest.pattern().cols() {
        if number_of(forest.root_of(Col(col))) != at(state.roots, col)
            || number_of(forest.base_row(Col(col))) != at(state.base_rows, col)
            || number_of(forest.leaf(Col(col))) != at(state.leaves, col)
            || forest.flipped(Col(col)) != (at(state.flipped, col) == 1)
        {
            return false;
        }
    }
    true
}

/// Whether the forest tells all that it is to tell. Claims stand in the order in which they were
/// made.
fn tells(alloc: Global, pattern: &Pattern, state: &State) -> Result<bool, Fail> {
    let (forest, made) = after(alloc, pattern, TWO_TREES_PAIRS, state.steps)?;
    Ok(
        made == state.steps.len()
            && tells_rows(&forest, state)
            && tells_cols(&forest, state)
            && are_pairs(forest.claims(), state.claims),
    )
}

#[test]
fn what_two_trees_tell(rt: HostRuntime) -> Result<(), Fail> {
    let pattern = pattern_of(&rt, 4, 4, TWO_TREES_PLACES)?;
    for state in &STATES {
        assert!(rt; tells(rt.alloc(), &pattern, state)?, "{}", state.name);
    }
    Ok(())
}

/// An unflipped root with a leaf forbids a graft and a rebuild, and any leaf forbids the end. Then
/// come claims of a claimed row and of a place without an entry, wins of a matched row and of a row
/// in another tree, and a flip without a leaf. The last are past the last row and column.
static ILLEGAL: [Step; 13] = [
    Graft,
    Rebuild,
    Done,
    Claim(4, 4),
    Claim(2, 2),
    Win(2, 4),
    Win(2, 1),
    Flip(2),
    Claim(5, 1),
    Claim(1, 5),
    Win(5, 1),
    Win(1, 5),
    Flip(5),
];

/// How many of these events are legal.
fn count_legal(forest: &Forest<'_>, steps: &[Step]) -> usize {
    let mut count: usize = 0;
    for step in steps {
        if forest.may(event_of(*step)) {
            count = count.wrapping_add(1);
        }
    }
    count
}

fn forbids(alloc: Global, pattern: &Pattern) -> Result<bool, Fail> {
    let (forest, made) = after(alloc, pattern, TWO_TREES_PAIRS, &GROWN)?;
    Ok(made == 4 && count_legal(&forest, &ILLEGAL) == 0 && forest.may(event_of(Flip(1))))
}

#[test]
fn what_is_not_legal(rt: HostRuntime) -> Result<(), Fail> {
    let pattern = pattern_of(&rt, 4, 4, TWO_TREES_PLACES)?;
    assert!(rt; forbids(rt.alloc(), &pattern)?);
    Ok(())
}

/// Whether a list has these numbers, which count from 1, with 0 for none, and then none.
fn has_numbers<I: Id>(list: &[Option<I>], numbers: &[u32]) -> bool {
    let mut place: u32 = 0;
    for found in list {
        if number_of(*found) != at(numbers, place) {
            return false;
        }
        place = place.wrapping_add(1);
    }
    numbers.len() <= list.len()
}

/// Whether the lists by row that a board is opened with are right.
fn has_row_lists(alloc: Global, forest: &Forest<'_>) -> Result<bool, OutOfMemory> {
    let holders = forest.row_holders(alloc)?;
    let trees = forest.row_trees(alloc)?;
    Ok(
        has_numbers(holders.as_slice(), &[0, 1, 2, 0])
            && has_numbers(trees.as_slice(), &[0, 1, 1, 0]),
    )
}

/// Whether the lists by column are right.
fn has_column_lists(alloc: Global, forest: &Forest<'_>) -> Result<bool, OutOfMemory> {
    let leaves = forest.root_leaves(alloc)?;
    let trees = forest.col_trees(alloc)?;
    Ok(has_numbers(leaves.as_slice(), &[3, 0, 0]) && has_numbers(trees.as_slice(), &[1, 1, 3]))
}

const ONE_PATH_PLACES: Pairs = &[(1, 1), (2, 1), (2, 2), (3, 2), (4, 2)];

fn has_lists(alloc: Global, pattern: &Pattern) -> Result<bool, Fail> {
    let (forest, made) = after(
        alloc,
        pattern,
        &[(2, 2)],
        &[Claim(2, 1), Claim(3, 2), Win(1, 3)],
    )?;
    Ok(made == 3 && has_row_lists(alloc, &forest)? && has_column_lists(alloc, &forest)?)
}

// Column 1 claims row 2 and wins row 3 by way of column 2. Boards are opened with these lists.
#[test]
fn lists_by_row_and_by_column(rt: HostRuntime) -> Result<(), Fail> {
    let pattern = pattern_of(&rt, 4, 3, ONE_PATH_PLACES)?;
    assert!(rt; has_lists(rt.alloc(), &pattern)?);
    Ok(())
}

/// Whether no row is claimed, and the base matching has the exchanged path.
fn is_rebuilt(alloc: Global, forest: &Forest<'_>) -> Result<bool, OutOfMemory> {
    let holders = forest.row_holders(alloc)?;
    Ok(
        forest.claims().is_empty()
            && has_numbers(holders.as_slice(), &[])
            && has_pairs(forest.base(), &[(2, 1), (3, 2)]),
    )
}

/// Two claims, whose path is exchanged, a rebuild, and a claim that is not legal then.
static REBUILD: [Step; 6] = [
    Claim(2, 1),
    Claim(3, 2),
    Win(1, 3),
    Flip(1),
    Rebuild,
    Claim(40, 3),
];

fn frees_rows(alloc: Global, pattern: &Pattern) -> Result<bool, Fail> {
    let (forest, made) = after(alloc, pattern, &[(2, 2)], &REBUILD)?;
    Ok(made == 5 && is_rebuilt(alloc, &forest)?)
}

// Two claims among 40 rows are taken back one by one, and many by filling the table: either way all
// rows are free.
#[test]
fn a_rebuild_with_few_claims(rt: HostRuntime) -> Result<(), Fail> {
    let pattern = pattern_of(&rt, 40, 3, ONE_PATH_PLACES)?;
    assert!(rt; frees_rows(rt.alloc(), &pattern)?);
    Ok(())
}
