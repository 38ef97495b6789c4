//! The connected components of the horizontal and of the vertical part, of matrices that were
//! worked out by hand.

ghost use Rattle.bip_graph.specs.Matching.{IsMaximumOf};

use bip_graph::{Blocks, Matching};
use dm_coarse::{coarse, components};
use hall_witness::plain;
use sp_ids::OutOfMemory;
use sp_pattern::Pattern;
use std::test::Fail;
use std::thread::Threads;
use test_matrices::{are, pattern_of};

/// Whether components are these lists of rows and columns, which count from 1.
fn are_lists(found: &Blocks, wanted: &[(&[u32], &[u32])]) -> bool {
    if found.len() != wanted.len() {
        return false;
    }
    for at in 0..wanted.len() {
        if !are(found.rows(at), wanted[at].0) || !are(found.cols(at), wanted[at].1) {
            return false;
        }
    }
    true
}

/// Rows and columns of components, which count from 1.
type Listed = &'static [(&'static [u32], &'static [u32])];

/// A matrix, and the components of its horizontal and of its vertical part.
#[derive(Clone, Copy)]
struct Example {
    name: &'static str,
    rows: u32,
    cols: u32,
    places: &'static [(u32, u32)],
    horizontal: Listed,
    vertical: Listed,
}

#[rattlefmt::skip]
static EXAMPLES: [Example; 6] = [
    Example {
        name: "two rows of two columns each",
        rows: 2, cols: 4, places: &[(1, 1), (1, 3), (2, 2), (2, 4)],
        horizontal: &[(&[1], &[1, 3]), (&[2], &[2, 4])],
        vertical: &[],
    },
    Example {
        name: "a row without entries",
        rows: 2, cols: 2, places: &[(1, 1), (1, 2)],
        horizontal: &[(&[1], &[1, 2])],
        vertical: &[(&[2], &[])],
    },
    // The second component is found from its columns in the order 2, 5, 3, and column 4 has no
    // entries.
    Example {
        name: "components by their least columns",
        rows: 3, cols: 6, places: &[(1, 2), (1, 5), (2, 3), (2, 5), (3, 1), (3, 6)],
        horizontal: &[(&[3], &[1, 6]), (&[1, 2], &[2, 3, 5]), (&[], &[4])],
        vertical: &[],
    },
    // Two wide rows that meet in a square column, which does not join them.
    Example {
        name: "a square column between",
        rows: 3, cols: 5, places: &[(1, 1), (1, 2), (1, 5), (2, 3), (2, 4), (2, 5), (3, 5)],
        horizontal: &[(&[1], &[1, 2]), (&[2], &[3, 4])],
        vertical: &[],
    },
    // The same with columns for rows.
    Example {
        name: "a square row between",
        rows: 5, cols: 3, places: &[(1, 1), (2, 1), (5, 1), (3, 2), (4, 2), (5, 2), (5, 3)],
        horizontal: &[],
        vertical: &[(&[1, 2], &[1]), (&[3, 4], &[2])],
    },
    // Components by their least rows, where their least columns are in another order.
    Example {
        name: "components by their least rows",
        rows: 6, cols: 3, places: &[(2, 1), (5, 1), (3, 2), (5, 2), (1, 3), (6, 3)],
        horizontal: &[],
        vertical: &[(&[1, 6], &[3]), (&[2, 3, 5], &[1, 2]), (&[4], &[])],
    },
];

/// Whether the components of both parts, from a maximum matching, are those of an example.
fn has_components<R: AllocGlobal + Threads + Sync>(
    rt: &R,
    example: &Example,
    pattern: &Pattern,
    matching: &Matching,
) -> Result<bool, OutOfMemory>
    requires { IsMaximumOf pattern.now matching.now }
{
    let parts = coarse(rt, rt.alloc(), pattern, matching)?;
    let found = components(rt.alloc(), pattern, &parts)?;
    Ok(
        are_lists(&found.horizontal, example.horizontal)
            && are_lists(&found.vertical, example.vertical),
    )
}

/// The same, from the matching of the plain engine.
fn is_right<R: AllocGlobal + Threads + Sync>(rt: &R, example: &Example) -> Result<bool, Fail> {
    let pattern = pattern_of(rt, example.rows, example.cols, example.places)?;
    let (matching, _columns) = plain(rt.alloc(), &pattern)?;
    Ok(has_components(rt, example, &pattern, &matching)?)
}

#[test]
fn components_of_small_matrices(rt: HostRuntime) -> Result<(), Fail> {
    for example in &EXAMPLES {
        assert!(rt; is_right(&rt, example)?, "{}", example.name);
    }
    Ok(())
}
