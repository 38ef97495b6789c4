//! One phase of Pothen and Fan's exchanges disjoint paths alone: a row that a search has found by
//! look-ahead is not gone over again. Worked out by hand.

ghost use Rattle.std.specs.Prelude.{OnOk};
ghost use Rattle.bip_graph.specs.Matching.{IsMatchingOf};

use crate::pairs::has_pairs;
use bip_graph::Matching;
use pothen_fan::phase;
use sp_ids::OutOfMemory;
use sp_pattern::Pattern;
use std::alloc::Global;
use std::test::Fail;
use std::thread::Threads;
use test_matrices::{matching_of, pattern_of};

/// Pairs of a row and a column, which count from 1.
type Pairs = &'static [(u32, u32)];

/// A matrix with places that count from 1, the pairs at first, and those after each phase that
/// finds a path.
#[derive(Clone, Copy)]
struct Phased {
    name: &'static str,
    rows: u32,
    cols: u32,
    places: Pairs,
    at_first: Pairs,
    after: &'static [Pairs],
}

#[rattlefmt::skip]
static PHASED: [Phased; 2] = [
    // Column 1 finds row 1, the only one that column 2 has. So column 2 has to wait for the next
    // phase, where column 1 gives row 1 up for row 2.
    Phased {
        name: "a row found at the root", rows: 2, cols: 2, places: &[(1, 1), (2, 1), (1, 2)],
        at_first: &[], after: &[&[(1, 1)], &[(2, 1), (1, 2)]],
    },
    // Column 2 goes over row 1 to column 1, which finds row 2, the only one that column 3 has.
    // Column 1 gives it up for row 3 in the next phase.
    Phased {
        name: "a row found farther down", rows: 3, cols: 3,
        places: &[(1, 1), (2, 1), (3, 1), (1, 2), (2, 3)],
        at_first: &[(1, 1)], after: &[&[(2, 1), (1, 2)], &[(3, 1), (1, 2), (2, 3)]],
    },
];

/// Whether a phase matches one column more, and then the pairs are these.
fn adds_one(
    alloc: Global,
    pattern: &Pattern,
    matching: &mut Matching,
    pairs: &[(u32, u32)],
) -> Result<bool, OutOfMemory>
    requires { IsMatchingOf pattern.now matching.old }
    ensures { OnOk result (IsMatchingOf pattern.now matching.new) }
{
    let growth = phase(alloc, pattern, matching)?;
    Ok(growth == 1 && matching.size() as usize == pairs.len() && has_pairs(matching, pairs))
}

/// Whether each phase matches one column more and leaves the pairs that it is to leave, and the last
/// finds nothing.
fn goes_in_phases(
    alloc: Global,
    pattern: &Pattern,
    matching: &mut Matching,
    after: &[Pairs],
) -> Result<bool, OutOfMemory>
    requires { IsMatchingOf pattern.now matching.old }
{
    for pairs in after {
        if !adds_one(alloc, pattern, matching, pairs)? {
            return Ok(false);
        }
    }
    Ok(phase(alloc, pattern, matching)? == 0)
}

/// The same of a matrix and its first pairs.
fn goes<R: AllocGlobal + Threads + Sync>(rt: &R, wanted: &Phased) -> Result<bool, Fail> {
    let pattern = pattern_of(rt, wanted.rows, wanted.cols, wanted.places)?;
    let mut matching = matching_of(rt.alloc(), &pattern, wanted.at_first)?;
    Ok(goes_in_phases(rt.alloc(), &pattern, &mut matching, wanted.after)?)
}

#[test]
fn paths_of_a_phase_have_no_row_in_common(rt: HostRuntime) -> Result<(), Fail> {
    for wanted in &PHASED {
        assert!(rt; goes(&rt, wanted)?, "{}", wanted.name);
    }
    Ok(())
}
