//! Each engine on small matrices.

ghost use Rattle.std.specs.Prelude.{◌≤◌};
ghost use Rattle.sp_ids.specs.Limits.{max_workers};

use btf_tool::{Engine, solve};
use sp_pattern::Pattern;
use sp_ports::NoGate;
use std::test::Fail;
use std::thread::Threads;
use test_matrices::pattern_of;

/// Whether a maximum matching by an engine with so many workers has this size.
fn has_size<R: Threads + AllocGlobal + Sync>(
    rt: &R,
    pattern: &Pattern,
    engine: Engine,
    workers: u32,
    size: u32,
) -> bool
    requires { (1 ≤ workers) × (workers ≤ max_workers) }
{
    match solve(rt, rt.alloc(), pattern, engine, workers, &NoGate) {
        Err(_) => false,
        Ok(matching) => matching.size() == size,
    }
}

/// Whether one by each engine has.
fn has_size_by_each<R: Threads + AllocGlobal + Sync>(rt: &R, pattern: &Pattern, size: u32) -> bool {
    has_size(rt, pattern, Engine::Plain, 1, size)
        && has_size(rt, pattern, Engine::Mc21, 2, size)
        && has_size(rt, pattern, Engine::Pf, 64, size)
        && has_size(rt, pattern, Engine::Graft, 1, size)
        && has_size(rt, pattern, Engine::Graft, 2, size)
        && has_size(rt, pattern, Engine::Graft, 64, size)
}

/// Whether one of the matrix with entries at these places, which count from 1, has this size.
fn are_matched<R: Threads + AllocGlobal + Sync>(
    rt: &R,
    sizes: (u32, u32),
    places: &[(u32, u32)],
    size: u32,
) -> Result<bool, Fail> {
    let pattern = pattern_of(rt, sizes.0, sizes.1, places)?;
    Ok(has_size_by_each(rt, &pattern, size))
}

/// Columns 1 and 2 have row 1 alone, and rows 3 and 4 have column 4 alone.
static THREE_PARTS: [(u32, u32); 7] = [(1, 1), (1, 2), (1, 3), (2, 3), (2, 4), (3, 4), (4, 4)];

#[test]
fn one_column_and_one_row_stay_unmatched(rt: HostRuntime) -> Result<(), Fail> {
    assert!(rt; are_matched(&rt, (4, 4), &THREE_PARTS, 3)?);
    Ok(())
}

/// The start takes row 1 for column 1, which leaves row 2 alone to columns 3 and 4. A maximum
/// matching has rows 3, 4, 1 and 2 for columns 1 to 4.
#[rattlefmt::skip]
static BAD_START: [(u32, u32); 9] = [
    (1, 1), (3, 1), (4, 1), (3, 2), (4, 2), (1, 3), (2, 3), (1, 4), (2, 4),
];

#[test]
fn the_start_is_not_maximum(rt: HostRuntime) -> Result<(), Fail> {
    assert!(rt; are_matched(&rt, (4, 4), &BAD_START, 4)?);
    Ok(())
}

#[test]
fn no_entries(rt: HostRuntime) -> Result<(), Fail> {
    assert!(rt; are_matched(&rt, (0, 0), &[], 0)?);
    assert!(rt; are_matched(&rt, (3, 2), &[], 0)?);
    Ok(())
}
