//! The judge on reports of small matrices, worked out by hand. Changes of a report, and bytes made
//! to mislead it, are judged by whole runs in `run_tests`.

use btf_check::{Verdict, judge};
use sp_ids::OutOfMemory;
use std::alloc::Global;
use std::test::Fail;
use std::thread::Threads;
use test_matrices::pattern_of;

/// Lines of blocks in the report of the identity, with its verdict.
#[rattlefmt::skip]
static BLOCKS: [(&[u8], Verdict); 6] = [
    // Its own.
    (
        b"square 3 3\nblock 1 1\nrows 1\ncolumns 1\nblock 2 1\nrows 2\ncolumns 2\nblock 3 1\nrows 3\ncolumns 3\n",
        Verdict::Valid,
    ),
    // Two blocks are exchanged.
    (
        b"square 3 3\nblock 1 1\nrows 2\ncolumns 2\nblock 2 1\nrows 1\ncolumns 1\nblock 3 1\nrows 3\ncolumns 3\n",
        Verdict::Invalid(5),
    ),
    // All blocks are made into one, or two of them.
    (b"square 3 1\nblock 1 3\nrows 1 2 3\ncolumns 1 2 3\n", Verdict::Invalid(5)),
    (
        b"square 3 2\nblock 1 2\nrows 1 2\ncolumns 1 2\nblock 2 1\nrows 3\ncolumns 3\n",
        Verdict::Invalid(5),
    ),
    // A row and a column that are no block, though each stands in one.
    (
        b"square 3 3\nblock 1 1\nrows 2\ncolumns 1\nblock 2 1\nrows 1\ncolumns 2\nblock 3 1\nrows 3\ncolumns 3\n",
        Verdict::Invalid(5),
    ),
    // A row stands in two blocks.
    (
        b"square 3 3\nblock 1 1\nrows 1\ncolumns 1\nblock 2 1\nrows 1\ncolumns 2\nblock 3 1\nrows 3\ncolumns 3\n",
        Verdict::Invalid(4),
    ),
];

/// The report of the identity with these lines of blocks.
fn report_of_identity(alloc: Global, blocks: &[u8]) -> Result<Vec<u8>, OutOfMemory> {
    let mut text = Vec::from_slice(alloc, b"btf 1\nmatrix 3 3 3\nrank 3\nhorizontal 0 0\n")?;
    text.extend_from_slice(blocks)?;
    text.extend_from_slice(b"vertical 0 0\npairs 3\n1 1\n2 2\n3 3\nend\n")?;
    Ok(text)
}

/// The verdict on it.
fn on_identity<R: AllocGlobal + Threads + Sync>(rt: &R, blocks: &[u8]) -> Result<Verdict, Fail> {
    let text = report_of_identity(rt.alloc(), blocks)?;
    let pattern = pattern_of(rt, 3, 3, &[(1, 1), (2, 2), (3, 3)])?;
    Ok(judge(rt, rt.alloc(), &pattern, text.as_slice())?)
}

/// The first line of a report of two rows of two columns each, its horizontal and its vertical
/// components, and the verdict.
#[rattlefmt::skip]
static COMPONENTS: [(&[u8], &[u8], &[u8], Verdict); 9] = [
    // Its own.
    (
        b"btf 2\n",
        b"horizontal_components 2\ncomponent 1 1 2\nrows 1\ncolumns 1 3\ncomponent 2 1 2\nrows 2\ncolumns 2 4\n",
        b"vertical_components 0\n",
        Verdict::Valid,
    ),
    // The two are exchanged.
    (
        b"btf 2\n",
        b"horizontal_components 2\ncomponent 1 1 2\nrows 2\ncolumns 2 4\ncomponent 2 1 2\nrows 1\ncolumns 1 3\n",
        b"vertical_components 0\n",
        Verdict::Invalid(6),
    ),
    // They are made into one, one is left out, or one has a row that the matrix has not.
    (
        b"btf 2\n",
        b"horizontal_components 1\ncomponent 1 2 4\nrows 1 2\ncolumns 1 2 3 4\n",
        b"vertical_components 0\n",
        Verdict::Invalid(6),
    ),
    (
        b"btf 2\n",
        b"horizontal_components 1\ncomponent 1 1 2\nrows 1\ncolumns 1 3\n",
        b"vertical_components 0\n",
        Verdict::Invalid(6),
    ),
    (
        b"btf 2\n",
        b"horizontal_components 2\ncomponent 1 1 2\nrows 9\ncolumns 1 3\ncomponent 2 1 2\nrows 2\ncolumns 2 4\n",
        b"vertical_components 0\n",
        Verdict::Invalid(6),
    ),
    // There is no vertical one.
    (
        b"btf 2\n",
        b"horizontal_components 2\ncomponent 1 1 2\nrows 1\ncolumns 1 3\ncomponent 2 1 2\nrows 2\ncolumns 2 4\n",
        b"vertical_components 1\ncomponent 1 1 0\nrows 1\ncolumns\n",
        Verdict::Invalid(6),
    ),
    // Components stand in the second version alone.
    (b"btf 1\n", b"", b"", Verdict::Valid),
    (b"btf 2\n", b"", b"", Verdict::Invalid(1)),
    (
        b"btf 1\n",
        b"horizontal_components 2\ncomponent 1 1 2\nrows 1\ncolumns 1 3\ncomponent 2 1 2\nrows 2\ncolumns 2 4\n",
        b"vertical_components 0\n",
        Verdict::Invalid(1),
    ),
];

/// The report of two rows of two columns each, in this version, with these lines of components.
fn report_of_two_rows(
    alloc: Global,
    version: &[u8],
    horizontal: &[u8],
    vertical: &[u8],
) -> Result<Vec<u8>, OutOfMemory> {
    let mut text = Vec::from_slice(alloc, version)?;
    text.extend_from_slice(b"matrix 2 4 4\nrank 2\nhorizontal 2 4\nrows 1 2\ncolumns 1 2 3 4\n")?;
    text.extend_from_slice(horizontal)?;
    text.extend_from_slice(b"square 0 0\nvertical 0 0\n")?;
    text.extend_from_slice(vertical)?;
    text.extend_from_slice(b"pairs 2\n1 1\n2 2\nend\n")?;
    Ok(text)
}

/// The verdict on it.
fn on_two_rows<R: AllocGlobal + Threads + Sync>(
    rt: &R,
    version: &[u8],
    horizontal: &[u8],
    vertical: &[u8],
) -> Result<Verdict, Fail> {
    let text = report_of_two_rows(rt.alloc(), version, horizontal, vertical)?;
    let pattern = pattern_of(rt, 2, 4, &[(1, 1), (1, 3), (2, 2), (2, 4)])?;
    Ok(judge(rt, rt.alloc(), &pattern, text.as_slice())?)
}

#[test]
fn components_of_two_rows(rt: HostRuntime) -> Result<(), Fail> {
    for (version, horizontal, vertical, wanted) in &COMPONENTS {
        assert!(rt; on_two_rows(&rt, version, horizontal, vertical)? == *wanted);
    }
    Ok(())
}

#[test]
fn blocks_of_the_identity(rt: HostRuntime) -> Result<(), Fail> {
    for (blocks, wanted) in &BLOCKS {
        assert!(rt; on_identity(&rt, blocks)? == *wanted);
    }
    Ok(())
}
