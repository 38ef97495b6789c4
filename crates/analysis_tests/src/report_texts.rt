//! A report, a summary and pairs of small matrices, worked out by hand. Whole runs show more
//! reports in `run_tests`.

use bip_graph::{Blocks, Components, Decomposition, Matching, Parts};
use btf_text::{TextBuf, write_load, write_pairs, write_report};
use sp_ids::{Col, OutOfMemory, Row};
use sp_ports::{MemSink, SteadySink};
use std::alloc::Global;
use std::test::Fail;
use test_matrices::{matching_of, pattern_of};

/// The decomposition of a matrix without horizontal and vertical parts.
fn square(alloc: Global, rank: u32, entries: u32, blocks: Blocks) -> Decomposition {
    let parts = Parts {
        hr: Vec::new(alloc),
        hc: Vec::new(alloc),
        sr: Vec::new(alloc),
        sc: Vec::new(alloc),
        vr: Vec::new(alloc),
        vc: Vec::new(alloc),
    };
    Decomposition {
        m: rank,
        n: rank,
        e: entries,
        rank,
        parts,
        blocks,
    }
}

/// All three parts: rows 1, 2, 3 4 and columns 1 2, 3, 4.
fn lists_of_three_parts(alloc: Global) -> Result<Parts, OutOfMemory> {
    Ok(Parts {
        hr: [Row(0)].to_vec(alloc)?,
        hc: [Col(0), Col(1)].to_vec(alloc)?,
        sr: [Row(1)].to_vec(alloc)?,
        sc: [Col(2)].to_vec(alloc)?,
        vr: [Row(2), Row(3)].to_vec(alloc)?,
        vc: [Col(3)].to_vec(alloc)?,
    })
}

/// The block of row 2 and column 3.
fn block_of_three_parts(alloc: Global) -> Result<Blocks, OutOfMemory> {
    let mut blocks = Blocks::new(alloc);
    blocks.push(&[Row(1)], &[Col(2)])?;
    Ok(blocks)
}

/// A matrix with all three parts.
fn three_parts(alloc: Global) -> Result<Decomposition, OutOfMemory> {
    let parts = lists_of_three_parts(alloc)?;
    let blocks = block_of_three_parts(alloc)?;
    Ok(Decomposition {
        m: 4,
        n: 4,
        e: 7,
        rank: 3,
        parts,
        blocks,
    })
}

/// The places of its entries, which count from 1.
const THREE_PARTS: [(u32, u32); 7] = [(1, 1), (1, 2), (1, 3), (2, 3), (2, 4), (3, 4), (4, 4)];

/// Whether this is the text of a summary.
fn has_summary(alloc: Global, dec: &Decomposition, text: &[u8]) -> Result<bool, OutOfMemory> {
    let mut buf = TextBuf::new(alloc)?;
    let mut out = SteadySink::new(alloc, 100, 9)?;
    let is_written = write_load(&mut out, &mut buf, dec).is_ok();
    Ok(is_written && out.bytes() == text)
}

#[test]
fn the_summary_of_three_parts(rt: HostRuntime) -> Result<(), Fail> {
    let dec = three_parts(rt.alloc())?;
    let text = b"matrix 4 4 7\nrank 3\nhorizontal 1 2\nsquare 1 1\nvertical 2 1\n";
    assert!(rt; has_summary(rt.alloc(), &dec, text)?);
    Ok(())
}

/// Whether this is the text of a report with its orders and these pairs.
fn has_text(
    alloc: Global,
    dec: &Decomposition,
    matching: &Matching,
    text: &[u8],
) -> Result<bool, OutOfMemory> {
    let mut buf = TextBuf::new(alloc)?;
    let mut out = SteadySink::new(alloc, 1000, 7)?;
    let is_written = write_report(&mut out, &mut buf, dec, None, matching, true, true).is_ok();
    Ok(is_written && out.bytes() == text)
}

#[test]
fn the_report_of_three_parts(rt: HostRuntime) -> Result<(), Fail> {
    // Column 1 is matched and column 2 is not.
    let pattern = pattern_of(&rt, 4, 4, &THREE_PARTS)?;
    let matching = matching_of(rt.alloc(), &pattern, &[(3, 4), (1, 1), (2, 3)])?;
    let text =
        b"btf 1\nmatrix 4 4 7\nrank 3\nhorizontal 1 2\nrows 1\ncolumns 1 2\nsquare 1 1\nblock 1 1\nrows 2\ncolumns 3\nvertical 2 1\nrows 3 4\ncolumns 4\nrow_order 1 2 3 4\ncolumn_order 1 2 3 4\npairs 3\n1 1\n2 3\n3 4\nend\n";
    let dec = three_parts(rt.alloc())?;
    assert!(rt; has_text(rt.alloc(), &dec, &matching, text)?);
    Ok(())
}

/// Two rows of two columns each, which are all horizontal.
pub(crate) fn two_rows(alloc: Global) -> Result<Decomposition, OutOfMemory> {
    let rows = [Row(0), Row(1)].to_vec(alloc)?;
    let cols = [Col(0), Col(1), Col(2), Col(3)].to_vec(alloc)?;
    let mut dec = square(alloc, 2, 4, Blocks::new(alloc));
    dec.n = 4;
    dec.parts.hr = rows;
    dec.parts.hc = cols;
    Ok(dec)
}

/// Each of the rows with its columns.
pub(crate) fn two_components(alloc: Global) -> Result<Components, OutOfMemory> {
    let mut horizontal = Blocks::new(alloc);
    horizontal.push(&[Row(0)], &[Col(0), Col(2)])?;
    horizontal.push(&[Row(1)], &[Col(1), Col(3)])?;
    Ok(Components {
        horizontal,
        vertical: Blocks::new(alloc),
    })
}

fn first_rows(alloc: Global, count: u32) -> Result<Vec<Row>, OutOfMemory> {
    let mut rows = Vec::new(alloc);
    for row in 0..count {
        rows.push(Row(row))?;
    }
    Ok(rows)
}

/// Many rows, which are all horizontal.
fn many_rows(alloc: Global) -> Result<Decomposition, OutOfMemory> {
    let rows = first_rows(alloc, 20_000)?;
    let mut dec = square(alloc, 0, 0, Blocks::new(alloc));
    dec.parts.hr = rows;
    Ok(dec)
}

/// A device of which the second call fails, after 65,536 bytes.
fn failing_sink(alloc: Global) -> Result<MemSink, OutOfMemory> {
    let calls = [1].to_vec(alloc)?;
    MemSink::new(alloc, 200_000, 65_536, calls)
}

/// Whether the second call fails: the buffer's first 65,536 bytes were taken, which end in the list
/// of rows.
fn is_cut_off(
    alloc: Global,
    dec: &Decomposition,
    matching: &Matching,
) -> Result<bool, OutOfMemory> {
    let mut buf = TextBuf::new(alloc)?;
    let mut failing = failing_sink(alloc)?;
    let is_written = write_report(&mut failing, &mut buf, dec, None, matching, false, true).is_ok();
    let prefix = b"btf 1\nmatrix 0 0 0\nrank 0\nhorizontal 20000 0\nrows 1 2 3";
    Ok(!is_written && failing.failed_calls() == 1 && failing.bytes().starts_with(prefix))
}

#[test]
fn a_report_that_is_cut_off(rt: HostRuntime) -> Result<(), Fail> {
    let dec = many_rows(rt.alloc())?;
    let matching = Matching::empty(rt.alloc(), 0, 0)?;
    assert!(rt; is_cut_off(rt.alloc(), &dec, &matching)?);
    Ok(())
}

/// Whether this is the text of pairs.
fn have_text(alloc: Global, matching: &Matching, text: &[u8]) -> Result<bool, OutOfMemory> {
    let mut buf = TextBuf::new(alloc)?;
    let mut out = SteadySink::new(alloc, 100, 5)?;
    let is_written = write_pairs(&mut out, &mut buf, matching).is_ok();
    Ok(is_written && out.bytes() == text)
}

#[test]
fn pairs_alone(rt: HostRuntime) -> Result<(), Fail> {
    let pairs = [(1, 3), (11, 1)];
    let pattern = pattern_of(&rt, 11, 3, &pairs)?;
    let matching = matching_of(rt.alloc(), &pattern, &pairs)?;
    assert!(rt; have_text(rt.alloc(), &matching, b"pairs 2\n11 1\n1 3\n")?);
    Ok(())
}
