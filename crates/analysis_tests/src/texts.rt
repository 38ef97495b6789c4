//! The text of a rank, and the buffer, worked out by hand. Whole runs show the other texts of a
//! rank in `run_tests`.

use btf_text::{TextBuf, write_rank};
use sp_ids::{Col, OutOfMemory, Row};
use sp_pattern::Pattern;
use sp_ports::{MemSink, SteadySink};
use std::alloc::Global;
use std::test::Fail;
use test_matrices::pattern_of;

/// A device of which the second call fails, after 10 bytes.
fn failing_sink(alloc: Global) -> Result<MemSink, OutOfMemory> {
    let calls = [1].to_vec(alloc)?;
    MemSink::new(alloc, 100, 10, calls)
}

// Whether the first call takes 10 bytes and the second fails: a prefix of the text was taken.
fn is_cut_off(alloc: Global, buf: &mut TextBuf, pattern: &Pattern) -> Result<bool, OutOfMemory> {
    let mut out = failing_sink(alloc)?;
    let is_written = write_rank(&mut out, buf, pattern, 1, &[Row(0)], &[Col(0), Col(1)]).is_ok();
    Ok(!is_written && out.bytes() == b"matrix 2 2".as_slice() && out.failed_calls() == 1)
}

// Whether this is the text of a rank of 1, with one row and two columns.
fn is_whole(
    alloc: Global,
    buf: &mut TextBuf,
    pattern: &Pattern,
    text: &[u8],
) -> Result<bool, OutOfMemory> {
    let mut out = SteadySink::new(alloc, 60, 7)?;
    let is_written = write_rank(&mut out, buf, pattern, 1, &[Row(0)], &[Col(0), Col(1)]).is_ok();
    Ok(is_written && out.bytes() == text)
}

#[test]
fn the_rank_of_a_wide_matrix(rt: HostRuntime) -> Result<(), Fail> {
    // Columns 1 and 2 share the one entry row: rank 1, and both columns can be missed. The buffer of
    // a text that was cut off then writes the whole of it to another sink.
    let pattern = pattern_of(&rt, 2, 2, &[(1, 1), (1, 2)])?;
    let mut buf = TextBuf::new(rt.alloc())?;
    let text = b"matrix 2 2 2\nrank 1\nhorizontal 1 2\nrows 1\ncolumns 1 2\nend\n";
    assert!(rt; is_cut_off(rt.alloc(), &mut buf, &pattern)?);
    assert!(rt; is_whole(rt.alloc(), &mut buf, &pattern, text)?);
    Ok(())
}

// Whether 20,000 lines of 12 bytes each stand where they are to stand.
fn are_lines(bytes: &[u8]) -> bool {
    bytes.len() == 240_000
        && &bytes[..12] == b"pair 12 345\n".as_slice()
        && &bytes[65_531..65_542] == b"\npair 12 34".as_slice()
}

fn lines_are_written(alloc: Global) -> Result<bool, OutOfMemory> {
    let mut buf = TextBuf::new(alloc)?;
    let mut out = SteadySink::new(alloc, 240_000, 50_000)?;
    buf.start();
    for _ in 0..20_000 {
        buf.put_line(&mut out, b"pair", &[12, 345]);
    }
    let is_written = buf.finish(&mut out).is_ok();
    Ok(is_written && are_lines(out.bytes()))
}

#[test]
fn a_text_longer_than_the_buffer(rt: HostRuntime) -> Result<(), Fail> {
    // 20,000 lines of 12 bytes each. Line 5,462 begins at byte 65,532, and stands on both sides of
    // the buffer's end.
    assert!(rt; lines_are_written(rt.alloc())?);
    Ok(())
}

fn longest_is_written(alloc: Global, text: &[u8]) -> Result<bool, OutOfMemory> {
    let mut buf = TextBuf::new(alloc)?;
    let mut out = SteadySink::new(alloc, 100, 3)?;
    buf.start();
    buf.put_line(&mut out, b"seed", &[18_446_744_073_709_551_615, 0]);
    buf.put_list(&mut out, b"rows", &[Row(4_294_967_294), Row(9)]);
    let is_written = buf.finish(&mut out).is_ok();
    Ok(is_written && out.bytes() == text)
}

#[test]
fn the_longest_number(rt: HostRuntime) -> Result<(), Fail> {
    let text = b"seed 18446744073709551615 0\nrows 4294967295 10\n";
    assert!(rt; longest_is_written(rt.alloc(), text)?);
    Ok(())
}
