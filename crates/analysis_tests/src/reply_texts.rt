//! Replies to edits of small matrices, worked out by hand.

use crate::report_texts::{two_components, two_rows};
use btf_text::{Reply, TextBuf, write_replies};
use sp_ids::OutOfMemory;
use sp_ports::{MemSink, SteadySink};
use std::alloc::Global;
use std::test::Fail;

fn report_of_two_rows(alloc: Global) -> Result<Reply, OutOfMemory> {
    let report = Box::new(alloc, (two_rows(alloc)?, two_components(alloc)?))?;
    Ok(Reply::Report(report))
}

/// A rank, a report and a rank.
fn three_replies(alloc: Global) -> Result<Vec<Reply>, OutOfMemory> {
    let mut replies = Vec::new(alloc);
    replies.push(Reply::Rank(1))?;
    replies.push(report_of_two_rows(alloc)?)?;
    replies.push(Reply::Rank(4_294_967_295))?;
    Ok(replies)
}

/// Whether this is the text of replies, where there is room for all.
fn have_text(alloc: Global, replies: &[Reply], text: &[u8]) -> Result<bool, OutOfMemory> {
    let mut buf = TextBuf::new(alloc)?;
    let mut out = SteadySink::new(alloc, 1000, 7)?;
    let is_written = write_replies(&mut out, &mut buf, replies).is_ok();
    Ok(is_written && out.bytes() == text)
}

/// Whether 10 bytes were taken where there is room for those alone.
fn take_ten_bytes(alloc: Global, replies: &[Reply]) -> Result<bool, OutOfMemory> {
    let mut buf = TextBuf::new(alloc)?;
    let mut small = MemSink::new(alloc, 10, 100, Vec::new(alloc))?;
    let is_written = write_replies(&mut small, &mut buf, replies).is_ok();
    Ok(!is_written && small.bytes() == b"rank 1\nbtf".as_slice())
}

#[test]
fn a_report_between_two_ranks(rt: HostRuntime) -> Result<(), Fail> {
    // No replies have no text.
    assert!(rt; have_text(rt.alloc(), &[], b"")?);
    let replies = three_replies(rt.alloc())?;
    let text =
        b"rank 1\nbtf 2\nmatrix 2 4 4\nrank 2\nhorizontal 2 4\nrows 1 2\ncolumns 1 2 3 4\nhorizontal_components 2\ncomponent 1 1 2\nrows 1\ncolumns 1 3\ncomponent 2 1 2\nrows 2\ncolumns 2 4\nsquare 0 0\nvertical 0 0\nvertical_components 0\nend\nrank 4294967295\n";
    assert!(rt; have_text(rt.alloc(), replies.as_slice(), text)?);
    assert!(rt; take_ten_bytes(rt.alloc(), replies.as_slice())?);
    Ok(())
}
