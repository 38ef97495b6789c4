//! The replies to edits.

ghost use Rattle.std.specs.Prelude.{◌≡◌, ◌<◌, IfOk, OnOk};
ghost use Rattle.bip_graph.specs.Matching.{IsMaximumOf};
ghost use Rattle.bip_graph.specs.Texts.{text_of};
ghost use Rattle.btf_text.specs.Replies.{replies_text, reply_lines};
ghost use Rattle.mm_frames.specs.Edits.{IsWithinMatrix};
ghost use Rattle.std.specs.List.{All};
ghost use Rattle.bip_defs.specs.Matrix.{cols};
ghost use Rattle.btf_tool.specs.Sessions.{IsReply, IsSessionText, after};

use bip_graph::Matching;
use btf_text::Reply;
use edit_session::Session;
use hall_witness::Steps;
use mm_frames::Edit;
use sp_ids::OutOfMemory;
use sp_pattern::Pattern;
use std::alloc::Global;
use std::marker::Brand;
use std::sync::ledger::{Blank, Ledger};
use std::thread::Threads;

/// The rank of a matrix, and the replies to edits of it, in order.
///
/// The matching must be a maximum one, and the places of the edits the matrix's. Answers
/// `OutOfMemory` where there is none for the session, for the list of replies, 16 bytes each, or
/// for a report, and where a place is set in a matrix of 4,294,967,295 entries. Work: that of each
/// edit, which is most often no search, and of each report.
pub(crate) fn replies_to<R: Threads + Sync>(
    rt: &R,
    alloc: Global,
    pattern: Pattern,
    matching: Matching,
    edits: &[Edit],
) -> Result<Vec<Reply>, OutOfMemory>
    requires maximum { IsMaximumOf pattern matching }
    requires within { All (IsWithinMatrix pattern.rows (cols pattern)) edits.now }
    ensures { IfOk result (λ v. IsSessionText pattern edits.now (replies_text v.items)) }
{
    counted::<R, Brand>(rt, alloc, pattern, matching, edits, Blank::new(1))
}

/// The same, with a ledger for the steps that its searches make.
fn counted<R: Threads + Sync, L: Ledger>(
    rt: &R,
    alloc: Global,
    pattern: Pattern,
    matching: Matching,
    edits: &[Edit],
    blank: Blank,
) -> Result<Vec<Reply>, OutOfMemory>
    requires name { blank.name ≡ L.name }
    requires parts { blank.parts ≡ L.parts }
    requires some { 0 < blank.parts }
    requires maximum { IsMaximumOf pattern matching }
    requires within { All (IsWithinMatrix pattern.rows (cols pattern)) edits.now }
    ensures { IfOk result (λ v. IsSessionText pattern edits.now (replies_text v.items)) }
{
    let mut session = Session::new(alloc, &pattern, matching)?;
    drop(pattern);
    let mut steps = Steps::<L>::new(blank);
    let mut replies = Vec::new(alloc);
    replies.push(Reply::Rank(session.rank()))?;
    for edit in edits {
        replies.push(reply_to(rt, alloc, &mut session, *edit, &mut steps)?)?;
    }
    Ok(replies)
}

/// Makes an edit, and replies to it.
///
/// Returns `OutOfMemory` if it cannot allocate the session or a report, and where a place is set in a
/// matrix of 4,294,967,295 entries.
fn reply_to<R: Threads + Sync, L: Ledger>(
    rt: &R,
    alloc: Global,
    session: &mut Session,
    edit: Edit,
    steps: &mut Steps<L>,
) -> Result<Reply, OutOfMemory>
    requires within { IsWithinMatrix session.old.matrix.rows (cols session.old.matrix) edit }
    ensures matrix { OnOk result (session.new.matrix ≡ after session.old.matrix edit) }
    ensures reply { IfOk result (λ r. IsReply edit session.new.matrix (text_of (reply_lines r))) }
{
    match edit {
        Edit::Set(row, col) => {
            if session.entries() == u32::MAX {
                return Err(OutOfMemory);
            }
            Ok(Reply::Rank(session.set(row, col, steps)?))
        }
        Edit::Clear(row, col) => Ok(Reply::Rank(session.clear(row, col, steps)?)),
        Edit::Report => Ok(Reply::Report(Box::new(alloc, session.report(rt)?)?)),
    }
}
