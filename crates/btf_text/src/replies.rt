//! The text of the replies in a session of edits.

ghost use Rattle.btf_text.specs.Replies.{replies_text, reply_lines};
ghost use Rattle.std.specs.List.{flat_map};
ghost use Rattle.btf_text.specs.Texts.{Puts};
ghost use Rattle.sp_ports.specs.Device.{Writes, seen};

use crate::TextBuf;
use crate::report::put_without_options;
use crate::text::Text;
use bip_graph::{Components, Decomposition};
use sp_ports::{Failed, Sink};

/// What is replied to an edit, or to a request for a report.
#[derive(Drop)]
pub enum Reply {
    /// The rank of the matrix.
    Rank(u32),
    /// Its decomposition, and the connected components of its outer parts, behind a pointer: most
    /// replies are ranks, and a list of them takes 16 bytes each.
    Report(Box<(Decomposition, Components)>),
}

/// Appends the lines of a reply.
fn put_reply<K: Sink>(text: &mut Text<K>, reply: &Reply)
    ensures { Puts K.taken K.faults text.old text.new (reply_lines reply.now) }
{
    match reply {
        Reply::Rank(rank) => text.put_line(b"rank", &[u64::from(*rank)]),
        Reply::Report(report) => {
            let (decomposition, components) = &**report;
            put_without_options(text, decomposition, components);
        }
    }
}

/// Appends the lines of replies, one reply after the other.
fn put_replies<K: Sink>(text: &mut Text<K>, replies: &[Reply])
    ensures { Puts K.taken K.faults text.old text.new (flat_map reply_lines replies.now) }
{
    for reply in replies {
        put_reply(text, reply);
    }
}

/// Writes replies, one after the other: a rank is one line, a report is of version 2 without orders
/// and pairs.
///
/// `Failed` comes only where a write failed, and then a prefix of the text was taken. It takes no
/// memory.
pub fn write_replies<K: Sink>(
    out: &mut K,
    buf: &mut TextBuf,
    replies: &[Reply],
) -> Result<(), Failed>
    ensures { Writes (seen K.taken K.faults out.old out.new) (replies_text replies.now) result }
{
    let mut text = Text::start(out, buf);
    put_replies(&mut text, replies);
    text.finish()
}
