//! The pairs of a matching.

ghost use Rattle.std.specs.Prelude.{◌∷◌, ◌<◌, [], map, Some};
ghost use Rattle.bip_graph.specs.Answers.{where_asked};
ghost use Rattle.bip_graph.specs.Texts.{pair_line, pair_lines, text_of};
ghost use Rattle.btf_text.specs.Columns.{pairs_at};
ghost use Rattle.btf_text.specs.Texts.{Puts};
ghost use Rattle.sp_ports.specs.Device.{Writes, seen};

use crate::TextBuf;
use crate::text::Text;
use bip_graph::Matching;
use itoa::Buffer;
use sp_ids::{Col, Row};
use sp_ports::{Failed, Sink};

/// Appends the line of a pair.
fn put_pair<K: Sink>(text: &mut Text<K>, row: Row, col: Col)
    ensures { Puts K.taken K.faults text.old text.new (pair_line (row, col) ∷ []) }
{
    let mut digits = Buffer::new();
    let word = digits.format(u64::from(row.0) + 1).as_bytes();
    text.put_line(word, &[u64::from(col.0) + 1]);
}

/// Appends the line of a column's pair, if it has a mate.
fn put_mate<K: Sink>(text: &mut Text<K>, matching: &Matching, col: Col)
    requires { col < matching.now.cols }
    ensures { Puts K.taken K.faults text.old text.new
        (map pair_line (pairs_at col matching.now.pairs)) }
{
    matching.is_matching();
    let Some(row) = matching.row_of(col) else {
        return;
    };
    put_pair(text, row, col);
}

/// Appends the pairs, rising by column.
fn put_list_of_pairs<K: Sink>(text: &mut Text<K>, matching: &Matching)
    ensures { Puts K.taken K.faults text.old text.new (pair_lines (Some matching.now.pairs)) }
{
    text.put_line(b"pairs", &[u64::from(matching.size())]);
    for col in 0..matching.cols() {
        put_mate(text, matching, Col(col));
    }
}

/// Appends the pairs, where they are asked for.
pub(crate) fn put_pairs<K: Sink>(text: &mut Text<K>, matching: &Matching, pairs: bool)
    ensures { Puts K.taken K.faults text.old text.new
        (pair_lines (where_asked pairs matching.now.pairs)) }
{
    if !pairs {
        return;
    }
    put_list_of_pairs(text, matching);
}

/// Writes the pairs of a matching: their number, and a line each of its row and its column, rising
/// by column.
///
/// `Failed` comes only where a write failed, and then a prefix of the text was taken. It takes no
/// memory. Work: one look at each column.
pub fn write_pairs<K: Sink>(
    out: &mut K,
    buf: &mut TextBuf,
    matching: &Matching,
) -> Result<(), Failed>
    ensures { Writes (seen K.taken K.faults out.old out.new)
        (text_of (pair_lines (Some matching.now.pairs))) result }
{
    let mut text = Text::start(out, buf);
    put_list_of_pairs(&mut text, matching);
    text.finish()
}
