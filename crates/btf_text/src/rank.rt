//! The text of the rank.

ghost use Rattle.std.specs.Prelude.{◌≤◌, length};
ghost use Rattle.bip_graph.specs.Texts.{part, rank_text, sizes_of};
ghost use Rattle.btf_text.specs.Texts.{Puts};
ghost use Rattle.sp_ports.specs.Device.{Writes, seen};

use crate::TextBuf;
use crate::load::put_head;
use crate::text::Text;
use sp_ids::{Col, Row};
use sp_pattern::Pattern;
use sp_ports::{Failed, Sink};

/// Appends a part: its sizes, and its lists unless both are empty.
pub(crate) fn put_part<K: Sink>(text: &mut Text<K>, word: &[u8], rows: &[Row], cols: &[Col])
    requires { length word.now ≤ 65536 }
    ensures { Puts K.taken K.faults text.old text.new (part word.now rows.now cols.now) }
{
    text.put_line(word, &[rows.len() as u64, cols.len() as u64]);
    if rows.len() + cols.len() == 0 {
        return;
    }
    text.put_list(b"rows", rows);
    text.put_list(b"columns", cols);
}

/// Writes the text of `rank`: the sizes of the matrix, its rank, and the rows and columns of its
/// horizontal part.
///
/// `Failed` comes only where a write failed, and then a prefix of the text was taken. It takes no
/// memory.
pub fn write_rank<K: Sink>(
    out: &mut K,
    buf: &mut TextBuf,
    pattern: &Pattern,
    rank: u32,
    hr: &[Row],
    hc: &[Col],
) -> Result<(), Failed>
    ensures { Writes (seen K.taken K.faults out.old out.new)
        (rank_text (sizes_of pattern.now) rank hr.now hc.now) result }
{
    let mut text = Text::start(out, buf);
    let sizes = (pattern.rows(), pattern.cols(), pattern.entries());
    put_head(&mut text, sizes, rank);
    put_part(&mut text, b"horizontal", hr, hc);
    text.put_line(b"end", &[]);
    text.finish()
}
