//! The summary of a decomposition.

ghost use Rattle.std.specs.Prelude.{◌≤◌, ◌∷◌, [], length};
ghost use Rattle.bip_graph.specs.Texts.{matrix_line, rank_line, square_line};
ghost use Rattle.btf_text.specs.Reports.{lengths_line, summary_text};
ghost use Rattle.btf_text.specs.Texts.{Puts};
ghost use Rattle.sp_ports.specs.Device.{Writes, seen};

use crate::TextBuf;
use crate::text::Text;
use bip_graph::{Blocks, Decomposition};
use sp_ids::{Col, Row};
use sp_ports::{Failed, Sink};

/// Appends the numbers of rows, columns and entries of the matrix, and its rank.
pub(crate) fn put_head<K: Sink>(text: &mut Text<K>, sizes: (u32, u32, u32), rank: u32)
    ensures { Puts K.taken K.faults text.old text.new
        (matrix_line (record { rows = sizes.0; cols = sizes.1; entries = sizes.2 })
        ∷ rank_line rank ∷ []) }
{
    let (m, n, e) = sizes;
    text.put_line(b"matrix", &[u64::from(m), u64::from(n), u64::from(e)]);
    text.put_line(b"rank", &[u64::from(rank)]);
}

/// Appends the lengths of two lists.
fn put_lengths<K: Sink>(text: &mut Text<K>, word: &[u8], rows: &[Row], cols: &[Col])
    requires { length word.now ≤ 65536 }
    ensures { Puts K.taken K.faults text.old text.new
        (lengths_line word.now rows.now cols.now ∷ []) }
{
    text.put_line(word, &[rows.len() as u64, cols.len() as u64]);
}

/// Appends the number of rows in blocks, and the number of blocks.
pub(crate) fn put_square<K: Sink>(text: &mut Text<K>, blocks: &Blocks)
    ensures { Puts K.taken K.faults text.old text.new (square_line blocks.now ∷ []) }
{
    let rows = blocks.all_rows();
    text.put_line(b"square", &[rows.len() as u64, blocks.len() as u64]);
}

/// Writes the summary of a decomposition, five lines: the sizes of the matrix, its rank, and the
/// sizes of its parts.
///
/// `Failed` comes only where a write failed, and then a prefix of the text was taken. It takes no
/// memory.
pub fn write_load<K: Sink>(
    out: &mut K,
    buf: &mut TextBuf,
    dec: &Decomposition,
) -> Result<(), Failed>
    ensures { Writes (seen K.taken K.faults out.old out.new) (summary_text dec.now) result }
{
    let mut text = Text::start(out, buf);
    put_head(&mut text, (dec.m, dec.n, dec.e), dec.rank);
    let parts = &dec.parts;
    put_lengths(
        &mut text,
        b"horizontal",
        parts.hr.as_slice(),
        parts.hc.as_slice(),
    );
    put_square(&mut text, &dec.blocks);
    put_lengths(
        &mut text,
        b"vertical",
        parts.vr.as_slice(),
        parts.vc.as_slice(),
    );
    text.finish()
}
