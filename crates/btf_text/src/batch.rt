//! The text of a batch, piece by piece: what is found of each file, and how many files there were.

ghost use Rattle.std.specs.Prelude.{◌≤◌, Some, None, false, length};
ghost use Rattle.bip_defs.specs.Matrix.{Matrix};
ghost use Rattle.bip_graph.specs.Answers.{report_of};
ghost use Rattle.bip_graph.specs.Decompositions.{Decomposes, components_of, decomposition_of};
ghost use Rattle.btf_text.specs.Batches.{behind_file_line, file_report, files_end};
ghost use Rattle.btf_text.specs.Reports.{reported};
ghost use Rattle.sp_ports.specs.Device.{Writes, seen};

use crate::TextBuf;
use crate::report::put_without_options;
use crate::text::Text;
use bip_graph::{Components, Decomposition};
use sp_ports::{Failed, Sink};

/// Writes the line of a good file, by its number, and the report of its decomposition: of version
/// 2, without orders and pairs. Files count from 1.
///
/// `Failed` comes only where a write failed, and then a prefix of the text was taken. It takes no
/// memory. Work: one look at each number that is written.
pub fn write_file_report<K: Sink>(
    out: &mut K,
    buf: &mut TextBuf,
    number: u64,
    dec: &Decomposition,
    components: &Components,
) -> Result<(), Failed>
    // Written is what the answer tells; where it is the decomposition of a matrix, that is the
    // matrix's report.
    ensures written { Writes (seen K.taken K.faults out.old out.new)
        (file_report number (reported dec.now (Some (components_of components.now)) false None))
        result }
    ensures of_matrix { (a : Matrix) → Decomposes a dec.now
        → Writes (seen K.taken K.faults out.old out.new)
        (file_report number (report_of a (decomposition_of dec.now)
        (Some (components_of components.now)) false None)) result }
{
    let mut text = Text::start(out, buf);
    text.put_line(b"file", &[number, 0]);
    put_without_options(&mut text, dec, components);
    text.finish()
}

/// Writes the line of a file that is not good, by its number and its status, and the line that
/// tells why: at most 65,536 bytes, its line end among them. Files count from 1.
///
/// `Failed` comes only where a write failed, and then a prefix of the text was taken. It takes no
/// memory.
pub fn write_file_fault<K: Sink>(
    out: &mut K,
    buf: &mut TextBuf,
    number: u64,
    status: u64,
    why: &[u8],
) -> Result<(), Failed>
    requires { length why.now ≤ 65536 }
    ensures { Writes (seen K.taken K.faults out.old out.new)
        (behind_file_line number status why.now) result }
{
    let mut text = Text::start(out, buf);
    text.put_line(b"file", &[number, status]);
    text.put_piece(why);
    text.finish()
}

/// Writes the last line: how many files there were.
///
/// `Failed` comes only where a write failed, and then a prefix of the text was taken. It takes no
/// memory.
pub fn write_files_end<K: Sink>(out: &mut K, buf: &mut TextBuf, files: u64) -> Result<(), Failed>
    ensures { Writes (seen K.taken K.faults out.old out.new) (files_end files) result }
{
    let mut text = Text::start(out, buf);
    text.put_line(b"end", &[files]);
    text.finish()
}
