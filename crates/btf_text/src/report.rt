//! The report of a decomposition, with connected components or without.

ghost use Rattle.std.specs.Prelude.{◌≤◌, ◌++◌, ◌∷◌, [], None, Some, false, length, map, codes};
ghost use Rattle.std.specs.Option.{option_copied};
ghost use Rattle.bip_defs.specs.Matrix.{Matrix};
ghost use Rattle.bip_graph.specs.Answers.{orders_of, report_of, where_asked};
ghost use Rattle.bip_graph.specs.Decompositions.{Decomposes, components_of, decomposition_of};
ghost use Rattle.bip_graph.specs.Texts.{block_lines, component_lines, counted, horizontal_components, line, lists, numbered_components, order_lines, report_lines, report_text, version_line, vertical_components};
ghost use Rattle.btf_text.specs.Reports.{components_in, part_lines, reported};
ghost use Rattle.btf_text.specs.Texts.{Puts};
ghost use Rattle.sp_ports.specs.Device.{Writes, seen};

use crate::TextBuf;
use crate::load::{put_head, put_square};
use crate::pairs::put_pairs;
use crate::rank::put_part;
use crate::text::Text;
use bip_graph::{Blocks, Components, Decomposition, Matching};
use sp_ids::{Col, Id, Row};
use sp_ports::{Failed, Sink};

/// Appends a block: its number and size, and its lists.
fn put_block<K: Sink>(text: &mut Text<K>, number: u64, rows: &[Row], cols: &[Col])
    ensures { Puts K.taken K.faults text.old text.new
        (line (codes "block") (number ∷ length rows.now ∷ []) ∷ lists rows.now cols.now) }
{
    text.put_line(b"block", &[number, rows.len() as u64]);
    text.put_list(b"rows", rows);
    text.put_list(b"columns", cols);
}

/// Appends the blocks in their order, numbered from 1.
pub(crate) fn put_blocks<K: Sink>(text: &mut Text<K>, blocks: &Blocks)
    ensures { Puts K.taken K.faults text.old text.new (block_lines 1 blocks.now) }
{
    for i in 0..blocks.len() {
        put_block(text, i as u64 + 1, blocks.rows(i), blocks.cols(i));
    }
}

/// Appends a component: its number, the lengths of its lists, and the lists.
fn put_component<K: Sink>(text: &mut Text<K>, number: u64, rows: &[Row], cols: &[Col])
    ensures { Puts K.taken K.faults text.old text.new
        (line (codes "component") (number ∷ length rows.now ∷ length cols.now ∷ [])
        ∷ lists rows.now cols.now) }
{
    let (m, n) = (rows.len() as u64, cols.len() as u64);
    text.put_line(b"component", &[number, m, n]);
    text.put_list(b"rows", rows);
    text.put_list(b"columns", cols);
}

/// Appends components in their order, numbered from 1.
fn put_numbered<K: Sink>(text: &mut Text<K>, components: &Blocks)
    ensures { Puts K.taken K.faults text.old text.new (component_lines 1 components.now) }
{
    for i in 0..components.len() {
        put_component(text, i as u64 + 1, components.rows(i), components.cols(i));
    }
}

/// Appends the number of components of a part, and the components.
fn put_counted<K: Sink>(text: &mut Text<K>, word: &[u8], components: &Blocks)
    requires { length word.now ≤ 65536 }
    ensures { Puts K.taken K.faults text.old text.new
        (numbered_components word.now components.now) }
{
    text.put_line(word, &[components.len() as u64]);
    put_numbered(text, components);
}

/// Appends the horizontal components, where there are components.
fn put_horizontal<K: Sink>(text: &mut Text<K>, components: Option<&Components>)
    ensures { Puts K.taken K.faults text.old text.new
        (horizontal_components (components_in (option_copied components.entry))) }
{
    if let Some(both) = components {
        put_counted(text, b"horizontal_components", &both.horizontal);
    }
}

/// Appends the vertical components, where there are components.
fn put_vertical<K: Sink>(text: &mut Text<K>, components: Option<&Components>)
    ensures { Puts K.taken K.faults text.old text.new
        (vertical_components (components_in (option_copied components.entry))) }
{
    if let Some(both) = components {
        put_counted(text, b"vertical_components", &both.vertical);
    }
}

/// Appends the version: 2 where there are components, else 1.
fn put_version<K: Sink>(text: &mut Text<K>, components: Option<&Components>)
    ensures { Puts K.taken K.faults text.old text.new
        (version_line (components_in (option_copied components.entry)) ∷ []) }
{
    match components {
        Some(_) => text.put_line(b"btf", &[2]),
        None => text.put_line(b"btf", &[1]),
    }
}

/// Appends a list line over three lists.
fn put_order<K: Sink, N: Id>(text: &mut Text<K>, word: &[u8], first: &[N], middle: &[N], last: &[N])
    requires { length word.now ≤ 65536 }
    ensures { Puts K.taken K.faults text.old text.new
        (line word.now (counted (map N.number (first.now ++ middle.now ++ last.now))) ∷ []) }
{
    text.put_piece(word);
    text.put_ids(first);
    text.put_ids(middle);
    text.put_ids(last);
    text.put_piece(b"\n");
}

/// Appends the rows and the columns in the order of the block triangular form, where they are
/// asked for.
pub(crate) fn put_orders<K: Sink>(text: &mut Text<K>, dec: &Decomposition, order: bool)
    ensures { Puts K.taken K.faults text.old text.new
        (order_lines (where_asked order (orders_of (decomposition_of dec.now)))) }
{
    if !order {
        return;
    }
    let (parts, blocks) = (&dec.parts, &dec.blocks);
    put_order(
        text,
        b"row_order",
        parts.hr.as_slice(),
        blocks.all_rows(),
        parts.vr.as_slice(),
    );
    put_order(
        text,
        b"column_order",
        parts.hc.as_slice(),
        blocks.all_cols(),
        parts.vc.as_slice(),
    );
}

/// Appends the lists of the parts, the components and the blocks.
fn put_parts<K: Sink>(text: &mut Text<K>, dec: &Decomposition, components: Option<&Components>)
    ensures { Puts K.taken K.faults text.old text.new
        (part_lines dec.now (components_in (option_copied components.entry))) }
{
    let parts = &dec.parts;
    put_part(
        text,
        b"horizontal",
        parts.hr.as_slice(),
        parts.hc.as_slice(),
    );
    put_horizontal(text, components);
    put_square(text, &dec.blocks);
    put_blocks(text, &dec.blocks);
    put_part(text, b"vertical", parts.vr.as_slice(), parts.vc.as_slice());
    put_vertical(text, components);
}

/// Appends a report of version 2 without orders and pairs.
pub(crate) fn put_without_options<K: Sink>(
    text: &mut Text<K>,
    dec: &Decomposition,
    components: &Components,
)
    ensures { Puts K.taken K.faults text.old text.new
        (report_lines (reported dec.now (Some (components_of components.now)) false None)) }
{
    put_version(text, Some(components));
    put_head(text, (dec.m, dec.n, dec.e), dec.rank);
    put_parts(text, dec, Some(components));
    text.put_line(b"end", &[]);
}

/// Writes the report of a decomposition: the sizes of the matrix, its rank, and the lists of its
/// parts and blocks; in version 2, which has `components`, the connected components of the
/// horizontal and of the vertical part behind their lists; with `order` its rows and columns in the
/// order of the block triangular form, and with `pairs` the pairs of the matching.
///
/// `Failed` comes only where a write failed, and then a prefix of the text was taken. It takes no
/// memory. Work: one look at each number that is written, and with `pairs` one at each column.
pub fn write_report<K: Sink>(
    out: &mut K,
    buf: &mut TextBuf,
    dec: &Decomposition,
    components: Option<&Components>,
    matching: &Matching,
    order: bool,
    pairs: bool,
) -> Result<(), Failed>
    // Written is what the answer tells; where it is the decomposition of a matrix, that is the
    // matrix's report.
    ensures written { Writes (seen K.taken K.faults out.old out.new)
        (report_text (reported dec.now (components_in (option_copied components.entry)) order
        (where_asked pairs matching.now.pairs))) result }
    ensures of_matrix { (a : Matrix) → Decomposes a dec.now
        → Writes (seen K.taken K.faults out.old out.new)
        (report_text (report_of a (decomposition_of dec.now)
        (components_in (option_copied components.entry)) order
        (where_asked pairs matching.now.pairs))) result }
{
    let mut text = Text::start(out, buf);
    put_version(&mut text, components);
    put_head(&mut text, (dec.m, dec.n, dec.e), dec.rank);
    put_parts(&mut text, dec, components);
    put_orders(&mut text, dec, order);
    put_pairs(&mut text, matching, pairs);
    text.put_line(b"end", &[]);
    text.finish()
}
