//! Reports that are read.

ghost use Rattle.std.specs.Prelude.{◌≡◌, ◌==◌, IfOk, IfSome, IfNone};
ghost use Rattle.bip_graph.specs.Texts as texts;
ghost use Rattle.bip_graph.specs.Texts.{report_text};
ghost use Rattle.bip_graph.specs.Answers.{where_asked};
ghost use Rattle.report_reader.specs.Readable.{IsReadable};
ghost use Rattle.report_reader.specs.ReportGrammar.{ReadsAs, body_at, head_at, report_at, sizes_at, tail_at, version_at};
ghost use Rattle.report_reader.specs.ReportRead.{GivesSquareByBlocks, HasVersion, components_read, contents, lists_in, orders_in};

use crate::listed_components::{ComponentList, ListedComponents};
use crate::numerals::{field_at, line_end, one_at, word_at};
use crate::sections::{components_at, orders_at, pairs_at, part_at, square_at};
use crate::stop::Stop;
use bip_graph::{Blocks, Parts};
use sp_ids::{Col, OutOfMemory, Row};
use std::alloc::Global;

/// What a report with pairs says.
///
/// Nothing ties its numbers and lists to a matrix, or to one another: rows and columns are below
/// 2^32 - 1, the lists of parts and blocks rise, the pairs rise by column, and both lists of a
/// block are of one length, which is at least 1.
///
/// A report gives the square part by its blocks alone, so `parts.sr` and `parts.sc` are empty,
/// whatever the blocks hold. The version is 1 or 2, and the components stand there in version 2
/// alone; each has a row or a column.
#[derive(Drop)]
pub struct Report {
    pub version: u32,
    pub m: u32,
    pub n: u32,
    pub e: u32,
    pub rank: u32,
    pub parts: Parts,
    pub blocks: Blocks,
    pub components: Option<ListedComponents>,
    pub pairs: Vec<(Row, Col)>,
    pub orders: Option<(Vec<Row>, Vec<Col>)>,
}

/// The numbers of rows, columns and entries.
#[tactic(auto, unfolding(crate::specs::ReportGrammar::sizes_at))]
fn sizes_at(bytes: &[u8]) -> Result<((u32, u32, u32), &[u8]), Stop>
    ensures { ReadsAs (λ x. (record { rows = x.0.0; cols = x.0.1; entries = x.0.2 }, x.1.now))
        result (sizes_at bytes.now) }
{
    let rest = word_at(bytes, b"matrix")?;
    let (m, rest) = field_at(rest)?;
    let (n, rest) = field_at(rest)?;
    let (e, rest) = field_at(rest)?;
    let rest = line_end(rest)?;
    Ok(((m, n, e), rest))
}

/// The version, which is 1 or 2.
#[tactic(auto, unfolding(crate::specs::ReportGrammar::version_at))]
fn version_at(bytes: &[u8]) -> Result<(u32, &[u8]), Stop>
    ensures { ReadsAs (λ x. (x.0, x.1.now)) result (version_at bytes.now) }
{
    let (version, rest) = one_at(bytes, b"btf")?;
    if version != 1 && version != 2 {
        return Err(Stop::Other);
    }
    Ok((version, rest))
}

/// What stands between the version and the parts: the sizes of the matrix and its rank.
#[tactic(auto, unfolding(crate::specs::ReportGrammar::head_at))]
fn head_at(bytes: &[u8]) -> Result<(((u32, u32, u32), u32), &[u8]), Stop>
    ensures { ReadsAs (λ x.
        ((record { rows = x.0.0.0; cols = x.0.0.1; entries = x.0.0.2 }, x.0.1), x.1.now)) result
        (head_at bytes.now) }
{
    let (sizes, rest) = sizes_at(bytes)?;
    let (rank, rest) = one_at(rest, b"rank")?;
    Ok(((sizes, rank), rest))
}

/// The lists of the parts, the components and the blocks.
#[derive(Drop)]
struct Body {
    hr: Vec<Row>,
    hc: Vec<Col>,
    horizontal: ComponentList,
    blocks: Blocks,
    vr: Vec<Row>,
    vc: Vec<Col>,
    vertical: ComponentList,
}

/// What stands between the head and the orders; version 1 has no components.
#[tactic(auto, unfolding(crate::specs::ReportGrammar::body_at))]
fn body_at(alloc: Global, bytes: &[u8], version: u32) -> Result<(Body, &[u8]), Stop>
    ensures { ReadsAs (λ x. (lists_in x.0, x.1.now)) result (body_at version bytes.now) }
{
    let ((hr, hc), rest) = part_at(alloc, bytes, b"horizontal")?;
    let (horizontal, rest) = components_at(alloc, rest, version, b"horizontal_components")?;
    let (blocks, rest) = square_at(alloc, rest)?;
    let ((vr, vc), rest) = part_at(alloc, rest, b"vertical")?;
    let (vertical, rest) = components_at(alloc, rest, version, b"vertical_components")?;
    let body = Body {
        hr,
        hc,
        horizontal,
        blocks,
        vr,
        vc,
        vertical,
    };
    Ok((body, rest))
}

/// The orders and the pairs.
#[derive(Drop)]
struct Tail {
    orders: Option<(Vec<Row>, Vec<Col>)>,
    pairs: Vec<(Row, Col)>,
}

/// What stands behind the parts: orders and pairs, up to the end of the bytes.
#[tactic(auto, unfolding(crate::specs::ReportGrammar::tail_at))]
fn tail_at(alloc: Global, bytes: &[u8]) -> Result<Tail, Stop>
    ensures { ReadsAs (λ t. (orders_in t.orders, t.pairs.items)) result (tail_at bytes.now) }
{
    let (orders, rest) = orders_at(alloc, bytes)?;
    let (pairs, rest) = pairs_at(alloc, rest)?;
    let rest = word_at(rest, b"end\n")?;
    if !rest.is_empty() {
        return Err(Stop::Other);
    }
    Ok(Tail { orders, pairs })
}

/// The components of both parts, in version 2.
fn in_version(
    version: u32,
    horizontal: ComponentList,
    vertical: ComponentList,
) -> Option<ListedComponents>
    ensures { components_read result
        ≡ where_asked (version == 2) (record { horizontal = horizontal; vertical = vertical }) }
{
    if version != 2 {
        return None;
    }
    Some(ListedComponents {
        horizontal,
        vertical,
    })
}

/// The version of a report with these components, or with none.
fn version_of(components: &Option<ListedComponents>) -> u32
    ensures { result ≡ texts.version_of components.now }
{
    match components {
        Some(_) => 2,
        None => 1,
    }
}

/// The report that the bytes are.
#[tactic(auto, unfolding(crate::specs::ReportGrammar::report_at))]
fn report_at(alloc: Global, bytes: &[u8]) -> Result<Report, Stop>
    ensures gives { ReadsAs contents result (report_at bytes.now) }
    ensures square { IfOk result GivesSquareByBlocks }
    ensures version { IfOk result HasVersion }
{
    let (version, rest) = version_at(bytes)?;
    let (((m, n, e), rank), rest) = head_at(rest)?;
    let (body, rest) = body_at(alloc, rest, version)?;
    let tail = tail_at(alloc, rest)?;
    let components = in_version(version, body.horizontal, body.vertical);
    let parts = Parts {
        hr: body.hr,
        hc: body.hc,
        sr: Vec::new(alloc),
        sc: Vec::new(alloc),
        vr: body.vr,
        vc: body.vc,
    };
    Ok(Report {
        version: version_of(&components),
        m,
        n,
        e,
        rank,
        parts,
        blocks: body.blocks,
        components,
        pairs: tail.pairs,
        orders: tail.orders,
    })
}

/// Reads a report with pairs, of version 1 or 2, with or without orders: all of the bytes, from
/// `btf` to the end of the line `end`.
///
/// Answers `None` exactly where the bytes are not such a report, and `OutOfMemory` where there is
/// not enough memory for its lists. No list is reserved by a number of the text: each grows as its
/// numbers are read, to 4 bytes each, 8 a block or component and 8 a pair. Components may list as
/// many rows and columns in all as the bytes hold. Work: one look at each byte.
pub fn read_report(alloc: Global, bytes: &[u8]) -> Result<Option<Report>, OutOfMemory>
    // What is read is spelled so, each byte of it.
    ensures found { IfOk result
        (λ o. IfSome o (λ r. IsReadable (contents r) × (bytes.now ≡ report_text (contents r)))) }
    // The square part is given by the blocks alone.
    ensures square { IfOk result (λ o. IfSome o GivesSquareByBlocks) }
    // Components stand in version 2 alone.
    ensures version { IfOk result (λ o. IfSome o HasVersion) }
    // Where nothing is read, the bytes are no report.
    ensures none { IfOk result
        (λ o. IfNone o ((r : texts.Report) → IsReadable r → ¬ (bytes.now ≡ report_text r))) }
{
    match report_at(alloc, bytes) {
        Ok(report) => Ok(Some(report)),
        Err(Stop::Other) => Ok(None),
        Err(Stop::Memory) => Err(OutOfMemory),
    }
}
