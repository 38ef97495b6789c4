//! Parts, blocks, components, orders and pairs of a report that is read.

ghost use Rattle.std.specs.Prelude.{◌≡◌, Some};
ghost use Rattle.bip_defs.specs.Matching.{cols_of};
ghost use Rattle.report_reader.specs.ReportGrammar.{ReadsAs, block_at, blocks_at, both_orders_at, lists_at, orders_at, pair_at, pair_list_at, pairs_at, part_at, rises, square_at, component_at, components_at, counted_at, numbered_at};
ghost use Rattle.report_reader.specs.ReportRead.{orders_in};

use crate::listed_components::ComponentList;
use crate::numerals::{
    field_at, id_of, line_end, list_at, number_at, one_at, rises, three_at, two_at,
};
use crate::stop::Stop;
use bip_graph::Blocks;
use sp_ids::{Col, Row};
use std::alloc::Global;

/// Two rising lists of these lengths.
#[tactic(auto, unfolding(crate::specs::ReportGrammar::lists_at))]
fn lists_at(
    alloc: Global,
    bytes: &[u8],
    m: u32,
    n: u32,
) -> Result<((Vec<Row>, Vec<Col>), &[u8]), Stop>
    ensures { ReadsAs (λ x. ((x.0.0.items, x.0.1.items), x.1.now)) result (lists_at m n bytes.now) }
{
    let (rows, rest) = list_at::<Row>(alloc, bytes, b"rows")?;
    let (cols, rest) = list_at::<Col>(alloc, rest, b"columns")?;
    if rows.len() != m as usize || cols.len() != n as usize {
        return Err(Stop::Other);
    }
    if !rises(rows.as_slice()) || !rises(cols.as_slice()) {
        return Err(Stop::Other);
    }
    Ok(((rows, cols), rest))
}

/// A part: its sizes, and its lists unless both are empty.
#[tactic(auto, unfolding(crate::specs::ReportGrammar::part_at))]
pub(crate) fn part_at<'a>(
    alloc: Global,
    bytes: &'a [u8],
    word: &[u8],
) -> Result<((Vec<Row>, Vec<Col>), &'a [u8]), Stop>
    ensures { ReadsAs (λ x. ((x.0.0.items, x.0.1.items), x.1.now)) result
        (part_at word.now bytes.now) }
{
    let ((m, n), rest) = two_at(bytes, word)?;
    if m == 0 && n == 0 {
        return Ok(((Vec::new(alloc), Vec::new(alloc)), rest));
    }
    lists_at(alloc, rest, m, n)
}

/// The block of this number, of at most so many rows.
#[tactic(auto, unfolding(crate::specs::ReportGrammar::block_at))]
fn block_at(
    alloc: Global,
    bytes: &[u8],
    number: u32,
    room: u32,
) -> Result<((Vec<Row>, Vec<Col>), &[u8]), Stop>
    ensures { ReadsAs (λ x. ((x.0.0.items, x.0.1.items), x.1.now)) result
        (block_at number room bytes.now) }
{
    let ((written, size), rest) = two_at(bytes, b"block")?;
    if written != number || size == 0 || size > room {
        return Err(Stop::Other);
    }
    lists_at(alloc, rest, size, size)
}

/// So many blocks, numbered from 1, of at most so many rows in all.
fn blocks_at(alloc: Global, bytes: &[u8], count: u32, room: u32) -> Result<(Blocks, &[u8]), Stop>
    ensures { ReadsAs (λ x. (x.0, x.1.now)) result (blocks_at count 1 room bytes.now) }
{
    let mut read = Blocks::new(alloc);
    let mut rest = bytes;
    let mut room = room;
    for at in 0..count {
        let ((rows, cols), after) = block_at(alloc, rest, at + 1, room)?;
        read.push(rows.as_slice(), cols.as_slice())?;
        room -= rows.len() as u32;
        rest = after;
    }
    Ok((read, rest))
}

/// The number of rows in blocks, the number of blocks, and the blocks.
#[tactic(auto, unfolding(crate::specs::ReportGrammar::square_at))]
pub(crate) fn square_at(alloc: Global, bytes: &[u8]) -> Result<(Blocks, &[u8]), Stop>
    ensures { ReadsAs (λ x. (x.0, x.1.now)) result (square_at bytes.now) }
{
    let ((size, count), rest) = two_at(bytes, b"square")?;
    let (blocks, rest) = blocks_at(alloc, rest, count, size)?;
    if blocks.all_rows().len() != size as usize {
        return Err(Stop::Other);
    }
    Ok((blocks, rest))
}

/// The component of this number.
#[tactic(auto, unfolding(crate::specs::ReportGrammar::component_at))]
fn component_at(
    alloc: Global,
    bytes: &[u8],
    number: u32,
) -> Result<((Vec<Row>, Vec<Col>), &[u8]), Stop>
    ensures { ReadsAs (λ x. ((x.0.0.items, x.0.1.items), x.1.now)) result
        (component_at number bytes.now) }
{
    let ((written, m, n), rest) = three_at(bytes, b"component")?;
    if written != number {
        return Err(Stop::Other);
    }
    if m == 0 && n == 0 {
        return Err(Stop::Other);
    }
    lists_at(alloc, rest, m, n)
}

/// So many components, numbered from 1.
fn numbered_at(alloc: Global, bytes: &[u8], count: u32) -> Result<(ComponentList, &[u8]), Stop>
    ensures { ReadsAs (λ x. (x.0, x.1.now)) result (numbered_at count 1 bytes.now) }
{
    let mut read = ComponentList::new(alloc);
    let mut rest = bytes;
    for at in 0..count {
        let ((rows, cols), after) = component_at(alloc, rest, at + 1)?;
        read.push(rows.as_slice(), cols.as_slice())?;
        rest = after;
    }
    Ok((read, rest))
}

/// The number of components, and the components.
#[tactic(auto, unfolding(crate::specs::ReportGrammar::counted_at))]
fn counted_at<'a>(
    alloc: Global,
    bytes: &'a [u8],
    word: &[u8],
) -> Result<(ComponentList, &'a [u8]), Stop>
    ensures { ReadsAs (λ x. (x.0, x.1.now)) result (counted_at word.now bytes.now) }
{
    let (count, rest) = one_at(bytes, word)?;
    numbered_at(alloc, rest, count)
}

/// The components of a part; version 1 has none.
#[tactic(auto, unfolding(crate::specs::ReportGrammar::components_at))]
pub(crate) fn components_at<'a>(
    alloc: Global,
    bytes: &'a [u8],
    version: u32,
    word: &[u8],
) -> Result<(ComponentList, &'a [u8]), Stop>
    ensures { ReadsAs (λ x. (x.0, x.1.now)) result (components_at version word.now bytes.now) }
{
    if version != 2 {
        return Ok((ComponentList::new(alloc), bytes));
    }
    counted_at(alloc, bytes, word)
}

/// Both orders.
#[tactic(auto, unfolding(crate::specs::ReportGrammar::both_orders_at))]
fn both_orders_at(alloc: Global, bytes: &[u8]) -> Result<((Vec<Row>, Vec<Col>), &[u8]), Stop>
    ensures { ReadsAs (λ x. (Some (x.0.0.items, x.0.1.items), x.1.now)) result
        (both_orders_at bytes.now) }
{
    let (rows, rest) = list_at::<Row>(alloc, bytes, b"row_order")?;
    let (cols, rest) = list_at::<Col>(alloc, rest, b"column_order")?;
    Ok(((rows, cols), rest))
}

/// Both orders, if they stand there.
#[tactic(auto, unfolding(crate::specs::ReportGrammar::orders_at))]
pub(crate) fn orders_at(
    alloc: Global,
    bytes: &[u8],
) -> Result<(Option<(Vec<Row>, Vec<Col>)>, &[u8]), Stop>
    ensures { ReadsAs (λ x. (orders_in x.0, x.1.now)) result (orders_at bytes.now) }
{
    if !bytes.starts_with(b"row_order") {
        return Ok((None, bytes));
    }
    let (orders, rest) = both_orders_at(alloc, bytes)?;
    Ok((Some(orders), rest))
}

/// The line of a pair: the places from 0 of its row and its column.
#[tactic(auto, unfolding(crate::specs::ReportGrammar::pair_at))]
fn pair_at(bytes: &[u8]) -> Result<((u32, u32), &[u8]), Stop>
    ensures { ReadsAs (λ x. ((x.0.0, x.0.1), x.1.now)) result (pair_at bytes.now) }
{
    let (number, rest) = number_at(bytes)?;
    let (row, rest) = id_of(number, rest)?;
    let (number, rest) = field_at(rest)?;
    let (col, rest) = id_of(number, rest)?;
    let rest = line_end(rest)?;
    Ok(((row, col), rest))
}

/// The lines of so many pairs.
fn pair_list_at(alloc: Global, bytes: &[u8], count: u32) -> Result<(Vec<(Row, Col)>, &[u8]), Stop>
    ensures { ReadsAs (λ x. (x.0.items, x.1.now)) result (pair_list_at count bytes.now) }
{
    let mut pairs = Vec::new(alloc);
    let mut rest = bytes;
    for _ in 0..count {
        let ((row, col), after) = pair_at(rest)?;
        pairs.push((Row(row), Col(col)))?;
        rest = after;
    }
    Ok((pairs, rest))
}

/// Whether each column is below all later ones.
fn cols_rise(pairs: &[(Row, Col)]) -> bool
    ensures { result ≡ rises (cols_of pairs.now) }
{
    let mut least = 0;
    for pair in pairs {
        let number = u64::from(pair.1.0);
        if number < least {
            return false;
        }
        least = number + 1;
    }
    true
}

/// The number of pairs, and their lines.
#[tactic(auto, unfolding(crate::specs::ReportGrammar::pairs_at))]
pub(crate) fn pairs_at(alloc: Global, bytes: &[u8]) -> Result<(Vec<(Row, Col)>, &[u8]), Stop>
    ensures { ReadsAs (λ x. (x.0.items, x.1.now)) result (pairs_at bytes.now) }
{
    let (count, rest) = one_at(bytes, b"pairs")?;
    let (pairs, rest) = pair_list_at(alloc, rest, count)?;
    if !cols_rise(pairs.as_slice()) {
        return Err(Stop::Other);
    }
    Ok((pairs, rest))
}
