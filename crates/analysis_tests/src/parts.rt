//! The coarse parts, the strong components and the fine blocks of each matrix.

ghost use Rattle.bip_graph.specs.Decompositions.{HasParts};
ghost use Rattle.bip_graph.specs.Matching.{IsMatchingOf, IsMaximumOf};

use bip_graph::{Blocks, Matching, Parts};
use column_lists::PatternColumns;
use dm_coarse::{coarse, coarse_if_maximum};
use dm_fine::fine;
use hall_witness::plain;
use karp_sipser::start;
use sp_ids::{Col, Row};
use sp_pattern::Pattern;
use square_components::{StrongComponents, strong_components};
use std::alloc::Global;
use std::test::Fail;
use std::thread::Threads;
use test_matrices::{
    Lists, Worked, are, lists_in, matching_of, pairs_in, pattern_from, worked_matrices,
};

/// Whether these are the rows and the columns of a part, or of a block.
fn are_lists(rows: &[Row], cols: &[Col], wanted: &Lists) -> bool {
    are(rows, wanted.rows.as_slice()) && are(cols, wanted.cols.as_slice())
}

/// Whether these are the rows and the columns of a line.
fn has_part(
    alloc: Global,
    worked: &Worked<'_>,
    word: &str,
    rows: &[Row],
    cols: &[Col],
) -> Result<bool, Fail> {
    let wanted = worked.lists(alloc, word)?;
    Ok(are_lists(rows, cols, &wanted))
}

/// Whether these are the parts of a matrix.
pub(crate) fn has_parts(alloc: Global, worked: &Worked<'_>, parts: &Parts) -> Result<bool, Fail> {
    let (hr, hc) = (parts.hr.as_slice(), parts.hc.as_slice());
    let (sr, sc) = (parts.sr.as_slice(), parts.sc.as_slice());
    let (vr, vc) = (parts.vr.as_slice(), parts.vc.as_slice());
    Ok(
        has_part(alloc, worked, "horizontal", hr, hc)?
            && has_part(alloc, worked, "square", sr, sc)?
            && has_part(alloc, worked, "vertical", vr, vc)?,
    )
}

/// The blocks of a matrix, in their order.
pub(crate) fn blocks_of(alloc: Global, worked: &Worked<'_>) -> Result<Vec<Lists>, Fail> {
    let mut blocks = Vec::new(alloc);
    for text in worked.line("blocks")?.split(',') {
        if !text.is_empty() {
            blocks.push(lists_in(alloc, text)?)?;
        }
    }
    Ok(blocks)
}

/// Whether these are the blocks, in their order.
pub(crate) fn are_blocks(blocks: &Blocks, wanted: &[Lists]) -> bool {
    if blocks.len() != wanted.len() || blocks.is_empty() != wanted.is_empty() {
        return false;
    }
    for at in 0..wanted.len() {
        if !are_lists(blocks.rows(at), blocks.cols(at), &wanted[at]) {
            return false;
        }
    }
    true
}

/// The number of a column's component, where the column counts from 1.
fn number_of(components: &StrongComponents, col: u32) -> Option<u32> {
    let at = col.checked_sub(1)?;
    components.of_cols.get(at as usize).copied()
}

/// Whether these columns have this number.
fn have_number(components: &StrongComponents, cols: &[u32], number: Option<u32>) -> bool {
    for col in cols {
        if number_of(components, *col) != number {
            return false;
        }
    }
    true
}

/// Whether there are as many components as blocks, and the columns of a block have one number.
fn are_components(components: &StrongComponents, wanted: &[Lists]) -> bool {
    for lists in wanted {
        if let Some(first) = lists.cols.get(0) {
            let number = number_of(components, *first);
            if !have_number(components, lists.cols.as_slice(), number) {
                return false;
            }
        }
    }
    components.count as usize == wanted.len()
}

/// Whether the columns of a part that is not square have no number.
fn have_none(
    alloc: Global,
    worked: &Worked<'_>,
    word: &str,
    components: &StrongComponents,
) -> Result<bool, Fail> {
    let part = worked.lists(alloc, word)?;
    Ok(have_number(components, part.cols.as_slice(), Some(u32::MAX)))
}

/// Whether all columns have these numbers, which count from 1, with 0 for none.
fn are_numbers(found: &[u32], numbers: &[u32]) -> bool {
    if found.len() != numbers.len() {
        return false;
    }
    for at in 0..found.len() {
        if found[at] != numbers[at].wrapping_sub(1) {
            return false;
        }
    }
    true
}

/// Whether the numbers are those of the table, where there is one way to number the components.
fn has_numbers(
    alloc: Global,
    worked: &Worked<'_>,
    components: &StrongComponents,
) -> Result<bool, Fail> {
    if worked.find("components").is_none() {
        return Ok(true);
    }
    let numbers = worked.numbers(alloc, "components")?;
    Ok(are_numbers(components.of_cols.as_slice(), numbers.as_slice()))
}

/// Whether the components are right.
fn has_components(
    alloc: Global,
    worked: &Worked<'_>,
    pattern: &Pattern,
    matching: &Matching,
    parts: &Parts,
) -> Result<bool, Fail>
    requires maximum { IsMaximumOf pattern.now matching.now }
    requires parts { HasParts pattern.now parts.now }
{
    let wanted = blocks_of(alloc, worked)?;
    let components = strong_components(alloc, PatternColumns { pattern }, matching, parts)?;
    Ok(
        are_components(&components, wanted.as_slice())
            && have_none(alloc, worked, "horizontal", &components)?
            && have_none(alloc, worked, "vertical", &components)?
            && has_numbers(alloc, worked, &components)?,
    )
}

/// Whether the fine blocks are right.
pub(crate) fn has_fine_blocks(
    alloc: Global,
    worked: &Worked<'_>,
    pattern: &Pattern,
    matching: &Matching,
    parts: &Parts,
) -> Result<bool, Fail>
    requires maximum { IsMaximumOf pattern.now matching.now }
    requires parts { HasParts pattern.now parts.now }
{
    let wanted = blocks_of(alloc, worked)?;
    let blocks = fine(alloc, pattern, matching, parts)?;
    Ok(are_blocks(&blocks, wanted.as_slice()))
}

/// Whether the parts, the components and the blocks are right, from a maximum matching.
fn is_decomposed<R: AllocGlobal + Threads + Sync>(
    rt: &R,
    worked: &Worked<'_>,
    pattern: &Pattern,
    matching: &Matching,
) -> Result<bool, Fail>
    requires { IsMaximumOf pattern.now matching.now }
{
    let parts = coarse(rt, rt.alloc(), pattern, matching)?;
    Ok(
        has_parts(rt.alloc(), worked, &parts)?
            && has_components(rt.alloc(), worked, pattern, matching, &parts)?
            && has_fine_blocks(rt.alloc(), worked, pattern, matching, &parts)?,
    )
}

/// The same, from the matching of the plain engine.
fn is_right<R: AllocGlobal + Threads + Sync>(rt: &R, worked: &Worked<'_>) -> Result<bool, Fail> {
    let pattern = pattern_from(rt, worked, false)?;
    let (matching, _columns) = plain(rt.alloc(), &pattern)?;
    is_decomposed(rt, worked, &pattern, &matching)
}

#[test]
fn parts_components_and_blocks(rt: HostRuntime) -> Result<(), Fail> {
    let matrices = worked_matrices(rt.alloc())?;
    assert!(rt; matrices.len() == 37);
    for worked in &matrices {
        assert!(rt; is_right(&rt, worked)?, "{}", worked.name());
    }
    Ok(())
}

/// Whether there are parts from a matching that is as long as the rank, and none from a shorter one.
fn has_parts_if_maximum<R: AllocGlobal + Threads + Sync>(
    rt: &R,
    worked: &Worked<'_>,
    pattern: &Pattern,
    matching: &Matching,
) -> Result<bool, Fail>
    requires { IsMatchingOf pattern.now matching.now }
{
    let maximum = matching.size() == worked.rank(rt.alloc())?;
    match coarse_if_maximum(rt, rt.alloc(), pattern, matching)? {
        Some(parts) => Ok(maximum && has_parts(rt.alloc(), worked, &parts)?),
        None => Ok(!maximum),
    }
}

/// The same from the matching of these pairs.
fn has_parts_from<R: AllocGlobal + Threads + Sync>(
    rt: &R,
    worked: &Worked<'_>,
    pattern: &Pattern,
    pairs: &[(u32, u32)],
) -> Result<bool, Fail> {
    let matching = matching_of(rt.alloc(), pattern, pairs)?;
    has_parts_if_maximum(rt, worked, pattern, &matching)
}

/// The same from the matching of a line.
fn has_parts_from_line<R: AllocGlobal + Threads + Sync>(
    rt: &R,
    worked: &Worked<'_>,
    pattern: &Pattern,
    text: &str,
) -> Result<bool, Fail> {
    let (pairs, _sure) = text.split_once('|').ok_or("no bar")?;
    let pairs = pairs_in(rt.alloc(), pairs)?;
    has_parts_from(rt, worked, pattern, pairs.as_slice())
}

/// The same from the matchings of an example.
fn has_parts_from_given<R: AllocGlobal + Threads + Sync>(
    rt: &R,
    worked: &Worked<'_>,
    pattern: &Pattern,
) -> Result<bool, Fail> {
    for line in worked.lines.split('\n') {
        if let Some(text) = line.strip_prefix("from:") {
            if !has_parts_from_line(rt, worked, pattern, text)? {
                return Ok(false);
            }
        }
    }
    Ok(true)
}

/// The same from the start.
fn has_parts_from_start<R: AllocGlobal + Threads + Sync>(
    rt: &R,
    worked: &Worked<'_>,
    pattern: &Pattern,
) -> Result<bool, Fail> {
    let started = start(rt.alloc(), pattern)?;
    has_parts_if_maximum(rt, worked, pattern, &started)
}

/// The same from no pairs, from the start and from the matchings of an example.
fn has_parts_from_each<R: AllocGlobal + Threads + Sync>(
    rt: &R,
    worked: &Worked<'_>,
) -> Result<bool, Fail> {
    let pattern = pattern_from(rt, worked, false)?;
    Ok(
        has_parts_from(rt, worked, &pattern, &[])?
            && has_parts_from_start(rt, worked, &pattern)?
            && has_parts_from_given(rt, worked, &pattern)?,
    )
}

#[test]
fn parts_from_maximum_matchings_alone(rt: HostRuntime) -> Result<(), Fail> {
    for worked in &worked_matrices(rt.alloc())? {
        assert!(rt; has_parts_from_each(&rt, worked)?, "{}", worked.name());
    }
    Ok(())
}
