//! Maximum matchings of compressed columns and rows.

ghost use Rattle.std.specs.Prelude.{◌≡◌, IfOk, IfSome};
ghost use Rattle.bip_defs.specs.Marks.{Marks};
ghost use Rattle.bip_defs.specs.Parts.{IsHorizontalRow};
ghost use Rattle.bip_graph.specs.Matching.{IsMatchingOf, IsMaximumOf};
ghost use Rattle.bip_graph.specs.OuterMarks.{AreOuterMarks};
ghost use Rattle.blocktri.specs.Compressed.{AreCompressed, listed, matrix_given};
ghost use Rattle.blocktri.specs.Looks.{IsColumnSearch, IsLook};

use crate::compressed::Compressed;
use crate::first_look::{Look, first_look};
use crate::rising_columns::{RisingColumns, are_rising};
use bip_graph::{Matching, Opposite, OuterMarks, matchings_of_the_transpose};
use breadth_first_match::{complete_from_with_marks, complete_with_marks};
use karp_sipser::start;
use pothen_fan::phase_from;
use sp_ids::OutOfMemory;
use sp_pattern::{FromRows, NumberList, Pattern, Side};
use std::alloc::Global;

/// What a search over the columns alone comes to.
#[derive(Drop)]
pub enum ColumnSearch {
    /// A maximum matching, and what the last phase has marked.
    Found(Matching, Option<OuterMarks>),
    /// None. A search over the pattern goes on from this look, or without one it begins anew.
    NotFound(Option<Look>),
}

/// A maximum matching of the matrix whose compressed columns the lists are. Where the first look
/// finds one, no column is copied, and where searches from rising columns go on to the end, no
/// pattern is made.
pub fn maximum_matching<N: NumberList>(
    alloc: Global,
    matrix: &Compressed<N>,
) -> Result<Matching, OutOfMemory>
    requires { AreCompressed matrix.now }
    ensures { IfOk result (IsMaximumOf (listed matrix.now)) }
{
    match search_columns(alloc, matrix)? {
        ColumnSearch::Found(matching, _marks) => Ok(matching),
        ColumnSearch::NotFound(look) => {
            let pattern = matrix.listed(alloc)?;
            let (matching, _marks) = search_pattern(alloc, &pattern, look)?;
            Ok(matching)
        }
    }
}

/// The first look at the columns, and where that finds no maximum matching and the row numbers of
/// each column rise, searches over a copy of them, as far as these pay.
///
/// Returns `OutOfMemory` if it cannot allocate what the look takes, 4 bytes a number and 4 a column
/// for the copy, and what the searches take.
pub fn search_columns<N: NumberList>(
    alloc: Global,
    matrix: &Compressed<N>,
) -> Result<ColumnSearch, OutOfMemory>
    requires { AreCompressed matrix.now }
    ensures { IfOk result (IsColumnSearch (listed matrix.now)) }
{
    let (rows, starts, ids) = (matrix.others as u32, matrix.starts, matrix.ids);
    match first_look(alloc, rows, starts, ids)? {
        Look::Maximum(matching) => Ok(ColumnSearch::Found(matching, None)),
        Look::FromRows(matching, unmatched) => {
            Ok(ColumnSearch::NotFound(Some(Look::FromRows(matching, unmatched))))
        }
        Look::FromColumns(matching, unmatched) => {
            if !are_rising(starts, ids) {
                let look = Look::FromColumns(matching, unmatched);
                return Ok(ColumnSearch::NotFound(Some(look)));
            }
            let columns = RisingColumns::copy(alloc, rows, starts, ids)?;
            match search_on(alloc, &columns, matching, unmatched)? {
                None => Ok(ColumnSearch::NotFound(None)),
                Some((maximum, marked)) => {
                    let marks = marked.map(OuterMarks::HorizontalRows);
                    Ok(ColumnSearch::Found(maximum, marks))
                }
            }
        }
    }
}

/// A maximum matching from a look at the columns, or without one from the start of Karp and Sipser,
/// and what the last phase has marked.
pub fn search_pattern(
    alloc: Global,
    pattern: &Pattern,
    look: Option<Look>,
) -> Result<(Matching, Option<OuterMarks>), OutOfMemory>
    requires { IfSome look (IsLook pattern.now) }
    ensures maximum { IfOk result (λ p. IsMaximumOf pattern.now p.0) }
    ensures marks { IfOk result (λ p. IfSome p.1 (AreOuterMarks pattern.now)) }
{
    match look {
        Some(look) => searched(alloc, pattern, look),
        None => search_anew(alloc, pattern),
    }
}

/// The pattern, and a maximum matching for who looks for the least one: the first look's where that
/// is maximum, and else one by phases from the start of Karp and Sipser. Their paths are short, so
/// fewer exchanges lead from it to the least one than where the phases begin at the first look.
pub fn matched_for_the_least<N: NumberList>(
    alloc: Global,
    matrix: &Compressed<N>,
) -> Result<(Pattern, Matching), OutOfMemory>
    requires { AreCompressed matrix.now }
    ensures pattern { IfOk result (λ p. p.0 ≡ matrix_given matrix.now) }
    ensures maximum { IfOk result (λ p. IsMaximumOf (matrix_given matrix.now) p.1) }
{
    let pattern = matrix.pattern(alloc)?;
    if !matrix.by_rows {
        let look = first_look(alloc, matrix.others as u32, matrix.starts, matrix.ids)?;
        if let Look::Maximum(matching) = look {
            return Ok((pattern, matching));
        }
    }
    let (matching, _marks) = search_anew(alloc, &pattern)?;
    Ok((pattern, matching))
}

// A maximum matching, from what a look at the columns found, or from the start of Karp and Sipser
// where searches from there do not go on, and what the last phase has marked.
fn searched(
    alloc: Global,
    pattern: &Pattern,
    look: Look,
) -> Result<(Matching, Option<OuterMarks>), OutOfMemory>
    requires { IsLook pattern.now look }
    ensures maximum { IfOk result (λ p. IsMaximumOf pattern.now p.0) }
    ensures marks { IfOk result (λ p. IfSome p.1 (AreOuterMarks pattern.now)) }
{
    let found = match look {
        Look::Maximum(matching) => Some((matching, None)),
        Look::FromColumns(matching, unmatched) => {
            from_columns(alloc, pattern, matching, unmatched)?
        }
        Look::FromRows(matching, unmatched) => from_rows(alloc, pattern, matching, unmatched)?,
    };
    match found {
        Some((matching, marks)) => Ok((matching, marks)),
        None => search_anew(alloc, pattern),
    }
}

// As `search_on`, from the columns.
fn from_columns(
    alloc: Global,
    pattern: &Pattern,
    matching: Matching,
    unmatched: u32,
) -> Result<Option<(Matching, Option<OuterMarks>)>, OutOfMemory>
    requires { IsMatchingOf pattern.now matching }
    ensures maximum { IfOk result (λ found. IfSome found (λ p. IsMaximumOf pattern.now p.0)) }
    ensures marks { IfOk result (λ found. IfSome found
        (λ p. IfSome p.1 (AreOuterMarks pattern.now))) }
{
    let Some((maximum, marked)) = search_on(alloc, pattern, matching, unmatched)? else {
        return Ok(None);
    };
    let marks = marked.map(OuterMarks::HorizontalRows);
    Ok(Some((maximum, marks)))
}

// As `search_on`, from the rows.
fn from_rows(
    alloc: Global,
    pattern: &Pattern,
    matching: Matching,
    unmatched: u32,
) -> Result<Option<(Matching, Option<OuterMarks>)>, OutOfMemory>
    requires { IsMatchingOf pattern.now matching }
    ensures maximum { IfOk result (λ found. IfSome found (λ p. IsMaximumOf pattern.now p.0)) }
    ensures marks { IfOk result (λ found. IfSome found
        (λ p. IfSome p.1 (AreOuterMarks pattern.now))) }
{
    matchings_of_the_transpose();
    let side = FromRows { pattern };
    let Some((maximum, marked)) = search_on(alloc, &side, matching, unmatched)? else {
        return Ok(None);
    };
    // The horizontal rows of the transpose are the vertical columns.
    let marks = marked.map(OuterMarks::VerticalCols);
    Ok(Some((maximum, marks)))
}

// A maximum matching, by phases from one side that begin at a matching which leaves so many
// unmatched there, and which rows are horizontal, as the side sees them, where there were more
// phases than one. None where the first phase does not make it likely that they end soon.
fn search_on<F: Opposite, S: Side<F>>(
    alloc: Global,
    side: &S,
    matching: Matching,
    unmatched: u32,
) -> Result<Option<(Matching, Option<Vec<bool>>)>, OutOfMemory>
    requires { IsMatchingOf (S.matrix side.now) (F.seen matching) }
    ensures maximum { IfOk result
        (λ found. IfSome found (λ p. IsMaximumOf (S.matrix side.now) (F.seen p.0))) }
    ensures marks { IfOk result (λ found. IfSome found (λ p. IfSome p.1 (λ marks.
        Marks (S.matrix side.now).rows (IsHorizontalRow (S.matrix side.now)) marks.items))) }
{
    let mut grown = matching;
    let growth = phase_from(alloc, side, &mut grown)?;
    if growth == 0 {
        return Ok(Some((grown, None)));
    }
    if !pays(growth, unmatched) {
        return Ok(None);
    }
    let (maximum, marks) = complete_from_with_marks(alloc, side, grown)?;
    Ok(Some((maximum, Some(marks))))
}

// Whether it pays to go on after a first phase: where it has matched most of what was unmatched, or
// so few that most of them are likely to be unmatched in the end.
fn pays(growth: u32, unmatched: u32) -> bool {
    growth >= unmatched - unmatched / 4 || growth <= unmatched / 4
}

/// A maximum matching, from the start of Karp and Sipser, and what the last phase has marked.
pub fn search_anew(
    alloc: Global,
    pattern: &Pattern,
) -> Result<(Matching, Option<OuterMarks>), OutOfMemory>
    ensures maximum { IfOk result (λ p. IsMaximumOf pattern.now p.0) }
    ensures marks { IfOk result (λ p. IfSome p.1 (AreOuterMarks pattern.now)) }
{
    let (maximum, marks) = complete_with_marks(alloc, pattern, start(alloc, pattern)?)?;
    Ok((maximum, Some(marks)))
}
