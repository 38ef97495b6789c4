//! What is found of a matrix before anything is written: a maximum matching, the parts, the fine
//! blocks and the connected components of the outer parts, as far as they are wanted.

ghost use Rattle.std.specs.Prelude.{◌≡◌, ◌<◌, ◌^◌, IfOk, IfSome, false};
ghost use Rattle.bip_defs.specs.Matrix.{Matrix, cols};
ghost use Rattle.bip_graph.specs.Decompositions.{HasParts};
ghost use Rattle.bip_graph.specs.Matching.{IsMaximumOf, Pairing};
ghost use Rattle.bip_graph.specs.OuterMarks.{AreOuterMarks};
ghost use Rattle.blocktri.specs.Compressed.{AreCompressed, matrix_given};
ghost use Rattle.blocktri.specs.Diagonal.{KeepsDiagonal};
ghost use Rattle.blocktri.specs.Found.{AreOuterOf, IsFoundOf};
ghost use Rattle.blocktri.specs.Matched.{IsSearchOf};
ghost use Rattle.blocktri.specs.PerfectMatchings.{IsPerfectMatching};

use crate::compressed::Compressed;
use crate::forms::{BlockForm, form_of_parts, perfect_form, square_parts};
use crate::matched::{MatchedMatrix, SearchedMatrix, diagonal_matching, find_matching};
use crate::sizes::Wants;
use bip_graph::{Blocks, Components, Matching, OuterMarks, Parts};
use column_lists::PatternColumns;
use dm_coarse::{coarse_by_marks, coarse_in_turn, components};
use sp_ids::OutOfMemory;
use sp_pattern::{NumberList, Pattern};
use std::alloc::Global;

/// The parts, or the whole form.
#[derive(Drop)]
pub enum Decomposed {
    /// Without the fine blocks.
    Coarse(Parts),
    /// With the fine blocks.
    Fine(BlockForm),
}

/// What is found of a matrix.
#[derive(Drop)]
pub struct Found {
    pub matching: Matching,
    pub shape: Decomposed,
    pub outer: Option<Components>,
}

/// A maximum matching, the parts, and what else is wanted.
pub fn find<N: NumberList>(
    alloc: Global,
    matrix: &Compressed<N>,
    wants: Wants,
) -> Result<Found, OutOfMemory>
    requires { AreCompressed matrix.now }
    ensures { IfOk result (IsFoundOf (matrix_given matrix.now) wants) }
{
    match find_matching(alloc, matrix)? {
        MatchedMatrix::Diagonal(size) => {
            let matching = diagonal_matching(alloc, matrix, size)?;
            find_perfect(alloc, matrix, matching, wants)
        }
        MatchedMatrix::Perfect(matching) => find_perfect(alloc, matrix, matching, wants),
        MatchedMatrix::Searched(search) => find_searched(alloc, search, wants),
    }
}

// What is found from a perfect matching of compressed columns: there are no outer parts.
fn find_perfect<N: NumberList>(
    alloc: Global,
    matrix: &Compressed<N>,
    matching: Matching,
    wants: Wants,
) -> Result<Found, OutOfMemory>
    requires compressed { AreCompressed matrix.now }
    requires by_columns { matrix.now.by_rows ≡ false }
    requires perfect { IsPerfectMatching (matrix_given matrix.now) matching }
    requires diagonal { KeepsDiagonal (matrix_given matrix.now) matching.pairs }
    ensures { IfOk result (IsFoundOf (matrix_given matrix.now) wants) }
{
    let shape = if wants.blocks {
        Decomposed::Fine(perfect_form(alloc, matrix.given_columns(), &matching)?)
    } else {
        Decomposed::Coarse(square_parts(alloc, &matching)?)
    };
    let outer = no_outer(alloc, wants.components);
    Ok(Found {
        matching,
        shape,
        outer,
    })
}

// What is found from a maximum matching and the pattern.
fn find_searched(alloc: Global, search: SearchedMatrix, wants: Wants) -> Result<Found, OutOfMemory>
    requires { IsSearchOf search.pattern search }
    ensures { IfOk result (IsFoundOf search.pattern wants) }
{
    let SearchedMatrix {
        pattern,
        matching,
        marks,
    } = search;
    let parts = parts_of(alloc, &pattern, &matching, marks)?;
    let outer = outer_of(alloc, &pattern, &parts, wants.components)?;
    let shape = if wants.blocks {
        let columns = PatternColumns { pattern: &pattern };
        Decomposed::Fine(form_of_parts(alloc, columns, &matching, parts)?)
    } else {
        Decomposed::Coarse(parts)
    };
    Ok(Found {
        matching,
        shape,
        outer,
    })
}

// The parts, by what the last phase has marked where that is known.
fn parts_of(
    alloc: Global,
    pattern: &Pattern,
    matching: &Matching,
    marks: Option<OuterMarks>,
) -> Result<Parts, OutOfMemory>
    requires maximum { IsMaximumOf pattern.now matching.now }
    requires marks { IfSome marks (AreOuterMarks pattern.now) }
    ensures { IfOk result (HasParts pattern.now) }
{
    match marks {
        Some(marks) => coarse_by_marks(alloc, pattern, matching, &marks),
        None => coarse_in_turn(alloc, pattern, matching),
    }
}

// The components of the outer parts, where they are wanted.
fn outer_of(
    alloc: Global,
    pattern: &Pattern,
    parts: &Parts,
    is_wanted: bool,
) -> Result<Option<Components>, OutOfMemory>
    requires parts { HasParts pattern.now parts.now }
    requires few_rows { pattern.now.rows < 2 ^ 32 }
    requires few_columns { cols pattern.now < 2 ^ 32 }
    ensures { IfOk result (AreOuterOf pattern.now is_wanted) }
{
    if !is_wanted {
        return Ok(None);
    }
    let found = components(alloc, pattern, parts)?;
    Ok(Some(found))
}

// The same of a square matrix with a perfect matching, which has no outer parts.
fn no_outer(alloc: Global, is_wanted: bool) -> Option<Components>
    ensures { (a : Matrix) (m : Pairing) → IsPerfectMatching a m → AreOuterOf a is_wanted result }
{
    if !is_wanted {
        return None;
    }
    Some(Components {
        horizontal: Blocks::new(alloc),
        vertical: Blocks::new(alloc),
    })
}
