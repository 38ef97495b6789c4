//! The judge of edit lines: the first kind of fault that applies, or what the line says.

ghost use Rattle.std.specs.Prelude.{◌≡◌, ◌<◌, ℕ, List, IfErr, IfOk, true};
ghost use Rattle.mm_defs.specs.Words.{word, words};
ghost use Rattle.mm_defs.specs.Numbers.{number};
ghost use Rattle.mm_lines.specs.Lines.{IsLine};
ghost use Rattle.mm_defs.specs.EditLines.{edit_place_rules, edit_rules};
ghost use Rattle.mm_frames.specs.Edits.{edit, is_edit_kind, IsWithinMatrix};
ghost use Rattle.mm_reader.specs.Judged.{JudgedPlace};
ghost use Rattle.mm_frames.specs.Judged.{JudgedEdit};

use crate::edit::Edit;
use mm_defs::Kind;
use mm_reader::{LineSoFar, place_within};
use sp_ids::{Col, MAX_EDITS, Row};

/// How many rows and columns a matrix has.
#[derive(Clone, Copy)]
pub struct Extent {
    pub rows: u32,
    pub cols: u32,
}

/// Judges an edit line behind so many, of a matrix of this extent.
pub fn judge_edit(before: usize, extent: Extent, line: &LineSoFar) -> Result<Edit, Kind>
    ensures judged { (bytes : List ℕ) → IsLine line.now bytes
        → JudgedEdit (edit_rules extent.rows extent.cols before (words bytes)) (edit (words bytes))
        result }
    ensures kind { IfErr result (λ kind. is_edit_kind kind ≡ true) }
    ensures within { IfOk result (IsWithinMatrix extent.rows extent.cols) }
{
    if before >= MAX_EDITS as usize {
        return Err(Kind::Edits);
    }
    if line.is(0, b"report") {
        if !line.has_words(1) {
            return Err(Kind::EditWords);
        }
        return Ok(Edit::Report);
    }
    let sets = line.is(0, b"set");
    if !sets {
        if !line.is(0, b"clear") {
            return Err(Kind::EditWord);
        }
    }
    if !line.has_words(3) {
        return Err(Kind::EditWords);
    }
    let (row, col) = judge_place(extent.rows, extent.cols, line)?;
    if sets {
        Ok(Edit::Set(row, col))
    } else {
        Ok(Edit::Clear(row, col))
    }
}

/// Judges the row and the column that the line tells.
fn judge_place(rows: u32, cols: u32, line: &LineSoFar) -> Result<(Row, Col), Kind>
    ensures judged { (bytes : List ℕ) → IsLine line.now bytes
        → JudgedPlace (edit_place_rules rows cols (words bytes)) (number (word (words bytes) 1))
        (number (word (words bytes) 2)) result }
    ensures kind { IfErr result (λ kind. is_edit_kind kind ≡ true) }
    ensures within { IfOk result (λ p. (p.0 < rows) × (p.1 < cols)) }
{
    let row = match line.number(1) {
        None => return Err(Kind::RowNumber),
        Some(row) => row,
    };
    let col = match line.number(2) {
        None => return Err(Kind::ColumnNumber),
        Some(col) => col,
    };
    place_within(rows, cols, row, col)
}
