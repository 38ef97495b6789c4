//! The judges of lines: the first kind of fault that applies, or what the line says.

ghost use Rattle.std.specs.Prelude.{◌≡◌, ℕ, ◌≤◌, ◌<◌, ◌&&◌, not, pos, nat_abs, true, false, if◌then◌else◌, List, IfOk};
ghost use Rattle.mm_defs.specs.declared.header.Size.{Size};
ghost use Rattle.mm_defs.specs.Numbers.{integer};
ghost use Rattle.sp_ids.specs.Limits.{max_cols, max_rows};
ghost use Rattle.mm_defs.specs.Arrays.{value_count};
ghost use Rattle.mm_defs.specs.Words.{Word, word, words};
ghost use Rattle.mm_defs.specs.Header.{fields, formats, symmetries, named, may_combine, is_array, is_integer_field, is_general, value_words, header, size_words, size};
ghost use Rattle.mm_defs.specs.Faults.{banner_rules, extent_rules, count_rules, size_limits, size_rules, place_rules, value_rules, triangle_rules, coordinate_rules, array_rules};
ghost use Rattle.mm_defs.specs.File.{triple, triple_at};
ghost use Rattle.mm_lines.specs.Tokens.{capped, ReadsInteger};
ghost use Rattle.mm_lines.specs.Lines.{IsLine};
ghost use Rattle.mm_reader.specs.Judged.{Fits, Judged, JudgedEntry, JudgedPlace, Passes, IsHeader, IsWithin, range_rules};

use crate::array::value_count;
use mm_defs::{Format, Header, Kind, Size, Symmetry};
use mm_lines::{Integer, LineSoFar};
use sp_ids::{Col, Field, MAX_COLS, MAX_ENTRY_LINES, MAX_ROWS, MAX_VALUE, Row};

/// An entry line's place, counted from 0, and its value.
#[derive(Clone, Copy, Debug, PartialEq, Eq)]
pub struct Entry {
    pub row: Row,
    pub col: Col,
    pub value: i64,
}

/// Judges line 1.
pub fn judge_banner(line: &LineSoFar) -> Result<Header, Kind>
    ensures judged { (bytes : List ℕ) → IsLine line.now bytes
        → Judged (banner_rules (words bytes)) (header (words bytes)) result }
    ensures header { IfOk result IsHeader }
{
    if !line.is(0, b"%%MatrixMarket") {
        return Err(Kind::NoBanner);
    }
    if !line.has_words(5) {
        return Err(Kind::HeaderWords);
    }
    if !line.spells(1, b"matrix") {
        return Err(Kind::Object);
    }
    let format = match format(line) {
        None => return Err(Kind::Format),
        Some(format) => format,
    };
    let field = match field(line) {
        None => return Err(Kind::Field),
        Some(field) => field,
    };
    let symmetry = match symmetry(line) {
        None => return Err(Kind::Symmetry),
        Some(symmetry) => symmetry,
    };
    if lacks_integers(format, field) {
        return Err(Kind::ArrayField);
    }
    if !may_combine(field, symmetry) {
        return Err(Kind::Combination);
    }
    Ok(Header {
        format,
        field,
        symmetry,
    })
}

/// The format that the third word names.
fn format(line: &LineSoFar) -> Option<Format>
    ensures { (bytes : List ℕ) → IsLine line.now bytes
        → result ≡ named formats (word (words bytes) 2) }
{
    if line.spells(2, b"coordinate") {
        Some(Format::Coordinate)
    } else if line.spells(2, b"array") {
        Some(Format::Array)
    } else {
        None
    }
}

/// The field that the fourth word names.
fn field(line: &LineSoFar) -> Option<Field>
    ensures { (bytes : List ℕ) → IsLine line.now bytes
        → result ≡ named fields (word (words bytes) 3) }
{
    if line.spells(3, b"real") {
        Some(Field::Real)
    } else if line.spells(3, b"complex") {
        Some(Field::Complex)
    } else if line.spells(3, b"integer") {
        Some(Field::Integer)
    } else if line.spells(3, b"pattern") {
        Some(Field::Pattern)
    } else {
        None
    }
}

/// The symmetry that the fifth word names.
fn symmetry(line: &LineSoFar) -> Option<Symmetry>
    ensures { (bytes : List ℕ) → IsLine line.now bytes
        → result ≡ named symmetries (word (words bytes) 4) }
{
    if line.spells(4, b"general") {
        Some(Symmetry::General)
    } else if line.spells(4, b"symmetric") {
        Some(Symmetry::Symmetric)
    } else if line.spells(4, b"skew-symmetric") {
        Some(Symmetry::SkewSymmetric)
    } else if line.spells(4, b"hermitian") {
        Some(Symmetry::Hermitian)
    } else {
        None
    }
}

/// Whether the format is that of array files, and the field is not integer.
fn lacks_integers(format: Format, field: Field) -> bool
    ensures { result ≡ (is_array format && not (is_integer_field field)) }
{
    match format {
        Format::Coordinate => false,
        Format::Array => match field {
            Field::Integer => false,
            Field::Real | Field::Complex | Field::Pattern => true,
        },
    }
}

/// Whether files of this field may have this symmetry.
fn may_combine(field: Field, symmetry: Symmetry) -> bool
    ensures { result ≡ may_combine field symmetry }
{
    match symmetry {
        Symmetry::General | Symmetry::Symmetric => true,
        Symmetry::SkewSymmetric => match field {
            Field::Real | Field::Complex | Field::Integer => true,
            Field::Pattern => false,
        },
        Symmetry::Hermitian => match field {
            Field::Complex => true,
            Field::Real | Field::Integer | Field::Pattern => false,
        },
    }
}

/// Judges the size line.
pub fn judge_size(header: Header, line: &LineSoFar) -> Result<Size, Kind>
    ensures judged { (bytes : List ℕ) → IsLine line.now bytes
        → Judged (size_rules header (words bytes)) (size header (words bytes)) result }
    ensures within { IfOk result (IsWithin header) }
{
    if !line.has_words(size_words(header.format)) {
        return Err(Kind::SizeWords);
    }
    let rows = match line.number(0) {
        None => return Err(Kind::SizeNumber),
        Some(rows) => rows,
    };
    let cols = match line.number(1) {
        None => return Err(Kind::SizeNumber),
        Some(cols) => cols,
    };
    match header.format {
        Format::Coordinate => match line.number(2) {
            None => Err(Kind::SizeNumber),
            Some(count) => judge_entries(header, rows, cols, count),
        },
        Format::Array => judge_values(header, rows, cols),
    }
}

/// How many words a size line has.
fn size_words(format: Format) -> usize
    ensures words { result ≡ size_words format }
    ensures few { result ≤ 3 }
{
    match format {
        Format::Coordinate => 3,
        Format::Array => 2,
    }
}

/// Judges the numbers of a coordinate file's size line, of which the greatest stands for all that
/// do not fit.
fn judge_entries(header: Header, rows: u64, cols: u64, count: u64) -> Result<Size, Kind>
    requires { header.format ≡ Format.Coordinate }
    ensures judged { (s : Size) → rows ≡ capped s.rows → cols ≡ capped s.cols
        → count ≡ capped s.count → Judged (size_limits header s) s result }
    ensures within { IfOk result (IsWithin header) }
{
    match extent(rows, cols) {
        Err(kind) => Err(kind),
        Ok((rows, cols)) => judge_count(header, rows, cols, count),
    }
}

/// Judges the two numbers of an array file's size line.
fn judge_values(header: Header, rows: u64, cols: u64) -> Result<Size, Kind>
    requires { header.format ≡ Format.Array }
    ensures judged { (s : Size) → rows ≡ capped s.rows → cols ≡ capped s.cols
        → s.count ≡ value_count header.symmetry s.rows s.cols
        → Judged (size_limits header s) s result }
    ensures within { IfOk result (IsWithin header) }
{
    match extent(rows, cols) {
        Err(kind) => Err(kind),
        Ok((rows, cols)) => {
            judge_count(header, rows, cols, value_count(header.symmetry, rows, cols))
        }
    }
}

/// Judges how many rows and columns there are.
fn extent(rows: u64, cols: u64) -> Result<(u32, u32), Kind>
    ensures judged { (m n : ℕ) → rows ≡ capped m → cols ≡ capped n
        → Judged (extent_rules m n) (m, n) result }
    ensures rows { IfOk result (λ x. x.0 ≤ max_rows) }
    ensures cols { IfOk result (λ x. x.1 ≤ max_cols) }
{
    if rows > u64::from(MAX_ROWS) {
        return Err(Kind::Rows);
    }
    if cols > u64::from(MAX_COLS) {
        return Err(Kind::Columns);
    }
    Ok((rows as u32, cols as u32))
}

/// Whether every entry has a line of its own.
fn is_general(symmetry: Symmetry) -> bool
    ensures { result ≡ is_general symmetry }
{
    match symmetry {
        Symmetry::General => true,
        Symmetry::Symmetric | Symmetry::SkewSymmetric | Symmetry::Hermitian => false,
    }
}

/// Judges how many lines follow, and whether the matrix is square where it has to be.
fn judge_count(header: Header, rows: u32, cols: u32, count: u64) -> Result<Size, Kind>
    requires rows { rows ≤ max_rows }
    requires cols { cols ≤ max_cols }
    requires values { is_array header.format ≡ true
        → count ≡ value_count header.symmetry rows cols }
    ensures judged { (s : Size) → rows ≡ s.rows → cols ≡ s.cols → count ≡ capped s.count
        → Judged (count_rules header s) s result }
    ensures within { IfOk result (IsWithin header) }
{
    if count > u64::from(MAX_ENTRY_LINES) {
        return Err(Kind::Entries);
    }
    if !is_general(header.symmetry) {
        if rows != cols {
            return Err(Kind::NotSquare);
        }
    }
    Ok(Size {
        rows,
        cols,
        count: count as u32,
    })
}

/// Judges an entry line.
pub fn judge_entry(header: Header, size: Size, line: &LineSoFar) -> Result<Entry, Kind>
    requires { IsWithin header size }
    ensures judged { (bytes : List ℕ) → IsLine line.now bytes
        → JudgedEntry (coordinate_rules header size (words bytes)) (triple header (words bytes))
        result }
    ensures fits { IfOk result (Fits header size) }
{
    if !line.has_words(2 + value_words(header.field)) {
        return Err(Kind::EntryWords);
    }
    let row = match line.number(0) {
        None => return Err(Kind::RowNumber),
        Some(row) => row,
    };
    let col = match line.number(1) {
        None => return Err(Kind::ColumnNumber),
        Some(col) => col,
    };
    judge_place(header, size, row, col, line.integer(2))
}

/// How many value words an entry line has.
fn value_words(field: Field) -> usize
    ensures words { result ≡ value_words field }
    ensures few { result ≤ 2 }
{
    match field {
        Field::Real | Field::Integer => 1,
        Field::Complex => 2,
        Field::Pattern => 0,
    }
}

/// Judges what an entry line says: its row and column, counted from 1, of which the greatest number
/// stands for all that do not fit, and its value, if it is an integer.
pub fn judge_place(
    header: Header,
    size: Size,
    row: u64,
    col: u64,
    value: Option<Integer>,
) -> Result<Entry, Kind>
    requires { IsWithin header size }
    ensures judged { (i j : ℕ) (w : Word) → row ≡ capped i → col ≡ capped j
        → (is_integer_field header.field ≡ true → ReadsInteger w value)
        → JudgedEntry (place_rules header size i j w) (triple_at header.field i j w) result }
    ensures fits { IfOk result (Fits header size) }
{
    let (row_id, col_id) = place_within(size.rows, size.cols, row, col)?;
    let value = value_of(header.field, value)?;
    if let Some(kind) = triangle(header.symmetry, row, col) {
        return Err(kind);
    }
    Ok(Entry {
        row: row_id,
        col: col_id,
        value,
    })
}

/// Judges whether a row and a column are in a matrix of so many rows and columns: `RowRange` or
/// `ColumnRange`, or both counted from 0. They are given counted from 1, and there the greatest
/// number stands for all that do not fit.
#[inline(always)]
pub fn place_within(rows: u32, cols: u32, row: u64, col: u64) -> Result<(Row, Col), Kind>
    ensures judged { (i j : ℕ) → row ≡ capped i → col ≡ capped j
        → JudgedPlace (range_rules rows cols i j) i j result }
    ensures within { IfOk result (λ p. (p.0 < rows) × (p.1 < cols)) }
{
    if row == 0 {
        return Err(Kind::RowRange);
    }
    if row > u64::from(rows) {
        return Err(Kind::RowRange);
    }
    if col == 0 {
        return Err(Kind::ColumnRange);
    }
    if col > u64::from(cols) {
        return Err(Kind::ColumnRange);
    }
    Ok((Row((row - 1) as u32), Col((col - 1) as u32)))
}

/// Judges the value, which is 0 where the field is not integer.
fn value_of(field: Field, value: Option<Integer>) -> Result<i64, Kind>
    ensures judged { (w : Word) → (is_integer_field field ≡ true → ReadsInteger w value)
        → Judged (value_rules field w)
        (if is_integer_field field then integer w else pos 0) result }
    ensures none { IfOk result (λ v. is_integer_field field ≡ false → v ≡ pos 0) }
    ensures small { IfOk result (λ v. nat_abs v ≤ MAX_VALUE) }
{
    match field {
        Field::Integer => judge_integer(value),
        Field::Real | Field::Complex | Field::Pattern => Ok(0),
    }
}

/// Judges a value line of an array file, whose field is integer.
pub fn judge_value(header: Header, line: &LineSoFar) -> Result<i64, Kind>
    requires { header.field ≡ Field.Integer }
    ensures judged { (bytes : List ℕ) → IsLine line.now bytes
        → Judged (array_rules header (words bytes)) (integer (word (words bytes) 0)) result }
    ensures small { IfOk result (λ v. nat_abs v ≤ MAX_VALUE) }
{
    if !line.has_words(1) {
        return Err(Kind::EntryWords);
    }
    judge_integer(line.integer(0))
}

/// Judges the value of an integer file.
pub fn judge_integer(value: Option<Integer>) -> Result<i64, Kind>
    ensures judged { (w : Word) → ReadsInteger w value
        → Judged (value_rules Field.Integer w) (integer w) result }
    ensures small { IfOk result (λ v. nat_abs v ≤ MAX_VALUE) }
{
    let Integer { minus, magnitude } = match value {
        None => return Err(Kind::ValueNumber),
        Some(value) => value,
    };
    if magnitude > MAX_VALUE {
        return Err(Kind::Value);
    }
    if minus {
        return Ok(-(magnitude as i64));
    }
    Ok(magnitude as i64)
}

/// The kind, if a place is in the part of the matrix that other entries tell.
fn triangle(symmetry: Symmetry, row: u64, col: u64) -> Option<Kind>
    ensures { (i j : ℕ) → row ≡ i → col ≡ j → Passes (triangle_rules symmetry i j) result }
{
    match symmetry {
        Symmetry::General => None,
        Symmetry::SkewSymmetric => {
            if row < col {
                Some(Kind::UpperEntry)
            } else if row == col {
                Some(Kind::DiagonalEntry)
            } else {
                None
            }
        }
        Symmetry::Symmetric | Symmetry::Hermitian => {
            if row < col {
                Some(Kind::UpperEntry)
            } else {
                None
            }
        }
    }
}
