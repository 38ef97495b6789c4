//! The columns of a session as a pattern.

ghost use Rattle.std.specs.Prelude.{◌≡◌, ◌+◌, ◌<◌, ◌^◌, ◌++◌, ℕ, length, IfOk, OnOk};
ghost use Rattle.bip_defs.specs.Lists.{Among};
ghost use Rattle.bip_defs.specs.Matrix.{HasPlaces};
ghost use Rattle.edit_session.specs.Columns.{column_places};
ghost use Rattle.sp_ids.specs.Entries.{places};
ghost use Rattle.sp_ids.specs.declared.triples.Field.TheVariants as fields;

use crate::columns::Columns;
use sp_ids::{Col, Field, OutOfMemory, Row, Triples};
use sp_pattern::{Neighbours, Pattern};
use std::alloc::Global;
use std::thread::Threads;

/// The matrix of the columns, kept by columns and by rows.
///
/// Returns `OutOfMemory` if it cannot allocate 8 bytes an entry beside the pattern, or what
/// [`Pattern::build`] takes. Work: linear in the entries, the rows and the columns.
pub fn pattern_of<R: Threads + Sync>(
    rt: &R,
    alloc: Global,
    columns: &Columns,
) -> Result<Pattern, OutOfMemory>
    ensures { IfOk result (λ p. p ≡ columns.now.matrix) }
{
    let triples = triples_of(alloc, columns)?;
    Pattern::build(rt, alloc, &triples)
}

// The entries, column by column.
fn triples_of(alloc: Global, columns: &Columns) -> Result<Triples, OutOfMemory>
    ensures { IfOk result
        (λ t. HasPlaces t.rows t.cols (places t) columns.now.matrix) }
{
    let mut triples = Triples::new(alloc, columns.rows(), columns.cols(), Field::Pattern)?;
    for col in 0..columns.cols() {
        push_column(&mut triples, columns.rows_of(Col(col)), Col(col))?;
    }
    Ok(triples)
}

// Adds the entries of a column.
fn push_column(triples: &mut Triples, rows: &[Row], col: Col) -> Result<(), OutOfMemory>
    requires rows { (r : ℕ) → Among r rows.now → r < triples.old.rows }
    requires col { col < triples.old.cols }
    requires field { triples.old.field ≡ fields.Pattern }
    requires few { length triples.old.items + length rows.now < 2 ^ 32 }
    ensures rows { triples.new.rows ≡ triples.old.rows }
    ensures cols { triples.new.cols ≡ triples.old.cols }
    ensures field { triples.new.field ≡ triples.old.field }
    ensures places { OnOk result
        (places triples.new ≡ places triples.old ++ column_places col rows.now) }
{
    for row in rows {
        triples.push(*row, col, 0)?;
    }
    Ok(())
}
