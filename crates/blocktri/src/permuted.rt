//! The permutations and the cuts of a decomposition in which a matching stands on the diagonal.

ghost use Rattle.std.specs.Prelude.{◌≡◌, ◌≢◌, ◌↔◌, ℕ, ◌+◌, ◌<◌, ◌≤◌, ◌^◌, IfOk, IsTrue, length};
ghost use Rattle.bip_defs.specs.Blocks.{all_rows};
ghost use Rattle.bip_defs.specs.Lists.{Among, IsRising};
ghost use Rattle.bip_defs.specs.Matching.{cols_of, rows_of};
ghost use Rattle.bip_defs.specs.Matrix.{Matrix, cols};
ghost use Rattle.blocktri.specs.Answers.{Fills};
ghost use Rattle.blocktri.specs.BlockForms.{decomposition_of};
ghost use Rattle.blocktri.specs.Compressed.{IsRoom};
ghost use Rattle.blocktri.specs.Dmperm.{Grows, IsColumnOrder, IsFormOf, IsPermutedOf, IsRowOrderOf, cuts_of};
ghost use Rattle.blocktri.specs.Written.{IsPut};

use crate::forms::BlockForm;
use crate::orders::lengths_add_up;
use crate::write::write_at;
use bip_graph::{Matching, orders_are_block_upper_triangular};
use sp_ids::{Col, OutOfMemory, Row};
use std::alloc::Global;

/// The orders of rows and columns, and where the parts and the blocks begin in them.
#[derive(Drop)]
pub struct Permuted {
    pub rows: Vec<Row>,
    pub columns: Vec<Col>,
    pub row_cuts: Vec<u32>,
    pub column_cuts: Vec<u32>,
}

/// The permutations and the cuts of a decomposition and a maximum matching.
pub fn permute(
    alloc: Global,
    form: &BlockForm,
    matching: &Matching,
) -> Result<Permuted, OutOfMemory>
    requires { (a : Matrix) × IsFormOf a form.now matching.now × (a.rows < 2 ^ 32)
        × (cols a < 2 ^ 32) }
    ensures { (a : Matrix) → IsFormOf a form.now matching.now
        → IfOk result (IsPermutedOf a (decomposition_of form.now) matching.now.pairs) }
{
    lengths_add_up(form);
    let columns = column_order(alloc, form, matching)?;
    let rows = row_order(alloc, form, matching, columns.as_slice())?;
    let row_cuts = cuts(alloc, form, form.parts.hr.len() as u32, form.m)?;
    let column_cuts = cuts(alloc, form, form.parts.hc.len() as u32, form.n)?;
    Ok(Permuted {
        rows,
        columns,
        row_cuts,
        column_cuts,
    })
}

/// Writes the permutations and the cuts, those of them that are wanted.
pub fn write_permuted(order: &Permuted, p: &mut [u32], q: &mut [u32], r: &mut [u32], s: &mut [u32])
    requires p { IsRoom (length order.now.rows.items) p.old }
    requires q { IsRoom (length order.now.columns.items) q.old }
    requires r { length r.old ≢ 0 → length order.now.row_cuts.items ≤ length r.old }
    requires s { length s.old ≢ 0 → length order.now.column_cuts.items ≤ length s.old }
    ensures p { Fills p.old p.new (p.new ≡ order.now.rows.items) }
    ensures q { Fills q.old q.new (q.new ≡ order.now.columns.items) }
    ensures r { Fills r.old r.new (IsPut 0 order.now.row_cuts.items r.old r.new) }
    ensures s { Fills s.old s.new (IsPut 0 order.now.column_cuts.items s.old s.new) }
{
    if p.len() != 0 {
        write_at(p, 0, order.rows.as_slice());
    }
    if q.len() != 0 {
        write_at(q, 0, order.columns.as_slice());
    }
    if r.len() != 0 {
        write_cuts(r, order.row_cuts.as_slice());
    }
    if s.len() != 0 {
        write_cuts(s, order.column_cuts.as_slice());
    }
}

// The columns without a row, the other horizontal ones, those of the blocks, and the vertical ones.
fn column_order(
    alloc: Global,
    form: &BlockForm,
    matching: &Matching,
) -> Result<Vec<Col>, OutOfMemory>
    requires { (a : Matrix) × IsFormOf a form.now matching.now }
    ensures { (a : Matrix) → IsFormOf a form.now matching.now
        → IfOk result (λ q. IsColumnOrder a (decomposition_of form.now) matching.now.pairs
        q.items) }
{
    orders_are_block_upper_triangular();
    let mut columns = Vec::with_capacity(alloc, form.n as usize)?;
    push_columns(&mut columns, form.parts.hc.as_slice(), matching, false)?;
    push_columns(&mut columns, form.parts.hc.as_slice(), matching, true)?;
    columns.extend_from_slice(form.blocks.all_cols())?;
    columns.extend_from_slice(form.parts.vc.as_slice())?;
    Ok(columns)
}

// Pushes the columns that have a row, or those that have none.
fn push_columns(
    columns: &mut Vec<Col>,
    given: &[Col],
    matching: &Matching,
    is_matched: bool,
) -> Result<(), OutOfMemory>
    requires rising { IsRising given.now }
    requires within { (c : ℕ) → Among c given.now → c < matching.now.cols }
    ensures { IfOk result (λ done. Grows (λ c. Among c given.now
        × (IsTrue is_matched ↔ Among c (cols_of matching.now.pairs)))
        columns.old.items columns.new.items) }
{
    for k in 0..given.len() {
        if matching.row_of(given[k]).is_some() == is_matched {
            columns.push(given[k])?;
        }
    }
    Ok(())
}

// The mate of each column that has one, in the order of the columns, and the rows without a column.
fn row_order(
    alloc: Global,
    form: &BlockForm,
    matching: &Matching,
    columns: &[Col],
) -> Result<Vec<Row>, OutOfMemory>
    requires { (a : Matrix) × IsFormOf a form.now matching.now
        × IsColumnOrder a (decomposition_of form.now) matching.now.pairs columns.now }
    ensures { (a : Matrix) → IsFormOf a form.now matching.now
        → IsColumnOrder a (decomposition_of form.now) matching.now.pairs columns.now
        → IfOk result (λ p. IsRowOrderOf a (decomposition_of form.now) matching.now.pairs
        columns.now p.items) }
{
    let mut rows = Vec::with_capacity(alloc, form.m as usize)?;
    for k in columns.len() - matching.size() as usize..columns.len() {
        rows.push(matching.mate(columns[k]))?;
    }
    push_unmatched_rows(&mut rows, form.parts.vr.as_slice(), matching)?;
    Ok(rows)
}

// Pushes the rows that have no column.
fn push_unmatched_rows(
    rows: &mut Vec<Row>,
    given: &[Row],
    matching: &Matching,
) -> Result<(), OutOfMemory>
    requires rising { IsRising given.now }
    requires within { (r : ℕ) → Among r given.now → r < matching.now.rows }
    ensures { IfOk result (λ done. Grows (λ r. Among r given.now
        × (¬ Among r (rows_of matching.now.pairs))) rows.old.items rows.new.items) }
{
    for k in 0..given.len() {
        if matching.col_of(given[k]).is_none() {
            rows.push(given[k])?;
        }
    }
    Ok(())
}

// Where the horizontal part, each block and the vertical part begin, of those that there are, and
// the end, on a side with so many horizontal numbers.
fn cuts(alloc: Global, form: &BlockForm, horizontal: u32, end: u32) -> Result<Vec<u32>, OutOfMemory>
    requires few { horizontal + length (all_rows form.now.blocks) < 2 ^ 32 }
    requires blocks { length form.now.blocks < 2 ^ 32 }
    ensures { IfOk result
        (λ cuts. cuts.items ≡ cuts_of (decomposition_of form.now) horizontal end) }
{
    let mut cuts = Vec::with_capacity(alloc, form.blocks.len() + 3)?;
    if form.parts.hc.len() != 0 {
        cuts.push(0)?;
    }
    let mut at = horizontal;
    for block in 0..form.blocks.len() {
        cuts.push(at)?;
        at += form.blocks.rows(block).len() as u32;
    }
    if form.parts.vr.len() != 0 {
        cuts.push(at)?;
    }
    cuts.push(end)?;
    Ok(cuts)
}

// Writes numbers to the first places.
fn write_cuts(out: &mut [u32], cuts: &[u32])
    requires { length cuts.now ≤ length out.old }
    ensures { IsPut 0 cuts.now out.old out.new }
{
    for k in 0..cuts.len() {
        out[k] = cuts[k];
    }
}
