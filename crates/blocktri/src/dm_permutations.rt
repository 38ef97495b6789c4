//! The permutations of a Dulmage-Mendelsohn decomposition, as `cs_dmperm` and MATLAB give them.

ghost use Rattle.std.specs.Prelude.{◌≡◌, ◌↔◌, ◌<◌, ◌^◌, IfOk, OnErr, IsTrue};
ghost use Rattle.bip_defs.specs.Matrix.{Matrix, cols};
ghost use Rattle.blocktri.specs.Causes.{RefusesRightly};
ghost use Rattle.blocktri.specs.Compressed.{HasMatrix};
ghost use Rattle.blocktri.specs.Dmperm.{HaveDmpermRoom, HavePermutedRoom, HasPermutations, IsRoomForCuts, TellsDmperm, dmperm_lists, permuted_lists};
ghost use Rattle.blocktri.specs.Found.{IsFoundOf};
ghost use Rattle.blocktri.specs.declared.sizes.Wants.{Wants};

use crate::compressed::{Compressed, is_room};
use crate::find_sizes::sizes_of;
use crate::found::{Decomposed, Found, find};
use crate::mates::write_wanted_rows;
use crate::permuted::{permute, write_permuted};
use crate::refusals::Refusal;
use crate::sizes::{Sizes, Wants};
use crate::wanted_lists::write_outer;
use sp_ids::OutOfMemory;
use sp_pattern::NumberList;
use std::alloc::Global;

/// What `cs_dmperm` gives: the Dulmage-Mendelsohn decomposition as permutations in which a maximum
/// matching stands on the diagonal.
///
/// `p` gets the rows and `q` the columns: first the columns without a row, then the other horizontal
/// ones, the columns of each block, and the vertical ones. `p[x]` is the row of `q[free + x]` for
/// each `x` below the rank, where `free` is the number of columns without a row; the rows without a
/// column stand at the end. `r` and `s` get where the horizontal part, each block and the vertical
/// part begin in `p` and in `q`, of those that there are, and behind them the numbers of rows and
/// columns; the rest of both stays as it is. `row_of_column` gets the matching, which keeps the
/// diagonal where each of its places is an entry. Components are those of [`crate::decomposition`].
///
/// `p` and `row_component` must have a place for each row, `q`, `row_of_column` and
/// `column_component` for each column, `r` and `s` for each row or each column, of which there are
/// fewer, and two more. A list of length 0 is not wanted. These lengths are looked at first. What
/// `wants` leaves out is not looked for: its lists stay as they are, and its number in the sizes is
/// `None`. After an `Err` nothing was written.
///
/// Returns `OutOfMemory` where [`crate::decomposition`] does, and if it cannot allocate 4 bytes a
/// row, 4 a column and 8 a block. Work: as `decomposition`.
pub fn dmperm<N: NumberList>(
    alloc: Global,
    matrix: &Compressed<N>,
    wants: Wants,
    p: &mut [u32],
    q: &mut [u32],
    r: &mut [u32],
    s: &mut [u32],
    row_of_column: &mut [u32],
    row_component: &mut [u32],
    column_component: &mut [u32],
) -> Result<Sizes, Refusal>
    ensures found { IfOk result (λ z. HasMatrix matrix.now (λ a. TellsDmperm a wants z
        (dmperm_lists p.old q.old r.old s.old row_of_column.old row_component.old
        column_component.old) (dmperm_lists p.new q.new r.new s.new row_of_column.new
        row_component.new column_component.new))) }
    ensures refused { RefusesRightly (HaveDmpermRoom matrix.now (dmperm_lists p.old q.old r.old
        s.old row_of_column.old row_component.old column_component.old)) matrix.now result }
    ensures kept { OnErr result (dmperm_lists p.new q.new r.new s.new row_of_column.new
        row_component.new column_component.new ≡ dmperm_lists p.old q.old r.old s.old
        row_of_column.old row_component.old column_component.old) }
{
    if !has_room(
        matrix,
        p,
        q,
        r,
        s,
        row_of_column,
        row_component,
        column_component,
    ) {
        return Err(Refusal::Lengths);
    }
    matrix.check()?;
    let found = find(alloc, matrix, wants)?;
    write_permutations(alloc, &found, p, q, r, s)?;
    write_wanted_rows(&found.matching, row_of_column);
    write_outer(&found.outer, row_component, column_component);
    Ok(sizes_of(&found))
}

// Whether all lists have room for what is to be written.
fn has_room<N: NumberList>(
    matrix: &Compressed<N>,
    p: &[u32],
    q: &[u32],
    r: &[u32],
    s: &[u32],
    row_of_column: &[u32],
    row_component: &[u32],
    column_component: &[u32],
) -> bool
    ensures { IsTrue result ↔ HaveDmpermRoom matrix.now (dmperm_lists p.now q.now r.now s.now
        row_of_column.now row_component.now column_component.now) }
{
    let (rows, columns) = (matrix.rows(), matrix.columns());
    is_room(p, rows)
        && is_room(q, columns)
        && is_room_for_cuts(r, rows, columns)
        && is_room_for_cuts(s, rows, columns)
        && is_room(row_of_column, columns)
        && is_room(row_component, rows)
        && is_room(column_component, columns)
}

// Whether a list has room for the cuts of so many rows and columns, or none.
fn is_room_for_cuts(list: &[u32], rows: u64, columns: u64) -> bool
    ensures { IsTrue result ↔ IsRoomForCuts rows columns list.now }
{
    let sides = if rows < columns { rows } else { columns };
    list.len() == 0 || (list.len() >= 2 && list.len() as u64 - 2 == sides)
}

// Writes the permutations and the cuts, where the decomposition is known.
fn write_permutations(
    alloc: Global,
    found: &Found,
    p: &mut [u32],
    q: &mut [u32],
    r: &mut [u32],
    s: &mut [u32],
) -> Result<(), OutOfMemory>
    requires some { (a : Matrix) × (wants : Wants) × IsFoundOf a wants found.now
        × (a.rows < 2 ^ 32) × (cols a < 2 ^ 32)
        × HavePermutedRoom a.rows (cols a) (permuted_lists p.old q.old r.old s.old) }
    ensures written { IfOk result (λ done. (a : Matrix) (wants : Wants)
        → IsFoundOf a wants found.now → HasPermutations a found.now.matching.pairs found.now.shape
        (permuted_lists p.old q.old r.old s.old) (permuted_lists p.new q.new r.new s.new)) }
    ensures kept { OnErr result
        (permuted_lists p.new q.new r.new s.new ≡ permuted_lists p.old q.old r.old s.old) }
{
    match &found.shape {
        Decomposed::Coarse(_) => {}
        Decomposed::Fine(form) => {
            let order = permute(alloc, form, &found.matching)?;
            write_permuted(&order, p, q, r, s);
        }
    }
    Ok(())
}
