//! The block triangular form.

ghost use Rattle.std.specs.Prelude.{◌≡◌, ◌↔◌, IfOk, IsTrue, OnErr};
ghost use Rattle.blocktri.specs.Causes.{RefusesRightly};
ghost use Rattle.blocktri.specs.Compressed.{HasMatrix};
ghost use Rattle.blocktri.specs.Forms.{HaveFormRoom, TellsForm, form_lists};

use crate::compressed::{Compressed, is_room, is_room_and_one};
use crate::find_sizes::sizes_of;
use crate::found::find;
use crate::refusals::Refusal;
use crate::sizes::{Sizes, Wants};
use crate::wanted_lists::{write_outer, write_shape};
use sp_pattern::NumberList;
use std::alloc::Global;

/// The Dulmage-Mendelsohn decomposition of a matrix with the fine blocks of its square part, as
/// orders of the rows and the columns in which the matrix is block upper triangular, and with the
/// connected components of its outer parts.
///
/// The orders have the horizontal part first, then the blocks of the square part in their order,
/// then the vertical part. `block_starts` gets where each block begins, counted from the first
/// square row, and behind the blocks the number of square rows; the rest of it stays as it is.
///
/// Rows and columns of an outer part are in one component where a chain of its entries joins them.
/// `row_component` and `column_component` get for each row and each column the number of its
/// component, or 4,294,967,295 where it is in the square part. The components of each part are
/// counted from 0: those of the horizontal part in the order of their least columns, those of the
/// vertical part in the order of their least rows.
///
/// `row_order` and `row_component` must have a place for each row, `column_order` and
/// `column_component` for each column, `block_starts` for each column and one more. A list of
/// length 0 is not wanted. These lengths are looked at first. What `wants` leaves out is not looked
/// for: its lists stay as they are, and its number in the sizes is `None`. After an `Err` nothing
/// was written.
///
/// A square matrix by columns goes the short way where each place of the diagonal is an entry, or
/// where at the first look that [`crate::rank`] describes each column takes a row: all its rows
/// and columns are in the square part, its columns are read where they lie, and no pattern is
/// made. The call then takes 8 bytes a row and 8 a column for the matching and the parts, and for
/// the blocks what `dm_fine::fine_by_columns` takes; its work is at most four looks at each
/// number, what `fine_by_columns` says, and a write for each place of a list.
///
/// Every other matrix takes besides the pattern, what `rank` takes, and the tables of the parts
/// and the components. Work: as `rank`, the pattern, what `dm_coarse::coarse_in_turn`,
/// `dm_fine::fine_by_columns` and `dm_coarse::components` say of theirs, and a write for each
/// place of a list. Returns `OutOfMemory` if it cannot allocate these.
pub fn decomposition<N: NumberList>(
    alloc: Global,
    matrix: &Compressed<N>,
    wants: Wants,
    row_order: &mut [u32],
    column_order: &mut [u32],
    block_starts: &mut [u32],
    row_component: &mut [u32],
    column_component: &mut [u32],
) -> Result<Sizes, Refusal>
    ensures found { IfOk result (λ s. HasMatrix matrix.now (λ a. TellsForm a wants s
        (form_lists row_order.old column_order.old block_starts.old row_component.old
        column_component.old) (form_lists row_order.new column_order.new block_starts.new
        row_component.new column_component.new))) }
    ensures refused { RefusesRightly (HaveFormRoom matrix.now (form_lists row_order.old
        column_order.old block_starts.old row_component.old column_component.old))
        matrix.now result }
    ensures kept { OnErr result (form_lists row_order.new column_order.new block_starts.new
        row_component.new column_component.new ≡ form_lists row_order.old column_order.old
        block_starts.old row_component.old column_component.old) }
{
    if !has_room(
        matrix,
        row_order,
        column_order,
        block_starts,
        row_component,
        column_component,
    ) {
        return Err(Refusal::Lengths);
    }
    matrix.check()?;
    let found = find(alloc, matrix, wants)?;
    write_shape(&found.shape, row_order, column_order, block_starts);
    write_outer(&found.outer, row_component, column_component);
    Ok(sizes_of(&found))
}

// Whether all lists have room for what is to be written.
fn has_room<N: NumberList>(
    matrix: &Compressed<N>,
    row_order: &[u32],
    column_order: &[u32],
    block_starts: &[u32],
    row_component: &[u32],
    column_component: &[u32],
) -> bool
    ensures { IsTrue result ↔ HaveFormRoom matrix.now (form_lists row_order.now column_order.now
        block_starts.now row_component.now column_component.now) }
{
    is_room(row_order, matrix.rows())
        && is_room(column_order, matrix.columns())
        && is_room_and_one(block_starts, matrix.columns())
        && is_room(row_component, matrix.rows())
        && is_room(column_component, matrix.columns())
}
