//! The orders and the block starts of a decomposition, written for the caller.

ghost use Rattle.std.specs.Prelude.{◌≡◌, ◌+◌, ◌<◌, ◌≤◌, ◌^◌, length};
ghost use Rattle.bip_defs.specs.Blocks.{all_cols, all_rows};
ghost use Rattle.bip_defs.specs.Matrix.{Matrix};
ghost use Rattle.bip_defs.specs.Once.{ListsOnce};
ghost use Rattle.bip_graph.specs.Answers.{orders_of};
ghost use Rattle.blocktri.specs.Answers.{AreBlockStarts};
ghost use Rattle.blocktri.specs.BlockForms.{IsBlockFormOf, decomposition_of};

use crate::forms::BlockForm;
use crate::write::{write_lists, write_starts};
use bip_graph::orders_are_block_upper_triangular;

/// The lists of a decomposition are as long together as the matrix has rows and columns, and there
/// are no more blocks than columns.
pub fn lengths_add_up(found: &BlockForm)
    requires { (a : Matrix) × IsBlockFormOf a found.now }
    ensures rows { length found.now.parts.hr.items + length (all_rows found.now.blocks)
        + length found.now.parts.vr.items ≡ found.now.m }
    ensures columns { length found.now.parts.hc.items + length (all_cols found.now.blocks)
        + length found.now.parts.vc.items ≡ found.now.n }
    ensures blocks { length found.now.blocks ≤ found.now.n }
{
    orders_are_block_upper_triangular();
}

/// Writes the order of the rows.
pub fn write_row_order(found: &BlockForm, row_order: &mut [u32])
    requires some { (a : Matrix) × IsBlockFormOf a found.now }
    requires room { length row_order.old ≡ found.now.m }
    ensures { row_order.new ≡ (orders_of (decomposition_of found.now)).0 }
{
    lengths_add_up(found);
    let (first, last) = (found.parts.hr.as_slice(), found.parts.vr.as_slice());
    write_lists(row_order, first, found.blocks.all_rows(), last);
}

/// Writes the order of the columns.
pub fn write_column_order(found: &BlockForm, column_order: &mut [u32])
    requires some { (a : Matrix) × IsBlockFormOf a found.now }
    requires room { length column_order.old ≡ found.now.n }
    ensures order { column_order.new ≡ (orders_of (decomposition_of found.now)).1 }
    ensures once { ListsOnce (λ c. c < found.now.n) column_order.new }
{
    orders_are_block_upper_triangular();
    lengths_add_up(found);
    let (first, last) = (found.parts.hc.as_slice(), found.parts.vc.as_slice());
    write_lists(column_order, first, found.blocks.all_cols(), last);
}

/// Writes where the blocks start, and behind them the number of square rows.
pub fn write_block_starts(found: &BlockForm, block_starts: &mut [u32])
    requires some { (a : Matrix) × IsBlockFormOf a found.now }
    requires room { length block_starts.old ≡ found.now.n + 1 }
    requires few { found.now.m < 2 ^ 32 }
    ensures { AreBlockStarts found.now.blocks block_starts.old block_starts.new }
{
    lengths_add_up(found);
    write_starts(block_starts, &found.blocks);
}
