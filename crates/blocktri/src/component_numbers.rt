//! The connected components of the two outer parts, written for the caller.

ghost use Rattle.std.specs.Prelude.{◌≡◌, ℕ, ◌<◌, ◌^◌, length, map};
ghost use Rattle.bip_defs.specs.ConnectedComponents.{AreConnectedComponents};
ghost use Rattle.bip_defs.specs.Lists.{Among};
ghost use Rattle.bip_defs.specs.Matrix.{Matrix, cols};
ghost use Rattle.bip_graph.specs.Decompositions.{components_of};
ghost use Rattle.blocktri.specs.OuterComponents.{AreApart, AreColumnComponents, AreNumbered, AreRowComponents, IsWrittenAt, cols_of_block, rows_of_block};

use bip_graph::{Blocks, Components};
use sp_ids::Id;

// Stands for no component: no component has this number.
const NONE: u32 = u32::MAX;

/// Writes for each row of an outer part the number of its component in that part, and for each of
/// the square part what stands for none.
pub fn write_row_components(found: &Components, row_component: &mut [u32])
    requires some { (a : Matrix) × AreConnectedComponents a (components_of found.now)
        × (length row_component.old ≡ a.rows) }
    requires few_horizontal { length found.now.horizontal < 2 ^ 32 }
    requires few_vertical { length found.now.vertical < 2 ^ 32 }
    ensures { (a : Matrix) → AreConnectedComponents a (components_of found.now)
        → length row_component.old ≡ a.rows
        → AreRowComponents a (components_of found.now) row_component.new }
{
    row_component.fill(NONE);
    write_row_numbers(row_component, &found.horizontal);
    write_row_numbers(row_component, &found.vertical);
}

/// Writes for each column of an outer part the number of its component in that part, and for each
/// of the square part what stands for none.
pub fn write_column_components(found: &Components, column_component: &mut [u32])
    requires some { (a : Matrix) × AreConnectedComponents a (components_of found.now)
        × (length column_component.old ≡ cols a) }
    requires few_horizontal { length found.now.horizontal < 2 ^ 32 }
    requires few_vertical { length found.now.vertical < 2 ^ 32 }
    ensures { (a : Matrix) → AreConnectedComponents a (components_of found.now)
        → length column_component.old ≡ cols a
        → AreColumnComponents a (components_of found.now) column_component.new }
{
    column_component.fill(NONE);
    write_column_numbers(column_component, &found.horizontal);
    write_column_numbers(column_component, &found.vertical);
}

// Writes to each row of the blocks which of them it is in.
fn write_row_numbers(rows: &mut [u32], blocks: &Blocks)
    requires rows { AreApart rows_of_block blocks.now (length rows.old) }
    requires few { length blocks.now < 2 ^ 32 }
    ensures { AreNumbered rows_of_block blocks.now (length blocks.now) rows.old rows.new }
{
    for block in 0..blocks.len() {
        write_number(rows, blocks.rows(block), block as u32);
    }
}

// Writes to each column of the blocks which of them it is in.
fn write_column_numbers(columns: &mut [u32], blocks: &Blocks)
    requires columns { AreApart cols_of_block blocks.now (length columns.old) }
    requires few { length blocks.now < 2 ^ 32 }
    ensures { AreNumbered cols_of_block blocks.now (length blocks.now) columns.old columns.new }
{
    for block in 0..blocks.len() {
        write_number(columns, blocks.cols(block), block as u32);
    }
}

// Writes a number at the places that a list names.
fn write_number<I: Id>(out: &mut [u32], ids: &[I], number: u32)
    requires { (x : ℕ) → Among x (map I.number ids.now) → x < length out.old }
    ensures { IsWrittenAt (map I.number ids.now) number out.old out.new }
{
    for k in 0..ids.len() {
        out[ids[k].number() as usize] = number;
    }
}
