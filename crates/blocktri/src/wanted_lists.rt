//! What is found, written where it is wanted: a list of length 0 is not.

ghost use Rattle.std.specs.Prelude.{◌≡◌, ◌+◌, ◌<◌, ◌^◌, ℕ, Bool, length};
ghost use Rattle.bip_defs.specs.ConnectedComponents.{AreConnectedComponents};
ghost use Rattle.bip_defs.specs.Matrix.{Matrix, cols};
ghost use Rattle.bip_graph.specs.Answers.{orders_of};
ghost use Rattle.bip_graph.specs.Decompositions.{components_of};
ghost use Rattle.blocktri.specs.Answers.{AreBlockStarts, Fills};
ghost use Rattle.blocktri.specs.BlockForms.{IsBlockFormOf, decomposition_of};
ghost use Rattle.blocktri.specs.Compressed.{IsRoom};
ghost use Rattle.blocktri.specs.Found.{AreOuterOf, HasColumnComponents, HasOrder, HasRowComponents, HasStarts, IsShapeOf, columns_in_order, rows_in_order};
ghost use Rattle.blocktri.specs.OuterComponents.{AreColumnComponents, AreRowComponents};

use crate::component_numbers::{write_column_components, write_row_components};
use crate::forms::BlockForm;
use crate::found::Decomposed;
use crate::orders::{write_block_starts, write_column_order, write_row_order};
use bip_graph::Components;

/// Writes the orders and the block starts, where the decomposition is known.
pub fn write_shape(
    shape: &Decomposed,
    row_order: &mut [u32],
    column_order: &mut [u32],
    block_starts: &mut [u32],
)
    requires some { (a : Matrix) × (wanted : Bool) × IsShapeOf a wanted shape.now
        × (a.rows < 2 ^ 32) × IsRoom a.rows row_order.old × IsRoom (cols a) column_order.old
        × IsRoom (cols a + 1) block_starts.old }
    ensures rows { HasOrder rows_in_order shape.now row_order.old row_order.new }
    ensures columns { HasOrder columns_in_order shape.now column_order.old column_order.new }
    ensures starts { HasStarts shape.now block_starts.old block_starts.new }
{
    match shape {
        Decomposed::Coarse(_) => {}
        Decomposed::Fine(form) => write_wanted_orders(form, row_order, column_order, block_starts),
    }
}

/// Writes the number of each row's and each column's component, where the components are known.
pub fn write_outer(
    outer: &Option<Components>,
    row_component: &mut [u32],
    column_component: &mut [u32],
)
    requires some { (a : Matrix) × (wanted : Bool) × AreOuterOf a wanted outer.now
        × IsRoom a.rows row_component.old × IsRoom (cols a) column_component.old }
    ensures rows { (a : Matrix) (wanted : Bool) → AreOuterOf a wanted outer.now
        → IsRoom a.rows row_component.old
        → HasRowComponents a outer.now row_component.old row_component.new }
    ensures columns { (a : Matrix) (wanted : Bool) → AreOuterOf a wanted outer.now
        → IsRoom (cols a) column_component.old
        → HasColumnComponents a outer.now column_component.old column_component.new }
{
    match outer {
        None => {}
        Some(outer) => {
            write_wanted_row_components(outer, row_component);
            write_wanted_column_components(outer, column_component);
        }
    }
}

// Writes the orders and the block starts of a decomposition.
fn write_wanted_orders(
    form: &BlockForm,
    row_order: &mut [u32],
    column_order: &mut [u32],
    block_starts: &mut [u32],
)
    requires some { (a : Matrix) × IsBlockFormOf a form.now × (a.rows < 2 ^ 32) }
    requires rows { IsRoom form.now.m row_order.old }
    requires columns { IsRoom form.now.n column_order.old }
    requires starts { IsRoom (form.now.n + 1) block_starts.old }
    ensures rows { Fills row_order.old row_order.new
        (row_order.new ≡ (orders_of (decomposition_of form.now)).0) }
    ensures columns { Fills column_order.old column_order.new
        (column_order.new ≡ (orders_of (decomposition_of form.now)).1) }
    ensures starts { Fills block_starts.old block_starts.new
        (AreBlockStarts form.now.blocks block_starts.old block_starts.new) }
{
    if row_order.len() != 0 {
        write_row_order(form, row_order);
    }
    if column_order.len() != 0 {
        write_column_order(form, column_order);
    }
    if block_starts.len() != 0 {
        write_block_starts(form, block_starts);
    }
}

// Writes the number of each row's component.
fn write_wanted_row_components(outer: &Components, row_component: &mut [u32])
    requires some { (a : Matrix) × AreConnectedComponents a (components_of outer.now)
        × IsRoom a.rows row_component.old }
    requires few_horizontal { length outer.now.horizontal < 2 ^ 32 }
    requires few_vertical { length outer.now.vertical < 2 ^ 32 }
    ensures { (a : Matrix) → AreConnectedComponents a (components_of outer.now)
        → IsRoom a.rows row_component.old → Fills row_component.old row_component.new
        (AreRowComponents a (components_of outer.now) row_component.new) }
{
    if row_component.len() != 0 {
        write_row_components(outer, row_component);
    }
}

// Writes the number of each column's component.
fn write_wanted_column_components(outer: &Components, column_component: &mut [u32])
    requires some { (a : Matrix) × AreConnectedComponents a (components_of outer.now)
        × IsRoom (cols a) column_component.old }
    requires few_horizontal { length outer.now.horizontal < 2 ^ 32 }
    requires few_vertical { length outer.now.vertical < 2 ^ 32 }
    ensures { (a : Matrix) → AreConnectedComponents a (components_of outer.now)
        → IsRoom (cols a) column_component.old → Fills column_component.old column_component.new
        (AreColumnComponents a (components_of outer.now) column_component.new) }
{
    if column_component.len() != 0 {
        write_column_components(outer, column_component);
    }
}
