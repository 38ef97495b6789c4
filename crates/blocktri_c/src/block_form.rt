//! The block triangular form, and the connected components of its outer parts.

ghost use Rattle.blocktri.specs.Forms.{HaveFormRoom, form_lists};
ghost use Rattle.blocktri_c.specs.FormStatuses.{AnswersForm, wants_of};
ghost use Rattle.blocktri_c.specs.Statuses.{TellsFault, lists_of};

use crate::compressed_lists::{narrow, wide};
use crate::form_sizes::{FormSizes, form_sizes, wants};
use crate::statuses::{OK, status};
use std::alloc::Global;

/// `blocktri::decomposition` of numbers of 32 bits. What the five lists get stands there; the
/// sizes are written to `sizes`.
#[unsafe(no_mangle)]
pub extern "C" fn proved_decomposition(
    alloc: Global,
    others: u32,
    starts: &[u32],
    ids: &[u32],
    by_rows: bool,
    wants_blocks: bool,
    wants_components: bool,
    row_order: &mut [u32],
    column_order: &mut [u32],
    block_starts: &mut [u32],
    row_component: &mut [u32],
    column_component: &mut [u32],
    sizes: &mut FormSizes,
    fault: &mut u64,
) -> i32
    ensures answers { AnswersForm result (lists_of others starts.now ids.now by_rows)
        (wants_of wants_blocks wants_components)
        (form_lists row_order.old column_order.old block_starts.old row_component.old
        column_component.old)
        (form_lists row_order.new column_order.new block_starts.new row_component.new
        column_component.new) sizes.old sizes.new }
    ensures fault { TellsFault result (HaveFormRoom (lists_of others starts.now ids.now by_rows)
        (form_lists row_order.old column_order.old block_starts.old row_component.old
        column_component.old)) (lists_of others starts.now ids.now by_rows)
        fault.old fault.new }
{
    match blocktri::decomposition(
        alloc,
        &narrow(others, starts, ids, by_rows),
        wants(wants_blocks, wants_components),
        row_order,
        column_order,
        block_starts,
        row_component,
        column_component,
    ) {
        Ok(found) => {
            *sizes = form_sizes(found);
            OK
        }
        Err(refusal) => status(refusal, fault),
    }
}

/// `blocktri::decomposition` of numbers of 64 bits. What the five lists get stands there; the
/// sizes are written to `sizes`.
#[unsafe(no_mangle)]
pub extern "C" fn proved_decomposition_64(
    alloc: Global,
    others: u64,
    starts: &[u64],
    ids: &[u64],
    by_rows: bool,
    wants_blocks: bool,
    wants_components: bool,
    row_order: &mut [u32],
    column_order: &mut [u32],
    block_starts: &mut [u32],
    row_component: &mut [u32],
    column_component: &mut [u32],
    sizes: &mut FormSizes,
    fault: &mut u64,
) -> i32
    ensures answers { AnswersForm result (lists_of others starts.now ids.now by_rows)
        (wants_of wants_blocks wants_components)
        (form_lists row_order.old column_order.old block_starts.old row_component.old
        column_component.old)
        (form_lists row_order.new column_order.new block_starts.new row_component.new
        column_component.new) sizes.old sizes.new }
    ensures fault { TellsFault result (HaveFormRoom (lists_of others starts.now ids.now by_rows)
        (form_lists row_order.old column_order.old block_starts.old row_component.old
        column_component.old)) (lists_of others starts.now ids.now by_rows)
        fault.old fault.new }
{
    match blocktri::decomposition(
        alloc,
        &wide(others, starts, ids, by_rows),
        wants(wants_blocks, wants_components),
        row_order,
        column_order,
        block_starts,
        row_component,
        column_component,
    ) {
        Ok(found) => {
            *sizes = form_sizes(found);
            OK
        }
        Err(refusal) => status(refusal, fault),
    }
}
