//! The permutations of a Dulmage-Mendelsohn decomposition.

ghost use Rattle.blocktri.specs.Dmperm.{HaveDmpermRoom, dmperm_lists};
ghost use Rattle.blocktri_c.specs.DmpermStatuses.{AnswersDmperm};
ghost use Rattle.blocktri_c.specs.FormStatuses.{wants_of};
ghost use Rattle.blocktri_c.specs.Statuses.{TellsFault, lists_of};

use crate::compressed_lists::{narrow, wide};
use crate::form_sizes::{FormSizes, form_sizes, wants};
use crate::statuses::{OK, status};
use std::alloc::Global;

/// `blocktri::dmperm` of numbers of 32 bits. What the seven lists get stands there; the sizes are
/// written to `sizes`.
#[unsafe(no_mangle)]
pub extern "C" fn proved_dmperm(
    alloc: Global,
    others: u32,
    starts: &[u32],
    ids: &[u32],
    by_rows: bool,
    wants_blocks: bool,
    wants_components: bool,
    p: &mut [u32],
    q: &mut [u32],
    r: &mut [u32],
    s: &mut [u32],
    row_of_column: &mut [u32],
    row_component: &mut [u32],
    column_component: &mut [u32],
    sizes: &mut FormSizes,
    fault: &mut u64,
) -> i32
    ensures answers { AnswersDmperm result (lists_of others starts.now ids.now by_rows)
        (wants_of wants_blocks wants_components)
        (dmperm_lists p.old q.old r.old s.old row_of_column.old row_component.old
        column_component.old)
        (dmperm_lists p.new q.new r.new s.new row_of_column.new row_component.new
        column_component.new) sizes.old sizes.new }
    ensures fault { TellsFault result (HaveDmpermRoom (lists_of others starts.now ids.now by_rows)
        (dmperm_lists p.old q.old r.old s.old row_of_column.old row_component.old
        column_component.old)) (lists_of others starts.now ids.now by_rows)
        fault.old fault.new }
{
    match blocktri::dmperm(
        alloc,
        &narrow(others, starts, ids, by_rows),
        wants(wants_blocks, wants_components),
        p,
        q,
        r,
        s,
        row_of_column,
        row_component,
        column_component,
    ) {
        Ok(found) => {
            *sizes = form_sizes(found);
            OK
        }
        Err(refusal) => status(refusal, fault),
    }
}

/// `blocktri::dmperm` of numbers of 64 bits. What the seven lists get stands there; the sizes are
/// written to `sizes`.
#[unsafe(no_mangle)]
pub extern "C" fn proved_dmperm_64(
    alloc: Global,
    others: u64,
    starts: &[u64],
    ids: &[u64],
    by_rows: bool,
    wants_blocks: bool,
    wants_components: bool,
    p: &mut [u32],
    q: &mut [u32],
    r: &mut [u32],
    s: &mut [u32],
    row_of_column: &mut [u32],
    row_component: &mut [u32],
    column_component: &mut [u32],
    sizes: &mut FormSizes,
    fault: &mut u64,
) -> i32
    ensures answers { AnswersDmperm result (lists_of others starts.now ids.now by_rows)
        (wants_of wants_blocks wants_components)
        (dmperm_lists p.old q.old r.old s.old row_of_column.old row_component.old
        column_component.old)
        (dmperm_lists p.new q.new r.new s.new row_of_column.new row_component.new
        column_component.new) sizes.old sizes.new }
    ensures fault { TellsFault result (HaveDmpermRoom (lists_of others starts.now ids.now by_rows)
        (dmperm_lists p.old q.old r.old s.old row_of_column.old row_component.old
        column_component.old)) (lists_of others starts.now ids.now by_rows)
        fault.old fault.new }
{
    match blocktri::dmperm(
        alloc,
        &wide(others, starts, ids, by_rows),
        wants(wants_blocks, wants_components),
        p,
        q,
        r,
        s,
        row_of_column,
        row_component,
        column_component,
    ) {
        Ok(found) => {
            *sizes = form_sizes(found);
            OK
        }
        Err(refusal) => status(refusal, fault),
    }
}
