//! What is asked of a report that was read.

ghost use Rattle.std.specs.Prelude.{◌↔◌, IfOk, IfSome, IsTrue};
ghost use Rattle.bip_defs.specs.ConnectedComponents.{AreConnectedComponents};
ghost use Rattle.bip_defs.specs.Lists.{IsRising};
ghost use Rattle.bip_defs.specs.Matching.{IsMaximum, cols_of};
ghost use Rattle.bip_graph.specs.Decompositions.{HasParts, parts_of};
ghost use Rattle.btf_check.specs.ReportParts.{HasOuterParts, HasSizes};
ghost use Rattle.btf_check.specs.Reasons.{AreOrdersOf, TellsParts};
ghost use Rattle.report_reader.specs.ReportRead.{components_read, contents, orders_in};
ghost use Rattle.btf_check.specs.Verdicts.{IsJudged};

use crate::Verdict;
use crate::compare::{
    are_joined_cols, are_joined_rows, are_once, same_blocks, same_cols, same_components, same_rows,
};
use crate::pairs::matching_of;
use bip_graph::{Matching, Parts};
use dm_coarse::{coarse_if_maximum, components};
use dm_fine::fine;
use report_reader::Report;
use sp_ids::{Col, OutOfMemory, Row};
use sp_pattern::Pattern;
use std::alloc::Global;
use std::thread::Threads;

/// Whether a report is that of a matrix, and if not, the first reason that applies.
///
/// The matrix is decomposed anew from the report's own pairs. The two searches for its coarse parts
/// tell whether the pairs are a maximum matching.
pub(crate) fn judge_report<R: Threads + Sync>(
    rt: &R,
    alloc: Global,
    pattern: &Pattern,
    report: &Report,
) -> Result<Verdict, OutOfMemory>
    requires rising { IsRising (cols_of report.now.pairs.items) }
    ensures { IfOk result (IsJudged pattern.now (contents report.now)) }
{
    let Some(matching) = matching_of(alloc, pattern, report.pairs.as_slice())? else {
        return Ok(Verdict::Invalid(2));
    };
    let Some(parts) = coarse_if_maximum(rt, alloc, pattern, &matching)? else {
        return Ok(Verdict::Invalid(3));
    };
    if !tells_parts(alloc, pattern, &matching, &parts, report)? {
        return Ok(Verdict::Invalid(4));
    }
    let blocks = fine(alloc, pattern, &matching, &parts)?;
    if !same_blocks(&report.blocks, &blocks) || !has_orders(report) {
        return Ok(Verdict::Invalid(5));
    }
    if !tells_components(alloc, pattern, &parts, report)? {
        return Ok(Verdict::Invalid(6));
    }
    Ok(Verdict::Valid)
}

/// Whether the components, if the report has any, are those of a matrix whose parts are known, in
/// their order.
fn tells_components(
    alloc: Global,
    pattern: &Pattern,
    parts: &Parts,
    report: &Report,
) -> Result<bool, OutOfMemory>
    requires { HasParts pattern.now parts.now }
    ensures { IfOk result
        (λ b. IsTrue b
        ↔ IfSome (components_read report.now.components) (AreConnectedComponents pattern.now)) }
{
    let Some(told) = &report.components else {
        return Ok(true);
    };
    let own = components(alloc, pattern, parts)?;
    Ok(same_components(told, &own))
}

/// Whether the sizes, the rank and the coarse parts are those of a matrix, where a maximum matching
/// and its parts are known.
fn tells_parts(
    alloc: Global,
    pattern: &Pattern,
    matching: &Matching,
    parts: &Parts,
    report: &Report,
) -> Result<bool, OutOfMemory>
    requires maximum { IsMaximum pattern.now matching.now.pairs }
    requires parts { HasParts pattern.now parts.now }
    ensures { IfOk result (λ b. IsTrue b ↔ TellsParts pattern.now (contents report.now)) }
{
    if !has_sizes(pattern, matching, report) {
        return Ok(false);
    }
    if !has_outer_parts(parts, report) {
        return Ok(false);
    }
    let rows = report.blocks.all_rows();
    if !are_once::<Row>(alloc, pattern.rows(), parts.sr.as_slice(), rows)? {
        return Ok(false);
    }
    let cols = report.blocks.all_cols();
    are_once::<Col>(alloc, pattern.cols(), parts.sc.as_slice(), cols)
}

/// Whether the sizes and the rank are those of a matrix with this maximum matching.
fn has_sizes(pattern: &Pattern, matching: &Matching, report: &Report) -> bool
    ensures { IsTrue result ↔ HasSizes pattern.now matching.now.pairs (contents report.now) }
{
    report.m == pattern.rows()
        && report.n == pattern.cols()
        && report.e == pattern.entries()
        && report.rank == matching.size()
}

/// Whether the horizontal and the vertical part are these.
fn has_outer_parts(parts: &Parts, report: &Report) -> bool
    ensures { IsTrue result ↔ HasOuterParts (parts_of parts.now) (contents report.now) }
{
    same_rows(report.parts.hr.as_slice(), parts.hr.as_slice())
        && same_cols(report.parts.hc.as_slice(), parts.hc.as_slice())
        && same_rows(report.parts.vr.as_slice(), parts.vr.as_slice())
        && same_cols(report.parts.vc.as_slice(), parts.vc.as_slice())
}

/// Whether the order lines, if there are any, go through the parts and blocks of the report.
fn has_orders(report: &Report) -> bool
    ensures { IsTrue result
        ↔ IfSome (orders_in report.now.orders) (AreOrdersOf (contents report.now)) }
{
    match &report.orders {
        None => true,
        Some((rows, cols)) => {
            are_joined_rows(
                rows.as_slice(),
                report.parts.hr.as_slice(),
                report.blocks.all_rows(),
                report.parts.vr.as_slice(),
            ) && are_joined_cols(
                cols.as_slice(),
                report.parts.hc.as_slice(),
                report.blocks.all_cols(),
                report.parts.vc.as_slice(),
            )
        }
    }
}
