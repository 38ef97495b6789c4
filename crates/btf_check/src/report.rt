//! The judge.

ghost use Rattle.std.specs.Prelude.{IfOk};
ghost use Rattle.btf_check.specs.Verdicts.{IsVerdict};

use crate::Verdict;
use crate::reasons::judge_report;
use report_reader::{one_spelling, read_report};
use sp_ids::OutOfMemory;
use sp_pattern::Pattern;
use std::alloc::Global;
use std::thread::Threads;

/// Whether bytes are the report of a matrix with pairs, in version 1 or 2, with orders or without,
/// and if not, the first reason that applies (see [`Verdict`]).
///
/// The report is read, and judged by the matrix: by the decomposition of the matrix anew from the
/// report's own pairs, with its connected components for version 2. No search is made twice: those
/// for the coarse parts also tell whether the pairs are a maximum matching.
///
/// Returns `OutOfMemory` if it cannot allocate the report's lists or an analysis of the matrix. The
/// lists grow with the bytes that are read, to 4 bytes a row or column and 8 a pair, block or
/// component. All tables are as long as the matrix has rows or columns: a number of the text
/// reserves nothing, and a list of another length than the matrix's own is refused before a table
/// is made for it. Work: one look at each byte, and an analysis of the matrix.
pub fn judge<R: Threads + Sync>(
    rt: &R,
    alloc: Global,
    pattern: &Pattern,
    bytes: &[u8],
) -> Result<Verdict, OutOfMemory>
    ensures { IfOk result (IsVerdict pattern.now bytes.now) }
{
    one_spelling();
    match read_report(alloc, bytes)? {
        Some(report) => judge_report(rt, alloc, pattern, &report),
        None => Ok(Verdict::Invalid(1)),
    }
}
