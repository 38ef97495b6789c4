//! The job `rank`.

ghost use Rattle.std.specs.Prelude.{◌<◌, ◌^◌, length, IfOk};
ghost use Rattle.bip_defs.specs.Lists.{IsMarked, Lists};
ghost use Rattle.bip_defs.specs.Marks.{Marks};
ghost use Rattle.bip_defs.specs.Parts.{IsHorizontalCol, IsHorizontalRow};
ghost use Rattle.bip_graph.specs.Matching.{IsMaximumOf};
ghost use Rattle.bip_graph.specs.OuterMarks.{AreOuterMarks};
ghost use Rattle.btf_words.specs.declared.jobs.Job.TheVariants.{Rank};
ghost use Rattle.sp_ports.specs.Device.{seen};
ghost use Rattle.btf_tool.specs.Jobs.{GavePrefix, OfReading};
ghost use Rattle.btf_tool.specs.Ranks.{IsRankOf};
ghost use Rattle.btf_tool.specs.Runs.{JobSays};

use crate::engines::solve_with_marks;
use crate::matrix::matrix_of;
use crate::reading::read_file;
use crate::writing::hand_on;
use crate::{Answer, Refusal};
use bip_graph::{Matching, OuterMarks};
use btf_text::{TextBuf, write_rank};
use dm_coarse::horizontal_cols;
use horizontal_rows::horizontal_rows;
use sp_ids::{Col, OutOfMemory, Row};
use sp_pattern::Pattern;
use sp_ports::{Sink, Source};
use std::alloc::Global;
use std::thread::Threads;

/// The rank of a matrix, and the rows and columns of its horizontal part.
#[derive(Drop)]
struct RankAnswer {
    rank: u32,
    rows: Vec<Row>,
    cols: Vec<Col>,
}

/// Reads a matrix and writes the text of its rank.
pub(crate) fn rank<R: Threads + Sync, S: Source, O: Sink>(
    rt: &R,
    alloc: Global,
    drop_zeros: bool,
    input: &mut S,
    out: &mut O,
) -> Result<Answer, Refusal>
    ensures says { JobSays (Rank drop_zeros) (seen S.left S.faults input.old input.new)
        (seen O.taken O.faults out.old out.new) result }
    ensures gave { OfReading (seen S.left S.faults input.old input.new) GavePrefix }
{
    let triples = read_file(alloc, input)?;
    let pattern = matrix_of(rt, alloc, &triples, drop_zeros)?;
    drop(triples);
    let answer = rank_of(alloc, &pattern)?;
    let mut buf = TextBuf::new(alloc)?;
    let (rows, cols) = (answer.rows.as_slice(), answer.cols.as_slice());
    let written = write_rank(out, &mut buf, &pattern, answer.rank, rows, cols);
    hand_on(out, written)?;
    Ok(Answer::Positive)
}

/// The rank and the horizontal part of a matrix.
fn rank_of(alloc: Global, pattern: &Pattern) -> Result<RankAnswer, OutOfMemory>
    ensures { IfOk result (λ s. IsRankOf pattern.now s.rank s.rows.items s.cols.items) }
{
    let (matching, marks) = solve_with_marks(alloc, pattern)?;
    let rank = matching.size();
    let (rows, cols) = horizontal_part(alloc, pattern, &matching, &marks)?;
    Ok(RankAnswer { rank, rows, cols })
}

/// The rows and the columns of the horizontal part, by the marks where they are of its rows, or else
/// by a search for these. That takes a byte a row and 4 bytes a column.
fn horizontal_part(
    alloc: Global,
    pattern: &Pattern,
    matching: &Matching,
    marks: &OuterMarks,
) -> Result<(Vec<Row>, Vec<Col>), OutOfMemory>
    requires maximum { IsMaximumOf pattern.now matching.now }
    requires marks { AreOuterMarks pattern.now marks.now }
    ensures rows { IfOk result (λ p. Lists (IsHorizontalRow pattern.now) p.0.items) }
    ensures cols { IfOk result (λ p. Lists (IsHorizontalCol pattern.now) p.1.items) }
{
    match marks {
        OuterMarks::HorizontalRows(marked) => {
            part_by_rows(alloc, pattern, matching, marked.as_slice())
        }
        OuterMarks::VerticalCols(_) => {
            let marked = horizontal_rows(alloc, pattern, matching)?;
            part_by_rows(alloc, pattern, matching, marked.as_slice())
        }
    }
}

/// The rows and the columns of the horizontal part, by marks of its rows.
fn part_by_rows(
    alloc: Global,
    pattern: &Pattern,
    matching: &Matching,
    marked: &[bool],
) -> Result<(Vec<Row>, Vec<Col>), OutOfMemory>
    requires maximum { IsMaximumOf pattern.now matching.now }
    requires marks { Marks pattern.now.rows (IsHorizontalRow pattern.now) marked.now }
    ensures rows { IfOk result (λ p. Lists (IsHorizontalRow pattern.now) p.0.items) }
    ensures cols { IfOk result (λ p. Lists (IsHorizontalCol pattern.now) p.1.items) }
{
    pattern.is_pattern();
    let rows = listed(alloc, marked)?;
    let cols = horizontal_cols(alloc, pattern, matching, marked)?;
    Ok((rows, cols))
}

/// The marked rows, rising.
fn listed(alloc: Global, marks: &[bool]) -> Result<Vec<Row>, OutOfMemory>
    requires { length marks.now < 2 ^ 32 }
    ensures { IfOk result
        (λ v. Lists (λ r. (r < length marks.now) × IsMarked marks.now r) v.items) }
{
    let mut rows = Vec::new(alloc);
    for row in 0..marks.len() {
        if marks[row] {
            rows.push(Row(row as u32))?;
        }
    }
    Ok(rows)
}
