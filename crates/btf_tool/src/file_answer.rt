//! What is found of a file whose bytes are at hand.

ghost use Rattle.std.specs.Prelude.{◌≤◌, ℕ, List, [], length, IfOk};
ghost use Rattle.sp_ids.specs.Limits.{max_batch_file_bytes};
ghost use Rattle.mm_defs.specs.File.{Reads};
ghost use Rattle.mm_defs.specs.declared.answers.End.TheVariants.{File};
ghost use Rattle.btf_tool.specs.FileAnswer.{IsFileAnswer};

use crate::decompose::decompose;
use crate::engines::solve_with_marks;
use bip_graph::{Components, Decomposition};
use dm_coarse::{coarse_by_marks, components};
use mm_defs::{End, Kind, ReadError};
use mm_reader::{Input, read_matrix};
use sp_ids::{MAX_INPUT_BYTES, OutOfMemory, Triples};
use sp_pattern::Pattern;
use sp_ports::LentSource;
use std::alloc::Global;
use std::thread::Threads;

/// What is found of the bytes of a file.
#[derive(Drop)]
pub enum FileAnswer {
    /// They are a good matrix file: the decomposition of its matrix, and the connected components
    /// of the outer parts.
    Report(Decomposition, Components),
    /// The first bad line, counted from 1, and the first kind of fault that applies to it, which
    /// passes a limit or does not.
    Bad { limit: bool, line: u64, kind: Kind },
}

/// What is found of a matrix file that these bytes are to be: at most 1,073,741,824 of them. The
/// engine is Pothen and Fan's.
///
/// Returns `OutOfMemory` if it cannot allocate a buffer of 65,536 bytes, the file's entries, the
/// pattern, a maximum matching or what is found by it. All but what is found is let go again.
pub fn answer_bytes<R: Threads + Sync>(
    rt: &R,
    alloc: Global,
    bytes: &[u8],
) -> Result<FileAnswer, OutOfMemory>
    requires { length bytes.now ≤ max_batch_file_bytes }
    ensures { IfOk result (IsFileAnswer bytes.now) }
{
    let mut source = LentSource::new(bytes);
    let mut input = Input::new(alloc, MAX_INPUT_BYTES)?;
    match read_matrix(alloc, &mut input, &mut source, End::File) {
        Ok(triples) => analysed(rt, alloc, triples),
        Err(ReadError::Malformed { line, kind }) => Ok(FileAnswer::Bad {
            limit: false,
            line,
            kind,
        }),
        Err(ReadError::Limit { line, kind }) => Ok(FileAnswer::Bad {
            limit: true,
            line,
            kind,
        }),
        Err(ReadError::OutOfMemory) => Err(OutOfMemory),
        Err(ReadError::TooLong | ReadError::ReadFault) => unreachable!(),
    }
}

/// What is found of the matrix of these entries, and so of each file that has them.
fn analysed<R: Threads + Sync>(
    rt: &R,
    alloc: Global,
    triples: Triples,
) -> Result<FileAnswer, OutOfMemory>
    ensures { IfOk result (λ answer. (bytes : List ℕ) → Reads bytes File triples []
        → IsFileAnswer bytes answer) }
{
    let pattern = Pattern::build(rt, alloc, &triples)?;
    drop(triples);
    let (matching, marks) = solve_with_marks(alloc, &pattern)?;
    let parts = coarse_by_marks(alloc, &pattern, &matching, &marks)?;
    let decomposition = decompose(alloc, &pattern, &matching, parts)?;
    let components = components(alloc, &pattern, &decomposition.parts)?;
    Ok(FileAnswer::Report(decomposition, components))
}
