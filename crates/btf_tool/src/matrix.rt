//! The matrix of a file.

ghost use Rattle.std.specs.Prelude.{◌≡◌, IfErr, IfOk};
ghost use Rattle.sp_ids.specs.declared.triples.Field.TheVariants.{Integer};
ghost use Rattle.sp_pattern.specs.Stored.{IsPattern};
ghost use Rattle.btf_tool.specs.Jobs.{Holds, IsMatrixOf};
ghost use Rattle.btf_tool.specs.Runs.{IsNoMatrix};

use crate::Refusal;
use sp_ids::{Field, Triples};
use sp_pattern::Pattern;
use std::alloc::Global;
use std::thread::Threads;

/// The matrix of the entries that a file gives: of all their places or, where zeros are dropped, of
/// those whose values do not add up to 0. Its sizes fit 32 bits.
///
/// Answers `NeedsInteger` exactly where zeros are dropped and the file is no integer file, and
/// `OutOfMemory` where the tables of the pattern cannot be allocated.
pub(crate) fn matrix_of<R: Threads + Sync>(
    rt: &R,
    alloc: Global,
    triples: &Triples,
    drop_zeros: bool,
) -> Result<Pattern, Refusal>
    ensures matrix { IfOk result (IsMatrixOf drop_zeros triples.now) }
    ensures fits { IfOk result IsPattern }
    ensures fit { IfOk result (λ a. Holds drop_zeros → triples.now.field ≡ Integer) }
    ensures refused { IfErr result (IsNoMatrix drop_zeros triples.now) }
{
    if !drop_zeros {
        let pattern = Pattern::build(rt, alloc, triples)?;
        pattern.is_pattern();
        return Ok(pattern);
    }
    let Field::Integer = triples.field() else {
        return Err(Refusal::NeedsInteger);
    };
    let pattern = Pattern::build_nonzero(rt, alloc, triples)?;
    pattern.is_pattern();
    Ok(pattern)
}
