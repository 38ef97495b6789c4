//! The reading of the matrix, and of what follows it.

ghost use Rattle.std.specs.Prelude.{◌≡◌, [], true, ℕ, List, IfErr, IfOk};
ghost use Rattle.std.specs.List.{All};
ghost use Rattle.mm_defs.specs.Words.{lines};
ghost use Rattle.mm_frames.specs.Edits.{IsWithinMatrix, edits_of};
ghost use Rattle.mm_reader.specs.EntryLimits.{AreWithinLimits};
ghost use Rattle.btf_tool.specs.Inputs as forms;
ghost use Rattle.sp_ports.specs.Device.{CountHasNotFallen, seen};
ghost use Rattle.btf_tool.specs.Jobs.{GavePrefix, OfReading};
ghost use Rattle.btf_tool.specs.Runs.{IsReadAs, IsUnread};

use crate::Refusal;
use mm_defs::End;
use mm_frames::{Edit, read_edits};
use mm_reader::{Input, read_matrix, read_rest};
use sp_ids::{MAX_INPUT_BYTES, Triples};
use sp_ports::Source;
use std::alloc::Global;

/// A matrix file, and the bytes that follow it.
#[derive(Drop)]
pub(crate) struct Followed {
    pub(crate) triples: Triples,
    pub(crate) rest: Vec<u8>,
}

/// A matrix file, and the edits that follow it.
#[derive(Drop)]
pub(crate) struct Edited {
    pub(crate) triples: Triples,
    pub(crate) edits: Vec<Edit>,
}

/// Reads the matrix file that the input is.
pub(crate) fn read_file<S: Source>(alloc: Global, input: &mut S) -> Result<Triples, Refusal>
    ensures read { IfOk result
        (λ t. IsReadAs forms.Alone (seen S.left S.faults input.old input.new) t []) }
    ensures limits { IfOk result AreWithinLimits }
    ensures unread { IfErr result
        (IsUnread forms.Alone (seen S.left S.faults input.old input.new)) }
    ensures counts { CountHasNotFallen (seen S.left S.faults input.old input.new) }
    ensures gave { OfReading (seen S.left S.faults input.old input.new) GavePrefix }
{
    let mut bytes = Input::new(alloc, MAX_INPUT_BYTES)?;
    Ok(read_matrix(alloc, &mut bytes, input, End::File)?)
}

/// Reads the matrix file with which the input begins, up to its last entry line, and then all that
/// follows.
pub(crate) fn read_followed<S: Source>(alloc: Global, input: &mut S) -> Result<Followed, Refusal>
    ensures read { IfOk result
        (λ f. IsReadAs forms.Followed
        (seen S.left S.faults input.old input.new) f.triples f.rest.items) }
    ensures limits { IfOk result (λ f. AreWithinLimits f.triples) }
    ensures unread { IfErr result
        (IsUnread forms.Followed (seen S.left S.faults input.old input.new)) }
    ensures counts { CountHasNotFallen (seen S.left S.faults input.old input.new) }
    ensures gave { OfReading (seen S.left S.faults input.old input.new) GavePrefix }
{
    let mut bytes = Input::new(alloc, MAX_INPUT_BYTES)?;
    let triples = read_matrix(alloc, &mut bytes, input, End::LastEntry)?;
    let rest = read_rest(alloc, &mut bytes, input)?;
    Ok(Followed { triples, rest })
}

/// Reads the matrix file with which the input begins, up to its last entry line, and then the edit
/// lines up to the end.
pub(crate) fn read_edited<S: Source>(alloc: Global, input: &mut S) -> Result<Edited, Refusal>
    ensures read { IfOk result (λ f. (rest : List ℕ)
        × IsReadAs forms.Edited (seen S.left S.faults input.old input.new) f.triples rest
        × (f.edits.items ≡ edits_of 0 (lines true rest))) }
    ensures limits { IfOk result (λ f. AreWithinLimits f.triples) }
    ensures within { IfOk result
        (λ f. All (IsWithinMatrix f.triples.rows f.triples.cols) f.edits.items) }
    ensures unread { IfErr result
        (IsUnread forms.Edited (seen S.left S.faults input.old input.new)) }
    ensures counts { CountHasNotFallen (seen S.left S.faults input.old input.new) }
    ensures gave { OfReading (seen S.left S.faults input.old input.new) GavePrefix }
{
    let mut bytes = Input::new(alloc, MAX_INPUT_BYTES)?;
    let triples = read_matrix(alloc, &mut bytes, input, End::LastEntry)?;
    let (rows, cols) = (triples.rows(), triples.cols());
    let edits = read_edits(alloc, &mut bytes, input, rows, cols)?;
    Ok(Edited { triples, edits })
}
