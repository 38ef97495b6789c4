//! The reading of the files.

ghost use Rattle.std.specs.Prelude.{IfErr, IfOk};
ghost use Rattle.mm_frames.specs.Batches.{files_of};
ghost use Rattle.sp_ports.specs.Device.{CountHasNotFallen, IsSteady, seen};
ghost use Rattle.btf_tool.specs.Jobs.{GavePrefix, OfReading};
ghost use Rattle.batch_core.specs.BatchRuns.{IsUnread, WasRead};
ghost use Rattle.batch_core.specs.Shares.{IsWithinLimits};

use crate::BatchRefusal;
use mm_frames::read_files;
use mm_reader::Input;
use sp_ids::MAX_INPUT_BYTES;
use sp_ports::Source;
use std::alloc::Global;

/// Reads the files of the batch that the input is.
pub(crate) fn read_batch<S: Source>(
    alloc: Global,
    input: &mut S,
) -> Result<Vec<Vec<u8>>, BatchRefusal>
    ensures read { IfOk result (λ files. OfReading (seen S.left S.faults input.old input.new)
        (λ call. WasRead call (files_of files.items))) }
    ensures steady { IfOk result (λ _. IsSteady (seen S.left S.faults input.old input.new)) }
    ensures limits { IfOk result (λ files. IsWithinLimits (files_of files.items)) }
    ensures unread { IfErr result (IsUnread (seen S.left S.faults input.old input.new)) }
    ensures counts { CountHasNotFallen (seen S.left S.faults input.old input.new) }
    ensures gave { OfReading (seen S.left S.faults input.old input.new) GavePrefix }
{
    let mut bytes = Input::new(alloc, MAX_INPUT_BYTES)?;
    Ok(read_files(alloc, &mut bytes, input)?)
}
