//! Reading the files of a batch.

ghost use Rattle.std.specs.Prelude.{◌≡◌, ◌≤◌, ◌<◌, ◌+◌, length, IfErr, IfOk, IsTrue, OnOk};
ghost use Rattle.std.specs.List.{All};
ghost use Rattle.sp_ids.specs.Limits.{max_batch_files, max_batch_file_bytes};
ghost use Rattle.sp_ports.specs.Device.{seen};
ghost use Rattle.mm_defs.specs.Calls.{room};
ghost use Rattle.mm_reader.specs.Fronts.{front};
ghost use Rattle.mm_reader.specs.Inputs.{Asks, CanRead, Draws};
ghost use Rattle.mm_frames.specs.Batches.{HasFrameKind, files_of};
ghost use Rattle.mm_frames.specs.Frames.{AnswersLast};
ghost use Rattle.mm_frames.specs.Readings.{Fares, GivesFile, GivesFiles, TellsFile, TellsFiles};

use crate::batch::BatchError;
use crate::header::{read_header, stopped};
use mm_defs::Kind;
use mm_reader::{Input, next_byte};
use sp_ports::Source;
use std::alloc::Global;

/// The answer where the input ends within the file behind so many.
fn short_file(before: usize) -> BatchError
    requires { before < max_batch_files }
    ensures { result ≡ BatchError.Malformed (before + 1) Kind.ShortFile }
{
    BatchError::Malformed {
        file: before as u32 + 1,
        kind: Kind::ShortFile,
    }
}

/// Reads the bytes of a file behind so many.
fn read_file<S: Source>(
    alloc: Global,
    input: &mut Input,
    source: &mut S,
    before: usize,
    bytes: u64,
) -> Result<Vec<u8>, BatchError>
    requires ready { CanRead (S.left source.old) input.old }
    requires few { before < max_batch_files }
    requires small { bytes ≤ max_batch_file_bytes }
    requires most { length input.old.ahead ≤ room input.old + 1 }
    ensures answer { TellsFile before bytes (front input.old) (front input.new)
        (seen S.left S.faults source.old source.new) result }
    ensures gives { GivesFile result }
    ensures most { length input.new.ahead ≤ room input.new + 1 }
    ensures asks { Asks S.left source.old source.new input.old input.new }
    ensures fares { Fares (seen S.left S.faults source.old source.new) input.new.good result }
{
    let mut file = Vec::new(alloc);
    while (file.len() as u64) < bytes {
        match next_byte(input, source) {
            Err(error) => return Err(stopped(error)),
            Ok(None) => return Err(short_file(before)),
            Ok(Some(byte)) => {
                if let Err(_) = file.push(byte) {
                    return Err(BatchError::OutOfMemory);
                }
            }
        }
    }
    Ok(file)
}

/// The input ended with a header that tells so many bytes.
fn end_with(alloc: Global, bytes: u64, files: Vec<Vec<u8>>) -> Result<Vec<Vec<u8>>, BatchError>
    requires { length files.items < max_batch_files }
    ensures answer { AnswersLast (files_of files.items) bytes result }
    ensures kind { IfErr result HasFrameKind }
    ensures few { IfOk result (λ v. length v.items ≤ max_batch_files) }
    ensures small { All (λ file. length file.items ≤ max_batch_file_bytes) files.items
        → IfOk result (λ v. All (λ file. length file.items ≤ max_batch_file_bytes) v.items) }
{
    let mut files = files;
    if bytes > 0 {
        return Err(short_file(files.len()));
    }
    match files.push(Vec::new(alloc)) {
        Err(_) => Err(BatchError::OutOfMemory),
        Ok(()) => Ok(files),
    }
}

/// Reads the files of a batch, up to the end of the input. Before each file stands a header, a line
/// of the words `file` and a number, and then that many bytes follow; nothing else stands between
/// files.
///
/// The first bad frame is answered, `Malformed` or `Limit`: a header is judged when its line has
/// ended, and a file is too short where the input ended within it. `TooLong` is answered where more
/// bytes have come than may be used, and `ReadFault` where a read has failed, if no frame that had
/// ended is bad. After these two the input is not good; after another error it is, and some of the
/// bytes were used. It takes memory for the bytes as they come, and none by the number of a header;
/// the work is linear in the bytes.
pub fn read_files<S: Source>(
    alloc: Global,
    input: &mut Input,
    source: &mut S,
) -> Result<Vec<Vec<u8>>, BatchError>
    requires { CanRead (S.left source.old) input.old }
    ensures tells { TellsFiles input.old (seen S.left S.faults source.old source.new)
        input.new.ahead result }
    ensures gives { GivesFiles result }
    ensures draws { Draws S.left S.faults source.old source.new input.old input.new }
    ensures fares { Fares (seen S.left S.faults source.old source.new) input.new.good result }

    // All files were read where a read has given none, whatever the source tells of its bytes.
    ensures ended { OnOk result (IsTrue input.new.at_end) }
{
    let mut files = Vec::new(alloc);
    'reading: loop {
        let before = files.len();
        let header = match read_header(input, source, before)? {
            None => return Ok(files),
            Some(header) => header,
        };
        if header.last {
            return end_with(alloc, header.bytes, files);
        }
        let file = read_file(alloc, input, source, before, header.bytes)?;
        if let Err(_) = files.push(file) {
            return Err(BatchError::OutOfMemory);
        }
    }
}
