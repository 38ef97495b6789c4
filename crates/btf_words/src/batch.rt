//! The words of `btf_batch`, the program over a batch of files.

ghost use Rattle.std.specs.Prelude.{◌≡◌, IfOk, IsErrOf, map, string_bytes};
ghost use Rattle.clap.specs.Words.{app_of};
ghost use Rattle.btf_words.specs.BatchWords.{AreTaken, IsWithinLimits, btf_batch, workers_of};
ghost use Rattle.btf_words.specs.UsageLine.{batch_usage_line as line_of_usage};

use crate::options::workers;
use crate::reading::number_of;
use crate::{WordsError, Workers};
use clap::Command;
use clap::error::ErrorKind;
use sp_ids::MAX_WORKERS;
use std::alloc::{AllocError, Global};

/// How many workers the words after the name of `btf_batch` name: 1 to 64, and 4 where they name
/// none.
///
/// `Usage` is the answer where the words are not taken, and only there: nothing but `--workers W`
/// is. Words that ask for help or the version are not taken. The number is read as clap's parser of
/// numbers reads it, so `007` and `+7` are 7. It takes memory for the command line and for what is
/// found in the words, and `OutOfMemory` tells that there was not enough.
pub fn read_batch_words(alloc: Global, words: &[String]) -> Result<Workers, WordsError>
    ensures taken { IfOk result (λ workers. AreTaken (map string_bytes words.now)) }
    ensures workers { IfOk result (λ workers. workers ≡ workers_of (map string_bytes words.now)) }
    ensures limits { IfOk result IsWithinLimits }
    ensures usage { IsErrOf result WordsError.Usage → ¬ AreTaken (map string_bytes words.now) }
{
    let Ok(program) = program(alloc) else {
        return Err(WordsError::OutOfMemory);
    };
    match program.try_get_matches_from(words) {
        Ok(matches) => {
            let workers = number_of(&matches, "workers", 1, u64::from(MAX_WORKERS));
            Ok(Workers::new(workers as u32))
        }
        Err(error) => match error.kind() {
            ErrorKind::OutOfMemory => Err(WordsError::OutOfMemory),
            _ => Err(WordsError::Usage),
        },
    }
}

/// The command line of the program.
fn program<'a>(alloc: Global) -> Result<Command<'a>, AllocError>
    ensures { IfOk result (λ c. app_of c ≡ btf_batch) }
{
    Command::new(alloc, "btf_batch")
        .no_binary_name(true)
        .disable_help_flag(true)
        .arg(workers(alloc))
}

/// The line that is written where the words are not taken, with its line end.
pub fn batch_usage_line() -> &'static str
    ensures { result.now ≡ line_of_usage }
{
    "btf_batch: usage: btf_batch [--workers W]\n"
}
