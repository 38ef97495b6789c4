//! From words to a job.

ghost use Rattle.std.specs.Prelude.{◌≡◌, ◌≤◌, List, IfOk, IfSome, IsErrOf, Some, map, option_and_then, option_map, string_bytes};
ghost use Rattle.clap.specs.Words.{Text, first_of, found_of, rows_of, subcommand_rows_of};
ghost use Rattle.sp_ids.specs.Limits.{max_load_size};
ghost use Rattle.btf_words.specs.Table.{Names, engine_names, texts_of};
ghost use Rattle.btf_words.specs.Choices.{HasWorkers};
ghost use Rattle.btf_words.specs.Words.{AreTaken, IsWithinLimits, ReadsAlike, engine_in, engine_named as engine_of_name, drops_zeros, is_given, job_from, job_of, number_in, number_within as number_in_text, pairs_in, report_in, version_in, choice_in, seed_in, size_in};
ghost use Rattle.btf_words.specs.declared.jobs.Job.{Job as JobValue};

use crate::commands::command_line;
use crate::options::LATEST_VERSION;
use crate::{Engine, EngineChoice, Job, ListedPairs, ReportOptions, Version, WordsError, Workers};
use clap::ArgMatches;
use clap::error::ErrorKind;
use sp_ids::{MAX_LOAD_SEED, MAX_LOAD_SIZE, MAX_WORKERS};
use std::alloc::Global;

/// The engine where none is named.
const DEFAULT_ENGINE: Engine = Engine::Graft;

/// The value of a flag that is among the words.
const GIVEN: &str = "true";

/// The job that the words after the program's name name.
///
/// `Usage` is the answer where the words are not taken, and only there. Words that ask for help or
/// the version are not. Numbers are read as clap's parser of numbers reads them, so `007` and `+7`
/// are 7. It takes memory for the command line and for what is found in the words, and
/// `OutOfMemory` tells that there was not enough.
pub fn read_words(alloc: Global, words: &[String]) -> Result<Job, WordsError>
    ensures taken { IfOk result (λ job. AreTaken (map string_bytes words.now)) }
    ensures job { IfOk result (λ job. job_of (map string_bytes words.now) ≡ Some job) }
    ensures limits { IfOk result IsWithinLimits }
    ensures usage { IsErrOf result WordsError.Usage → ¬ AreTaken (map string_bytes words.now) }
{
    let Ok(program) = command_line(alloc) else {
        return Err(WordsError::OutOfMemory);
    };
    match program.try_get_matches_from(words) {
        Ok(matches) => match job_in(&matches) {
            Some(job) => Ok(job),
            None => Err(WordsError::Usage),
        },
        Err(error) => match error.kind() {
            ErrorKind::OutOfMemory => Err(WordsError::OutOfMemory),
            _ => Err(WordsError::Usage),
        },
    }
}

/// Words that are taken name a job.
pub fn taken_words_name_a_job()
    ensures { (words : List Text) → AreTaken words → (job : JobValue) × (job_of words ≡ Some job) }
{}

/// Where the names of the engines lie counts for nothing.
pub fn names_lie_anywhere()
    ensures { (names : Names) (words : List Text) → texts_of names ≡ engine_names
        → ReadsAlike names words }
{}

/// The job of the command that the words entered.
fn job_in(matches: &ArgMatches<'_>) -> Option<Job>
    ensures job { result ≡ option_and_then job_from (subcommand_rows_of matches.now) }
    ensures limits { IfSome result IsWithinLimits }
{
    let (name, options) = matches.subcommand()?;
    job_named(name, options)
}

/// The job of a command, by the command's name and what was found for its options.
fn job_named(name: &str, options: &ArgMatches<'_>) -> Option<Job>
    ensures job { result ≡ job_from (name.now, rows_of (found_of options.now)) }
    ensures limits { IfSome result IsWithinLimits }
{
    if name == "rank" {
        Some(Job::Rank {
            drop_zeros: drops_zeros_of(options),
        })
    } else if name == "analyse" {
        Some(Job::Analyse {
            choice: choice_of(options),
            report: report_of(options),
            drop_zeros: drops_zeros_of(options),
        })
    } else if name == "diagonal" {
        Some(Job::Diagonal {
            drop_zeros: drops_zeros_of(options),
        })
    } else if name == "check" {
        Some(Job::Check {
            drop_zeros: drops_zeros_of(options),
        })
    } else if name == "load" {
        Some(Job::Load {
            size: size_of(options),
            seed: seed_of(options),
            choice: choice_of(options),
        })
    } else if name == "edit" {
        Some(Job::Edit)
    } else if name == "bottleneck" {
        Some(Job::Bottleneck {
            drop_zeros: drops_zeros_of(options),
        })
    } else {
        None
    }
}

fn choice_of(options: &ArgMatches<'_>) -> EngineChoice
    ensures choice { result ≡ choice_in (rows_of (found_of options.now)) }
    ensures workers { HasWorkers result }
{
    let workers = number_of(options, "workers", 1, u64::from(MAX_WORKERS)) as u32;
    EngineChoice::with(engine_of(options), Workers::new(workers))
}

fn report_of(options: &ArgMatches<'_>) -> ReportOptions
    ensures { result ≡ report_in (rows_of (found_of options.now)) }
{
    ReportOptions {
        version: version_of(options),
        order: flag_of(options, "order"),
        pairs: pairs_of(options),
    }
}

fn version_of(options: &ArgMatches<'_>) -> Version
    ensures { result ≡ version_in (rows_of (found_of options.now)) }
{
    if number_of(options, "report", 1, LATEST_VERSION) == 1 {
        Version::One
    } else {
        Version::Two
    }
}

fn pairs_of(options: &ArgMatches<'_>) -> ListedPairs
    ensures { result ≡ pairs_in (rows_of (found_of options.now)) }
{
    if flag_of(options, "least") {
        ListedPairs::Least
    } else if flag_of(options, "pairs") {
        ListedPairs::Any
    } else {
        ListedPairs::None
    }
}

fn drops_zeros_of(options: &ArgMatches<'_>) -> bool
    ensures { result ≡ drops_zeros (rows_of (found_of options.now)) }
{
    flag_of(options, "drop-zeros")
}

/// The first value of an option.
fn value_of<'a>(options: &ArgMatches<'a>, name: &str) -> Option<&'a str>
    ensures { option_map (λ s. s.now) result ≡ first_of name.now (rows_of (found_of options.now)) }
{
    options.get_str(name)
}

/// The engine that is given. The command line takes no name but an engine's, and has a default
/// where none is given.
fn engine_of(options: &ArgMatches<'_>) -> Engine
    ensures { result ≡ engine_in (rows_of (found_of options.now)) }
{
    let Some(name) = value_of(options, "engine") else {
        return DEFAULT_ENGINE;
    };
    engine_named(name).unwrap_or(DEFAULT_ENGINE)
}

/// The engine of a name.
fn engine_named(name: &str) -> Option<Engine>
    ensures { result ≡ engine_of_name name.now }
{
    if name == "plain" {
        Some(Engine::Plain)
    } else if name == "mc21" {
        Some(Engine::Mc21)
    } else if name == "pf" {
        Some(Engine::Pf)
    } else if name == "graft" {
        Some(Engine::Graft)
    } else {
        None
    }
}

/// Whether a flag is among the words.
fn flag_of(options: &ArgMatches<'_>, name: &str) -> bool
    ensures { result ≡ is_given name.now (rows_of (found_of options.now)) }
{
    match value_of(options, name) {
        Some(value) => value == GIVEN,
        None => false,
    }
}

fn size_of(options: &ArgMatches<'_>) -> u32
    ensures number { result
        ≡ size_in (rows_of (found_of options.now)) }
    ensures range { (1 ≤ result) × (result ≤ max_load_size) }
{
    number_of(options, "size", 1, u64::from(MAX_LOAD_SIZE)) as u32
}

fn seed_of(options: &ArgMatches<'_>) -> u64
    ensures { result ≡ seed_in (rows_of (found_of options.now)) }
{
    number_of(options, "seed", 0, MAX_LOAD_SEED)
}

/// The number of an option within its bounds. The command line takes no other text, and an option
/// that need not be given has a default; of a text that is no such number it would be the least.
pub(crate) fn number_of(options: &ArgMatches<'_>, name: &str, low: u64, high: u64) -> u64
    requires { low ≤ high }
    ensures number { result ≡ number_in low high name.now (rows_of (found_of options.now)) }
    ensures range { (low ≤ result) × (result ≤ high) }
{
    let Some(text) = value_of(options, name) else {
        return low;
    };
    number_within(text, low, high).unwrap_or(low)
}

/// The number that a text spells, where it is one within the bounds.
fn number_within(text: &str, low: u64, high: u64) -> Option<u64>
    ensures number { result ≡ number_in_text low high text.now }
    ensures range { IfSome result (λ number. (low ≤ number) × (number ≤ high)) }
{
    match text.parse::<u64>() {
        Ok(number) => {
            if low <= number && number <= high {
                Some(number)
            } else {
                None
            }
        }
        Err(_) => None,
    }
}
