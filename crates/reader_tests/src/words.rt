//! The words of `btf`: which are taken, and the jobs that they name.

use btf_words::{
    Engine, EngineChoice, Job, ListedPairs, ReportOptions, Version, WordsError, Workers, read_words,
};
use sp_ids::MAX_WORKERS;
use std::alloc::{AllocError, Global};

/// A job as the table below has it: with a number of workers beside every engine.
enum Named {
    Rank {
        drop_zeros: bool,
    },
    Analyse {
        engine: Engine,
        workers: u32,
        report: ReportOptions,
        drop_zeros: bool,
    },
    Diagonal {
        drop_zeros: bool,
    },
    Check {
        drop_zeros: bool,
    },
    Load {
        size: u32,
        seed: u64,
        engine: Engine,
        workers: u32,
    },
    Edit,
    Bottleneck {
        drop_zeros: bool,
    },
}

impl Named {
    /// The job, where the number of workers is within its limits.
    fn job(&self) -> Option<Job> {
        Some(match *self {
            Named::Rank { drop_zeros } => Job::Rank { drop_zeros },
            Named::Analyse {
                engine,
                workers,
                report,
                drop_zeros,
            } => Job::Analyse {
                choice: choice(engine, workers)?,
                report,
                drop_zeros,
            },
            Named::Diagonal { drop_zeros } => Job::Diagonal { drop_zeros },
            Named::Check { drop_zeros } => Job::Check { drop_zeros },
            Named::Load {
                size,
                seed,
                engine,
                workers,
            } => Job::Load {
                size,
                seed,
                choice: choice(engine, workers)?,
            },
            Named::Edit => Job::Edit,
            Named::Bottleneck { drop_zeros } => Job::Bottleneck { drop_zeros },
        })
    }
}

/// An engine with so many workers.
fn choice(engine: Engine, workers: u32) -> Option<EngineChoice> {
    if 1 <= workers && workers <= MAX_WORKERS {
        Some(EngineChoice::with(engine, Workers::new(workers)))
    } else {
        None
    }
}

/// Words of each command with each of its options, a line each, and the job that they name.
#[rattlefmt::skip]
static SPELLINGS: [(&str, Named); 62] = [
    ("rank", Named::Rank { drop_zeros: false }),
    ("rank --", Named::Rank { drop_zeros: false }),
    ("rank --drop-zeros", Named::Rank { drop_zeros: true }),
    ("diagonal", Named::Diagonal { drop_zeros: false }),
    ("diagonal --", Named::Diagonal { drop_zeros: false }),
    ("diagonal --drop-zeros", Named::Diagonal { drop_zeros: true }),
    ("check", Named::Check { drop_zeros: false }),
    ("check --", Named::Check { drop_zeros: false }),
    ("check --drop-zeros", Named::Check { drop_zeros: true }),
    ("bottleneck", Named::Bottleneck { drop_zeros: false }),
    ("bottleneck --", Named::Bottleneck { drop_zeros: false }),
    ("bottleneck --drop-zeros", Named::Bottleneck { drop_zeros: true }),
    ("rank --drop-zeros --", Named::Rank { drop_zeros: true }),
    ("bottleneck --drop-zeros --", Named::Bottleneck { drop_zeros: true }),
    ("edit", Named::Edit),
    ("edit --", Named::Edit),
    ("analyse", Named::Analyse {
        engine: Engine::Graft,
        workers: 4,
        report: ReportOptions { version: Version::Two, order: false, pairs: ListedPairs::None },
        drop_zeros: false,
    }),
    ("analyse --", Named::Analyse {
        engine: Engine::Graft,
        workers: 4,
        report: ReportOptions { version: Version::Two, order: false, pairs: ListedPairs::None },
        drop_zeros: false,
    }),
    ("analyse --engine plain", Named::Analyse {
        engine: Engine::Plain,
        workers: 4,
        report: ReportOptions { version: Version::Two, order: false, pairs: ListedPairs::None },
        drop_zeros: false,
    }),
    ("analyse --engine=plain", Named::Analyse {
        engine: Engine::Plain,
        workers: 4,
        report: ReportOptions { version: Version::Two, order: false, pairs: ListedPairs::None },
        drop_zeros: false,
    }),
    ("analyse --engine mc21", Named::Analyse {
        engine: Engine::Mc21,
        workers: 4,
        report: ReportOptions { version: Version::Two, order: false, pairs: ListedPairs::None },
        drop_zeros: false,
    }),
    ("analyse --engine=mc21", Named::Analyse {
        engine: Engine::Mc21,
        workers: 4,
        report: ReportOptions { version: Version::Two, order: false, pairs: ListedPairs::None },
        drop_zeros: false,
    }),
    ("analyse --engine pf", Named::Analyse {
        engine: Engine::Pf,
        workers: 4,
        report: ReportOptions { version: Version::Two, order: false, pairs: ListedPairs::None },
        drop_zeros: false,
    }),
    ("analyse --engine=pf", Named::Analyse {
        engine: Engine::Pf,
        workers: 4,
        report: ReportOptions { version: Version::Two, order: false, pairs: ListedPairs::None },
        drop_zeros: false,
    }),
    ("analyse --engine graft", Named::Analyse {
        engine: Engine::Graft,
        workers: 4,
        report: ReportOptions { version: Version::Two, order: false, pairs: ListedPairs::None },
        drop_zeros: false,
    }),
    ("analyse --engine=graft", Named::Analyse {
        engine: Engine::Graft,
        workers: 4,
        report: ReportOptions { version: Version::Two, order: false, pairs: ListedPairs::None },
        drop_zeros: false,
    }),
    ("analyse --order", Named::Analyse {
        engine: Engine::Graft,
        workers: 4,
        report: ReportOptions { version: Version::Two, order: true, pairs: ListedPairs::None },
        drop_zeros: false,
    }),
    ("analyse --pairs", Named::Analyse {
        engine: Engine::Graft,
        workers: 4,
        report: ReportOptions { version: Version::Two, order: false, pairs: ListedPairs::Any },
        drop_zeros: false,
    }),
    ("analyse --order --pairs", Named::Analyse {
        engine: Engine::Graft,
        workers: 4,
        report: ReportOptions { version: Version::Two, order: true, pairs: ListedPairs::Any },
        drop_zeros: false,
    }),
    ("analyse --pairs --order", Named::Analyse {
        engine: Engine::Graft,
        workers: 4,
        report: ReportOptions { version: Version::Two, order: true, pairs: ListedPairs::Any },
        drop_zeros: false,
    }),
    ("analyse --order --engine mc21", Named::Analyse {
        engine: Engine::Mc21,
        workers: 4,
        report: ReportOptions { version: Version::Two, order: true, pairs: ListedPairs::None },
        drop_zeros: false,
    }),
    ("analyse --pairs --engine mc21 --order", Named::Analyse {
        engine: Engine::Mc21,
        workers: 4,
        report: ReportOptions { version: Version::Two, order: true, pairs: ListedPairs::Any },
        drop_zeros: false,
    }),
    ("analyse --order --engine=plain --pairs --", Named::Analyse {
        engine: Engine::Plain,
        workers: 4,
        report: ReportOptions { version: Version::Two, order: true, pairs: ListedPairs::Any },
        drop_zeros: false,
    }),
    ("analyse --drop-zeros --order", Named::Analyse {
        engine: Engine::Graft,
        workers: 4,
        report: ReportOptions { version: Version::Two, order: true, pairs: ListedPairs::None },
        drop_zeros: true,
    }),
    ("analyse --order --drop-zeros", Named::Analyse {
        engine: Engine::Graft,
        workers: 4,
        report: ReportOptions { version: Version::Two, order: true, pairs: ListedPairs::None },
        drop_zeros: true,
    }),
    ("analyse --least", Named::Analyse {
        engine: Engine::Graft,
        workers: 4,
        report: ReportOptions { version: Version::Two, order: false, pairs: ListedPairs::Least },
        drop_zeros: false,
    }),
    ("analyse --least --", Named::Analyse {
        engine: Engine::Graft,
        workers: 4,
        report: ReportOptions { version: Version::Two, order: false, pairs: ListedPairs::Least },
        drop_zeros: false,
    }),
    ("analyse --least --pairs", Named::Analyse {
        engine: Engine::Graft,
        workers: 4,
        report: ReportOptions { version: Version::Two, order: false, pairs: ListedPairs::Least },
        drop_zeros: false,
    }),
    ("analyse --pairs --least", Named::Analyse {
        engine: Engine::Graft,
        workers: 4,
        report: ReportOptions { version: Version::Two, order: false, pairs: ListedPairs::Least },
        drop_zeros: false,
    }),
    ("analyse --order --least", Named::Analyse {
        engine: Engine::Graft,
        workers: 4,
        report: ReportOptions { version: Version::Two, order: true, pairs: ListedPairs::Least },
        drop_zeros: false,
    }),
    ("analyse --pairs --least --order", Named::Analyse {
        engine: Engine::Graft,
        workers: 4,
        report: ReportOptions { version: Version::Two, order: true, pairs: ListedPairs::Least },
        drop_zeros: false,
    }),
    ("analyse --least --engine mc21 --order", Named::Analyse {
        engine: Engine::Mc21,
        workers: 4,
        report: ReportOptions { version: Version::Two, order: true, pairs: ListedPairs::Least },
        drop_zeros: false,
    }),
    ("analyse --engine=mc21 --least", Named::Analyse {
        engine: Engine::Mc21,
        workers: 4,
        report: ReportOptions { version: Version::Two, order: false, pairs: ListedPairs::Least },
        drop_zeros: false,
    }),
    ("analyse --pairs --report 1", Named::Analyse {
        engine: Engine::Graft,
        workers: 4,
        report: ReportOptions { version: Version::One, order: false, pairs: ListedPairs::Any },
        drop_zeros: false,
    }),
    ("analyse --report=1 --pairs", Named::Analyse {
        engine: Engine::Graft,
        workers: 4,
        report: ReportOptions { version: Version::One, order: false, pairs: ListedPairs::Any },
        drop_zeros: false,
    }),
    ("analyse --pairs --report 2", Named::Analyse {
        engine: Engine::Graft,
        workers: 4,
        report: ReportOptions { version: Version::Two, order: false, pairs: ListedPairs::Any },
        drop_zeros: false,
    }),
    ("analyse --pairs --report +02", Named::Analyse {
        engine: Engine::Graft,
        workers: 4,
        report: ReportOptions { version: Version::Two, order: false, pairs: ListedPairs::Any },
        drop_zeros: false,
    }),
    ("analyse --workers 1", Named::Analyse {
        engine: Engine::Graft,
        workers: 1,
        report: ReportOptions { version: Version::Two, order: false, pairs: ListedPairs::None },
        drop_zeros: false,
    }),
    ("analyse --workers 64", Named::Analyse {
        engine: Engine::Graft,
        workers: 64,
        report: ReportOptions { version: Version::Two, order: false, pairs: ListedPairs::None },
        drop_zeros: false,
    }),
    ("analyse --workers=2", Named::Analyse {
        engine: Engine::Graft,
        workers: 2,
        report: ReportOptions { version: Version::Two, order: false, pairs: ListedPairs::None },
        drop_zeros: false,
    }),
    ("analyse --workers 007", Named::Analyse {
        engine: Engine::Graft,
        workers: 7,
        report: ReportOptions { version: Version::Two, order: false, pairs: ListedPairs::None },
        drop_zeros: false,
    }),
    ("analyse --workers +8", Named::Analyse {
        engine: Engine::Graft,
        workers: 8,
        report: ReportOptions { version: Version::Two, order: false, pairs: ListedPairs::None },
        drop_zeros: false,
    }),
    ("analyse --workers 3 --engine pf", Named::Analyse {
        engine: Engine::Pf,
        workers: 3,
        report: ReportOptions { version: Version::Two, order: false, pairs: ListedPairs::None },
        drop_zeros: false,
    }),
    ("load --workers 64 --size 2 --seed 1", Named::Load {
        size: 2,
        seed: 1,
        engine: Engine::Graft,
        workers: 64,
    }),
    ("load --size 1 --seed 0", Named::Load {
        size: 1,
        seed: 0,
        engine: Engine::Graft,
        workers: 4,
    }),
    ("load --seed 0 --size 1 --", Named::Load {
        size: 1,
        seed: 0,
        engine: Engine::Graft,
        workers: 4,
    }),
    ("load --seed=18446744073709551615 --size=16777216", Named::Load {
        size: 16777216,
        seed: 18446744073709551615,
        engine: Engine::Graft,
        workers: 4,
    }),
    ("load --engine mc21 --seed 7 --size 30", Named::Load {
        size: 30,
        seed: 7,
        engine: Engine::Mc21,
        workers: 4,
    }),
    ("load --engine pf --size 30 --seed 7", Named::Load {
        size: 30,
        seed: 7,
        engine: Engine::Pf,
        workers: 4,
    }),
    ("load --size 30 --seed 7 --engine=pf", Named::Load {
        size: 30,
        seed: 7,
        engine: Engine::Pf,
        workers: 4,
    }),
    ("load --size 30 --engine=graft --seed 7", Named::Load {
        size: 30,
        seed: 7,
        engine: Engine::Graft,
        workers: 4,
    }),
    ("load --size 007 --engine=plain --seed +4", Named::Load {
        size: 7,
        seed: 4,
        engine: Engine::Plain,
        workers: 4,
    }),
];

/// Words of no command, and words behind a command that takes none.
static OTHER_COMMANDS: [&str; 51] = [
    "",
    "ran",
    "Rank",
    "rank rank",
    "rank analyse",
    "rank --order",
    "rank -- rank",
    "rank -- --",
    "-- rank",
    "--",
    "btf rank",
    "rank ",
    "help",
    "help rank",
    "--help",
    "-h",
    "--version",
    "-V",
    "rank --help",
    "rank -h",
    "analys",
    "analyze",
    "diagonal --pairs",
    "diagonal diagonal",
    "diag",
    "check report",
    "check --order",
    "check rank",
    "rank --engine fast",
    "rank --drop-zeros --drop-zeros",
    "rank --drop-zeros=true",
    "rank --drop_zeros",
    "check --report 1",
    "diagonal --drop",
    "rank --least",
    "diagonal --least",
    "check --least",
    "Edit",
    "edi",
    "edit edit",
    "edit rank",
    "edit 1",
    "edit --order",
    "edit --drop-zeros",
    "edit -- edit",
    "bottlenec",
    "bottlenecks",
    "bottleneck 1",
    "bottleneck --least",
    "bottleneck --drop-zeros=1",
    "bottleneck --drop-zeros --drop-zeros",
];

/// Words that ask for no analysis.
static OTHER_ANALYSES: [&str; 48] = [
    "analyse --help",
    "analyse -h",
    "analyse help",
    "analyse --engine",
    "analyse --engine ",
    "analyse --engine=",
    "analyse --engine --order",
    "analyse --engine fast",
    "analyse --engine=fast",
    "analyse --engine PF",
    "analyse --engine pf,mc21",
    "analyse --engine pf mc21",
    "analyse --engine pf --engine pf",
    "analyse --engine=pf --engine mc21",
    "analyse --eng pf",
    "analyse -engine pf",
    "analyse -e pf",
    "analyse --order --order",
    "analyse --order=1",
    "analyse --order=true",
    "analyse --order=",
    "analyse --order true",
    "analyse --ord",
    "analyse --pairs --pairs",
    "analyse --pairs=1",
    "analyse pairs",
    "analyse -- --order",
    "analyse --workers",
    "analyse --workers 0",
    "analyse --workers 65",
    "analyse --workers -1",
    "analyse --workers two",
    "analyse --workers=",
    "analyse --workers 2 --workers 2",
    "--order analyse",
    "analyse --size 3",
    "analyse --report",
    "analyse --report 0",
    "analyse --report 3",
    "analyse --report one",
    "analyse --report 1 --report 1",
    "analyse --drop-zeros --drop-zeros",
    "analyse --least --least",
    "analyse --least --pairs --least",
    "analyse --least=1",
    "analyse --least true",
    "analyse --leas",
    "analyse least",
];

/// Words that name no matrix.
static OTHER_LOADS: [&str; 21] = [
    "load",
    "load --size 3",
    "load --seed 3",
    "load --size 0 --seed 1",
    "load --size 16777217 --seed 1",
    "load --size 1 --seed 18446744073709551616",
    "load --size 1 --seed -1",
    "load --size 1 --seed",
    "load --size  --seed 1",
    "load --size=1 --seed=",
    "load --size 1.0 --seed 1",
    "load --size 0x1 --seed 1",
    "load --size 1 --size 1 --seed 1",
    "load --size 1 --seed 1 --engine fast",
    "load --size 1 --seed 1 --workers 65",
    "load --size 1 --seed 1 --order",
    "load --siz 1 --seed 1",
    "load 1 1",
    "load --size 1 --seed 1 --drop-zeros",
    "load --size 1 --seed 1 --report 1",
    "load --size 1 --seed 1 --least",
];

/// The words of a line, which one space parts: two spaces side by side hold an empty word.
pub(crate) fn words_of(alloc: Global, line: &str) -> Result<Vec<String>, AllocError> {
    let mut words = Vec::new(alloc);
    for word in line.split(' ') {
        words.push(String::from_str(alloc, word)?)?;
    }
    Ok(words)
}

/// Whether words are read as this.
fn are_read(alloc: Global, words: &[String], wanted: Result<Job, WordsError>) -> bool {
    read_words(alloc, words) == wanted
}

/// Whether the words of a line are.
fn is_read(alloc: Global, line: &str, wanted: Result<Job, WordsError>) -> bool {
    match words_of(alloc, line) {
        Err(_) => false,
        Ok(words) => are_read(alloc, words.as_slice(), wanted),
    }
}

/// Whether the words of each line are refused.
fn are_refused(alloc: Global, lines: &[&str]) -> bool {
    for line in lines {
        if !is_read(alloc, line, Err(WordsError::Usage)) {
            return false;
        }
    }
    true
}

/// Whether the words of each line are taken.
fn are_taken(alloc: Global, spellings: &[(&str, Named)]) -> bool {
    for (line, named) in spellings {
        let Some(job) = named.job() else {
            return false;
        };
        if !is_read(alloc, line, Ok(job)) {
            return false;
        }
    }
    true
}

#[test]
fn takes_each_command_with_each_option(rt: HostRuntime) {
    assert!(rt; are_taken(rt.alloc(), &SPELLINGS));
}

#[test]
fn refuses_no_words(rt: HostRuntime) {
    assert!(rt; are_read(rt.alloc(), &[], Err(WordsError::Usage)));
}

#[test]
fn refuses_other_words(rt: HostRuntime) {
    assert!(rt; are_refused(rt.alloc(), &OTHER_COMMANDS));
    assert!(rt; are_refused(rt.alloc(), &OTHER_ANALYSES));
    assert!(rt; are_refused(rt.alloc(), &OTHER_LOADS));
}
