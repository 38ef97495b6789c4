//! The options of the commands.

ghost use Rattle.std.specs.Prelude.{◌≡◌, false};
ghost use Rattle.clap.specs.Words.{rule_of};
ghost use Rattle.btf_words.specs.Table.{engine_rule, flag_rule, drop_zeros_rule, least_rule, number_rule, order_rule, pairs_rule, report_rule, size_rule, seed_rule, workers_rule};

use clap::builder::ValueParser;
use clap::{Arg, ArgAction};
use sp_ids::{MAX_LOAD_SEED, MAX_LOAD_SIZE, MAX_WORKERS};
use std::alloc::Global;

/// The engine where none is named.
const DEFAULT_ENGINE: &str = "graft";

/// The number of workers where none is given.
const DEFAULT_WORKERS: &str = "4";

/// The latest version of a report.
pub(crate) const LATEST_VERSION: u64 = 2;

/// The version of a report where none is given.
const DEFAULT_VERSION: &str = "2";

/// `--engine E`, where E is one of these names: the default where it is not given.
pub(crate) fn engine<'a>(alloc: Global, engines: &'a [&'a str]) -> Arg<'a>
    ensures rule { rule_of result ≡ engine_rule engines.entry }
    ensures local { result.global ≡ false }
{
    Arg::new(alloc, "engine")
        .long("engine")
        .action(ArgAction::Set)
        .value_parser(engines)
        .default_value(DEFAULT_ENGINE)
}

/// `--workers W`: the default where it is not given.
pub(crate) fn workers<'a>(alloc: Global) -> Arg<'a>
    ensures rule { rule_of result ≡ workers_rule }
    ensures local { result.global ≡ false }
{
    Arg::new(alloc, "workers")
        .long("workers")
        .action(ArgAction::Set)
        .value_parser(ValueParser::unsigned(1, u64::from(MAX_WORKERS)))
        .default_value(DEFAULT_WORKERS)
}

/// `--order`.
pub(crate) fn order<'a>(alloc: Global) -> Arg<'a>
    ensures rule { rule_of result ≡ order_rule }
    ensures local { result.global ≡ false }
{
    flag(alloc, "order")
}

/// `--pairs`.
pub(crate) fn pairs<'a>(alloc: Global) -> Arg<'a>
    ensures rule { rule_of result ≡ pairs_rule }
    ensures local { result.global ≡ false }
{
    flag(alloc, "pairs")
}

/// `--drop-zeros`.
pub(crate) fn drop_zeros<'a>(alloc: Global) -> Arg<'a>
    ensures rule { rule_of result ≡ drop_zeros_rule }
    ensures local { result.global ≡ false }
{
    flag(alloc, "drop-zeros")
}

/// `--report V`: the default where it is not given.
pub(crate) fn report<'a>(alloc: Global) -> Arg<'a>
    ensures rule { rule_of result ≡ report_rule }
    ensures local { result.global ≡ false }
{
    Arg::new(alloc, "report")
        .long("report")
        .action(ArgAction::Set)
        .value_parser(ValueParser::unsigned(1, LATEST_VERSION))
        .default_value(DEFAULT_VERSION)
}

/// `--least`.
pub(crate) fn least<'a>(alloc: Global) -> Arg<'a>
    ensures rule { rule_of result ≡ least_rule }
    ensures local { result.global ≡ false }
{
    flag(alloc, "least")
}

/// `--size N`, which must be there.
pub(crate) fn size<'a>(alloc: Global) -> Arg<'a>
    ensures rule { rule_of result ≡ size_rule }
    ensures local { result.global ≡ false }
{
    number(alloc, "size", 1, u64::from(MAX_LOAD_SIZE))
}

/// `--seed S`, which must be there.
pub(crate) fn seed<'a>(alloc: Global) -> Arg<'a>
    ensures rule { rule_of result ≡ seed_rule }
    ensures local { result.global ≡ false }
{
    number(alloc, "seed", 0, MAX_LOAD_SEED)
}

fn flag<'a>(alloc: Global, name: &'a str) -> Arg<'a>
    ensures rule { rule_of result ≡ flag_rule name.entry.now }
    ensures local { result.global ≡ false }
{
    Arg::new(alloc, name).long(name).action(ArgAction::SetTrue)
}

fn number<'a>(alloc: Global, name: &'a str, low: u64, high: u64) -> Arg<'a>
    ensures rule { rule_of result ≡ number_rule name.entry.now low high }
    ensures local { result.global ≡ false }
{
    Arg::new(alloc, name)
        .long(name)
        .action(ArgAction::Set)
        .required(true)
        .value_parser(ValueParser::unsigned(low, high))
}
