//! The commands of the program. Each joins the program by one function, and `command_line` lists
//! those that are there.

ghost use Rattle.std.specs.Prelude.{◌≡◌, [], IfOk, map};
ghost use Rattle.clap.specs.Words.{app_of, rule_of, with_subcommand};
ghost use Rattle.btf_words.specs.Table.{AreLocal, IsBtf, analyse_command, command, edit_command, load_command, program as program_shape, reading_command};

use crate::options::{drop_zeros, engine, least, order, pairs, report, seed, size, workers};
use clap::{Arg, Command};
use std::alloc::{AllocError, Global};

static ENGINES: [&str; 4] = ["plain", "mc21", "pf", "graft"];

/// The command line of the program.
pub(crate) fn command_line<'a>(alloc: Global) -> Result<Command<'a>, AllocError>
    ensures { IfOk result (λ c. IsBtf (app_of c)) }
{
    let engines: &'a [&'a str] = ENGINES.as_slice();
    let program = program(alloc);
    let program = with_reading_command(alloc, "rank", program)?;
    let program = with_analyse(alloc, engines, program)?;
    let program = with_reading_command(alloc, "diagonal", program)?;
    let program = with_reading_command(alloc, "check", program)?;
    let program = with_load(alloc, engines, program)?;
    let program = with_edit(alloc, program)?;
    let program = with_reading_command(alloc, "bottleneck", program)?;
    Ok(program)
}

/// The program with no command yet.
fn program<'a>(alloc: Global) -> Command<'a>
    ensures { app_of result ≡ record { top = program_shape; subs = [] } }
{
    Command::new(alloc, "btf")
        .no_binary_name(true)
        .disable_help_flag(true)
        .disable_help_subcommand(true)
        .subcommand_required(true)
}

/// The program with one more command, which has these options.
fn with_command<'a>(
    alloc: Global,
    name: &'a str,
    options: Vec<Arg<'a>>,
    program: Command<'a>,
) -> Result<Command<'a>, AllocError>
    requires { AreLocal options.items }
    ensures { IfOk result (λ c. app_of c ≡ with_subcommand (app_of program.entry)
        (command name.entry.now (map rule_of options.entry.items))) }
{
    let command = Command::new(alloc, name).args(options)?;
    program.subcommand(command)
}

/// The program with a command that reads a matrix and has the one option `--drop-zeros`.
fn with_reading_command<'a>(
    alloc: Global,
    name: &'a str,
    program: Command<'a>,
) -> Result<Command<'a>, AllocError>
    ensures { IfOk result (λ c. app_of c
        ≡ with_subcommand (app_of program.entry) (reading_command name.entry.now)) }
{
    let options = vec![in alloc; drop_zeros(alloc)]?;
    with_command(alloc, name, options, program)
}

fn with_analyse<'a>(
    alloc: Global,
    engines: &'a [&'a str],
    program: Command<'a>,
) -> Result<Command<'a>, AllocError>
    ensures { IfOk result (λ c. app_of c
        ≡ with_subcommand (app_of program.entry) (analyse_command engines.entry)) }
{
    let options = vec![in alloc;
        engine(alloc, engines),
        workers(alloc),
        order(alloc),
        pairs(alloc),
        drop_zeros(alloc),
        report(alloc),
        least(alloc),
    ]?;
    with_command(alloc, "analyse", options, program)
}

fn with_load<'a>(
    alloc: Global,
    engines: &'a [&'a str],
    program: Command<'a>,
) -> Result<Command<'a>, AllocError>
    ensures { IfOk result (λ c. app_of c
        ≡ with_subcommand (app_of program.entry) (load_command engines.entry)) }
{
    let options = vec![in alloc;
        size(alloc),
        seed(alloc),
        engine(alloc, engines),
        workers(alloc),
    ]?;
    with_command(alloc, "load", options, program)
}

/// The program with the command that has no option.
fn with_edit<'a>(alloc: Global, program: Command<'a>) -> Result<Command<'a>, AllocError>
    ensures { IfOk result (λ c. app_of c ≡ with_subcommand (app_of program.entry) edit_command) }
{
    with_command(alloc, "edit", Vec::new(alloc), program)
}
