//! The parser of the command line.

ghost use Rattle.std.specs.Prelude.{◌≡◌, ◌↔◌, IfErr, IfOk, IfSome, IsSome, Some, codes, false, map};
ghost use Rattle.clap.specs.Words.{app_of, found_of, rows_of, rule_of, with_rule};
ghost use Rattle.command_line.specs.Line.{HasNumber, Says, Refuses, number_of, refusal_of};
ghost use Rattle.command_line.specs.Program.{bare, history_rule, number_rule, program, script_rule};
ghost use Rattle.script.specs.Ranges.{InRange};

use crate::help::{ABOUT, MORE};
use crate::line::{BadLine, CommandLine};
use clap::builder::ValueParser;
use clap::error::ErrorKind;
use clap::{Arg, ArgAction, ArgMatches, Command, Error};
use script::Options;
use std::alloc::{AllocError, Global};

/// The largest width of a fragment, in bytes.
const MAX_WIDTH: u32 = 65_536;

/// The largest number of workers.
const MAX_WORKERS: u32 = 16;

/// The largest limit of a journal, in entries.
const MAX_LIMIT: u32 = 1_048_576;

/// What `--version` prints after the program's name.
const VERSION: &str = "0.1.0";

/// The error for an error of `clap`. Out of memory becomes an error of its own.
fn refused(error: Error) -> BadLine
    ensures { result ≡ refusal_of error }
{
    match error.kind() {
        ErrorKind::OutOfMemory => BadLine::NoMemory,
        _ => BadLine::Clap(error),
    }
}

/// The argument for the script, which is required.
fn script_argument<'a>(alloc: Global) -> Arg<'a>
    ensures rule { rule_of result ≡ script_rule }
    ensures local { result.global ≡ false }
{
    Arg::new(alloc, "SCRIPT")
        .required(true)
        .help("the script's file, or /dev/stdin")
}

/// The option that prints the journal.
fn history_option<'a>(alloc: Global) -> Arg<'a>
    ensures rule { rule_of result ≡ history_rule }
    ensures local { result.global ≡ false }
{
    Arg::new(alloc, "history")
        .long("history")
        .action(ArgAction::SetTrue)
        .help("print the journal: each call and its reply")
}

/// An option with a number from 1 to `most`.
fn number_option<'a>(
    alloc: Global,
    id: &'a str,
    value_name: &'a str,
    most: u32,
    default: &'a str,
    help: &'a str,
) -> Arg<'a>
    ensures rule { rule_of result ≡ number_rule id.entry.now most default.entry.now }
    ensures local { result.global ≡ false }
{
    Arg::new(alloc, id)
        .long(id)
        .value_name(value_name)
        .help(help)
        .value_parser(ValueParser::unsigned(1, u64::from(most)))
        .default_value(default)
}

/// The program's command with its first two arguments, the script and `--width`.
fn begun_command<'a>(alloc: Global) -> Result<Command<'a>, AllocError>
    ensures { IfOk result (λ command. app_of command ≡ with_rule (with_rule bare script_rule)
        (number_rule (codes "width") 65536 (codes "1"))) }
{
    let width = number_option(
        alloc,
        "width",
        "N",
        MAX_WIDTH,
        "1",
        "bytes of a fragment, 1 to 65536",
    );
    let command = Command::new(alloc, "lrcstore")
        .no_binary_name(true)
        .version(VERSION)
        .about(ABOUT)
        .after_help(MORE)
        .arg(script_argument(alloc))?
        .arg(width)?;
    Ok(command)
}

/// The program's command.
fn command<'a>(alloc: Global) -> Result<Command<'a>, AllocError>
    ensures { IfOk result (λ command. app_of command ≡ program) }
{
    let workers = number_option(
        alloc,
        "workers",
        "K",
        MAX_WORKERS,
        "1",
        "number of workers, 1 to 16",
    );
    let limit = number_option(
        alloc,
        "limit",
        "J",
        MAX_LIMIT,
        "4096",
        "most entries of the journal, 1 to 1048576",
    );
    let command = begun_command(alloc)?
        .arg(workers)?
        .arg(limit)?
        .arg(history_option(alloc))?;
    Ok(command)
}

/// The number of an option, or `None` if it has none from 1 to `most`.
fn number(matches: &ArgMatches, id: &str, most: u32) -> Option<u32>
    ensures range { IfSome result (λ n. InRange n most) }
    ensures value { IfSome result (λ n. number_of id.now (rows_of (found_of matches.now))
        ≡ Some n) }
    ensures some { IsSome result ↔ HasNumber id.now most (rows_of (found_of matches.now)) }
{
    let n = matches.get_one::<u32>(id)?;
    if 1 <= n && n <= most { Some(n) } else { None }
}

/// The options in the words after the program's name: `SCRIPT [--width N] [--workers K] [--limit J]
/// [--history]`. N is from 1 to 65,536, K from 1 to 16 and J from 1 to 1,048,576. Their defaults
/// are 1, 1 and 4,096.
///
/// The parser has tested the ranges. This function tests them again, so that they are proved for
/// the caller.
///
/// `BadLine::Clap` has the text that `clap` prints. It comes only for a line that `clap` refuses,
/// for `--help` or for `--version`. `BadLine::NoMemory` may come for any line, if memory runs out.
pub fn parse_line<'a>(alloc: Global, words: &'a [&'a str]) -> Result<CommandLine, BadLine>
    ensures ranges { IfOk result (λ line. InRange line.options.width 65536
        × InRange line.options.workers 16 × InRange line.options.limit 1048576) }
    ensures said { IfOk result (Says (map (λ w. w.now) words.entry.now)) }
    ensures refused { IfErr result (Refuses (map (λ w. w.now) words.entry.now)) }
{
    let matches = match command(alloc)?.try_get_matches_from(words) {
        Ok(matches) => matches,
        Err(error) => return Err(refused(error)),
    };
    let (Some(script), Some(width), Some(workers), Some(limit)) = (
        matches.get_str("SCRIPT"),
        number(&matches, "width", MAX_WIDTH),
        number(&matches, "workers", MAX_WORKERS),
        number(&matches, "limit", MAX_LIMIT),
    ) else {
        // A line that the parser accepts has all four.
        return Err(BadLine::NoMemory);
    };
    let options = Options {
        width,
        workers,
        limit,
        history: matches.get_flag("history"),
    };
    Ok(CommandLine {
        script: String::from_str(alloc, script)?,
        options,
    })
}
