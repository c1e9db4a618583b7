//! The options of each command.

use clap::builder::ValueParser;
use clap::{Arg, ArgAction, Command};
use std::alloc::{AllocError, Global};

/// What `--version` prints after the program's name.
const VERSION: &str = "0.1.0";

/// What the help says below the options.
const MORE: &str = "Exit status: 0 all is whole, 1 something is lost and recoverable, 2 something \
    is unrecoverable, 3 the command line is refused or a file can't be read or written. \
    docs/files.md describes it all.";

/// An option with a value.
fn valued<'a>(alloc: Global, id: &'a str, value_name: &'a str, help: &'a str) -> Arg<'a> {
    Arg::new(alloc, id)
        .long(id)
        .value_name(value_name)
        .help(help)
}

/// An option with no value.
fn flag<'a>(alloc: Global, id: &'a str, help: &'a str) -> Arg<'a> {
    Arg::new(alloc, id)
        .long(id)
        .action(ArgAction::SetTrue)
        .help(help)
}

/// An option with a number.
fn number<'a>(
    alloc: Global,
    id: &'a str,
    range: (u64, u64),
    default: &'a str,
    help: &'a str,
) -> Arg<'a> {
    valued(alloc, id, "N", help)
        .value_parser(ValueParser::unsigned(range.0, range.1))
        .default_value(default)
}

/// An option with one or more values.
fn listed<'a>(alloc: Global, id: &'a str, value_name: &'a str, help: &'a str) -> Arg<'a> {
    valued(alloc, id, value_name, help)
        .num_args(1..)
        .action(ArgAction::Append)
}

/// The words of a command, of which there is at least one.
fn words<'a>(alloc: Global, id: &'a str, help: &'a str) -> Arg<'a> {
    Arg::new(alloc, id)
        .required(true)
        .num_args(1..)
        .action(ArgAction::Append)
        .help(help)
}

/// The option for the threads.
fn threads<'a>(alloc: Global) -> Arg<'a> {
    number(alloc, "threads", (1, 64), "4", "number of threads, 1 to 64")
}

/// The option for a report in JSON.
fn json<'a>(alloc: Global) -> Arg<'a> {
    flag(alloc, "json", "print the report as JSON, one object a line")
}

/// The option for the identifier of a set.
fn id<'a>(alloc: Global) -> Arg<'a> {
    valued(
        alloc,
        "id",
        "HEX",
        "the identifier of the set, 32 hexadecimal digits",
    )
}

/// The command `split`.
fn split<'a>(alloc: Global) -> Result<Command<'a>, AllocError> {
    let width = number(
        alloc,
        "width",
        (64, 1_048_576),
        "65536",
        "bytes of a block, a multiple of 64",
    );
    let code = number(alloc, "code", (6, 12), "12", "data fragments, 12 or 6");
    let to = listed(
        alloc,
        "to",
        "FOLDER",
        "folders, which get the fragments in turn",
    )
    .required(true);
    let name = valued(
        alloc,
        "name",
        "NAME",
        "name of the fragments' files, the file's if none",
    );
    let command = Command::new(alloc, "split")
        .about("Writes the fragments of each file: 16, or 10 with --code 6")
        .arg(words(alloc, "FILE", "files, or - for standard input"))?
        .arg(to)?
        .arg(code)?
        .arg(width)?
        .arg(name)?
        .arg(id(alloc))?
        .arg(flag(alloc, "force", "replace fragments of this name"))?
        .arg(json(alloc))?
        .arg(threads(alloc))?;
    Ok(command)
}

/// A command that reads fragments.
fn reader<'a>(alloc: Global, name: &'a str, about: &'a str) -> Result<Command<'a>, AllocError> {
    let fragments = words(
        alloc,
        "FRAGMENT",
        "fragments, or folders with files named *.lrc",
    );
    let command = Command::new(alloc, name)
        .about(about)
        .arg(fragments)?
        .arg(id(alloc))?
        .arg(json(alloc))?
        .arg(threads(alloc))?;
    Ok(command)
}

/// The command `verify`.
fn verify<'a>(alloc: Global) -> Result<Command<'a>, AllocError> {
    let about = "Reads every record, and says what is damaged and what may still be lost";
    let expect = valued(
        alloc,
        "expect",
        "HEX",
        "the digest of the set, as split printed it",
    );
    let command = reader(alloc, "verify", about)?.arg(expect)?;
    Ok(command)
}

/// The command `repair`.
fn repair<'a>(alloc: Global) -> Result<Command<'a>, AllocError> {
    let to = listed(
        alloc,
        "to",
        "FOLDER",
        "folders for the missing fragments, in turn",
    );
    let command = reader(
        alloc,
        "repair",
        "Writes missing and damaged fragments again",
    )?
    .arg(to)?
    .arg(flag(
        alloc,
        "check",
        "read every record first, also of fragments that seem whole",
    ))?;
    Ok(command)
}

/// The command `join`.
fn join<'a>(alloc: Global) -> Result<Command<'a>, AllocError> {
    let to = valued(
        alloc,
        "to",
        "FILE",
        "the file to write, or - for standard output",
    )
    .required(true);
    let range = valued(
        alloc,
        "range",
        "A-B",
        "from byte A up to, without, byte B; A- to the end",
    );
    let command = reader(
        alloc,
        "join",
        "Writes the file again, with lost fragments or without",
    )?
    .arg(to)?
    .arg(range)?
    .arg(flag(alloc, "force", "replace a file of this name"))?;
    Ok(command)
}

/// The program's command.
pub(crate) fn command<'a>(alloc: Global) -> Result<Command<'a>, AllocError> {
    let command = Command::new(alloc, "lrc")
        .no_binary_name(true)
        .version(VERSION)
        .about("Keeps files in fragments of LRC(12,2,2), of which any three may be lost")
        .after_help(MORE)
        .subcommand(split(alloc)?)?
        .subcommand(verify(alloc)?)?
        .subcommand(repair(alloc)?)?
        .subcommand(join(alloc)?)?
        .subcommand(reader(
            alloc,
            "show",
            "Prints a picture of the stripes and fragments",
        )?)?;
    Ok(command)
}
