//! A command line from its words.

use crate::command::command;
use crate::options::{JoinLine, Line, RepairLine, SplitLine, VerifyLine};
use clap::error::ErrorKind;
use clap::{ArgMatches, Error};
use lrc_code::Code;
use std::alloc::{AllocError, Global};

/// Why a command line is refused.
#[derive(Drop)]
pub enum BadLine {
    /// `clap` has a text to print: a refusal, or the help or version.
    Clap(Error),
    /// A value has not the form that it must have.
    Value(&'static str),
    /// Out of memory.
    NoMemory,
}

impl From<AllocError> for BadLine {
    fn from(_error: AllocError) -> BadLine {
        BadLine::NoMemory
    }
}

/// The error for an error of `clap`.
fn refused(error: Error) -> BadLine {
    match error.kind() {
        ErrorKind::OutOfMemory => BadLine::NoMemory,
        _ => BadLine::Clap(error),
    }
}

/// The words that an argument was given.
fn words_of<'a>(
    alloc: Global,
    matches: &ArgMatches<'a>,
    id: &str,
) -> Result<Vec<&'a str>, AllocError> {
    let mut words = Vec::new(alloc);
    if let Some(given) = matches.get_strs(id) {
        for word in given {
            words.push(*word)?;
        }
    }
    Ok(words)
}

/// The identifier of the set.
fn id_of(matches: &ArgMatches) -> Result<Option<[u8; 16]>, BadLine> {
    let Some(digits) = matches.get_str("id") else {
        return Ok(None);
    };
    let mut bytes = [0u8; 16];
    match hex::decode_to_slice(digits, &mut bytes) {
        Ok(()) => Ok(Some(bytes)),
        Err(_) => Err(BadLine::Value("--id has 32 hexadecimal digits")),
    }
}

/// The digest that is expected.
fn expect_of(matches: &ArgMatches) -> Result<Option<[u8; 32]>, BadLine> {
    let Some(digits) = matches.get_str("expect") else {
        return Ok(None);
    };
    let mut bytes = [0u8; 32];
    match hex::decode_to_slice(digits, &mut bytes) {
        Ok(()) => Ok(Some(bytes)),
        Err(_) => Err(BadLine::Value("--expect has 64 hexadecimal digits")),
    }
}

/// The number of threads.
fn threads_of(matches: &ArgMatches) -> usize {
    matches.get_one::<usize>("threads").unwrap_or(1)
}

/// The code with so many data fragments.
fn code_of(matches: &ArgMatches) -> Result<Code, BadLine> {
    match matches.get_one::<u32>("code") {
        Some(12) | None => Ok(Code::Wide),
        Some(6) => Ok(Code::Small),
        Some(_) => Err(BadLine::Value("--code is 12 or 6")),
    }
}

/// The bytes that `A-B` or `A-` asks for.
fn range_of(matches: &ArgMatches) -> Result<Option<(u64, Option<u64>)>, BadLine> {
    let Some(text) = matches.get_str("range") else {
        return Ok(None);
    };
    let Some((from, to)) = text.split_once('-') else {
        return Err(BadLine::Value("--range is A-B or A-"));
    };
    match (from.parse::<u64>(), to.parse::<u64>(), to.is_empty()) {
        (Ok(from), _, true) => Ok(Some((from, None))),
        (Ok(from), Ok(to), false) => Ok(Some((from, Some(to)))),
        _ => Err(BadLine::Value("--range is A-B or A-")),
    }
}

/// The options of `split`.
fn split_line<'a>(alloc: Global, matches: &ArgMatches<'a>) -> Result<Line<'a>, BadLine> {
    let files = words_of(alloc, matches, "FILE")?;
    let folders = words_of(alloc, matches, "to")?;
    let code = code_of(matches)?;
    let id = id_of(matches)?;
    Ok(Line::Split(SplitLine {
        files,
        folders,
        name: matches.get_str("name"),
        code,
        width: matches.get_one::<u32>("width").unwrap_or(65_536),
        id,
        force: matches.get_flag("force"),
        json: matches.get_flag("json"),
        threads: threads_of(matches),
    }))
}

/// The options of `verify` and `show`.
fn verify_line<'a>(alloc: Global, matches: &ArgMatches<'a>) -> Result<VerifyLine<'a>, BadLine> {
    let fragments = words_of(alloc, matches, "FRAGMENT")?;
    let id = id_of(matches)?;
    let expect = expect_of(matches)?;
    Ok(VerifyLine {
        fragments,
        id,
        expect,
        json: matches.get_flag("json"),
        threads: threads_of(matches),
    })
}

/// The options of `repair`.
fn repair_line<'a>(alloc: Global, matches: &ArgMatches<'a>) -> Result<Line<'a>, BadLine> {
    let fragments = words_of(alloc, matches, "FRAGMENT")?;
    let folders = words_of(alloc, matches, "to")?;
    let id = id_of(matches)?;
    Ok(Line::Repair(RepairLine {
        fragments,
        folders,
        id,
        check: matches.get_flag("check"),
        json: matches.get_flag("json"),
        threads: threads_of(matches),
    }))
}

/// The options of `join`.
fn join_line<'a>(alloc: Global, matches: &ArgMatches<'a>) -> Result<Line<'a>, BadLine> {
    let fragments = words_of(alloc, matches, "FRAGMENT")?;
    let id = id_of(matches)?;
    let range = range_of(matches)?;
    Ok(Line::Join(JoinLine {
        fragments,
        to: matches.get_str("to").unwrap_or("-"),
        range,
        id,
        force: matches.get_flag("force"),
        json: matches.get_flag("json"),
        threads: threads_of(matches),
    }))
}

/// The command in the words after the program's name.
pub fn parse_line<'a>(alloc: Global, words: &'a [&'a str]) -> Result<Line<'a>, BadLine> {
    let matches = match command(alloc)?.try_get_matches_from(words) {
        Ok(matches) => matches,
        Err(error) => return Err(refused(error)),
    };
    match matches.subcommand() {
        Some(("split", options)) => split_line(alloc, options),
        Some(("verify", options)) => Ok(Line::Verify(verify_line(alloc, options)?)),
        Some(("repair", options)) => repair_line(alloc, options),
        Some(("join", options)) => join_line(alloc, options),
        Some(("show", options)) => Ok(Line::Show(verify_line(alloc, options)?)),
        _ => Err(BadLine::Value("a command is needed: split, verify, repair, join or show")),
    }
}
