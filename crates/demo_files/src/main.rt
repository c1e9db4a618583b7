//! Files in fragments: splits a file over four folders, removes a fragment, repairs it, and joins
//! the fragments. It prints each command and the output of that command.
#![tactic(auto)]

use anyhow::{Result, bail};
use lrc_commands::{Printed, run_line};
use lrc_line::parse_line;
use std::alloc::Global;
use std::fmt::Write;
use std::fs::File;
use std::random::RandomSource;
use std::rt::Files;
use std::thread::Threads;
use std::{fs, io};

/// The commands, in their order. The identifier is given so that each run prints the same.
const COMMANDS: [&str; 9] = [
    "mkdir a b c d",
    "seq 300000 > numbers",
    "lrc split numbers --to a b c d --id 000102030405060708090a0b0c0d0e0f",
    "rm a/numbers.00.lrc",
    "lrc verify a b c d",
    "lrc show a b c d",
    "lrc repair a b c d",
    "lrc join a b c d --to again",
    "cmp numbers again",
];

/// Makes folders.
fn make_folders<R: Files<File = File>>(rt: &R, folders: &[&str]) -> Result<()> {
    for folder in folders {
        fs::create_dir(rt, *folder)?;
    }
    Ok(())
}

/// Writes a file whose lines are the numbers from 1 on.
fn write_numbers<R: Files<File = File> + AllocGlobal>(rt: &R, last: u32, path: &str) -> Result<()> {
    let mut text = String::new(rt.alloc());
    for number in 1..=last {
        writeln!(text, "{number}")?;
    }
    Ok(fs::write(rt, path, text)?)
}

/// Prints what a command of `lrc` says.
fn print_result<R: Print>(rt: &R, printed: &Printed) -> Result<()> {
    let text = printed.text.as_str();
    print!(rt; "{text}")?;
    if let Some(failure) = &printed.failure {
        bail!("{failure}");
    }
    Ok(())
}

/// Runs a command of `lrc`.
fn run_lrc<
    'a,
    R: Files<File = File>
        + AllocGlobal
        + Threads
        + Sync
        + RandomSource
        + Input
        + Print
        + Clone
        + Drop,
>(rt: &R, words: &'a [&'a str]) -> Result<()> {
    match parse_line(rt.alloc(), words) {
        Ok(line) => print_result(rt, &run_line(rt, &line)),
        Err(_) => bail!("the command line is refused"),
    }
}

/// Fails if two files differ.
fn compare<R: Files<File = File> + AllocGlobal>(rt: &R, one: &str, other: &str) -> Result<()> {
    if fs::read(rt, one)? != fs::read(rt, other)? {
        bail!("{one} and {other} differ");
    }
    Ok(())
}

/// Runs a command.
fn run<
    R: Files<File = File>
        + AllocGlobal
        + Threads
        + Sync
        + RandomSource
        + Input
        + Print
        + Clone
        + Drop,
>(rt: &R, command: &str) -> Result<()> {
    println!(rt; "$ {command}")?;
    let mut words = Vec::new(rt.alloc());
    for word in command.split(' ') {
        words.push(word)?;
    }
    match words.as_slice() {
        ["lrc", line @ ..] => run_lrc(rt, line),
        ["mkdir", folders @ ..] => make_folders(rt, folders),
        ["seq", last, ">", path] => write_numbers(rt, last.parse()?, path),
        ["rm", path] => Ok(fs::remove_file(rt, *path)?),
        ["cmp", one, other] => compare(rt, one, other),
        _ => bail!("{command} is no command"),
    }
}

fn main(rt: HostRuntime) -> Result<()> {
    for command in COMMANDS {
        run(&rt, command)?;
    }
    Ok(())
}
