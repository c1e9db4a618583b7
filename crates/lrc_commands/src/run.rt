//! A command, from its line to its texts and its status.

use crate::check::{Report, check_set};
use crate::join_command::join_file;
use crate::repair_command::repair_files;
use crate::split_command::split_files;
use fragment_files::Failure;
use lrc_files::Status;
use lrc_json::{FailureObject, push_object};
use lrc_line::Line;
use std::alloc::{AllocError, Global};
use std::fs::File;
use std::random::RandomSource;
use std::rt::Files;
use std::thread::Threads;

/// What a command prints, and how it ended.
#[derive(Drop)]
pub struct Printed {
    /// What it found and did.
    pub text: String,
    /// Why it stopped, if it did.
    pub failure: Option<Failure>,
    /// How it ended.
    pub status: Status,
}

/// Runs a command, and appends its report.
fn run_to<
    R: Files<File = File>
        + AllocGlobal
        + Threads
        + Sync
        + RandomSource
        + Input
        + Print
        + Clone
        + Drop,
>(rt: &R, line: &Line, text: &mut String) -> Result<Status, Failure> {
    match line {
        Line::Split(line) => split_files(rt, line, text),
        Line::Verify(line) => check_set(rt, Report::Damage, line, text),
        Line::Repair(line) => repair_files(rt, line, text),
        Line::Join(line) => join_file(rt, line, text),
        Line::Show(line) => check_set(rt, Report::Picture, line, text),
    }
}

/// Appends the object of a failure.
fn push_failure(
    alloc: Global,
    text: &mut String,
    line: &Line,
    failure: &Failure,
) -> Result<(), AllocError> {
    let object = FailureObject {
        command: line.name(),
        status: Status::Failed.code(),
        error: format!(in alloc; "{failure}")?,
    };
    push_object(text, alloc, &object)
}

/// What a command prints that failed.
fn failed(alloc: Global, line: &Line, text: String, failure: Failure) -> Printed {
    let mut text = text;
    if line.is_json() {
        // out of memory again, there is no object
        let _ = push_failure(alloc, &mut text, line, &failure);
    }
    Printed {
        text,
        failure: Some(failure),
        status: Status::Failed,
    }
}

/// Runs a command. A failure has the status 3, and what was done before it is in the text.
pub fn run_line<
    R: Files<File = File>
        + AllocGlobal
        + Threads
        + Sync
        + RandomSource
        + Input
        + Print
        + Clone
        + Drop,
>(rt: &R, line: &Line) -> Printed {
    let mut text = String::new(rt.alloc());
    match run_to(rt, line, &mut text) {
        Ok(status) => Printed {
            text,
            failure: None,
            status,
        },
        Err(failure) => failed(rt.alloc(), line, text, failure),
    }
}
