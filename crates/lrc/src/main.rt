//! The program `lrc`: files in fragments, of which some may be lost.
#![tactic(auto)]

use lrc_commands::{Printed, run_line};
use lrc_files::Status;
use lrc_line::{BadLine, Line, parse_line};
use std::process::ExitCode;
use std::{env, io};

/// The exit code of a status.
fn code_of(status: Status) -> ExitCode {
    ExitCode::from(status.code())
}

/// Prints why a command line is refused, or the help or the version that it asks for.
fn print_refusal<R: Print + Eprint>(rt: &R, refusal: &BadLine) -> ExitCode {
    let printed = match refusal {
        BadLine::Clap(error) if !error.use_stderr() => {
            return match print!(rt; "{error}") {
                Ok(()) => code_of(Status::Whole),
                Err(_) => code_of(Status::Failed),
            };
        }
        BadLine::Clap(error) => eprint!(rt; "{error}"),
        BadLine::Value(text) => eprintln!(rt; "lrc: {text}"),
        BadLine::NoMemory => eprintln!(rt; "lrc: out of memory"),
    };
    let _ = printed;
    code_of(Status::Failed)
}

/// Prints what a command did. What it did stands on standard error where the file that it wrote
/// went to standard output.
fn print_result<R: Print + Eprint>(rt: &R, line: &Line, printed: &Printed) -> ExitCode {
    let text = printed.text.as_str();
    let to_errors = match line {
        Line::Join(line) => line.to == "-",
        _ => false,
    };
    let is_printed = if to_errors {
        eprint!(rt; "{text}").is_ok()
    } else {
        print!(rt; "{text}").is_ok()
    };
    if let Some(failure) = &printed.failure {
        let _ = eprintln!(rt; "lrc: {failure}");
    }
    if is_printed {
        code_of(printed.status)
    } else {
        code_of(Status::Failed)
    }
}

/// The words of the command line.
fn words_of(rt: &HostRuntime) -> io::Result<Vec<String>> {
    let words = env::args(rt)?.collect(rt.alloc())?;
    Ok(words)
}

fn main(rt: HostRuntime) -> ExitCode {
    let words = match words_of(&rt) {
        Ok(words) => words,
        Err(error) => {
            let _ = eprintln!(rt; "lrc: can't read the command line: {error}");
            return code_of(Status::Failed);
        }
    };
    let mut texts = Vec::new(rt.alloc());
    for word in words.iter().skip(1) {
        if texts.push(word.as_str()).is_err() {
            return print_refusal(&rt, &BadLine::NoMemory);
        }
    }
    match parse_line(rt.alloc(), texts.as_slice()) {
        Ok(line) => {
            let printed = run_line(&rt, &line);
            print_result(&rt, &line, &printed)
        }
        Err(refusal) => print_refusal(&rt, &refusal),
    }
}
