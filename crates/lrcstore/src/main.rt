//! The program `lrcstore`. It reads the script, and passes its words, the script's bytes and both
//! outputs to `program`.
#![tactic(auto)]

use play::Fail;
use program::{finish, read_words, report, run_line, unread};
use std::process::ExitCode;
use std::{env, fs, io};

/// Reports a failure, and returns its exit status.
fn fail<E: io::Write>(fail: Fail, errors: &mut E) -> ExitCode {
    ExitCode::from(report(fail, errors).ending.status())
}

/// The words of the command line, or the exit status if they can't be had.
fn words_of<E: io::Write>(rt: &HostRuntime, errors: &mut E) -> Result<Vec<String>, ExitCode> {
    match env::args(rt) {
        Ok(words) => match words.collect(rt.alloc()) {
            Ok(words) => Ok(words),
            Err(_) => Err(fail(Fail::Memory, errors)),
        },
        Err(error) if error.kind() == io::ErrorKind::OutOfMemory => {
            Err(fail(Fail::Memory, errors))
        }
        Err(_) => {
            let _ = eprintln!(rt; "lrcstore: an argument is not UTF-8");
            Err(ExitCode::from(2))
        }
    }
}

fn main(rt: HostRuntime) -> ExitCode {
    let alloc = rt.alloc();
    let stderr = rt.stderr();
    let mut errors = io::writer(&stderr);
    let words = match words_of(&rt, &mut errors) {
        Ok(words) => words,
        Err(status) => return status,
    };
    let mut texts = Vec::new(alloc);
    for word in words.iter().skip(1) {
        if texts.push(word.as_str()).is_err() {
            return fail(Fail::Memory, &mut errors);
        }
    }
    let mut output = io::writer(&rt);
    let line = match read_words(alloc, texts.as_slice(), &mut output, &mut errors) {
        Ok(line) => line,
        Err(exit) => return ExitCode::from(exit.ending.status()),
    };
    let ran = match fs::read(&rt, line.script.as_str()) {
        Ok(script) => run_line(&rt, alloc, &line, script),
        Err(error) => Err(unread(&error)),
    };
    let exit = finish(ran, &mut output, &mut errors);
    ExitCode::from(exit.ending.status())
}
