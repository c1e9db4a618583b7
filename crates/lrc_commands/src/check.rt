//! `lrc verify` and `lrc show`.

use fragment_files::{Failure, Reason, Set, Stray, choose, file_failure, scan, usage};
use lrc_files::{Status, Survey, survey_set};
use lrc_line::VerifyLine;
use lrc_report::{Findings, push_report, push_set_object, push_shown, states_of, status_of};
use std::alloc::Global;
use std::fs;
use std::fs::File;
use std::rt::Files;
use std::thread::Threads;

/// The failure where no fragment is among the files that could be looked at.
fn no_fragment(alloc: Global, strays: &[Stray]) -> Failure {
    let Some(stray) = strays.first() else {
        return usage(format!(in alloc; "no fragment is among the files"));
    };
    let path = stray.path.as_str();
    match &stray.reason {
        Reason::Unreadable(error) => usage(format!(in alloc; "can't read {path}: {error}")),
        _ => usage(format!(in alloc; "no fragment is among the files, as {path}")),
    }
}

/// The failure where no fragment is found: it names a word that is not there, if there is one.
fn not_found<R: Files<File = File> + AllocGlobal>(
    rt: &R,
    words: &[&str],
    strays: &[Stray],
) -> Failure {
    for word in words {
        let word: &str = word;
        if let Err(error) = fs::metadata(rt, word) {
            return file_failure(rt.alloc(), "can't read", word, error);
        }
    }
    no_fragment(rt.alloc(), strays)
}

/// The set that is meant, and the other files.
pub(crate) fn set_of<R: Files<File = File> + AllocGlobal + Clone + Drop>(
    rt: &R,
    words: &[&str],
    id: Option<[u8; 16]>,
) -> Result<(Set, Vec<Stray>), Failure> {
    let found = scan(rt, words)?;
    let (set, strays) = choose(rt.alloc(), found, id)?;
    match set {
        Some(set) => Ok((set, strays)),
        None => Err(not_found(rt, words, strays.as_slice())),
    }
}

/// Whether a set has the digest that is expected, if one is.
fn is_expected(set: &Set, expect: Option<[u8; 32]>) -> bool {
    match expect {
        Some(digest) => digest == set.key,
        None => true,
    }
}

/// What is reported of a set.
#[derive(Clone, Copy)]
pub(crate) enum Report {
    /// What is damaged and what that means, by `lrc verify`.
    Damage,
    /// A picture of the stripes, by `lrc show`.
    Picture,
}

impl Report {
    /// The command that prints it.
    fn command(self) -> &'static str {
        match self {
            Report::Damage => "verify",
            Report::Picture => "show",
        }
    }
}

/// Appends the report on what was found of a set.
fn push_findings(text: &mut String, report: Report, findings: &Findings) -> Result<(), Failure> {
    match report {
        Report::Damage => push_report(text, findings),
        Report::Picture => push_shown(text, findings),
    }
}

/// Appends the report on a set, as text or as an object.
fn report_on(
    alloc: Global,
    report: Report,
    line: &VerifyLine,
    set: &Set,
    found: &Survey,
    strays: &[Stray],
    text: &mut String,
) -> Result<Status, Failure> {
    let states = states_of(alloc, set, found)?;
    let mut status = status_of(set, found, states.as_slice());
    if !is_expected(set, line.expect) {
        status = Status::Unrecoverable;
    }
    let findings = Findings {
        command: report.command(),
        set,
        found,
        states: states.as_slice(),
        strays,
        expect: line.expect,
        status,
    };
    if line.json {
        push_set_object(alloc, text, &findings)?;
    } else {
        push_findings(text, report, &findings)?;
    }
    Ok(status)
}

/// Reads a set, and appends the report on it.
fn survey_and_report<R: Threads + Sync + AllocGlobal>(
    rt: &R,
    report: Report,
    line: &VerifyLine,
    set: &Set,
    strays: &[Stray],
    text: &mut String,
) -> Result<Status, Failure> {
    let found = survey_set(rt, set, line.threads)?;
    report_on(rt.alloc(), report, line, set, &found, strays, text)
}

/// Runs `lrc verify` or `lrc show`, and appends what it reports.
pub(crate) fn check_set<R: Files<File = File> + AllocGlobal + Threads + Sync + Clone + Drop>(
    rt: &R,
    report: Report,
    line: &VerifyLine,
    text: &mut String,
) -> Result<Status, Failure> {
    let (set, strays) = set_of(rt, line.fragments.as_slice(), line.id)?;
    survey_and_report(rt, report, line, &set, strays.as_slice(), text)
}
