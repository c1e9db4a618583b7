use super::compare;
use command_line::{BadLine, CommandLine, parse_line};
use std::alloc::Global;
use std::process::Abort;

/// What a line says, and nothing for one that is refused.
fn said(alloc: Global, words: &[&str]) -> Option<CommandLine> {
    match parse_line(alloc, words) {
        Ok(line) => Some(line),
        Err(BadLine::Clap(_)) | Err(BadLine::NoMemory) => None,
    }
}

/// Whether `clap` refuses the line.
fn is_refused(alloc: Global, words: &[&str]) -> bool {
    matches!(parse_line(alloc, words), Err(BadLine::Clap(_)))
}

/// What the options of a line are: the width, the workers, the limit, and the history.
type Said = (u32, u32, u32, bool);

/// Lines with their options.
const SAID: [(&[&str], Said); 4] = [
    (&["script.csv"], (1, 1, 4096, false)),
    (&["script.csv", "--workers", "2"], (1, 2, 4096, false)),
    (
        &["--width", "4", "--history", "script.csv", "--limit=3"],
        (4, 1, 3, true),
    ),
    (
        &[
            "script.csv",
            "--width=65536",
            "--workers=16",
            "--limit=1048576",
        ],
        (65_536, 16, 1_048_576, false),
    ),
];

/// Lines that `clap` refuses.
const REFUSED: [&[&str]; 10] = [
    &[],
    &["script.csv", "--workers", "0"],
    &["script.csv", "--workers", "17"],
    &["script.csv", "--width", "0"],
    &["script.csv", "--width", "65537"],
    &["script.csv", "--limit", "0"],
    &["script.csv", "--limit", "1048577"],
    &["script.csv", "--mirrors", "2"],
    &["--help"],
    &["--version"],
];

/// That a line names the script and has these options.
fn says(rt: &impl Abort, alloc: Global, words: &[&str], wanted: Said) {
    let line = said(alloc, words).expect(rt, "a line");
    let options = &line.options;
    let found = (
        options.width,
        options.workers,
        options.limit,
        options.history,
    );
    compare(rt, found, wanted);
    assert!(rt; line.script.as_str() == "script.csv");
}

#[test]
fn lines(rt: HostRuntime) {
    for (words, wanted) in &SAID {
        says(&rt, rt.alloc(), words, *wanted);
    }
    for words in &REFUSED {
        assert!(rt; is_refused(rt.alloc(), words));
    }
}
