//! Runs the scripts of `scripts/` and `scripts/refused/` as the program would, and compares the
//! output with the texts beside them. For a refused script it compares the message. It prints the
//! words of each run, and ends with status 1 at the first difference.
#![tactic(auto)]

ghost use Rattle.std.specs.Prelude.{IfOk};
ghost use Rattle.script.specs.Ranges.{InRange};

use anyhow::{Result, bail, ensure};
use command_line::{BadLine, CommandLine, parse_line};
use play::{Always, play};
use std::fs;
use std::fs::File;

/// A run: its words, without the program's name, and the texts that it may print. It has several if
/// the output depends on the order of the workers' calls.
struct Run {
    words: &'static [&'static str],
    texts: &'static [&'static str],
}

const RUNS: [Run; 9] = [
    Run {
        words: &["first_path.csv", "--workers", "2"],
        texts: &["first_path.txt"],
    },
    Run {
        words: &["degraded_read.csv", "--history"],
        texts: &["degraded_read.txt"],
    },
    Run {
        words: &["repair.csv", "--history"],
        texts: &["repair.txt"],
    },
    Run {
        words: &["unrecoverable.csv"],
        texts: &["unrecoverable.txt"],
    },
    Run {
        words: &["trimmed_journal.csv", "--limit", "3", "--history"],
        texts: &["trimmed_journal.txt"],
    },
    Run {
        words: &["two_workers.csv", "--workers", "2"],
        texts: &["two_workers_first.txt", "two_workers_second.txt"],
    },
    Run {
        words: &["full_journal.csv", "--limit", "4", "--history"],
        texts: &["full_journal.txt"],
    },
    Run {
        words: &["history_of_two.csv", "--workers", "2", "--history"],
        texts: &["history_of_two_first.txt", "history_of_two_second.txt"],
    },
    Run {
        words: &["mend.csv", "--workers", "4"],
        texts: &["mend.txt"],
    },
];

/// Scripts that are refused.
const REFUSED: [&str; 11] = [
    "refused/header_row.csv",
    "refused/utf_16.csv",
    "refused/falling_round.csv",
    "refused/semicolons.csv",
    "refused/comment.csv",
    "refused/open_quote.csv",
    "refused/space_after_comma.csv",
    "refused/capital_operation.csv",
    "refused/space_in_name.csv",
    "refused/no_text_or_hex.csv",
    "refused/mend_beside_a_row.csv",
];

/// Whether one of the files has exactly this text.
fn is_one_of(rt: &HostRuntime, printed: &[u8], texts: &[&str]) -> Result<bool> {
    for path in texts {
        if fs::read_to_string(rt, *path)?.as_bytes() == printed {
            return Ok(true);
        }
    }
    Ok(false)
}

/// What words say.
fn line_of(rt: &HostRuntime, words: &[&str]) -> Result<CommandLine>
    ensures width { IfOk result (λ line. InRange line.options.width 65536) }
    ensures workers { IfOk result (λ line. InRange line.options.workers 16) }
    ensures limit { IfOk result (λ line. InRange line.options.limit 1048576) }
{
    match parse_line(rt.alloc(), words) {
        Ok(line) => Ok(line),
        Err(BadLine::Clap(_)) => bail!("the words are refused"),
        Err(BadLine::NoMemory) => bail!("out of memory"),
    }
}

fn main(rt: HostRuntime) -> Result<()> {
    for run in &RUNS {
        for word in run.words {
            print!(rt; "{word} ")?;
        }
        let line = line_of(&rt, run.words)?;
        let script = File::open(&rt, line.script.as_str())?;
        let mut printed: Vec<u8> = Vec::new(rt.alloc());
        play(
            &rt,
            rt.alloc(),
            &line.options,
            script,
            &mut printed,
            &Always,
        )?;
        ensure!(
            is_one_of(&rt, printed.as_slice(), run.texts)?,
            "another text is printed"
        );
        println!(rt; "prints its text")?;
    }
    for path in REFUSED {
        let line = line_of(&rt, &[path])?;
        let script = File::open(&rt, path)?;
        let mut printed: Vec<u8> = Vec::new(rt.alloc());
        match play(
            &rt,
            rt.alloc(),
            &line.options,
            script,
            &mut printed,
            &Always,
        ) {
            Ok(()) => bail!("{path} is not refused"),
            Err(fail) => println!(rt; "{path}: {fail}")?,
        }
        ensure!(printed.is_empty(), "something is printed");
    }
    Ok(())
}
