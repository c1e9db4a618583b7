//! The steps of the program: its words, the run, and its end.

ghost use Rattle.std.specs.Prelude.{◌≡◌, ◌≢◌, ◌↔◌, ◌⊎◌, IfErr, IfOk, IsOkAnd, MatchResult, OnOk};
ghost use Rattle.std.specs.Prelude.{map, string_bytes, true};
ghost use Rattle.std.specs.IoError.{error_kind};
ghost use Rattle.std.specs.Io.KnownBytes.{Appends, Keeps};
ghost use Rattle.command_line.specs.Line.{Says};
ghost use Rattle.script.specs.Ranges.{InRange};
ghost use Rattle.play.specs.Fails.{IsAcceptedScript, NamesRefusedRow};
ghost use Rattle.program.specs.Endings.{IfFailure, IsEndingOf, IsQuiet, IsRunEnding, IsSuccess};
ghost use Rattle.program.specs.Endings.{message_of};
ghost use Rattle.program.specs.Output.{IsPrint};
ghost use Rattle.program.specs.Words.{HasHelpRequest, HasUsageError};

use crate::ending::{Ending, Exit};
use command_line::{BadLine, CommandLine, parse_line};
use play::{Always, Fail, text_of};
use std::alloc::Global;
use std::io::{Cursor, Error, ErrorKind, Write};
use std::sync::Wait;
use std::thread::Threads;

/// Writes the message of a failure to standard error.
pub fn report<E: Write>(fail: Fail, errors: &mut E) -> Exit
    ensures ending { result.ending ≡ Ending.Failure fail }
    ensures message { result.is_reported ≡ true
        → Appends (E.contents errors.old) (E.contents errors.new) (message_of fail) }
{
    let is_reported = writeln!(errors, "lrcstore: {fail}").is_ok();
    Exit {
        ending: Ending::Failure(fail),
        is_reported,
    }
}

/// Writes the parser's text: the help or the version to the output, and a refusal to standard
/// error.
fn print_parser_text<W: Write, E: Write>(error: clap::Error, output: &mut W, errors: &mut E) -> Exit
    ensures ending { IsEndingOf error result.ending }
    ensures no_output { IsQuiet result.ending
        → Keeps (W.contents output.old) (W.contents output.new) }
    ensures no_errors { IsSuccess result.ending
        → Keeps (E.contents errors.old) (E.contents errors.new) }
    ensures message { result.is_reported ≡ true → IfFailure (λ fail.
        Appends (E.contents errors.old) (E.contents errors.new) (message_of fail)) result.ending }
{
    if error.use_stderr() {
        let is_reported = write!(errors, "{error}").is_ok();
        return Exit {
            ending: Ending::UsageError,
            is_reported,
        };
    }
    match write!(output, "{error}") {
        Ok(()) => Exit {
            ending: Ending::HelpText,
            is_reported: true,
        },
        Err(_) => report(Fail::Write, errors),
    }
}

/// Reads the words after the program's name. Returns the command line that they say, or how the
/// program ends without a run. It then has written the help or the version to the output, or a
/// message to standard error.
pub fn read_words<W: Write, E: Write>(
    alloc: Global,
    words: &[&str],
    output: &mut W,
    errors: &mut E,
) -> Result<CommandLine, Exit>
    ensures said { IfOk result (Says (map (λ w. w.now) words.now)) }
    ensures ranges { IfOk result (λ line. InRange line.options.width 65536
        × InRange line.options.workers 16 × InRange line.options.limit 1048576) }
    ensures quiet { OnOk result (Keeps (W.contents output.old) (W.contents output.new)
        × Keeps (E.contents errors.old) (E.contents errors.new)) }
    ensures no_run { IfErr result (λ exit. exit.ending ≢ Ending.Success) }
    ensures help { IfErr result (λ exit. exit.ending ≡ Ending.HelpText
        → HasHelpRequest (map (λ w. w.now) words.now)) }
    ensures usage { IfErr result (λ exit. exit.ending ≡ Ending.UsageError
        → HasUsageError (map (λ w. w.now) words.now)) }
    // any request for memory may be refused
    ensures cause { IfErr result (λ exit. IfFailure (λ fail. (fail ≡ Fail.Memory)
        ⊎ ((fail ≡ Fail.Write) × HasHelpRequest (map (λ w. w.now) words.now))) exit.ending) }
    ensures no_output { IfErr result (λ exit. IsQuiet exit.ending
        → Keeps (W.contents output.old) (W.contents output.new)) }
    ensures no_errors { IfErr result (λ exit. IsSuccess exit.ending
        → Keeps (E.contents errors.old) (E.contents errors.new)) }
    ensures message { IfErr result (λ exit. exit.is_reported ≡ true → IfFailure (λ fail.
        Appends (E.contents errors.old) (E.contents errors.new) (message_of fail)) exit.ending) }
{
    match parse_line(alloc, words) {
        Ok(line) => Ok(line),
        Err(BadLine::Clap(error)) => Err(print_parser_text(error, output, errors)),
        Err(BadLine::NoMemory) => Err(report(Fail::Memory, errors)),
    }
}

/// Runs the script with these bytes, by the options of the command line. Returns the text that the
/// program prints. The bytes are freed before the first row runs.
pub fn run_line<Rt: Threads + Wait + Sync>(
    rt: &Rt,
    alloc: Global,
    line: &CommandLine,
    script: Vec<u8>,
) -> Result<String, Fail>
    requires width { InRange line.now.options.width 65536 }
    requires workers { InRange line.now.options.workers 16 }
    requires limit { InRange line.now.options.limit 1048576 }
    ensures prints { IfOk result
        (λ text. IsPrint line.now.options script.items (string_bytes text)) }
    ensures accepted { OnOk result (IsAcceptedScript line.now.options.workers script.items) }
    ensures cause { IfErr result
        (λ fail. NamesRefusedRow line.now.options.workers script.items fail) }
    ensures never_paused { IfErr result (λ fail. fail ≢ Fail.Paused) }
    ensures in_memory { IfErr result (λ fail. (fail ≢ Fail.Read) × (fail ≢ Fail.Write)) }
{
    match text_of(rt, alloc, &line.options, Cursor::new(script), &Always) {
        Ok(text) => Ok(text),
        // the script and the text are in memory: the first is read, and nothing is written
        Err(Fail::Read | Fail::Write) => Err(Fail::Memory),
        Err(fail) => Err(fail),
    }
}

/// The failure of a script that can't be opened or read: `Fail::Memory` if memory ran out.
pub fn unread(error: &Error) -> Fail
    ensures memory { (error_kind error.now ≡ ErrorKind.OutOfMemory)
        ↔ (result ≡ Fail.Memory) }
    ensures either { (result ≡ Fail.Memory) ⊎ (result ≡ Fail.Read) }
{
    if error.kind() == ErrorKind::OutOfMemory {
        Fail::Memory
    } else {
        Fail::Read
    }
}

/// Ends a run: writes its text to the output, or the message of its failure to standard error.
pub fn finish<W: Write, E: Write>(ran: Result<String, Fail>, output: &mut W, errors: &mut E) -> Exit
    ensures prints { result.ending ≡ Ending.Success → IsOkAnd ran (λ text.
        Appends (W.contents output.old) (W.contents output.new) (string_bytes text)) }
    ensures ended { IsRunEnding result.ending }
    ensures cause { IfFailure (λ fail. MatchResult ran
        (λ _. fail ≡ Fail.Write) (λ why. fail ≡ why)) result.ending }
    ensures no_output { IsQuiet result.ending
        → Keeps (W.contents output.old) (W.contents output.new) }
    ensures no_errors { IsSuccess result.ending
        → Keeps (E.contents errors.old) (E.contents errors.new) }
    ensures message { result.is_reported ≡ true → IfFailure (λ fail.
        Appends (E.contents errors.old) (E.contents errors.new) (message_of fail)) result.ending }
{
    let text = match ran {
        Ok(text) => text,
        Err(fail) => return report(fail, errors),
    };
    match output.write_all(text.as_bytes()) {
        Ok(()) => Exit {
            ending: Ending::Success,
            is_reported: true,
        },
        Err(_) => report(Fail::Write, errors),
    }
}
