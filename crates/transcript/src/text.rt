//! The printed text of a run.
ghost use Rattle.std.specs.Prelude.{◌≡◌, ◌+◌, ◌<◌, ◌^◌, List, ℕ, ◌++◌, [], length, IfOk};
ghost use Rattle.std.specs.Prelude.{if◌then◌else◌, codes, decimal, string_bytes};
ghost use Rattle.history.specs.Lawful.{IsLawfulFrom};
ghost use Rattle.book.specs.Contents.{journal_of};
ghost use Rattle.transcript.specs.Lines.{AreLines, entry_lines};

use crate::line::line_for;
use crate::outcome::NumberedOutcome;
use book::{Book, Entry, is_lawful_from};
use lrc_code::Plans;
use std::alloc::{AllocError, Global};

/// A line for each row: its number, from 1, and its reply. It walks grants here, with one table of
/// recipes.
fn row_lines(alloc: Global, done: Vec<NumberedOutcome>) -> Result<String, AllocError>
    ensures { IfOk result (λ text. AreLines done.items (string_bytes text)) }
{
    let mut text = String::new(alloc);
    let mut plans = Plans::new(alloc);
    for one in done {
        let NumberedOutcome { number, outcome } = one;
        let line = line_for(alloc, outcome, &mut plans)?;
        text.reserve(line.room())?;
        writeln!(text, "{number} {line}")?;
    }
    Ok(text)
}

/// Adds a line for each entry: its number, which also counts the discarded calls, the label of its
/// caller, its call and its note.
fn add_entries(text: &mut String, trimmed: u64, entries: &[Entry]) -> Result<(), AllocError>
    requires { trimmed + length entries.now < 2 ^ 64 }
    ensures { IfOk result (λ _. string_bytes text.new
        ≡ string_bytes text.old ++ entry_lines (trimmed + 1) entries.now) }
{
    let mut number = trimmed;
    for entry in entries {
        number = number.saturating_add(1);
        writeln!(text, "h {number} {entry}")?;
    }
    Ok(())
}

/// The printed word for whether the journal's entries are lawful from its base. They always are.
fn lawful_text(alloc: Global, book: &Book) -> Result<&'static str, AllocError>
    requires { IsLawfulFrom book.now.base book.now.width (journal_of book.now) }
    ensures { IfOk result (λ text. text.now ≡ codes "yes") }
{
    if is_lawful_from(alloc, book.base(), book.entries(), book.width())? {
        Ok("yes")
    } else {
        Ok("no")
    }
}

/// The printed text. It has a line for each row, and if `history` is set, a line for each entry.
/// Then come the number of all calls, and whether the journal is lawful. `AllocError` if memory
/// runs out.
pub fn print(
    alloc: Global,
    done: Vec<NumberedOutcome>,
    book: &Book,
    history: bool,
) -> Result<String, AllocError>
    requires { IsLawfulFrom book.now.base book.now.width (journal_of book.now) }
    ensures { IfOk result (λ text. (lines : List ℕ) × AreLines done.items lines × (string_bytes text
        ≡ lines ++ ((if history then entry_lines (book.now.base.trimmed + 1) (journal_of book.now)
        else [])
        ++ (codes "calls " ++ (decimal (book.now.base.trimmed + length book.now.entries)
        ++ codes "\nlawful yes\n"))))) }
{
    let shown = if history { book.entries() } else { &[] };
    let trimmed = book.base().trimmed;
    let mut text = row_lines(alloc, done)?;
    add_entries(&mut text, trimmed, shown)?;
    let calls = book.calls();
    let lawful = lawful_text(alloc, book)?;
    write!(text, "calls {calls}\nlawful {lawful}\n")?;
    Ok(text)
}
