//! The rows of a script, and the errors.

use requests::Ask;
use std::error::Error;
use std::fmt;
use std::io::ErrorKind;

/// What a row asks for.
#[derive(Drop)]
pub enum Task {
    /// One call of the store.
    Make(Ask),
    /// Repair all lost fragments.
    Mend,
}

/// A row of a script.
#[derive(Drop)]
pub struct Row {
    /// The round in which it runs, from 1. No row is of an earlier round than the row before it.
    pub round: u32,
    /// The worker that runs it, from 1. It is 0 if all workers run it.
    pub worker: u32,
    /// What it asks for.
    pub task: Task,
}

/// Why a row is refused, in the order of the tests.
#[derive(Clone, Copy, PartialEq, Eq, Debug)]
pub enum Word {
    /// The row is the first one past 65,536.
    Rows,
    /// The row does not have exactly six fields.
    Fields,
    /// The round is not a number in 1..=4294967295, or is less than that of the row before.
    Round,
    /// The worker is not one of the script's workers.
    Worker,
    /// The operation is unknown.
    Op,
    /// The name is not valid.
    Name,
    /// The arguments don't fit the operation.
    Argument,
    /// The round has an earlier row, and this row or an earlier one of the round is a `mend`.
    Mend,
}

/// Prints the word in small letters.
impl fmt::Display for Word {
    ghost use Rattle.std.specs.Prelude.{Some};
    ghost use Rattle.script.specs.Text.{word_text};

    ghost output = { λ word. Some (word_text word) };

    fn fmt<W: fmt::Write>(&self, f: &mut fmt::Formatter<W>) -> fmt::Result {
        f.write_str(match self {
            Word::Rows => "rows",
            Word::Fields => "fields",
            Word::Round => "round",
            Word::Worker => "worker",
            Word::Op => "op",
            Word::Name => "name",
            Word::Argument => "argument",
            Word::Mend => "mend",
        })
    }
}

/// Why a script is refused.
#[derive(Clone, Copy, PartialEq, Eq, Debug)]
pub enum BadScript {
    /// A row is refused.
    Refused {
        /// The number of the row, from 1.
        row: u32,
        /// The reason.
        word: Word,
    },
    /// The program is out of memory.
    NoMemory,
}

/// Prints the number of the row and its word, such as `row 2: fields`, or `out of memory`.
impl fmt::Display for BadScript {
    ghost use Rattle.std.specs.Prelude.{Some};
    ghost use Rattle.script.specs.Text.{refusal_text};

    ghost output = { λ error. Some (refusal_text error) };

    fn fmt<W: fmt::Write>(&self, f: &mut fmt::Formatter<W>) -> fmt::Result {
        match self {
            BadScript::Refused { row, word } => write!(f, "row {row}: {word}"),
            BadScript::NoMemory => f.write_str("out of memory"),
        }
    }
}

impl Error for BadScript {}

/// Why a script could not be read.
#[derive(Clone, Copy, PartialEq, Eq, Debug)]
pub enum NotRead {
    /// A row is refused, or the program is out of memory.
    Bad(BadScript),
    /// The reader failed, with an error of this kind.
    Reader(ErrorKind),
}

/// Prints the line of a refusal, or that the script can't be read.
impl fmt::Display for NotRead {
    ghost use Rattle.std.specs.Prelude.{Some};
    ghost use Rattle.script.specs.Text.{not_read_text};

    ghost output = { λ error. Some (not_read_text error) };

    fn fmt<W: fmt::Write>(&self, f: &mut fmt::Formatter<W>) -> fmt::Result {
        match self {
            NotRead::Bad(error) => write!(f, "{error}"),
            NotRead::Reader(_) => f.write_str("cannot read the script"),
        }
    }
}

impl Error for NotRead {}

/// The operations of a script.
#[derive(Clone, Copy, PartialEq, Eq, Debug)]
pub(crate) enum Operation {
    Put,
    PutSmall,
    Read,
    Lose,
    Repair,
    Delete,
    Stat,
    Trim,
    Mend,
}

/// Why one record is refused.
#[derive(Clone, Copy, PartialEq, Eq, Debug)]
pub(crate) enum Refusal {
    /// The first test that refuses it.
    Refused(Word),
    /// The program is out of memory.
    NoMemory,
}

/// The first three fields of a record.
#[derive(Clone, Copy)]
pub(crate) struct Head {
    pub round: u32,
    pub worker: u32,
    pub operation: Operation,
}
