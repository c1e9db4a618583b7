//! The printed line of a row.
ghost use Rattle.std.specs.Prelude.{◌≡◌, ◌≤◌, ◌<◌, ◌+◌, ◌*◌, ◌^◌, IfOk, OnOk, length};
ghost use Rattle.hex.specs.Hex.{encode_lower};
ghost use Rattle.transcript.specs.Lines.{IsReadingOf, IsLineFor, TakesIn, byte_count};

use crate::outcome::RowOutcome;
use book::{Answer, Fault, Note};
use lent::{Grant, Piece};
use lrc_code::Plans;
use mender::Report;
use requests::Reply;
use std::alloc::{AllocError, Global};
use std::fmt;

/// The reply to a row: the note of a call, the bytes of a read, or why the call was refused.
#[derive(Drop)]
pub enum Line {
    Noted(Note),
    Granted(Reading),
    Trimmed(u64),
    Mended(Report),
    Full,
    TooLong,
}

/// A granted read: the version, the numbers of lent and of built pieces, and the bytes of all
/// pieces, joined.
#[derive(Drop)]
pub struct Reading {
    pub version: u64,
    pub lent: u64,
    pub built: u64,
    pub bytes: Vec<u8>,
}

/// How many bytes are encoded at a time.
const AT_ONCE: usize = 64;

/// Bytes that print as two lower-case hexadecimal digits each, or as a dash if there are none.
#[derive(Drop)]
struct Hex<'a>(&'a [u8]);

impl fmt::Display for Hex<'_> {
    ghost use Rattle.std.specs.Prelude.{Some};
    ghost use Rattle.transcript.specs.Lines.{hex_text};

    ghost output = { λ hex. Some (hex_text hex.0.now) };

    fn fmt<W: fmt::Write>(&self, f: &mut fmt::Formatter<W>) -> fmt::Result {
        if self.0.is_empty() {
            return f.write_str("-");
        }
        let mut room = [0u8; 2 * AT_ONCE];
        let mut rest = self.0;
        while !rest.is_empty() {
            let (first, more) = rest.split_at(rest.len().min(AT_ONCE));
            f.write_str(digits_of(first, &mut room))?;
            rest = more;
        }
        Ok(())
    }
}

/// The hexadecimal digits of some bytes, written to `room`.
fn digits_of<'a>(bytes: &[u8], room: &'a mut [u8; 2 * AT_ONCE]) -> &'a str
    requires { length bytes.now ≤ AT_ONCE }
    ensures { result.now ≡ encode_lower bytes.now }
{
    let digits = &mut room[..2 * bytes.len()];
    let Ok(()) = hex::encode_to_slice(bytes, digits) else {
        unreachable!()
    };
    let Ok(text) = str::from_utf8(digits) else {
        unreachable!()
    };
    text
}

impl Line {
    /// An upper bound for the length of the printed line, so that one allocation suffices.
    pub(crate) fn room(&self) -> usize
        ensures digits { 2 * byte_count self.now ≤ result }
        ensures most { result ≤ 2 * byte_count self.now + 80 }
    {
        match self {
            Line::Granted(reading) => reading.bytes.len().saturating_mul(2).saturating_add(80),
            _ => 80,
        }
    }
}

impl fmt::Display for Reading {
    ghost use Rattle.std.specs.Prelude.{Some};
    ghost use Rattle.transcript.specs.Lines.{reading_text};

    ghost output = { λ reading. Some (reading_text reading) };

    fn fmt<W: fmt::Write>(&self, f: &mut fmt::Formatter<W>) -> fmt::Result {
        let (version, lent, built) = (self.version, self.lent, self.built);
        write!(f, "granted {version} {lent} {built} ")?;
        Hex(self.bytes.as_slice()).fmt(f)
    }
}

impl fmt::Display for Line {
    ghost use Rattle.std.specs.Prelude.{Some};
    ghost use Rattle.transcript.specs.Lines.{line_text};

    ghost output = { λ line. Some (line_text line) };

    fn fmt<W: fmt::Write>(&self, f: &mut fmt::Formatter<W>) -> fmt::Result {
        match self {
            Line::Noted(note) => note.fmt(f),
            Line::Granted(reading) => reading.fmt(f),
            Line::Trimmed(count) => write!(f, "trimmed {count}"),
            Line::Mended(report) => report.fmt(f),
            Line::Full => f.write_str("full"),
            Line::TooLong => f.write_str("too-long"),
        }
    }
}

impl Reading {
    /// Counts the next piece and appends its bytes. `AllocError` if memory runs out.
    fn take_in(&mut self, piece: Piece) -> Result<(), AllocError>
        requires { self.old.lent + self.old.built + 1 < 2 ^ 64 }
        ensures { OnOk result (TakesIn self.old piece.entry self.new) }
    {
        match &piece {
            Piece::Lent(_) => self.lent += 1,
            Piece::Built(_) => self.built += 1,
        }
        self.bytes.extend_from_slice(piece.bytes())
    }
}

/// Walks a grant to its end, with the recipes in `plans`. `AllocError` if memory runs out.
fn walked(alloc: Global, grant: &Grant, plans: &mut Plans) -> Result<Reading, AllocError>
    ensures ok { IfOk result (IsReadingOf grant.now) }
    ensures more { plans.old ≤ plans.new }
{
    let mut reading = Reading {
        version: grant.version(),
        lent: 0,
        built: 0,
        bytes: Vec::with_capacity(alloc, grant.len as usize)?,
    };
    let mut walk = grant.walk_with(plans);
    while let Some(piece) = walk.next_piece(alloc)? {
        reading.take_in(piece)?;
    }
    Ok(reading)
}

/// The line for the outcome of a row. It walks a grant, with the recipes in `plans`, and adds new
/// ones. `AllocError` if memory runs out.
pub fn line_for(alloc: Global, outcome: RowOutcome, plans: &mut Plans) -> Result<Line, AllocError>
    ensures ok { IfOk result (IsLineFor outcome) }
    ensures more { plans.old ≤ plans.new }
{
    match outcome {
        RowOutcome::Replied(Reply::Made(Answer::Granted(grant))) => {
            Ok(Line::Granted(walked(alloc, &grant, plans)?))
        }
        RowOutcome::Replied(Reply::Made(answer)) => Ok(Line::Noted(answer.note())),
        RowOutcome::Replied(Reply::Trimmed(count)) => Ok(Line::Trimmed(count)),
        RowOutcome::Replied(Reply::Refused(Fault::TooLong)) => Ok(Line::TooLong),
        RowOutcome::Replied(Reply::Refused(_)) | RowOutcome::Full => Ok(Line::Full),
        RowOutcome::Mended(report) => Ok(Line::Mended(report)),
    }
}
