//! Reading of a script.

ghost use Rattle.std.specs.Prelude.{◌≡◌, ◌<◌, ◌≤◌, All, ℕ, List, length, map, MatchResult, IfOk};
ghost use Rattle.std.specs.Prelude.{IfErr, IfSome};
ghost use Rattle.script.specs.Fields.{Record, row_of};
ghost use Rattle.script.specs.Script.{AcceptedBefore, at_row, Explains, HasWorker, script_records};
ghost use Rattle.script.specs.Script.{ExplainsFailure};

use crate::records::row;
use crate::retried::Retried;
use crate::rows::{BadScript, NotRead, Refusal, Row};
use csv::{ByteRecord, ErrorKind, ReaderBuilder};
use std::alloc::Global;
use std::io;
use std::io::Read;

/// The error for a refusal of the row with this number.
fn at_row(refusal: Refusal, row: u32) -> BadScript
    ensures { result ≡ at_row refusal row }
{
    match refusal {
        Refusal::Refused(word) => BadScript::Refused { row, word },
        Refusal::NoMemory => BadScript::NoMemory,
    }
}

/// The error for an error of `csv`.
fn not_read(error: csv::Error) -> NotRead
    ensures { (workers : ℕ) (all : List Record) → ExplainsFailure workers all result }
{
    match error.into_kind() {
        ErrorKind::Io(error) => NotRead::Reader(error.kind()),
        _ => NotRead::Bad(BadScript::NoMemory),
    }
}

/// Reads the reader to its end. Returns this error, or the reader's own if the reader fails.
fn read_out<R: Read + Drop>(mut input: R, error: BadScript) -> NotRead
    ensures { (workers : ℕ) (all : List Record) → Explains workers all error
        → ExplainsFailure workers all result }
{
    match io::copy(&mut input, &mut io::sink()) {
        Ok(_) => NotRead::Bad(error),
        Err(error) => NotRead::Reader(error.kind()),
    }
}

/// Reads the rows of a script for this many workers from a reader, in order. Each record that `csv`
/// reads by default is a row, of any length, and there is no header row. Besides the rows, at most
/// one record is in memory at a time.
///
/// `NotRead::Bad` if a record is refused. The error has the number of the first such record, from
/// 1, and the first test that refuses it. The function has then read the reader to its end.
///
/// `NotRead::Reader` if the reader failed, before or behind a refused record.
/// `NotRead::Bad(BadScript::NoMemory)` if memory runs out.
pub fn read_script<R: Read + Drop>(
    alloc: Global,
    input: R,
    workers: u32,
) -> Result<Vec<Row>, NotRead>
    ensures read { IfOk result (λ rows. IfSome (R.remaining input) (λ text.
        AcceptedBefore workers (script_records text) (length (script_records text))
        × (rows.items ≡ map row_of (script_records text)))) }
    ensures refused { IfErr result (λ error. IfSome (R.remaining input)
        (λ text. ExplainsFailure workers (script_records text) error)) }
    ensures few { IfOk result (λ rows. length rows.items ≤ 65536) }
    ensures workers { IfOk result (λ rows. All (HasWorker workers) rows.items) }
{
    let mut reader = ReaderBuilder::new()
        .has_headers(true)
        .flexible(true)
        .from_reader(alloc, Retried { reader: input });
    // An empty header row spares the copies of a first record, and makes each record a row.
    if reader.set_byte_headers(ByteRecord::new(alloc)).is_err() {
        drop(reader);
        return Err(NotRead::Bad(BadScript::NoMemory));
    }
    let mut record = ByteRecord::new(alloc);
    let mut rows = Vec::new(alloc);
    'records: loop {
        match reader.read_byte_record(&mut record) {
            Ok(true) => {}
            Ok(false) => {
                drop((reader, record));
                return Ok(rows);
            }
            Err(error) => {
                drop((reader, record, rows));
                return Err(not_read(error));
            }
        }
        match row(alloc, &record, rows.as_slice(), workers) {
            Ok(row) => match rows.push(row) {
                Ok(()) => {}
                Err(refused) => {
                    drop((reader, record, rows, refused));
                    return Err(NotRead::Bad(BadScript::NoMemory));
                }
            },
            Err(refusal) => {
                let error = at_row(refusal, rows.len() as u32 + 1);
                drop((record, rows));
                return Err(read_out(reader.into_inner(), error));
            }
        }
    }
}

/// Reads the rows of a script for this many workers from its bytes, in order. Each record that
/// `csv` reads by default is a row, of any length, and there is no header row.
///
/// `BadScript::Refused` if a record is refused. The error has the number of the first such record,
/// from 1, and the first test that refuses it. `BadScript::NoMemory` if memory runs out.
pub fn script(alloc: Global, text: &[u8], workers: u32) -> Result<Vec<Row>, BadScript>
    ensures read { MatchResult result
        (λ rows. AcceptedBefore workers (script_records text.now) (length (script_records text.now))
        × (rows.items ≡ map row_of (script_records text.now)))
        (λ error. Explains workers (script_records text.now) error) }
    ensures few { IfOk result (λ rows. length rows.items ≤ 65536) }
    ensures workers { IfOk result (λ rows. All (HasWorker workers) rows.items) }
{
    match read_script(alloc, text, workers) {
        Ok(rows) => Ok(rows),
        Err(NotRead::Bad(error)) => Err(error),
        // Reading from memory fails only if memory runs out.
        Err(NotRead::Reader(_)) => Err(BadScript::NoMemory),
    }
}
