//! One record of a script.

ghost use Rattle.std.specs.Prelude.{◌≡◌, ◌≤◌, [], None, Some, MatchResult, slice_index_or};
ghost use Rattle.csv.specs.Records.{fields_of};
ghost use Rattle.script.specs.Fields.{row_of};
ghost use Rattle.script.specs.Script.{breaks_mend, Heads, is_mend, IsTidy, last_round, refusal};
ghost use Rattle.script.specs.Script.{RefusesWith};

use crate::fields::{number_in, operation, task, worker};
use crate::rows::{Head, Refusal, Row, Task, Word};
use csv::ByteRecord;
use std::alloc::Global;

/// How many rows a script may have.
const MAX_ROWS: usize = 65_536;

/// How many fields a row has.
const FIELDS: usize = 6;

/// The field at an index, empty if there is none.
fn field(fields: &ByteRecord, place: usize) -> &[u8]
    ensures { result.now ≡ slice_index_or (fields_of fields.now) place [] }
{
    match fields.get(place) {
        Some(field) => field,
        None => &[],
    }
}

/// The round of the last row, 0 if there is none.
fn last_round(rows: &[Row]) -> u32
    ensures { result ≡ last_round rows.now }
{
    match rows.last() {
        Some(row) => row.round,
        None => 0,
    }
}

/// Whether the row's round has an earlier row, and one of the round's rows, this one included, is a
/// `mend`.
fn breaks_mend(earlier: &[Row], row: &Row) -> bool
    requires tidy { IsTidy earlier.now }
    requires rises { last_round earlier.now ≤ row.now.round }
    ensures { result ≡ breaks_mend earlier.now row.now }
{
    let Some(last) = earlier.last() else {
        return false;
    };
    if last.round != row.round {
        return false;
    }
    is_mend(&row.task) || is_mend(&last.task)
}

/// Whether a task is a `mend`.
fn is_mend(task: &Task) -> bool
    ensures { result ≡ is_mend task.now }
{
    match task {
        Task::Mend => true,
        Task::Make(_) => false,
    }
}

/// The first three fields of a record, or why one of them is refused.
#[tactic(auto, using(crate::proofs::Refusals::refusal_late), unfolding(crate::specs::Script::refusal))]
fn head(fields: &ByteRecord, earlier: &[Row], workers: u32) -> Result<Head, Word>
    ensures { MatchResult result
        (λ head. Heads workers earlier.now (fields_of fields.now) head)
        (λ word. refusal workers earlier.now (fields_of fields.now) ≡ Some word) }
{
    if earlier.len() == MAX_ROWS {
        return Err(Word::Rows);
    }
    if fields.len() != FIELDS {
        return Err(Word::Fields);
    }
    let Some(round) = number_in(field(fields, 0), 1, u32::MAX) else {
        return Err(Word::Round);
    };
    if round < last_round(earlier) {
        return Err(Word::Round);
    }
    let operation = operation(field(fields, 2));
    let Some(worker) = worker(operation, field(fields, 1), workers) else {
        return Err(Word::Worker);
    };
    let Some(operation) = operation else {
        return Err(Word::Op);
    };
    Ok(Head {
        round,
        worker,
        operation,
    })
}

/// The row that a record represents after the earlier rows, or why it is refused.
pub(crate) fn row(
    alloc: Global,
    fields: &ByteRecord,
    earlier: &[Row],
    workers: u32,
) -> Result<Row, Refusal>
    requires { IsTidy earlier.now }
    ensures { MatchResult result
        (λ row. (refusal workers earlier.now (fields_of fields.now) ≡ None)
        × (row ≡ row_of (fields_of fields.now)))
        (λ e. RefusesWith e (refusal workers earlier.now (fields_of fields.now))) }
{
    let head = match head(fields, earlier, workers) {
        Ok(head) => head,
        Err(word) => return Err(Refusal::Refused(word)),
    };
    let (name, a, b) = (field(fields, 3), field(fields, 4), field(fields, 5));
    let task = match task(alloc, head.operation, name, a, b) {
        Ok(task) => task,
        Err(error) => return Err(error),
    };
    let row = Row {
        round: head.round,
        worker: head.worker,
        task,
    };
    if breaks_mend(earlier, &row) {
        return Err(Refusal::Refused(Word::Mend));
    }
    Ok(row)
}
