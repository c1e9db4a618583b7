//! The entries of a journal, for C.
ghost use Rattle.std.specs.Prelude.{◌≡◌};
ghost use Rattle.history.specs.Parts.{name_of};
ghost use Rattle.book.specs.Contents.{journal_of};
ghost use Rattle.store_c.specs.Journal.{IsEntry, IsEntryAt, arguments_of, status_of_note};
ghost use Rattle.store_c.specs.Journal.{version_of_note, shape_of_note};

use crate::status::{
    ALREADY_LOST, DONE, NO_FRAGMENT, NO_NAME, NOT_LOST, NOTHING_LEFT, OUT_OF_RANGE, REPLACED,
    UNRECOVERABLE,
};
use session::{Book, Call, Code, Entry, Note};

/// An entry of a journal in C's layout. `first` and `second` are the call's arguments after the
/// name: data fragments and length in bytes, start and length, or stripe and fragment. `version`
/// and the shape are those of the reply. A number that the call or the reply does not have is 0.
#[repr(C)]
#[derive(Clone, Copy, Drop)]
pub struct JournalEntry<'a> {
    pub name: &'a [u8],
    pub first: u64,
    pub second: u64,
    pub third: u64,
    pub version: u64,
    pub len: u64,
    pub stripes: u64,
    pub lost: u64,
    pub who: u32,
    pub call: u32,
    pub status: u32,
}

/// The number of a call, and its arguments after the name.
fn arguments_of(call: &Call) -> (u32, u64, u64, u64)
    ensures { result ≡ arguments_of call.now }
{
    match call {
        Call::Put { name: _, code, len } => {
            let data_fragments = match code {
                Code::Wide => 12,
                Code::Small => 6,
            };
            (0, data_fragments, *len, 0)
        }
        Call::Read {
            name: _,
            start,
            len,
        } => (1, *start, *len, 0),
        Call::Lose {
            name: _,
            stripe,
            fragment,
        } => (2, *stripe, *fragment, 0),
        Call::Repair {
            name: _,
            stripe,
            fragment,
        } => (3, *stripe, *fragment, 0),
        Call::Delete { name: _ } => (4, 0, 0, 0),
        Call::Stat { name: _ } => (5, 0, 0, 0),
        Call::Restore {
            name: _,
            version,
            stripe,
            fragment,
        } => (6, *stripe, *fragment, *version),
    }
}

/// The bytes of the name of a call.
fn name_of(call: &Call) -> &[u8]
    ensures { result.now ≡ name_of call.now }
{
    let name = match call {
        Call::Put { name, .. }
        | Call::Read { name, .. }
        | Call::Lose { name, .. }
        | Call::Repair { name, .. }
        | Call::Restore { name, .. }
        | Call::Delete { name }
        | Call::Stat { name } => name,
    };
    name.as_str().as_bytes()
}

/// The status of a reply.
fn status_of(note: &Note) -> u32
    ensures { result ≡ status_of_note note.now }
{
    match note {
        Note::NoName => NO_NAME,
        Note::OutOfRange => OUT_OF_RANGE,
        Note::Unrecoverable(_) => UNRECOVERABLE,
        Note::NoFragment => NO_FRAGMENT,
        Note::AlreadyLost => ALREADY_LOST,
        Note::NotLost => NOT_LOST,
        Note::Replaced(_) => REPLACED,
        _ => DONE,
    }
}

/// The version of a reply, or 0 if it has none.
fn version_of(note: &Note) -> u64
    ensures { result ≡ version_of_note note.now }
{
    match note {
        Note::Stored(version)
        | Note::Granted(version)
        | Note::Lost(version)
        | Note::Repaired(version)
        | Note::Deleted(version)
        | Note::Unrecoverable(version)
        | Note::Replaced(version) => *version,
        Note::Shape { version, .. } => *version,
        _ => 0,
    }
}

/// The bytes, stripes and lost fragments of a shape, or zeros if the reply is another.
fn shape_of(note: &Note) -> (u64, u64, u64)
    ensures { result ≡ shape_of_note note.now }
{
    match note {
        Note::Shape {
            version: _,
            len,
            stripes,
            lost,
        } => (*len, *stripes, *lost),
        _ => (0, 0, 0),
    }
}

/// An entry for C.
fn entry_for(entry: &Entry) -> JournalEntry<'_>
    ensures { IsEntry entry.now result }
{
    let (call, first, second, third) = arguments_of(&entry.call);
    let (len, stripes, lost) = shape_of(&entry.note);
    JournalEntry {
        name: name_of(&entry.call),
        first,
        second,
        third,
        version: version_of(&entry.note),
        len,
        stripes,
        lost,
        who: entry.who,
        call,
        status: status_of(&entry.note),
    }
}

/// Writes the entry of a journal at an index, from 0, and returns the status.
pub(crate) fn entry_at<'a>(book: &'a Book, index: usize, target: &mut JournalEntry<'a>) -> u32
    ensures { IsEntryAt (journal_of book.now) index result target.old target.new }
{
    match book.entries().get(index) {
        Some(entry) => {
            *target = entry_for(entry);
            DONE
        }
        None => NOTHING_LEFT,
    }
}
