//! What is shared by the tests.
ghost use Rattle.std.specs.Prelude.{◌≡◌};

mod entered;
mod grants;
mod numbers;
mod passes;
mod runs;
mod snapshots;
mod threads;

use crate::tests::compare;
use book::{Answer, Book, Fault, Limit, Name, Note, is_lawful_from};
use bytes::Bytes;
use lent::{Grant, Piece};
use named_calls::WaitingCalls;
use shared::{Pass, Store};
use std::alloc::Global;
use std::process::Abort;
use std::sync::Wait;

/// A store of width 1, its first pass, and the name `a`.
fn beginning(rt: &impl Abort, alloc: Global, entries: u32) -> (Store, Pass, Name)
    ensures { (result.1.store ≡ result.0) × (result.1.room ≡ 64) }
{
    let limit = Limit::new(entries).expect(rt, "a limit");
    let (store, pass) = Store::open(alloc, 1, limit).expect(rt, "memory");
    (store, pass, Name::new("a").expect(rt, "a name"))
}

/// Twelve letters, one in each data fragment of a stripe.
fn letters() -> Bytes {
    Bytes::from_static(b"ABCDEFGHIJKL")
}

/// Twelve others.
fn other_letters() -> Bytes {
    Bytes::from_static(b"MNOPQRSTUVWX")
}

/// That a call was made, and what is noted of its answer.
fn answers(rt: &impl Abort, called: Result<Answer, Fault>, note: Note) {
    let answer = called.expect(rt, "an answer");
    compare(rt, answer.note(), note);
}

/// Puts these bytes under a name: this is the put with this number.
fn put<R: Wait + Abort>(
    rt: &R,
    alloc: Global,
    store: &Store,
    pass: &mut Pass,
    name: &Name,
    bytes: Bytes,
    number: u64,
)
    requires { pass.old.store ≡ store.now }
    ensures { pass.new.store ≡ store.now }
{
    let stored = store.put(rt, alloc, pass, name.duplicate(), bytes);
    answers(rt, stored, Note::Stored(number));
}

/// Loses a fragment of the first stripe of a name's first version.
fn lose<R: Wait + Abort>(
    rt: &R,
    alloc: Global,
    store: &Store,
    pass: &mut Pass,
    name: &Name,
    fragment: u64,
)
    requires { pass.old.store ≡ store.now }
    ensures { pass.new.store ≡ store.now }
{
    let lost = store.lose(rt, alloc, pass, name.duplicate(), 0, fragment);
    answers(rt, lost, Note::Lost(1));
}

/// Deletes a name's first version.
fn delete<R: Wait + Abort>(rt: &R, store: &Store, pass: &mut Pass, name: &Name)
    requires { pass.old.store ≡ store.now }
    ensures { pass.new.store ≡ store.now }
{
    let deleted = store.delete(rt, pass, name.duplicate());
    answers(rt, deleted, Note::Deleted(1));
}

/// Asks for the shape of a name's blob.
fn stat<R: Wait + Abort>(rt: &R, store: &Store, pass: &mut Pass, name: &Name, shape: Note)
    requires { pass.old.store ≡ store.now }
    ensures { pass.new.store ≡ store.now }
{
    answers(rt, store.stat(rt, pass, name.duplicate()), shape);
}

/// Discards so many entries, all but the last ones.
fn trim<R: Wait + Abort>(
    rt: &R,
    alloc: Global,
    store: &Store,
    pass: &mut Pass,
    keep: u64,
    discarded: u64,
)
    requires { pass.old.store ≡ store.now }
    ensures { pass.new.store ≡ store.now }
{
    compare(rt, store.trim(rt, alloc, pass, keep), Ok(discarded));
}

/// That a read of the twelve bytes of a name gives these, of which the first are built.
fn reads<R: Wait + Abort>(
    rt: &R,
    alloc: Global,
    store: &Store,
    pass: &mut Pass,
    name: &Name,
    bytes: &[u8],
    built: usize,
)
    requires { pass.old.store ≡ store.now }
    ensures { pass.new.store ≡ store.now }
{
    gives(rt, alloc, &read(rt, store, pass, name), bytes, built);
}

/// A grant of the twelve bytes of a name.
fn read<R: Wait + Abort>(rt: &R, store: &Store, pass: &mut Pass, name: &Name) -> Grant
    requires { pass.old.store ≡ store.now }
    ensures { pass.new.store ≡ store.now }
{
    granted(rt, store.read(rt, pass, name.duplicate(), 0, 12))
}

/// The grant that was answered.
fn granted(rt: &impl Abort, called: Result<Answer, Fault>) -> Grant {
    match called {
        Ok(Answer::Granted(grant)) => grant,
        _ => panic!(rt; "not granted"),
    }
}

/// That a walk gives these bytes, one in each piece, of which the first are built.
fn gives(rt: &impl Abort, alloc: Global, grant: &Grant, bytes: &[u8], built: usize) {
    let mut walk = grant.walk();
    for (place, byte) in bytes.iter().enumerate() {
        let piece = walk
            .next_piece(alloc)
            .expect(rt, "memory")
            .expect(rt, "a piece");
        compare(rt, piece.bytes().first().copied(), Some(*byte));
        compare(rt, matches!(piece, Piece::Built(_)), place < built);
    }
    assert!(rt; walk.next_piece(alloc).expect(rt, "memory").is_none());
}

/// Whether the journal of a book is lawful.
fn is_lawful_book(rt: &impl Abort, alloc: Global, book: &Book) -> bool {
    let lawful = is_lawful_from(alloc, book.base(), book.entries(), book.width());
    lawful.expect(rt, "memory")
}

/// The shape of a blob of twelve bytes in one stripe.
fn shape(version: u64, lost: u64) -> Note {
    Note::Shape {
        version,
        len: 12,
        stripes: 1,
        lost,
    }
}
