//! What is left of a store by calls that are refused, and by repairs.
ghost use Rattle.std.specs.Prelude.{◌≡◌, ◌<◌};

use super::{Call, all_give, closed, compare, fragment, make, must_make, name_of, opened};
use book::{Book, Fault, Name, Note};
use bytes::Bytes;
use sealed::{Sealed, seal};
use shared::{Pass, Store};
use std::alloc::Global;
use std::process::Abort;
use std::sync::Wait;
use std::test::Fail;

/// A store with a blob `a` of twelve bytes, without its fragment 0: two entries.
fn one_lost<R: Wait + Abort>(rt: &R, alloc: Global, limit: u32) -> (Store, Pass, Name)
    ensures { result.1.store ≡ result.0 }
{
    let (store, mut pass) = opened(rt, alloc, limit);
    let a = name_of(rt, "a");
    must_make(rt, alloc, &store, &mut pass, &a, Call::Put(b"ABCDEFGHIJKL"));
    must_make(rt, alloc, &store, &mut pass, &a, Call::Lose(0));
    (store, pass, a)
}

/// Asserts that the book has `a` with each of its fragments as it was put. The first may be lost.
fn has_each(rt: &impl Abort, alloc: Global, book: &Book, first_is_lost: bool) {
    let found = book.find(&name_of(rt, "a")).expect(rt, "a blob");
    let bytes = Bytes::from_static(b"ABCDEFGHIJKL");
    let whole = seal(alloc, bytes, found.width).expect(rt, "memory");
    for f in 0..16u8 {
        is_as_put(rt, found, &whole, f, f == 0 && first_is_lost);
    }
}

/// Asserts that a fragment is lost, or is that of the whole blob.
fn is_as_put(rt: &impl Abort, found: &Sealed, whole: &Sealed, f: u8, is_lost: bool)
    requires { f < 16 }
{
    let there = fragment(rt, found, f);
    if is_lost {
        assert!(rt; there.is_none());
    } else {
        assert!(rt; there == fragment(rt, whole, f), "{f}");
    }
}

/// Closes the store: of its calls, so many were discarded and so many are entries, and it has `a`.
fn ends_with<R: Wait + Abort>(
    rt: &R,
    alloc: Global,
    store: Store,
    pass: Pass,
    calls: (u64, usize),
    first_is_lost: bool,
)
    requires { pass.store ≡ store }
{
    let book = closed(rt, store, pass);
    compare(rt, (book.base().trimmed, book.entries().len()), calls);
    has_each(rt, alloc, &book, first_is_lost);
}

/// Each of the six calls, a repair and a deletion among them.
const ALL: [Call; 6] = [
    Call::Put(b"MNOPQRSTUVWX"),
    Call::Read,
    Call::Lose(1),
    Call::Repair(0),
    Call::Delete,
    Call::Stat,
];

const ONE_LOST: Note = Note::Shape {
    version: 1,
    len: 12,
    stripes: 1,
    lost: 1,
};

/// Discards an entry, and leaves the blob without its fragment.
fn trim_to_one<R: Wait + Abort>(rt: &R, alloc: Global, store: &Store, pass: &mut Pass, a: &Name)
    requires { pass.old.store ≡ store.now }
    ensures { pass.new.store ≡ store.now }
{
    compare(rt, store.trim(rt, alloc, pass, 1), Ok(1));
    let stat = make(rt, alloc, store, pass, a, Call::Stat);
    compare(rt, stat, Ok(ONE_LOST));
}

/// They are refused. A trim to one entry discards one, and leaves the blob without its fragment.
#[test]
fn a_full_journal_leaves_all_as_it_was(rt: HostRuntime) {
    let alloc = rt.alloc();
    let (store, mut pass, a) = one_lost(&rt, alloc, 2);
    let full = Err(Fault::JournalFull);
    assert!(rt; all_give(&rt, alloc, &store, &mut pass, &a, &ALL, full));
    trim_to_one(&rt, alloc, &store, &mut pass, &a);
    ends_with(&rt, alloc, store, pass, (1, 2), true);
}

/// Calls of a name that there is not are entered, and leave the other name's blob as it was.
#[test]
fn another_name_leaves_all_as_it_was(rt: HostRuntime) {
    let alloc = rt.alloc();
    let (store, mut pass, _) = one_lost(&rt, alloc, 100);
    let but_put = &ALL[1..];
    let (b, none) = (name_of(&rt, "b"), Ok(Note::NoName));
    assert!(rt; all_give(&rt, alloc, &store, &mut pass, &b, but_put, none));
    assert!(rt; matches!(Name::new("B"), Err(Fault::BadName)));
    ends_with(&rt, alloc, store, pass, (0, 7), true);
}

/// Whether these calls lose fragments, and those repair them.
fn come_back<R: Wait>(
    rt: &R,
    alloc: Global,
    store: &Store,
    pass: &mut Pass,
    name: &Name,
    losses: &[Call],
    repairs: &[Call],
) -> bool
    requires { pass.old.store ≡ store.now }
    ensures { pass.new.store ≡ store.now }
{
    let lost = all_give(rt, alloc, store, pass, name, losses, Ok(Note::Lost(1)));
    lost && all_give(rt, alloc, store, pass, name, repairs, Ok(Note::Repaired(1)))
}

/// Each data fragment but the first is lost and repaired.
fn data_come_back<R: Wait + Abort>(rt: &R, alloc: Global, store: &Store, pass: &mut Pass, a: &Name)
    requires { pass.old.store ≡ store.now }
    ensures { pass.new.store ≡ store.now }
{
    for f in 1..12 {
        let (loss, repair) = ([Call::Lose(f)], [Call::Repair(f)]);
        assert!(rt; come_back(rt, alloc, store, pass, a, &loss, &repair));
    }
}

const LOSSES: [Call; 4] = [
    Call::Lose(12),
    Call::Lose(13),
    Call::Lose(14),
    Call::Lose(15),
];

const REPAIRS: [Call; 4] = [
    Call::Repair(12),
    Call::Repair(13),
    Call::Repair(14),
    Call::Repair(15),
];

/// Each of the sixteen fragments is lost and repaired, the four parities at once. Afterwards each
/// is as it was put.
#[test]
fn each_fragment_comes_back(rt: HostRuntime) {
    let alloc = rt.alloc();
    let (store, mut pass, a) = one_lost(&rt, alloc, 100);
    assert!(rt; come_back(&rt, alloc, &store, &mut pass, &a, &[], &[Call::Repair(0)]));
    data_come_back(&rt, alloc, &store, &mut pass, &a);
    assert!(rt; come_back(&rt, alloc, &store, &mut pass, &a, &LOSSES, &REPAIRS));
    ends_with(&rt, alloc, store, pass, (0, 33), false);
}

const FAULTS: [(Fault, &str); 7] = [
    (Fault::NoMemory, "out of memory"),
    (Fault::JournalFull, "the journal is full"),
    (Fault::BadName, "not a name"),
    (Fault::TooLong, "the blob is too long"),
    (Fault::Busy, "the store is busy"),
    (Fault::BadWidth, "not a width"),
    (Fault::NoPass, "no pass is left"),
];

/// The text of each fault.
#[test]
fn faults_are_reported(rt: HostRuntime) -> Result<(), Fail> {
    for (fault, text) in &FAULTS {
        let shown = format!(in rt.alloc(); "{fault}")?;
        compare(&rt, shown.as_str(), *text);
    }
    Ok(())
}
