//! Snapshots, and fragments that leave the store and come back.
ghost use Rattle.std.specs.Prelude.{◌≡◌};
ghost use Rattle.sealed.specs.Layout.{HasFragment};
ghost use Rattle.sealed.specs.Rebuilding.{IsFragmentOf};
ghost use Rattle.shared.specs.Passes.{IsConsistent};
ghost use Rattle.shared.specs.Snapshots.{HasFragmentsOf};

use super::{answers, beginning, delete, gives, letters, lose, put, reads, shape, stat};
use crate::tests::compare;
use book::{Name, Note};
use bytes::Bytes;
use lent::{Asked, Grant, Snapshot};
use lrc_code::{Code, LostSet};
use named_calls::{TryCalls, TrySnapshots, WaitingCalls, WaitingSnapshots};
use shared::{Pass, Store};
use std::alloc::Global;
use std::process::Abort;
use std::sync::Wait;

/// A snapshot of a name's blob.
fn taken<R: Wait + Abort>(rt: &R, store: &Store, pass: &mut Pass, name: &Name) -> Snapshot
    requires { pass.old.store ≡ store.now }
    ensures pass { (pass.new.store ≡ store.now) × IsConsistent pass.new }
    ensures known { HasFragmentsOf pass.new.seen store.now.width name.now result }
{
    match store.snapshot(rt, pass, name.duplicate()) {
        Ok(Some(snapshot)) => snapshot,
        _ => panic!(rt; "there is a blob"),
    }
}

/// The bytes of a fragment of the first stripe, lent by a snapshot or rebuilt from it.
fn fragment_of(rt: &impl Abort, alloc: Global, snapshot: &Snapshot, fragment: u64) -> Bytes
    ensures has { HasFragment snapshot.now.code snapshot.now.width snapshot.now.len 0 fragment }
    ensures bytes { IsFragmentOf snapshot.now 0 fragment result }
{
    if let Some(bytes) = snapshot.fragment(0, fragment) {
        return Bytes::copy_from_slice(alloc, bytes).expect(rt, "memory");
    }
    match snapshot.rebuild(alloc, 0, fragment) {
        Ok(Some(bytes)) => bytes,
        _ => panic!(rt; "it can be rebuilt"),
    }
}

/// Loses a fragment of the first stripe. The pass can still restore the fragments of a snapshot.
fn lose_after<R: Wait + Abort>(
    rt: &R,
    alloc: Global,
    store: &Store,
    pass: &mut Pass,
    name: &Name,
    snapshot: &Snapshot,
    fragment: u64,
)
    requires pass { (pass.old.store ≡ store.now) × IsConsistent pass.old }
    requires known { HasFragmentsOf pass.old.seen store.now.width name.now snapshot.now }
    ensures pass { (pass.new.store ≡ store.now) × IsConsistent pass.new }
    ensures known { HasFragmentsOf pass.new.seen store.now.width name.now snapshot.now }
{
    let lost = store.lose(rt, alloc, pass, name.duplicate(), 0, fragment);
    answers(rt, lost, Note::Lost(1));
}

/// Restores a fragment of the first stripe that comes from a snapshot.
fn restore<R: Wait + Abort>(
    rt: &R,
    alloc: Global,
    store: &Store,
    pass: &mut Pass,
    name: &Name,
    snapshot: &Snapshot,
    fragment: u64,
)
    requires store { pass.old.store ≡ store.now }
    requires known { HasFragmentsOf pass.old.seen store.now.width name.now snapshot.now }
    ensures { pass.new.store ≡ store.now }
{
    let bytes = fragment_of(rt, alloc, snapshot, fragment);
    let version = snapshot.version();
    let name = name.duplicate();
    let restored = store.restore(rt, alloc, pass, name, version, 0, fragment, bytes);
    answers(rt, restored, Note::Repaired(1));
}

/// As `restore`, without waiting.
fn try_restore(
    rt: &impl Abort,
    alloc: Global,
    store: &Store,
    pass: &mut Pass,
    name: &Name,
    snapshot: &Snapshot,
    fragment: u64,
)
    requires store { pass.old.store ≡ store.now }
    requires known { HasFragmentsOf pass.old.seen store.now.width name.now snapshot.now }
    ensures { pass.new.store ≡ store.now }
{
    let bytes = fragment_of(rt, alloc, snapshot, fragment);
    let version = snapshot.version();
    let name = name.duplicate();
    let restored = store.try_restore(alloc, pass, name, version, 0, fragment, bytes);
    answers(rt, restored, Note::Repaired(1));
}

#[test]
fn a_fragment_goes_out_and_in(rt: HostRuntime) {
    let alloc = rt.alloc();
    let (store, mut p, a) = beginning(&rt, alloc, 16);
    put(&rt, alloc, &store, &mut p, &a, letters(), 1);
    let snapshot = taken(&rt, &store, &mut p, &a);
    lose_after(&rt, alloc, &store, &mut p, &a, &snapshot, 3);
    restore(&rt, alloc, &store, &mut p, &a, &snapshot, 3);
    stat(&rt, &store, &mut p, &a, shape(1, 0));
    reads(&rt, alloc, &store, &mut p, &a, b"ABCDEFGHIJKL", 0);
}

/// Loses the first three fragments of a group. They are rebuilt from parities 12, 14 and 15.
fn lose_and_read<R: Wait + Abort>(
    rt: &R,
    alloc: Global,
    store: &Store,
    pass: &mut Pass,
    name: &Name,
)
    requires { pass.old.store ≡ store.now }
{
    lose(rt, alloc, store, pass, name, 0);
    lose(rt, alloc, store, pass, name, 1);
    lose(rt, alloc, store, pass, name, 2);
    reads(rt, alloc, store, pass, name, b"ABCDEFGHIJKL", 3);
}

#[test]
fn a_parity_goes_out_and_in(rt: HostRuntime) {
    let alloc = rt.alloc();
    let (store, mut p, a) = beginning(&rt, alloc, 16);
    put(&rt, alloc, &store, &mut p, &a, letters(), 1);
    let snapshot = taken(&rt, &store, &mut p, &a);
    lose_after(&rt, alloc, &store, &mut p, &a, &snapshot, 14);
    try_restore(&rt, alloc, &store, &mut p, &a, &snapshot, 14);
    lose_and_read(&rt, alloc, &store, &mut p, &a);
}

/// That a snapshot lacks the first fragment alone.
fn lacks_the_first(rt: &impl Abort, snapshot: &Snapshot) {
    assert!(rt; snapshot.fragment(0, 0).is_none());
    compare(rt, snapshot.lost(0), Some(LostSet::empty().with(0)));
}

#[test]
fn a_fragment_is_rebuilt_outside(rt: HostRuntime) {
    let alloc = rt.alloc();
    let (store, mut p, a) = beginning(&rt, alloc, 16);
    put(&rt, alloc, &store, &mut p, &a, letters(), 1);
    lose(&rt, alloc, &store, &mut p, &a, 0);
    let snapshot = taken(&rt, &store, &mut p, &a);
    lacks_the_first(&rt, &snapshot);
    restore(&rt, alloc, &store, &mut p, &a, &snapshot, 0);
    reads(&rt, alloc, &store, &mut p, &a, b"ABCDEFGHIJKL", 0);
}

/// A grant of the twelve letters that a snapshot has.
fn read_all(rt: &impl Abort, snapshot: &Snapshot) -> Grant {
    match snapshot.read(0, 12) {
        Ok(Asked::Granted(grant)) => grant,
        _ => panic!(rt; "all is there"),
    }
}

/// That a grant is of a blob in LRC(12,2,2) at width 1.
fn is_wide(rt: &impl Abort, grant: &Grant) {
    let snapshot = grant.snapshot().expect(rt, "memory");
    compare(
        rt,
        (snapshot.code(), snapshot.width().get()),
        (Code::Wide, 1),
    );
}

#[test]
fn a_snapshot_is_read(rt: HostRuntime) {
    let alloc = rt.alloc();
    let (store, mut p, a) = beginning(&rt, alloc, 16);
    put(&rt, alloc, &store, &mut p, &a, letters(), 1);
    let snapshot = taken(&rt, &store, &mut p, &a);
    lose(&rt, alloc, &store, &mut p, &a, 0);
    let grant = read_all(&rt, &snapshot);
    gives(&rt, alloc, &grant, b"ABCDEFGHIJKL", 0);
    assert!(rt; matches!(snapshot.read(12, 1), Ok(Asked::OutOfRange)));
    is_wide(&rt, &grant);
}

/// That a snapshot has the twelve letters, each in a fragment of its own.
fn has_letters(rt: &impl Abort, snapshot: &Snapshot) {
    for (f, letter) in b"ABCDEFGHIJKL".iter().enumerate() {
        let bytes = snapshot.fragment(0, f as u64).expect(rt, "a fragment");
        compare(rt, bytes.first().copied(), Some(*letter));
    }
}

/// That a snapshot has the four parities, and no other fragments or stripes.
fn has_parities(rt: &impl Abort, snapshot: &Snapshot) {
    for f in 12..16 {
        assert!(rt; snapshot.fragment(0, f).is_some());
    }
    assert!(rt; snapshot.fragment(0, 16).is_none());
    assert!(rt; snapshot.fragment(1, 0).is_none());
}

/// That a snapshot is of the first version, of twelve bytes in one stripe without a loss.
fn is_whole(rt: &impl Abort, snapshot: &Snapshot) {
    let shape = (snapshot.version(), snapshot.len(), snapshot.stripes());
    compare(rt, shape, (1, 12, 1));
    compare(rt, snapshot.lost(0), Some(LostSet::empty()));
    compare(rt, snapshot.lost(1), None);
}

/// A snapshot of a name's blob, taken without waiting.
fn try_taken(rt: &impl Abort, store: &Store, pass: &mut Pass, name: &Name) -> Snapshot
    requires { pass.old.store ≡ store.now }
    ensures { pass.new.store ≡ store.now }
{
    match store.try_snapshot(pass, name.duplicate()) {
        Ok(Some(snapshot)) => snapshot,
        _ => panic!(rt; "there is a blob"),
    }
}

#[test]
fn a_snapshot_outlives_its_blob(rt: HostRuntime) {
    let alloc = rt.alloc();
    let (store, mut p, a) = beginning(&rt, alloc, 16);
    put(&rt, alloc, &store, &mut p, &a, letters(), 1);
    let snapshot = try_taken(&rt, &store, &mut p, &a);
    delete(&rt, &store, &mut p, &a);
    has_letters(&rt, &snapshot);
    has_parities(&rt, &snapshot);
    is_whole(&rt, &snapshot);
    assert!(rt; matches!(store.snapshot(&rt, &mut p, a), Ok(None)));
}
