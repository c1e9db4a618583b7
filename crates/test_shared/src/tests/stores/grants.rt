//! Grants, whatever becomes of their blob.
ghost use Rattle.std.specs.Prelude.{◌≡◌};

use super::{
    answers, beginning, delete, gives, is_lawful_book, letters, lose, other_letters, put, read,
    shape, stat,
};
use crate::tests::compare;
use book::{Answer, Fault, Name, Note};
use lent::Grant;
use lrc_code::Code;
use named_calls::WaitingCalls;
use shared::{Pass, Store};
use std::alloc::Global;
use std::process::Abort;
use std::sync::Wait;
use std::thread::join;

/// Puts twelve letters in LRC(12,2,2).
fn put_wide<R: Wait + Abort>(rt: &R, alloc: Global, store: &Store, pass: &mut Pass, name: &Name)
    requires { pass.old.store ≡ store.now }
    ensures { pass.new.store ≡ store.now }
{
    let stored = store.put_as(rt, alloc, pass, name.duplicate(), letters(), Code::Wide);
    answers(rt, stored, Note::Stored(1));
}

#[test]
fn a_grant_is_walked_after_the_blob_is_gone(rt: HostRuntime) {
    let alloc = rt.alloc();
    let (store, mut p, a) = beginning(&rt, alloc, 16);
    let mut q = p.split(&store, 1).expect(&rt, "memory");
    put_wide(&rt, alloc, &store, &mut p, &a);
    lose(&rt, alloc, &store, &mut p, &a, 0);
    let grant = read(&rt, &store, &mut p, &a);
    lose(&rt, alloc, &store, &mut q, &a, 1);
    delete(&rt, &store, &mut q, &a);
    gives(&rt, alloc, &grant, b"ABCDEFGHIJKL", 1);
}

#[test]
fn a_grant_keeps_its_version(rt: HostRuntime) {
    let alloc = rt.alloc();
    let (store, mut p, a) = beginning(&rt, alloc, 16);
    put(&rt, alloc, &store, &mut p, &a, letters(), 1);
    let old = read(&rt, &store, &mut p, &a);
    lose(&rt, alloc, &store, &mut p, &a, 0);
    put(&rt, alloc, &store, &mut p, &a, other_letters(), 2);
    stat(&rt, &store, &mut p, &a, shape(2, 0));
    let new = read(&rt, &store, &mut p, &a);
    are_versions(&rt, alloc, &old, &new);
}

/// That the grants are of the first version, of twelve letters, and of the second, of others.
fn are_versions(rt: &impl Abort, alloc: Global, old: &Grant, new: &Grant) {
    compare(rt, (old.version(), new.version()), (1, 2));
    gives(rt, alloc, old, b"ABCDEFGHIJKL", 0);
    gives(rt, alloc, new, b"MNOPQRSTUVWX", 0);
}

/// 1 if this is what is noted of the answer, 0 if not.
fn count_if(answer: &Result<Answer, Fault>, note: Note) -> u64 {
    match answer {
        Ok(answer) if answer.note() == note => 1,
        _ => 0,
    }
}

/// Loses all fragments of the only stripe. Returns how many of these calls answered as they should.
fn lose_all<R: Wait>(rt: &R, alloc: Global, store: &Store, pass: &mut Pass, name: &Name) -> u64
    requires { pass.old.store ≡ store.now }
    ensures { pass.new.store ≡ store.now }
{
    let mut done = 0u64;
    for fragment in 0..16 {
        let lost = store.lose(rt, alloc, pass, name.duplicate(), 0, fragment);
        done = done.saturating_add(count_if(&lost, Note::Lost(1)));
    }
    done
}

/// Deletes the name and puts other bytes under it. Returns the same.
fn replace<R: Wait>(rt: &R, alloc: Global, store: &Store, pass: &mut Pass, name: &Name) -> u64
    requires { pass.old.store ≡ store.now }
    ensures { pass.new.store ≡ store.now }
{
    let deleted = store.delete(rt, pass, name.duplicate());
    let stored = store.put(rt, alloc, pass, name.duplicate(), other_letters());
    count_if(&deleted, Note::Deleted(1)).saturating_add(count_if(&stored, Note::Stored(2)))
}

/// Loses all fragments of the only stripe, deletes the name and puts other bytes under it. Returns
/// how many of these calls answered as they should.
fn overwrite<R: Wait>(rt: &R, alloc: Global, store: &Store, pass: Pass, name: &Name) -> (Pass, u64)
    requires { pass.store ≡ store.now }
    ensures { result.0.store ≡ store.now }
{
    let mut pass = pass;
    let lost = lose_all(rt, alloc, store, &mut pass, name);
    let done = lost.saturating_add(replace(rt, alloc, store, &mut pass, name));
    (pass, done)
}

/// The number of entries in the lawful journal of a store whose passes are all joined to this one.
fn entries_of(rt: &impl Abort, alloc: Global, store: Store, pass: Pass) -> usize
    requires { pass.store ≡ store }
{
    assert!(rt; pass.room() == 64);
    let book = store.close(pass);
    assert!(rt; is_lawful_book(rt, alloc, &book));
    book.entries().len()
}

#[test]
fn grants_outlive_their_blob(rt: HostRuntime) {
    let alloc = rt.alloc();
    let (store, mut p, a) = beginning(&rt, alloc, 32);
    let q = p.split(&store, 1).expect(&rt, "memory");
    put(&rt, alloc, &store, &mut p, &a, letters(), 1);
    let grant = read(&rt, &store, &mut p, &a);
    let ((q, done), ()) = join(
        &rt,
        || -> (Pass, u64)
            requires { q.store ≡ store }
            ensures { result.0.store ≡ store }
        { overwrite(&rt, alloc, &store, q, &a) },
        || (),
    );
    compare(&rt, done, 18);
    gives(&rt, alloc, &grant, b"ABCDEFGHIJKL", 0);
    p.join(&store, q);
    compare(&rt, entries_of(&rt, alloc, store, p), 20);
}
