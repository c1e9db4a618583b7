//! Threads that share a store.
ghost use Rattle.std.specs.Prelude.{◌≡◌};

use super::{beginning, is_lawful_book, letters, trim};
use crate::tests::compare;
use book::{Answer, Book, Name};
use named_calls::WaitingCalls;
use shared::{Pass, Store};
use std::alloc::Global;
use std::process::Abort;
use std::sync::Wait;
use std::thread::{Threads, join};

/// One put, and then the loss of a fragment and its repair, in turn. Returns how many of these
/// calls answered as they should.
fn lose_and_repair<R: Wait>(
    rt: &R,
    alloc: Global,
    store: &Store,
    pass: Pass,
    name: &Name,
) -> (Pass, u64)
    requires { pass.store ≡ store.now }
    ensures { result.0.store ≡ store.now }
{
    let mut pass = pass;
    let stored = store.put(rt, alloc, &mut pass, name.duplicate(), letters());
    let mut done = count_if(matches!(&stored, Ok(Answer::Stored(_))));
    for _ in 0..50u64 {
        let more = lose_once(rt, alloc, store, &mut pass, name);
        done = done.saturating_add(more);
    }
    (pass, done)
}

/// 1 if so, 0 if not.
fn count_if(is: bool) -> u64 {
    if is { 1 } else { 0 }
}

/// The loss of a fragment and its repair. Returns the same.
fn lose_once<R: Wait>(rt: &R, alloc: Global, store: &Store, pass: &mut Pass, name: &Name) -> u64
    requires { pass.old.store ≡ store.now }
    ensures { pass.new.store ≡ store.now }
{
    let lost = store.lose(rt, alloc, pass, name.duplicate(), 0, 3);
    let repaired = store.repair(rt, alloc, pass, name.duplicate(), 0, 3);
    let done = count_if(matches!(&lost, Ok(Answer::Lost(_))));
    done.saturating_add(count_if(matches!(&repaired, Ok(Answer::Repaired(_)))))
}

/// The book of a store at which two threads have lost and repaired, with 101 calls each.
fn book_of_two<R: Threads + Wait + Abort + Sync>(
    rt: &R,
    alloc: Global,
    store: Store,
    first: Pass,
) -> Book
    requires { first.store ≡ store }
{
    let p = work_of_two(rt, alloc, &store, first);
    assert!(rt; p.room() == 64);
    store.close(p)
}

/// Two threads lose and repair, each a name of its own. Returns the joined pass.
fn work_of_two<R: Threads + Wait + Abort + Sync>(
    rt: &R,
    alloc: Global,
    store: &Store,
    first: Pass,
) -> Pass
    requires { first.store ≡ store.now }
    ensures { result.store ≡ store.now }
{
    let mut p = first;
    let (a, b) = (
        Name::new("a").expect(rt, "a name"),
        Name::new("b").expect(rt, "a name"),
    );
    let q = p.split(store, 1).expect(rt, "memory");
    let ((mut p, one), (q, two)) = join(
        rt,
        || -> (Pass, u64)
            requires { p.store ≡ store.now }
            ensures { result.0.store ≡ store.entry.now }
        { lose_and_repair(rt, alloc, store, p, &a) },
        || -> (Pass, u64)
            requires { q.store ≡ store.now }
            ensures { result.0.store ≡ store.entry.now }
        { lose_and_repair(rt, alloc, store, q, &b) },
    );
    p.join(store, q);
    compare(rt, (one, two), (101, 101));
    p
}

#[test]
fn two_threads_lose_and_repair(rt: HostRuntime) {
    let alloc = rt.alloc();
    let (store, pass, _) = beginning(&rt, alloc, 512);
    let book = book_of_two(&rt, alloc, store, pass);
    compare(&rt, (book.entries().len(), book.calls()), (202, 202));
    assert!(rt; is_lawful_book(&rt, alloc, &book));
}

#[test]
fn without_a_journal(rt: HostRuntime) {
    let alloc = rt.alloc();
    let (store, mut pass) = Store::open_with(alloc, 1, None).expect(&rt, "memory");
    trim(&rt, alloc, &store, &mut pass, 0, 0);
    let book = book_of_two(&rt, alloc, store, pass);
    compare(&rt, (book.entries().len(), book.calls()), (0, 202));
}
