//! Two threads, each with a pass of its own.
ghost use Rattle.std.specs.Prelude.{◌≡◌};

use anyhow::{Context, Result, ensure};
use named_calls::WaitingCalls;
use shared::{Answer, Bytes, Fault, Limit, Name, Pass, Store};
use std::alloc::Global;
use std::sync::Wait;
use std::thread;
use std::thread::Threads;

/// The work of a thread. It returns its pass with the answer to its call.
fn put<R: Wait>(
    rt: &R,
    alloc: Global,
    store: &Store,
    mut pass: Pass,
    name: Name,
    blob: Bytes,
) -> (Pass, Result<Answer, Fault>)
    requires { pass.store ≡ store.now }
    ensures { (result.0.store ≡ store.now) × (result.0.room ≡ pass.room) }
{
    let answer = store.put(rt, alloc, &mut pass, name, blob);
    (pass, answer)
}

/// Whether one put stored the first version, and the other the second.
fn are_first_and_second(one: &Answer, other: &Answer) -> bool {
    match (one, other) {
        (Answer::Stored(1), Answer::Stored(2)) | (Answer::Stored(2), Answer::Stored(1)) => true,
        _ => false,
    }
}

/// Opens a store, gives a second thread a pass, and takes the pass back.
pub(crate) fn share<R: Print + Threads + Wait + Sync>(rt: &R, alloc: Global) -> Result<()> {
    let limit = Limit::new(1_000).context("a limit")?;
    let (store, mut first) = Store::open(alloc, 1, limit)?;
    let second = first.split(&store, 1)?;
    let (a, b) = (Name::new("a")?, Name::new("b")?);
    let ((mut first, one), (second, other)) = thread::join(
        rt,
        || -> (Pass, Result<Answer, Fault>)
            requires { (first.store ≡ store) × (first.room ≡ 63) }
            ensures { (result.0.store ≡ store) × (result.0.room ≡ 63) }
        { put(rt, alloc, &store, first, a, Bytes::from_static(b"ABC")) },
        || -> (Pass, Result<Answer, Fault>)
            requires { (second.store ≡ store) × (second.room ≡ 1) }
            ensures { (result.0.store ≡ store) × (result.0.room ≡ 1) }
        { put(rt, alloc, &store, second, b, Bytes::from_static(b"DEF")) },
    );
    first.join(&store, second);
    ensure!(
        are_first_and_second(&one?, &other?),
        "one put is the first, and one the second"
    );
    let book = store.close(first);
    println!(rt; "{} calls of two threads", book.entries().len())?;
    Ok(())
}
