//! Four threads over four shards.
ghost use Rattle.std.specs.Prelude.{◌≡◌, IfOk};
ghost use Rattle.sharded.specs.Passes.{store_of};

use crate::calls::{Call, Form, answer};
use crate::journals::{close, count_entries, split};
use crate::names::NAMES;
use anyhow::{Result, ensure};
use sharded::{Name, ShardedPass, ShardedStore};
use std::alloc::Global;
use std::sync::Wait;
use std::thread;
use std::thread::Threads;

/// How often each thread uses a name.
const TURNS: u64 = 400;

/// Calls that do not wait, on one name.
fn use_name<R: Wait>(
    rt: &R,
    alloc: Global,
    store: &ShardedStore,
    pass: &mut ShardedPass,
    name: &Name,
) -> Result<()>
    requires { store_of pass.old ≡ store.now }
    ensures { store_of pass.new ≡ store.now }
{
    let form = Form::Tries;
    answer(rt, alloc, store, pass, name, form, Call::Put)?;
    answer(rt, alloc, store, pass, name, form, Call::Lose)?;
    answer(rt, alloc, store, pass, name, form, Call::Read)?;
    answer(rt, alloc, store, pass, name, form, Call::Repair)?;
    Ok(())
}

/// The calls on every name, in turn.
fn use_names<R: Wait>(
    rt: &R,
    alloc: Global,
    store: &ShardedStore,
    pass: &mut ShardedPass,
) -> Result<()>
    requires { store_of pass.old ≡ store.now }
    ensures { store_of pass.new ≡ store.now }
{
    for turn in 0..TURNS {
        let name = Name::new(NAMES[turn as usize % NAMES.len()])?;
        use_name(rt, alloc, store, pass, &name)?;
    }
    Ok(())
}

/// The work of a thread. It returns its pass.
fn work<R: Wait>(
    rt: &R,
    alloc: Global,
    store: &ShardedStore,
    mut pass: ShardedPass,
) -> (ShardedPass, Result<()>)
    requires { store_of pass ≡ store.now }
    ensures { store_of result.0 ≡ store.now }
{
    let done = use_names(rt, alloc, store, &mut pass);
    (pass, done)
}

/// Two threads, whose passes are then joined.
fn work_twice<R: Threads + Wait + Sync>(
    rt: &R,
    alloc: Global,
    store: &ShardedStore,
    one: ShardedPass,
    other: ShardedPass,
) -> (ShardedPass, Result<()>)
    requires { (store_of one ≡ store.now) × (store_of other ≡ store.now) }
    ensures { store_of result.0 ≡ store.now }
{
    let ((mut pass, first), (other, second)) = thread::join(
        rt,
        || -> (ShardedPass, Result<()>)
            requires { store_of one ≡ store.now }
            ensures { store_of result.0 ≡ store.entry.now }
        { work(rt, alloc, store, one) },
        || -> (ShardedPass, Result<()>)
            requires { store_of other ≡ store.now }
            ensures { store_of result.0 ≡ store.entry.now }
        { work(rt, alloc, store, other) },
    );
    pass.join(store, other);
    (pass, first.and(second))
}

/// Four threads, two and two.
fn work_in_four<R: Threads + Wait + Sync>(
    rt: &R,
    alloc: Global,
    store: &ShardedStore,
    mut pass: ShardedPass,
) -> Result<ShardedPass>
    requires { store_of pass ≡ store.now }
    ensures { IfOk result (λ p. store_of p ≡ store.now) }
{
    let two = split(alloc, store, &mut pass, 2)?;
    let three = split(alloc, store, &mut pass, 3)?;
    let four = split(alloc, store, &mut pass, 4)?;
    let ((mut pass, first), (other, second)) = thread::join(
        rt,
        || -> (ShardedPass, Result<()>)
            requires { (store_of pass ≡ store.now) × (store_of two ≡ store.now) }
            ensures { store_of result.0 ≡ store.entry.now }
        { work_twice(rt, alloc, store, pass, two) },
        || -> (ShardedPass, Result<()>)
            requires { (store_of three ≡ store.now) × (store_of four ≡ store.now) }
            ensures { store_of result.0 ≡ store.entry.now }
        { work_twice(rt, alloc, store, three, four) },
    );
    first?;
    second?;
    pass.join(store, other);
    Ok(pass)
}

/// All calls of the threads are in the books.
pub(crate) fn run<R: Threads + Wait + Sync>(
    rt: &R,
    alloc: Global,
    store: ShardedStore,
    pass: ShardedPass,
) -> Result<()>
    requires { store_of pass ≡ store }
{
    let pass = work_in_four(rt, alloc, &store, pass)?;
    let books = close(alloc, store, pass)?;
    let calls = 4 * 4 * TURNS;
    ensure!(
        count_entries(alloc, &books)? == calls,
        "another number of calls"
    );
    Ok(())
}
