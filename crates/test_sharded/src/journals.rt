//! Trims, passes and books.
ghost use Rattle.std.specs.Prelude.{◌≡◌, ◌<◌, length, IfOk};
ghost use Rattle.sharded.specs.Passes.{store_of, receipt_store, AreLone};

use crate::calls::{Call, Form, expect};
use crate::names::{CALLS, NAMES, count_at};
use anyhow::{Result, bail, ensure};
use book::{Book, Note, is_lawful_from};
use sharded::{Name, ShardedPass, ShardedReceipt, ShardedStore};
use std::alloc::Global;
use std::sync::Wait;

/// Trims the first and the last journal, again if out of memory.
fn trim_ends<R: Wait>(
    rt: &R,
    alloc: Global,
    store: &ShardedStore,
    pass: &mut ShardedPass,
) -> Result<(u64, u64)>
    requires { store_of pass.old ≡ store.now }
    ensures { store_of pass.new ≡ store.now }
{
    let last = store.count_shards() - 1;
    let first = match store.trim_shard(rt, alloc, pass, 0, 2) {
        Err(_) => store.trim_shard(rt, alloc, pass, 0, 2)?,
        Ok(count) => count,
    };
    let second = match store.try_trim_shard(alloc, pass, last, 1) {
        Err(_) => store.try_trim_shard(alloc, pass, last, 1)?,
        Ok(count) => count,
    };
    Ok((first, second))
}

/// Trims some journals, and then all of them to nothing.
pub(crate) fn trim<R: Wait>(
    rt: &R,
    alloc: Global,
    store: &ShardedStore,
    pass: &mut ShardedPass,
) -> Result<()>
    requires { store_of pass.old ≡ store.now }
    ensures { store_of pass.new ≡ store.now }
{
    let last = store.count_shards() - 1;
    // Each name was called, and then repaired.
    let calls = CALLS.saturating_add(1);
    let first = count_at(store, 0, NAMES.len())?.saturating_mul(calls);
    let second = if last == 0 {
        2
    } else {
        count_at(store, last, NAMES.len())?.saturating_mul(calls)
    };
    let trimmed = trim_ends(rt, alloc, store, pass)?;
    ensure!(
        trimmed == (first.saturating_sub(2), second.saturating_sub(1)),
        "another number of entries"
    );
    if store.trim(rt, alloc, pass, 1).is_err() {
        store.trim(rt, alloc, pass, 1)?;
    }
    if store.try_trim(alloc, pass, 0).is_err() {
        store.try_trim(alloc, pass, 0)?;
    }
    Ok(())
}

/// Splits off a second pass, again if out of memory.
pub(crate) fn split(
    alloc: Global,
    store: &ShardedStore,
    pass: &mut ShardedPass,
    who: u32,
) -> Result<ShardedPass>
    requires { store_of pass.old ≡ store.now }
    ensures pass { store_of pass.new ≡ store.now }
    ensures given { IfOk result (λ p. store_of p ≡ store.now) }
{
    match pass.split(alloc, store, who) {
        Ok(other) => Ok(other),
        Err(_) => Ok(pass.split(alloc, store, who)?),
    }
}

/// A receipt of what a pass has seen at each shard, again if out of memory.
fn receipt_of(alloc: Global, store: &ShardedStore, pass: &mut ShardedPass) -> Result<ShardedReceipt>
    requires { store_of pass.old ≡ store.now }
    ensures pass { store_of pass.new ≡ store.now }
    ensures given { IfOk result (λ r. receipt_store r ≡ store.now) }
{
    match pass.receipt(alloc, store) {
        Ok(receipt) => Ok(receipt),
        Err(_) => Ok(pass.receipt(alloc, store)?),
    }
}

/// Closes a store whose passes are all joined, again if out of memory, and returns its books.
pub(crate) fn close(alloc: Global, store: ShardedStore, pass: ShardedPass) -> Result<Vec<Book>>
    requires { store_of pass ≡ store }
{
    ensure!(pass.room() == 64, "a pass is still out");
    match store.close(alloc, pass) {
        Ok(books) => Ok(books),
        Err(fault) => match fault.store.close(alloc, fault.pass) {
            Ok(books) => Ok(books),
            Err(_) => bail!("the store is not closed"),
        },
    }
}

/// The number of entries in lawful books.
pub(crate) fn count_entries(alloc: Global, books: &[Book]) -> Result<u64> {
    let mut count = 0u64;
    for book in books {
        let (base, entries) = (book.base(), book.entries());
        let lawful = match is_lawful_from(alloc, base, entries, book.width()) {
            Err(_) => is_lawful_from(alloc, base, entries, book.width())?,
            Ok(lawful) => lawful,
        };
        ensure!(lawful, "no lawful journal");
        count = count.saturating_add(entries.len() as u64);
    }
    Ok(count)
}

/// A call of a pass, and a receipt of it.
fn call_and_hand_on<R: Wait>(
    rt: &R,
    alloc: Global,
    store: &ShardedStore,
    pass: &mut ShardedPass,
) -> Result<ShardedReceipt>
    requires { store_of pass.old ≡ store.now }
    ensures pass { store_of pass.new ≡ store.now }
    ensures given { IfOk result (λ r. receipt_store r ≡ store.now) }
{
    let name = Name::new("no-blob")?;
    let step = (Call::Stat, Note::NoName);
    expect(rt, alloc, store, pass, &name, Form::Waits, step)?;
    receipt_of(alloc, store, pass)
}

/// Fails unless a pass has split off another one.
fn check_rooms(pass: &ShardedPass, other: &ShardedPass) -> Result<()> {
    ensure!(pass.room() == 63 && other.room() == 1, "other rooms");
    Ok(())
}

/// A call by a second pass, which hands on a receipt, shows all that it has seen, and is joined.
fn use_second_pass<R: Wait>(
    rt: &R,
    alloc: Global,
    store: &ShardedStore,
    pass: &mut ShardedPass,
) -> Result<()>
    requires { store_of pass.old ≡ store.now }
    ensures { store_of pass.new ≡ store.now }
{
    let mut other = split(alloc, store, pass, 7)?;
    check_rooms(pass, &other)?;
    let receipt = call_and_hand_on(rt, alloc, store, &mut other)?;
    pass.accept(store, receipt);
    pass.learn(store, &mut other);
    check_rooms(pass, &other)?;
    pass.join(store, other);
    Ok(())
}

/// Fails unless there are so many books, with one entry in all.
fn check_books(alloc: Global, books: &[Book], count: usize) -> Result<()> {
    ensure!(
        books.len() == count && count_entries(alloc, books)? == 1,
        "other books"
    );
    Ok(())
}

/// A call by a second pass. The closed books have this call alone.
pub(crate) fn split_and_close<R: Wait>(
    rt: &R,
    alloc: Global,
    store: ShardedStore,
    mut pass: ShardedPass,
) -> Result<()>
    requires { store_of pass ≡ store }
{
    use_second_pass(rt, alloc, &store, &mut pass)?;
    let count = store.count_shards();
    let books = close(alloc, store, pass)?;
    check_books(alloc, &books, count)
}
