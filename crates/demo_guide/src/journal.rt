//! The journal's limit, and what to do when it is reached.
ghost use Rattle.std.specs.Prelude.{◌≡◌};
ghost use Rattle.shared.specs.Passes.{Stays};

use anyhow::{Context, Result, ensure};
use named_calls::WaitingCalls;
use shared::{Bytes, Fault, Limit, Name, Pass, Store, is_lawful_from};
use std::alloc::Global;
use std::sync::Wait;

/// Makes two calls and tries a third. When the journal is full, it discards all entries but the
/// last.
fn fill_and_trim<R: Print + Wait>(
    rt: &R,
    alloc: Global,
    store: &Store,
    pass: &mut Pass,
    name: &Name,
) -> Result<()>
    requires { pass.old.store ≡ store.now }
    ensures { Stays pass.old pass.new }
{
    let blob = Bytes::from_static(b"ABC");
    store.put(rt, alloc, pass, name.duplicate(), blob)?;
    store.stat(rt, pass, name.duplicate())?;
    if let Err(Fault::JournalFull) = store.stat(rt, pass, name.duplicate()) {
        let given_up = store.trim(rt, alloc, pass, 1)?;
        println!(rt; "full: {given_up} given up")?;
    }
    Ok(())
}

/// Closes a store, and checks the journal against its base.
fn close<R: Print>(rt: &R, alloc: Global, store: Store, pass: Pass) -> Result<()>
    requires store { pass.store ≡ store }
    requires room { pass.room ≡ 64 }
{
    let book = store.close(pass);
    let (base, entries) = (book.base(), book.entries());
    println!(rt; "{} given up, {} kept", base.trimmed, entries.len())?;
    ensure!(
        is_lawful_from(alloc, base, entries, book.width())?,
        "what is kept is lawful"
    );
    Ok(())
}

/// Fills a journal of two entries, discards the older one, makes another call, and closes the
/// store.
pub(crate) fn trim_and_close<R: Print + Wait>(rt: &R, alloc: Global) -> Result<()> {
    let name = Name::new("a")?;
    let limit = Limit::new(2).context("a limit")?;
    let (store, mut pass) = Store::open(alloc, 1, limit)?;
    fill_and_trim(rt, alloc, &store, &mut pass, &name)?;
    store.stat(rt, &mut pass, name)?;
    close(rt, alloc, store, pass)
}
