//! Repair of one fragment, and a mend of the others.

// Each example stands alone, so that a reader can copy it: its set-up repeats that of others.

ghost use Rattle.std.specs.Prelude.{◌≡◌};
ghost use Rattle.shared.specs.Passes.{Stays};

use anyhow::{Context, Result, bail};
use mender::{Gather, Report, gather, scrub, work};
use named_calls::WaitingCalls;
use shared::{Answer, Bytes, Limit, Name, Pass, Store};
use std::alloc::Global;
use std::sync::Wait;

/// Stores a blob, and loses three of its fragments.
fn put_and_lose<R: Wait>(
    rt: &R,
    alloc: Global,
    store: &Store,
    pass: &mut Pass,
    name: &Name,
) -> Result<()>
    requires { pass.old.store ≡ store.now }
    ensures { Stays pass.old pass.new }
{
    let blob = Bytes::from_static(b"ABCDEFGHIJKL");
    store.put(rt, alloc, pass, name.duplicate(), blob)?;
    store.lose(rt, alloc, pass, name.duplicate(), 0, 0)?;
    store.lose(rt, alloc, pass, name.duplicate(), 0, 6)?;
    store.lose(rt, alloc, pass, name.duplicate(), 0, 12)?;
    Ok(())
}

/// Repairs a fragment.
fn repair_one<R: Print + Wait>(
    rt: &R,
    alloc: Global,
    store: &Store,
    pass: &mut Pass,
    name: Name,
) -> Result<()>
    requires { pass.old.store ≡ store.now }
    ensures { Stays pass.old pass.new }
{
    match store.repair(rt, alloc, pass, name, 0, 12)? {
        Answer::Repaired(version) => println!(rt; "version {version} has fragment 12 again")?,
        _ => bail!("another answer"),
    }
    Ok(())
}

/// Repairs all lost fragments.
fn mend_all<R: Print + Wait>(rt: &R, alloc: Global, store: &Store, pass: &mut Pass) -> Result<()>
    requires { pass.old.store ≡ store.now }
{
    let (plan, tickets, mut drawer) = scrub(rt, alloc, store, pass)?;
    let Ok(done) = work(rt, alloc, store, pass, &plan, &tickets, &mut drawer) else {
        bail!("want of memory, or the journal is full: what was mended stays mended");
    };
    match gather(alloc, &plan, done) {
        Ok(Report { repaired, .. }) => println!(rt; "{repaired} mended")?,
        Err(Gather::NoMemory) => bail!("want of memory"),
        Err(_) => bail!("the results are not one for each item of the plan"),
    }
    Ok(())
}

/// Loses three fragments, repairs one, and mends the others.
pub(crate) fn mend<R: Print + Wait>(rt: &R, alloc: Global) -> Result<()> {
    let name = Name::new("a")?;
    let limit = Limit::new(1_000).context("a limit")?;
    let (store, mut pass) = Store::open(alloc, 1, limit)?;
    put_and_lose(rt, alloc, &store, &mut pass, &name)?;
    repair_one(rt, alloc, &store, &mut pass, name)?;
    mend_all(rt, alloc, &store, &mut pass)
}
