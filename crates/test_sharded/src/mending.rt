//! A mend over all shards.
ghost use Rattle.std.specs.Prelude.{◌≡◌, IfOk};
ghost use Rattle.sharded.specs.Passes.{store_of};

use crate::names::NAMES;
use anyhow::{Result, bail, ensure};
use sharded::{
    Done, Drawer, Gather, Plan, Report, ShardedPass, ShardedStore, Tickets, gather, scrub, work,
};
use std::alloc::Global;
use std::sync::Wait;

/// A plan with its tickets and its only drawer, made again if out of memory.
fn plan<R: Wait>(
    rt: &R,
    alloc: Global,
    store: &ShardedStore,
    pass: &mut ShardedPass,
) -> Result<(Plan, Tickets, Drawer)>
    requires { store_of pass.old ≡ store.now }
    ensures pass { store_of pass.new ≡ store.now }
    ensures drawer { IfOk result (λ r. r.2.tickets ≡ r.1) }
{
    match scrub(rt, alloc, store, pass) {
        Ok(planned) => Ok(planned),
        Err(_) => Ok(scrub(rt, alloc, store, pass)?),
    }
}

/// Gathers the results. They may be fewer than the plan's if an earlier call ran out of memory to
/// mark the tickets.
fn count_repaired(alloc: Global, plan: &Plan, done: Vec<Done>) -> Result<u64> {
    let count = done.len() as u64;
    match gather(alloc, plan, done) {
        Ok(report) => {
            ensure!(
                report
                    == Report {
                        repaired: count,
                        ..Report::default()
                    },
                "another report"
            );
            Ok(count)
        }
        Err(Gather::NoMemory | Gather::Missing) => Ok(count),
        Err(_) => bail!("other results"),
    }
}

/// Scrubs once and works as one worker. Returns the number of repaired fragments.
fn mend_once<R: Wait>(
    rt: &R,
    alloc: Global,
    store: &ShardedStore,
    pass: &mut ShardedPass,
) -> Result<u64>
    requires { store_of pass.old ≡ store.now }
    ensures { store_of pass.new ≡ store.now }
{
    let (plan, tickets, mut drawer) = plan(rt, alloc, store, pass)?;
    match work(rt, alloc, store, pass, &plan, &tickets, &mut drawer) {
        Ok(done) => count_repaired(alloc, &plan, done),
        Err(stopped) => count_repaired(alloc, &plan, stopped.done),
    }
}

/// Mends all lost fragments. A second worker repairs what a first one, out of memory, did not.
pub(crate) fn mend<R: Wait>(
    rt: &R,
    alloc: Global,
    store: &ShardedStore,
    pass: &mut ShardedPass,
) -> Result<()>
    requires { store_of pass.old ≡ store.now }
    ensures { store_of pass.new ≡ store.now }
{
    let first = mend_once(rt, alloc, store, pass)?;
    let second = mend_once(rt, alloc, store, pass)?;
    ensure!(
        first.saturating_add(second) == NAMES.len() as u64,
        "another number of repairs"
    );
    let (rest, ..) = plan(rt, alloc, store, pass)?;
    ensure!(rest.items.is_empty(), "a fragment is still lost");
    Ok(())
}
