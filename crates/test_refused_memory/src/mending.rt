//! A mend, with each step repeated if it runs out of memory.
ghost use Rattle.std.specs.Prelude.{◌≡◌, IfOk};
ghost use Rattle.shared.specs.Passes.{Stays};

use anyhow::{Result, bail, ensure};
use book::{Answer, Fault, Item, Plan};
use mender::{Done, Drawer, Gather, Report, Tickets, WorkFault, gather, scrub, work};
use shared::{Pass, Store};
use std::alloc::{AllocError, Global};
use std::sync::Wait;

/// A plan with its tickets and the one drawer of them.
fn planned<R: Wait>(
    rt: &R,
    alloc: Global,
    store: &Store,
    pass: &mut Pass,
) -> Result<(Plan, Tickets, Drawer)>
    requires { pass.old.store ≡ store.now }
    ensures pass { Stays pass.old pass.new }
    ensures drawer { IfOk result (λ r. r.2.tickets ≡ r.1) }
{
    match scrub(rt, alloc, store, pass) {
        Ok(planned) => Ok(planned),
        Err(_) => Ok(scrub(rt, alloc, store, pass)?),
    }
}

/// A copy of the results.
fn copied(alloc: Global, done: &[Done]) -> std::result::Result<Vec<Done>, AllocError> {
    let mut copy = Vec::new(alloc);
    for one in done {
        let item = Item {
            name: one.item.name.duplicate(),
            version: one.item.version,
            stripe: one.item.stripe,
            f: one.item.f,
        };
        let answer = Answer::Repaired(one.item.version);
        copy.push(Done {
            ticket: one.ticket,
            item,
            answer,
        })?;
    }
    Ok(copy)
}

/// Checks that the results, which all repaired a fragment, are those of the whole plan.
fn ensure_gathered(alloc: Global, plan: &Plan, done: Vec<Done>) -> Result<()> {
    let copy = match copied(alloc, &done) {
        Err(_) => copied(alloc, &done)?,
        Ok(copy) => copy,
    };
    let report = match gather(alloc, plan, done) {
        Err(Gather::NoMemory) => gather(alloc, plan, copy),
        report => report,
    };
    let all_repaired = Report {
        repaired: plan.items.len() as u64,
        not_lost: 0,
        gone: 0,
        unrecoverable: 0,
    };
    ensure!(report == Ok(all_repaired), "other results");
    Ok(())
}

/// Continues after a worker ran out of memory. Its results and a new plan have each of these
/// fragments once, and are not all of the first plan.
fn mend_rest<R: Wait>(
    rt: &R,
    alloc: Global,
    store: &Store,
    pass: &mut Pass,
    plan: &Plan,
    stopped: WorkFault,
) -> Result<()>
    requires { pass.old.store ≡ store.now }
    ensures { Stays pass.old pass.new }
{
    let WorkFault { fault, done } = stopped;
    let (rest, tickets, mut drawer) = planned(rt, alloc, store, pass)?;
    let mended = done.iter().map(|one| one.item.f);
    let named = mended.chain(rest.items.iter().map(|item| item.f));
    ensure!(
        fault == Fault::NoMemory && named.eq(plan.items.iter().map(|item| item.f)),
        "other fragments are left"
    );
    ensure!(
        gather(alloc, plan, done) == Err(Gather::Missing),
        "nothing is missing"
    );
    match work(rt, alloc, store, pass, &rest, &tickets, &mut drawer) {
        Ok(done) => ensure_gathered(alloc, &rest, done),
        Err(_) => bail!("the rest is not mended"),
    }
}

/// Mends the lost fragments, which are exactly these.
pub(crate) fn mend<R: Wait>(
    rt: &R,
    alloc: Global,
    store: &Store,
    pass: &mut Pass,
    lost: &[u8],
) -> Result<()>
    requires { pass.old.store ≡ store.now }
    ensures { Stays pass.old pass.new }
{
    let (plan, tickets, mut drawer) = planned(rt, alloc, store, pass)?;
    let planned = plan.items.iter().map(|item| item.f);
    ensure!(planned.eq(lost.iter().copied()), "another plan");
    match work(rt, alloc, store, pass, &plan, &tickets, &mut drawer) {
        Ok(done) => ensure_gathered(alloc, &plan, done),
        Err(stopped) => mend_rest(rt, alloc, store, pass, &plan, stopped),
    }
}
