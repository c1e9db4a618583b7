//! Calls of a store with a journal and of one without, with each of their allocations refused in
//! turn. A call that runs out of memory leaves the lost fragments unchanged, and gives the expected
//! answer when repeated. The program ends with status 1 at the first other answer.
#![tactic(auto)]

ghost use Rattle.std.specs.Prelude.{◌≡◌, IfOk};
ghost use Rattle.shared.specs.Passes.{Stays};

mod calls;
mod mending;
mod reading;

use anyhow::{Result, ensure};
use book::is_lawful_from;
use calls::{Case, Step, make};
use lrc_code::Code;
use mending::mend;
use reading::read;
use shared::{Pass, Store};
use std::alloc::Global;
use std::sync::Wait;

/// Opens a store of width 1, again if it runs out of memory.
fn opened(alloc: Global, case: &Case) -> Result<(Store, Pass)>
    ensures { IfOk result (λ r. (r.1.store ≡ r.0) × (r.1.room ≡ 64)) }
{
    match Store::open_with(alloc, 1, case.limit()) {
        Ok(opened) => Ok(opened),
        Err(_) => Ok(Store::open_with(alloc, 1, case.limit())?),
    }
}

/// A put, the four losses and a read.
fn put_and_lose<R: Wait>(
    rt: &R,
    alloc: Global,
    store: &Store,
    pass: &mut Pass,
    case: &Case,
) -> Result<()>
    requires { pass.old.store ≡ store.now }
    ensures { Stays pass.old pass.new }
{
    let [first, second, third, fourth] = case.lost;
    make(rt, alloc, store, pass, case, Step::Put, &[])?;
    make(rt, alloc, store, pass, case, Step::Lose(first), &[])?;
    make(rt, alloc, store, pass, case, Step::Lose(second), &[first])?;
    let two = [first, second];
    make(rt, alloc, store, pass, case, Step::Lose(third), &two)?;
    let three = [first, second, third];
    make(rt, alloc, store, pass, case, Step::Lose(fourth), &three)?;
    read(rt, alloc, store, pass, case)
}

/// Two repairs, a trim, and a mend of the two others.
fn repair_and_mend<R: Wait>(
    rt: &R,
    alloc: Global,
    store: &Store,
    pass: &mut Pass,
    case: &Case,
) -> Result<()>
    requires { pass.old.store ≡ store.now }
    ensures { Stays pass.old pass.new }
{
    let four = case.lost;
    let [first, second, third, fourth] = case.lost;
    make(rt, alloc, store, pass, case, Step::Repair(first), &four)?;
    let three = [second, third, fourth];
    make(rt, alloc, store, pass, case, Step::Repair(third), &three)?;
    let two = [second, fourth];
    make(
        rt,
        alloc,
        store,
        pass,
        case,
        Step::Trim(case.trimmed()),
        &two,
    )?;
    mend(rt, alloc, store, pass, &two)?;
    make(rt, alloc, store, pass, case, Step::Stat, &[])
}

/// All calls on one blob. The closed book has counted them, and its journal has their entries and
/// no others.
fn run<R: Wait>(rt: &R, alloc: Global, case: &Case) -> Result<()> {
    let (store, mut pass) = opened(alloc, case)?;
    put_and_lose(rt, alloc, &store, &mut pass, case)?;
    repair_and_mend(rt, alloc, &store, &mut pass, case)?;
    let book = store.close(pass);
    let (base, entries) = (book.base(), book.entries());
    ensure!(book.calls() == 11, "another number of calls");
    let kept = if case.has_journal { 5 } else { 0 };
    ensure!(
        base.trimmed == case.trimmed() && entries.len() == kept,
        "another journal"
    );
    if !case.has_journal {
        return Ok(());
    }
    let lawful = match is_lawful_from(alloc, base, entries, book.width()) {
        Err(_) => is_lawful_from(alloc, base, entries, book.width())?,
        Ok(lawful) => lawful,
    };
    ensure!(lawful, "no lawful journal");
    Ok(())
}

fn main(rt: HostRuntime) -> Result<()> {
    for has_journal in [true, false] {
        let wide = Case {
            has_journal,
            code: Code::Wide,
            bytes: b"ABCDEFGHIJKL",
            lost: [0, 1, 6, 7],
        };
        let small = Case {
            has_journal,
            code: Code::Small,
            bytes: b"ABCDEF",
            lost: [0, 1, 3, 4],
        };
        run(&rt, rt.alloc(), &wide)?;
        run(&rt, rt.alloc(), &small)?;
    }
    println!(rt; "each call gives its answer")?;
    Ok(())
}
