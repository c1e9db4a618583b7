//! The programs of `docs/guide.md`, one after the other. Each prints what it did.
#![tactic(auto)]

mod journal;
mod mending;
mod reading;
mod recipes;
mod threads;

use anyhow::Result;

fn main(rt: HostRuntime) -> Result<()> {
    threads::share(&rt, rt.alloc())?;
    reading::read_on(&rt, rt.alloc())?;
    recipes::show_all(&rt)?;
    mending::mend(&rt, rt.alloc())?;
    journal::trim_and_close(&rt, rt.alloc())?;
    Ok(())
}
