//! Calls of a sharded store, each compared with its expected answer. One thread makes all calls in
//! both forms over 1, 4 and 64 shards. Four threads make calls that do not wait over 4 shards.
//!
//! A call that is out of memory is repeated, so the program prints the same text whichever
//! allocation is refused. With any word it starts no thread. It ends with status 1 at the first
//! other answer.
#![tactic(auto)]

ghost use Rattle.std.specs.Prelude.{◌≡◌, ◌≤◌, IfOk};
ghost use Rattle.sharded.specs.Passes.{store_of};

mod calls;
mod journals;
mod mending;
mod names;
mod order;
mod threads;
mod whole;

use anyhow::{Context, Result, ensure};
use sharded::{Limit, ShardedPass, ShardedStore};
use std::alloc::Global;
use std::env;
use std::sync::Wait;

/// Opens a store of width 1 with `count` shards, again if out of memory.
fn open(alloc: Global, count: usize) -> Result<(ShardedStore, ShardedPass)>
    requires { (1 ≤ count) × (count ≤ 64) }
    ensures { IfOk result (λ r. store_of r.1 ≡ r.0) }
{
    let limit = Limit::new(10_000).context("a limit")?;
    match ShardedStore::open(alloc, count, 1, limit) {
        Ok(opened) => Ok(opened),
        Err(_) => Ok(ShardedStore::open(alloc, count, 1, limit)?),
    }
}

/// Makes all calls over `count` shards.
fn run<R: Wait>(rt: &R, alloc: Global, count: usize) -> Result<()>
    requires { (1 ≤ count) × (count ≤ 64) }
{
    let (store, mut pass) = open(alloc, count)?;
    ensure!(store.count_shards() == count, "another number of shards");
    names::use_all(rt, alloc, &store, &mut pass)?;
    mending::mend(rt, alloc, &store, &mut pass)?;
    journals::trim(rt, alloc, &store, &mut pass)?;
    journals::split_and_close(rt, alloc, store, pass)
}

/// Whether the program was started with a word, and so starts no thread.
fn has_word(rt: &HostRuntime) -> bool {
    match env::args(rt) {
        Ok(words) => words.skip(1).next().is_some(),
        Err(_) => true,
    }
}

fn main(rt: HostRuntime) -> Result<()> {
    let alloc = rt.alloc();
    run(&rt, alloc, 1)?;
    println!(rt; "1 shard: each call gives its answer")?;
    run(&rt, alloc, 4)?;
    println!(rt; "4 shards: each call gives its answer")?;
    run(&rt, alloc, 64)?;
    println!(rt; "64 shards: each call gives its answer")?;
    let (store, mut pass) = open(alloc, 4)?;
    order::run(&rt, &store, &mut pass)?;
    let (store, mut pass) = open(alloc, 4)?;
    whole::run(&rt, alloc, &store, &mut pass)?;
    println!(rt; "4 shards: what is done over all gives its answer")?;
    if has_word(&rt) {
        return Ok(());
    }
    let (store, pass) = open(alloc, 4)?;
    threads::run(&rt, alloc, store, pass)?;
    println!(rt; "4 threads: each call gives its answer")?;
    Ok(())
}
