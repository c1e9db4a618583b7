//! The passes of a run's workers.
ghost use Rattle.std.specs.Prelude.{◌≡◌, ◌≤◌, ◌++◌, length, IfOk};
ghost use mathlib.Core.List.{IsPrefix};
ghost use Rattle.rounds.specs.Pools.{IsPool, IsFresh, IsAllOwn, HaveSeen, did_by, passes_back};
ghost use Rattle.rounds.specs.Pools.{outcomes_of};

use crate::work::Ran;
use shared::{Pass, Store};
use std::alloc::{AllocError, Global};

/// A pass for each worker, numbered from 1, and the store's first pass, from which they are split.
#[derive(Drop)]
pub struct Pool {
    /// The store's first pass, without what was split off.
    pub first: Pass,
    /// The workers' passes, that of worker 1 first.
    pub passes: Vec<Pass>,
}

impl Pool {
    /// Splits a pass for each of this many workers off the store's first one. Each has the worker's
    /// number as its label. The only error is that memory runs out.
    pub fn new(
        alloc: Global,
        store: &Store,
        mut first: Pass,
        workers: u32,
    ) -> Result<Pool, AllocError>
        requires store { first.store ≡ store.now }
        requires room { first.room ≡ 64 }
        requires some { 1 ≤ workers }
        requires few { workers ≤ 64 }
        requires own { IsAllOwn first }
        ensures fresh { IfOk result (IsFresh store.now) }
        ensures unchanged { IfOk result (λ pool. (pool.first.acts ≡ first.acts)
            × (pool.first.did ≡ first.did)) }
        ensures many { IfOk result (λ pool. length pool.passes.items ≡ workers) }
    {
        let mut passes = Vec::with_capacity(alloc, workers as usize)?;
        for worker in 0..workers {
            match first.split(store, worker + 1) {
                Ok(pass) => passes.push_reserved(pass),
                Err(_) => return Err(AllocError),
            }
        }
        Ok(Pool { first, passes })
    }

    /// Joins all passes into one, which has seen and done what they have.
    pub fn join(self, store: &Store) -> Pass
        requires { IsPool store.now self }
        ensures store { result.store ≡ store.now }
        ensures room { result.room ≡ 64 }
        ensures did { result.did ≡ self.first.did ++ did_by self.passes.items }
        ensures seen { HaveSeen result.acts self.passes.items
            × IsPrefix self.first.acts result.acts }
        ensures own { IsAllOwn result }
    {
        let Pool { mut first, passes } = self;
        for pass in passes {
            first.join(store, pass);
        }
        first
    }

    /// Joins all passes, and splits as many new ones off. Each of these has seen all calls. The
    /// only error is that memory runs out.
    pub fn renew(self, alloc: Global, store: &Store) -> Result<Pool, AllocError>
        requires { IsPool store.now self }
        ensures fresh { IfOk result (IsFresh store.now) }
        ensures did { IfOk result (λ r. r.first.did ≡ self.first.did ++ did_by self.passes.items) }
        ensures seen { IfOk result (λ r. HaveSeen r.first.acts self.passes.items
            × IsPrefix self.first.acts r.first.acts) }
        ensures many { IfOk result (λ r. length r.passes.items ≡ length self.passes.items) }
    {
        let workers = self.passes.len() as u32;
        let first = self.join(store);
        Pool::new(alloc, store, first, workers)
    }
}

/// The passes that came back from a round, and the outcomes of the workers' tasks. `AllocError` if
/// memory runs out.
pub fn unzip<O: Drop>(alloc: Global, rans: Vec<Ran<O>>) -> Result<(Vec<Pass>, Vec<O>), AllocError>
    ensures passes { IfOk result (λ r. r.0.items ≡ passes_back rans.items) }
    ensures outcomes { IfOk result (λ r. r.1.items ≡ outcomes_of rans.items) }
{
    let mut passes = Vec::with_capacity(alloc, rans.len())?;
    let mut outcomes = Vec::with_capacity(alloc, rans.len())?;
    for ran in rans {
        let Ran { pass, outcome } = ran;
        passes.push_reserved(pass);
        outcomes.push_reserved(outcome);
    }
    Ok((passes, outcomes))
}
