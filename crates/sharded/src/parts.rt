//! Parts of a shard's plan, and of the trim of its journal.
ghost use Rattle.std.specs.Prelude.{◌≡◌, ◌≢◌, ◌⊎◌, ℕ, ◌<◌, ◌≤◌, length, None, IfOk, IfErr};
ghost use Rattle.std.specs.Option.{option_map};
ghost use Rattle.shared.specs.Deeds.{Takes, trim_deed};
ghost use Rattle.shared.specs.Passes.{FindsBusy};
ghost use Rattle.sharded.specs.Listings.{IsListedAt};
ghost use Rattle.sharded.specs.Passes.{store_of, AreLone};
ghost use Rattle.sharded.specs.Steps.{IsStepAt, IsPlanPartAt};

use crate::{ShardedPass, ShardedStore};
use book::{Fault, Item, Plan};
use std::alloc::Global;
use std::sync::Wait;

impl ShardedStore {
    /// A part of a shard's plan: the first `most` of its items that come behind `after`, as
    /// `Store::plan_part` lists them.
    ///
    /// `NoMemory` if there is no memory for the list.
    pub fn plan_shard_part<R: Wait>(
        &self,
        rt: &R,
        alloc: Global,
        pass: &mut ShardedPass,
        shard: usize,
        after: Option<&Item>,
        most: usize,
    ) -> Result<Plan, Fault>
        requires store { store_of pass.old ≡ self.now }
        requires shard { shard < length self.now.shards }
        ensures plans { IsPlanPartAt (option_map (λ i. i.now) after.entry) most pass.old.shards
            shard result pass.new.shards }
        ensures listed { IsListedAt shard None pass.old pass.new }
        ensures same { store_of pass.new ≡ self.now }
        ensures faults { IfErr result (λ e. e ≡ Fault.NoMemory) }
    {
        let at = &self.shards[shard];
        let seat = &mut pass.seats[shard];
        at.plan_part(
            rt,
            alloc,
            &self.ledger,
            seat,
            &mut pass.follower,
            after,
            most,
        )
    }

    /// As `plan_shard_part`, but `Busy` if another caller is in the critical section of that shard.
    pub fn try_plan_shard_part(
        &self,
        alloc: Global,
        pass: &mut ShardedPass,
        shard: usize,
        after: Option<&Item>,
        most: usize,
    ) -> Result<Plan, Fault>
        requires store { store_of pass.old ≡ self.now }
        requires shard { shard < length self.now.shards }
        ensures plans { IsPlanPartAt (option_map (λ i. i.now) after.entry) most pass.old.shards
            shard result pass.new.shards }
        ensures listed { IsListedAt shard None pass.old pass.new }
        ensures same { store_of pass.new ≡ self.now }
        ensures faults { IfErr result (λ e. (e ≡ Fault.Busy) ⊎ (e ≡ Fault.NoMemory)) }
        ensures busy { result ≡ Err Fault.Busy
            → IsStepAt shard FindsBusy pass.old.shards pass.new.shards }
        ensures lone { AreLone pass.old.shards → result ≢ Err Fault.Busy }
    {
        let at = &self.shards[shard];
        let seat = &mut pass.seats[shard];
        at.try_plan_part(alloc, &self.ledger, seat, &mut pass.follower, after, most)
    }

    /// As `trim_shard`, but it discards at most `most` entries: the oldest of those that
    /// `trim_shard` would discard, as `Store::trim_part` does. If there are fewer it is a trim.
    ///
    /// `NoMemory` if out of memory. Then no entry was discarded.
    pub fn trim_shard_part<R: Wait>(
        &self,
        rt: &R,
        alloc: Global,
        pass: &mut ShardedPass,
        shard: usize,
        keep: u64,
        most: u64,
    ) -> Result<u64, Fault>
        requires store { store_of pass.old ≡ self.now }
        requires shard { shard < length self.now.shards }
        ensures part { IsStepAt shard
            (λ v w. (k : ℕ) × (keep ≤ k) × Takes v (trim_deed k result) w)
            pass.old.shards pass.new.shards }
        ensures few { IfOk result (λ n. n ≤ most) }
        ensures whole { IfOk result (λ n. n < most → IsStepAt shard
            (λ v w. Takes v (trim_deed keep result) w) pass.old.shards pass.new.shards) }
        ensures listed { IsListedAt shard (trim_deed keep result) pass.old pass.new }
        ensures same { store_of pass.new ≡ self.now }
        ensures faults { IfErr result (λ e. e ≡ Fault.NoMemory) }
    {
        let at = &self.shards[shard];
        let seat = &mut pass.seats[shard];
        at.trim_part(
            rt,
            alloc,
            &self.ledger,
            seat,
            &mut pass.follower,
            keep,
            most,
        )
    }

    /// As `trim_shard_part`, but `Busy` if another caller is in the critical section of that shard.
    /// Then no entry was discarded.
    pub fn try_trim_shard_part(
        &self,
        alloc: Global,
        pass: &mut ShardedPass,
        shard: usize,
        keep: u64,
        most: u64,
    ) -> Result<u64, Fault>
        requires store { store_of pass.old ≡ self.now }
        requires shard { shard < length self.now.shards }
        ensures part { IsStepAt shard
            (λ v w. (k : ℕ) × (keep ≤ k) × Takes v (trim_deed k result) w)
            pass.old.shards pass.new.shards }
        ensures few { IfOk result (λ n. n ≤ most) }
        ensures whole { IfOk result (λ n. n < most → IsStepAt shard
            (λ v w. Takes v (trim_deed keep result) w) pass.old.shards pass.new.shards) }
        ensures listed { IsListedAt shard (trim_deed keep result) pass.old pass.new }
        ensures same { store_of pass.new ≡ self.now }
        ensures faults { IfErr result (λ e. (e ≡ Fault.Busy) ⊎ (e ≡ Fault.NoMemory)) }
        ensures busy { result ≡ Err Fault.Busy
            → IsStepAt shard FindsBusy pass.old.shards pass.new.shards }
        ensures lone { AreLone pass.old.shards → result ≢ Err Fault.Busy }
    {
        let at = &self.shards[shard];
        let seat = &mut pass.seats[shard];
        at.try_trim_part(alloc, &self.ledger, seat, &mut pass.follower, keep, most)
    }
}
