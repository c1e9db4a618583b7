//! Steps that are no calls: trims of journals, and plans of what is lost.
ghost use Rattle.std.specs.Prelude.{◌≡◌, ◌≢◌, ◌⊎◌, ◌<◌, length, None, IfOk, IfErr, OnOk, OnErr};
ghost use Rattle.shared.specs.Deeds.{Takes, trim_deed};
ghost use Rattle.sharded.specs.Passes.{store_of, AreLone};
ghost use Rattle.sharded.specs.Listings.{IsListedAt, IsLonger};
ghost use Rattle.sharded.specs.Steps.{IsStepAt, IsPlanAt};
ghost use Rattle.sharded.specs.StepsTo.{AreSteps, AreFirstSteps, HasLooked, lost_in_all};
ghost use Rattle.sharded.specs.StepsTo.{IsTrimmed, AreTrimmedInPart, AreTrimmedToBusy};
ghost use Rattle.shared.specs.Passes.{FindsBusy};

use crate::{ShardedPass, ShardedStore};
use book::{Fault, Plan};
use std::alloc::Global;
use std::sync::Wait;

impl ShardedStore {
    /// Discards all entries of each shard's journal but the last `keep`, shard after shard, as
    /// `Store::trim` does.
    ///
    /// `NoMemory` if out of memory at some shard. Then the journals of the shards before it were
    /// trimmed.
    pub fn trim<R: Wait>(
        &self,
        rt: &R,
        alloc: Global,
        pass: &mut ShardedPass,
        keep: u64,
    ) -> Result<(), Fault>
        requires { store_of pass.old ≡ self.now }
        ensures ok { OnOk result (AreSteps (IsTrimmed keep) pass.old.shards pass.new.shards) }
        ensures err { OnErr result (AreTrimmedInPart keep pass.old.shards pass.new.shards) }
        ensures longer { IsLonger pass.old pass.new }
        ensures same { store_of pass.new ≡ self.now }
        ensures faults { IfErr result (λ e. e ≡ Fault.NoMemory) }
    {
        for shard in 0..self.count_shards() {
            match self.trim_shard(rt, alloc, pass, shard, keep) {
                Ok(_) => {}
                Err(fault) => return Err(fault),
            }
        }
        Ok(())
    }

    /// As `trim`, but `Busy` at the first shard whose critical section another caller is in. The
    /// journals of the shards before it were then trimmed, and those behind it are unchanged.
    pub fn try_trim(&self, alloc: Global, pass: &mut ShardedPass, keep: u64) -> Result<(), Fault>
        requires { store_of pass.old ≡ self.now }
        ensures ok { OnOk result (AreSteps (IsTrimmed keep) pass.old.shards pass.new.shards) }
        ensures err { OnErr result (AreTrimmedInPart keep pass.old.shards pass.new.shards) }
        ensures longer { IsLonger pass.old pass.new }
        ensures same { store_of pass.new ≡ self.now }
        ensures faults { IfErr result (λ e. (e ≡ Fault.Busy) ⊎ (e ≡ Fault.NoMemory)) }
        ensures busy { result ≡ Err Fault.Busy
            → AreTrimmedToBusy keep pass.old.shards pass.new.shards }
        ensures lone { AreLone pass.old.shards → result ≢ Err Fault.Busy }
    {
        for shard in 0..self.count_shards() {
            match self.try_trim_shard(alloc, pass, shard, keep) {
                Ok(_) => {}
                Err(fault) => return Err(fault),
            }
        }
        Ok(())
    }

    /// Discards all entries of a shard's journal but the last `keep`, and answers how many these
    /// were, as `Store::trim` does.
    ///
    /// `NoMemory` if out of memory. Then no entry was discarded.
    pub fn trim_shard<R: Wait>(
        &self,
        rt: &R,
        alloc: Global,
        pass: &mut ShardedPass,
        shard: usize,
        keep: u64,
    ) -> Result<u64, Fault>
        requires store { store_of pass.old ≡ self.now }
        requires shard { shard < length self.now.shards }
        ensures takes { IsStepAt shard
            (λ v w. Takes v (trim_deed keep result) w) pass.old.shards pass.new.shards }
        ensures listed { IsListedAt shard (trim_deed keep result) pass.old pass.new }
        ensures same { store_of pass.new ≡ self.now }
        ensures faults { IfErr result (λ e. e ≡ Fault.NoMemory) }
    {
        let at = &self.shards[shard];
        let seat = &mut pass.seats[shard];
        at.trim(rt, alloc, &self.ledger, seat, &mut pass.follower, keep)
    }

    /// As `trim_shard`, but `Busy` if another caller is in the critical section of that shard. Then
    /// no entry was discarded.
    pub fn try_trim_shard(
        &self,
        alloc: Global,
        pass: &mut ShardedPass,
        shard: usize,
        keep: u64,
    ) -> Result<u64, Fault>
        requires store { store_of pass.old ≡ self.now }
        requires shard { shard < length self.now.shards }
        ensures takes { IsStepAt shard
            (λ v w. Takes v (trim_deed keep result) w) pass.old.shards pass.new.shards }
        ensures listed { IsListedAt shard (trim_deed keep result) pass.old pass.new }
        ensures same { store_of pass.new ≡ self.now }
        ensures faults { IfErr result (λ e. (e ≡ Fault.Busy) ⊎ (e ≡ Fault.NoMemory)) }
        ensures busy { result ≡ Err Fault.Busy
            → IsStepAt shard FindsBusy pass.old.shards pass.new.shards }
        ensures lone { AreLone pass.old.shards → result ≢ Err Fault.Busy }
    {
        let at = &self.shards[shard];
        let seat = &mut pass.seats[shard];
        at.try_trim(alloc, &self.ledger, seat, &mut pass.follower, keep)
    }

    /// The lost fragments of all blobs of a shard, as `Store::plan` lists them.
    ///
    /// `NoMemory` if out of memory.
    pub fn plan_shard<R: Wait>(
        &self,
        rt: &R,
        alloc: Global,
        pass: &mut ShardedPass,
        shard: usize,
    ) -> Result<Plan, Fault>
        requires store { store_of pass.old ≡ self.now }
        requires shard { shard < length self.now.shards }
        ensures plans { IsPlanAt pass.old.shards shard result pass.new.shards }
        ensures listed { IsListedAt shard None pass.old pass.new }
        ensures same { store_of pass.new ≡ self.now }
        ensures faults { IfErr result (λ e. e ≡ Fault.NoMemory) }
    {
        let at = &self.shards[shard];
        let seat = &mut pass.seats[shard];
        at.plan(rt, alloc, &self.ledger, seat, &mut pass.follower)
    }

    /// The lost fragments of all blobs: of one shard after the other, and of each as `Store::plan`
    /// lists them. It is no call of a history, of which the pass may have seen more.
    ///
    /// `NoMemory` if out of memory.
    pub fn plan<R: Wait>(
        &self,
        rt: &R,
        alloc: Global,
        pass: &mut ShardedPass,
    ) -> Result<Plan, Fault>
        requires { store_of pass.old ≡ self.now }
        ensures ok { OnOk result (AreSteps HasLooked pass.old.shards pass.new.shards) }
        ensures err { OnErr result (AreFirstSteps HasLooked pass.old.shards pass.new.shards) }
        ensures longer { IsLonger pass.old pass.new }
        ensures plan { IfOk result (λ p. p.items.items ≡ lost_in_all pass.new.shards) }
        ensures same { store_of pass.new ≡ self.now }
        ensures faults { IfErr result (λ e. e ≡ Fault.NoMemory) }
    {
        let mut items = Vec::new(alloc);
        for shard in 0..self.count_shards() {
            let plan = match self.plan_shard(rt, alloc, pass, shard) {
                Ok(plan) => plan,
                Err(fault) => return Err(fault),
            };
            if items.extend(plan.items).is_err() {
                return Err(Fault::NoMemory);
            }
        }
        Ok(Plan { items })
    }
}
