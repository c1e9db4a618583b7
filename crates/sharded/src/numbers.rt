//! The numbers of all shards.
ghost use Rattle.std.specs.Prelude.{◌≡◌, ◌≢◌, ◌<◌, [], length, None, IfOk, IfErr, OnOk, OnErr};
ghost use Rattle.shared.specs.Deeds.{Takes};
ghost use Rattle.shared.specs.Passes.{FindsBusy};
ghost use Rattle.sharded.specs.Listings.{IsListedAt, IsLonger};
ghost use Rattle.sharded.specs.Totals.{AreNumbersAt, AreSumsOfAll, capped_sum};
ghost use Rattle.sharded.specs.Passes.{store_of, AreLone};
ghost use Rattle.sharded.specs.Steps.{IsStepAt};
ghost use Rattle.sharded.specs.StepsTo.{AreSteps, HasLooked, HaveLookedToBusy};

use crate::{ShardedPass, ShardedStore};
use book::{Fault, Numbers};
use std::sync::Wait;

impl ShardedStore {
    /// The totals over all shards: of the blobs, the calls and the entries in the journals. It
    /// visits one shard after the other, so others may call between two visits. What it counts of a
    /// shard is there at the time of its visit. A total above `u64::MAX` is given as `u64::MAX`.
    ///
    /// It is no call of a history, of which the pass may have seen more. It does not allocate.
    pub fn numbers<R: Wait>(&self, rt: &R, pass: &mut ShardedPass) -> Numbers
        requires { store_of pass.old ≡ self.now }
        ensures looked { AreSteps HasLooked pass.old.shards pass.new.shards }
        ensures totals { AreSumsOfAll pass.new.shards result }
        ensures longer { IsLonger pass.old pass.new }
        ensures same { store_of pass.new ≡ self.now }
    {
        let mut total = no_numbers();
        for shard in 0..self.count_shards() {
            let numbers = self.shard_numbers(rt, pass, shard);
            total = add(total, numbers);
        }
        total
    }

    /// As `numbers`, but `Busy` at the first shard whose critical section another caller is in. No
    /// shard behind it was visited then.
    pub fn try_numbers(&self, pass: &mut ShardedPass) -> Result<Numbers, Fault>
        requires { store_of pass.old ≡ self.now }
        ensures ok { OnOk result (AreSteps HasLooked pass.old.shards pass.new.shards) }
        ensures totals { IfOk result (AreSumsOfAll pass.new.shards) }
        ensures busy { OnErr result (HaveLookedToBusy pass.old.shards pass.new.shards) }
        ensures longer { IsLonger pass.old pass.new }
        ensures same { store_of pass.new ≡ self.now }
        ensures faults { IfErr result (λ e. e ≡ Fault.Busy) }
        ensures lone { AreLone pass.old.shards → result ≢ Err Fault.Busy }
    {
        let mut total = no_numbers();
        for shard in 0..self.count_shards() {
            let numbers = match self.try_shard_numbers(pass, shard) {
                Ok(numbers) => numbers,
                Err(fault) => return Err(fault),
            };
            total = add(total, numbers);
        }
        Ok(total)
    }

    /// The numbers of a shard, as `Store::numbers` gives them.
    fn shard_numbers<R: Wait>(&self, rt: &R, pass: &mut ShardedPass, shard: usize) -> Numbers
        requires store { store_of pass.old ≡ self.now }
        requires shard { shard < length self.now.shards }
        ensures looked { IsStepAt shard
            (λ v w. Takes v None w × AreNumbersAt w result) pass.old.shards pass.new.shards }
        ensures listed { IsListedAt shard None pass.old pass.new }
        ensures same { store_of pass.new ≡ self.now }
    {
        let at = &self.shards[shard];
        let seat = &mut pass.seats[shard];
        at.numbers(rt, &self.ledger, seat, &mut pass.follower)
    }

    /// As `shard_numbers`, but `Busy` if another caller is in the critical section of that shard.
    fn try_shard_numbers(&self, pass: &mut ShardedPass, shard: usize) -> Result<Numbers, Fault>
        requires store { store_of pass.old ≡ self.now }
        requires shard { shard < length self.now.shards }
        ensures looked { IsStepAt shard
            (λ v w. Takes v None w × IfOk result (AreNumbersAt w)) pass.old.shards pass.new.shards }
        ensures listed { IsListedAt shard None pass.old pass.new }
        ensures same { store_of pass.new ≡ self.now }
        ensures faults { IfErr result (λ e. e ≡ Fault.Busy) }
        ensures busy { result ≡ Err Fault.Busy
            → IsStepAt shard FindsBusy pass.old.shards pass.new.shards }
        ensures lone { AreLone pass.old.shards → result ≢ Err Fault.Busy }
    {
        let at = &self.shards[shard];
        let seat = &mut pass.seats[shard];
        at.try_numbers(&self.ledger, seat, &mut pass.follower)
    }
}

/// The totals over no shard.
fn no_numbers() -> Numbers
    ensures { AreSumsOfAll [] result }
{
    Numbers {
        blobs: 0,
        bytes: 0,
        lost: 0,
        unrecoverable: 0,
        calls: 0,
        entries: 0,
    }
}

/// The sums of the numbers of two stores.
fn add(some: Numbers, more: Numbers) -> Numbers
    ensures { result ≡ capped_sum some more }
{
    Numbers {
        blobs: some.blobs.saturating_add(more.blobs),
        bytes: some.bytes.saturating_add(more.bytes),
        lost: some.lost.saturating_add(more.lost),
        unrecoverable: some.unrecoverable.saturating_add(more.unrecoverable),
        calls: some.calls.saturating_add(more.calls),
        entries: some.entries.saturating_add(more.entries),
    }
}
