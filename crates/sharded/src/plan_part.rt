//! Parts of the plan of all shards.
ghost use Rattle.std.specs.Prelude.{◌≡◌, ◌≢◌, ◌⊎◌, length, take, IfOk, IfErr};
ghost use Rattle.std.specs.Option.{option_map};
ghost use Rattle.sharded.specs.Listings.{IsLonger};
ghost use Rattle.sharded.specs.Passes.{store_of, AreLone};
ghost use Rattle.sharded.specs.StepsTo.{AreSteps};
ghost use Rattle.sharded.specs.PlanParts.{MayHaveLooked, MayHaveLookedToBusy, first_shard};
ghost use Rattle.sharded.specs.PlanParts.{lost_behind};

use crate::{ShardedPass, ShardedStore};
use book::{Fault, Item, Plan};
use std::alloc::Global;
use std::sync::Wait;

impl ShardedStore {
    /// A part of the plan of all shards: the first `most` of its items that come behind `after`.
    /// The plan has the lost fragments of one shard after the other, and of each as
    /// `Store::plan_part` lists them. If `after` is the last item of a part, the next part goes on
    /// behind it.
    ///
    /// It visits the shard of `after` and those behind it, until it has `most` items, so others may
    /// call between two visits. What it lists of a shard is lost at the time of its visit. It is no
    /// call of a history, of which the pass may have seen more.
    ///
    /// `NoMemory` if there is no memory for the list.
    pub fn plan_part<R: Wait>(
        &self,
        rt: &R,
        alloc: Global,
        pass: &mut ShardedPass,
        after: Option<&Item>,
        most: usize,
    ) -> Result<Plan, Fault>
        requires { store_of pass.old ≡ self.now }
        ensures looked { AreSteps MayHaveLooked pass.old.shards pass.new.shards }
        ensures part { IfOk result (λ p. p.items.items ≡ take most
            (lost_behind (option_map (λ i. i.now) after.entry) pass.new.shards)) }
        ensures longer { IsLonger pass.old pass.new }
        ensures same { store_of pass.new ≡ self.now }
        ensures faults { IfErr result (λ e. e ≡ Fault.NoMemory) }
    {
        let count = self.count_shards();
        let mut shard = self.find_first(after);
        let mut cursor = after;
        let mut items = Vec::new(alloc);
        while shard < count && items.len() < most {
            let left = most - items.len();
            let plan = match self.plan_shard_part(rt, alloc, pass, shard, cursor, left) {
                Ok(plan) => plan,
                Err(fault) => return Err(fault),
            };
            if items.extend(plan.items).is_err() {
                return Err(Fault::NoMemory);
            }
            cursor = None;
            shard += 1;
        }
        Ok(Plan { items })
    }

    /// As `plan_part`, but `Busy` at the first shard whose critical section another caller is in.
    /// No shard behind it was visited then.
    pub fn try_plan_part(
        &self,
        alloc: Global,
        pass: &mut ShardedPass,
        after: Option<&Item>,
        most: usize,
    ) -> Result<Plan, Fault>
        requires { store_of pass.old ≡ self.now }
        ensures looked { AreSteps MayHaveLooked pass.old.shards pass.new.shards }
        ensures part { IfOk result (λ p. p.items.items ≡ take most
            (lost_behind (option_map (λ i. i.now) after.entry) pass.new.shards)) }
        ensures longer { IsLonger pass.old pass.new }
        ensures same { store_of pass.new ≡ self.now }
        ensures faults { IfErr result (λ e. (e ≡ Fault.Busy) ⊎ (e ≡ Fault.NoMemory)) }
        ensures busy { result ≡ Err Fault.Busy
            → MayHaveLookedToBusy pass.old.shards pass.new.shards }
        ensures lone { AreLone pass.old.shards → result ≢ Err Fault.Busy }
    {
        let count = self.count_shards();
        let mut shard = self.find_first(after);
        let mut cursor = after;
        let mut items = Vec::new(alloc);
        while shard < count && items.len() < most {
            let left = most - items.len();
            let plan = match self.try_plan_shard_part(alloc, pass, shard, cursor, left) {
                Ok(plan) => plan,
                Err(fault) => return Err(fault),
            };
            if items.extend(plan.items).is_err() {
                return Err(Fault::NoMemory);
            }
            cursor = None;
            shard += 1;
        }
        Ok(Plan { items })
    }

    /// The first shard that has items behind this one.
    fn find_first(&self, after: Option<&Item>) -> usize
        ensures value { result
            ≡ first_shard (length self.now.shards) (option_map (λ i. i.now) after.entry) }
    {
        match after {
            Some(item) => self.find_shard(&item.name),
            None => 0,
        }
    }
}
