//! Calls at the shard of their name, and what a pass to all shards sees of them. The passes to all
//! other shards stay as they were.
ghost use Rattle.std.specs.Prelude.{◌≡◌, ◌⊎◌, ◌+◌, length};

use crate::{ShardedPass, ShardedStore};
use book::{Answer, Fault, Name};
use named_calls::{
    Makes, TryCalls, TrySnapshots, WaitingCalls, WaitingSnapshots, Waits, snapshot_of,
};
use requests::Request;
use sealed::Width;
use shared::Snapshot;
use std::alloc::Global;
use std::sync::Wait;

impl Makes for ShardedStore {
    type Pass = ShardedPass;

    ghost use Rattle.std.specs.Prelude.{◌≡◌, ◌⊎◌, ◌+◌, length};
    ghost use Rattle.one_map.specs.OneMap.{operation_shard};
    ghost use Rattle.shared.specs.Passes.{VisitsOnce};
    ghost use Rattle.sharded.specs.Passes.{AreLone};
    ghost use Rattle.sharded.specs.Listings.{IsListedCall};
    ghost use Rattle.sharded.specs.Repairs.{IsPassTo};
    ghost use Rattle.sharded.specs.Steps.{seen_for, width_for, IsStepAt, IsCallAt, IsBusyAt};
    ghost use Rattle.sharded.specs.Steps.{IsBusyRepairAt};

    ghost is_to = { IsPassTo };

    ghost seen = { λ v n. seen_for v.shards n };

    ghost width = { λ s n. width_for s.shards n };

    ghost called = { λ v o r w. IsCallAt v.shards o r w.shards };

    ghost listed = { IsListedCall };

    ghost busy = { λ v o w. IsBusyAt v.shards o w.shards };

    ghost busy_repair = { λ v n j f w. IsBusyRepairAt v.shards n j f w.shards };

    ghost entered = { λ v o w. IsStepAt (operation_shard (length v.shards) o) VisitsOnce v.shards
        w.shards };

    ghost entered_to_repair = { λ v o w. IsStepAt (operation_shard (length v.shards) o)
        (λ x y. (y.visits ≡ x.visits + 1) ⊎ (y.visits ≡ x.visits + 2)) v.shards w.shards };

    ghost lone = { λ v. AreLone v.shards };

    fn width(&self) -> Width {
        self.width
    }

    fn refuse(&self, pass: &ShardedPass, fault: Fault) -> Result<Answer, Fault> {
        // Once a field is read, it is known what every pass keeps.
        let _seats = &pass.seats;
        Err(fault)
    }

    fn try_prepared(
        &self,
        pass: &mut ShardedPass,
        request: Request,
    ) -> Result<Result<Answer, Fault>, Request> {
        let place = self.find_shard(request.name());
        let shard = &self.shards[place];
        let seat = &mut pass.seats[place];
        shard.try_prepared(&self.ledger, seat, &mut pass.follower, request)
    }

    fn try_repair(
        &self,
        alloc: Global,
        pass: &mut ShardedPass,
        name: Name,
        stripe: u64,
        fragment: u64,
    ) -> Result<Answer, Fault> {
        let place = self.find_shard(&name);
        let shard = &self.shards[place];
        let seat = &mut pass.seats[place];
        let (ledger, follower) = (&self.ledger, &mut pass.follower);
        shard.try_repair(alloc, ledger, seat, follower, name, stripe, fragment)
    }
}

impl Waits for ShardedStore {
    fn make<R: Wait>(
        &self,
        rt: &R,
        pass: &mut ShardedPass,
        request: Request,
    ) -> Result<Answer, Fault> {
        let place = self.find_shard(request.name());
        let shard = &self.shards[place];
        let seat = &mut pass.seats[place];
        shard.make(rt, &self.ledger, seat, &mut pass.follower, request)
    }

    fn repair<R: Wait>(
        &self,
        rt: &R,
        alloc: Global,
        pass: &mut ShardedPass,
        name: Name,
        stripe: u64,
        fragment: u64,
    ) -> Result<Answer, Fault> {
        let place = self.find_shard(&name);
        let shard = &self.shards[place];
        let seat = &mut pass.seats[place];
        let (ledger, follower) = (&self.ledger, &mut pass.follower);
        shard.repair(rt, alloc, ledger, seat, follower, name, stripe, fragment)
    }
}

impl WaitingCalls for ShardedStore {}

impl TryCalls for ShardedStore {}

impl WaitingSnapshots for ShardedStore {
    fn snapshot<R: Wait>(
        &self,
        rt: &R,
        pass: &mut ShardedPass,
        name: Name,
    ) -> Result<Option<Snapshot>, Fault> {
        snapshot_of(self.read(rt, pass, name, 0, 0))
    }
}

impl TrySnapshots for ShardedStore {
    fn try_snapshot(&self, pass: &mut ShardedPass, name: Name) -> Result<Option<Snapshot>, Fault> {
        snapshot_of(self.try_read(pass, name, 0, 0))
    }
}
