//! The lost fragments of a shard.
ghost use Rattle.std.specs.Prelude.{◌≡◌, ◌≢◌, ◌⊎◌, [], None, IfOk, IfErr};
ghost use Rattle.history.specs.History.{state_of};
ghost use Rattle.book.specs.Plan.{plan_of};
ghost use Rattle.shared.specs.Deeds.{Takes};
ghost use Rattle.shared.specs.Passes.{FindsBusy, VisitsOnce};
ghost use Rattle.shard.specs.Seats.{IsSeatOf};
ghost use Rattle.shard.specs.Listed.{IsListed, IsUpToDate, listing_of};

use crate::{Shard, ShardSeat};
use book::{Fault, Plan};
use ledger::{Follower, Ledger};
use ledger_map::StoreAct;
use std::alloc::Global;
use std::sync::Wait;

impl Shard {
    /// The lost fragments of all blobs, as `Store::plan` lists them.
    pub fn plan<R: Wait>(
        &self,
        rt: &R,
        alloc: Global,
        ledger: &Ledger<StoreAct>,
        seat: &mut ShardSeat,
        follower: &mut Follower<StoreAct>,
    ) -> Result<Plan, Fault>
        requires shard { seat.old.shows.store ≡ self.now }
        requires at { IsSeatOf ledger.now seat.old }
        requires ledger { follower.old.ledger ≡ ledger.now }
        ensures takes { Takes seat.old.shows None seat.new.shows }
        ensures ok { IfOk result (λ p. p.items.items ≡ plan_of (state_of seat.new.shows.seen)) }
        ensures faults { IfErr result (λ e. e ≡ Fault.NoMemory) }
        ensures same { (seat.new.ledger ≡ seat.old.ledger) × (seat.new.shard ≡ seat.old.shard) }
        ensures listed { IsListed seat.old.shard [] seat.old.shows.acts seat.new.shows.acts
            (listing_of follower.old) (listing_of follower.new) }
        ensures follower { IsUpToDate ledger.now.setup seat.old.shard seat.old.shows.acts
            seat.new.shows.acts follower.old follower.new }
    {
        self.plan_part(rt, alloc, ledger, seat, follower, None, usize::MAX)
    }

    /// As `plan`, if no other thread is in the critical section. Else `Busy`.
    pub fn try_plan(
        &self,
        alloc: Global,
        ledger: &Ledger<StoreAct>,
        seat: &mut ShardSeat,
        follower: &mut Follower<StoreAct>,
    ) -> Result<Plan, Fault>
        requires shard { seat.old.shows.store ≡ self.now }
        requires at { IsSeatOf ledger.now seat.old }
        requires ledger { follower.old.ledger ≡ ledger.now }
        ensures takes { Takes seat.old.shows None seat.new.shows }
        ensures ok { IfOk result (λ p. p.items.items ≡ plan_of (state_of seat.new.shows.seen)) }
        ensures faults { IfErr result (λ e. (e ≡ Fault.Busy) ⊎ (e ≡ Fault.NoMemory)) }
        ensures busy { result ≡ Err Fault.Busy → FindsBusy seat.old.shows seat.new.shows }
        ensures entered { result ≢ Err Fault.Busy → VisitsOnce seat.old.shows seat.new.shows }
        ensures lone { seat.old.shows.room ≡ 64 → result ≢ Err Fault.Busy }
        ensures same { (seat.new.ledger ≡ seat.old.ledger) × (seat.new.shard ≡ seat.old.shard) }
        ensures listed { IsListed seat.old.shard [] seat.old.shows.acts seat.new.shows.acts
            (listing_of follower.old) (listing_of follower.new) }
        ensures follower { IsUpToDate ledger.now.setup seat.old.shard seat.old.shows.acts
            seat.new.shows.acts follower.old follower.new }
    {
        self.try_plan_part(alloc, ledger, seat, follower, None, usize::MAX)
    }
}
