//! Discarding the beginning of a shard's journal in parts.
ghost use Rattle.std.specs.Prelude.{◌≡◌, ◌≢◌, ◌⊎◌, ◌<◌, ◌≤◌, ℕ, IfOk, IfErr};
ghost use Rattle.shared.specs.Deeds.{Takes, trim_deed, act_if};
ghost use Rattle.shared.specs.Passes.{FindsBusy, VisitsOnce};
ghost use Rattle.shard.specs.Seats.{IsSeatOf};
ghost use Rattle.shard.specs.Listed.{IsListed, IsUpToDate, listing_of};

use crate::{Shard, ShardSeat};
use book::Fault;
use ledger::{Follower, Ledger};
use ledger_map::{OnShard, StoreAct};
use requests::TrimPartVisit;
use std::alloc::Global;
use std::sync::Wait;

impl Shard {
    /// As `trim`, but it discards at most `most` entries: the oldest of those that `trim` would
    /// discard, as `Store::trim_part` does.
    pub fn trim_part<R: Wait>(
        &self,
        rt: &R,
        alloc: Global,
        ledger: &Ledger<StoreAct>,
        seat: &mut ShardSeat,
        follower: &mut Follower<StoreAct>,
        keep: u64,
        most: u64,
    ) -> Result<u64, Fault>
        requires shard { seat.old.shows.store ≡ self.now }
        requires at { IsSeatOf ledger.now seat.old }
        requires ledger { follower.old.ledger ≡ ledger.now }
        ensures part { (k : ℕ) × (keep ≤ k)
            × Takes seat.old.shows (trim_deed k result) seat.new.shows }
        ensures few { IfOk result (λ n. (n ≤ most) × (n ≤ 1048576)) }
        ensures whole { IfOk result
            (λ n. n < most → Takes seat.old.shows (trim_deed keep result) seat.new.shows) }
        ensures faults { IfErr result (λ e. e ≡ Fault.NoMemory) }
        ensures same { (seat.new.ledger ≡ seat.old.ledger) × (seat.new.shard ≡ seat.old.shard) }
        ensures listed { IsListed seat.old.shard
            (act_if seat.old.shows.who (trim_deed keep result))
            seat.old.shows.acts seat.new.shows.acts (listing_of follower.old)
            (listing_of follower.new) }
        ensures follower { IsUpToDate ledger.now.setup seat.old.shard seat.old.shows.acts
            seat.new.shows.acts follower.old follower.new }
    {
        let visit = OnShard(TrimPartVisit { alloc, keep, most });
        ledger.make_visit(rt, &self.gate, &mut seat.seat, follower, visit)
    }

    /// As `trim_part`, if no other thread is in the critical section. Else `Busy`.
    pub fn try_trim_part(
        &self,
        alloc: Global,
        ledger: &Ledger<StoreAct>,
        seat: &mut ShardSeat,
        follower: &mut Follower<StoreAct>,
        keep: u64,
        most: u64,
    ) -> Result<u64, Fault>
        requires shard { seat.old.shows.store ≡ self.now }
        requires at { IsSeatOf ledger.now seat.old }
        requires ledger { follower.old.ledger ≡ ledger.now }
        ensures part { (k : ℕ) × (keep ≤ k)
            × Takes seat.old.shows (trim_deed k result) seat.new.shows }
        ensures few { IfOk result (λ n. (n ≤ most) × (n ≤ 1048576)) }
        ensures whole { IfOk result
            (λ n. n < most → Takes seat.old.shows (trim_deed keep result) seat.new.shows) }
        ensures faults { IfErr result (λ e. (e ≡ Fault.Busy) ⊎ (e ≡ Fault.NoMemory)) }
        ensures busy { result ≡ Err Fault.Busy → FindsBusy seat.old.shows seat.new.shows }
        ensures entered { result ≢ Err Fault.Busy → VisitsOnce seat.old.shows seat.new.shows }
        ensures lone { seat.old.shows.room ≡ 64 → result ≢ Err Fault.Busy }
        ensures same { (seat.new.ledger ≡ seat.old.ledger) × (seat.new.shard ≡ seat.old.shard) }
        ensures listed { IsListed seat.old.shard
            (act_if seat.old.shows.who (trim_deed keep result))
            seat.old.shows.acts seat.new.shows.acts (listing_of follower.old)
            (listing_of follower.new) }
        ensures follower { IsUpToDate ledger.now.setup seat.old.shard seat.old.shows.acts
            seat.new.shows.acts follower.old follower.new }
    {
        let visit = OnShard(TrimPartVisit { alloc, keep, most });
        let Ok(reply) = ledger.try_visit(&self.gate, &mut seat.seat, follower, visit) else {
            return Err(Fault::Busy);
        };
        reply
    }
}
