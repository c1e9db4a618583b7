//! The numbers of a shard.
ghost use Rattle.std.specs.Prelude.{◌≡◌, ◌≢◌, ◌-◌, length, [], None, IfOk, IfErr};
ghost use Rattle.book.specs.Numbers.{AreNumbersOf};
ghost use Rattle.book.specs.Trimming.{journaled};
ghost use Rattle.shared.specs.Deeds.{Takes};
ghost use Rattle.shared.specs.Passes.{FindsBusy, VisitsOnce};
ghost use Rattle.shard.specs.Seats.{IsSeatOf};
ghost use Rattle.shard.specs.Listed.{IsListed, IsUpToDate, listing_of};

use crate::{Shard, ShardSeat};
use book::{Fault, Numbers};
use ledger::{Follower, Ledger};
use ledger_map::{OnShard, StoreAct};
use requests::NumbersVisit;
use std::sync::Wait;

impl Shard {
    /// The totals of all blobs, the number of calls, and that of the entries in the journal, as
    /// `Store::numbers` gives them.
    pub fn numbers<R: Wait>(
        &self,
        rt: &R,
        ledger: &Ledger<StoreAct>,
        seat: &mut ShardSeat,
        follower: &mut Follower<StoreAct>,
    ) -> Numbers
        requires shard { seat.old.shows.store ≡ self.now }
        requires at { IsSeatOf ledger.now seat.old }
        requires ledger { follower.old.ledger ≡ ledger.now }
        ensures takes { Takes seat.old.shows None seat.new.shows }
        ensures holds { AreNumbersOf self.now.width seat.new.shows.seen result }
        ensures entries { result.entries ≡ journaled self.now.limit
            (length seat.new.shows.seen - seat.new.shows.trimmed) }
        ensures same { (seat.new.ledger ≡ seat.old.ledger) × (seat.new.shard ≡ seat.old.shard) }
        ensures listed { IsListed seat.old.shard [] seat.old.shows.acts seat.new.shows.acts
            (listing_of follower.old) (listing_of follower.new) }
        ensures follower { IsUpToDate ledger.now.setup seat.old.shard seat.old.shows.acts
            seat.new.shows.acts follower.old follower.new }
    {
        let visit = OnShard(NumbersVisit);
        ledger.make_visit(rt, &self.gate, &mut seat.seat, follower, visit)
    }

    /// As `numbers`, if no other thread is in the critical section. Else `Busy`.
    pub fn try_numbers(
        &self,
        ledger: &Ledger<StoreAct>,
        seat: &mut ShardSeat,
        follower: &mut Follower<StoreAct>,
    ) -> Result<Numbers, Fault>
        requires shard { seat.old.shows.store ≡ self.now }
        requires at { IsSeatOf ledger.now seat.old }
        requires ledger { follower.old.ledger ≡ ledger.now }
        ensures takes { Takes seat.old.shows None seat.new.shows }
        ensures ok { IfOk result (AreNumbersOf self.now.width seat.new.shows.seen) }
        ensures entries { IfOk result (λ n. n.entries ≡ journaled self.now.limit
            (length seat.new.shows.seen - seat.new.shows.trimmed)) }
        ensures faults { IfErr result (λ e. e ≡ Fault.Busy) }
        ensures busy { result ≡ Err Fault.Busy → FindsBusy seat.old.shows seat.new.shows }
        ensures entered { result ≢ Err Fault.Busy → VisitsOnce seat.old.shows seat.new.shows }
        ensures lone { seat.old.shows.room ≡ 64 → result ≢ Err Fault.Busy }
        ensures same { (seat.new.ledger ≡ seat.old.ledger) × (seat.new.shard ≡ seat.old.shard) }
        ensures listed { IsListed seat.old.shard [] seat.old.shows.acts seat.new.shows.acts
            (listing_of follower.old) (listing_of follower.new) }
        ensures follower { IsUpToDate ledger.now.setup seat.old.shard seat.old.shows.acts
            seat.new.shows.acts follower.old follower.new }
    {
        let visit = OnShard(NumbersVisit);
        let Ok(numbers) = ledger.try_visit(&self.gate, &mut seat.seat, follower, visit) else {
            return Err(Fault::Busy);
        };
        Ok(numbers)
    }
}
