//! One call in a shard's critical section.
ghost use Rattle.std.specs.Prelude.{◌≡◌, ◌≢◌, ◌⊎◌, ◌+◌, [], Err, IfOk, IfErr, IsOk};
ghost use Rattle.one_map.specs.OneMap.{operation_shard};
ghost use Rattle.shared.specs.Calls.{Called};
ghost use Rattle.shared.specs.Deeds.{deed_of, act_if};
ghost use Rattle.shared.specs.Passes.{FindsBusy, VisitsOnce};
ghost use Rattle.requests.specs.Requests.{operation_of, IsFaultOf};
ghost use Rattle.shared.specs.Requests.{CanAsk, IsGrantedTo, WantedFor};
ghost use Rattle.shard.specs.Seats.{IsSeatOf};
ghost use Rattle.shard.specs.Listed.{IsListed, IsUpToDate, listing_of};

use crate::{Shard, ShardSeat};
use book::{Answer, Fault};
use ledger::{Follower, Ledger};
use ledger_map::{OnShard, StoreAct};
use requests::{Request, RequestVisit};
use std::sync::Wait;

impl Shard {
    /// Enters the critical section, makes a call on a name of this shard, and leaves.
    pub fn make<R: Wait>(
        &self,
        rt: &R,
        ledger: &Ledger<StoreAct>,
        seat: &mut ShardSeat,
        follower: &mut Follower<StoreAct>,
        request: Request,
    ) -> Result<Answer, Fault>
        requires shard { seat.old.shows.store ≡ self.now }
        requires at { IsSeatOf ledger.now seat.old }
        requires ledger { follower.old.ledger ≡ ledger.now }
        requires name { operation_shard ledger.now.setup.count (operation_of request)
            ≡ seat.old.shard }
        requires can { CanAsk seat.old.shows request }
        ensures called { Called seat.old.shows (operation_of request) result seat.new.shows }
        ensures granted { IfOk result
            (IsGrantedTo seat.new.shows.seen self.now.width request) }
        ensures no_memory { result ≡ Err Fault.NoMemory
            → WantedFor seat.new.shows.seen self.now.width request }
        ensures faults { IfErr result (IsFaultOf request) }
        ensures same { (seat.new.ledger ≡ seat.old.ledger) × (seat.new.shard ≡ seat.old.shard) }
        ensures listed { IsListed seat.old.shard
            (act_if seat.old.shows.who (deed_of (operation_of request) result))
            seat.old.shows.acts seat.new.shows.acts (listing_of follower.old)
            (listing_of follower.new) }
        ensures follower { IsUpToDate ledger.now.setup seat.old.shard seat.old.shows.acts
            seat.new.shows.acts follower.old follower.new }
    {
        let who = seat.who;
        let visit = OnShard(RequestVisit { who, request });
        ledger.make_visit(rt, &self.gate, &mut seat.seat, follower, visit)
    }

    /// As `make`, if no other thread is in the critical section. Else `Busy`, and the request is
    /// lost; `try_prepared` gives it back.
    pub fn try_make(
        &self,
        ledger: &Ledger<StoreAct>,
        seat: &mut ShardSeat,
        follower: &mut Follower<StoreAct>,
        request: Request,
    ) -> Result<Answer, Fault>
        requires shard { seat.old.shows.store ≡ self.now }
        requires at { IsSeatOf ledger.now seat.old }
        requires ledger { follower.old.ledger ≡ ledger.now }
        requires name { operation_shard ledger.now.setup.count (operation_of request)
            ≡ seat.old.shard }
        requires can { CanAsk seat.old.shows request }
        ensures called { Called seat.old.shows (operation_of request) result seat.new.shows }
        ensures granted { IfOk result
            (IsGrantedTo seat.new.shows.seen self.now.width request) }
        ensures no_memory { result ≡ Err Fault.NoMemory
            → WantedFor seat.new.shows.seen self.now.width request }
        ensures faults { IfErr result (λ e. (e ≡ Fault.Busy) ⊎ IsFaultOf request e) }
        ensures busy { result ≡ Err Fault.Busy → FindsBusy seat.old.shows seat.new.shows }
        ensures entered { result ≢ Err Fault.Busy → VisitsOnce seat.old.shows seat.new.shows }
        ensures lone { seat.old.shows.room ≡ 64 → result ≢ Err Fault.Busy }
        ensures same { (seat.new.ledger ≡ seat.old.ledger) × (seat.new.shard ≡ seat.old.shard) }
        ensures listed { IsListed seat.old.shard
            (act_if seat.old.shows.who (deed_of (operation_of request) result))
            seat.old.shows.acts seat.new.shows.acts (listing_of follower.old)
            (listing_of follower.new) }
        ensures follower { IsUpToDate ledger.now.setup seat.old.shard seat.old.shows.acts
            seat.new.shows.acts follower.old follower.new }
    {
        match self.try_prepared(ledger, seat, follower, request) {
            Ok(reply) => reply,
            Err(_) => Err(Fault::Busy),
        }
    }

    /// Makes a call on a name of this shard, if no other thread is in the critical section. If one
    /// is there, it gives the request back as it was, as `Store::try_prepared` does.
    pub fn try_prepared(
        &self,
        ledger: &Ledger<StoreAct>,
        seat: &mut ShardSeat,
        follower: &mut Follower<StoreAct>,
        request: Request,
    ) -> Result<Result<Answer, Fault>, Request>
        requires shard { seat.old.shows.store ≡ self.now }
        requires at { IsSeatOf ledger.now seat.old }
        requires ledger { follower.old.ledger ≡ ledger.now }
        requires name { operation_shard ledger.now.setup.count (operation_of request)
            ≡ seat.old.shard }
        requires can { CanAsk seat.old.shows request }
        ensures called { IfOk result
            (λ reply. Called seat.old.shows (operation_of request) reply seat.new.shows) }
        ensures granted { IfOk result
            (λ reply. IfOk reply (IsGrantedTo seat.new.shows.seen self.now.width request)) }
        ensures no_memory { IfOk result (λ reply. reply ≡ Err Fault.NoMemory
            → WantedFor seat.new.shows.seen self.now.width request) }
        ensures faults { IfOk result (λ reply. IfErr reply (IsFaultOf request)) }
        ensures entered { IfOk result (λ _. VisitsOnce seat.old.shows seat.new.shows) }
        ensures unchanged { IfErr result (λ r. r ≡ request) }
        ensures refused { IfErr result (λ _. Called seat.old.shows (operation_of request)
            (Err Fault.Busy) seat.new.shows) }
        ensures busy { IfErr result (λ _. FindsBusy seat.old.shows seat.new.shows) }
        ensures lone { seat.old.shows.room ≡ 64 → IsOk result }
        ensures same { (seat.new.ledger ≡ seat.old.ledger) × (seat.new.shard ≡ seat.old.shard) }
        ensures listed { IfOk result (λ reply. IsListed seat.old.shard
            (act_if seat.old.shows.who (deed_of (operation_of request) reply))
            seat.old.shows.acts seat.new.shows.acts (listing_of follower.old)
            (listing_of follower.new)) }
        ensures unlisted { IfErr result (λ _. IsListed seat.old.shard [] seat.old.shows.acts
            seat.new.shows.acts (listing_of follower.old) (listing_of follower.new)) }
        ensures follower { IsUpToDate ledger.now.setup seat.old.shard seat.old.shows.acts
            seat.new.shows.acts follower.old follower.new }
    {
        let who = seat.who;
        let visit = OnShard(RequestVisit { who, request });
        let visit = match ledger.try_visit(&self.gate, &mut seat.seat, follower, visit) {
            Ok(reply) => return Ok(reply),
            Err(visit) => visit,
        };
        Err(visit.0.request)
    }
}
