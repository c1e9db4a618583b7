//! Repairs. Fragments are rebuilt outside the critical section, while other threads may enter it.
ghost use Rattle.std.specs.Prelude.{◌≡◌, ◌≢◌, ◌⊎◌, ◌+◌, IfErr};
ghost use Rattle.history.specs.Step.{repair as repair_of};
ghost use Rattle.book.specs.Holds.{IsCallFault};
ghost use Rattle.one_map.specs.OneMap.{operation_shard};
ghost use Rattle.shared.specs.Calls.{Called};
ghost use Rattle.shared.specs.Deeds.{deed_of, act_if};
ghost use Rattle.shared.specs.Passes.{FindsBusy, VisitsOnce};
ghost use Rattle.requests.specs.Inspections.{IfRefused};
ghost use Rattle.shared.specs.Mends.{InspectionGives, FoundBusy};
ghost use Rattle.shard.specs.Seats.{IsSeatOf};
ghost use Rattle.shard.specs.Listed.{IsListed, IsUpToDate, listing_of};
ghost use Rattle.shard.specs.Looked.{inspected};

use crate::{Shard, ShardSeat};
use book::{Answer, Fault, Name};
use ledger::{Follower, Ledger};
use ledger_map::{OnShard, StoreAct};
use requests::{Inspection, InspectionVisit};
use shared::prepare_install;
use std::alloc::Global;
use std::sync::Wait;

impl Shard {
    /// Rebuilds a lost fragment of the blob of a name of this shard, as `Store::repair` does.
    pub fn repair<R: Wait>(
        &self,
        rt: &R,
        alloc: Global,
        ledger: &Ledger<StoreAct>,
        seat: &mut ShardSeat,
        follower: &mut Follower<StoreAct>,
        name: Name,
        stripe: u64,
        fragment: u64,
    ) -> Result<Answer, Fault>
        requires shard { seat.old.shows.store ≡ self.now }
        requires at { IsSeatOf ledger.now seat.old }
        requires ledger { follower.old.ledger ≡ ledger.now }
        requires name { operation_shard ledger.now.setup.count (repair_of name stripe fragment)
            ≡ seat.old.shard }
        ensures called { Called seat.old.shows (repair_of name stripe fragment) result
            seat.new.shows }
        ensures faults { IfErr result IsCallFault }
        ensures same { (seat.new.ledger ≡ seat.old.ledger) × (seat.new.shard ≡ seat.old.shard) }
        ensures listed { IsListed seat.old.shard
            (act_if seat.old.shows.who (deed_of (repair_of name stripe fragment) result))
            seat.old.shows.acts seat.new.shows.acts (listing_of follower.old)
            (listing_of follower.new) }
        ensures follower { IsUpToDate ledger.now.setup seat.old.shard seat.old.shows.acts
            seat.new.shows.acts follower.old follower.new }
    {
        let found = self.inspect(rt, alloc, ledger, seat, follower, &name, stripe, fragment);
        let sealed = match found {
            Inspection::Done(answer) => return Ok(answer),
            Inspection::Refused(fault) => return Err(fault),
            Inspection::Rebuildable(sealed) => sealed,
        };
        let Ok(install) = prepare_install(alloc, sealed, name, stripe, fragment) else {
            return Err(Fault::NoMemory);
        };
        self.make(rt, ledger, seat, follower, install)
    }

    /// As `repair`, if no other thread is in the critical section at either time. Else `Busy`.
    pub fn try_repair(
        &self,
        alloc: Global,
        ledger: &Ledger<StoreAct>,
        seat: &mut ShardSeat,
        follower: &mut Follower<StoreAct>,
        name: Name,
        stripe: u64,
        fragment: u64,
    ) -> Result<Answer, Fault>
        requires shard { seat.old.shows.store ≡ self.now }
        requires at { IsSeatOf ledger.now seat.old }
        requires ledger { follower.old.ledger ≡ ledger.now }
        requires name { operation_shard ledger.now.setup.count (repair_of name stripe fragment)
            ≡ seat.old.shard }
        ensures called { Called seat.old.shows (repair_of name stripe fragment) result
            seat.new.shows }
        ensures faults { IfErr result (λ e. (e ≡ Fault.Busy) ⊎ IsCallFault e) }
        ensures busy { result ≡ Err Fault.Busy
            → FoundBusy seat.old.shows name stripe fragment seat.new.shows }
        ensures entered { result ≢ Err Fault.Busy
            → (seat.new.shows.visits ≡ seat.old.shows.visits + 1)
            ⊎ (seat.new.shows.visits ≡ seat.old.shows.visits + 2) }
        ensures lone { seat.old.shows.room ≡ 64 → result ≢ Err Fault.Busy }
        ensures same { (seat.new.ledger ≡ seat.old.ledger) × (seat.new.shard ≡ seat.old.shard) }
        ensures listed { IsListed seat.old.shard
            (act_if seat.old.shows.who (deed_of (repair_of name stripe fragment) result))
            seat.old.shows.acts seat.new.shows.acts (listing_of follower.old)
            (listing_of follower.new) }
        ensures follower { IsUpToDate ledger.now.setup seat.old.shard seat.old.shows.acts
            seat.new.shows.acts follower.old follower.new }
    {
        let found = self.try_inspect(alloc, ledger, seat, follower, &name, stripe, fragment);
        let sealed = match found {
            Inspection::Done(answer) => return Ok(answer),
            Inspection::Refused(fault) => return Err(fault),
            Inspection::Rebuildable(sealed) => sealed,
        };
        let Ok(install) = prepare_install(alloc, sealed, name, stripe, fragment) else {
            return Err(Fault::NoMemory);
        };
        self.try_make(ledger, seat, follower, install)
    }

    /// Inspects a blob before a repair, in the critical section.
    fn inspect<R: Wait>(
        &self,
        rt: &R,
        alloc: Global,
        ledger: &Ledger<StoreAct>,
        seat: &mut ShardSeat,
        follower: &mut Follower<StoreAct>,
        name: &Name,
        stripe: u64,
        fragment: u64,
    ) -> Inspection
        requires shard { seat.old.shows.store ≡ self.now }
        requires at { IsSeatOf ledger.now seat.old }
        requires ledger { follower.old.ledger ≡ ledger.now }
        requires name { operation_shard ledger.now.setup.count
            (repair_of name.now stripe fragment) ≡ seat.old.shard }
        ensures found { InspectionGives seat.old.shows name.now stripe fragment result
            seat.new.shows }
        ensures faults { IfRefused result IsCallFault }
        ensures same { (seat.new.ledger ≡ seat.old.ledger) × (seat.new.shard ≡ seat.old.shard) }
        ensures listed { IsListed seat.old.shard
            (act_if seat.old.shows.who (inspected (repair_of name.now stripe fragment) result))
            seat.old.shows.acts seat.new.shows.acts (listing_of follower.old)
            (listing_of follower.new) }
        ensures follower { IsUpToDate ledger.now.setup seat.old.shard seat.old.shows.acts
            seat.new.shows.acts follower.old follower.new }
    {
        let visit = OnShard(InspectionVisit {
            alloc,
            who: seat.who,
            name,
            stripe,
            fragment,
        });
        ledger.make_visit(rt, &self.gate, &mut seat.seat, follower, visit)
    }

    /// As `inspect`, if no other thread is in the critical section. Else `Busy`.
    fn try_inspect(
        &self,
        alloc: Global,
        ledger: &Ledger<StoreAct>,
        seat: &mut ShardSeat,
        follower: &mut Follower<StoreAct>,
        name: &Name,
        stripe: u64,
        fragment: u64,
    ) -> Inspection
        requires shard { seat.old.shows.store ≡ self.now }
        requires at { IsSeatOf ledger.now seat.old }
        requires ledger { follower.old.ledger ≡ ledger.now }
        requires name { operation_shard ledger.now.setup.count
            (repair_of name.now stripe fragment) ≡ seat.old.shard }
        ensures found { InspectionGives seat.old.shows name.now stripe fragment result
            seat.new.shows }
        ensures faults { IfRefused result (λ e. (e ≡ Fault.Busy) ⊎ IsCallFault e) }
        ensures busy { result ≡ Inspection.Refused Fault.Busy
            → FindsBusy seat.old.shows seat.new.shows }
        ensures entered { result ≢ Inspection.Refused Fault.Busy
            → VisitsOnce seat.old.shows seat.new.shows }
        ensures lone { seat.old.shows.room ≡ 64 → result ≢ Inspection.Refused Fault.Busy }
        ensures same { (seat.new.ledger ≡ seat.old.ledger) × (seat.new.shard ≡ seat.old.shard) }
        ensures listed { IsListed seat.old.shard
            (act_if seat.old.shows.who (inspected (repair_of name.now stripe fragment) result))
            seat.old.shows.acts seat.new.shows.acts (listing_of follower.old)
            (listing_of follower.new) }
        ensures follower { IsUpToDate ledger.now.setup seat.old.shard seat.old.shows.acts
            seat.new.shows.acts follower.old follower.new }
    {
        let visit = OnShard(InspectionVisit {
            alloc,
            who: seat.who,
            name,
            stripe,
            fragment,
        });
        let Ok(inspection) = ledger.try_visit(&self.gate, &mut seat.seat, follower, visit) else {
            return Inspection::Refused(Fault::Busy);
        };
        inspection
    }
}
