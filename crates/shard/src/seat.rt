//! The seats of a shard's callers.
ghost use Rattle.std.specs.Prelude.{◌≡◌, ◌⊎◌, ◌↔◌, ◌+◌, ◌-◌, ◌≤◌, ◌++◌, [], IfOk, IfErr, OnOk};
ghost use Rattle.std.specs.Prelude.{OnErr, Option};
ghost use mathlib.Core.List.{IsPrefix};
ghost use Rattle.gate.specs.Places.{AreApart};
ghost use Rattle.book.specs.Serial.{Deed};
ghost use Rattle.history.specs.History.{IsLegal};
ghost use Rattle.shared.specs.Deeds.{Takes};
ghost use Rattle.shared.specs.Passes.{Shows, IsConsistent, IsWhole, seen_by, DoneAfter};

use crate::Shard;
use book::Fault;
use gate::{Receipt, Seat};
use ledger::Held;
use ledger_map::{ShardBook, StoreAct};
use std::marker::Model;

/// A caller's seat at a shard, with the label of its calls. Dropping a seat drops its room, and
/// then no other seat comes to a room of 64 again.
///
/// A clause sees what a pass to a store shows, and which shard of which ledger it is.
#[derive(Drop)]
pub struct ShardSeat {
    pub(crate) seat: Seat<Held<ShardBook, StoreAct>>,
    pub(crate) who: u32,
}

impl Model for ShardSeat {
    ghost use Rattle.shard.specs.Seats.{SeatShows, seat_shows, IsSeat};

    ghost Value = { SeatShows };

    ghost view = { λ s. seat_shows s.seat s.who };

    ghost invariant = { λ s. IsSeat s.seat };
}

/// All that a seat had seen when the receipt was made, with the calls that it had made. It has no
/// bytes. Dropping it changes nothing.
///
/// A clause sees which shard it is of, and the legal history that was seen.
#[derive(Drop)]
pub struct SeatReceipt {
    receipt: Receipt<Held<ShardBook, StoreAct>>,
}

impl Model for SeatReceipt {
    ghost use Rattle.shared.specs.Passes.{ReceiptShows, receipt_shows};
    ghost use Rattle.shard.specs.Seats.{plain_receipt, IsSeatReceipt};

    ghost Value = { ReceiptShows };

    ghost view = { λ r. receipt_shows (plain_receipt r.receipt) };

    ghost invariant = { λ r. IsSeatReceipt r.receipt };
}

impl ShardSeat {
    /// How many seats, with itself, can be made of it: from 1 to 64.
    pub fn room(&self) -> u64
        ensures value { result ≡ self.now.shows.room }
        ensures range { (1 ≤ result) × (result ≤ 64) }
    {
        self.seat.room()
    }

    /// The label of its calls. Whatever the seat has seen is a legal history: that of the acts that
    /// it shows.
    pub fn who(&self) -> u32
        ensures value { result ≡ self.now.shows.who }
        ensures legal { IsLegal self.now.shows.store.width self.now.shows.seen }
        ensures agrees { IsConsistent self.now.shows }
    {
        self.who
    }

    /// A new seat with this label, which has seen as much, has made no call and has a room of 1.
    /// The old one keeps one less and shows what it showed.
    ///
    /// `NoPass` if the room is 1; else `NoMemory` if out of memory. After either the old seat is
    /// unchanged.
    pub fn split(&mut self, shard: &Shard, who: u32) -> Result<ShardSeat, Fault>
        requires shard { self.old.shows.store ≡ shard.now }
        ensures unchanged { OnOk result
            (self.new.shows ≡ record self.old.shows { room = self.old.shows.room - 1 }) }
        ensures given { IfOk result
            (λ s. s.shows ≡ record {
              store = self.old.shows.store;
              who = who;
              room = 1;
              seen = self.old.shows.seen;
              trimmed = self.old.shows.trimmed;
              made = [];
              acts = self.old.shows.acts;
              did = [];
              visits = 0;
              seen_visits = self.old.shows.seen_visits;
              expected_visits = 0;
            }) }
        ensures at { IfOk result
            (λ s. (s.ledger ≡ self.old.ledger) × (s.shard ≡ self.old.shard)) }
        ensures same { (self.new.ledger ≡ self.old.ledger) × (self.new.shard ≡ self.old.shard) }
        ensures no_pass { (result ≡ Err Fault.NoPass) ↔ (self.old.shows.room ≡ 1) }
        ensures faults { IfErr result (λ e. (e ≡ Fault.NoMemory) ⊎ (e ≡ Fault.NoPass)) }
        ensures err { OnErr result (self.new ≡ self.old) }
    {
        if self.seat.room() <= 1 {
            return Err(Fault::NoPass);
        }
        let Ok(seat) = self.seat.split(&shard.gate) else {
            return Err(Fault::NoMemory);
        };
        Ok(ShardSeat { seat, who })
    }

    /// Takes in another seat with its room and the calls that it made, as `Pass::join` does. It
    /// does not allocate.
    pub fn join(&mut self, shard: &Shard, other: ShardSeat)
        requires shard { (self.old.shows.store ≡ shard.now) × (other.shows.store ≡ shard.now) }
        ensures unchanged { (self.new.shows.store ≡ self.old.shows.store)
            × (self.new.shows.who ≡ self.old.shows.who)
            × (self.new.shows.room ≡ self.old.shows.room + other.shows.room) }
        ensures one { ((self.new.shows.seen ≡ self.old.shows.seen)
            × (self.new.shows.trimmed ≡ self.old.shows.trimmed))
            ⊎ ((self.new.shows.seen ≡ other.shows.seen)
            × (self.new.shows.trimmed ≡ other.shows.trimmed)) }
        ensures seen { IsPrefix self.old.shows.seen self.new.shows.seen
            × IsPrefix other.shows.seen self.new.shows.seen }
        ensures made { self.new.shows.made ≡ self.old.shows.made ++ other.shows.made }
        ensures acts { IsPrefix self.old.shows.acts self.new.shows.acts
            × IsPrefix other.shows.acts self.new.shows.acts }
        ensures one_acts { (self.new.shows.acts ≡ self.old.shows.acts)
            ⊎ (self.new.shows.acts ≡ other.shows.acts) }
        ensures did { self.new.shows.did ≡ self.old.shows.did ++ other.shows.did }
        ensures whole { self.new.shows.room ≡ 64 → IsWhole self.new.shows }
        ensures apart { AreApart self.old.shows.made other.shows.made }
        ensures agrees { IsConsistent self.new.shows }
        ensures same { (self.new.ledger ≡ self.old.ledger) × (self.new.shard ≡ self.old.shard) }
    {
        let ShardSeat { seat, who: _ } = other;
        self.seat.join(&shard.gate, seat);
    }

    /// A receipt of all that the seat has seen: its own calls are among it. The seat shows what it
    /// showed. It does not allocate, and does not wait.
    pub fn receipt(&mut self, shard: &Shard) -> SeatReceipt
        requires shard { self.old.shows.store ≡ shard.now }
        ensures same { self.new ≡ self.old }
        ensures given { result ≡ seen_by self.old.shows }
    {
        let receipt = self.seat.receipt(&shard.gate);
        SeatReceipt { receipt }
    }

    /// Takes in a receipt, as `Pass::accept` does. It does not allocate, and does not wait.
    pub fn accept(&mut self, shard: &Shard, receipt: SeatReceipt)
        requires shard { (self.old.shows.store ≡ shard.now) × (receipt.store ≡ shard.now) }
        ensures unchanged { self.new.shows ≡ record self.old.shows {
          seen = self.new.shows.seen;
          trimmed = self.new.shows.trimmed;
          acts = self.new.shows.acts;
          seen_visits = self.new.shows.seen_visits;
        } }
        ensures one { (self.new.shows ≡ self.old.shows) ⊎ (seen_by self.new.shows ≡ receipt) }
        ensures seen { IsPrefix self.old.shows.seen self.new.shows.seen
            × IsPrefix receipt.seen self.new.shows.seen }
        ensures acts { IsPrefix self.old.shows.acts self.new.shows.acts
            × IsPrefix receipt.acts self.new.shows.acts }
        ensures later { (deed : Option Deed) (w : Shows) → Takes self.new.shows deed w
            → DoneAfter receipt.acts self.new.shows w }
        ensures lone { self.old.shows.room ≡ 64 → self.new.shows ≡ self.old.shows }
        ensures agrees { IsConsistent self.new.shows }
        ensures same { (self.new.ledger ≡ self.old.ledger) × (self.new.shard ≡ self.old.shard) }
    {
        let SeatReceipt { receipt } = receipt;
        self.seat.accept(&shard.gate, receipt);
    }
}
