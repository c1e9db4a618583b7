//! Receipts of all shards: they order the calls of two callers, at each shard and between shards.
ghost use Rattle.std.specs.Prelude.{◌≡◌, ◌⊎◌, ℕ, [], map, IfOk, IfErr, OnOk, Option};
ghost use mathlib.Core.List.{IsPrefix};
ghost use Rattle.book.specs.Serial.{Deed};
ghost use Rattle.shared.specs.Passes.{seen_by};
ghost use Rattle.sharded.specs.Listings.{IsListedAt, IsDoneAfter};
ghost use Rattle.sharded.specs.Passes.{PassShows, store_of, receipt_stores};
ghost use Rattle.sharded.specs.Passes.{receipt_store, AreTaken, AreAccepted};
ghost use Rattle.sharded.specs.Seats.{seat_stores, seen_seat, IsSeatAccepted};

use crate::{ShardedPass, ShardedStore};
use book::Fault;
use ledger::Receipt;
use ledger_map::StoreAct;
use shard::{SeatReceipt, Shard, ShardSeat};
use std::alloc::Global;
use std::marker::Model;

/// A caller's receipts, one of each shard and one of the list of all shards: all that its pass had
/// seen when it made the receipt, with the calls that it had made. Hand it to another thread
/// together with what you tell that thread. The calls of a pass that accepted it stand, at any
/// shard, after all calls that the receipt shows, at any shard. Dropping it changes nothing.
///
/// A clause sees what each receipt shows, in the order of the shards, and the list of all shards'
/// acts that was seen.
#[derive(Drop)]
pub struct ShardedReceipt {
    receipts: Vec<SeatReceipt>,
    receipt: Receipt<StoreAct>,
}

impl Model for ShardedReceipt {
    ghost use Rattle.sharded.specs.Passes.{ReceiptsShow};
    ghost use Rattle.sharded.specs.Seats.{IsReceiptOf};

    ghost Value = { ReceiptsShow };

    ghost view = { λ r. record {
      shards = r.receipts.items;
      ledger = r.receipt.ledger;
      list = r.receipt.list;
    } };

    ghost invariant = { λ r. IsReceiptOf r.receipts.items r.receipt };
}

impl ShardedPass {
    /// A receipt of all that the pass has seen. The pass shows what it showed. It does not wait.
    ///
    /// `NoMemory` if out of memory.
    pub fn receipt(&mut self, alloc: Global, store: &ShardedStore) -> Result<ShardedReceipt, Fault>
        requires { store_of self.old ≡ store.now }
        ensures same { self.new ≡ self.old }
        ensures given { IfOk result (λ r. r.shards ≡ map seen_by self.old.shards) }
        ensures list { IfOk result (λ r. r.list ≡ self.old.list) }
        ensures given_same { IfOk result (λ r. receipt_store r ≡ store.now) }
        ensures faults { IfErr result (λ e. e ≡ Fault.NoMemory) }
    {
        let mut receipts = Vec::new(alloc);
        receipts_of(&mut self.seats, &store.shards, &mut receipts)?;
        let receipt = self.follower.receipt(&store.ledger);
        Ok(ShardedReceipt { receipts, receipt })
    }

    /// Takes in a receipt, at each shard as `Pass::accept` does. Of the two lists of all shards'
    /// acts the pass shows the one that begins with both. Whatever it does next at any shard stands
    /// after all that the receipt shows, at any shard. It does not allocate, and does not wait.
    pub fn accept(&mut self, store: &ShardedStore, receipt: ShardedReceipt)
        requires store { store_of self.old ≡ store.now }
        requires receipt { receipt_store receipt ≡ store.now }
        ensures accepted { AreAccepted self.old.shards receipt.shards self.new.shards }
        ensures list { IsPrefix self.old.list self.new.list
            × IsPrefix receipt.list self.new.list }
        ensures one { (self.new.list ≡ self.old.list) ⊎ (self.new.list ≡ receipt.list) }
        ensures own { self.new.own ≡ self.old.own }
        ensures later { (k : ℕ) (deed : Option Deed) (w : PassShows) → IsListedAt k deed self.new w
            → IsDoneAfter receipt.list self.new w }
        ensures same { store_of self.new ≡ store.now }
    {
        let ShardedReceipt { receipts, receipt } = receipt;
        accept_all(&mut self.seats, &store.shards, receipts);
        self.follower.accept(&store.ledger, receipt);
    }

    /// Learns all that another pass has seen, at each shard and of the list of all shards, as
    /// `accept` does with its receipt. Whatever it does next at any shard stands after all that the
    /// other pass shows, at any shard. The other pass shows what it showed. It does not allocate,
    /// and does not wait.
    pub fn learn(&mut self, store: &ShardedStore, other: &mut ShardedPass)
        requires store { store_of self.old ≡ store.now }
        requires other { store_of other.old ≡ store.now }
        ensures accepted { AreAccepted self.old.shards (map seen_by other.old.shards)
            self.new.shards }
        ensures list { IsPrefix self.old.list self.new.list
            × IsPrefix other.old.list self.new.list }
        ensures one { (self.new.list ≡ self.old.list) ⊎ (self.new.list ≡ other.old.list) }
        ensures own { self.new.own ≡ self.old.own }
        ensures later { (k : ℕ) (deed : Option Deed) (w : PassShows) → IsListedAt k deed self.new w
            → IsDoneAfter other.old.list self.new w }
        ensures same { store_of self.new ≡ store.now }
        ensures unchanged { other.new ≡ other.old }
    {
        learn_all(&mut self.seats, &store.shards, &mut other.seats);
        let receipt = other.follower.receipt(&store.ledger);
        self.follower.accept(&store.ledger, receipt);
    }
}

/// The receipts of these seats, one after the other.
fn receipts_of(
    seats: &mut Vec<ShardSeat>,
    shards: &[Shard],
    receipts: &mut Vec<SeatReceipt>,
) -> Result<(), Fault>
    requires stores { seat_stores seats.old.items ≡ shards.now }
    requires none { receipts.old.items ≡ [] }
    ensures same { seats.new.items ≡ seats.old.items }
    ensures given { OnOk result (receipts.new.items ≡ map seen_seat seats.old.items) }
    ensures faults { IfErr result (λ e. e ≡ Fault.NoMemory) }
{
    for shard in 0..seats.len() {
        if receipts.reserve(1).is_err() {
            return Err(Fault::NoMemory);
        }
        let receipt = seats[shard].receipt(&shards[shard]);
        receipts.push_reserved(receipt);
    }
    Ok(())
}

/// Takes in each of these receipts, by the seat at its shard.
fn accept_all(seats: &mut Vec<ShardSeat>, shards: &[Shard], mut receipts: Vec<SeatReceipt>)
    requires stores { seat_stores seats.old.items ≡ shards.now }
    requires receipts { receipt_stores receipts.items ≡ shards.now }
    ensures { AreTaken IsSeatAccepted seats.old.items receipts.items seats.new.items }
{
    while let Some(receipt) = receipts.pop() {
        let shard = receipts.len();
        seats[shard].accept(&shards[shard], receipt);
    }
}

/// Takes in a receipt of each of the other seats, by the seat at its shard, the last first.
fn learn_all(seats: &mut Vec<ShardSeat>, shards: &[Shard], others: &mut Vec<ShardSeat>)
    requires stores { seat_stores seats.old.items ≡ shards.now }
    requires others { seat_stores others.old.items ≡ shards.now }
    ensures taken { AreTaken IsSeatAccepted seats.old.items (map seen_seat others.old.items)
        seats.new.items }
    ensures same { others.new.items ≡ others.old.items }
{
    for shard in 0..seats.len() {
        let receipt = others[shard].receipt(&shards[shard]);
        seats[shard].accept(&shards[shard], receipt);
    }
}
