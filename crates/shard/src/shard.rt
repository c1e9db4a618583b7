//! The book of a shard behind its lock, beside the keeper of its acts.
ghost use Rattle.std.specs.Prelude.{◌≡◌, ◌+◌, ◌<◌, ℕ, [], Some, length, IfOk, IfErr};
ghost use Rattle.gate.specs.Places.{times};
ghost use Rattle.history.specs.Log.{call_limit};
ghost use Rattle.book.specs.Holds.{HoldsHistory};
ghost use Rattle.shared.specs.Passes.{IsConsistent};
ghost use mathlib.Core.List.{IsPrefix};
ghost use Rattle.ledger.specs.Acts.{acts_at, HasAll};
ghost use Rattle.shard.specs.Seats.{IsSeatOf, fresh_shows};

use crate::ShardSeat;
use book::{Book, Fault, Limit};
use gate::Gate;
use ledger::{Follower, Held, Keeper, Ledger};
use ledger_map::{ShardBook, StoreAct};
use requests::BoxedBook;
use sealed::Width;
use std::alloc::Global;
use std::marker::Model;

/// A shard. A clause sees which gate it is, the width of its blobs, and the limit of its journal,
/// which is 2^62 if it has none. Dropping it drops its blobs.
#[derive(Drop)]
pub struct Shard {
    pub(crate) gate: Gate<Held<ShardBook, StoreAct>>,
    pub(crate) width: Width,
    limit: u64,
}

impl Model for Shard {
    ghost use Rattle.shared.specs.Passes.{Which};

    ghost Value = { Which };

    ghost view = { λ s. record { table = s.gate; width = s.width; limit = s.limit } };
}

impl Shard {
    /// An empty shard, with a keeper that has recorded nothing. Without a limit it has no journal.
    /// The one seat at it has the label 0 and a room of 64, and has seen and made no call.
    ///
    /// `NoMemory` if out of memory, and then the keeper is dropped.
    pub fn open(
        alloc: Global,
        ledger: &Ledger<StoreAct>,
        keeper: Keeper<StoreAct>,
        width: Width,
        limit: Option<Limit>,
    ) -> Result<(Shard, ShardSeat), Fault>
        requires ledger { keeper.ledger ≡ ledger.now.table }
        requires none { keeper.acts ≡ [] }
        ensures shard { IfOk result (λ r. (r.0.width ≡ width) × (r.0.limit ≡ call_limit limit)) }
        ensures seat { IfOk result (λ r. r.1.shows ≡ fresh_shows r.0) }
        ensures at { IfOk result
            (λ r. (r.1.ledger ≡ Some ledger.now.table) × (r.1.shard ≡ keeper.shard)) }
        ensures faults { IfErr result (λ e. e ≡ Fault.NoMemory) }
    {
        let Ok(book) = Book::with_limit(alloc, width, limit) else {
            return Err(Fault::NoMemory);
        };
        let limit = book.call_limit();
        let Ok(kept) = BoxedBook::boxed(alloc, book) else {
            return Err(Fault::NoMemory);
        };
        let Ok((gate, seat)) = ledger.open_gate(alloc, keeper, ShardBook(kept)) else {
            return Err(Fault::NoMemory);
        };
        let shard = Shard { gate, width, limit };
        Ok((shard, ShardSeat { seat, who: 0 }))
    }

    /// Gives the book of a shard that may be shared, once all seats are joined, as
    /// `Store::take_book` does. Nobody calls the shard again. The follower sees the list of all
    /// shards whole, if it has a room of 64: it then had seen it whole, and recorded each act of
    /// it. The acts of this shard in it are those that the seat shows.
    pub fn take_book(
        &self,
        ledger: &Ledger<StoreAct>,
        seat: ShardSeat,
        follower: &mut Follower<StoreAct>,
    ) -> Book
        requires shard { seat.shows.store ≡ self.now }
        requires lone { seat.shows.room ≡ 64 }
        requires at { IsSeatOf ledger.now seat }
        requires ledger { (follower.old.ledger ≡ ledger.now) × (follower.old.room ≡ 64) }
        ensures holds { HoldsHistory result seat.shows.seen }
        ensures made { (k : ℕ) → k < length seat.shows.seen → times k seat.shows.made ≡ 1 }
        ensures count { length seat.shows.made ≡ length seat.shows.seen }
        ensures trimmed { result.base.trimmed ≡ seat.shows.trimmed }
        ensures agrees { IsConsistent seat.shows }
        ensures did { (k : ℕ) → k < length seat.shows.acts → times k seat.shows.did ≡ 1 }
        ensures did_count { length seat.shows.did ≡ length seat.shows.acts }
        ensures entries { result.base.trimmed + length result.entries ≡ length seat.shows.made }
        ensures unchanged { (result.width ≡ self.now.width) × (result.limit ≡ self.now.limit) }
        ensures follower { follower.new ≡ follower.old }
        ensures all { HasAll follower.old.list follower.old.own }
        ensures acts { acts_at seat.shard follower.old.list ≡ seat.shows.acts }
    {
        let ShardSeat { seat, who: _ } = seat;
        let ShardBook(BoxedBook(book)) = ledger.take_value(&self.gate, seat, follower);
        Box::into_inner(book)
    }
}
