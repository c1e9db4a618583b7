//! All seats together: how many more passes can be made, and the books once all are joined.
ghost use Rattle.std.specs.Prelude.{◌≡◌, ◌⊎◌, ℕ, ◌≤◌, ◌<◌, [], length, reverse, slice_get};
ghost use Rattle.std.specs.Prelude.{Some, IfOk, IfErr, vec_capacity};
ghost use Rattle.one_map.specs.OneMap.{IsLegalOneMap};
ghost use Rattle.ledger.specs.Acts.{HasAll};
ghost use Rattle.ledger_map.specs.Legal.{calls_of};
ghost use Rattle.shared.specs.Passes.{Shows};
ghost use Rattle.sharded.specs.Listings.{AreBeginnings, AreAllListed};
ghost use Rattle.sharded.specs.Passes.{store_of, AreLone, HaveLegalHistories, HaveWidth};
ghost use Rattle.sharded.specs.Interleavings.{HasOneMap, HasInterleaving};
ghost use Rattle.sharded.specs.Closings.{AreClosed};
ghost use Rattle.sharded.specs.Seats.{shows_of, seat_stores, pass_shows, IsPassOf};

use crate::{ShardedPass, ShardedStore};
use book::Book;
use ledger::{Follower, Ledger};
use ledger_map::StoreAct;
use shard::{Shard, ShardSeat};
use std::alloc::Global;

/// A store that could not be closed, as the list of its books was refused memory, and the pass to
/// it.
#[derive(Drop)]
pub struct CloseFault {
    pub store: ShardedStore,
    pub pass: ShardedPass,
}

impl ShardedPass {
    /// How many passes, with itself, can be made of it at the shard with the least room: at most
    /// 64. With 64 no other pass is out.
    ///
    /// The calls in the list of all shards' acts are a legal history of one map. What the pass
    /// shows at a shard is a beginning of the list's acts of that shard. In whatever other order
    /// the calls of different shards came, the replies that were seen are those of one object over
    /// one map.
    pub fn room(&self) -> u64
        ensures range { (1 ≤ result) × (result ≤ 64) }
        ensures least { (k : ℕ) (v : Shows) → slice_get self.now.shards k ≡ Some v
            → result ≤ v.room }
        ensures some { (result ≡ 64) ⊎ ((k : ℕ) × (v : Shows)
            × (slice_get self.now.shards k ≡ Some v) × (result ≡ v.room)) }
        ensures lone { result ≡ 64 → AreLone self.now.shards }
        ensures legal { HaveLegalHistories self.now.shards }
        ensures one_map { (w : ℕ) → 0 < length self.now.shards → HaveWidth w self.now.shards
            → HasOneMap w self.now.shards }
        ensures list { (w : ℕ) → 0 < length self.now.shards → HaveWidth w self.now.shards
            → IsLegalOneMap (length self.now.shards) w (calls_of self.now.list) }
        ensures beginnings { AreBeginnings self.now }
    {
        find_least_room(&self.seats)
    }
}

impl ShardedStore {
    /// The book of each shard, in the order of the shards, once all passes are joined.
    ///
    /// A book represents the history that the pass has seen at its shard. Each call and each trim
    /// in it was made by this pass or by one that it joined, so each call is on a name of this
    /// shard. The list of all shards has just these acts, each at an index of the pass.
    ///
    /// The store and the pass come back if the list of the books is refused memory.
    pub fn close(self, alloc: Global, pass: ShardedPass) -> Result<Vec<Book>, CloseFault>
        requires store { store_of pass ≡ self }
        requires lone { AreLone pass.shards }
        ensures closed { IfOk result (λ books. AreClosed pass.shards books.items) }
        ensures list { IfOk result (λ _. HasAll pass.list pass.own × AreAllListed pass) }
        ensures interleaving { IfOk result (λ _. HasInterleaving pass.shards) }
        ensures one_map { IfOk result
            (λ _. (w : ℕ) → HaveWidth w pass.shards → HasOneMap w pass.shards) }
        ensures err { IfErr result (λ n. (n.store ≡ self) × (n.pass ≡ pass)) }
    {
        match self.take_books(alloc, pass) {
            Ok(books) => Ok(books),
            Err(pass) => Err(CloseFault { store: self, pass }),
        }
    }

    /// As `close`, for a store that is shared. No other pass is left, so nobody calls it again. The
    /// pass comes back if the list of the books is refused memory, and the store is then as it was.
    pub fn take_books(&self, alloc: Global, pass: ShardedPass) -> Result<Vec<Book>, ShardedPass>
        requires store { store_of pass ≡ self.now }
        requires lone { AreLone pass.shards }
        ensures closed { IfOk result (λ books. AreClosed pass.shards books.items) }
        ensures list { IfOk result (λ _. HasAll pass.list pass.own × AreAllListed pass) }
        ensures interleaving { IfOk result (λ _. HasInterleaving pass.shards) }
        ensures one_map { IfOk result
            (λ _. (w : ℕ) → HaveWidth w pass.shards → HasOneMap w pass.shards) }
        ensures err { IfErr result (λ p. p ≡ pass) }
    {
        let Ok(mut books) = Vec::with_capacity(alloc, self.shards.len()) else {
            return Err(pass);
        };
        let ShardedPass {
            seats,
            mut follower,
        } = pass;
        take_all(&self.ledger, &self.shards, seats, &mut follower, &mut books);
        books.reverse();
        Ok(books)
    }
}

/// The least room of these, at most 64.
fn find_least_room(seats: &[ShardSeat]) -> u64
    ensures range { (1 ≤ result) × (result ≤ 64) }
    ensures least { (k : ℕ) (v : Shows) → slice_get (shows_of seats.now) k ≡ Some v
        → result ≤ v.room }
    ensures some { (result ≡ 64) ⊎ ((k : ℕ) × (v : Shows)
        × (slice_get (shows_of seats.now) k ≡ Some v) × (result ≡ v.room)) }
    ensures lone { result ≡ 64 → AreLone (shows_of seats.now) }
    ensures legal { HaveLegalHistories (shows_of seats.now) }
{
    let mut least = 64;
    for seat in seats {
        // What a seat has seen is a legal history.
        let _who = seat.who();
        least = least.min(seat.room());
    }
    least
}

/// Takes the books of these shards, the last first.
fn take_all(
    ledger: &Ledger<StoreAct>,
    shards: &[Shard],
    mut seats: Vec<ShardSeat>,
    follower: &mut Follower<StoreAct>,
    books: &mut Vec<Book>,
)
    requires stores { seat_stores seats.items ≡ shards.now }
    requires some { 0 < length seats.items }
    requires lone { AreLone (shows_of seats.items) }
    requires seats { IsPassOf seats.items follower.old }
    requires ledger { follower.old.ledger ≡ ledger.now }
    requires none { books.old.items ≡ [] }
    requires room { length shards.now ≤ vec_capacity books.old }
    ensures closed { AreClosed (shows_of seats.items) (reverse books.new.items) }
    ensures all { HasAll follower.old.list follower.old.own }
    ensures listed { AreAllListed (pass_shows seats.items follower.old) }
{
    while let Some(seat) = seats.pop() {
        let shard = &shards[seats.len()];
        books.push_reserved(shard.take_book(ledger, seat, follower));
    }
}
