//! Passes to all shards, split and joined shard by shard.
ghost use Rattle.std.specs.Prelude.{◌≡◌, ◌⊎◌, ◌↔◌, ◌+◌, ◌-◌, ◌++◌, [], map};
ghost use Rattle.std.specs.Prelude.{IfOk, IfErr, OnOk, OnErr};
ghost use mathlib.Core.List.{IsPrefix};
ghost use Rattle.sharded.specs.Listings.{listing};
ghost use Rattle.sharded.specs.Passes.{store_of, kept_in_split, given_in_split};
ghost use Rattle.sharded.specs.Passes.{HaveRoomAgain, AreJoined, AreTaken};
ghost use Rattle.sharded.specs.Passes.{HasRoomOfOne};
ghost use Rattle.sharded.specs.Seats.{shows_of, seat_stores, kept_seat, given_seat, AreSeatsInPart};
ghost use Rattle.sharded.specs.Seats.{IsSeatJoined};

use crate::{ShardedPass, ShardedStore};
use book::Fault;
use shard::{Shard, ShardSeat};
use std::alloc::Global;

impl ShardedPass {
    /// A new pass with this label, for another caller.
    ///
    /// At each shard it has seen as much as this one, has made no call and has a room of 1. This
    /// pass keeps one room less at each, and shows what it showed. Both show the same list of all
    /// shards' acts.
    ///
    /// `NoPass` if the room at some shard is 1; else `NoMemory` if out of memory. After either this
    /// pass has the room that it had, and shows at least what it showed.
    pub fn split(
        &mut self,
        alloc: Global,
        store: &ShardedStore,
        who: u32,
    ) -> Result<ShardedPass, Fault>
        requires { store_of self.old ≡ store.now }
        ensures unchanged { OnOk result (self.new.shards ≡ map kept_in_split self.old.shards) }
        ensures given { IfOk result
            (λ p. p.shards ≡ map (given_in_split who) self.old.shards) }
        ensures list { listing self.new ≡ listing self.old }
        ensures given_list { IfOk result (λ p. (p.list ≡ self.old.list) × (p.own ≡ [])) }
        ensures no_pass { (result ≡ Err Fault.NoPass) ↔ HasRoomOfOne self.old.shards }
        ensures same { store_of self.new ≡ store.now }
        ensures given_same { IfOk result (λ p. store_of p ≡ store.now) }
        ensures faults { IfErr result (λ e. (e ≡ Fault.NoMemory) ⊎ (e ≡ Fault.NoPass)) }
        ensures err { OnErr result (HaveRoomAgain self.old.shards self.new.shards) }
    {
        if self.room() <= 1 {
            return Err(Fault::NoPass);
        }
        let mut given = Vec::new(alloc);
        match split_all(&mut self.seats, &store.shards, who, &mut given) {
            Ok(()) => {
                let follower = self.follower.split(&store.ledger);
                Ok(ShardedPass {
                    seats: given,
                    follower,
                })
            }
            Err(fault) => {
                join_all(&mut self.seats, &store.shards, given);
                Err(fault)
            }
        }
    }

    /// Takes in another pass, at each shard with its room and the calls that it made, as
    /// `Pass::join` does. Of the two lists of all shards' acts it shows the one that begins with
    /// both. It does not allocate.
    pub fn join(&mut self, store: &ShardedStore, other: ShardedPass)
        requires store { store_of self.old ≡ store.now }
        requires other { store_of other ≡ store.now }
        ensures joined { AreJoined self.old.shards other.shards self.new.shards }
        ensures list { IsPrefix self.old.list self.new.list × IsPrefix other.list self.new.list }
        ensures one { (self.new.list ≡ self.old.list) ⊎ (self.new.list ≡ other.list) }
        ensures own { self.new.own ≡ self.old.own ++ other.own }
        ensures same { store_of self.new ≡ store.now }
    {
        let ShardedPass { seats, follower } = other;
        join_all(&mut self.seats, &store.shards, seats);
        self.follower.join(&store.ledger, follower);
    }
}

/// Splits these seats, one after the other. After a fault the first were split.
fn split_all(
    seats: &mut Vec<ShardSeat>,
    shards: &[Shard],
    who: u32,
    given: &mut Vec<ShardSeat>,
) -> Result<(), Fault>
    requires stores { seat_stores seats.old.items ≡ shards.now }
    requires none { given.old.items ≡ [] }
    ensures unchanged { OnOk result (seats.new.items ≡ map kept_seat seats.old.items) }
    ensures given { OnOk result (given.new.items ≡ map (given_seat who) seats.old.items) }
    ensures err { OnErr result
        (AreSeatsInPart who seats.old.items seats.new.items given.new.items) }
    ensures no_pass { result ≡ Err Fault.NoPass → HasRoomOfOne (shows_of seats.old.items) }
    ensures faults { IfErr result (λ e. (e ≡ Fault.NoMemory) ⊎ (e ≡ Fault.NoPass)) }
{
    for shard in 0..seats.len() {
        if given.reserve(1).is_err() {
            return Err(Fault::NoMemory);
        }
        let own = &mut seats[shard];
        if own.room() <= 1 {
            return Err(Fault::NoPass);
        }
        let seat = own.split(&shards[shard], who)?;
        given.push_reserved(seat);
    }
    Ok(())
}

/// Joins each of these seats to the one of its shard.
fn join_all(seats: &mut Vec<ShardSeat>, shards: &[Shard], mut others: Vec<ShardSeat>)
    requires stores { seat_stores seats.old.items ≡ shards.now }
    requires others { IsPrefix (seat_stores others.items) shards.now }
    ensures { AreTaken IsSeatJoined seats.old.items others.items seats.new.items }
{
    while let Some(other) = others.pop() {
        let shard = others.len();
        seats[shard].join(&shards[shard], other);
    }
}
