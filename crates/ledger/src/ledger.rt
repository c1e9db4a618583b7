//! The ledger, its followers and its keepers.
ghost use Rattle.std.specs.Prelude.{◌≡◌, ◌⊎◌, ℕ, ◌+◌, ◌-◌, ◌<◌, ◌++◌, [], IfOk};
ghost use mathlib.Core.List.{IsPrefix};
ghost use Rattle.ledger.specs.Acts.{IsRecorded, acts_at, AreLegal, IsWithin, HasAll};
ghost use Rattle.ledger.specs.Acts.{AreApart, new_keepers};

use crate::steps::{
    ActChoice, JoinStep, KeeperStep, ObserveStep, ReceiptStep, RecordStep, SettleStep, SplitStep,
};
use crate::view::{Lawful, LedgerRule, Setup, View};
use atomic_table::{Badge, Table};
use std::alloc::{AllocError, Global};
use std::marker::{Brand, Model};
use std::mem;
use std::snapshot::Snapshot;

/// The word at 0 is never written, and there is no slot.
type LedgerTable<A> = Table<(), View<A>, Snapshot<Setup>, LedgerRule, Global>;

type TableSeat<A> = atomic_table::Seat<(), View<A>>;

/// One list of the acts of many shards, in proofs alone. A clause sees which ledger it is.
#[derive(Drop)]
pub struct Ledger<A: Lawful> {
    table: LedgerTable<A>,
    setup: Setup,
}

impl<A: Lawful> Model for Ledger<A> {
    ghost use Rattle.std.specs.Prelude.{◌≡◌};
    ghost use Rattle.ledger.specs.Acts.{LedgerState};

    ghost Value = { LedgerState };

    ghost view = { λ l. record { table = l.table.shared.table_id; setup = l.setup } };

    ghost invariant = { λ l. (l.table.shared.table_id.words ≡ 1)
        × (l.table.shared.table_id.slots ≡ 0) × (l.table.shared.key.value ≡ l.setup) };
}

/// A caller's token at a ledger. Its only bytes are a copy of the setup. Dropping it drops its
/// room, and then no other follower comes to a room of 64 again.
///
/// A clause sees the acts that it has seen, and the indices of those that it recorded itself.
#[derive(Drop)]
pub struct Follower<A: Lawful> {
    table_seat: TableSeat<A>,
    setup: Setup,
}

impl<A: Lawful> Model for Follower<A> {
    ghost use Rattle.ledger.specs.Acts.{FollowerState};

    ghost Value = { FollowerState A };

    ghost use Rattle.ledger.specs.Rule.{follower_state, IsFollower};

    ghost view = { λ f. follower_state f.table_seat.table_id f.setup f.table_seat.me };

    ghost invariant = { λ f. IsFollower (A.legal f.setup) f.table_seat.me };
}

/// A shard's token at a ledger. It has no bytes, and lies with the shard under the shard's lock.
///
/// A clause sees which shard it is of, and all acts of that shard.
#[derive(Drop)]
pub struct Keeper<A> {
    badge: Badge<View<A>>,
}

impl<A> Model for Keeper<A> {
    ghost use Rattle.ledger.specs.Acts.{KeeperState};

    ghost Value = { KeeperState A };

    ghost use Rattle.ledger.specs.Rule.{keeper_state, IsKeeper};

    ghost view = { λ k. keeper_state k.badge.table_id k.badge.views };

    ghost invariant = { λ k. IsKeeper k.badge.views };
}

/// All that a follower had seen when the receipt was made. It has no room, and its only bytes are a
/// copy of the setup.
#[derive(Drop)]
pub struct Receipt<A: Lawful> {
    table_seat: TableSeat<A>,
    setup: Setup,
}

impl<A: Lawful> Model for Receipt<A> {
    ghost use Rattle.ledger.specs.Acts.{ReceiptState};

    ghost Value = { ReceiptState A };

    ghost use Rattle.ledger.specs.Rule.{receipt_state, IsReceipt};

    ghost view = { λ r. receipt_state r.table_seat.table_id r.setup r.table_seat.me };

    ghost invariant = { λ r. IsReceipt (A.legal r.setup) r.table_seat.me };
}

impl<A: Lawful> Ledger<A> {
    /// Opens a ledger without acts. Its one follower has a room of 64. There is one keeper for each
    /// shard, in the order of the shards. `AllocError` if out of memory.
    pub fn open(
        alloc: Global,
        setup: Setup,
    ) -> Result<(Ledger<A>, Follower<A>, Vec<Keeper<A>>), AllocError>
        requires legal { (k : ℕ) → A.legal setup k [] }
        ensures setup { IfOk result (λ r. r.0.setup ≡ setup) }
        ensures follower { IfOk result
            (λ r. r.1 ≡ record { ledger = r.0; list = []; own = []; room = 64 }) }
        ensures keepers { IfOk result (λ r. r.2.items ≡ new_keepers r.0.table setup.count) }
    {
        let key = Snapshot::of(&setup);
        let count = setup.count;
        let (table, mut table_seat) = Table::of_words(alloc, &[0], &key)?;
        let mut keepers = Vec::with_capacity(alloc, count)?;
        for shard in 0..count {
            let _ = shard;
            let seat = table.shared.split_seat::<KeeperStep>(&mut table_seat);
            keepers.push_reserved(Keeper {
                badge: seat.into_badge(),
            });
        }
        let follower = Follower { table_seat, setup };
        Ok((Ledger { table, setup }, follower, keepers))
    }
}

impl<A: Lawful> Follower<A> {
    /// Makes a follower that has seen as much, has recorded nothing, and has a room of 1. The old
    /// one keeps one room less and shows what it showed.
    pub fn split(&mut self, ledger: &Ledger<A>) -> Follower<A>
        requires ledger { self.old.ledger ≡ ledger.now }
        requires room { 1 < self.old.room }
        ensures unchanged { self.new ≡ record self.old { room = self.old.room - 1 } }
        ensures given { result ≡ record self.old { own = []; room = 1 } }
    {
        let shared = &ledger.table.shared;
        let table_seat = shared.split_seat::<SplitStep>(&mut self.table_seat);
        Follower {
            table_seat,
            setup: ledger.setup,
        }
    }

    /// Takes in another follower, with its room and the indices of the acts that it recorded. The
    /// two had no index in common. Of the two lists the follower shows the one that begins with
    /// both.
    pub fn join(&mut self, ledger: &Ledger<A>, other: Follower<A>)
        requires ledger { (self.old.ledger ≡ ledger.now) × (other.ledger ≡ ledger.now) }
        ensures unchanged { (self.new.ledger ≡ self.old.ledger)
            × (self.new.room ≡ self.old.room + other.room) }
        ensures one { (self.new.list ≡ self.old.list) ⊎ (self.new.list ≡ other.list) }
        ensures seen { IsPrefix self.old.list self.new.list × IsPrefix other.list self.new.list }
        ensures own { self.new.own ≡ self.old.own ++ other.own }
        ensures apart { AreApart self.old.own other.own }
        ensures legal { AreLegal (A.legal ledger.now.setup) self.new.list }
        ensures lone { self.new.room ≡ 64 → HasAll self.new.list self.new.own }
    {
        let Follower {
            table_seat,
            setup: _,
        } = other;
        let shared = &ledger.table.shared;
        shared.join_seat::<JoinStep>(&mut self.table_seat, table_seat);
        shared.load::<SettleStep>(&mut self.table_seat, 0);
    }

    /// Records acts of the keeper's shard, which the caller's proof chooses. The acts of all shards
    /// stand in one list, which begins with all that the follower had seen and ends with these.
    /// What the follower recorded earlier stands before them.
    pub fn record<W: ActChoice<A>>(&mut self, ledger: &Ledger<A>, keeper: &mut Keeper<A>)
        requires ledger { (self.old.ledger ≡ ledger.now)
            × (keeper.old.ledger ≡ ledger.now.table) }
        requires setup { W.setup ≡ ledger.now.setup }
        requires legal { A.legal ledger.now.setup keeper.old.shard keeper.old.acts
            → A.legal ledger.now.setup keeper.old.shard (keeper.old.acts ++ W.acts) }
        ensures unchanged { (self.new.ledger ≡ self.old.ledger) × (self.new.room ≡ self.old.room) }
        ensures keeper { keeper.new
            ≡ record keeper.old { acts = keeper.old.acts ++ W.acts } }
        ensures recorded { IsRecorded self.old keeper.old W.acts self.new }
        ensures earlier { IsWithin self.old.list self.old.own }
        ensures legal { AreLegal (A.legal ledger.now.setup) self.new.list }
        ensures lone { self.new.room ≡ 64 → HasAll self.new.list self.new.own }
    {
        let shared = &ledger.table.shared;
        let badge = mem::replace(&mut keeper.badge, Badge::blank());
        shared.join_seat::<JoinStep>(&mut self.table_seat, badge.into_seat());
        shared.load::<RecordStep<W>>(&mut self.table_seat, 0);
        let seat = shared.split_seat::<KeeperStep>(&mut self.table_seat);
        keeper.badge = seat.into_badge();
    }

    /// Shows the follower all acts of all shards. Those of the keeper's shard are the keeper's. A
    /// follower with a room of 64 had seen them all.
    pub fn observe(&mut self, ledger: &Ledger<A>, keeper: &mut Keeper<A>)
        requires ledger { (self.old.ledger ≡ ledger.now)
            × (keeper.old.ledger ≡ ledger.now.table) }
        ensures unchanged { self.new ≡ record self.old { list = self.new.list } }
        ensures keeper { keeper.new ≡ keeper.old }
        ensures seen { IsPrefix self.old.list self.new.list }
        ensures acts { acts_at keeper.old.shard self.new.list ≡ keeper.old.acts }
        ensures legal { AreLegal (A.legal ledger.now.setup) self.new.list }
        ensures lone { self.old.room ≡ 64
            → (self.new ≡ self.old) × HasAll self.new.list self.new.own }
    {
        self.observe_with::<Brand>(ledger, keeper)
    }

    fn observe_with<W: ActChoice<A>>(&mut self, ledger: &Ledger<A>, keeper: &mut Keeper<A>)
        requires ledger { (self.old.ledger ≡ ledger.now)
            × (keeper.old.ledger ≡ ledger.now.table) }
        requires setup { W.setup ≡ ledger.now.setup }
        ensures unchanged { self.new ≡ record self.old { list = self.new.list } }
        ensures keeper { keeper.new ≡ keeper.old }
        ensures seen { IsPrefix self.old.list self.new.list }
        ensures acts { acts_at keeper.old.shard self.new.list ≡ keeper.old.acts }
        ensures legal { AreLegal (A.legal ledger.now.setup) self.new.list }
        ensures lone { self.old.room ≡ 64
            → (self.new ≡ self.old) × HasAll self.new.list self.new.own }
    {
        let shared = &ledger.table.shared;
        let badge = mem::replace(&mut keeper.badge, Badge::blank());
        shared.join_seat::<JoinStep>(&mut self.table_seat, badge.into_seat());
        shared.load::<ObserveStep<W>>(&mut self.table_seat, 0);
        let seat = shared.split_seat::<KeeperStep>(&mut self.table_seat);
        keeper.badge = seat.into_badge();
    }

    /// Makes a receipt of all that the follower has seen. The follower shows what it showed.
    pub fn receipt(&mut self, ledger: &Ledger<A>) -> Receipt<A>
        requires ledger { self.old.ledger ≡ ledger.now }
        ensures same { self.new ≡ self.old }
        ensures given { result ≡ record { ledger = self.old.ledger; list = self.old.list } }
    {
        let shared = &ledger.table.shared;
        let table_seat = shared.split_seat::<ReceiptStep>(&mut self.table_seat);
        Receipt {
            table_seat,
            setup: ledger.setup,
        }
    }

    /// Takes in a receipt. Of the two lists the follower shows the one that begins with both.
    pub fn accept(&mut self, ledger: &Ledger<A>, receipt: Receipt<A>)
        requires ledger { (self.old.ledger ≡ ledger.now) × (receipt.ledger ≡ ledger.now) }
        ensures unchanged { self.new ≡ record self.old { list = self.new.list } }
        ensures one { (self.new.list ≡ self.old.list) ⊎ (self.new.list ≡ receipt.list) }
        ensures seen { IsPrefix self.old.list self.new.list
            × IsPrefix receipt.list self.new.list }
        ensures lone { self.old.room ≡ 64 → HasAll self.new.list self.new.own }
    {
        let Receipt {
            table_seat,
            setup: _,
        } = receipt;
        let shared = &ledger.table.shared;
        shared.join_seat::<JoinStep>(&mut self.table_seat, table_seat);
        shared.load::<SettleStep>(&mut self.table_seat, 0);
    }
}
