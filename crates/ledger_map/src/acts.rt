//! The acts of a store, as a ledger has them.
use gate::{Follows, Visit};
use ledger::{Changes, Lawful};
use requests::BoxedBook;
use std::marker::Model;

/// A call or a trim, as a clause sees it. No code makes a value of this type.
pub struct StoreAct {
    discarded: u64,
}

impl Model for StoreAct {
    ghost use Rattle.book.specs.Serial.{Act, trim};

    ghost Value = { Act };

    ghost view = { λ a. trim a.discarded };
}

impl Lawful for StoreAct {
    ghost use Rattle.ledger_map.specs.Legal.{AreActsOfShard};

    ghost legal = { AreActsOfShard };
}

/// A book under a shard's lock.
#[derive(Drop)]
pub struct ShardBook(pub BoxedBook);

impl Follows for ShardBook {
    ghost use Rattle.requests.specs.Between.{MayFollow};

    ghost follows = { λ a b. MayFollow a.0.0.value b.0.0.value };
}

impl Changes<StoreAct> for ShardBook {
    ghost use Rattle.requests.specs.Between.{acts_between};

    ghost between = { λ a b. acts_between a.0.0.value b.0.0.value };
}

/// Work on a book, which is done on a book under a shard's lock.
#[derive(Drop)]
pub struct OnShard<V>(pub V);

impl<V: Visit<BoxedBook>> Visit<ShardBook> for OnShard<V> {
    type Reply = V::Reply;

    ghost can = { λ w x. V.can w.0 x.0 };

    ghost does = { λ w x y reply. V.does w.0 x.0 y.0 reply };

    fn visit(self, value: &mut ShardBook) -> V::Reply {
        let OnShard(work) = self;
        work.visit(&mut value.0)
    }
}
