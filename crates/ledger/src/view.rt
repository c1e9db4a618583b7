//! What the seats of a ledger know, and the rule that they keep.
use atomic_table::TableRule;
use std::collections::LinkedList;
use std::snapshot::Snapshot;

/// What a ledger is opened with: how many shards there are, and a number that all of them share.
#[derive(Clone, Copy)]
pub struct Setup {
    pub count: usize,
    pub about: u64,
}

/// Which lists of acts a shard may have, by the setup and the shard. It has no call.
pub trait Lawful {
    ghost use Rattle.std.specs.Prelude.{ℕ, List};
    ghost use Rattle.ledger.specs.declared.view.Setup.{Setup};

    ghost legal: { Setup → ℕ → List Self → Type 0 };
}

/// An act, and the shard that it is of.
pub struct ShardAct<A> {
    pub shard: usize,
    pub act: A,
}

/// All acts of a shard, in their order.
pub struct ShardActs<A> {
    pub shard: usize,
    pub acts: LinkedList<A>,
}

/// The acts of all shards, as far as they were seen, and indices of this list.
pub struct Shown<A> {
    pub list: LinkedList<ShardAct<A>>,
    pub own: LinkedList<usize>,
}

/// What a seat knows. What a joined seat showed is `heard`, until a load has put it together with
/// `shown`. Of the shards in `kept` it knows all acts, and no other seat does. It exists in proofs
/// alone.
pub struct View<A> {
    pub shown: Shown<A>,
    pub heard: Shown<A>,
    pub room: u64,
    pub kept: LinkedList<ShardActs<A>>,
}

/// The rule that a ledger's table keeps at every moment.
pub struct LedgerRule;

impl<A: Lawful> TableRule<(), View<A>, Snapshot<Setup>> for LedgerRule {
    ghost use Rattle.ledger.specs.Rule.{Invariant, opening};

    ghost holds = { λ key. Invariant (A.legal key.value) key.value.count };

    ghost first = { λ key. opening key.value.count };
}
