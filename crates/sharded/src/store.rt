//! The shards, and the passes to them.
ghost use Rattle.std.specs.Prelude.{◌≡◌, ◌⊎◌, ◌↔◌, ◌≤◌, ◌<◌, [], length, map, All, IfOk, IfErr};
ghost use Rattle.history.specs.Log.{call_limit};
ghost use Rattle.one_map.specs.Hash.{shard_of};
ghost use Rattle.ledger.specs.Acts.{new_keepers};
ghost use Rattle.sharded.specs.Passes.{store_of, fresh_pass};
ghost use Rattle.sharded.specs.Seats.{AreOpened};

use book::{Fault, Limit, Name};
use ledger::{Follower, Keeper, Ledger, Setup};
use ledger_map::StoreAct;
use one_map::find_shard;
use sealed::Width;
use shard::{Shard, ShardSeat};
use std::alloc::Global;
use std::marker::Model;

/// Bytes between the memory of two shards. A processor fetches lines of 64 bytes, some in pairs, so
/// two shards less far apart could slow each other's threads.
const SPACER_BYTES: usize = 256;

/// A sharded store: from 1 to 64 stores, which share nothing but the list of their acts. That list
/// exists in proofs alone.
///
/// A clause sees which stores these are, in the order of the shards, and which ledger lists their
/// acts. Whoever drops it drops its blobs.
#[derive(Drop)]
pub struct ShardedStore {
    pub(crate) ledger: Ledger<StoreAct>,
    pub(crate) shards: Vec<Shard>,
    pub(crate) width: Width,
    /// Memory that no thread touches, allocated between the shards'.
    spacers: Vec<Vec<u8>>,
}

impl Model for ShardedStore {
    ghost use Rattle.std.specs.Prelude.{◌≡◌, All, length, ◌≤◌};
    ghost use Rattle.sharded.specs.Passes.{StoreShows};

    ghost Value = { StoreShows };

    ghost view = { λ s. record { shards = s.shards.items; ledger = s.ledger } };

    ghost invariant = { λ s. (1 ≤ length s.shards.items) × (length s.shards.items ≤ 64)
        × (length s.shards.items ≡ s.ledger.setup.count)
        × All (λ shard. shard.width ≡ s.width) s.shards.items };
}

/// A caller's seats, one at each shard. Its own calls at a shard are on names of this shard.
///
/// A clause sees what a pass shows at each shard, in the order of the shards. It sees a beginning
/// of the list of all shards' acts, and the indices in it of the pass's own. Whoever drops it drops
/// its room at every shard, and then no other pass comes to a room of 64 again.
#[derive(Drop)]
pub struct ShardedPass {
    pub(crate) seats: Vec<ShardSeat>,
    pub(crate) follower: Follower<StoreAct>,
}

impl Model for ShardedPass {
    ghost use Rattle.sharded.specs.Passes.{PassShows};
    ghost use Rattle.sharded.specs.Seats.{pass_shows, IsPassOf};

    ghost Value = { PassShows };

    ghost view = { λ p. pass_shows p.seats.items p.follower };

    ghost invariant = { λ p. IsPassOf p.seats.items p.follower };
}

impl ShardedStore {
    /// So many empty stores, and the one pass to them.
    ///
    /// The fragments have `width` bytes, and each shard's journal holds at most `limit` entries.
    /// The pass has the label 0, and at each shard a room of 64; it has seen and made no call.
    ///
    /// `BadWidth` if and only if the width is not in 1..=65,536; else `NoMemory` if out of memory.
    pub fn open(
        alloc: Global,
        count: usize,
        width: u32,
        limit: Limit,
    ) -> Result<(ShardedStore, ShardedPass), Fault>
        requires { (1 ≤ count) × (count ≤ 64) }
        ensures count { IfOk result (λ r. length r.0.shards ≡ count) }
        ensures stores { IfOk result
            (λ r. All (λ s. (s.width ≡ width) × (s.limit ≡ limit)) r.0.shards) }
        ensures passes { IfOk result (λ r. r.1.shards ≡ map fresh_pass r.0.shards) }
        ensures same { IfOk result (λ r. store_of r.1 ≡ r.0) }
        ensures list { IfOk result (λ r. (r.1.list ≡ []) × (r.1.own ≡ [])) }
        ensures bad_width { (result ≡ Err Fault.BadWidth) ↔ ((1 ≤ width) × (width ≤ 65536) → ⊥) }
        ensures faults { IfErr result (λ e. (e ≡ Fault.NoMemory) ⊎ (e ≡ Fault.BadWidth)) }
    {
        ShardedStore::open_with(alloc, count, width, Some(limit))
    }

    /// As `open`. Without a limit the shards have no journal: each counts its calls, of which it
    /// takes 2^62, and takes no memory for them. A clause sees them all.
    pub fn open_with(
        alloc: Global,
        count: usize,
        width: u32,
        limit: Option<Limit>,
    ) -> Result<(ShardedStore, ShardedPass), Fault>
        requires { (1 ≤ count) × (count ≤ 64) }
        ensures count { IfOk result (λ r. length r.0.shards ≡ count) }
        ensures stores { IfOk result
            (λ r. All (λ s. (s.width ≡ width) × (s.limit ≡ call_limit limit)) r.0.shards) }
        ensures passes { IfOk result (λ r. r.1.shards ≡ map fresh_pass r.0.shards) }
        ensures same { IfOk result (λ r. store_of r.1 ≡ r.0) }
        ensures list { IfOk result (λ r. (r.1.list ≡ []) × (r.1.own ≡ [])) }
        ensures bad_width { (result ≡ Err Fault.BadWidth) ↔ ((1 ≤ width) × (width ≤ 65536) → ⊥) }
        ensures faults { IfErr result (λ e. (e ≡ Fault.NoMemory) ⊎ (e ≡ Fault.BadWidth)) }
    {
        let Some(width) = Width::new(width) else {
            return Err(Fault::BadWidth);
        };
        let about = u64::from(width.get());
        let Ok((ledger, follower, keepers)) = Ledger::open(alloc, Setup { count, about }) else {
            return Err(Fault::NoMemory);
        };
        let (shards, seats, spacers) = open_shards(alloc, &ledger, keepers, width, &limit)?;
        let store = ShardedStore {
            ledger,
            shards,
            width,
            spacers,
        };
        Ok((store, ShardedPass { seats, follower }))
    }

    /// The shard of a name, from 0 on.
    pub fn find_shard(&self, name: &Name) -> usize
        ensures value { result ≡ shard_of (length self.now.shards) name.now }
        ensures below { result < length self.now.shards }
    {
        find_shard(name, self.shards.len())
    }

    /// How many shards there are: from 1 to 64.
    pub fn count_shards(&self) -> usize
        ensures value { result ≡ length self.now.shards }
        ensures range { (1 ≤ result) × (result ≤ 64) }
    {
        self.shards.len()
    }
}

/// Opens a shard for each of these keepers, the last first.
fn open_shards(
    alloc: Global,
    ledger: &Ledger<StoreAct>,
    mut keepers: Vec<Keeper<StoreAct>>,
    width: Width,
    limit: &Option<Limit>,
) -> Result<(Vec<Shard>, Vec<ShardSeat>, Vec<Vec<u8>>), Fault>
    requires keepers { keepers.items ≡ new_keepers ledger.now.table ledger.now.setup.count }
    ensures count { IfOk result (λ r. length r.0.items ≡ ledger.now.setup.count) }
    ensures stores { IfOk result
        (λ r. All (λ s. (s.width ≡ width) × (s.limit ≡ call_limit limit.now)) r.0.items) }
    ensures seats { IfOk result (λ r. AreOpened ledger.now.table 0 r.0.items r.1.items) }
    ensures faults { IfErr result (λ e. e ≡ Fault.NoMemory) }
{
    let mut shards = Vec::new(alloc);
    let mut seats = Vec::new(alloc);
    let mut spacers = Vec::new(alloc);
    while let Some(keeper) = keepers.pop() {
        let Ok(spacer) = Vec::with_capacity(alloc, SPACER_BYTES) else {
            return Err(Fault::NoMemory);
        };
        if spacers.push(spacer).is_err() {
            return Err(Fault::NoMemory);
        }
        if shards.reserve(1).is_err() {
            return Err(Fault::NoMemory);
        }
        if seats.reserve(1).is_err() {
            return Err(Fault::NoMemory);
        }
        let (shard, seat) = Shard::open(alloc, ledger, keeper, width, copy_of(limit))?;
        shards.push_reserved(shard);
        seats.push_reserved(seat);
    }
    shards.reverse();
    seats.reverse();
    Ok((shards, seats, spacers))
}

/// The same limit, if there is one.
fn copy_of(limit: &Option<Limit>) -> Option<Limit>
    ensures { result ≡ limit.now }
{
    match limit {
        Some(limit) => Some(*limit),
        None => None,
    }
}
