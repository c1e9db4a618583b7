//! Mending a sharded store. A scrub plans what is lost at all shards, and any number of workers
//! draw the plan's tickets and repair by name. Tickets, results and reports are those of `mender`.

ghost use Rattle.std.specs.Prelude.{◌≡◌, ◌⊎◌, ◌^◌, [], length, IfOk, IfErr, OnOk, OnErr};
ghost use Rattle.std.specs.Vec.{vec_capacity};
ghost use Rattle.book.specs.Holds.{IsCallFault};
ghost use Rattle.mender.specs.Drawn.{IsIntact};
ghost use Rattle.mender.specs.Worked.{Finished, AreInOrder};
ghost use Rattle.sharded.specs.Passes.{store_of};
ghost use Rattle.sharded.specs.StepsTo.{AreSteps, AreFirstSteps, HasLooked, lost_in_all};
ghost use Rattle.sharded.specs.Repairs.{IsPassTo, IsRepairedAt, AreRepaired};
ghost use Rattle.sharded.specs.Repairs.{IsStopped, HasRoomInHand};

use crate::{ShardedPass, ShardedStore};
use book::{Answer, Fault, Item, Plan};
use mender::{Done, Drawer, Mends, Tickets, WorkFault, repair_drawn};
use named_calls::Waits;
use std::alloc::Global;
use std::sync::Wait;

/// The plan of what is lost at all shards, undrawn tickets for it, and the one drawer for them. It
/// is no call of a history, of which the pass may have seen more.
///
/// `NoMemory` if out of memory.
pub fn scrub<R: Wait>(
    rt: &R,
    alloc: Global,
    store: &ShardedStore,
    pass: &mut ShardedPass,
) -> Result<(Plan, Tickets, Drawer), Fault>
    requires { store_of pass.old ≡ store.now }
    ensures ok { OnOk result (AreSteps HasLooked pass.old.shards pass.new.shards) }
    ensures err { OnErr result (AreFirstSteps HasLooked pass.old.shards pass.new.shards) }
    ensures plan { IfOk result (λ r. r.0.items.items ≡ lost_in_all pass.new.shards) }
    ensures drawer { IfOk result
        (λ r. r.2 ≡ record { tickets = r.1; allowance = 2 ^ 40; drawn = [] }) }
    ensures same { store_of pass.new ≡ store.now }
    ensures faults { IfErr result (λ e. e ≡ Fault.NoMemory) }
{
    let plan = store.plan(rt, alloc, pass)?;
    let (tickets, drawer) = Tickets::open(alloc)?;
    Ok((plan, tickets, drawer))
}

/// Draws tickets and repairs the item of each at the shard of its name, until a ticket is not below
/// the plan's length or the allowance is 0.
///
/// Each ticket below the plan's length that was drawn in this call has one result, with the answer
/// of the one repair that was made for it. The tickets rise, so the items are repaired in the
/// plan's order. A worker whose drawer has the whole allowance repairs the plan's items from the
/// first on.
///
/// `JournalFull` if the journal of an item's shard held as many entries as its limit. `NoMemory` if
/// there is no memory for one more result, or for a repair of which its shard's journal had room.
/// The fault has the results so far. The ticket drawn last has none, and its repair was not made.
pub fn work<R: Wait>(
    rt: &R,
    alloc: Global,
    store: &ShardedStore,
    pass: &mut ShardedPass,
    plan: &Plan,
    tickets: &Tickets,
    drawer: &mut Drawer,
) -> Result<Vec<Done>, WorkFault>
    requires store { store_of pass.old ≡ store.now }
    requires tickets { drawer.old.tickets ≡ tickets.now }
    ensures ok { IfOk result
        (λ done. Finished plan.now.items.items drawer.old drawer.new done.items) }
    ensures repaired { IfOk result
        (λ done. AreRepaired pass.old.shards done.items pass.new.shards) }
    ensures err { IfErr result (λ stop. IsStopped plan.now.items.items drawer.old drawer.new
        pass.old.shards stop.done.items stop.fault pass.new.shards) }
    ensures in_order { IfOk result
        (λ done. IsIntact drawer.old → AreInOrder plan.now.items.items done.items) }
    ensures in_order_by_then { IfErr result
        (λ stop. IsIntact drawer.old → AreInOrder plan.now.items.items stop.done.items) }
    ensures faults { IfErr result (λ stop. IsCallFault stop.fault) }
    ensures no_memory { IfErr result (λ stop. stop.fault ≡ Fault.NoMemory
        → HasRoomInHand plan.now.items.items drawer.new pass.new.shards
        ⊎ (vec_capacity stop.done ≡ length stop.done.items)) }
    ensures same { store_of pass.new ≡ store.now }
{
    repair_drawn(rt, alloc, store, pass, plan, tickets, drawer)
}

impl Mends for ShardedStore {
    type Pass = ShardedPass;

    ghost belongs = { IsPassTo };

    ghost repaired = { IsRepairedAt };

    fn repair_item<R: Wait>(
        &self,
        rt: &R,
        alloc: Global,
        pass: &mut ShardedPass,
        item: &Item,
    ) -> Result<Answer, Fault> {
        let (name, fragment) = (item.name.duplicate(), u64::from(item.f));
        self.repair(rt, alloc, pass, name, item.stripe, fragment)
    }
}
