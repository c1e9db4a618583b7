//! Workers who draw the tickets of a plan and mend its items.
ghost use Rattle.std.specs.Prelude.{◌≡◌, ◌⊎◌, ◌≤◌, ◌^◌, [], length, None, IfOk, IfErr};
ghost use Rattle.std.specs.Vec.{vec_capacity};
ghost use Rattle.history.specs.History.{state_of};
ghost use Rattle.book.specs.Plan.{plan_of};
ghost use Rattle.book.specs.Holds.{IsCallFault};
ghost use Rattle.shared.specs.Deeds.{Takes};
ghost use Rattle.shared.specs.Calls.{HasJournalRoom};
ghost use Rattle.mender.specs.Drawn.{IsIntact};
ghost use Rattle.mender.specs.Worked.{Finished, Stopped, StoppedFull, IfFull, AreInOrder};
ghost use Rattle.mender.specs.Worked.{AreMended};
ghost use Rattle.mender.specs.Made.{AreMade, IsHalted};

use crate::{Done, Drawer, Mends, Tickets, WorkFault};
use book::{Fault, Plan};
use shared::{Pass, Store};
use std::alloc::Global;
use std::sync::Wait;

/// The plan of the lost fragments, tickets for it of which none is drawn, and the one drawer for
/// them. It is no call of the history. The pass may have seen more of the history.
///
/// `NoMemory` if out of memory.
pub fn scrub<R: Wait>(
    rt: &R,
    alloc: Global,
    store: &Store,
    pass: &mut Pass,
) -> Result<(Plan, Tickets, Drawer), Fault>
    requires { pass.old.store ≡ store.now }
    ensures takes { Takes pass.old None pass.new }
    ensures plan { IfOk result (λ r. r.0.items.items ≡ plan_of (state_of pass.new.seen)) }
    ensures drawer { IfOk result
        (λ r. r.2 ≡ record { tickets = r.1; allowance = 2 ^ 40; drawn = [] }) }
    ensures faults { IfErr result (λ e. e ≡ Fault.NoMemory) }
{
    let plan = store.plan(rt, alloc, pass)?;
    let (tickets, drawer) = Tickets::open(alloc)?;
    Ok((plan, tickets, drawer))
}

/// Draws tickets and repairs the item of each, until a ticket is past the plan's end or the
/// allowance is 0. Each ticket of the plan that was drawn in this call has one result, with the
/// answer of the one repair that was made for it. The tickets rise, so the items are repaired in
/// the plan's order. A worker whose drawer has the whole allowance repairs the plan's items from
/// the first on.
///
/// `JournalFull` if a repair found as many entries in the journal as its limit. `NoMemory` if there
/// is no memory for one more result, or for a repair of which the journal had room. The fault has
/// the results so far. The ticket drawn last has none, and its repair was not made.
pub fn work<R: Wait>(
    rt: &R,
    alloc: Global,
    store: &Store,
    pass: &mut Pass,
    plan: &Plan,
    tickets: &Tickets,
    drawer: &mut Drawer,
) -> Result<Vec<Done>, WorkFault>
    requires store { pass.old.store ≡ store.now }
    requires tickets { drawer.old.tickets ≡ tickets.now }
    ensures ok { IfOk result
        (λ done. Finished plan.now.items.items drawer.old drawer.new done.items) }
    ensures mended { IfOk result (λ done. AreMended pass.old done.items pass.new) }
    ensures err { IfErr result
        (λ stop. Stopped plan.now.items.items drawer.old drawer.new stop.done.items) }
    ensures mended_by_then { IfErr result (λ stop. AreMended pass.old stop.done.items pass.new) }
    ensures faults { IfErr result (λ stop. IsCallFault stop.fault) }
    ensures full { IfErr result
        (λ stop. stop.fault ≡ Fault.JournalFull → pass.new.store.limit ≤ length pass.new.seen) }
    ensures in_order { IfOk result
        (λ done. IsIntact drawer.old → AreInOrder plan.now.items.items done.items) }
    ensures in_order_by_then { IfErr result
        (λ stop. IsIntact drawer.old → AreInOrder plan.now.items.items stop.done.items) }
    ensures no_memory { IfErr result (λ stop. stop.fault ≡ Fault.NoMemory
        → HasJournalRoom pass.new ⊎ (vec_capacity stop.done ≡ length stop.done.items)) }
    ensures stopped_full { IfErr result (λ stop. IfFull stop.fault (StoppedFull plan.now.items.items
        drawer.old drawer.new pass.old stop.done.items pass.new)) }
{
    repair_drawn(rt, alloc, store, pass, plan, tickets, drawer)
}

/// Draws tickets and repairs the item of each in any store, as `work` does in a `Store`.
pub fn repair_drawn<R: Wait, S: Mends>(
    rt: &R,
    alloc: Global,
    store: &S,
    pass: &mut S::Pass,
    plan: &Plan,
    tickets: &Tickets,
    drawer: &mut Drawer,
) -> Result<Vec<Done>, WorkFault>
    requires store { S.belongs store.now pass.old }
    requires tickets { drawer.old.tickets ≡ tickets.now }
    ensures ok { IfOk result
        (λ done. Finished plan.now.items.items drawer.old drawer.new done.items) }
    ensures made { IfOk result (λ done. AreMade S.repaired pass.old done.items pass.new) }
    ensures err { IfErr result (λ stop. IsHalted S.repaired plan.now.items.items
        drawer.old drawer.new pass.old stop pass.new) }
    ensures in_order { IfOk result
        (λ done. IsIntact drawer.old → AreInOrder plan.now.items.items done.items) }
    ensures in_order_by_then { IfErr result
        (λ stop. IsIntact drawer.old → AreInOrder plan.now.items.items stop.done.items) }
    ensures faults { IfErr result (λ stop. IsCallFault stop.fault) }
    ensures belongs { S.belongs store.now pass.new }
{
    let mut done = Vec::new(alloc);
    while let Some(ticket) = tickets.draw(drawer) {
        let Some(item) = plan.items.get(ticket as usize) else {
            return Ok(done);
        };
        if done.reserve(1).is_err() {
            return Err(WorkFault {
                fault: Fault::NoMemory,
                done,
            });
        }
        match store.repair_item(rt, alloc, pass, item) {
            Ok(answer) => done.push_reserved(Done {
                ticket,
                item: item.duplicate(),
                answer,
            }),
            Err(fault) => return Err(WorkFault { fault, done }),
        }
    }
    Ok(done)
}
