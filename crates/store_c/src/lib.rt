//! The store for C: `include/lrc_store.h` declares these functions.
//!
//! C lends a slot to each call. A call checks its arguments and returns a status. If the status
//! does not say that something was done, the slots and all outputs are unchanged. Each call states
//! its whole contract, also where two, as a loss and a repair, differ in one word.
#![tactic(auto)]

mod answers;
mod buffers;
mod calls;
mod items;
mod journal;
mod lending;
mod numbers;
mod places;
mod repairs;
mod sessions;
mod shards;
mod status;
mod versions;
mod whole;

ghost use Rattle.std.specs.Prelude.{◌≡◌, None};
ghost use Rattle.history.specs.Step.{lose as lose_of, repair as repair_of, delete as delete_of};
ghost use Rattle.store_c.specs.OnSession.{IsOnSession, IsNamedCall, IsPutCall, IsReadCall};
ghost use Rattle.store_c.specs.OnSession.{IsStatCall, IsTrimCall, IsTrimPartCall};
ghost use Rattle.store_c.specs.Buffers.{IsReserveCall, IsBufferCall, IsPutFrom};
ghost use Rattle.store_c.specs.Get.{IsGetTo};
ghost use Rattle.store_c.specs.Hold.{IsHoldCall};
ghost use Rattle.store_c.specs.Restore.{MayRestore, IsRestoreCall};
ghost use Rattle.store_c.specs.Items.{IsItemsCall};
ghost use Rattle.store_c.specs.Journal.{IsCloseToCall, IsEntryCall};
ghost use Rattle.store_c.specs.Lend.{IsLendTo, IsSlicesCall, IsRunsCall};
ghost use Rattle.store_c.specs.Numbers.{IsNumbersCall};
ghost use Rattle.store_c.specs.Plan.{IsPlanTo, IsPlanPartTo, IsMendCall, IsSkipCall};
ghost use Rattle.store_c.specs.Sessions.{IsOpenCall, IsUnjournaledCall, IsSplitCall, IsJoinCall};
ghost use Rattle.store_c.specs.Sessions.{AreOfOneStore, IsLearnCall, IsCloseCall, IsNumberCall};
ghost use Rattle.store_c.specs.Shards.{IsShardCall};
ghost use Rattle.store_c.specs.Versions.{IsShapeCall, IsLostCall, IsFragmentCall};
ghost use Rattle.store_c.specs.Versions.{IsCopyCall, IsRangeCall};

use crate::items::PlanItem;
use crate::journal::JournalEntry;
use crate::numbers::StoreNumbers;
use crate::status::{DONE, EMPTY, OCCUPIED};
use crate::versions::VersionShape;
use session::{Held, LentBuffer, LentSlice, Slot};
use std::alloc::Global;

/// Runs an expression with the session in a slot, and gives its status. If the slot holds no
/// session, the status is `EMPTY`.
macro_rules! with_session {
    ($alloc:ident, $slot:ident, $session:ident => $status:expr) => {{
        let Some(mut held) = $slot.take($alloc) else {
            return EMPTY;
        };
        let status = match &mut *held {
            Some(Held::Session { session: $session, .. }) => $status,
            _ => EMPTY,
        };
        $slot.put(held);
        status
    }};
}

/// Opens a store whose fragments have `width` bytes and whose journal holds at most `limit`
/// entries. It puts the first session into an empty slot. `lrc_store_join` tells stores apart by
/// their `number`s.
#[unsafe(no_mangle)]
pub extern "C" fn lrc_store_open(
    alloc: Global,
    width: u32,
    limit: u32,
    number: u64,
    slot: &mut Slot,
) -> u32
    ensures { IsOpenCall slot.old.held width limit number result slot.new.held }
{
    if !slot.is_vacant(alloc) {
        return OCCUPIED;
    }
    sessions::open(alloc, width, limit, number, slot)
}

/// Opens a store without a journal, and puts the first session into an empty slot, as
/// `lrc_store_open` does.
#[unsafe(no_mangle)]
pub extern "C" fn lrc_store_open_unjournaled(
    alloc: Global,
    width: u32,
    number: u64,
    slot: &mut Slot,
) -> u32
    ensures { IsUnjournaledCall slot.old.held width number result slot.new.held }
{
    if !slot.is_vacant(alloc) {
        return OCCUPIED;
    }
    sessions::open_with(alloc, width, None, number, slot)
}

/// Splits a session off the slot's, with the label `who` for its calls, and puts it into an empty
/// slot.
#[unsafe(no_mangle)]
pub extern "C" fn lrc_store_split(alloc: Global, slot: &mut Slot, who: u32, other: &mut Slot) -> u32
    ensures { IsSplitCall slot.old.held other.old.held who result slot.new.held other.new.held }
{
    let Some(mut held) = slot.take(alloc) else {
        return EMPTY;
    };
    let status = sessions::split(alloc, &mut held, who, other);
    slot.put(held);
    status
}

/// Joins the second slot's session into the first slot's, which then counts as the caller of its
/// calls. The second slot is empty afterwards.
#[unsafe(no_mangle)]
pub extern "C" fn lrc_store_join(alloc: Global, slot: &mut Slot, other: &mut Slot) -> u32
    requires { AreOfOneStore slot.old.held other.old.held }
    ensures { IsJoinCall slot.old.held other.old.held result slot.new.held other.new.held }
{
    let Some(mut held) = slot.take(alloc) else {
        return EMPTY;
    };
    let Some(mut given) = other.take(alloc) else {
        slot.put(held);
        return EMPTY;
    };
    let status = sessions::join(&mut held, &mut given);
    slot.put(held);
    if given.is_some() {
        other.put(given);
    }
    status
}

/// The first slot's session learns all that the second slot's has seen: whatever it does next
/// stands after all of it. Nothing else changes. It takes no lock, does not wait and does not
/// allocate.
#[unsafe(no_mangle)]
pub extern "C" fn lrc_slot_learn(alloc: Global, slot: &mut Slot, other: &mut Slot) -> u32
    requires { AreOfOneStore slot.old.held other.old.held }
    ensures { IsLearnCall slot.old.held other.old.held result slot.new.held other.new.held }
{
    let Some(mut held) = slot.take(alloc) else {
        return EMPTY;
    };
    let Some(mut given) = other.take(alloc) else {
        slot.put(held);
        return EMPTY;
    };
    let status = sessions::learn(&mut held, &mut given);
    slot.put(held);
    other.put(given);
    status
}

/// Writes the number of the store of the slot's session, as `lrc_store_open` got it. It is for the
/// library's own use.
#[unsafe(no_mangle)]
pub extern "C" fn lrc_slot_number(alloc: Global, slot: &mut Slot, number: &mut u64) -> u32
    ensures { IsNumberCall slot.old.held result (number.old, number.new) slot.new.held }
{
    let Some(held) = slot.take(alloc) else {
        return EMPTY;
    };
    let status = match &*held {
        Some(Held::Session { number: own, .. }) => {
            *number = *own;
            DONE
        }
        _ => EMPTY,
    };
    slot.put(held);
    status
}

/// Closes the store of the slot's session, once all other sessions are joined, and empties the
/// slot. It writes the number of journal entries and whether they are lawful.
#[unsafe(no_mangle)]
pub extern "C" fn lrc_store_close(
    alloc: Global,
    slot: &mut Slot,
    entries: &mut u64,
    lawful: &mut u32,
) -> u32
    ensures { IsCloseCall slot.old.held result (entries.old, lawful.old) (entries.new, lawful.new)
        slot.new.held }
{
    let Some(mut held) = slot.take(alloc) else {
        return EMPTY;
    };
    let status = sessions::close(alloc, &mut held, entries, lawful);
    if held.is_some() {
        slot.put(held);
    }
    status
}

/// Closes the store and puts its journal into an empty slot. It writes the numbers of discarded and
/// of remaining entries, and whether the entries are lawful.
#[unsafe(no_mangle)]
pub extern "C" fn lrc_store_close_to(
    alloc: Global,
    slot: &mut Slot,
    other: &mut Slot,
    discarded: &mut u64,
    entries: &mut u64,
    lawful: &mut u32,
) -> u32
    ensures { IsCloseToCall slot.old.held other.old.held result
        (discarded.old, entries.old, lawful.old) (discarded.new, entries.new, lawful.new)
        slot.new.held other.new.held }
{
    if !other.is_vacant(alloc) {
        return OCCUPIED;
    }
    sessions::close_slot(alloc, slot, other, discarded, entries, lawful)
}

/// Writes the entry of a journal at an index, from 0.
#[unsafe(no_mangle)]
pub extern "C" fn lrc_slot_entry<'a>(
    alloc: Global,
    slot: &'a mut Slot,
    index: usize,
    entry: &mut JournalEntry<'a>,
) -> u32
    ensures { IsEntryCall slot.old.held index result entry.old entry.new }
{
    if slot.is_vacant(alloc) {
        return EMPTY;
    }
    let held: &'a Option<Held> = slot.get_mut();
    match held {
        Some(Held::Journal(book)) => journal::entry_at(book, index, entry),
        _ => EMPTY,
    }
}

/// Puts a buffer of `len` zero bytes into an empty slot. C fills it and then stores it as a blob.
#[unsafe(no_mangle)]
pub extern "C" fn lrc_slot_reserve(alloc: Global, len: usize, slot: &mut Slot) -> u32
    ensures { IsReserveCall slot.old.held len result slot.new.held }
{
    if !slot.is_vacant(alloc) {
        return OCCUPIED;
    }
    buffers::reserve(alloc, len, slot)
}

/// Lends the bytes of a buffer for writing. They stay in place until the slot is passed to another
/// call.
#[unsafe(no_mangle)]
pub extern "C" fn lrc_slot_buffer<'a>(
    alloc: Global,
    slot: &'a mut Slot,
    buffer: &mut LentBuffer<'a>,
) -> u32
    ensures { IsBufferCall slot.old.held result buffer.old.bytes.now buffer.new.bytes.now }
{
    if slot.is_vacant(alloc) {
        return EMPTY;
    }
    let held: &'a mut Option<Held> = slot.get_mut();
    match held {
        Some(Held::Buffer(bytes)) => {
            buffer.bytes = bytes.as_mut_slice();
            DONE
        }
        _ => EMPTY,
    }
}

/// Stores the buffer of the other slot under a name, without a copy. The slot is empty afterwards,
/// unless the put was refused.
#[unsafe(no_mangle)]
pub extern "C" fn lrc_store_put_from(
    alloc: Global,
    slot: &mut Slot,
    name: &[u8],
    other: &mut Slot,
    data_fragments: u32,
    version: &mut u64,
) -> u32
    ensures { IsOnSession slot.old.held result slot.new.held
        ((version.new ≡ version.old) × (other.new.held ≡ other.old.held))
        (λ v w. IsPutFrom v other.old.held name.now data_fragments result (version.old, version.new)
        w other.new.held) }
{
    with_session!(alloc, slot, session =>
        buffers::put_from(alloc, session, name, other, data_fragments, version))
}

/// Stores a copy of a blob under a name, in the code with this many data fragments.
#[unsafe(no_mangle)]
pub extern "C" fn lrc_store_put(
    alloc: Global,
    slot: &mut Slot,
    name: &[u8],
    blob: &[u8],
    data_fragments: u32,
    version: &mut u64,
) -> u32
    ensures { IsOnSession slot.old.held result slot.new.held (version.new ≡ version.old)
        (λ v w. IsPutCall v name.now blob.now data_fragments result version.old version.new w) }
{
    with_session!(alloc, slot, session =>
        calls::put(alloc, session, name, blob, data_fragments, version))
}

/// Copies bytes of a name's blob to `target`, as many as it has, from the byte `start` on. It
/// rebuilds the bytes of lost fragments.
#[unsafe(no_mangle)]
pub extern "C" fn lrc_store_read(
    alloc: Global,
    slot: &mut Slot,
    name: &[u8],
    start: u64,
    target: &mut [u8],
    version: &mut u64,
    lent: &mut u64,
    built: &mut u64,
) -> u32
    ensures { IsOnSession slot.old.held result slot.new.held
        ((version.new ≡ version.old) × (target.new ≡ target.old) × (lent.new ≡ lent.old)
        × (built.new ≡ built.old))
        (λ v w. IsReadCall v name.now start target.old target.new result version.old version.new
        (lent.old, built.old) (lent.new, built.new) w) }
{
    with_session!(alloc, slot, session => calls::read(
        alloc, session, name, start, target, version, lent, built,
    ))
}

/// Loses a fragment of a stripe of a name's blob.
#[unsafe(no_mangle)]
pub extern "C" fn lrc_store_lose(
    alloc: Global,
    slot: &mut Slot,
    name: &[u8],
    stripe: u64,
    fragment: u64,
    version: &mut u64,
) -> u32
    ensures { IsOnSession slot.old.held result slot.new.held (version.new ≡ version.old)
        (λ v w. IsNamedCall v name.now (λ n. lose_of n stripe fragment) result version.old
        version.new w) }
{
    with_session!(alloc, slot, session =>
        calls::lose(alloc, session, name, stripe, fragment, version))
}

/// Repairs a lost fragment of a stripe of a name's blob.
#[unsafe(no_mangle)]
pub extern "C" fn lrc_store_repair(
    alloc: Global,
    slot: &mut Slot,
    name: &[u8],
    stripe: u64,
    fragment: u64,
    version: &mut u64,
) -> u32
    ensures { IsOnSession slot.old.held result slot.new.held (version.new ≡ version.old)
        (λ v w. IsNamedCall v name.now (λ n. repair_of n stripe fragment) result version.old
        version.new w) }
{
    with_session!(alloc, slot, session =>
        calls::repair(alloc, session, name, stripe, fragment, version))
}

/// Deletes a name's blob.
#[unsafe(no_mangle)]
pub extern "C" fn lrc_store_delete(
    alloc: Global,
    slot: &mut Slot,
    name: &[u8],
    version: &mut u64,
) -> u32
    ensures { IsOnSession slot.old.held result slot.new.held (version.new ≡ version.old)
        (λ v w. IsNamedCall v name.now (λ n. delete_of n) result version.old version.new w) }
{
    with_session!(alloc, slot, session => calls::delete(session, name, version))
}

/// Writes the shape of a name's blob: its length in bytes, and the numbers of stripes and lost
/// fragments.
#[unsafe(no_mangle)]
pub extern "C" fn lrc_store_stat(
    alloc: Global,
    slot: &mut Slot,
    name: &[u8],
    version: &mut u64,
    len: &mut u64,
    stripes: &mut u64,
    lost: &mut u64,
) -> u32
    ensures { IsOnSession slot.old.held result slot.new.held
        ((version.new ≡ version.old) × (len.new ≡ len.old) × (stripes.new ≡ stripes.old)
        × (lost.new ≡ lost.old))
        (λ v w. IsStatCall v name.now result version.old version.new
        (len.old, stripes.old, lost.old) (len.new, stripes.new, lost.new) w) }
{
    with_session!(alloc, slot, session => calls::stat(session, name, version, len, stripes, lost))
}

/// Discards all journal entries except the last `keep`, and writes how many it discarded.
#[unsafe(no_mangle)]
pub extern "C" fn lrc_store_trim(
    alloc: Global,
    slot: &mut Slot,
    keep: u64,
    discarded: &mut u64,
) -> u32
    ensures { IsOnSession slot.old.held result slot.new.held (discarded.new ≡ discarded.old)
        (λ v w. IsTrimCall v keep result discarded.old discarded.new w) }
{
    with_session!(alloc, slot, session => calls::trim(alloc, session, keep, discarded))
}

/// Discards at most `most` of the entries that `lrc_store_trim` would discard, the oldest first.
#[unsafe(no_mangle)]
pub extern "C" fn lrc_store_trim_part(
    alloc: Global,
    slot: &mut Slot,
    keep: u64,
    most: u64,
    discarded: &mut u64,
) -> u32
    ensures { IsOnSession slot.old.held result slot.new.held (discarded.new ≡ discarded.old)
        (λ v w. IsTrimPartCall v keep most result discarded.old discarded.new w) }
{
    with_session!(alloc, slot, session => calls::trim_part(alloc, session, keep, most, discarded))
}

/// Lends `len` bytes of a name's blob, from the byte `start` on. It puts the range into an empty
/// slot, rebuilds lost fragments at once, and writes the number of pieces.
#[unsafe(no_mangle)]
pub extern "C" fn lrc_store_lend(
    alloc: Global,
    slot: &mut Slot,
    name: &[u8],
    start: u64,
    len: u64,
    other: &mut Slot,
    version: &mut u64,
    pieces: &mut u64,
) -> u32
    ensures { IsOnSession slot.old.held result slot.new.held
        ((version.new ≡ version.old) × (pieces.new ≡ pieces.old)
        × (other.new.held ≡ other.old.held))
        (λ v w. IsLendTo v other.old.held name.now start len result (version.old, version.new)
        (pieces.old, pieces.new) w other.new.held) }
{
    with_session!(alloc, slot, session =>
        lending::lend_to(alloc, session, name, start, len, other, version, pieces))
}

/// Writes the pieces of a lent range to `target`, in order, as many as there are and `target`
/// takes. They stay in place until the slot is passed to another call.
#[unsafe(no_mangle)]
pub extern "C" fn lrc_slot_slices<'a>(
    alloc: Global,
    slot: &'a mut Slot,
    target: &mut [LentSlice<'a>],
    count: &mut u64,
) -> u32
    ensures { IsSlicesCall slot.old.held result (count.old, count.new) target.old target.new }
{
    if slot.is_vacant(alloc) {
        return EMPTY;
    }
    let held: &'a Option<Held> = slot.get_mut();
    match held {
        Some(Held::Lending(lending)) => {
            *count = lending.lend(target) as u64;
            DONE
        }
        _ => EMPTY,
    }
}

/// Writes runs of a lent range to `target`, from the byte `from` of the range on, in order, as many
/// as there are and `target` takes. A run is as many bytes as lie one behind another in memory.
/// They stay in place until the slot is passed to another call.
#[unsafe(no_mangle)]
pub extern "C" fn lrc_slot_runs<'a>(
    alloc: Global,
    slot: &'a mut Slot,
    from: u64,
    target: &mut [LentSlice<'a>],
    count: &mut u64,
) -> u32
    ensures { IsRunsCall slot.old.held from result (count.old, count.new) target.old target.new }
{
    if slot.is_vacant(alloc) {
        return EMPTY;
    }
    let held: &'a Option<Held> = slot.get_mut();
    match held {
        Some(Held::Lending(lending)) => {
            *count = lending.lend_runs(from, target) as u64;
            DONE
        }
        _ => EMPTY,
    }
}

/// Puts a plan to repair all lost fragments into an empty slot, and writes their number.
#[unsafe(no_mangle)]
pub extern "C" fn lrc_store_plan(
    alloc: Global,
    slot: &mut Slot,
    other: &mut Slot,
    items: &mut u64,
) -> u32
    ensures { IsOnSession slot.old.held result slot.new.held
        ((items.new ≡ items.old) × (other.new.held ≡ other.old.held))
        (λ v w. IsPlanTo v other.old.held result (items.old, items.new) w other.new.held) }
{
    with_session!(alloc, slot, session => repairs::plan_to(alloc, session, other, items))
}

/// Puts the first `most` items of such a plan into an empty slot, or those behind the part that it
/// holds, of which no item may be left, and writes their number.
#[unsafe(no_mangle)]
pub extern "C" fn lrc_store_plan_part(
    alloc: Global,
    slot: &mut Slot,
    other: &mut Slot,
    most: u64,
    items: &mut u64,
) -> u32
    ensures { IsOnSession slot.old.held result slot.new.held
        ((items.new ≡ items.old) × (other.new.held ≡ other.old.held))
        (λ v w. IsPlanPartTo v other.old.held most result (items.old, items.new) w
        other.new.held) }
{
    with_session!(alloc, slot, session =>
        repairs::plan_part_to(alloc, session, other, most, items))
}

/// Repairs the next fragment of a plan. A fragment with an answer leaves the plan, and one with an
/// error stays the next.
#[unsafe(no_mangle)]
pub extern "C" fn lrc_store_mend_step(
    alloc: Global,
    slot: &mut Slot,
    other: &mut Slot,
    version: &mut u64,
) -> u32
    ensures { IsMendCall slot.old.held other.old.held result (version.old, version.new)
        slot.new.held other.new.held }
{
    let Some(mut held) = slot.take(alloc) else {
        return EMPTY;
    };
    let Some(mut plan) = other.take(alloc) else {
        slot.put(held);
        return EMPTY;
    };
    let status = match (&mut *held, &mut *plan) {
        (Some(Held::Session { session, .. }), Some(Held::Repairs(left))) => {
            repairs::mend_step(alloc, session, left, version)
        }
        _ => EMPTY,
    };
    slot.put(held);
    other.put(plan);
    status
}

/// Writes the first remaining items of a plan to `target`, in order, as many as there are and
/// `target` takes. Their names stay in place until the slot is passed to another call.
#[unsafe(no_mangle)]
pub extern "C" fn lrc_slot_items<'a>(
    alloc: Global,
    slot: &'a mut Slot,
    target: &mut [PlanItem<'a>],
    count: &mut u64,
) -> u32
    ensures { IsItemsCall slot.old.held result (count.old, count.new) target.old target.new }
{
    if slot.is_vacant(alloc) {
        return EMPTY;
    }
    let held: &'a Option<Held> = slot.get_mut();
    match held {
        Some(Held::Repairs(left)) => {
            *count = items::lend_items(left, target) as u64;
            DONE
        }
        _ => EMPTY,
    }
}

/// Writes the numbers of the store: of blobs, of their bytes, lost fragments and stripes that are
/// unrecoverable, of calls, and of entries in the journal.
#[unsafe(no_mangle)]
pub extern "C" fn lrc_store_numbers(
    alloc: Global,
    slot: &mut Slot,
    numbers: &mut StoreNumbers,
) -> u32
    ensures { IsOnSession slot.old.held result slot.new.held (numbers.new ≡ numbers.old)
        (λ v w. IsNumbersCall v result numbers.old numbers.new w) }
{
    with_session!(alloc, slot, session => numbers::numbers(session, numbers))
}

/// Puts the version that a name's blob has into an empty slot, and writes its number and its length
/// in bytes.
#[unsafe(no_mangle)]
pub extern "C" fn lrc_store_hold(
    alloc: Global,
    slot: &mut Slot,
    name: &[u8],
    other: &mut Slot,
    version: &mut u64,
    len: &mut u64,
) -> u32
    ensures { IsHoldCall slot.old.held other.old.held name.now result (version.old, len.old)
        (version.new, len.new) slot.new.held other.new.held }
{
    let Some(mut held) = slot.take(alloc) else {
        return EMPTY;
    };
    let status = versions::hold_by(alloc, &mut held, name, other, version, len);
    slot.put(held);
    status
}

/// Writes the shape of a held version.
#[unsafe(no_mangle)]
pub extern "C" fn lrc_slot_shape(alloc: Global, slot: &mut Slot, shape: &mut VersionShape) -> u32
    ensures { IsShapeCall slot.old.held result shape.old shape.new slot.new.held }
{
    let Some(held) = slot.take(alloc) else {
        return EMPTY;
    };
    let status = match &*held {
        Some(Held::Version { version, .. }) => {
            *shape = versions::shape_of(version);
            DONE
        }
        _ => EMPTY,
    };
    slot.put(held);
    status
}

/// Writes which fragments of a stripe a held version lacks, as a set of bits.
#[unsafe(no_mangle)]
pub extern "C" fn lrc_slot_lost(alloc: Global, slot: &mut Slot, stripe: u64, lost: &mut u16) -> u32
    ensures { IsLostCall slot.old.held stripe result lost.old lost.new slot.new.held }
{
    let Some(held) = slot.take(alloc) else {
        return EMPTY;
    };
    let status = match &*held {
        Some(Held::Version { version, .. }) => versions::lost_of(version, stripe, lost),
        _ => EMPTY,
    };
    slot.put(held);
    status
}

/// Lends the bytes of a fragment that a held version has. They stay in place until the slot is
/// passed to another call.
#[unsafe(no_mangle)]
pub extern "C" fn lrc_slot_fragment<'a>(
    alloc: Global,
    slot: &'a mut Slot,
    stripe: u64,
    fragment: u64,
    bytes: &mut LentSlice<'a>,
) -> u32
    ensures { IsFragmentCall slot.old.held stripe fragment result bytes.old.bytes.now
        bytes.new.bytes.now }
{
    if slot.is_vacant(alloc) {
        return EMPTY;
    }
    let held: &'a Option<Held> = slot.get_mut();
    match held {
        Some(Held::Version { version, .. }) => {
            versions::fragment_to(version, stripe, fragment, bytes)
        }
        _ => EMPTY,
    }
}

/// Lends `len` bytes of a held version, from the byte `start` on, as `lrc_store_lend` does. It is
/// no call of the store.
#[unsafe(no_mangle)]
pub extern "C" fn lrc_slot_lend(
    alloc: Global,
    slot: &mut Slot,
    start: u64,
    len: u64,
    other: &mut Slot,
    pieces: &mut u64,
) -> u32
    ensures { IsRangeCall slot.old.held other.old.held start len result (pieces.old, pieces.new)
        slot.new.held other.new.held }
{
    let Some(held) = slot.take(alloc) else {
        return EMPTY;
    };
    let status = match &*held {
        Some(Held::Version { version, .. }) => {
            versions::lend_to(alloc, version, start, len, other, pieces)
        }
        _ => EMPTY,
    };
    slot.put(held);
    status
}

/// Copies bytes of a held version to `target`, as many as it has, from the byte `start` on. It
/// rebuilds the bytes of lost fragments. It is no call of the store.
#[unsafe(no_mangle)]
pub extern "C" fn lrc_slot_copy(
    alloc: Global,
    slot: &mut Slot,
    start: u64,
    target: &mut [u8],
) -> u32
    ensures { IsCopyCall slot.old.held start result target.old target.new slot.new.held }
{
    let Some(held) = slot.take(alloc) else {
        return EMPTY;
    };
    let status = match &*held {
        Some(Held::Version { version, .. }) => versions::copy_to(alloc, version, start, target),
        _ => EMPTY,
    };
    slot.put(held);
    status
}

/// Lends all bytes of the version that a name's blob has now, and puts them into an empty slot. It
/// writes the number of the version and its length, and how many pieces the bytes are in.
#[unsafe(no_mangle)]
pub extern "C" fn lrc_store_get(
    alloc: Global,
    slot: &mut Slot,
    name: &[u8],
    other: &mut Slot,
    version: &mut u64,
    len: &mut u64,
    pieces: &mut u64,
) -> u32
    ensures { IsOnSession slot.old.held result slot.new.held
        ((version.new ≡ version.old) × (len.new ≡ len.old) × (pieces.new ≡ pieces.old)
        × (other.new.held ≡ other.old.held))
        (λ v w. IsGetTo v other.old.held name.now result (version.old, len.old, pieces.old)
        (version.new, len.new, pieces.new) w other.new.held) }
{
    with_session!(alloc, slot, session =>
        whole::get_to(alloc, session, name, other, version, len, pieces))
}

/// Restores a lost fragment of the name of a held version with the given bytes, whatever else is
/// lost: those that the fragment has in the version.
#[unsafe(no_mangle)]
pub extern "C" fn lrc_store_restore(
    alloc: Global,
    slot: &mut Slot,
    other: &mut Slot,
    stripe: u64,
    fragment: u64,
    bytes: &[u8],
    version: &mut u64,
) -> u32
    requires { MayRestore slot.old.held other.old.held stripe fragment bytes.now }
    ensures { IsRestoreCall slot.old.held other.old.held stripe fragment bytes.now result
        (version.old, version.new) slot.new.held other.new.held }
{
    let Some(mut held) = slot.take(alloc) else {
        return EMPTY;
    };
    let Some(mut given) = other.take(alloc) else {
        slot.put(held);
        return EMPTY;
    };
    let status = versions::restore_by(
        alloc, &mut held, &mut given, stripe, fragment, bytes, version,
    );
    slot.put(held);
    other.put(given);
    status
}

/// Leaves out the next item of a plan.
#[unsafe(no_mangle)]
pub extern "C" fn lrc_slot_skip(alloc: Global, slot: &mut Slot) -> u32
    ensures { IsSkipCall slot.old.held result slot.new.held }
{
    let Some(mut held) = slot.take(alloc) else {
        return EMPTY;
    };
    let status = match &mut *held {
        Some(Held::Repairs(left)) => repairs::skip(left),
        _ => EMPTY,
    };
    slot.put(held);
    status
}

/// Writes the shard that a name has in a store of so many shards.
///
/// The calls of all shards, in any order that keeps each shard's, are those of one object over one
/// map, as `one_map::prove_one_map` states.
#[unsafe(no_mangle)]
pub extern "C" fn lrc_store_shard(name: &[u8], shards: u32, shard: &mut u32) -> u32
    ensures { IsShardCall name.now shards result shard.old shard.new }
{
    shards::shard_of_name(name, shards, shard)
}

/// Drops what the slot holds.
#[unsafe(no_mangle)]
pub extern "C" fn lrc_slot_release(alloc: Global, slot: &mut Slot)
    ensures { slot.new.held ≡ None }
{
    drop(slot.take(alloc));
}
