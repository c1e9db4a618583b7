//! What is done over all shards, and with prepared calls: copied puts, numbers, parts, snapshots.
ghost use Rattle.std.specs.Prelude.{◌≡◌, ◌<◌, length};
ghost use Rattle.sharded.specs.Passes.{store_of};

use crate::calls::{BLOB, FRAGMENT};
use crate::names::NAMES;
use anyhow::{Result, bail, ensure};
use book::Note;
use sharded::{
    Answer, Code, Makes, Name, Numbers, ShardedPass, ShardedStore, TryCalls, TrySnapshots,
    WaitingCalls, WaitingSnapshots, Waits,
};
use std::alloc::Global;
use std::sync::Wait;

/// Puts a copy of the blob under a name, in either form, again if out of memory.
fn put<R: Wait>(
    rt: &R,
    alloc: Global,
    store: &ShardedStore,
    pass: &mut ShardedPass,
    name: &Name,
    waits: bool,
) -> Result<Answer>
    requires { store_of pass.old ≡ store.now }
    ensures { store_of pass.new ≡ store.now }
{
    let first = if waits {
        store.put_copy(rt, alloc, pass, name.duplicate(), BLOB, Code::Small)
    } else {
        store.try_put_copy(alloc, pass, name.duplicate(), BLOB, Code::Small)
    };
    match first {
        Ok(answer) => Ok(answer),
        Err(_) => Ok(store.put_copy(rt, alloc, pass, name.duplicate(), BLOB, Code::Small)?),
    }
}

/// Loses a fragment of a name's blob, again if out of memory.
fn lose<R: Wait>(
    rt: &R,
    alloc: Global,
    store: &ShardedStore,
    pass: &mut ShardedPass,
    name: &Name,
) -> Result<Answer>
    requires { store_of pass.old ≡ store.now }
    ensures { store_of pass.new ≡ store.now }
{
    match store.lose(rt, alloc, pass, name.duplicate(), 0, FRAGMENT) {
        Ok(answer) => Ok(answer),
        Err(_) => Ok(store.lose(rt, alloc, pass, name.duplicate(), 0, FRAGMENT)?),
    }
}

/// Puts a blob under each name, and loses a fragment of it.
fn put_all<R: Wait>(
    rt: &R,
    alloc: Global,
    store: &ShardedStore,
    pass: &mut ShardedPass,
) -> Result<()>
    requires { store_of pass.old ≡ store.now }
    ensures { store_of pass.new ≡ store.now }
{
    for number in 0..NAMES.len() {
        let name = Name::new(NAMES[number])?;
        let stored = put(rt, alloc, store, pass, &name, number % 2 == 0)?;
        ensure!(
            matches!(stored.note(), Note::Stored(_)),
            "a blob is not stored"
        );
        let lost = lose(rt, alloc, store, pass, &name)?;
        ensure!(
            matches!(lost.note(), Note::Lost(_)),
            "a fragment is not lost"
        );
    }
    Ok(())
}

/// The numbers with this many lost fragments, calls and entries, in both forms.
fn expect_numbers<R: Wait>(
    rt: &R,
    store: &ShardedStore,
    pass: &mut ShardedPass,
    lost: u64,
    calls: u64,
    entries: u64,
) -> Result<()>
    requires { store_of pass.old ≡ store.now }
    ensures { store_of pass.new ≡ store.now }
{
    let expected = Numbers {
        blobs: 8,
        bytes: 96,
        lost,
        unrecoverable: 0,
        calls,
        entries,
    };
    ensure!(store.numbers(rt, pass) == expected, "other numbers");
    ensure!(store.try_numbers(pass)? == expected, "other numbers");
    Ok(())
}

/// Restores a name's lost fragment with the bytes that a snapshot gives. It is repaired if out of
/// memory.
fn restore<R: Wait>(
    rt: &R,
    alloc: Global,
    store: &ShardedStore,
    pass: &mut ShardedPass,
    name: &Name,
) -> Result<Answer>
    requires { store_of pass.old ≡ store.now }
    ensures { store_of pass.new ≡ store.now }
{
    let Some(snapshot) = store.snapshot(rt, pass, name.duplicate())? else {
        bail!("a name has no blob");
    };
    let Ok(found) = snapshot.rebuild(alloc, 0, 3) else {
        return Ok(store.repair(rt, alloc, pass, name.duplicate(), 0, 3)?);
    };
    let Some(bytes) = found else {
        bail!("a fragment is not rebuilt");
    };
    let version = snapshot.version();
    match store.restore(rt, alloc, pass, name.duplicate(), version, 0, 3, bytes) {
        Ok(answer) => Ok(answer),
        Err(_) => Ok(store.repair(rt, alloc, pass, name.duplicate(), 0, 3)?),
    }
}

/// As `restore`, in the form that does not wait.
fn try_restore<R: Wait>(
    rt: &R,
    alloc: Global,
    store: &ShardedStore,
    pass: &mut ShardedPass,
    name: &Name,
) -> Result<Answer>
    requires { store_of pass.old ≡ store.now }
    ensures { store_of pass.new ≡ store.now }
{
    let Some(snapshot) = store.try_snapshot(pass, name.duplicate())? else {
        bail!("a name has no blob");
    };
    let Ok(found) = snapshot.rebuild(alloc, 0, 3) else {
        return Ok(store.repair(rt, alloc, pass, name.duplicate(), 0, 3)?);
    };
    let Some(bytes) = found else {
        bail!("a fragment is not rebuilt");
    };
    let version = snapshot.version();
    match store.try_restore(alloc, pass, name.duplicate(), version, 0, 3, bytes) {
        Ok(answer) => Ok(answer),
        Err(_) => Ok(store.repair(rt, alloc, pass, name.duplicate(), 0, 3)?),
    }
}

/// Puts a blob by a prepared call, again if out of memory.
fn put_prepared<R: Wait>(
    rt: &R,
    alloc: Global,
    store: &ShardedStore,
    pass: &mut ShardedPass,
    name: &Name,
) -> Result<Answer>
    requires { store_of pass.old ≡ store.now }
    ensures { store_of pass.new ≡ store.now }
{
    let Ok(request) = store.prepare_copy(alloc, name.duplicate(), BLOB, Code::Wide) else {
        return put(rt, alloc, store, pass, name, true);
    };
    match store.try_prepared(pass, request) {
        Ok(Ok(answer)) => Ok(answer),
        Ok(Err(_)) => put(rt, alloc, store, pass, name, true),
        Err(_) => bail!("the only caller finds another inside"),
    }
}

/// The number of lost fragments of a shard. The part behind the first has one fewer.
fn count_lost<R: Wait>(
    rt: &R,
    alloc: Global,
    store: &ShardedStore,
    pass: &mut ShardedPass,
    shard: usize,
) -> Result<u64>
    requires store { store_of pass.old ≡ store.now }
    requires shard { shard < length store.now.shards }
    ensures { store_of pass.new ≡ store.now }
{
    let all = match store.plan_shard_part(rt, alloc, pass, shard, None, usize::MAX) {
        Ok(part) => part,
        Err(_) => store.plan_shard_part(rt, alloc, pass, shard, None, usize::MAX)?,
    };
    let first = all.items.first();
    let rest = match store.try_plan_shard_part(alloc, pass, shard, first, 100) {
        Ok(part) => part,
        Err(_) => store.try_plan_shard_part(alloc, pass, shard, first, 100)?,
    };
    let count = all.items.len();
    ensure!(
        rest.items.len() == count.saturating_sub(1),
        "another number of items"
    );
    Ok(count as u64)
}

/// The number of lost fragments of all shards, of which there are more than three. The part behind
/// the first is asked for three.
fn count_all_lost<R: Wait>(
    rt: &R,
    alloc: Global,
    store: &ShardedStore,
    pass: &mut ShardedPass,
) -> Result<u64>
    requires { store_of pass.old ≡ store.now }
    ensures { store_of pass.new ≡ store.now }
{
    let all = match store.plan_part(rt, alloc, pass, None, usize::MAX) {
        Ok(part) => part,
        Err(_) => store.plan_part(rt, alloc, pass, None, usize::MAX)?,
    };
    let first = all.items.first();
    let rest = match store.try_plan_part(alloc, pass, first, 3) {
        Ok(part) => part,
        Err(_) => store.try_plan_part(alloc, pass, first, 3)?,
    };
    ensure!(rest.items.len() == 3, "another number of items");
    Ok(all.items.len() as u64)
}

/// Discards all entries of a shard's journal in two parts. Returns how many these were.
fn discard<R: Wait>(
    rt: &R,
    alloc: Global,
    store: &ShardedStore,
    pass: &mut ShardedPass,
    shard: usize,
) -> Result<u64>
    requires store { store_of pass.old ≡ store.now }
    requires shard { shard < length store.now.shards }
    ensures { store_of pass.new ≡ store.now }
{
    let first = match store.trim_shard_part(rt, alloc, pass, shard, 0, 1) {
        Ok(count) => count,
        Err(_) => store.trim_shard_part(rt, alloc, pass, shard, 0, 1)?,
    };
    ensure!(first <= 1, "another number of entries");
    let rest = match store.try_trim_shard_part(alloc, pass, shard, 0, 1_000) {
        Ok(count) => count,
        Err(_) => store.try_trim_shard_part(alloc, pass, shard, 0, 1_000)?,
    };
    Ok(first.saturating_add(rest))
}

/// The numbers of lost fragments of all shards, and of entries, which are then discarded.
fn count_parts<R: Wait>(
    rt: &R,
    alloc: Global,
    store: &ShardedStore,
    pass: &mut ShardedPass,
) -> Result<(u64, u64)>
    requires { store_of pass.old ≡ store.now }
    ensures { store_of pass.new ≡ store.now }
{
    let all = count_all_lost(rt, alloc, store, pass)?;
    let (mut lost, mut entries) = (0u64, 0u64);
    for shard in 0..store.count_shards() {
        lost = lost.saturating_add(count_lost(rt, alloc, store, pass, shard)?);
        entries = entries.saturating_add(discard(rt, alloc, store, pass, shard)?);
    }
    ensure!(lost == all, "the shards have other items");
    Ok((lost, entries))
}

/// All of this over the shards of an empty store, whose only pass this is.
pub(crate) fn run<R: Wait>(
    rt: &R,
    alloc: Global,
    store: &ShardedStore,
    pass: &mut ShardedPass,
) -> Result<()>
    requires { store_of pass.old ≡ store.now }
{
    put_all(rt, alloc, store, pass)?;
    expect_numbers(rt, store, pass, 8, 16, 16)?;
    let one = restore(rt, alloc, store, pass, &Name::new(NAMES[0])?)?;
    let other = try_restore(rt, alloc, store, pass, &Name::new(NAMES[1])?)?;
    ensure!(
        matches!(one.note(), Note::Repaired(_)) && matches!(other.note(), Note::Repaired(_)),
        "a fragment is not restored"
    );
    expect_numbers(rt, store, pass, 6, 20, 20)?;
    let name = Name::new(NAMES[2])?;
    let stored = put_prepared(rt, alloc, store, pass, &name)?;
    ensure!(
        matches!(stored.note(), Note::Stored(_)),
        "a blob is not stored"
    );
    expect_numbers(rt, store, pass, 5, 21, 21)?;
    ensure!(
        count_parts(rt, alloc, store, pass)? == (5, 21),
        "other parts"
    );
    expect_numbers(rt, store, pass, 5, 21, 0)
}
