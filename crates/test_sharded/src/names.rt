//! All calls on some names.
ghost use Rattle.std.specs.Prelude.{◌≡◌};
ghost use Rattle.sharded.specs.Passes.{store_of};

use crate::calls::{Call, Form, expect};
use anyhow::Result;
use book::Note;
use sharded::{Name, ShardedPass, ShardedStore};
use std::alloc::Global;
use std::sync::Wait;

/// The names. Over 4 shards some are of one shard and some are not.
pub(crate) const NAMES: [&str; 8] = ["a", "b", "c", "d", "e", "f", "g", "a-name-of-18-bytes"];
/// How many calls are made on each name.
pub(crate) const CALLS: u64 = 16;
/// How many of them are puts.
const PUTS: u64 = 3;

/// How many of the first names belong to this shard.
pub(crate) fn count_at(store: &ShardedStore, shard: usize, names: usize) -> Result<u64> {
    let mut count = 0u64;
    for text in NAMES.iter().take(names) {
        if store.find_shard(&Name::new(text)?) == shard {
            count = count.saturating_add(1);
        }
    }
    Ok(count)
}

/// The calls on a name without a blob, whose shard has had this many puts, and the expected note of
/// each.
fn steps(puts: u64) -> [(Call, Note); 16] {
    let (one, two) = (puts.saturating_add(1), puts.saturating_add(2));
    let shape = |version, stripes| Note::Shape {
        version,
        len: 12,
        stripes,
        lost: 0,
    };
    [
        (Call::Stat, Note::NoName),
        (Call::Read, Note::NoName),
        (Call::Put, Note::Stored(one)),
        (Call::Read, Note::Granted(one)),
        (Call::Lose, Note::Lost(one)),
        (Call::Lose, Note::AlreadyLost),
        (Call::Read, Note::Granted(one)),
        (Call::Repair, Note::Repaired(one)),
        (Call::Repair, Note::NotLost),
        (Call::Stat, shape(one, 1)),
        (Call::PutSmall, Note::Stored(two)),
        (Call::Read, Note::Granted(two)),
        (Call::Stat, shape(two, 2)),
        (Call::Delete, Note::Deleted(two)),
        (Call::Put, Note::Stored(puts.saturating_add(PUTS))),
        (Call::Lose, Note::Lost(puts.saturating_add(PUTS))),
    ]
}

/// The calls on one name.
fn use_name<R: Wait>(
    rt: &R,
    alloc: Global,
    store: &ShardedStore,
    pass: &mut ShardedPass,
    name: &Name,
    form: Form,
    puts: u64,
) -> Result<()>
    requires { store_of pass.old ≡ store.now }
    ensures { store_of pass.new ≡ store.now }
{
    let steps = steps(puts);
    for k in 0..steps.len() {
        expect(rt, alloc, store, pass, name, form, steps[k])?;
    }
    Ok(())
}

/// All calls on each name, with every second one in the form that does not wait. In the end each
/// name has a blob with one lost fragment.
pub(crate) fn use_all<R: Wait>(
    rt: &R,
    alloc: Global,
    store: &ShardedStore,
    pass: &mut ShardedPass,
) -> Result<()>
    requires { store_of pass.old ≡ store.now }
    ensures { store_of pass.new ≡ store.now }
{
    for number in 0..NAMES.len() {
        let name = Name::new(NAMES[number])?;
        let puts = count_at(store, store.find_shard(&name), number)?;
        let form = if number % 2 == 0 {
            Form::Waits
        } else {
            Form::Tries
        };
        use_name(
            rt,
            alloc,
            store,
            pass,
            &name,
            form,
            puts.saturating_mul(PUTS),
        )?;
    }
    Ok(())
}
