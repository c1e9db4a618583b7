//! Calls of one thread at two shards, in order.
ghost use Rattle.std.specs.Prelude.{◌≡◌, OnOk};
ghost use Rattle.history.specs.Step.{delete as delete_of, stat as stat_of};
ghost use Rattle.sharded.specs.Passes.{store_of};
ghost use Rattle.test_sharded.specs.Standing.{StandsBefore};

use crate::names::NAMES;
use anyhow::ensure;
use book::Note;
use sharded::{Answer, Fault, Name, ShardedPass, ShardedStore, WaitingCalls};
use std::sync::Wait;

/// Deletes a name, and then asks for the shape of another, at whichever shards they are. In the
/// list of all shards the deletion stands before the question.
pub(crate) fn delete_then_stat<R: Wait>(
    rt: &R,
    store: &ShardedStore,
    pass: &mut ShardedPass,
    one: Name,
    other: Name,
) -> Result<Answer, Fault>
    requires { store_of pass.old ≡ store.now }
    ensures order { OnOk result (StandsBefore (delete_of one) (stat_of other) pass.new.list) }
    ensures same { store_of pass.new ≡ store.now }
{
    let _deleted = store.delete(rt, pass, one)?;
    store.stat(rt, pass, other)
}

/// Calls on two names without a blob.
pub(crate) fn run<R: Wait>(
    rt: &R,
    store: &ShardedStore,
    pass: &mut ShardedPass,
) -> anyhow::Result<()>
    requires { store_of pass.old ≡ store.now }
{
    let (one, other) = (Name::new(NAMES[0])?, Name::new(NAMES[1])?);
    let answer = delete_then_stat(rt, store, pass, one, other)?;
    ensure!(answer.note() == Note::NoName, "another answer");
    Ok(())
}
