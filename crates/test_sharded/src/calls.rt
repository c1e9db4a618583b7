//! Calls by name, in both forms.
ghost use Rattle.std.specs.Prelude.{◌≡◌};
ghost use Rattle.sharded.specs.Passes.{store_of};

use anyhow::{Result, bail, ensure};
use book::Note;
use sharded::{
    Answer, Bytes, Code, Fault, Grant, Makes, Name, ShardedPass, ShardedStore, TryCalls,
    WaitingCalls, Waits,
};
use std::alloc::Global;
use std::sync::Wait;

/// The bytes of each blob: one stripe of LRC(12,2,2) at width 1, or two of LRC(6,2,2).
pub(crate) const BLOB: &[u8] = b"ABCDEFGHIJKL";
/// The fragment that is lost.
pub(crate) const FRAGMENT: u64 = 3;

/// A call on the blob of a name.
#[derive(Clone, Copy)]
pub(crate) enum Call {
    Put,
    PutSmall,
    Read,
    Lose,
    Repair,
    Delete,
    Stat,
}

/// Whether a call waits for another caller, or is `Busy`.
#[derive(Clone, Copy)]
pub(crate) enum Form {
    Waits,
    Tries,
}

/// Makes a call that waits.
fn make<R: Wait>(
    rt: &R,
    alloc: Global,
    store: &ShardedStore,
    pass: &mut ShardedPass,
    name: Name,
    call: Call,
) -> std::result::Result<Answer, Fault>
    requires { store_of pass.old ≡ store.now }
    ensures { store_of pass.new ≡ store.now }
{
    let blob = Bytes::from_static(BLOB);
    match call {
        Call::Put => store.put(rt, alloc, pass, name, blob),
        Call::PutSmall => store.put_as(rt, alloc, pass, name, blob, Code::Small),
        Call::Read => store.read(rt, pass, name, 0, 12),
        Call::Lose => store.lose(rt, alloc, pass, name, 0, FRAGMENT),
        Call::Repair => store.repair(rt, alloc, pass, name, 0, FRAGMENT),
        Call::Delete => store.delete(rt, pass, name),
        Call::Stat => store.stat(rt, pass, name),
    }
}

/// Makes a call that does not wait.
fn try_make(
    alloc: Global,
    store: &ShardedStore,
    pass: &mut ShardedPass,
    name: Name,
    call: Call,
) -> std::result::Result<Answer, Fault>
    requires { store_of pass.old ≡ store.now }
    ensures { store_of pass.new ≡ store.now }
{
    let blob = Bytes::from_static(BLOB);
    match call {
        Call::Put => store.try_put(alloc, pass, name, blob),
        Call::PutSmall => store.try_put_as(alloc, pass, name, blob, Code::Small),
        Call::Read => store.try_read(pass, name, 0, 12),
        Call::Lose => store.try_lose(alloc, pass, name, 0, FRAGMENT),
        Call::Repair => store.try_repair(alloc, pass, name, 0, FRAGMENT),
        Call::Delete => store.try_delete(pass, name),
        Call::Stat => store.try_stat(pass, name),
    }
}

/// Makes a call in this form.
fn call_as<R: Wait>(
    rt: &R,
    alloc: Global,
    store: &ShardedStore,
    pass: &mut ShardedPass,
    name: Name,
    form: Form,
    call: Call,
) -> std::result::Result<Answer, Fault>
    requires { store_of pass.old ≡ store.now }
    ensures { store_of pass.new ≡ store.now }
{
    match form {
        Form::Waits => make(rt, alloc, store, pass, name, call),
        Form::Tries => try_make(alloc, store, pass, name, call),
    }
}

/// The answer to a call, which is made again if it was busy or out of memory.
pub(crate) fn answer<R: Wait>(
    rt: &R,
    alloc: Global,
    store: &ShardedStore,
    pass: &mut ShardedPass,
    name: &Name,
    form: Form,
    call: Call,
) -> Result<Answer>
    requires { store_of pass.old ≡ store.now }
    ensures { store_of pass.new ≡ store.now }
{
    for _ in 0..1_000_000_000 {
        match call_as(rt, alloc, store, pass, name.duplicate(), form, call) {
            Err(Fault::Busy | Fault::NoMemory) => {}
            Err(fault) => bail!("a call is refused: {fault}"),
            Ok(answer) => return Ok(answer),
        }
    }
    bail!("no call comes through")
}

/// Makes a call, and compares the note of its answer. A granted read has the blob's bytes.
pub(crate) fn expect<R: Wait>(
    rt: &R,
    alloc: Global,
    store: &ShardedStore,
    pass: &mut ShardedPass,
    name: &Name,
    form: Form,
    step: (Call, Note),
) -> Result<()>
    requires { store_of pass.old ≡ store.now }
    ensures { store_of pass.new ≡ store.now }
{
    let (call, note) = step;
    let answer = answer(rt, alloc, store, pass, name, form, call)?;
    ensure!(answer.note() == note, "another answer");
    match &answer {
        Answer::Granted(grant) => expect_blob(alloc, grant),
        _ => Ok(()),
    }
}

/// Collects a grant, again if out of memory.
fn expect_blob(alloc: Global, grant: &Grant) -> Result<()> {
    let pieces = match grant.collect(alloc) {
        Err(_) => grant.collect(alloc)?,
        Ok(pieces) => pieces,
    };
    ensure!(pieces.len() == BLOB.len(), "another number of pieces");
    for (piece, byte) in pieces.iter().zip(BLOB) {
        ensure!(piece.bytes().first() == Some(byte), "another byte");
    }
    Ok(())
}
