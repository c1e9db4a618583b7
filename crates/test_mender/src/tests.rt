//! What is shared by the tests.
ghost use Rattle.std.specs.Prelude.{◌≡◌, ◌<◌};

mod answers;
mod drawing;
mod gathering;
mod mending;
mod refused;

use book::{Answer, Book, Fault, Limit, Name, Note};
use bytes::Bytes;
use named_calls::WaitingCalls;
use sealed::{Sealed, count_stripes};
use shared::{Pass, Store};
use std::alloc::Global;
use std::fmt::Debug;
use std::process::Abort;
use std::sync::Wait;

/// A call on the blob of a name, which has one stripe of twelve bytes.
#[derive(Clone, Copy)]
enum Call {
    Put(&'static [u8]),
    Read,
    Lose(u64),
    Repair(u64),
    Delete,
    Stat,
}

/// Makes a call. The answer is what is noted of its answer.
fn make<R: Wait>(
    rt: &R,
    alloc: Global,
    store: &Store,
    pass: &mut Pass,
    name: &Name,
    call: Call,
) -> Result<Note, Fault>
    requires { pass.old.store ≡ store.now }
    ensures { pass.new.store ≡ store.now }
{
    let name = name.duplicate();
    note_of(match call {
        Call::Put(bytes) => store.put(rt, alloc, pass, name, Bytes::from_static(bytes)),
        Call::Read => store.read(rt, pass, name, 0, 12),
        Call::Lose(fragment) => store.lose(rt, alloc, pass, name, 0, fragment),
        Call::Repair(fragment) => store.repair(rt, alloc, pass, name, 0, fragment),
        Call::Delete => store.delete(rt, pass, name),
        Call::Stat => store.stat(rt, pass, name),
    })
}

/// What is noted of an answer.
fn note_of(called: Result<Answer, Fault>) -> Result<Note, Fault> {
    Ok(called?.note())
}

/// Makes a call that is not refused.
fn must_make<R: Wait + Abort>(
    rt: &R,
    alloc: Global,
    store: &Store,
    pass: &mut Pass,
    name: &Name,
    call: Call,
)
    requires { pass.old.store ≡ store.now }
    ensures { pass.new.store ≡ store.now }
{
    make(rt, alloc, store, pass, name, call).expect(rt, "an answer");
}

fn name_of(rt: &impl Abort, text: &str) -> Name {
    Name::new(text).expect(rt, "a name")
}

/// Whether this comes of each of these calls, made in turn.
fn all_give<R: Wait>(
    rt: &R,
    alloc: Global,
    store: &Store,
    pass: &mut Pass,
    name: &Name,
    calls: &[Call],
    wanted: Result<Note, Fault>,
) -> bool
    requires { pass.old.store ≡ store.now }
    ensures { pass.new.store ≡ store.now }
{
    let mut all = true;
    for call in calls {
        all &= make(rt, alloc, store, pass, name, *call) == wanted;
    }
    all
}

/// A store of width 1, and its first pass.
fn opened(rt: &impl Abort, alloc: Global, limit: u32) -> (Store, Pass)
    ensures { result.1.store ≡ result.0 }
{
    let limit = Limit::new(limit).expect(rt, "a limit");
    Store::open(alloc, 1, limit).expect(rt, "memory")
}

/// The book of a store whose passes are all joined to this one.
fn closed(rt: &impl Abort, store: Store, pass: Pass) -> Book
    requires { pass.store ≡ store }
{
    assert!(rt; pass.room() == 64);
    store.close(pass)
}

/// Asserts that what was found is what was wanted. For the prover a call is one state, and
/// `assert_eq!` in place is many.
fn compare<T: PartialEq + Debug + Drop>(rt: &impl Abort, found: T, wanted: T) {
    assert_eq!(rt; found, wanted);
}

/// A fragment of the only stripe, if it is there.
fn fragment<'a>(rt: &impl Abort, sealed: &'a Sealed, f: u8) -> Option<&'a [u8]>
    requires { f < 16 }
{
    assert!(rt; count_stripes(sealed.code, sealed.width, sealed.len) == 1);
    sealed.fragment(0, f)
}
