//! Passes, and the calls that do not wait.
ghost use Rattle.std.specs.Prelude.{◌≡◌, All};

use super::{answers, beginning, gives, granted, letters, shape};
use crate::tests::compare;
use book::{Fault, Limit, Name, Note};
use lrc_code::Code;
use named_calls::TryCalls;
use shared::{Pass, Store};
use std::alloc::Global;
use std::process::Abort;

/// So many passes that are split off the first; the callers' labels count from 1.
fn split_some(
    rt: &impl Abort,
    alloc: Global,
    store: &Store,
    first: &mut Pass,
    count: u32,
) -> Vec<Pass>
    requires { first.old.store ≡ store.now }
    ensures first { first.new.store ≡ store.now }
    ensures passes { All (λ pass. pass.store ≡ store.now) result.items }
{
    let mut passes = Vec::new(alloc);
    for k in 0..count {
        let pass = first.split(store, k + 1).expect(rt, "memory");
        passes.push(pass).expect(rt, "memory");
    }
    passes
}

/// The last of 63 passes that are split off the first, which then has no other left.
fn last_of_all(rt: &impl Abort, alloc: Global, store: &Store, first: &mut Pass) -> Pass
    requires { first.old.store ≡ store.now }
    ensures { (first.new.store ≡ store.now) × (result.store ≡ store.now) }
{
    let mut passes = split_some(rt, alloc, store, first, 63);
    assert!(rt; matches!(first.split(store, 64), Err(Fault::NoPass)));
    passes.pop().expect(rt, "a pass")
}

/// That a pass has this label and this room.
fn is_pass(rt: &impl Abort, pass: &Pass, who: u32, room: u64) {
    compare(rt, (pass.who(), pass.room()), (who, room));
}

#[test]
fn at_most_64_passes(rt: HostRuntime) {
    let alloc = rt.alloc();
    let (store, mut first, a) = beginning(&rt, alloc, 16);
    answers(&rt, store.try_stat(&mut first, a), Note::NoName);
    let last = last_of_all(&rt, alloc, &store, &mut first);
    is_pass(&rt, &first, 0, 1);
    is_pass(&rt, &last, 63, 1);
    first.join(&store, last);
    is_pass(&rt, &first, 0, 2);
    assert!(rt; first.split(&store, 64).is_ok());
}

/// The first pass and the second accept a receipt of the first.
fn accept_both(store: &Store, first: &mut Pass, second: &mut Pass)
    requires { (first.old.store ≡ store.now) × (second.old.store ≡ store.now) }
    ensures { (first.new.store ≡ store.now) × (second.new.store ≡ store.now) }
{
    let mut receipt = first.receipt(store);
    let other = receipt.duplicate(store);
    second.accept(store, receipt);
    first.accept(store, other);
}

/// Two readers get a receipt of a put each, and ask for the blob.
#[test]
fn receipts_order_two_callers(rt: HostRuntime) {
    let alloc = rt.alloc();
    let (store, mut first, a) = beginning(&rt, alloc, 16);
    let mut second = first.split(&store, 1).expect(&rt, "memory");
    try_put(&rt, alloc, &store, &mut first, &a, 1);
    accept_both(&store, &mut first, &mut second);
    try_read(&rt, alloc, &store, &mut second, &a, 0);
}

#[test]
fn widths_from_1_to_65536(rt: HostRuntime) {
    let limit = Limit::new(1).expect(&rt, "a limit");
    for width in &[0, 65537] {
        assert!(rt; matches!(Store::open(rt.alloc(), *width, limit), Err(Fault::BadWidth)));
    }
    for width in &[1, 65536] {
        assert!(rt; Store::open(rt.alloc(), *width, limit).is_ok());
    }
}

/// Puts twelve letters under a name, without waiting: this is the put with this number.
fn try_put(rt: &impl Abort, alloc: Global, store: &Store, pass: &mut Pass, name: &Name, number: u64)
    requires { pass.old.store ≡ store.now }
    ensures { pass.new.store ≡ store.now }
{
    let stored = store.try_put(alloc, pass, name.duplicate(), letters());
    answers(rt, stored, Note::Stored(number));
}

/// Reads the twelve letters, without waiting. The first of them are built.
fn try_read(
    rt: &impl Abort,
    alloc: Global,
    store: &Store,
    pass: &mut Pass,
    name: &Name,
    built: usize,
)
    requires { pass.old.store ≡ store.now }
    ensures { pass.new.store ≡ store.now }
{
    let grant = granted(rt, store.try_read(pass, name.duplicate(), 0, 12));
    gives(rt, alloc, &grant, b"ABCDEFGHIJKL", built);
}

/// One pass puts a blob and reads it, and between that the other loses a fragment.
fn put_and_read(rt: &impl Abort, alloc: Global, store: &Store, p: &mut Pass, q: &mut Pass, a: &Name)
    requires { (p.old.store ≡ store.now) × (q.old.store ≡ store.now) }
    ensures { (p.new.store ≡ store.now) × (q.new.store ≡ store.now) }
{
    let stored = store.try_put_as(alloc, p, a.duplicate(), letters(), Code::Wide);
    answers(rt, stored, Note::Stored(1));
    let lost = store.try_lose(alloc, q, a.duplicate(), 0, 0);
    answers(rt, lost, Note::Lost(1));
    try_read(rt, alloc, store, p, a, 1);
}

/// One pass repairs and deletes, and between that the other asks for the shape.
fn repair_and_delete(
    rt: &impl Abort,
    alloc: Global,
    store: &Store,
    p: &mut Pass,
    q: &mut Pass,
    name: &Name,
)
    requires { (p.old.store ≡ store.now) × (q.old.store ≡ store.now) }
    ensures { (p.new.store ≡ store.now) × (q.new.store ≡ store.now) }
{
    let repaired = store.try_repair(alloc, p, name.duplicate(), 0, 0);
    answers(rt, repaired, Note::Repaired(1));
    answers(rt, store.try_stat(q, name.duplicate()), shape(1, 0));
    let deleted = store.try_delete(p, name.duplicate());
    answers(rt, deleted, Note::Deleted(1));
}

/// One pass discards all entries, and the other plans a mend and puts another blob.
fn trim_and_put(
    rt: &impl Abort,
    alloc: Global,
    store: &Store,
    p: &mut Pass,
    q: &mut Pass,
    name: &Name,
)
    requires { (p.old.store ≡ store.now) × (q.old.store ≡ store.now) }
{
    compare(rt, store.try_trim(alloc, p, 0), Ok(6));
    let plan = store.try_plan(alloc, q).expect(rt, "memory");
    compare(rt, plan.items.len(), 0);
    try_put(rt, alloc, store, q, name, 2);
}

/// Two passes take turns beside so many others.
fn take_turns(rt: &impl Abort, alloc: Global, others: u32) {
    let (store, mut p, a) = beginning(rt, alloc, 16);
    let mut q = p.split(&store, 1).expect(rt, "memory");
    let _idle = split_some(rt, alloc, &store, &mut p, others);
    put_and_read(rt, alloc, &store, &mut p, &mut q, &a);
    repair_and_delete(rt, alloc, &store, &mut q, &mut p, &a);
    trim_and_put(rt, alloc, &store, &mut p, &mut q, &a);
}

/// Nobody is inside, so no call is refused as busy, however many passes there are.
#[test]
fn passes_take_turns_and_never_find_the_other_inside(rt: HostRuntime) {
    for others in &[0, 1, 3, 62] {
        take_turns(&rt, rt.alloc(), *others);
    }
}
