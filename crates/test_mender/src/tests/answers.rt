//! A mend with each kind of answer.
ghost use Rattle.std.specs.Prelude.{◌≡◌};

use super::{Call, compare, must_make, name_of, opened};
use book::Plan;
use mender::{Done, Report, WorkFault, gather, scrub, work};
use shared::{Pass, Store};
use std::alloc::Global;
use std::process::Abort;
use std::sync::Wait;

/// Puts a blob of each of four names, and loses its first fragment.
fn four_lost<R: Wait + Abort>(rt: &R, alloc: Global, store: &Store, pass: &mut Pass)
    requires { pass.old.store ≡ store.now }
    ensures { pass.new.store ≡ store.now }
{
    for text in &["a", "b", "c", "d"] {
        let name = name_of(rt, text);
        must_make(rt, alloc, store, pass, &name, Call::Put(b"ABCDEFGHIJKL"));
        must_make(rt, alloc, store, pass, &name, Call::Lose(0));
    }
}

/// After the plan, the lost fragment of `b` is repaired, `c` is deleted, and that of `d` becomes
/// unrecoverable.
fn change<R: Wait + Abort>(rt: &R, alloc: Global, store: &Store, pass: &mut Pass)
    requires { pass.old.store ≡ store.now }
    ensures { pass.new.store ≡ store.now }
{
    must_make(rt, alloc, store, pass, &name_of(rt, "b"), Call::Repair(0));
    must_make(rt, alloc, store, pass, &name_of(rt, "c"), Call::Delete);
    let d = name_of(rt, "d");
    for f in &[1, 2, 3] {
        must_make(rt, alloc, store, pass, &d, Call::Lose(*f));
    }
}

/// That a worker came to its end with one of each of the four answers.
fn has_each(rt: &impl Abort, alloc: Global, plan: &Plan, ended: Result<Vec<Done>, WorkFault>) {
    let done = ended.expect(rt, "a worker that ends");
    compare(rt, gather(alloc, plan, done), Ok(ONE_EACH));
}

const ONE_EACH: Report = Report {
    repaired: 1,
    not_lost: 1,
    gone: 1,
    unrecoverable: 1,
};

/// Changes what a plan was made for, and works.
fn mend_after_changes<R: Wait + Abort>(rt: &R, alloc: Global, store: &Store, pass: &mut Pass)
    requires { pass.old.store ≡ store.now }
{
    let (plan, tickets, mut drawer) = scrub(rt, alloc, store, pass).expect(rt, "memory");
    compare(rt, plan.items.len(), 4);
    change(rt, alloc, store, pass);
    let result = work(rt, alloc, store, pass, &plan, &tickets, &mut drawer);
    has_each(rt, alloc, &plan, result);
}

/// One of each of the four answers, which no script can bring about: there a mend is alone.
#[test]
fn a_mend_has_each_answer(rt: HostRuntime) {
    let alloc = rt.alloc();
    let (store, mut pass) = opened(&rt, alloc, 100);
    four_lost(&rt, alloc, &store, &mut pass);
    mend_after_changes(&rt, alloc, &store, &mut pass);
}
