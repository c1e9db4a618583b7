//! The numbers of a store.
ghost use Rattle.std.specs.Prelude.{◌≡◌};

use super::{beginning, delete, letters, lose, other_letters, put, trim};
use crate::tests::compare;
use book::{Name, Numbers};
use shared::{Pass, Store};
use std::alloc::Global;
use std::process::Abort;
use std::sync::Wait;

/// That the store has these numbers, which it gives waiting and not.
fn has<R: Wait + Abort>(rt: &R, store: &Store, pass: &mut Pass, numbers: Numbers)
    requires { pass.old.store ≡ store.now }
    ensures { pass.new.store ≡ store.now }
{
    compare(rt, store.numbers(rt, pass), numbers);
    compare(rt, store.try_numbers(pass), Ok(numbers));
}

const FOUR_LOST: Numbers = Numbers {
    blobs: 1,
    bytes: 12,
    lost: 4,
    unrecoverable: 1,
    calls: 5,
    entries: 5,
};

const REPLACED: Numbers = Numbers {
    blobs: 1,
    bytes: 12,
    lost: 0,
    unrecoverable: 0,
    calls: 6,
    entries: 6,
};

/// Loses four fragments of a group.
fn lose_four<R: Wait + Abort>(rt: &R, alloc: Global, store: &Store, pass: &mut Pass, name: &Name)
    requires { pass.old.store ≡ store.now }
    ensures { pass.new.store ≡ store.now }
{
    lose(rt, alloc, store, pass, name, 0);
    lose(rt, alloc, store, pass, name, 1);
    lose(rt, alloc, store, pass, name, 2);
    lose(rt, alloc, store, pass, name, 3);
}

#[test]
fn numbers_of_losses(rt: HostRuntime) {
    let alloc = rt.alloc();
    let (store, mut p, a) = beginning(&rt, alloc, 16);
    put(&rt, alloc, &store, &mut p, &a, letters(), 1);
    lose_four(&rt, alloc, &store, &mut p, &a);
    has(&rt, &store, &mut p, FOUR_LOST);
    put(&rt, alloc, &store, &mut p, &a, other_letters(), 2);
    has(&rt, &store, &mut p, REPLACED);
}

const NO_BLOB: Numbers = Numbers {
    blobs: 0,
    bytes: 0,
    lost: 0,
    unrecoverable: 0,
    calls: 2,
    entries: 1,
};

#[test]
fn numbers_of_no_blob(rt: HostRuntime) {
    let alloc = rt.alloc();
    let (store, mut p, a) = beginning(&rt, alloc, 16);
    put(&rt, alloc, &store, &mut p, &a, letters(), 1);
    delete(&rt, &store, &mut p, &a);
    trim(&rt, alloc, &store, &mut p, 1, 1);
    has(&rt, &store, &mut p, NO_BLOB);
}
