//! Calls that are repeated if they run out of memory.
ghost use Rattle.std.specs.Prelude.{◌≡◌};
ghost use Rattle.shared.specs.Passes.{Stays};

use anyhow::{Result, ensure};
use book::{Answer, Fault, Limit, Name};
use bytes::Bytes;
use lrc_code::Code;
use named_calls::WaitingCalls;
use shared::{Pass, Store};
use std::alloc::Global;
use std::sync::Wait;

/// The kind of store, and a blob of one stripe of width 1: its code, its bytes, and the numbers of
/// its lost fragments.
#[derive(Drop)]
pub(crate) struct Case {
    pub has_journal: bool,
    pub code: Code,
    pub bytes: &'static [u8],
    pub lost: [u8; 4],
}

impl Case {
    /// The limit of the store's journal.
    pub(crate) fn limit(&self) -> Option<Limit> {
        if self.has_journal {
            Limit::new(16)
        } else {
            None
        }
    }

    /// How many entries a trim to two discards behind eight calls.
    pub(crate) fn trimmed(&self) -> u64 {
        if self.has_journal { 6 } else { 0 }
    }
}

/// A call, with its expected answer if the call alone does not determine it.
#[derive(Clone, Copy)]
pub(crate) enum Step {
    Put,
    Lose(u8),
    Repair(u8),
    /// Keeps two entries, and discards this many.
    Trim(u64),
    Stat,
}

/// Makes a call, and returns whether it has the expected answer.
fn once<R: Wait>(
    rt: &R,
    alloc: Global,
    store: &Store,
    pass: &mut Pass,
    case: &Case,
    step: Step,
) -> std::result::Result<bool, Fault>
    requires { pass.old.store ≡ store.now }
    ensures { Stays pass.old pass.new }
{
    let name = Name::new("a")?;
    Ok(match step {
        Step::Put => {
            let bytes = Bytes::from_static(case.bytes);
            matches!(
                store.put_as(rt, alloc, pass, name, bytes, case.code)?,
                Answer::Stored(1)
            )
        }
        Step::Lose(f) => {
            matches!(
                store.lose(rt, alloc, pass, name, 0, u64::from(f))?,
                Answer::Lost(1)
            )
        }
        Step::Repair(f) => {
            matches!(
                store.repair(rt, alloc, pass, name, 0, u64::from(f))?,
                Answer::Repaired(1)
            )
        }
        Step::Trim(count) => store.trim(rt, alloc, pass, 2)? == count,
        Step::Stat => matches!(
            store.stat(rt, pass, name)?,
            Answer::Shape {
                version: 1,
                stripes: 1,
                lost: 0,
                ..
            }
        ),
    })
}

/// Whether exactly these fragments are lost.
pub(crate) fn are_lost<R: Wait>(
    rt: &R,
    alloc: Global,
    store: &Store,
    pass: &mut Pass,
    lost: &[u8],
) -> bool
    requires { pass.old.store ≡ store.now }
    ensures { Stays pass.old pass.new }
{
    match store.plan(rt, alloc, pass) {
        Ok(plan) => {
            plan.items.len() == lost.len()
                && plan.items.iter().zip(lost).all(|(item, f)| item.f == *f)
        }
        Err(_) => false,
    }
}

/// Makes a call, and repeats it if it runs out of memory. The lost fragments are then as before.
pub(crate) fn make<R: Wait>(
    rt: &R,
    alloc: Global,
    store: &Store,
    pass: &mut Pass,
    case: &Case,
    step: Step,
    lost: &[u8],
) -> Result<()>
    requires { pass.old.store ≡ store.now }
    ensures { Stays pass.old pass.new }
{
    let mut answer = once(rt, alloc, store, pass, case, step);
    if answer == Err(Fault::NoMemory) {
        ensure!(
            are_lost(rt, alloc, store, pass, lost),
            "a refused call changed what is lost"
        );
        answer = once(rt, alloc, store, pass, case, step);
    }
    ensure!(answer == Ok(true), "another answer");
    Ok(())
}
