//! What a worker gets for a round, and what it returns.
ghost use Rattle.std.specs.Prelude.{◌≡◌, ℕ, Bool};
ghost use Rattle.shared.specs.Passes.{Shows};

use shared::{Pace, Pass, Store};
use std::alloc::Global;
use std::snapshot::Snapshot;
use std::sync::Wait;
use std::thread::{Promise, PromisedHandle};

/// A worker's task in a round, with its pass.
#[derive(Drop)]
pub struct Work<E: Drop> {
    /// The worker's pass.
    pub pass: Pass,
    /// The worker's task.
    pub errand: E,
}

/// What a worker returns.
#[derive(Drop)]
pub struct Ran<O: Drop> {
    /// The worker's pass.
    pub pass: Pass,
    /// The outcome of its task.
    pub outcome: O,
}

/// The outcome of a task: whether its worker came to the end.
pub trait Ending: Drop {
    // The worker ran out of memory.
    ghost lacks: { Self → Bool };

    // The pace stopped the worker.
    ghost paused: { Self → Bool };

    /// Whether the worker ran out of memory. A worker that met a full journal did not.
    fn lacks_memory(&self) -> bool
        ensures { result ≡ lacks self.now };

    /// Whether the pace stopped the worker.
    fn is_paused(&self) -> bool
        ensures { result ≡ paused self.now };
}

/// A kind of task for the workers of a round.
pub trait Errand: Drop {
    /// The outcome of the task.
    type Outcome: Ending;

    // The task can be run with any pass to the store.
    ghost fits: { Self → Type 0 };

    // The effect: what the outcome may be, with the pass before and after the task.
    ghost did: { Shows → Self → Self.Outcome → Shows → Type 0 };

    // The same of a pace, of which is known what it may answer for a row.
    ghost paced: { (ℕ → Bool → Type 0) → Shows → Self → Self.Outcome → Shows → Type 0 };

    /// Whether there is nothing to do.
    fn is_idle(&self) -> bool;

    /// Runs the task at this pace.
    fn carry_out<R: Wait, P: Pace>(
        self,
        rt: &R,
        alloc: Global,
        store: &Store,
        pass: &mut Pass,
        pace: &P,
    ) -> Self::Outcome
        requires store { pass.old.store ≡ store.now }
        requires fits { fits self }
        ensures did { did pass.old self result pass.new }
        ensures paced { paced (P.may_answer pace.now) pass.old self result pass.new };
}

/// Why a round has no results. The error returns all works.
#[derive(Drop)]
pub enum NotRun<E: Drop, O: Drop> {
    /// Memory ran out before any task had begun. It has the unchanged works.
    Memory(Vec<Work<E>>),
    /// A thread can't be started. It has the results of the workers up to that one, and the
    /// unchanged works of those behind it.
    Start(Vec<Ran<O>>, Vec<Work<E>>),
}

/// A promise that a worker ran its task at this pace.
#[derive(Drop)]
pub(crate) struct DoesErrand<E: Drop, P>(pub(crate) Snapshot<Work<E>>, pub(crate) Snapshot<P>);

impl<E: Errand, P: Pace> Promise<Ran<E::Outcome>> for DoesErrand<E, P> {
    ghost use Rattle.rounds.specs.Rounds.{DidAt};

    ghost kept_by = { λ p r. DidAt E.did E.paced (P.may_answer p.1.value) p.0.value r };
}

/// A worker in its round: on a thread, without a task, or already done, if its thread can't be
/// started.
#[derive(Drop)]
pub(crate) enum Started<E: Errand, P: Pace> {
    Busy(PromisedHandle<Ran<E::Outcome>, DoesErrand<E, P>>),
    Idle(Work<E>),
    Done(DoesErrand<E, P>, Ran<E::Outcome>),
}

impl<E: Errand, P: Pace> Started<E, P> {
    /// Whether its thread can't be started.
    pub(crate) fn is_done(&self) -> bool {
        match self {
            Started::Done(..) => true,
            Started::Busy(_) | Started::Idle(_) => false,
        }
    }
}
