//! One round: a thread for each worker that has a task, all joined at its end.
ghost use Rattle.std.specs.Prelude.{◌≡◌, ◌≤◌, ◌++◌, [], false, IfOk, IfErr, map};
ghost use Rattle.std.specs.Prelude.{vec_len, vec_capacity};
ghost use Rattle.rounds.specs.Rounds.{AllBelongTo, IsWorkFor, ArePaced, AreReady, IsReady, DidAll};
ghost use Rattle.rounds.specs.Rounds.{DidAt};
ghost use Rattle.rounds.specs.Rounds.{EachRan, AreReturned, work_of};

use crate::work::{DoesErrand, Errand, NotRun, Ran, Started, Work};
use shared::{Pace, Pass, Store};
use std::alloc::Global;
use std::snapshot::Snapshot;
use std::sync::Wait;
use std::thread;
use std::thread::{Scope, SpawnError, Threads};

/// Runs a worker's task, on the worker's thread.
fn work_on<R: Wait, E: Errand, P: Pace>(
    rt: &R,
    alloc: Global,
    store: &Store,
    work: Work<E>,
    pace: &P,
) -> Ran<E::Outcome>
    requires { IsWorkFor E.fits store.now work }
    ensures { DidAt E.did E.paced (P.may_answer pace.now) work result }
{
    let Work { mut pass, errand } = work;
    let outcome = errand.carry_out(rt, alloc, store, &mut pass, pace);
    Ran { pass, outcome }
}

/// Starts a worker's thread if the worker has a task. If no thread can be started, the calling
/// thread runs the task.
fn start<'s, 'e, R: Threads + Wait + Sync, E: Errand + Send + 'e, P: Pace + Sync>(
    scope: &Scope<'s, &'e ()>,
    rt: &'e R,
    alloc: Global,
    store: &'e Store,
    work: Work<E>,
    pace: &'e P,
) -> Started<E, P>
where
    E::Outcome: Send,
    requires { IsWorkFor E.fits store.now work }
    ensures work { work_of result ≡ work }
    ensures ready { IsReady E.fits E.did E.paced store.now pace.now (P.may_answer pace.now) result }
{
    if work.errand.is_idle() {
        return Started::Idle(work);
    }
    let (promise, same) = (
        DoesErrand(Snapshot::of(&work), Snapshot::of(pace)),
        DoesErrand(Snapshot::of(&work), Snapshot::of(pace)),
    );
    let run = move || -> Ran<E::Outcome>
        requires { IsWorkFor E.fits store.now work }
        ensures { DidAt E.did E.paced (P.may_answer pace.entry.now) work result }
    { work_on(rt, alloc, store, work, pace) };
    match scope.spawn_with(promise, run) {
        Ok(handle) => Started::Busy(handle),
        Err(refused) => {
            let SpawnError { value } = refused;
            Started::Done(same, value())
        }
    }
}

/// The works of a round, while threads are started.
#[derive(Drop)]
struct Begun<E: Errand, P: Pace> {
    /// The workers up to one whose thread can't be started.
    started: Vec<Started<E, P>>,
    /// The works behind it.
    left: Vec<Work<E>>,
    /// Whether there is such a one.
    is_short: bool,
}

/// Starts the workers, as long as that works.
fn start_all<'s, 'e, R: Threads + Wait + Sync, E: Errand + Send + 'e, P: Pace + Sync>(
    scope: &Scope<'s, &'e ()>,
    rt: &'e R,
    alloc: Global,
    store: &'e Store,
    works: Vec<Work<E>>,
    pace: &'e P,
    begun: Begun<E, P>,
) -> Begun<E, P>
where
    E::Outcome: Send,
    requires works { AllBelongTo E.fits store.now works.items }
    requires none { (begun.started.items ≡ []) × (begun.left.items ≡ [])
        × (begun.is_short ≡ false) }
    requires room { (vec_len works ≤ vec_capacity begun.started)
        × (vec_len works ≤ vec_capacity begun.left) }
    ensures works { map work_of result.started.items ++ result.left.items ≡ works.items }
    ensures ready { AreReady E.fits E.did E.paced store.now pace.now (P.may_answer pace.now)
        result.started.items }
    ensures all { result.is_short ≡ false → result.left.items ≡ [] }
{
    let Begun {
        mut started,
        mut left,
        mut is_short,
    } = begun;
    for work in works {
        if is_short {
            left.push_reserved(work);
        } else {
            let one = start(scope, rt, alloc, store, work, pace);
            is_short = one.is_done();
            started.push_reserved(one);
        }
    }
    Begun {
        started,
        left,
        is_short,
    }
}

/// The result of a worker, once its thread has ended. A worker without a task has no thread.
fn join<R: Threads + Wait, E: Errand, P: Pace>(
    rt: &R,
    alloc: Global,
    store: &Store,
    started: Started<E, P>,
    pace: &P,
) -> Ran<E::Outcome>
    requires { IsReady E.fits E.did E.paced store.now pace.now (P.may_answer pace.now) started }
    ensures { DidAt E.did E.paced (P.may_answer pace.now) (work_of started) result }
{
    match started {
        Started::Busy(handle) => handle.join(rt),
        Started::Idle(work) => work_on(rt, alloc, store, work, pace),
        Started::Done(_promise, ran) => ran,
    }
}

/// Joins the workers, in order.
fn join_all<R: Threads + Wait, E: Errand, P: Pace>(
    rt: &R,
    alloc: Global,
    store: &Store,
    started: Vec<Started<E, P>>,
    pace: &P,
    mut rans: Vec<Ran<E::Outcome>>,
) -> Vec<Ran<E::Outcome>>
    requires ready { AreReady E.fits E.did E.paced store.now pace.now (P.may_answer pace.now)
        started.items }
    requires none { rans.items ≡ [] }
    requires room { vec_len started ≤ vec_capacity rans }
    ensures { EachRan (DidAt E.did E.paced (P.may_answer pace.now)) (map work_of started.items)
        result.items }
{
    for one in started {
        rans.push_reserved(join(rt, alloc, store, one, pace));
    }
    rans
}

/// Runs a round. Each worker that has a task runs it on a thread of its own, and all are joined at
/// the end. The results are in the order of the workers: each ran its task with its pass, and did
/// nothing else.
///
/// `Memory` if memory runs out before any task has begun; the error has the unchanged works.
///
/// `Start` if a thread can't be started. That worker's task runs on the caller's thread, and the
/// workers before it are joined. The error has their results, and the unchanged works of the
/// workers behind it.
pub fn run_round<R: Threads + Wait + Sync, E: Errand + Send, P: Pace + Sync>(
    rt: &R,
    alloc: Global,
    store: &Store,
    works: Vec<Work<E>>,
    pace: &P,
) -> Result<Vec<Ran<E::Outcome>>, NotRun<E, E::Outcome>>
where
    E::Outcome: Send,
    requires { AllBelongTo E.fits store.now works.items }
    ensures did { IfOk result (λ rans. DidAll E.did works.items rans.items) }
    ensures paced { IfOk result (λ rans.
        ArePaced E.paced (P.may_answer pace.now) works.items rans.items) }
    ensures back { IfErr result (AreReturned E.did works.items) }
{
    let many = works.len();
    let (Ok(rans), Ok(started), Ok(left)) = (
        Vec::with_capacity(alloc, many),
        Vec::with_capacity(alloc, many),
        Vec::with_capacity(alloc, many),
    ) else {
        return Err(NotRun::Memory(works));
    };
    let begun = Begun {
        started,
        left,
        is_short: false,
    };
    thread::scope(
        thread::scope_env(),
        rt,
        move |scope| -> Result<Vec<Ran<E::Outcome>>, NotRun<E, E::Outcome>>
            requires { AllBelongTo E.fits store.now works.items × (rans.items ≡ [])
                × (vec_len works ≤ vec_capacity rans) × (begun.started.items ≡ [])
                × (begun.left.items ≡ []) × (begun.is_short ≡ false)
                × (vec_len works ≤ vec_capacity begun.started)
                × (vec_len works ≤ vec_capacity begun.left) }
            ensures did { IfOk result (λ rans.
                EachRan (DidAt E.did E.paced (P.may_answer pace.entry.now)) works.items
                rans.items) }
            ensures back { IfErr result (AreReturned E.did works.items) }
        {
            let Begun {
                started,
                left,
                is_short,
            } = start_all(scope, rt, alloc, store, works, pace, begun);
            let rans = join_all(rt, alloc, store, started, pace, rans);
            if is_short {
                return Err(NotRun::Start(rans, left));
            }
            Ok(rans)
        },
    )
}
