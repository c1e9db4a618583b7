//! A round of works, to the outcomes of its workers.
ghost use Rattle.std.specs.Prelude.{◌≡◌, List, None, Some, IfOk, IfErr};
ghost use Rattle.rounds.specs.Halts.{GoesOn, HasRound};
ghost use Rattle.rounds.specs.Pools.{outcomes_of, passes_back};
ghost use Rattle.rounds.specs.Rounds.{AllBelongTo, DidAll};
ghost use Rattle.rounds.specs.declared.work.Ran.{Ran};
ghost use Rattle.play.specs.Lists.{Each};

use rounds::{Errand, Halt, Work, halted, run_round, unzip};
use shared::{Pace, Pass, Store};
use std::alloc::Global;
use std::sync::Wait;
use std::thread::Threads;

/// Runs the works of a round, each on a thread of its own. Returns the passes that came back and
/// the outcomes, in the order of the works, if each worker came to its end.
pub(crate) fn run_works<R: Threads + Wait + Sync, E: Errand + Send, P: Pace + Sync>(
    rt: &R,
    alloc: Global,
    store: &Store,
    works: Vec<Work<E>>,
    pace: &P,
) -> Result<(Vec<Pass>, Vec<E::Outcome>), Halt>
where
    E::Outcome: Send,
    requires { AllBelongTo E.fits store.now works.items }
    ensures did { IfOk result (λ r. (rans : List (Ran E.Outcome)) × DidAll E.did works.items rans
        × (r.0.items ≡ passes_back rans) × (r.1.items ≡ outcomes_of rans)) }
    ensures going { IfOk result
        (λ r. Each (GoesOn E.Outcome.lacks E.Outcome.paused) r.1.items) }
    ensures paced { IfOk result (λ _. HasRound E.did E.paced E.Outcome.lacks E.Outcome.paused
        (λ ran. ran ≡ works.items) (P.may_answer pace.now) None) }
    ensures paused { IfErr result (λ halt. halt ≡ Halt.Paused
        → HasRound E.did E.paced E.Outcome.lacks E.Outcome.paused
        (λ ran. ran ≡ works.items) (P.may_answer pace.now) (Some Halt.Paused)) }
{
    let rans = run_round(rt, alloc, store, works, pace)?;
    let (passes, outcomes) = unzip(alloc, rans)?;
    match halted(outcomes.as_slice()) {
        None => Ok((passes, outcomes)),
        Some(halt) => Err(halt),
    }
}
