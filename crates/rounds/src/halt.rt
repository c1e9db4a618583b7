//! Halts: why a run stopped before its end.
ghost use Rattle.std.specs.Prelude.{◌≡◌};
ghost use Rattle.std.specs.List.{list_any};
ghost use Rattle.rounds.specs.Halts.{halt_after};
ghost use Rattle.rounds.specs.declared.halt.Halt.TheVariants.{Memory};

use crate::work::{Ending, NotRun};
use std::alloc::{AllocError, AllocFailed};

/// Why a run stopped before its end.
#[derive(Clone, Copy, PartialEq, Eq, Debug)]
pub enum Halt {
    /// The program is out of memory.
    Memory,
    /// A worker's thread can't be started.
    Start,
    /// The pace stopped the run: `before` returned false for a row.
    Paused,
}

impl From<AllocError> for Halt {
    ghost from_gives = { λ _ halt. halt ≡ Memory };

    fn from(_error: AllocError) -> Halt {
        Halt::Memory
    }
}

impl<T: Drop> From<AllocFailed<T>> for Halt {
    ghost from_gives = { λ _ halt. halt ≡ Memory };

    fn from(_error: AllocFailed<T>) -> Halt {
        Halt::Memory
    }
}

impl<E: Drop, O: Drop> From<NotRun<E, O>> for Halt {
    ghost use Rattle.rounds.specs.Halts.{halt_by};

    ghost from_gives = { λ error halt. halt ≡ halt_by error };

    fn from(error: NotRun<E, O>) -> Halt {
        match error {
            NotRun::Memory(_left) => Halt::Memory,
            NotRun::Start(_rans, _left) => Halt::Start,
        }
    }
}

/// Whether this worker ran out of memory. A worker that met a full journal did not.
fn one_lacks_memory<O: Ending>(outcomes: &[O]) -> bool
    ensures { result ≡ list_any O.lacks outcomes.now }
{
    outcomes.iter().any(|outcome| outcome.lacks_memory())
}

/// Whether the pace stopped a worker.
fn one_is_paused<O: Ending>(outcomes: &[O]) -> bool
    ensures { result ≡ list_any O.paused outcomes.now }
{
    outcomes.iter().any(|outcome| outcome.is_paused())
}

/// Why a round ends the run, or `None` if it does not. If a worker ran out of memory and another
/// was paused, this is `Memory`.
pub fn halted<O: Ending>(outcomes: &[O]) -> Option<Halt>
    ensures { result ≡ halt_after O.lacks O.paused outcomes.now }
{
    if one_lacks_memory(outcomes) {
        return Some(Halt::Memory);
    }
    if one_is_paused(outcomes) {
        return Some(Halt::Paused);
    }
    None
}
