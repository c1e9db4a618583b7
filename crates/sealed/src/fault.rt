//! Errors: why a call was refused.
ghost use Rattle.std.specs.Prelude.{◌≡◌};
ghost use Rattle.sealed.specs.declared.fault.Fault.TheVariants.{NoMemory};

use std::alloc::AllocError;
use thiserror::Error;

/// Why a call was refused. The store, book, grant or walk is then unchanged, and no history has the
/// call.
#[derive(Clone, Copy, Debug, Drop, PartialEq, Eq, Error)]
pub enum Fault {
    /// The call needed memory, and the allocator refused it.
    #[error("out of memory")]
    NoMemory,
    /// The journal holds as many entries as its limit.
    #[error("the journal is full")]
    JournalFull,
    /// The name is not 1 to 32 bytes of `a-z`, `0-9`, `.`, `_` and `-`.
    #[error("not a name")]
    BadName,
    /// The blob would have more than 4,096 stripes.
    #[error("the blob is too long")]
    TooLong,
    /// Another thread was in the gate's critical section.
    #[error("the store is busy")]
    Busy,
    /// The width is not in 1..=65,536.
    #[error("not a width")]
    BadWidth,
    /// The pass can't be split, since its room is 1.
    #[error("no pass is left")]
    NoPass,
}

impl From<AllocError> for Fault {
    ghost from_gives = { λ _ fault. fault ≡ NoMemory };

    fn from(_error: AllocError) -> Fault {
        Fault::NoMemory
    }
}
