//! Runs of calls: the jobs, and the replies to them.
ghost use Rattle.std.specs.Prelude.{ℕ, Bool, ⊤};

use book::{Answer, Fault, Name};
use bytes::Bytes;
use lrc_code::Code;
use thiserror::Error;

/// A call with its arguments, or a trim.
#[derive(Debug, Drop, PartialEq, Eq)]
pub enum Ask {
    /// Puts these bytes under the name, in this code.
    Put {
        name: Name,
        code: Code,
        bytes: Bytes,
    },
    /// Reads `len` bytes from `start` on.
    Read {
        name: Name,
        start: u64,
        len: u64,
    },
    /// Loses a fragment of a stripe.
    Lose {
        name: Name,
        stripe: u64,
        fragment: u64,
    },
    /// Repairs a lost fragment of a stripe.
    Repair {
        name: Name,
        stripe: u64,
        fragment: u64,
    },
    /// Deletes the blob.
    Delete {
        name: Name,
    },
    /// Asks for the blob's shape.
    Stat {
        name: Name,
    },
    /// Discards all entries of the journal except the last `keep`.
    Trim {
        keep: u64,
    },
}

/// A call or a trim, and the row that asks for it.
#[derive(Debug, Drop, PartialEq, Eq)]
pub struct Job {
    /// The row.
    pub row: u32,
    /// What it asks for.
    pub ask: Ask,
}

/// The reply to a job.
#[derive(Debug, Drop)]
pub enum Reply {
    /// The call was made, with this answer.
    Made(Answer),
    /// The call was refused, for a full journal or a blob that is too long, and was not made.
    Refused(Fault),
    /// So many entries were discarded.
    Trimmed(u64),
}

/// The reply to a job, and the job's row.
#[derive(Debug, Drop)]
pub struct RowReply {
    /// The row.
    pub row: u32,
    /// The reply to it.
    pub reply: Reply,
}

/// Why a run stopped.
#[derive(Clone, Copy, Debug, Drop, PartialEq, Eq, Error)]
pub enum Cause {
    /// Out of memory.
    #[error("out of memory")]
    NoMemory,
    /// A `before` answered false.
    #[error("the run was paused")]
    Paused,
}

/// A run that stopped.
#[derive(Debug, Drop)]
pub struct Stopped {
    /// The replies so far, each with its row.
    pub done: Vec<RowReply>,
    /// Why it stopped.
    pub cause: Cause,
}

/// What a run does before and after each row.
pub trait Pace {
    // Holds of each answer that `before` may give for a row.
    ghost may_answer: { Self → ℕ → Bool → Type 0 } = { λ _ _ _. ⊤ };

    /// Whether the run goes on with this row.
    fn before(&self, row: u32) -> bool
        ensures { may_answer self.now row result };

    /// The row was done.
    fn after(&self, row: u32);
}
