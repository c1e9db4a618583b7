//! The results of a worker.
ghost use Rattle.mender.specs.Answers.{IsOfRepair};

use book::{Answer, Fault, Item};

/// A ticket with its item, and the answer of the item's repair, which is one of a repair's five.
#[derive(Debug, Drop)]
pub struct Done {
    /// The number that was drawn.
    pub ticket: u64,
    /// The item of the plan that has this number.
    pub item: Item,
    /// The answer of its repair.
    pub answer: Answer,
    ghost of_repair: { IsOfRepair answer },
}

/// Why a worker stopped, and its results so far. The ticket that it drew last has no result, and
/// its repair was not made.
#[derive(Debug, Drop)]
pub struct WorkFault {
    /// `NoMemory` or `JournalFull`.
    pub fault: Fault,
    /// The results of the tickets before.
    pub done: Vec<Done>,
}
