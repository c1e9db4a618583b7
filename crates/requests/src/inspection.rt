//! What the inspection of a book before a repair finds. Fragments are rebuilt outside the critical
//! section.
use book::{Answer, Fault};
use sealed::Sealed;
use std::sync::Arc;

/// What the inspection before a repair finds.
#[derive(Debug, Drop)]
pub enum Inspection {
    /// The repair was made, with this answer.
    Done(Answer),
    /// It was refused.
    Refused(Fault),
    /// The fragment can be rebuilt from this value, and nothing was done.
    Rebuildable(Arc<Sealed>),
}
