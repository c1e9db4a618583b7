//! The outcomes of rows.

use mender::Report;
use requests::Reply;

/// The outcome of the row with this number, from 1.
#[derive(Drop)]
pub struct NumberedOutcome {
    pub number: u32,
    pub outcome: RowOutcome,
}

/// The outcome of a row.
#[derive(Drop)]
pub enum RowOutcome {
    /// The reply to its call, or the refusal of it.
    Replied(Reply),
    /// The lost fragments of the plan are repaired.
    Mended(Report),
    /// A worker met a full journal during the mend.
    Full,
}
