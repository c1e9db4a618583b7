//! The printed text of a script's run: a line for each row, a line for each journal entry, and the
//! number of calls.
#![tactic(auto)]

mod line;
mod outcome;
mod text;

pub use line::{Line, Reading};
pub use outcome::{NumberedOutcome, RowOutcome};
pub use text::print;
