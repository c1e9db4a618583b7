//! What the commands of `lrc` do: write the fragments of a file, read what is lost, write lost
//! fragments again, and write the file again.
#![tactic(auto)]

mod joining;
mod lanes;
mod margin;
mod repairing;
mod splitting;
mod status;
mod survey;
mod target;

pub use joining::{Joined, Range, Unrecoverable, join, join_to, part_of};
pub use margin::fatal_loss;
pub use repairing::{Repaired, Wanted, repair};
pub use splitting::{SplitPlan, folder_of, split};
pub use status::Status;
pub use survey::{Fragment, Loss, Survey, bits_of, survey_set};
