//! The objects that `lrc --json` prints.
//!
//! The names of the fields are the keys, which stay from version to version.
#![tactic(auto)]

mod parts;
mod print;
mod reports;

pub use parts::{FileObject, FragmentObject, OtherObject, StopObject, StripesObject};
pub use print::push_object;
pub use reports::{FailureObject, JoinObject, RepairObject, SetObject, SplitObject};
