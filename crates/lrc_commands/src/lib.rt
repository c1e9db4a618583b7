//! What each command of `lrc` does with the files that it names.
#![tactic(auto)]

mod check;
mod folders;
mod join_command;
mod repair_command;
mod run;
mod split_command;

pub use run::{Printed, run_line};
