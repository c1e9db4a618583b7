//! The command line of `lrc`.
#![tactic(auto)]

mod command;
mod options;
mod parsing;

pub use options::{JoinLine, Line, RepairLine, SplitLine, VerifyLine};
pub use parsing::{BadLine, parse_line};
