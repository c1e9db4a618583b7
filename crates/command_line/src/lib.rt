//! The command line of the program.
#![tactic(auto)]

mod help;
mod line;
mod reading;

pub use line::{BadLine, CommandLine};
pub use reading::parse_line;
