//! Scripts: their rows, and why a row is refused.
#![tactic(auto)]

mod fields;
mod numbers;
mod options;
mod reading;
mod records;
mod retried;
mod rows;

pub use options::Options;
pub use reading::{read_script, script};
pub use rows::{BadScript, NotRead, Row, Task, Word};
