//! Rounds of a script: each worker that has a task runs it on a thread of its own.
#![tactic(auto)]

mod halt;
mod kinds;
mod pool;
mod round;
mod work;

pub use halt::{Halt, halted};
pub use kinds::{Called, Calls, Mended, Mending, Returned};
pub use pool::{Pool, unzip};
pub use round::run_round;
pub use work::{Ending, Errand, NotRun, Ran, Work};
