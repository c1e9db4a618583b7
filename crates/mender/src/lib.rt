//! Mending lost fragments. A plan names them, and each has a ticket, its index in the plan. Any
//! number of workers draw tickets, in rising order and each once, and repair the items of their
//! tickets. The results are gathered again: one for each item of the plan.
#![tactic(auto)]

mod done;
mod item;
mod mends;
mod report;
mod results;
mod tickets;
mod view;
mod workers;

pub use done::{Done, WorkFault};
pub use mends::Mends;
pub use report::{Gather, Report};
pub use results::gather;
pub use tickets::{Drawer, Tickets};
pub use workers::{repair_drawn, scrub, work};
