//! What a store is asked, as values: calls with all that they need, what is done with the book in
//! the gate, and the jobs of a run.
#![tactic(auto)]

mod boxed_book;
mod inspection;
mod jobs;
mod request;
mod visiting;

pub use boxed_book::BoxedBook;
pub use inspection::Inspection;
pub use jobs::{Ask, Cause, Job, Pace, Reply, RowReply, Stopped};
pub use request::Request;
pub use visiting::{InspectionVisit, NumbersVisit, PlanPartVisit, RequestVisit, TrimPartVisit};
