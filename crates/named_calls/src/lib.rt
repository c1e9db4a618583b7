//! The calls by name, each written once for every store that makes prepared calls.
#![tactic(auto)]

mod makes;
mod snapshot;
mod store;
mod try_calls;
mod waiting;
mod waits;

pub use makes::Makes;
pub use snapshot::{TrySnapshots, WaitingSnapshots, snapshot_of};
pub use try_calls::TryCalls;
pub use waiting::WaitingCalls;
pub use waits::Waits;
