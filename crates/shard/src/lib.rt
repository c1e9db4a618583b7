//! One shard of a store in shards: a book and the keeper of its acts behind a lock, and the seats
//! of its callers. A call is recorded in the one list of all shards' acts.
#![tactic(auto)]

mod entry;
mod mending;
mod numbers;
mod plan;
mod plan_part;
mod seat;
mod shard;
mod trim;
mod trim_part;

pub use seat::{SeatReceipt, ShardSeat};
pub use shard::Shard;
