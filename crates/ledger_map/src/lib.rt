//! What one ledger of all shards shows of a sharded store: one map.
#![tactic(auto)]

mod acts;

pub use acts::{OnShard, ShardBook, StoreAct};
