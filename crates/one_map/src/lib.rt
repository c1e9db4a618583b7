//! What makes shards one map: a hash that gives each name its shard, and the law that the calls of
//! all shards, in any order that keeps each shard's, are those of one object over one map.
#![tactic(auto)]

mod law;
mod placement;

pub use law::prove_one_map;
pub use placement::find_shard;
