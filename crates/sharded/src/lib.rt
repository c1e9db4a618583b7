//! A sharded store: from 1 to 64 stores, one of which holds each name. It is one map from names to
//! blobs. Each caller has a pass to every shard, and calls on names of different shards never wait
//! for each other. One list has the acts of all shards, each caller's in the order in which it made
//! them.
#![tactic(auto)]

mod close;
mod journals;
mod makes;
mod numbers;
mod parts;
mod pass;
mod plan_part;
mod receipts;
mod store;
mod workers;

pub use close::CloseFault;
pub use mender::{Done, Drawer, Gather, Report, Tickets, WorkFault, gather};
pub use named_calls::{Makes, TryCalls, TrySnapshots, WaitingCalls, WaitingSnapshots, Waits};
pub use one_map::{find_shard, prove_one_map};
pub use receipts::ShardedReceipt;
pub use requests::Request;
pub use shared::{
    Answer, Book, Bytes, Code, Fault, Grant, Item, Limit, Name, Numbers, Pass, Plan, Plans,
    Snapshot, Store, prepare_install,
};
pub use store::{ShardedPass, ShardedStore};
pub use workers::{scrub, work};
