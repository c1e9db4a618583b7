//! One list of the acts of many shards, each with its shard. It exists in proofs alone.
#![tactic(auto)]

mod entry;
mod held;
mod ledger;
mod steps;
mod view;

pub use held::{Changes, Held};
pub use ledger::{Follower, Keeper, Ledger, Receipt};
pub use steps::ActChoice;
pub use view::{Lawful, Setup, ShardAct, ShardActs, Shown, View};

#[cfg(test)]
mod tests;
