//! The fragments of a file: stripes of blocks, each block in a record with a digest of where it
//! stands and of its bytes.
//!
//! No call allocates.
#![tactic(auto)]

mod records;
mod restoring;
mod sealing;

pub use records::{DIGEST, Place, is_whole, seal_record};
pub use restoring::{block_to, join_stripe};
pub use sealing::seal_stripe;
