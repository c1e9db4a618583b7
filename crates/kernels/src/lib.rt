//! Sums of lists of bytes over GF(2^8), many places at once: of any lists with any coefficients,
//! and the four parities of twelve lists.
//!
//! No call allocates, and none refuses.
#![tactic(auto)]

mod blocks;
mod combine;
mod factor;
mod groups;
mod halves;
mod lanes;

pub use blocks::{Block, fourth_each, load, store, sum_2, third_each};
pub use combine::combine_lists;
pub use factor::Factor;
pub use groups::{GroupSums, load_from, sums_of, write_parities};
pub use lanes::LANES;
