//! Sums of the four syndromes of sixteen lists of bytes, in one pass over the lists: twelve lists,
//! and their four parities as `kernels` makes them. A list that is missing counts as zeros. A
//! syndrome is what a parity of the lists that are there and the parity in its place differ by.
//!
//! Each function whose name begins with `combine` is for one pattern of shares, and keeps the
//! syndromes in registers. The others are its pieces.
//!
//! No call allocates, and none refuses.
#![tactic(auto)]

mod blocks;
mod columns;
mod loops;
mod targets;
mod weights;

pub use blocks::{LONG_BLOCK, next_block, part_or_zeros, sources_of};
pub use columns::{Columns, columns_at};
pub use targets::{
    combine_globals, combine_pair, combine_plain_and_weighed, combine_single, combine_triple,
    combine_two_of_each, combine_two_pairs,
};
pub use weights::{Weights, plain_of};
