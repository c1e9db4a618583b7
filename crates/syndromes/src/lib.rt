//! Sums of the four syndromes of sixteen lists of bytes, which `one_pass` defines, by any shares.
//! Shares of a usual pattern are left to `one_pass`; for others the syndromes of a block of places
//! are written into four lists.
//!
//! No call allocates, and none refuses.
#![tactic(auto)]

mod blocks;
mod combine;
mod dispatch;
mod formulas;
mod pass;

pub use combine::combine_syndromes;
