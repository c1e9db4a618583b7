//! Decoding: all lost fragments of a stripe in one pass over those that remain.
//!
//! The four equations of a code, summed over the fragments that remain, are the stripe's syndromes.
//! Every lost fragment that is not open is a sum of them, each times a share that depends on the
//! lost set alone. So the fragments that remain are read once, however many are lost.
//!
//! No call allocates.
#![tactic(auto)]

mod decoding;
mod plans;
mod reads;

pub use decoding::{decode_to, is_recipe_faster, rebuild_to, shares_of};
pub use plans::{DecodePlan, decode_by_plan, plan_for};
pub use reads::least_reads;
