//! Tests of `mender`: plans, tickets, workers that share them, and what they report.
#![tactic(auto)]

#[cfg(test)]
mod tests;
