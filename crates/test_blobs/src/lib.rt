//! Tests of `sealed`, `lent`, `history` and `book`: blobs in stripes, ranges that are lent, judged
//! histories, and the store with one thread.
#![tactic(auto)]

#[cfg(test)]
mod tests;
