//! Tests of `gate` and `shared`: threads that meet at the lock, and each call of the store.
#![tactic(auto)]

#[cfg(test)]
mod tests;
