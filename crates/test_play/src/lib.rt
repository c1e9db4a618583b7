//! Tests of `play`: from the bytes of a script to the printed bytes.
#![tactic(auto)]

#[cfg(test)]
mod tests;
