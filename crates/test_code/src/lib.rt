//! Tests of `gf256`, `kernels` and `lrc_code`: worked rows, parities, and fragments that come back.
#![tactic(auto)]

#[cfg(test)]
mod tests;
