//! The width of a block. A build for AVX-512 sets it to 64: `tools/rt_once.py archive NAME v4`.

/// How many bytes are worked on at once: 32, or 64 for AVX-512. The proofs hold for both.
pub const LANES: usize = 32;
