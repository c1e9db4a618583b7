//! Blocks: `LANES` bytes at once.
ghost use Rattle.std.specs.Prelude.{◌≡◌, ◌<◌, ◌≤◌, ◌+◌, ℕ, length, slice_index, bit_xor};
ghost use Rattle.gf256.specs.Field.{product};
ghost use Rattle.kernels.specs.Doublings.{third_apart, fourth_apart};

use crate::factor::Factor;
use crate::lanes::LANES;
use std::simd::prelude::*;

/// `LANES` bytes, in the lanes of a vector.
pub type Block = Simd<u8, LANES>;

/// The block from `at` on.
#[inline(always)]
pub fn load(source: &[u8], at: usize) -> Block
    requires { at + LANES ≤ length source.now }
    ensures lanes { (k : ℕ) → k < LANES → slice_index result k ≡ slice_index source.now (at + k) }
    ensures bytes { (k : ℕ) → k < LANES → slice_index result k < 256 }
{
    Block::from_slice(&source[at..])
}

/// Writes a block at `at`. The other bytes are unchanged.
#[inline(always)]
pub fn store(block: Block, target: &mut [u8], at: usize)
    requires { at + LANES ≤ length target.old }
    ensures lanes { (k : ℕ) → k < LANES → slice_index target.new (at + k) ≡ slice_index block k }
    ensures before { (k : ℕ) → k < at → slice_index target.new k ≡ slice_index target.old k }
    ensures after { (k : ℕ) → at + LANES ≤ k → slice_index target.new k ≡ slice_index target.old k }
{
    block.copy_to_slice(&mut target[at..]);
}

/// The sum of two blocks.
#[inline(always)]
pub fn sum_2(a: Block, b: Block) -> Block
    ensures { (k : ℕ) → k < LANES → slice_index result k
        ≡ bit_xor (slice_index a k) (slice_index b k) }
{
    a ^ b
}

/// The sum of three blocks.
#[inline(always)]
pub(crate) fn sum_3(a: Block, b: Block, c: Block) -> Block
    ensures { (k : ℕ) → k < LANES → slice_index result k
        ≡ bit_xor (bit_xor (slice_index a k) (slice_index b k)) (slice_index c k) }
{
    a ^ b ^ c
}

/// The sum of four blocks.
#[inline(always)]
pub(crate) fn sum_4(a: Block, b: Block, c: Block, d: Block) -> Block
    ensures { (k : ℕ) → k < LANES → slice_index result k
        ≡ bit_xor (bit_xor (bit_xor (slice_index a k) (slice_index b k)) (slice_index c k))
        (slice_index d k) }
{
    a ^ b ^ c ^ d
}

/// Each byte times x.
#[inline(always)]
fn twice_each(x: Block) -> Block
    ensures len { length result ≡ LANES }
    ensures lanes { (k : ℕ) → k < LANES → slice_index result k ≡ product 2 (slice_index x k) }
{
    // 0xFF in each lane with the highest bit, and 0 in the others
    let mask = Block::splat(0) - (x >> Block::splat(7));
    (x + x) ^ (mask & Block::splat(0x1D))
}

/// The sum of a block, and of another one times x.
#[inline(always)]
fn plus_2(a: Block, x: Block) -> Block
    ensures { (k : ℕ) → k < LANES → slice_index result k
        ≡ bit_xor (slice_index a k) (product 2 (slice_index x k)) }
{
    a ^ twice_each(x)
}

/// The third parity, from the sums over the bits of the numbers in each group.
#[inline(always)]
pub fn third_each(s0: Block, s1: Block, s2: Block, t0: Block, t1: Block, t2: Block) -> Block
    ensures { (k : ℕ) → k < LANES → slice_index result k
        ≡ third_apart (slice_index s0 k) (slice_index s1 k) (slice_index s2 k) (slice_index t0 k)
        (slice_index t1 k) (slice_index t2 k) }
{
    let s = plus_2(s0, plus_2(s1, s2));
    let t = plus_2(t0, plus_2(t1, t2));
    Factor::of_10().plus_times(s, t)
}

/// The fourth parity, from the sums over the bits of the numbers in each group, by products: 0x04,
/// 0x10 and 0x1D are x^2, x^4 and x^8.
#[inline(always)]
pub fn fourth_each(s0: Block, s1: Block, s2: Block, t0: Block, t1: Block, t2: Block) -> Block
    ensures { (k : ℕ) → k < LANES → slice_index result k
        ≡ fourth_apart (slice_index s0 k) (slice_index s1 k) (slice_index s2 k) (slice_index t0 k)
        (slice_index t1 k) (slice_index t2 k) }
{
    let one = Factor::of_04().plus_times(s0, s1);
    let two = Factor::of_10().plus_times(one, s2);
    let three = Factor::of_1d().plus_times(two, t0);
    let four = Factor::of_74().plus_times(three, t1);
    Factor::of_cd().plus_times(four, t2)
}
