//! The four syndromes of sixteen lists at the places of a block.
ghost use Rattle.std.specs.Prelude.{◌≡◌, ◌<◌, ◌≤◌, ◌+◌, ℕ, true, map, length, slice_index, bit_xor};
ghost use Rattle.std.specs.Prelude.{All};
ghost use Rattle.kernels.specs.Doublings.{third_apart, fourth_apart};
ghost use Rattle.kernels.specs.Lists.{bytes_at, list_at};
ghost use Rattle.one_pass.specs.Syndromes.{wide_syndrome};

use kernels::{Block, GroupSums, LANES, fourth_each, load_from, sum_2, sums_of, third_each};

/// The four syndromes at the places of a block.
#[derive(Clone, Copy, Drop)]
pub struct Columns {
    /// The first syndrome.
    pub first: Block,
    /// The second syndrome.
    pub second: Block,
    /// The third syndrome.
    pub third: Block,
    /// The fourth syndrome.
    pub fourth: Block,
}

/// The sum of a group, and the byte in the place of its parity.
#[inline(always)]
fn second_of(wanted: bool, t: GroupSums, sources: &[&[u8]], at: usize) -> Block
    requires count { length sources.now ≡ 16 }
    requires inside { All (λ s. at + LANES ≤ length s.now) sources.now }
    ensures { wanted ≡ true → (k : ℕ) → k < LANES → slice_index result k ≡ bit_xor
        (slice_index t.whole k) (slice_index (list_at (map (λ s. s.now) sources.now) 13) (at + k)) }
{
    if wanted {
        sum_2(t.whole, load_from(sources, 13, at))
    } else {
        Block::splat(0)
    }
}

/// The parity of the sums of two groups, and the byte in its place.
#[inline(always)]
fn third_of(wanted: bool, s: GroupSums, t: GroupSums, sources: &[&[u8]], at: usize) -> Block
    requires count { length sources.now ≡ 16 }
    requires inside { All (λ s. at + LANES ≤ length s.now) sources.now }
    ensures { wanted ≡ true → (k : ℕ) → k < LANES → slice_index result k ≡ bit_xor (third_apart
        (slice_index s.bit_0 k) (slice_index s.bit_1 k) (slice_index s.bit_2 k)
        (slice_index t.bit_0 k) (slice_index t.bit_1 k) (slice_index t.bit_2 k))
        (slice_index (list_at (map (λ s. s.now) sources.now) 14) (at + k)) }
{
    if wanted {
        let parity = third_each(s.bit_0, s.bit_1, s.bit_2, t.bit_0, t.bit_1, t.bit_2);
        sum_2(parity, load_from(sources, 14, at))
    } else {
        Block::splat(0)
    }
}

/// As `third_of` for the fourth parity, which has other doublings.
#[inline(always)]
fn fourth_of(wanted: bool, s: GroupSums, t: GroupSums, sources: &[&[u8]], at: usize) -> Block
    requires count { length sources.now ≡ 16 }
    requires inside { All (λ s. at + LANES ≤ length s.now) sources.now }
    ensures { wanted ≡ true → (k : ℕ) → k < LANES → slice_index result k ≡ bit_xor (fourth_apart
        (slice_index s.bit_0 k) (slice_index s.bit_1 k) (slice_index s.bit_2 k)
        (slice_index t.bit_0 k) (slice_index t.bit_1 k) (slice_index t.bit_2 k))
        (slice_index (list_at (map (λ s. s.now) sources.now) 15) (at + k)) }
{
    if wanted {
        let parity = fourth_each(s.bit_0, s.bit_1, s.bit_2, t.bit_0, t.bit_1, t.bit_2);
        sum_2(parity, load_from(sources, 15, at))
    } else {
        Block::splat(0)
    }
}

/// The syndromes of the block from `at` on; all but the first only if they are wanted.
#[inline(always)]
pub fn columns_at(sources: &[&[u8]], second: bool, third: bool, fourth: bool, at: usize) -> Columns
    requires count { length sources.now ≡ 16 }
    requires inside { All (λ s. at + LANES ≤ length s.now) sources.now }
    ensures first { (k : ℕ) → k < LANES → slice_index result.first k
        ≡ wide_syndrome 0 (bytes_at (map (λ s. s.now) sources.now) (at + k)) }
    ensures second { second ≡ true → (k : ℕ) → k < LANES → slice_index result.second k
        ≡ wide_syndrome 1 (bytes_at (map (λ s. s.now) sources.now) (at + k)) }
    ensures third { third ≡ true → (k : ℕ) → k < LANES → slice_index result.third k
        ≡ wide_syndrome 2 (bytes_at (map (λ s. s.now) sources.now) (at + k)) }
    ensures fourth { fourth ≡ true → (k : ℕ) → k < LANES → slice_index result.fourth k
        ≡ wide_syndrome 3 (bytes_at (map (λ s. s.now) sources.now) (at + k)) }
{
    let s = sums_of(sources, 0, at);
    let t = sums_of(sources, 6, at);
    Columns {
        first: sum_2(s.whole, load_from(sources, 12, at)),
        second: second_of(second, t, sources, at),
        third: third_of(third, s, t, sources, at),
        fourth: fourth_of(fourth, s, t, sources, at),
    }
}
