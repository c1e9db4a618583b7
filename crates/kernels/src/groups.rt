//! The parities of two groups of six lists, block by block. Each list is read once.
ghost use Rattle.std.specs.Prelude.{◌≡◌, ◌<◌, ◌≤◌, ◌+◌, ℕ, [], ◌∷◌, map, length, slice_index, All};
ghost use Rattle.kernels.specs.Doublings.{sum_of_6, with_bit_0, with_bit_1, with_bit_2};
ghost use Rattle.kernels.specs.Lists.{xor_sum, bytes_at, list_at};
ghost use Rattle.kernels.specs.Parities.{AreParitiesOfTwelve};

use crate::blocks::{Block, fourth_each, load, store, sum_3, sum_4, third_each};
use crate::lanes::LANES;

/// The block of list `f` from `at` on.
#[inline(always)]
pub fn load_from(sources: &[&[u8]], f: usize, at: usize) -> Block
    requires f_below { f < length sources.now }
    requires inside { All (λ s. at + LANES ≤ length s.now) sources.now }
    ensures lanes { (k : ℕ) → k < LANES → slice_index result k
        ≡ slice_index (list_at (map (λ s. s.now) sources.now) f) (at + k) }
    ensures bytes { (k : ℕ) → k < LANES → slice_index result k < 256 }
{
    load(sources[f], at)
}

/// The sums of a block of a group: of all six fragments, and of those whose number in the group,
/// counted from 1, has bit 0, bit 1 or bit 2.
#[derive(Clone, Copy, Drop)]
pub struct GroupSums {
    /// The sum of all six lists.
    pub whole: Block,
    /// The sum of those whose number has bit 0.
    pub bit_0: Block,
    /// The sum of those whose number has bit 1.
    pub bit_1: Block,
    /// The sum of those whose number has bit 2.
    pub bit_2: Block,
}

/// The sums of the six fragments from `first` on.
#[inline(always)]
pub fn sums_of(sources: &[&[u8]], first: usize, at: usize) -> GroupSums
    requires first_below { first + 6 ≤ length sources.now }
    requires inside { All (λ s. at + LANES ≤ length s.now) sources.now }
    ensures bytes { (i k : ℕ) → i < 6 → k < LANES
        → bytes_at (map (λ s. s.now) sources.now) (at + k) (first + i) < 256 }
    ensures whole { (k : ℕ) → k < LANES → slice_index result.whole k ≡ sum_of_6
        (λ i. bytes_at (map (λ s. s.now) sources.now) (at + k) (first + i)) }
    ensures bit_0 { (k : ℕ) → k < LANES → slice_index result.bit_0 k ≡ with_bit_0
        (λ i. bytes_at (map (λ s. s.now) sources.now) (at + k) (first + i)) }
    ensures bit_1 { (k : ℕ) → k < LANES → slice_index result.bit_1 k ≡ with_bit_1
        (λ i. bytes_at (map (λ s. s.now) sources.now) (at + k) (first + i)) }
    ensures bit_2 { (k : ℕ) → k < LANES → slice_index result.bit_2 k ≡ with_bit_2
        (λ i. bytes_at (map (λ s. s.now) sources.now) (at + k) (first + i)) }
{
    let x0 = load_from(sources, first, at);
    let x1 = load_from(sources, first + 1, at);
    let x2 = load_from(sources, first + 2, at);
    let x3 = load_from(sources, first + 3, at);
    let x4 = load_from(sources, first + 4, at);
    let x5 = load_from(sources, first + 5, at);
    let bit_0 = sum_3(x0, x2, x4);
    GroupSums {
        whole: sum_4(bit_0, x1, x3, x5),
        bit_0,
        bit_1: sum_3(x1, x2, x5),
        bit_2: sum_3(x3, x4, x5),
    }
}

/// Writes the parities of the block from `at` on.
#[inline(always)]
fn encode_block(
    sources: &[&[u8]],
    at: usize,
    first: &mut [u8],
    second: &mut [u8],
    third: &mut [u8],
    fourth: &mut [u8],
)
    requires count { length sources.now ≡ 12 }
    requires inside { All (λ s. at + LANES ≤ length s.now) sources.now }
    requires first_inside { at + LANES ≤ length first.old }
    requires second_inside { at + LANES ≤ length second.old }
    requires third_inside { at + LANES ≤ length third.old }
    requires fourth_inside { at + LANES ≤ length fourth.old }
    ensures parities { (k : ℕ) → k < LANES →
        AreParitiesOfTwelve (map (λ s. s.now) sources.now)
        (first.new ∷ second.new ∷ third.new ∷ fourth.new ∷ []) (at + k) }
    ensures first_before { (k : ℕ) → k < at → slice_index first.new k ≡ slice_index first.old k }
    ensures second_before { (k : ℕ) → k < at → slice_index second.new k ≡ slice_index second.old k }
    ensures third_before { (k : ℕ) → k < at → slice_index third.new k ≡ slice_index third.old k }
    ensures fourth_before { (k : ℕ) → k < at → slice_index fourth.new k ≡ slice_index fourth.old k }
{
    let s = sums_of(sources, 0, at);
    let t = sums_of(sources, 6, at);
    store(s.whole, first, at);
    store(t.whole, second, at);
    let parity = third_each(s.bit_0, s.bit_1, s.bit_2, t.bit_0, t.bit_1, t.bit_2);
    store(parity, third, at);
    let parity = fourth_each(s.bit_0, s.bit_1, s.bit_2, t.bit_0, t.bit_1, t.bit_2);
    store(parity, fourth, at);
}

/// A block that begins with the bytes of list `f`, which has no more than a block.
#[inline(always)]
fn padded(sources: &[&[u8]], f: usize) -> [u8; LANES]
    requires f_below { f < length sources.now }
    requires narrow { All (λ s. length s.now ≤ LANES) sources.now }
    ensures count { length result ≡ LANES }
    ensures bytes { (k : ℕ) → k < length (list_at (map (λ s. s.now) sources.now) f)
        → slice_index result k ≡ bytes_at (map (λ s. s.now) sources.now) k f }
{
    let mut block = [0; LANES];
    let bytes = sources[f];
    block[..bytes.len()].copy_from_slice(bytes);
    block
}

/// For each of twelve lists a block that begins with its bytes.
fn all_padded(sources: &[&[u8]]) -> [[u8; LANES]; 12]
    requires count { length sources.now ≡ 12 }
    requires narrow { All (λ s. length s.now ≤ LANES) sources.now }
    ensures count { length result ≡ 12 }
    ensures bytes { (f k : ℕ) → f < 12
        → k < length (list_at (map (λ s. s.now) sources.now) f)
        → bytes_at result k f ≡ bytes_at (map (λ s. s.now) sources.now) k f }
{
    [
        padded(sources, 0),
        padded(sources, 1),
        padded(sources, 2),
        padded(sources, 3),
        padded(sources, 4),
        padded(sources, 5),
        padded(sources, 6),
        padded(sources, 7),
        padded(sources, 8),
        padded(sources, 9),
        padded(sources, 10),
        padded(sources, 11),
    ]
}

/// As `encode_lists` for no more places than a block has: by one block of each list.
#[inline(never)]
fn encode_narrow(
    sources: &[&[u8]],
    first: &mut [u8],
    second: &mut [u8],
    third: &mut [u8],
    fourth: &mut [u8],
)
    requires count { length sources.now ≡ 12 }
    requires same { All (λ s. length s.now ≡ length first.old) sources.now }
    requires same_second { length second.old ≡ length first.old }
    requires same_third { length third.old ≡ length first.old }
    requires same_fourth { length fourth.old ≡ length first.old }
    requires narrow { All (λ s. length s.now ≤ LANES) sources.now }
    requires narrow_first { length first.old ≤ LANES }
    ensures { (k : ℕ) → k < length first.new →
        AreParitiesOfTwelve (map (λ s. s.now) sources.now)
        (first.new ∷ second.new ∷ third.new ∷ fourth.new ∷ []) k }
{
    let blocks = all_padded(sources);
    let lists: [&[u8]; 12] = [
        &blocks[0],
        &blocks[1],
        &blocks[2],
        &blocks[3],
        &blocks[4],
        &blocks[5],
        &blocks[6],
        &blocks[7],
        &blocks[8],
        &blocks[9],
        &blocks[10],
        &blocks[11],
    ];
    let mut made_first = [0; LANES];
    let mut made_second = [0; LANES];
    let mut made_third = [0; LANES];
    let mut made_fourth = [0; LANES];
    encode_block(
        &lists,
        0,
        &mut made_first,
        &mut made_second,
        &mut made_third,
        &mut made_fourth,
    );
    first.copy_from_slice(&made_first[..first.len()]);
    second.copy_from_slice(&made_second[..second.len()]);
    third.copy_from_slice(&made_third[..third.len()]);
    fourth.copy_from_slice(&made_fourth[..fourth.len()]);
}

/// The body of `write_parities`, with its contract: a function of its own, so that the compiler
/// keeps the caller's copies of the slices in registers.
#[inline(always)]
fn encode_lists(
    sources: &[&[u8]],
    first: &mut [u8],
    second: &mut [u8],
    third: &mut [u8],
    fourth: &mut [u8],
)
    requires count { length sources.now ≡ 12 }
    requires same { All (λ s. length s.now ≡ length first.old) sources.now }
    requires same_second { length second.old ≡ length first.old }
    requires same_third { length third.old ≡ length first.old }
    requires same_fourth { length fourth.old ≡ length first.old }
    ensures { (k : ℕ) → k < length first.new →
        AreParitiesOfTwelve (map (λ s. s.now) sources.now)
        (first.new ∷ second.new ∷ third.new ∷ fourth.new ∷ []) k }
{
    let width = first.len();
    if width < LANES {
        encode_narrow(sources, first, second, third, fourth);
        return;
    }
    let mut at = 0;
    'whole: while width - at > LANES {
        encode_block(sources, at, first, second, third, fourth);
        at += LANES;
    }
    // the last block ends with the lists, and may overlap the one before
    encode_block(sources, width - LANES, first, second, third, fourth);
}

/// Writes the parities of twelve lists, block by block.
pub fn write_parities(
    sources: &[&[u8]],
    first: &mut [u8],
    second: &mut [u8],
    third: &mut [u8],
    fourth: &mut [u8],
)
    requires count { length sources.now ≡ 12 }
    requires same { All (λ s. length s.now ≡ length first.old) sources.now }
    requires same_second { length second.old ≡ length first.old }
    requires same_third { length third.old ≡ length first.old }
    requires same_fourth { length fourth.old ≡ length first.old }
    ensures { (k : ℕ) → k < length first.new →
        AreParitiesOfTwelve (map (λ s. s.now) sources.now)
        (first.new ∷ second.new ∷ third.new ∷ fourth.new ∷ []) k }
{
    // copies, which a store to a parity cannot change
    let lists = [
        sources[0],
        sources[1],
        sources[2],
        sources[3],
        sources[4],
        sources[5],
        sources[6],
        sources[7],
        sources[8],
        sources[9],
        sources[10],
        sources[11],
    ];
    encode_lists(&lists, first, second, third, fourth);
}
