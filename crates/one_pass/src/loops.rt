//! Computes targets block by block. The syndromes stay in registers.
ghost use Rattle.std.specs.Prelude.{◌≡◌, ◌<◌, ◌≤◌, ℕ, false, [], ◌∷◌, map, All, EachIndex};
ghost use Rattle.std.specs.Prelude.{length, slice_index, bit_xor};
ghost use Rattle.kernels.specs.Lists.{combined, bytes_at};
ghost use Rattle.one_pass.specs.Syndromes.{syndromes_at, sum_by};
ghost use Rattle.one_pass.specs.Weights.{AreWeights, UsesOnly, weighed, unit};
ghost use Rattle.one_pass.specs.Patterns.{group};

use crate::blocks::next_block;
use crate::columns::columns_at;
use crate::weights::{Weights, plain_of};
use kernels::{Block, LANES, store, sum_2};

/// The syndrome with the index `e`.
#[inline(always)]
fn syndrome_of(first: Block, second: Block, third: Block, fourth: Block, e: usize) -> Block
    requires { e < 4 }
    ensures { (k : ℕ) → k < LANES → slice_index result k
        ≡ combined (unit e) (λ i. bytes_at (first ∷ second ∷ third ∷ fourth ∷ []) k i) }
{
    match e {
        0 => first,
        1 => second,
        2 => third,
        _ => fourth,
    }
}

/// The index of the syndrome of the first group, or of the second.
#[inline(always)]
fn group_index(is_second: bool) -> usize
    ensures { result ≡ group is_second }
{
    if is_second { 1 } else { 0 }
}

/// Writes syndrome `e`, which is not the second. The compiler makes one function for each `COPY`.
#[inline(always)]
fn write_plain<const COPY: u8>(
    sources: &[&[u8]; 16],
    e: usize,
    third: bool,
    fourth: bool,
    x: &mut [u8],
)
    requires same { All (λ s. length s.now ≡ length x.old) sources.now }
    requires wide { LANES ≤ length x.old }
    requires inside { e < 4 }
    requires takes { UsesOnly (unit e) false third fourth }
    ensures x { EachIndex x.new (λ k. slice_index x.new k
        ≡ combined (unit e) (syndromes_at (map (λ s. s.now) sources.now) k)) }
{
    let width = x.len();
    let mut done = 0;
    'each: while done < width {
        let at = next_block(done, width);
        let s = columns_at(sources, false, third, fourth, at);
        let plain = syndrome_of(s.first, s.second, s.third, s.fourth, e);
        store(plain, x, at);
        done = at + LANES;
    }
}

/// Writes a weighted sum of the syndromes.
#[inline(always)]
fn write_weighed<const SECOND: bool, const FOURTH: bool>(
    sources: &[&[u8]; 16],
    weights: &Weights,
    x: &mut [u8],
)
    requires same { All (λ s. length s.now ≡ length x.old) sources.now }
    requires wide { LANES ≤ length x.old }
    requires second { SECOND ≡ false → weights.now.second.scale ≡ 0 }
    requires fourth { FOURTH ≡ false → weights.now.fourth.scale ≡ 0 }
    ensures x { EachIndex x.new (λ k. slice_index x.new k
        ≡ weighed weights.now (syndromes_at (map (λ s. s.now) sources.now) k)) }
{
    let width = x.len();
    let mut done = 0;
    'each: while done < width {
        let at = next_block(done, width);
        let s = columns_at(sources, SECOND, true, FOURTH, at);
        let sum = weights.sums_at(s, SECOND, FOURTH);
        store(sum, x, at);
        done = at + LANES;
    }
}

/// Writes one target by its shares.
#[inline(always)]
pub(crate) fn write_single(sources: &[&[u8]; 16], shares: &[u8; 4], weights: &Weights, x: &mut [u8])
    requires same { All (λ s. length s.now ≡ length x.old) sources.now }
    requires wide { LANES ≤ length x.old }
    requires are { AreWeights weights.now shares.now }
    ensures { EachIndex x.new (λ k. slice_index x.new k
        ≡ sum_by shares.now (syndromes_at (map (λ s. s.now) sources.now) k)) }
{
    let takes_second = weights.second.scale != 0;
    let takes_fourth = weights.fourth.scale != 0;
    match plain_of(shares) {
        Some(2) => write_plain::<0>(sources, 2, true, false, x),
        Some(3) => write_plain::<1>(sources, 3, false, true, x),
        _ if takes_second && takes_fourth => write_weighed::<true, true>(sources, weights, x),
        _ if takes_second => write_weighed::<true, false>(sources, weights, x),
        _ if takes_fourth => write_weighed::<false, true>(sources, weights, x),
        _ => write_weighed::<false, false>(sources, weights, x),
    }
}

/// Writes a weighted sum of the syndromes, and its sum with the syndrome of a group.
#[inline(always)]
pub(crate) fn write_pair<const SECOND: bool>(
    sources: &[&[u8]; 16],
    weights: &Weights,
    x: &mut [u8],
    y: &mut [u8],
)
    requires same { All (λ s. length s.now ≡ length x.old) sources.now }
    requires same_y { length y.old ≡ length x.old }
    requires wide { LANES ≤ length x.old }
    requires second { SECOND ≡ false → weights.now.second.scale ≡ 0 }
    requires fourth { weights.now.fourth.scale ≡ 0 }
    ensures x { EachIndex x.new (λ k. slice_index x.new k
        ≡ weighed weights.now (syndromes_at (map (λ s. s.now) sources.now) k)) }
    ensures y { EachIndex y.new (λ k. slice_index y.new k
        ≡ bit_xor (combined (unit (group SECOND)) (syndromes_at (map (λ s. s.now) sources.now) k))
        (weighed weights.now (syndromes_at (map (λ s. s.now) sources.now) k))) }
{
    let width = x.len();
    let mut done = 0;
    'each: while done < width {
        let at = next_block(done, width);
        let s = columns_at(sources, SECOND, true, false, at);
        let plain = syndrome_of(s.first, s.second, s.third, s.fourth, group_index(SECOND));
        let sum = weights.sums_at(s, SECOND, false);
        let total = sum_2(plain, sum);
        store(sum, x, at);
        store(total, y, at);
        done = at + LANES;
    }
}

/// Writes two weighted sums of the syndromes, and their sum with the syndrome of a group.
#[inline(always)]
pub(crate) fn write_triple<const SECOND: bool>(
    sources: &[&[u8]; 16],
    weights: &Weights,
    others: &Weights,
    x: &mut [u8],
    y: &mut [u8],
    z: &mut [u8],
)
    requires same { All (λ s. length s.now ≡ length x.old) sources.now }
    requires same_y { length y.old ≡ length x.old }
    requires same_z { length z.old ≡ length x.old }
    requires wide { LANES ≤ length x.old }
    requires second { SECOND ≡ false → weights.now.second.scale ≡ 0 }
    requires others { SECOND ≡ false → others.now.second.scale ≡ 0 }
    ensures x { EachIndex x.new (λ k. slice_index x.new k
        ≡ weighed weights.now (syndromes_at (map (λ s. s.now) sources.now) k)) }
    ensures y { EachIndex y.new (λ k. slice_index y.new k
        ≡ weighed others.now (syndromes_at (map (λ s. s.now) sources.now) k)) }
    ensures z { EachIndex z.new (λ k. slice_index z.new k
        ≡ bit_xor (bit_xor
        (combined (unit (group SECOND)) (syndromes_at (map (λ s. s.now) sources.now) k))
        (weighed others.now (syndromes_at (map (λ s. s.now) sources.now) k)))
        (weighed weights.now (syndromes_at (map (λ s. s.now) sources.now) k))) }
{
    let width = x.len();
    let mut done = 0;
    'each: while done < width {
        let at = next_block(done, width);
        let s = columns_at(sources, SECOND, true, true, at);
        let plain = syndrome_of(s.first, s.second, s.third, s.fourth, group_index(SECOND));
        let sum = weights.sums_at(s, SECOND, true);
        let other = others.sums_at(s, SECOND, true);
        let partial = sum_2(plain, other);
        let total = sum_2(partial, sum);
        store(sum, x, at);
        store(other, y, at);
        store(total, z, at);
        done = at + LANES;
    }
}

/// Writes a weighted sum of the syndromes and its sum with the first syndrome, and another one and
/// its sum with the second syndrome.
#[inline(always)]
pub(crate) fn write_two_pairs(
    sources: &[&[u8]; 16],
    weights: &Weights,
    others: &Weights,
    x: &mut [u8],
    y: &mut [u8],
    z: &mut [u8],
    w: &mut [u8],
)
    requires same { All (λ s. length s.now ≡ length x.old) sources.now }
    requires same_y { length y.old ≡ length x.old }
    requires same_z { length z.old ≡ length x.old }
    requires same_w { length w.old ≡ length x.old }
    requires wide { LANES ≤ length x.old }
    ensures x { EachIndex x.new (λ k. slice_index x.new k
        ≡ weighed weights.now (syndromes_at (map (λ s. s.now) sources.now) k)) }
    ensures y { EachIndex y.new (λ k. slice_index y.new k
        ≡ bit_xor (combined (unit 0) (syndromes_at (map (λ s. s.now) sources.now) k))
        (weighed weights.now (syndromes_at (map (λ s. s.now) sources.now) k))) }
    ensures z { EachIndex z.new (λ k. slice_index z.new k
        ≡ weighed others.now (syndromes_at (map (λ s. s.now) sources.now) k)) }
    ensures w { EachIndex w.new (λ k. slice_index w.new k
        ≡ bit_xor (combined (unit 1) (syndromes_at (map (λ s. s.now) sources.now) k))
        (weighed others.now (syndromes_at (map (λ s. s.now) sources.now) k))) }
{
    let width = x.len();
    let mut done = 0;
    'each: while done < width {
        let at = next_block(done, width);
        let s = columns_at(sources, true, true, true, at);
        let first = syndrome_of(s.first, s.second, s.third, s.fourth, 0);
        let sum = weights.sums_at(s, true, true);
        let one = sum_2(first, sum);
        store(sum, x, at);
        store(one, y, at);
        let second = syndrome_of(s.first, s.second, s.third, s.fourth, 1);
        let other = others.sums_at(s, true, true);
        let two = sum_2(second, other);
        store(other, z, at);
        store(two, w, at);
        done = at + LANES;
    }
}

/// Writes the third and the fourth syndrome.
#[inline(always)]
pub(crate) fn write_globals(sources: &[&[u8]; 16], x: &mut [u8], y: &mut [u8])
    requires same { All (λ s. length s.now ≡ length x.old) sources.now }
    requires same_y { length y.old ≡ length x.old }
    requires wide { LANES ≤ length x.old }
    ensures x { EachIndex x.new (λ k. slice_index x.new k
        ≡ combined (unit 2) (syndromes_at (map (λ s. s.now) sources.now) k)) }
    ensures y { EachIndex y.new (λ k. slice_index y.new k
        ≡ combined (unit 3) (syndromes_at (map (λ s. s.now) sources.now) k)) }
{
    let width = x.len();
    let mut done = 0;
    'each: while done < width {
        let at = next_block(done, width);
        let s = columns_at(sources, false, true, true, at);
        let third = syndrome_of(s.first, s.second, s.third, s.fourth, 2);
        let fourth = syndrome_of(s.first, s.second, s.third, s.fourth, 3);
        store(third, x, at);
        store(fourth, y, at);
        done = at + LANES;
    }
}

/// Writes the syndrome of a group, and a weighted sum of the syndromes.
#[inline(always)]
pub(crate) fn write_plain_and_weighed<const SECOND: bool, const FOURTH: bool>(
    sources: &[&[u8]; 16],
    weights: &Weights,
    x: &mut [u8],
    y: &mut [u8],
)
    requires same { All (λ s. length s.now ≡ length x.old) sources.now }
    requires same_y { length y.old ≡ length x.old }
    requires wide { LANES ≤ length x.old }
    requires second { SECOND ≡ false → weights.now.second.scale ≡ 0 }
    requires fourth { FOURTH ≡ false → weights.now.fourth.scale ≡ 0 }
    ensures x { EachIndex x.new (λ k. slice_index x.new k
        ≡ combined (unit (group SECOND)) (syndromes_at (map (λ s. s.now) sources.now) k)) }
    ensures y { EachIndex y.new (λ k. slice_index y.new k
        ≡ weighed weights.now (syndromes_at (map (λ s. s.now) sources.now) k)) }
{
    let width = x.len();
    let mut done = 0;
    'each: while done < width {
        let at = next_block(done, width);
        let s = columns_at(sources, SECOND, true, FOURTH, at);
        let plain = syndrome_of(s.first, s.second, s.third, s.fourth, group_index(SECOND));
        let sum = weights.sums_at(s, SECOND, FOURTH);
        store(plain, x, at);
        store(sum, y, at);
        done = at + LANES;
    }
}

/// Writes the first and the second syndrome, and two weighted sums of the syndromes.
#[inline(always)]
pub(crate) fn write_two_of_each(
    sources: &[&[u8]; 16],
    weights: &Weights,
    others: &Weights,
    x: &mut [u8],
    y: &mut [u8],
    z: &mut [u8],
    w: &mut [u8],
)
    requires same { All (λ s. length s.now ≡ length x.old) sources.now }
    requires same_y { length y.old ≡ length x.old }
    requires same_z { length z.old ≡ length x.old }
    requires same_w { length w.old ≡ length x.old }
    requires wide { LANES ≤ length x.old }
    ensures x { EachIndex x.new (λ k. slice_index x.new k
        ≡ combined (unit 0) (syndromes_at (map (λ s. s.now) sources.now) k)) }
    ensures y { EachIndex y.new (λ k. slice_index y.new k
        ≡ combined (unit 1) (syndromes_at (map (λ s. s.now) sources.now) k)) }
    ensures z { EachIndex z.new (λ k. slice_index z.new k
        ≡ weighed weights.now (syndromes_at (map (λ s. s.now) sources.now) k)) }
    ensures w { EachIndex w.new (λ k. slice_index w.new k
        ≡ weighed others.now (syndromes_at (map (λ s. s.now) sources.now) k)) }
{
    let width = x.len();
    let mut done = 0;
    'each: while done < width {
        let at = next_block(done, width);
        let s = columns_at(sources, true, true, true, at);
        let first = syndrome_of(s.first, s.second, s.third, s.fourth, 0);
        let second = syndrome_of(s.first, s.second, s.third, s.fourth, 1);
        let sum = weights.sums_at(s, true, true);
        let other = others.sums_at(s, true, true);
        store(first, x, at);
        store(second, y, at);
        store(sum, z, at);
        store(other, w, at);
        done = at + LANES;
    }
}
