//! The sum of lists, each times its coefficient, block by block, by tables that are made once. Each
//! list is read once.
ghost use Rattle.std.specs.Prelude.{◌≡◌, ℕ, ◌<◌, ◌≤◌, ◌+◌, IsTrue, map, length, slice_index};
ghost use Rattle.std.specs.Prelude.{bit_xor, All, EachIndex};
ghost use Rattle.kernels.specs.Lists.{combined, bytes_at};
ghost use Rattle.kernels.specs.Tables.{AreLow, AreHigh};

use crate::blocks::{Block, load, store, sum_2};
use crate::factor::{Factor, look_up};
use crate::lanes::LANES;
use gf256::add_scaled;

/// The sum of the blocks from `at` on: the products with coefficient `i` stand in the tables `i`.
#[inline(always)]
fn sum_block(
    coefficients: &[u8],
    lows: &[Block],
    highs: &[Block],
    sources: &[&[u8]],
    at: usize,
) -> Block
    requires low { AreLow coefficients.now lows.now }
    requires high { AreHigh coefficients.now highs.now }
    requires count { length sources.now ≡ length coefficients.now }
    requires count_low { length lows.now ≡ length coefficients.now }
    requires count_high { length highs.now ≡ length coefficients.now }
    requires inside { All (λ s. at + LANES ≤ length s.now) sources.now }
    ensures { (k : ℕ) → k < LANES → slice_index result k
        ≡ combined coefficients.now (bytes_at (map (λ s. s.now) sources.now) (at + k)) }
{
    let mut sum = Block::splat(0);
    for i in 0..coefficients.len() {
        sum = sum_2(sum, look_up(lows[i], highs[i], load(sources[i], at)));
    }
    sum
}

/// The sums at the places of two blocks.
#[derive(Drop)]
struct Two {
    first: Block,
    second: Block,
}

/// The sums of the two blocks from `at` on: each table is read once for both.
#[inline(always)]
fn sum_two(
    coefficients: &[u8],
    lows: &[Block],
    highs: &[Block],
    sources: &[&[u8]],
    at: usize,
    next: usize,
) -> Two
    requires low { AreLow coefficients.now lows.now }
    requires high { AreHigh coefficients.now highs.now }
    requires count { length sources.now ≡ length coefficients.now }
    requires count_low { length lows.now ≡ length coefficients.now }
    requires count_high { length highs.now ≡ length coefficients.now }
    requires inside { All (λ s. at + LANES + LANES ≤ length s.now) sources.now }
    requires next { next ≡ at + LANES }
    ensures first { (k : ℕ) → k < LANES → slice_index result.first k
        ≡ combined coefficients.now (bytes_at (map (λ s. s.now) sources.now) (at + k)) }
    ensures second { (k : ℕ) → k < LANES → slice_index result.second k
        ≡ combined coefficients.now (bytes_at (map (λ s. s.now) sources.now) (next + k)) }
{
    let mut first = Block::splat(0);
    let mut second = Block::splat(0);
    for i in 0..coefficients.len() {
        let low = lows[i];
        let high = highs[i];
        let source = sources[i];
        first = sum_2(first, look_up(low, high, load(source, at)));
        second = sum_2(second, look_up(low, high, load(source, next)));
    }
    Two { first, second }
}

/// The sums of the blocks from `at` on, and of those from `next` on. The tables of a coefficient
/// are made where they are used, and not kept.
#[inline(always)]
fn sum_once(coefficients: &[u8], sources: &[&[u8]], at: usize, next: usize) -> Two
    requires count { length sources.now ≡ length coefficients.now }
    requires inside { All (λ s. at + LANES ≤ length s.now) sources.now }
    requires next_inside { All (λ s. next + LANES ≤ length s.now) sources.now }
    ensures first { (k : ℕ) → k < LANES → slice_index result.first k
        ≡ combined coefficients.now (bytes_at (map (λ s. s.now) sources.now) (at + k)) }
    ensures second { (k : ℕ) → k < LANES → slice_index result.second k
        ≡ combined coefficients.now (bytes_at (map (λ s. s.now) sources.now) (next + k)) }
{
    let mut first = Block::splat(0);
    let mut second = Block::splat(0);
    for i in 0..coefficients.len() {
        let factor = Factor::new(coefficients[i]);
        let source = sources[i];
        first = factor.plus_times(first, load(source, at));
        second = factor.plus_times(second, load(source, next));
    }
    Two { first, second }
}

/// Makes the target the sum at each place, where it has at most two blocks.
fn sum_few(target: &mut [u8], coefficients: &[u8], sources: &[&[u8]])
    requires count { length sources.now ≡ length coefficients.now }
    requires wide { LANES ≤ length target.old }
    requires few { length target.old ≤ LANES + LANES }
    requires same { All (λ s. length s.now ≡ length target.old) sources.now }
    ensures { EachIndex target.new (λ k. slice_index target.new k
        ≡ combined coefficients.now (bytes_at (map (λ s. s.now) sources.now) k)) }
{
    // the second block ends with the lists, and may overlap the first
    let last = target.len() - LANES;
    let sums = sum_once(coefficients, sources, 0, last);
    store(sums.first, target, 0);
    store(sums.second, target, last);
}

/// Makes the target the sum at each place.
#[inline(always)]
fn sum_blocks(
    target: &mut [u8],
    coefficients: &[u8],
    lows: &[Block],
    highs: &[Block],
    sources: &[&[u8]],
)
    requires low { AreLow coefficients.now lows.now }
    requires high { AreHigh coefficients.now highs.now }
    requires count { length sources.now ≡ length coefficients.now }
    requires count_low { length lows.now ≡ length coefficients.now }
    requires count_high { length highs.now ≡ length coefficients.now }
    requires wide { LANES ≤ length target.old }
    requires same { All (λ s. length s.now ≡ length target.old) sources.now }
    ensures { EachIndex target.new (λ k. slice_index target.new k
        ≡ combined coefficients.now (bytes_at (map (λ s. s.now) sources.now) k)) }
{
    let width = target.len();
    let mut at = 0;
    'pairs: while width - at > LANES + LANES {
        let sums = sum_two(coefficients, lows, highs, sources, at, at + LANES);
        store(sums.first, target, at);
        store(sums.second, target, at + LANES);
        at += LANES + LANES;
    }
    'whole: while width - at > LANES {
        store(
            sum_block(coefficients, lows, highs, sources, at),
            target,
            at,
        );
        at += LANES;
    }
    // the last block ends with the lists, and may overlap the one before
    let last = width - LANES;
    store(
        sum_block(coefficients, lows, highs, sources, last),
        target,
        last,
    );
}

/// The sum of the blocks from `at` on, where each coefficient is 1.
#[inline(always)]
fn plain_block(coefficients: &[u8], sources: &[&[u8]], at: usize) -> Block
    requires ones { All (λ c. c ≡ 1) coefficients.now }
    requires count { length sources.now ≡ length coefficients.now }
    requires inside { All (λ s. at + LANES ≤ length s.now) sources.now }
    ensures { (k : ℕ) → k < LANES → slice_index result k
        ≡ combined coefficients.now (bytes_at (map (λ s. s.now) sources.now) (at + k)) }
{
    let mut sum = Block::splat(0);
    for i in 0..coefficients.len() {
        sum = sum_2(sum, load(sources[i], at));
    }
    sum
}

/// Makes the target the sum at each place, where each coefficient is 1.
#[inline(always)]
fn plain_blocks(target: &mut [u8], coefficients: &[u8], sources: &[&[u8]])
    requires ones { All (λ c. c ≡ 1) coefficients.now }
    requires count { length sources.now ≡ length coefficients.now }
    requires wide { LANES ≤ length target.old }
    requires same { All (λ s. length s.now ≡ length target.old) sources.now }
    ensures { EachIndex target.new (λ k. slice_index target.new k
        ≡ combined coefficients.now (bytes_at (map (λ s. s.now) sources.now) k)) }
{
    let width = target.len();
    let mut at = 0;
    // four blocks an iteration, so that a pointer is read once for four
    'quads: while width - at >= 4 * LANES {
        let next = at + LANES;
        let third = next + LANES;
        let last = third + LANES;
        let a = plain_block(coefficients, sources, at);
        let b = plain_block(coefficients, sources, next);
        let c = plain_block(coefficients, sources, third);
        let d = plain_block(coefficients, sources, last);
        store(a, target, at);
        store(b, target, next);
        store(c, target, third);
        store(d, target, last);
        at = last + LANES;
    }
    'whole: while width - at >= LANES {
        store(plain_block(coefficients, sources, at), target, at);
        at += LANES;
    }
    // the last block ends with the lists, and overlaps the one before
    if at < width {
        let last = width - LANES;
        store(plain_block(coefficients, sources, last), target, last);
    }
}

/// Makes the target the sum at each place, where each coefficient is 1.
fn sum_plainly(target: &mut [u8], coefficients: &[u8], sources: &[&[u8]])
    requires ones { All (λ c. c ≡ 1) coefficients.now }
    requires count { length sources.now ≡ length coefficients.now }
    requires wide { LANES ≤ length target.old }
    requires same { All (λ s. length s.now ≡ length target.old) sources.now }
    ensures { EachIndex target.new (λ k. slice_index target.new k
        ≡ combined coefficients.now (bytes_at (map (λ s. s.now) sources.now) k)) }
{
    // the same call twice: where there are six lists, as in a group, the code for a block has no
    // loop, and keeps copies of the slices in registers, which a store to the target cannot change
    if coefficients.len() == 6 {
        let six = [
            sources[0], sources[1], sources[2], sources[3], sources[4], sources[5],
        ];
        plain_blocks(target, coefficients, &six);
    } else {
        plain_blocks(target, coefficients, sources);
    }
}

/// Makes the tables of the coefficients.
#[inline(always)]
fn tables_of(coefficients: &[u8], lows: &mut [Block; 15], highs: &mut [Block; 15])
    requires few { length coefficients.now ≤ 15 }
    ensures low { AreLow coefficients.now lows.new }
    ensures high { AreHigh coefficients.now highs.new }
    ensures count_low { length lows.new ≡ 15 }
    ensures count_high { length highs.new ≡ 15 }
{
    for i in 0..coefficients.len() {
        let factor = Factor::new(coefficients[i]);
        lows[i] = factor.low();
        highs[i] = factor.high();
    }
}

/// Makes the target the sum at each place, by tables.
fn sum_by_tables(target: &mut [u8], coefficients: &[u8], sources: &[&[u8]])
    requires count { length sources.now ≡ length coefficients.now }
    requires few { length coefficients.now ≤ 15 }
    requires wide { LANES ≤ length target.old }
    requires same { All (λ s. length s.now ≡ length target.old) sources.now }
    ensures { EachIndex target.new (λ k. slice_index target.new k
        ≡ combined coefficients.now (bytes_at (map (λ s. s.now) sources.now) k)) }
{
    let mut lows = [Block::splat(0); 15];
    let mut highs = [Block::splat(0); 15];
    tables_of(coefficients, &mut lows, &mut highs);
    let count = coefficients.len();
    let lows = &lows[..count];
    let highs = &highs[..count];
    // the same call twice: where there are twelve lists, the code for a block has no loop
    if count == 12 {
        sum_blocks(target, coefficients, lows, highs, sources);
    } else {
        sum_blocks(target, coefficients, lows, highs, sources);
    }
}

/// Adds the lists, each times its coefficient, one by one: for few places.
fn add_each(target: &mut [u8], coefficients: &[u8], sources: &[&[u8]])
    requires count { length sources.now ≡ length coefficients.now }
    requires same { All (λ s. length s.now ≡ length target.old) sources.now }
    ensures { EachIndex target.new (λ k. slice_index target.new k
        ≡ bit_xor (slice_index target.old k) (combined coefficients.now (bytes_at (map
        (λ s. s.now) sources.now) k))) }
{
    for i in 0..coefficients.len() {
        add_scaled(target, coefficients[i], sources[i]);
    }
}

/// Makes every byte 0.
fn clear(target: &mut [u8])
    ensures { EachIndex target.new (λ k. slice_index target.new k ≡ 0) }
{
    for i in 0..target.len() {
        target[i] = 0;
    }
}

/// Whether each coefficient is 1.
fn are_ones(coefficients: &[u8]) -> bool
    ensures { IsTrue result → All (λ c. c ≡ 1) coefficients.now }
{
    coefficients.iter().all(|c| *c == 1)
}

/// Makes the target the sum of at most fifteen lists of its length, each times its coefficient,
/// place by place.
pub fn combine_lists(target: &mut [u8], coefficients: &[u8], sources: &[&[u8]])
    requires count { length sources.now ≡ length coefficients.now }
    requires few { length coefficients.now ≤ 15 }
    requires same { All (λ s. length s.now ≡ length target.old) sources.now }
    ensures { EachIndex target.new (λ k. slice_index target.new k
        ≡ combined coefficients.now (bytes_at (map (λ s. s.now) sources.now) k)) }
{
    if target.len() < LANES {
        clear(target);
        add_each(target, coefficients, sources);
    } else if are_ones(coefficients) {
        sum_plainly(target, coefficients, sources);
    } else if target.len() <= LANES + LANES {
        sum_few(target, coefficients, sources);
    } else {
        sum_by_tables(target, coefficients, sources);
    }
}
