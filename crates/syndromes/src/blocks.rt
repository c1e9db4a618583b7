//! The syndromes at the places of a block, in four lists.
ghost use Rattle.std.specs.Prelude.{◌≡◌, ℕ, ◌+◌, ◌-◌, ◌<◌, ◌≤◌, [], ◌∷◌, All, EachIndex, length};
ghost use Rattle.std.specs.Prelude.{map, slice_index, bit_xor};
ghost use Rattle.kernels.specs.Lists.{combined, bytes_at, list_at};
ghost use Rattle.syndromes.specs.Syndromes.{wide_syndrome, column_at, HaveBytes};

use gf256::xor_into;
use kernels::{combine_lists, write_parities};
use one_pass::part_or_zeros;

/// How many places a block has at most: few enough that its syndromes stay in the first cache
/// beside the lists.
pub(crate) const BLOCK: usize = 1024;

/// Adds the bytes `at..end` of a list, where it is not missing.
fn add_part(target: &mut [u8], lists: &[Option<&[u8]>; 16], i: usize, at: usize, end: usize)
    requires inside { i < 16 }
    requires long { HaveBytes lists.now end }
    requires order { at ≤ end }
    requires same { length target.old ≡ end - at }
    ensures { EachIndex target.new (λ k. slice_index target.new k
        ≡ bit_xor (slice_index target.old k) (column_at lists.now (at + k) i)) }
{
    if let Some(list) = lists[i] {
        xor_into(target, &list[at..end]);
    }
}

/// Writes the four syndromes of the places `at..end`.
pub(crate) fn write_syndromes(
    lists: &[Option<&[u8]>; 16],
    at: usize,
    end: usize,
    first: &mut [u8],
    second: &mut [u8],
    third: &mut [u8],
    fourth: &mut [u8],
)
    requires long { HaveBytes lists.now end }
    requires order { at ≤ end }
    requires few { end ≤ at + BLOCK }
    requires same { length first.old ≡ end - at }
    requires same_second { length second.old ≡ end - at }
    requires same_third { length third.old ≡ end - at }
    requires same_fourth { length fourth.old ≡ end - at }
    ensures { (e k : ℕ) → e < 4 → k < end - at
        → slice_index (list_at (first.new ∷ second.new ∷ third.new ∷ fourth.new ∷ []) e) k
        ≡ wide_syndrome e (column_at lists.now (at + k)) }
{
    let mut sources: [&[u8]; 12] = [&[]; 12];
    for i in 0..12 {
        sources[i] = part_or_zeros(lists, i, at, end);
    }
    write_parities(&sources, first, second, third, fourth);
    add_part(first, lists, 12, at, end);
    add_part(second, lists, 13, at, end);
    add_part(third, lists, 14, at, end);
    add_part(fourth, lists, 15, at, end);
}

/// Makes the target the sum of the four lists, each times its factor; those with the factor 0 are
/// not read.
pub(crate) fn combine_four(target: &mut [u8], factors: &[u8; 4], lists: &[&[u8]; 4])
    requires same { All (λ s. length s.now ≡ length target.old) lists.now }
    ensures { EachIndex target.new (λ k. slice_index target.new k ≡ combined factors.now
        (bytes_at (map (λ s. s.now) lists.now) k)) }
{
    let mut coefficients = [0; 4];
    let mut sources: [&[u8]; 4] = [&[]; 4];
    let mut count = 0;
    for e in 0..4 {
        if factors[e] != 0 {
            coefficients[count] = factors[e];
            sources[count] = lists[e];
            count += 1;
        }
    }
    combine_lists(target, &coefficients[..count], &sources[..count]);
}
