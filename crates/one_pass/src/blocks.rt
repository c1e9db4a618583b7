//! The places of a block, and the sixteen lists there.
ghost use Rattle.std.specs.Prelude.{◌≡◌, ℕ, ◌+◌, ◌-◌, ◌<◌, ◌≤◌, All, EachIndex, length, map};
ghost use Rattle.std.specs.Prelude.{slice_index};
ghost use Rattle.one_pass.specs.Syndromes.{wide_syndrome, syndromes_at, column_at, HaveBytes};

use kernels::LANES;

/// How many places a block of one pass has at most. A missing list has so many zeros.
pub const LONG_BLOCK: usize = 4096;

static ZEROS: [u8; LONG_BLOCK] = [0; LONG_BLOCK];

/// So many zeros.
fn zeros(count: usize) -> &'static [u8]
    requires { count ≤ LONG_BLOCK }
    ensures long { length result.now ≡ count }
    ensures zeros { EachIndex result.now (λ k. slice_index result.now k ≡ 0) }
{
    &ZEROS[..count]
}

/// The bytes `at..end` of a list, or zeros where it is missing.
pub fn part_or_zeros<'a>(
    lists: &[Option<&'a [u8]>; 16],
    i: usize,
    at: usize,
    end: usize,
) -> &'a [u8]
    requires inside { i < 16 }
    requires long { HaveBytes lists.now end }
    requires order { at ≤ end }
    requires few { end ≤ at + LONG_BLOCK }
    ensures long { length result.now ≡ end - at }
    ensures bytes { EachIndex result.now (λ k. slice_index result.now k
        ≡ column_at lists.now (at + k) i) }
{
    match lists[i] {
        Some(list) => &list[at..end],
        None => zeros(end - at),
    }
}

/// The bytes `at..end` of each list, or zeros where it is missing.
#[inline(always)]
pub fn sources_of<'a>(lists: &[Option<&'a [u8]>; 16], at: usize, end: usize) -> [&'a [u8]; 16]
    requires long { HaveBytes lists.now end }
    requires order { at ≤ end }
    requires few { end ≤ at + LONG_BLOCK }
    ensures same { All (λ s. length s.now ≡ end - at) result }
    ensures syndromes { (k e : ℕ) → k < end - at → e < 4
        → syndromes_at (map (λ s. s.now) result) k e
        ≡ wide_syndrome e (column_at lists.now (at + k)) }
{
    let mut sources: [&'a [u8]; 16] = [&[]; 16];
    for i in 0..16 {
        sources[i] = part_or_zeros(lists, i, at, end);
    }
    sources
}

/// Where the next block begins. The last one ends with the lists, and may overlap the one before.
#[inline(always)]
pub fn next_block(done: usize, width: usize) -> usize
    requires wide { LANES ≤ width }
    requires more { done < width }
    ensures inside { result + LANES ≤ width }
    ensures no_gap { result ≤ done }
    ensures further { done < result + LANES }
{
    if width - done < LANES {
        width - LANES
    } else {
        done
    }
}
