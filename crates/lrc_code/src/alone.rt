//! A fragment that is alone lost in its group: the sum of the others of the group.
ghost use Rattle.std.specs.Prelude.{◌≡◌, ℕ, ◌+◌, ◌-◌, ◌<◌, ◌≤◌, true, false, All};
ghost use Rattle.std.specs.Prelude.{EachIndex, length, map, slice_index};
ghost use Rattle.lrc_code.specs.Code.{fragment_count, is_lost, is_alone};
ghost use Rattle.lrc_code.specs.Recipe.{recipe_sum, ones_of};
ghost use Rattle.lrc_code.specs.Stripe.{is_absent, byte_at, bytes_at, list_at, Reaches, HasRange};
ghost use Rattle.lrc_code.specs.Stripe.{Rebuilds, RebuildsFrom};

use crate::rebuilding::part_of;
use crate::{Code, Left, LostSet};
use kernels::combine_lists;

/// The others of the group of each fragment of LRC(12,2,2) that is in a group.
static WIDE_OTHERS: [[u8; 6]; 14] = [
    [1, 2, 3, 4, 5, 12],
    [0, 2, 3, 4, 5, 12],
    [0, 1, 3, 4, 5, 12],
    [0, 1, 2, 4, 5, 12],
    [0, 1, 2, 3, 5, 12],
    [0, 1, 2, 3, 4, 12],
    [7, 8, 9, 10, 11, 13],
    [6, 8, 9, 10, 11, 13],
    [6, 7, 9, 10, 11, 13],
    [6, 7, 8, 10, 11, 13],
    [6, 7, 8, 9, 11, 13],
    [6, 7, 8, 9, 10, 13],
    [0, 1, 2, 3, 4, 5],
    [6, 7, 8, 9, 10, 11],
];

/// The others of the group of each fragment of LRC(6,2,2) that is in a group.
static SMALL_OTHERS: [[u8; 3]; 8] = [
    [1, 2, 6],
    [0, 2, 6],
    [0, 1, 6],
    [4, 5, 7],
    [3, 5, 7],
    [3, 4, 7],
    [0, 1, 2],
    [3, 4, 5],
];

/// The coefficients of a plain sum.
static ONES: [u8; 6] = [1; 6];

/// Writes the sum of some fragments at each place of `from..to`.
#[inline(always)]
fn add_slices(bytes: &mut [u8], fragments: &[&[u8]; 16], others: &[u8], from: usize, to: usize)
    requires few { length others.now ≤ 6 }
    requires each { All (λ i. (i < 16) × (to ≤ length (list_at (map (λ f. f.now) fragments.now) i)))
        others.now }
    requires range { from ≤ to }
    requires long { length bytes.old ≡ to - from }
    ensures { EachIndex bytes.new (λ k. slice_index bytes.new k ≡ recipe_sum (ones_of others.now)
        (bytes_at (map (λ f. f.now) fragments.now) (from + k))) }
{
    let mut parts: [&[u8]; 6] = [&[]; 6];
    for i in 0..others.len() {
        parts[i] = &fragments[usize::from(others[i])][from..to];
    }
    combine_lists(bytes, &ONES[..others.len()], &parts[..others.len()]);
}

/// Writes the bytes `from..to` of a fragment that is alone lost in its group: the sum of the
/// others of the group. Reads no other fragment. Does not allocate.
pub fn rebuild_local_in(
    code: Code,
    lost: LostSet,
    fragments: &[&[u8]; 16],
    f: u8,
    from: usize,
    to: usize,
    bytes: &mut [u8],
)
    requires alone { is_alone code (is_lost lost) f ≡ true }
    requires range { from ≤ to }
    requires reach { (i : ℕ) → i < fragment_count code → is_lost lost i ≡ false
        → to ≤ length (list_at (map (λ f. f.now) fragments.now) i) }
    requires room { length bytes.old ≡ to - from }
    ensures { RebuildsFrom code (is_lost lost) (list_at (map (λ f. f.now) fragments.now)) f from to
        bytes.new }
{
    // one call for each code: of a slice of a known length the loop is unrolled
    match code {
        Code::Wide => add_slices(bytes, fragments, &WIDE_OTHERS[usize::from(f)], from, to),
        Code::Small => add_slices(bytes, fragments, &SMALL_OTHERS[usize::from(f)], from, to),
    }
}

/// Writes the sum of some fragments that are present at each place of `from..to`.
#[inline(always)]
fn add_present(bytes: &mut [u8], left: &Left, others: &[u8], from: usize, to: usize)
    requires few { length others.now ≤ 6 }
    requires each { All (λ i. (i < 16) × Reaches left.now.fragments to i) others.now }
    requires range { from ≤ to }
    requires long { length bytes.old ≡ to - from }
    ensures { EachIndex bytes.new (λ k. slice_index bytes.new k ≡ recipe_sum (ones_of others.now)
        (byte_at left.now.fragments (from + k))) }
{
    let mut parts: [&[u8]; 6] = [&[]; 6];
    for i in 0..others.len() {
        parts[i] = part_of(left, others[i], from, to);
    }
    combine_lists(bytes, &ONES[..others.len()], &parts[..others.len()]);
}

/// Writes the bytes `from..to` of a fragment that is alone absent of its group: the sum of the
/// others of the group.
pub(crate) fn rebuild_local_to(left: &Left, f: usize, from: usize, to: usize, bytes: &mut [u8])
    requires alone { is_alone left.now.code (is_absent left.now.fragments) f ≡ true }
    requires inside { HasRange left.now.code left.now.fragments f from to }
    requires room { length bytes.old ≡ to - from }
    ensures { Rebuilds left.now.code left.now.fragments f from to bytes.new }
{
    match left.code {
        Code::Wide => add_present(bytes, left, &WIDE_OTHERS[f], from, to),
        Code::Small => add_present(bytes, left, &SMALL_OTHERS[f], from, to),
    }
}
