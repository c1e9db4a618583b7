//! The parities of a blob's stripes.
ghost use Rattle.std.specs.Prelude.{◌≡◌, ◌<◌, ◌≤◌, ◌+◌, ◌*◌, ◌++◌, ℕ, List, length};
ghost use Rattle.std.specs.Prelude.{slice_index_or, slice_range, IfOk, OnOk};
ghost use Rattle.std.specs.Borrow.{Bor};
ghost use Rattle.lrc_code.specs.Code.{data_count};
ghost use Rattle.sealed.specs.Layout.{stripe_size};
ghost use Rattle.sealed.specs.Packed.{held_by, parities_by, AreParitiesOf};

use crate::packed::held_in;
use lrc_code::{Code, NoMemory, encode_to};
use std::alloc::Global;

/// The parities of `count` stripes: four for each stripe, one stripe after the other. `last` has
/// the padded bytes of a last, partial stripe.
pub(crate) fn all_parities(
    alloc: Global,
    code: Code,
    w: usize,
    blob: &[u8],
    last: &[u8],
    count: usize,
) -> Result<Vec<u8>, NoMemory>
    requires width { w ≤ 65536 }
    requires count { count ≤ 4096 }
    requires begin { (j : ℕ) → j < count → stripe_size code w * j < length blob.now }
    requires hold { (j : ℕ) → j < count → length (held_by (stripe_size code w) blob.now last.now j)
        ≡ stripe_size code w }
    ensures long { IfOk result (λ parities. length parities.items ≡ 4 * w * count) }
    ensures parities { IfOk result (λ parities. (j : ℕ) → j < count
        → AreParitiesOf code w (held_by (stripe_size code w) blob.now last.now j)
        (parities_by w parities.items j)) }
{
    let size = usize::from(code.data_fragments()) * w;
    let mut parities = Vec::with_capacity(alloc, 4 * w * count)?;
    for j in 0..count {
        push_parities(code, w, held_in(blob, last, size, j), &mut parities)?;
    }
    Ok(parities)
}

/// Appends the four parities of the stripe that holds these bytes, one after the other.
pub(crate) fn push_parities(
    code: Code,
    w: usize,
    held: &[u8],
    parities: &mut Vec<u8>,
) -> Result<(), NoMemory>
    requires width { w ≤ 65536 }
    requires long { length held.now ≡ stripe_size code w }
    ensures { OnOk result ((four : List ℕ) × AreParitiesOf code w held.now four
        × (parities.new.items ≡ parities.old.items ++ four)) }
{
    let start = parities.len();
    parities.resize(start + 4 * w, 0)?;
    write_parities(code, w, held, &mut parities[start..]);
    Ok(())
}

/// Writes the four parities of the stripe that holds these bytes, one after the other.
pub(crate) fn write_parities(code: Code, w: usize, held: &[u8], parities: &mut [u8])
    requires width { w ≤ 65536 }
    requires long { length held.now ≡ stripe_size code w }
    requires room { length parities.old ≡ 4 * w }
    ensures { AreParitiesOf code w held.now parities.new }
{
    let slices = data_slices(code, w, held);
    let (first, rest) = parities.split_at_mut(w);
    let (second, rest) = rest.split_at_mut(w);
    let (third, fourth) = rest.split_at_mut(w);
    let data = usize::from(code.data_fragments());
    encode_to(code, &slices[..data], first, second, third, fourth);
}

/// The data fragments of the stripe that holds these bytes, and then empty slices.
fn data_slices(code: Code, w: usize, held: &[u8]) -> [&[u8]; 12]
    requires width { w ≤ 65536 }
    requires long { length held.now ≡ stripe_size code w }
    ensures count { length result ≡ 12 }
    ensures slices { (f : ℕ) (other : Bor (List ℕ)) → f < data_count code
        → (slice_index_or result f other).now ≡ slice_range held.now (w * f) (w * f + w) }
{
    let mut slices: [&[u8]; 12] = [&[]; 12];
    for f in 0..usize::from(code.data_fragments()) {
        slices[f] = &held[w * f..w * f + w];
    }
    slices
}
